// The final stage: a blank round, and the XOR of all blocks after it, for every eight output words (source, 3.3 and 5).
#![tactic(auto)]

ghost use Rattle.std.specs.Prelude.{◌≡◌, ◌/◌, min, length, replicate};
ghost use Rattle.definition.specs.Word.{bytes_of_all};
ghost use Rattle.definition.specs.Block.{zero_block, xor_all, words_of};
ghost use Rattle.definition.specs.Round.{chain};
ghost use Rattle.definition.specs.Padding.{padded, blocks};
ghost use Rattle.definition.specs.State.{five, blocks_in};
ghost use Rattle.definition.specs.Final.{final_rounds, final as final_of};
ghost use Rattle.definition.specs.Counted.{counted_chain};
ghost use Rattle.definition.specs.Buffer.{overwrite};

use definition::{Block, Counted, State, Width};

// OF: the words of the XOR of all blocks; those that w doesn't use are zero.
fn output(s: State) -> [u32; 8]
    ensures { result ≡ words_of (xor_all (five s)) }
{
    let z = s.h0 ^ (s.h1 ^ (s.h2 ^ (s.h3 ^ (s.h4 ^ Block::ZERO))));
    [z.a0, z.a1, z.a2, z.a3, z.a4, z.a5, z.a6, z.a7]
}

// A number of words of the final stage, or as many as the buffer has room for whole.
pub fn squeeze(w: Width, c: Counted, words: usize, out: &mut [u8]) -> Counted
    ensures value { result ≡ counted_chain w c (replicate (final_rounds (min words (length out.old / 4))) zero_block) }
    ensures out_after { out.new ≡ overwrite (bytes_of_all (final_of w (min words (length out.old / 4)) (blocks_in w c.state))) out.old }
{
    let n = words.min(out.len() / 4);
    let mut d = Counted {
        state: blocks::used(w, c.state),
        rounds: c.rounds,
    };
    for k in 0..n.div_ceil(8) {
        d = rounds::absorb(w, d, &[0u8; 32]);
        let z = output(d.state);
        octets::put_words(out, 32 * k, &z[..(n - 8 * k).min(8)]);
    }
    d
}

// The end of a message, from the state before it: its last bytes under a closing byte, then a number of words of the final stage, or as many
// as the buffer has room for whole. The rounds told are those of the final stage alone, so their count begins with it.
pub fn end(w: Width, s: State, rest: &[u8], closing: u8, words: usize, out: &mut [u8]) -> u64
    ensures value { result ≡ final_rounds (min words (length out.old / 4)) }
    ensures out_after { out.new ≡ overwrite (bytes_of_all (final_of w (min words (length out.old / 4)) (chain w (blocks_in w s) (blocks (padded closing rest.now))))) out.old }
{
    let c = Counted {
        state: s,
        rounds: 0,
    };
    let mut d = rounds::last::absorb_last(w, c, rest, closing);
    d.rounds = 0;
    let e = squeeze(w, d, words, out);
    e.rounds
}
