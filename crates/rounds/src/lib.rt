// Luffa's rounds: the starting state, the round with its count, whole blocks from a byte slice, and the padded end of a message (source, 3.1
// and 3.2). Every round is run by counted_round.
#![tactic(auto)]

pub mod last;

ghost use Rattle.std.specs.Prelude.{◌≡◌};
ghost use Rattle.definition.specs.State.{blocks_in, state_of};
ghost use Rattle.definition.specs.Round.{round as round_of};
ghost use Rattle.definition.specs.Start.{start as start_of};
ghost use Rattle.definition.specs.Counted.{counted_round, counted_chain};
ghost use Rattle.definition.specs.Padding.{blocks};

use definition::{Block, Counted, State, Width};

// The starting variables of Appendix A.
fn starting_variables() -> State
    ensures { result ≡ state_of Rattle.definition.specs.Start.starting_variables }
{
    State {
        h0: Block {
            a0: 0x6d251e69,
            a1: 0x44b051e0,
            a2: 0x4eaa6fb4,
            a3: 0xdbf78465,
            a4: 0x6e292011,
            a5: 0x90152df4,
            a6: 0xee058139,
            a7: 0xdef610bb,
        },
        h1: Block {
            a0: 0xc3b44b95,
            a1: 0xd9d2f256,
            a2: 0x70eee9a0,
            a3: 0xde099fa3,
            a4: 0x5d9b0557,
            a5: 0x8fc944b3,
            a6: 0xcf1ccf0e,
            a7: 0x746cd581,
        },
        h2: Block {
            a0: 0xf7efc89d,
            a1: 0x5dba5781,
            a2: 0x04016ce5,
            a3: 0xad659c05,
            a4: 0x0306194f,
            a5: 0x666d1836,
            a6: 0x24aa230a,
            a7: 0x8b264ae7,
        },
        h3: Block {
            a0: 0x858075d5,
            a1: 0x36d79cce,
            a2: 0xe571f7d7,
            a3: 0x204b1f67,
            a4: 0x35870c6a,
            a5: 0x57e9e923,
            a6: 0x14bcb808,
            a7: 0x7cde72ce,
        },
        h4: Block {
            a0: 0x6c68e9be,
            a1: 0x5ec41e22,
            a2: 0xc825b7c7,
            a3: 0xaffb4363,
            a4: 0xf5df3999,
            a5: 0x0fc688f1,
            a6: 0xb07224cc,
            a7: 0x03e86cea,
        },
    }
}

// The starting state at w.
pub fn start(w: Width) -> State
    ensures { result ≡ state_of (start_of w) }
{
    blocks::used(w, starting_variables())
}

// The round function: injection, then permutation. Private, so that counted_round alone can run one.
fn round(w: Width, s: State, m: Block) -> State
    ensures { result ≡ state_of (round_of w (blocks_in w s) m) }
{
    permutation::permute(w, injection::inject(w, s, m))
}

// The one function that runs a round with its count: it takes the count with the state and gives it back one higher.
pub fn counted_round(w: Width, c: Counted, m: Block) -> Counted
    ensures { result ≡ counted_round w c m }
{
    Counted {
        state: round(w, c.state, m),
        rounds: c.rounds.wrapping_add(1),
    }
}

// A round for each full 32 bytes of a slice, where they lie.
pub fn absorb(w: Width, c: Counted, s: &[u8]) -> Counted
    ensures { result ≡ counted_chain w c (blocks s.now) }
{
    let mut d = c;
    for m in s.chunks_exact(32) {
        d = counted_round(w, d, octets::full_block(m));
    }
    Counted {
        state: blocks::used(w, d.state),
        rounds: d.rounds,
    }
}
