// The message injection function MI undone by the equations of Appendix E of the source, from the last to the first: XOR, doubling and division of
// blocks (document 02, Q-9).
#![tactic(auto)]

ghost use Rattle.std.specs.Prelude.{◌≡◌, ◌%◌};
ghost use Rattle.definition.specs.Block.{◌⊕◌};
ghost use Rattle.definition.specs.Field.{double as double_of, keep, times as times_of};
ghost use Rattle.definition.specs.State.{blocks_in, state_of};
ghost use Rattle.back_definition.specs.Injection.{ring_sum, unring, unspread as unspread_of, inject_back};
ghost use Rattle.injection_back.specs.Parts.{inverse_at, unrings_at};

use blocks::{double, multiples, sum, used, with_each};
use definition::{Block, State, Width};

// 1 / 3, 1 / (2^4 ^ 1) and 1 / (2^5 ^ 1) in the field of 3.2.
const THIRD: u32 = 0xf6;

const RING4: u32 = 0xb4;

const RING5: u32 = 0x6e;

// t, and b with it where the lowest bit is 1.
fn added(bits: u32, b: Block, t: Block) -> Block
    ensures { result ≡ keep (bits % 2) b ⊕ t }
{
    if bits % 2 == 1 { b ^ t } else { t }
}

// A block times a constant of the field, from the constant's highest bit on.
fn times(c: u32, b: Block) -> Block
    ensures { result ≡ times_of c b }
{
    let mut r = Block::ZERO;
    for i in (0..8u32).rev() {
        r = added(c >> i, b, double(r));
    }
    r
}

// The sum that a ring of blocks leaves.
fn ring_sum(y: &[Block]) -> Block
    ensures { result ≡ ring_sum y.now }
{
    let mut r = Block::ZERO;
    for b in y.iter().rev() {
        r = *b ^ double(r);
    }
    r
}

// A ring undone: the last block from the sum, and each other one from the one after it.
fn unring<const N: usize>(inverse: u32, y: [Block; N]) -> [Block; N]
    ensures { result ≡ unring inverse y.entry }
{
    let mut e = y;
    let mut last = times(inverse, ring_sum(&y));
    // By place: what is written through a zip with iter_mut isn't known to a proof.
    for j in (0..N).rev() {
        e[j] = last;
        last = y[j] ^ double(last);
    }
    e
}

// The rings of w undone: none, one of four, or two of five, the second of them in the other direction.
fn unrings(w: Width, s: State) -> State
    ensures { blocks_in w result ≡ unrings_at w (blocks_in w s) }
{
    match w {
        Width::W3 => s,
        Width::W4 => {
            let [h0, h1, h2, h3] = unring(RING4, [s.h0, s.h1, s.h2, s.h3]);
            State {
                h0,
                h1,
                h2,
                h3,
                h4: Block::ZERO,
            }
        }
        Width::W5 => {
            let mut x = unring(RING5, [s.h0, s.h1, s.h2, s.h3, s.h4]);
            x.reverse();
            let mut e = unring(RING5, x);
            e.reverse();
            let [h0, h1, h2, h3, h4] = e;
            State { h0, h1, h2, h3, h4 }
        }
    }
}

// The sum of all η_j divided by what it has of the sum of all H_j: by 3 where w is odd.
fn share(w: Width, sum: Block) -> Block
    ensures { result ≡ times_of (inverse_at w) sum }
{
    match w {
        Width::W3 | Width::W5 => times(THIRD, sum),
        Width::W4 => sum,
    }
}

// The spreading of the sum undone.
fn unspread(w: Width, s: State) -> State
    ensures { result ≡ state_of (unspread_of (inverse_at w) (blocks_in w s)) }
{
    let e = used(w, s);
    used(w, with_each(e, double(share(w, sum(e)))))
}

// MI undone at w.
pub fn inject(w: Width, s: State, m: Block) -> State
    ensures { result ≡ state_of (inject_back w (blocks_in w s) m) }
{
    unspread(w, unrings(w, s ^ multiples(m)))
}
