// The permutation P undone: Q_j undone on each block of a state (source, 4.1 and 4.5; document 02, Q-9). The generator of the step constants (4.4)
// is run to its end and then backwards, beside the steps.
#![tactic(auto)]

ghost use Rattle.std.specs.Prelude.{◌≡◌, ◌<◌, nat_lt};
ghost use Rattle.definition.specs.Block.{zero_block};
ghost use Rattle.definition.specs.Constant.{exchanged, constants_from};
ghost use Rattle.definition.specs.Refusal.{pick};
ghost use Rattle.definition.specs.State.{blocks_in, state_of};
ghost use Rattle.generator.specs.Turns.{applied};
ghost use Rattle.back_definition.specs.Step.{steps_back, permute_back};
ghost use Rattle.back_definition.specs.Round.{permute_back_from};
ghost use Rattle.permutation_back.specs.Generator.{f_l_back};

use blocks::{count, tweak};
use definition::{Block, Pair, State, Width};
use generator::{MASK, STARTS, right, turn_whole};

// One application of the generator undone: the exchange undoes itself, and f_L is undone by the lowest bit of what it gives. g is odd and twice a
// number is even, so that bit is 1 exactly where g was taken away.
fn turn_back(t: u64) -> u64
    ensures { result ≡ f_l_back (exchanged t) }
{
    let f = t.rotate_left(32);
    let taken = 0u64.wrapping_sub(f % 2) & MASK;
    ((f % 2) << 63) | ((f ^ taken) >> 1)
}

// The generator after the sixteen applications of eight steps.
fn ended(start: u64) -> u64
    ensures { result ≡ applied 16 start }
{
    let mut t = start;
    for _ in 0..16usize {
        t = turn_whole(t);
    }
    t
}

// The eight steps undone, the last first; each takes its two constants from the generator on its way back.
fn steps(start: u64, b: Block) -> Block
    ensures { result ≡ steps_back (constants_from 8 start) b }
{
    let mut t = ended(start);
    let mut a = b;
    for _ in 0..8usize {
        let t1 = turn_back(t);
        let c = Pair {
            left: right(t1),
            right: right(t),
        };
        t = turn_back(t1);
        a = step_back::step(c, a);
    }
    a
}

// Q_j undone where block j is one of the first n; zero where it isn't. The tweak is undone by words 4 to 7 rotated on until they have gone around.
// Q_j undone is compiled once for all j, so that the read of its start isn't worked out beforehand. Five tests of j would let the compiler work out
// where the generator ends from each start, and store that, of which half is a step constant; tests/image looks for it.
fn block(n: usize, j: usize, b: Block) -> Block
    requires { j < 5 }
    ensures { result ≡ pick (nat_lt j n) (permute_back j b) zero_block }
{
    if j < n {
        let starts = STARTS;
        tweak((32 - j) as u32, steps(starts[j], b))
    } else {
        Block::ZERO
    }
}

// P undone: Q_j undone on block j for each j below w.
pub fn permute(w: Width, s: State) -> State
    ensures { result ≡ state_of (permute_back_from 0 (blocks_in w s)) }
{
    let n = count(w);
    State {
        h0: block(n, 0, s.h0),
        h1: block(n, 1, s.h1),
        h2: block(n, 2, s.h2),
        h3: block(n, 3, s.h3),
        h4: block(n, 4, s.h4),
    }
}
