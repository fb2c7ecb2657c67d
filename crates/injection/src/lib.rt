// The message injection function MI by the forms of Appendix E of the source: XOR and doubling of blocks, over five at every w.
#![tactic(auto)]

ghost use Rattle.std.specs.Prelude.{◌≡◌, replicate};
ghost use Rattle.definition.specs.Block.{◌⊕◌};
ghost use Rattle.definition.specs.Field.{double as double_of};
ghost use Rattle.definition.specs.Injection.{inject as inject_of};
ghost use Rattle.definition.specs.State.{xor_states, blocks_in, state_of};
ghost use Rattle.injection.specs.Forms.{twice as twice_of, before as before_of, after as after_of};

use blocks::{double, multiples, sum, used, with_each};
use definition::{Block, State, Width};

// η_j = H_j ^ 2 (H_0 ^ .. ^ H_4) of E-2 and E-3, where the blocks that w doesn't use are zero.
#[inline(always)]
fn spread(s: State) -> State
    ensures { result ≡ xor_states s (state_of (replicate 5 (double_of (s.h0 ⊕ s.h1 ⊕ s.h2 ⊕ s.h3 ⊕ s.h4)))) }
{
    with_each(s, double(sum(s)))
}

// Each block doubled.
#[inline(always)]
fn twice(s: State) -> State
    ensures { result ≡ twice_of s }
{
    State {
        h0: double(s.h0),
        h1: double(s.h1),
        h2: double(s.h2),
        h3: double(s.h3),
        h4: double(s.h4),
    }
}

// The block before each in a ring, which begins with the block after its last one.
#[inline(always)]
fn before(s: State, last: Block) -> State
    ensures { result ≡ before_of s last }
{
    State {
        h0: last,
        h1: s.h0,
        h2: s.h1,
        h3: s.h2,
        h4: s.h3,
    }
}

// The block after each in a ring of five.
#[inline(always)]
fn after(s: State) -> State
    ensures { result ≡ after_of s }
{
    State {
        h0: s.h1,
        h1: s.h2,
        h2: s.h3,
        h3: s.h4,
        h4: s.h0,
    }
}

// MI at w: E-1's X_j = η_j ^ 2^j M, E-2's X_j = 2 η_j ^ η_j-1 ^ 2^j M, and E-3's X_j = 2 ξ_j ^ ξ_j-1 ^ 2^j M with ξ_j = 2 η_j ^ η_j+1. An arm
// for each w holds all of it, so that nothing is worked out for blocks that w doesn't use.
pub fn inject(w: Width, s: State, m: Block) -> State
    ensures { result ≡ state_of (inject_of w (blocks_in w s) m) }
{
    match w {
        Width::W3 => used(Width::W3, spread(used(Width::W3, s)) ^ multiples(m)),
        Width::W4 => {
            let e = spread(used(Width::W4, s));
            used(Width::W4, twice(e) ^ before(e, e.h3) ^ multiples(m))
        }
        Width::W5 => {
            let e = spread(s);
            let x = twice(e) ^ after(e);
            let ms = multiples(m);
            twice(x) ^ before(x, x.h4) ^ ms
        }
    }
}
