// Blocks and states as every part above handles them: doubling, the message's multiples, sums, the tweak, the blocks that w uses, the number w,
// and the words of a state (source, 2.2, 3.2 and 4.5).
#![tactic(auto)]

ghost use Rattle.std.specs.Prelude.{◌≡◌, ◌≤◌, [], ◌∷◌, replicate};
ghost use Rattle.definition.specs.Block.{◌⊕◌, words_of_all};
ghost use Rattle.definition.specs.Field.{double as double_of};
ghost use Rattle.definition.specs.Permutation.{tweak as tweak_of};
ghost use Rattle.definition.specs.Width.{block_count};
ghost use Rattle.definition.specs.State.{five, xor_states, blocks_in, state_of};

use definition::{Block, State, Width};

// Multiplication by 0x02 (3.2).
pub fn double(a: Block) -> Block
    ensures { result ≡ double_of a }
{
    Block {
        a0: a.a7,
        a1: a.a0 ^ a.a7,
        a2: a.a1,
        a3: a.a2 ^ a.a7,
        a4: a.a3 ^ a.a7,
        a5: a.a4,
        a6: a.a5,
        a7: a.a6,
    }
}

// M, 2M, 4M, 8M and 16M: what Appendix E adds to each block, 2^j M to the j-th.
pub fn multiples(m: Block) -> State
    ensures { result ≡ state_of
        (m ∷ double_of m ∷ double_of (double_of m) ∷ double_of (double_of (double_of m)) ∷ double_of (double_of (double_of (double_of m))) ∷ []) }
{
    let m1 = double(m);
    let m2 = double(m1);
    let m3 = double(m2);
    let m4 = double(m3);
    State {
        h0: m,
        h1: m1,
        h2: m2,
        h3: m3,
        h4: m4,
    }
}

// The XOR of all five blocks.
pub fn sum(s: State) -> Block
    ensures { result ≡ s.h0 ⊕ s.h1 ⊕ s.h2 ⊕ s.h3 ⊕ s.h4 }
{
    s.h0 ^ s.h1 ^ s.h2 ^ s.h3 ^ s.h4
}

// A block XORed to each of the five.
pub fn with_each(s: State, t: Block) -> State
    ensures { result ≡ xor_states s (state_of (replicate 5 t)) }
{
    s ^ State {
        h0: t,
        h1: t,
        h2: t,
        h3: t,
        h4: t,
    }
}

// The tweak: words 4 to 7 of a block rotated left by j (4.5).
pub fn tweak(j: u32, b: Block) -> Block
    requires { j ≤ 32 }
    ensures { result ≡ tweak_of j b }
{
    Block {
        a4: b.a4.rotate_left(j),
        a5: b.a5.rotate_left(j),
        a6: b.a6.rotate_left(j),
        a7: b.a7.rotate_left(j),
        ..b
    }
}

// A state with the blocks that w doesn't use zero.
pub fn used(w: Width, s: State) -> State
    ensures { result ≡ state_of (blocks_in w s) }
{
    match w {
        Width::W3 => State {
            h3: Block::ZERO,
            h4: Block::ZERO,
            ..s
        },
        Width::W4 => State {
            h4: Block::ZERO,
            ..s
        },
        Width::W5 => s,
    }
}

// The number w.
pub fn count(w: Width) -> usize
    ensures { result ≡ block_count w }
{
    match w {
        Width::W3 => 3,
        Width::W4 => 4,
        Width::W5 => 5,
    }
}

// The words of all five blocks, one block after the other.
pub fn words(s: State) -> [u32; 40]
    ensures { result ≡ words_of_all (five s) }
{
    let h0 = s.h0;
    let h1 = s.h1;
    let h2 = s.h2;
    let h3 = s.h3;
    let h4 = s.h4;
    [
        h0.a0, h0.a1, h0.a2, h0.a3, h0.a4, h0.a5, h0.a6, h0.a7, h1.a0, h1.a1, h1.a2, h1.a3, h1.a4,
        h1.a5, h1.a6, h1.a7, h2.a0, h2.a1, h2.a2, h2.a3, h2.a4, h2.a5, h2.a6, h2.a7, h3.a0, h3.a1,
        h3.a2, h3.a3, h3.a4, h3.a5, h3.a6, h3.a7, h4.a0, h4.a1, h4.a2, h4.a3, h4.a4, h4.a5, h4.a6,
        h4.a7,
    ]
}
