// The plain data that the definitions of specs/ and the code of the crates above share, with XOR of it.
#![tactic(auto)]

ghost use Rattle.std.specs.Prelude.{◌≡◌};
ghost use Rattle.definition.specs.Block.{◌⊕◌};
ghost use Rattle.definition.specs.State.{xor_states};

use std::ops::BitXor;

// A block of 256 bits: eight words of 32 bits, a0 the most significant (source, 2.2).
#[repr(C)]
#[derive(Clone, Copy, Debug, PartialEq, Eq)]
pub struct Block {
    pub a0: u32,
    pub a1: u32,
    pub a2: u32,
    pub a3: u32,
    pub a4: u32,
    pub a5: u32,
    pub a6: u32,
    pub a7: u32,
}

impl Block {
    // The block of zeros (3.3).
    pub const ZERO: Block = Block {
        a0: 0,
        a1: 0,
        a2: 0,
        a3: 0,
        a4: 0,
        a5: 0,
        a6: 0,
        a7: 0,
    };
}

// XOR, word by word (2.1.2).
impl BitXor for Block {
    type Output = Block;

    ghost bitxor_gives = { λ a b r. r ≡ a ⊕ b };

    fn bitxor(self, b: Block) -> Block {
        Block {
            a0: self.a0 ^ b.a0,
            a1: self.a1 ^ b.a1,
            a2: self.a2 ^ b.a2,
            a3: self.a3 ^ b.a3,
            a4: self.a4 ^ b.a4,
            a5: self.a5 ^ b.a5,
            a6: self.a6 ^ b.a6,
            a7: self.a7 ^ b.a7,
        }
    }
}

// The number of blocks of a state, w in the source (Table 2): three, four or five.
#[derive(Clone, Copy, Debug, PartialEq, Eq)]
pub enum Width {
    W3,
    W4,
    W5,
}

// Two words: MixWord's outputs y_k and y_k+4 (4.3), or the step constants c_0 and c_4 (4.4).
#[derive(Clone, Copy, Debug, PartialEq, Eq)]
pub struct Pair {
    pub left: u32,
    pub right: u32,
}

// Four words: SubCrumb's outputs x_0 to x_3 (4.2).
#[derive(Clone, Copy, Debug, PartialEq, Eq)]
pub struct Crumb {
    pub x0: u32,
    pub x1: u32,
    pub x2: u32,
    pub x3: u32,
}

// The state H_0 to H_w-1 in room for five blocks; those that w doesn't use are zero.
#[repr(C)]
#[derive(Clone, Copy, Debug, PartialEq, Eq)]
pub struct State {
    pub h0: Block,
    pub h1: Block,
    pub h2: Block,
    pub h3: Block,
    pub h4: Block,
}

impl State {
    pub const ZERO: State = State {
        h0: Block::ZERO,
        h1: Block::ZERO,
        h2: Block::ZERO,
        h3: Block::ZERO,
        h4: Block::ZERO,
    };
}

// XOR, block by block.
impl BitXor for State {
    type Output = State;

    ghost bitxor_gives = { λ s t r. r ≡ xor_states s t };

    fn bitxor(self, t: State) -> State {
        State {
            h0: self.h0 ^ t.h0,
            h1: self.h1 ^ t.h1,
            h2: self.h2 ^ t.h2,
            h3: self.h3 ^ t.h3,
            h4: self.h4 ^ t.h4,
        }
    }
}

// A state with the number of rounds run so far: the count travels with the work.
#[derive(Clone, Copy, Debug, PartialEq, Eq)]
pub struct Counted {
    pub state: State,
    pub rounds: u64,
}
