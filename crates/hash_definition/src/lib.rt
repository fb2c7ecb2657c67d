// The plain data that the definitions of the hash record and the code of the hash family share. No code stands here.
#![tactic(auto)]

use definition::State;

// The kept hash record by value: its code, the odd bits, its state, the pending bytes, and the whole bytes fed so far in two words, the high
// one first (document 01, "The kept hash record"; document 02, Q-7).
#[repr(C)]
#[derive(Clone, Copy)]
pub struct Kept {
    pub code: usize,
    pub odd: usize,
    pub state: State,
    pub pending: [u8; 32],
    pub high: u64,
    pub low: u64,
}

// What a piece that completes no block alters.
#[derive(Clone, Copy)]
pub struct Held {
    pub odd: usize,
    pub pending: [u8; 32],
    pub high: u64,
    pub low: u64,
}

// What a call over a lent working state answers, by value: the refusal number or 0, and the working state as it is at the end. The definitions speak
// of it; the code answers a Result.
#[derive(Clone, Copy)]
pub struct Lent {
    pub number: u32,
    pub kept: Kept,
}

// What a call for longer output answers: the refusal number or 0, and the rounds of the final stage (document 02, Q-2). C is answered with this
// struct, so the number stands beside the rounds; the code below answers a Result.
#[repr(C)]
#[derive(Clone, Copy)]
pub struct OutputAnswer {
    pub number: u64,
    pub rounds: u64,
}
