// The plain data that the definitions of the brine statement and its code share (document 02, Q-3). No code stands here.
#![tactic(auto)]

// The most sheets of a batch, and the kilograms of a tonne.
pub const SHEETS_MOST: usize = 64;

pub const KILOGRAMS: u64 = 1000;

// The refusal's number, and over a batch: sheets sound, sheets faulted, total intake in kilograms a day, injectors overloaded. C is answered with
// this struct, so the number stands beside the figures; a Result would need a second one of the same four figures.
#[repr(C)]
#[derive(Clone, Copy, Default)]
pub struct Statement {
    pub number: u64,
    pub sound: u64,
    pub faulted: u64,
    pub intake: u64,
    pub overloaded: u64,
}
