// The plain data that the definitions of the sheet and the code of the sheet family share. No code stands here.
#![tactic(auto)]

// The most records of a sheet, the bytes of a record and of a group of four, and the words of a mark (document 01, "Sheet and marks").
pub const MOST: usize = 1024;

pub const RECORD: usize = 40;

pub const GROUP: usize = 160;

pub const MARK: usize = 40;

// What every sheet call is judged by: code, count, and how long the buffers are.
#[derive(Clone, Copy, Debug, PartialEq, Eq)]
pub struct Lengths {
    pub code: usize,
    pub n: usize,
    pub sheet_length: usize,
    pub marks_length: usize,
    pub out_length: usize,
}

// What a sheet call answers: the refusal number or 0, the records of the sheet, and the rounds run (document 01, "Sheet and marks").
// C is answered it, so it's no Result; in Rust a call answers a Result of sheet_work's.
#[repr(C)]
#[derive(Clone, Copy)]
pub struct Answer {
    pub number: u64,
    pub count: u64,
    pub rounds: u64,
}

// What the comparing of a stale save's marks found (document 02, Q-6): "same marks shared, or names group g".
// It isn't an Option: Same says that all shared marks agree, where None would say that nothing was found.
#[derive(Clone, Copy)]
pub enum Found {
    Same,
    Group(usize),
}

// "beside the number of pairs compared"
#[derive(Clone, Copy)]
pub struct Where {
    pub found: Found,
    pub pairs: u64,
}

// The answer of a save that brings the planner's own marks, and where. It stays beside sheet_own's Result, since the definitions read it.
#[derive(Clone, Copy)]
pub struct Located {
    pub number: u64,
    pub count: u64,
    pub rounds: u64,
    pub place: Where,
}

// The same for C, which is answered numbers alone: kind 0 is same, 1 a group, which is 0 where it is the same.
#[repr(C)]
#[derive(Clone, Copy)]
pub struct LocatedAnswer {
    pub number: u64,
    pub count: u64,
    pub rounds: u64,
    pub kind: u64,
    pub group: u64,
    pub pairs: u64,
}
