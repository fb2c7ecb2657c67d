// The plain data that the definitions of who depends on a well and its code share (document 02, Q-10). No code stands here.
#![tactic(auto)]

// The most hops that can be asked for.
pub const HOPS_MOST: usize = 3;
