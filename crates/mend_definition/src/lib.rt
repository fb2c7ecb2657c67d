// What a mend answers, for its definition and its code (document 02, Q-8), and how C is answered.
#![tactic(auto)]

ghost use Rattle.std.specs.Prelude.{◌≡◌};
ghost use Rattle.mend_definition.specs.Mend.{saying_of, mend_answer};

use refusals::Refusal;

// What the mender says: how many marks were wrong, which was first, "or that none was", and the rounds run.
#[derive(Clone, Copy, Debug, PartialEq, Eq)]
pub struct Mended {
    pub wrong: u64,
    pub first: Option<usize>,
    pub rounds: u64,
}

// The same for C, beside the refusal number or 0; first is 0 where no mark was wrong.
#[repr(C)]
#[derive(Clone, Copy, Debug, PartialEq, Eq)]
pub struct MendAnswer {
    pub number: u64,
    pub wrong: u64,
    pub first: u64,
    pub rounds: u64,
}

// First is cast: Rust has no From of a usize for u64.
impl From<Result<Mended, Refusal>> for MendAnswer {
    ghost from_gives = { λ r a. a ≡ mend_answer (saying_of r) };

    fn from(mended: Result<Mended, Refusal>) -> MendAnswer {
        match mended {
            Ok(m) => MendAnswer {
                number: 0,
                wrong: m.wrong,
                first: m.first.unwrap_or(0) as u64,
                rounds: m.rounds,
            },
            Err(r) => MendAnswer {
                number: u64::from(u32::from(r)),
                wrong: 0,
                first: 0,
                rounds: 0,
            },
        }
    }
}
