// The refusals of documents 01 and 02, how judgements are joined into a call's list, and the two refusals that calls of every family begin with.
#![tactic(auto)]

ghost use Rattle.std.specs.Prelude.{◌≡◌, [], ◌∷◌, ◌*◌};
ghost use Rattle.definition.specs.Refusal.{first_of, when_done, width_refusal, out_refusal};
ghost use Rattle.refusals.specs.Number.{number, number_of};

// Why a call is refused: documents 01 and 02 say each by a number, which C is answered with.
#[derive(Clone, Copy, Debug, PartialEq, Eq)]
pub enum Refusal {
    Width = 1,
    Out = 2,
    Record = 3,
    Long = 4,
    Sheet = 5,
    Marks = 6,
    Place = 7,
    Full = 8,
    Size = 9,
    Claim = 10,
    Stale = 11,
    Words = 12,
    Batch = 13,
    Set = 14,
    Own = 15,
    StaleTail = 16,
    Odd = 17,
    Back = 18,
    Hops = 19,
    Unsound = 20,
    Well = 21,
    Reach = 22,
    Places = 23,
    Columns = 24,
    Lists = 25,
}

impl From<Refusal> for u32 {
    ghost from_gives = { λ r k. k ≡ number r };

    fn from(r: Refusal) -> u32 {
        r as u32
    }
}

impl Refusal {
    // Refused for this where a condition holds.
    pub fn when(self, holds: bool) -> Result<(), Refusal>
        ensures { number_of result ≡ first_of ((number self, holds) ∷ []) }
    {
        if holds { Err(self) } else { Ok(()) }
    }
}

// What C is answered: the number of the refusal, or 0.
pub fn number_of(judged: Result<(), Refusal>) -> u32
    ensures { result ≡ number_of judged }
{
    match judged {
        Ok(()) => 0,
        Err(r) => u32::from(r),
    }
}

// Two judgements in their order: the first that refuses.
pub fn in_turn(a: Result<(), Refusal>, b: Result<(), Refusal>) -> Result<(), Refusal>
    ensures { number_of result ≡ when_done (number_of a) (number_of b) (number_of a) }
{
    a.and(b)
}

// 1: a code argument isn't 1 to 4.
pub fn known_code(code: usize) -> Result<(), Refusal>
    ensures { number_of result ≡ first_of (width_refusal code ∷ []) }
{
    Refusal::Width.when(!codes::known(code))
}

// 2: the output buffer has under four bytes for each word that is put into it. Its length is divided and the words aren't multiplied, so that
// nothing wraps.
pub fn room(words: usize, out: usize) -> Result<(), Refusal>
    ensures { number_of result ≡ first_of (out_refusal (4 * words) out ∷ []) }
{
    Refusal::Out.when(out / 4 < words)
}
