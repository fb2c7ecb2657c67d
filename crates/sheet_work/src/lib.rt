// The work from a mark to the end of a sheet, which every call uses, and the check of a save by it (document 01, "Sheet and marks"). Every
// round is run by `rounds::counted_round`, and its count goes on to the answer.
#![tactic(auto)]

ghost use Rattle.std.specs.Prelude.{◌≡◌, ◌+◌, ◌*◌, ◌^◌, ◌<◌, ◌≤◌, length};
ghost use Rattle.definition.specs.Luffa.{bytes_at};
ghost use Rattle.definition.specs.Buffer.{overwrite};
ghost use Rattle.refusals.specs.Number.{number_of};
ghost use Rattle.sheet_definition.specs.Sheet.{most, record_bytes, mark_words, q};
ghost use Rattle.sheet_definition.specs.Marks.{worked};
ghost use Rattle.sheet_work.specs.Admission.{admitted, admission};
ghost use Rattle.sheet_work.specs.Answered.{answer_of};

use definition::Counted;
use refusals::Refusal;
use sheet_definition::{Answer, GROUP, RECORD};

// What a save that is done leaves beside the buffers: the records of the sheet, and the rounds run.
#[derive(Clone, Copy, Debug, PartialEq, Eq)]
pub struct Saved {
    pub count: usize,
    pub rounds: u64,
}

// Why a save is turned away, and the rounds that its check took.
#[derive(Clone, Copy, Debug, PartialEq, Eq)]
pub struct Turned {
    pub refusal: Refusal,
    pub rounds: u64,
}

// Where the arguments are refused nothing is checked.
impl From<Refusal> for Turned {
    ghost from_gives = { λ r t. t ≡ record { refusal = r; rounds = 0 } };

    fn from(refusal: Refusal) -> Turned {
        Turned { refusal, rounds: 0 }
    }
}

// What C is answered of a call over n records: where it is turned away the count is the one that it was handed.
// Counts are cast: Rust has no From of a usize for u64.
pub fn answer(n: usize, saved: Result<Saved, Turned>) -> Answer
    ensures { result ≡ answer_of n saved }
{
    match saved {
        Ok(s) => Answer {
            number: 0,
            count: s.count as u64,
            rounds: s.rounds,
        },
        Err(t) => Answer {
            number: u64::from(u32::from(t.refusal)),
            count: n as u64,
            rounds: t.rounds,
        },
    }
}

// From mark m as found to the end of n records: the marks after m are written on the way, and the digest into the front of out. The count
// goes on from the rounds that were run before.
// Code, sheet, n and marks stay parameters: `admit` is handed them before it is known that they fit, so no type can say so.
pub fn work_on(
    code: usize,
    sheet: &[u8],
    n: usize,
    marks: &mut [u32],
    m: usize,
    before: u64,
    out: &mut [u8],
) -> u64
    requires { (n ≤ most) × (record_bytes * n ≤ length sheet.now) × (mark_words * (q n + 1) ≤ length marks.old) × (m ≤ q n) × (before < 2 ^ 32) × (bytes_at code ≤ length out.old) }
    ensures value { result ≡ before + (worked code n sheet.now marks.old m).rounds }
    ensures marks_after { marks.new ≡ (worked code n sheet.now marks.old m).marks }
    ensures out_after { out.new ≡ overwrite (worked code n sheet.now marks.old m).digest out.old }
{
    let w = codes::width(code);
    let mut c = Counted {
        state: sheet_marks::read(w, marks, m),
        rounds: before,
    };
    let last = n / 4;
    for k in m..last {
        let at = GROUP * k;
        c = rounds::absorb(w, c, &sheet[at..at + GROUP]);
        sheet_marks::write(marks, k + 1, c.state);
    }
    let rest = &sheet[GROUP * last..RECORD * n];
    let d = rounds::last::absorb_last(w, c, rest, rounds::last::CLOSING);
    let e = squeeze::squeeze(w, d, codes::words(code), out);
    e.rounds
}

// The rounds run, where a claim is the digest of the sheet held, worked out from mark q as found; else the save is stale.
fn check(
    code: usize,
    sheet: &[u8],
    n: usize,
    marks: &mut [u32],
    claim: &[u8],
) -> Result<u64, Turned>
    requires { (n ≤ most) × (record_bytes * n ≤ length sheet.now) × (mark_words * (q n + 1) ≤ length marks.old) × (length claim.now ≡ bytes_at code) }
    ensures value { admitted result ≡ admission 0 (record { code = code; n = n; sheet = sheet.now; marks = marks.old }) claim.now }
    ensures marks_unchanged { marks.new ≡ marks.old }
{
    let mut digest = [0u8; 64];
    let rounds = work_on(code, sheet, n, marks, n / 4, 0, &mut digest);
    if digest.starts_with(claim) {
        return Ok(rounds);
    }
    Err(Turned {
        refusal: Refusal::Stale,
        rounds,
    })
}

// Judged, checked, stale or go on after so many rounds: so every save begins, with what its arguments were judged to be.
pub fn admit(
    judged: Result<(), Refusal>,
    code: usize,
    sheet: &[u8],
    n: usize,
    marks: &mut [u32],
    claim: &[u8],
) -> Result<u64, Turned>
    requires { number_of judged ≡ 0 → (n ≤ most) × (record_bytes * n ≤ length sheet.now) × (mark_words * (q n + 1) ≤ length marks.old) × (length claim.now ≡ bytes_at code) }
    ensures value { admitted result ≡ admission (number_of judged) (record { code = code; n = n; sheet = sheet.now; marks = marks.old }) claim.now }
    ensures marks_unchanged { marks.new ≡ marks.old }
{
    judged?;
    check(code, sheet, n, marks, claim)
}
