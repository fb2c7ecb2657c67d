// Saves that bring the planner's own marks and count (document 02, Q-6): judged by these too, then made by the plain call; where it is stale, the
// marks held are compared with the planner's own. Parameters are those of the C calls, in their order.
#![tactic(auto)]

ghost use Rattle.std.specs.Prelude.{◌≡◌, not, [], ◌∷◌, ◌+◌, ◌*◌, ◌≤◌, length, IfErr};
ghost use Rattle.definition.specs.Buffer.{same};
ghost use Rattle.definition.specs.Refusal.{STALE, first_of};
ghost use Rattle.refusals.specs.Number.{number, number_of};
ghost use Rattle.sheet_definition.specs.Sheet.{mark_words, q};
ghost use Rattle.sheet_definition.specs.Marks.{mark_at, state_from, mark_of};
ghost use Rattle.sheet_definition.specs.Own.{own_refusal, compared, nowhere, stale_as, located_answer};
ghost use Rattle.sheet_definition.specs.SheetCalls.{own_outcome};
ghost use Rattle.sheet_definition.specs.SheetCalls.Kind.{Change, Append, Drop};
ghost use Rattle.sheet_work.specs.Answered.{answer_of};
ghost use Rattle.sheet_own.specs.Located.{located_of, located};

use definition::Width;
use refusals::Refusal;
use sheet_definition::{Found, LocatedAnswer, MOST, Where};
use sheet_work::{Saved, Turned};

// Why a save with own marks is turned away, the rounds that its check took, and where the marks held are others than the planner's.
#[derive(Clone, Copy)]
pub struct Strayed {
    pub refusal: Refusal,
    pub rounds: u64,
    pub place: Where,
}

// Where the arguments are refused nothing is checked and nothing compared.
impl From<Refusal> for Strayed {
    ghost from_gives = { λ r s. s ≡ record { refusal = r; rounds = 0; place = nowhere } };

    fn from(refusal: Refusal) -> Strayed {
        Strayed {
            refusal,
            rounds: 0,
            place: Where {
                found: Found::Same,
                pairs: 0,
            },
        }
    }
}

// Whether mark m of two sheets holds another state. Only the blocks that the code uses are read.
fn other(w: Width, held: &[u32], own: &[u32], m: usize) -> bool
    requires { (40 * (m + 1) ≤ length held.now) × (40 * (m + 1) ≤ length own.now) }
    ensures { result ≡ not (same (mark_of (state_from w (mark_at held.now m))) (mark_of (state_from w (mark_at own.now m)))) }
{
    let a = blocks::words(sheet_marks::read(w, held, m));
    let b = blocks::words(sheet_marks::read(w, own, m));
    sheet_marks::differs(&a, &b)
}

// 15: over 1,024 records, marks too short for them, or mark 0 isn't the starting variables.
fn has_own(code: usize, n: usize, marks: &[u32]) -> Result<(), Refusal>
    ensures { number_of result ≡ first_of (own_refusal code n marks.now ∷ []) }
{
    Refusal::Own.when(MOST < n)?;
    Refusal::Own.when(sheet_judge::has_marks(n, marks.len()).is_err())?;
    let w = codes::width(code);
    let a = blocks::words(sheet_marks::read(w, marks, 0));
    let b = blocks::words(rounds::start(w));
    Refusal::Own.when(sheet_marks::differs(&a, &b))
}

// The first so many pairs of marks from mark 1 on, up to the first that differs.
fn compare(code: usize, held: &[u32], own: &[u32], last: usize) -> Where
    requires { (40 * (last + 1) ≤ length held.now) × (40 * (last + 1) ≤ length own.now) }
    ensures { result ≡ compared code held.now own.now last 0 }
{
    let used = codes::width(code);
    for g in 0..last {
        if other(used, held, own, g + 1) {
            return Where {
                found: Found::Group(g),
                pairs: g as u64 + 1,
            };
        }
    }
    Where {
        found: Found::Same,
        pairs: last as u64,
    }
}

// Why a stale save is turned away: 11 where a group is named, 16 where all shared marks agree.
fn stale(found: Found) -> Refusal
    ensures { number result ≡ stale_as found }
{
    match found {
        Found::Same => Refusal::StaleTail,
        Found::Group(_) => Refusal::Stale,
    }
}

// What the plain call answers, and where it is stale, the place: the marks after mark 0 that both sheets have are compared.
fn locate(
    code: usize,
    n: usize,
    marks: &[u32],
    owned: usize,
    own: &[u32],
    saved: Result<Saved, Turned>,
) -> Result<Saved, Strayed>
    requires { (mark_words * (q n + 1) ≤ length marks.now) × (mark_words * (q owned + 1) ≤ length own.now) × IfErr saved (λ t. number t.refusal ≡ STALE) }
    ensures { located_of n result ≡ located code n marks.now owned own.now (answer_of n saved) }
{
    match saved {
        Ok(done) => Ok(done),
        Err(turned) => {
            let place = compare(code, marks, own, (n / 4).min(owned / 4));
            Err(Strayed {
                refusal: stale(place.found),
                rounds: turned.rounds,
                place,
            })
        }
    }
}

// A record replaced, by a planner who brings his own marks. Each kind of save is lent other things: over an enum of kinds each would have two
// arms, one that judges and one that saves, and a closure that saves would be handed sheet, marks and out, which it can't hold beside `locate`.
pub fn change(
    code: usize,
    sheet: &mut [u8],
    n: usize,
    marks: &mut [u32],
    place: usize,
    record: &[u8],
    claim: &[u8],
    owned: usize,
    own: &[u32],
    out: &mut [u8],
) -> Result<Saved, Strayed>
    ensures { record { answer = located_of n result; sheet = sheet.new; marks = marks.new; out = out.new } ≡ own_outcome (record { code = code; n = n; sheet = sheet.old; marks = marks.old }) (Change place «record».now) claim.now owned own.now out.old }
{
    let l = sheet_judge::lengths(code, sheet, n, marks, out);
    sheet_judge::change(l, place, record.len(), claim.len())?;
    has_own(code, owned, own)?;
    let saved = sheet::change(code, sheet, n, marks, place, record, claim, out);
    locate(code, n, marks, owned, own, saved)
}

// A record added at the end, by a planner who brings his own marks.
pub fn append(
    code: usize,
    sheet: &mut [u8],
    n: usize,
    marks: &mut [u32],
    record: &[u8],
    claim: &[u8],
    owned: usize,
    own: &[u32],
    out: &mut [u8],
) -> Result<Saved, Strayed>
    ensures { record { answer = located_of n result; sheet = sheet.new; marks = marks.new; out = out.new } ≡ own_outcome (record { code = code; n = n; sheet = sheet.old; marks = marks.old }) (Append «record».now) claim.now owned own.now out.old }
{
    let l = sheet_judge::lengths(code, sheet, n, marks, out);
    sheet_judge::append(l, record.len(), claim.len())?;
    has_own(code, owned, own)?;
    let saved = sheet::append(code, sheet, n, marks, record, claim, out);
    locate(code, n, marks, owned, own, saved)
}

// The last record taken away, by a planner who brings his own marks.
pub fn drop(
    code: usize,
    sheet: &mut [u8],
    n: usize,
    marks: &mut [u32],
    claim: &[u8],
    owned: usize,
    own: &[u32],
    out: &mut [u8],
) -> Result<Saved, Strayed>
    ensures { record { answer = located_of n result; sheet = sheet.new; marks = marks.new; out = out.new } ≡ own_outcome (record { code = code; n = n; sheet = sheet.old; marks = marks.old }) Drop claim.now owned own.now out.old }
{
    let l = sheet_judge::lengths(code, sheet, n, marks, out);
    sheet_judge::drop(l, claim.len())?;
    has_own(code, owned, own)?;
    let saved = sheet::drop(code, sheet, n, marks, claim, out);
    locate(code, n, marks, owned, own, saved)
}

// The answer for C of a save of n records: which case was found, and the group, 0 where none is named.
// Counts and groups are cast, here and in `compare`: Rust has no From of a usize for u64.
pub fn answer(n: usize, saved: Result<Saved, Strayed>) -> LocatedAnswer
    ensures { result ≡ located_answer (located_of n saved) }
{
    match saved {
        Ok(done) => LocatedAnswer {
            number: 0,
            count: done.count as u64,
            rounds: done.rounds,
            kind: 0,
            group: 0,
            pairs: 0,
        },
        Err(strayed) => {
            let (kind, group) = match strayed.place.found {
                Found::Same => (0, 0),
                Found::Group(g) => (1, g as u64),
            };
            LocatedAnswer {
                number: u64::from(u32::from(strayed.refusal)),
                count: n as u64,
                rounds: strayed.rounds,
                kind,
                group,
                pairs: strayed.place.pairs,
            }
        }
    }
}
