// Mending marks (document 02, Q-8): each mark of a sheet is held against the true state, which is worked out from the sheet alone, and replaced
// where it isn't that. Every round is run by `rounds::counted_round`, and its count goes on to the answer.
#![tactic(auto)]

ghost use Rattle.std.specs.Prelude.{◌≡◌, [], ◌∷◌, ◌+◌, ◌*◌, ◌<◌, ◌≤◌, length};
ghost use Rattle.definition.specs.Refusal.{first_of, width_refusal};
ghost use Rattle.refusals.specs.Number.{number_of};
ghost use Rattle.sheet_definition.specs.Refusals.{sheet_refusal, marks_refusal};
ghost use Rattle.mend_definition.specs.Mend.{saying_of, mend_outcome};
ghost use Rattle.mend.specs.Look.{other, noted, put};

use definition::{Counted, State};
use mend_definition::Mended;
use refusals::Refusal;
use sheet_definition::{GROUP, MARK};

// Which refusal comes first, 1, 5 or 6.
fn judge(code: usize, sheet: usize, n: usize, marks: usize) -> Result<(), Refusal>
    ensures { number_of result ≡ first_of (width_refusal code ∷ sheet_refusal n sheet ∷ marks_refusal n marks ∷ []) }
{
    refusals::known_code(code)?;
    sheet_judge::has_records(n, sheet)?;
    sheet_judge::has_marks(n, marks)
}

// What was found of the marks that were looked at.
#[derive(Clone, Copy)]
struct Found {
    wrong: u64,
    first: Option<usize>,
}

// Mark m looked at beside a state: where it isn't that, unused blocks zero, it is written and noted.
fn look(found: Found, marks: &mut [u32], m: usize, s: State) -> Found
    requires { (40 * (m + 1) ≤ length marks.old) × (found.wrong ≤ m) }
    ensures value { result ≡ noted (other marks.old m s) m found }
    ensures marks_after { marks.new ≡ put (other marks.old m s) m s marks.old }
{
    let words = blocks::words(s);
    if !sheet_marks::differs(&marks[MARK * m..MARK * m + MARK], &words) {
        return found;
    }
    sheet_marks::write(marks, m, s);
    Found {
        wrong: found.wrong + 1,
        first: found.first.or(Some(m)),
    }
}

// Marks 0 to floor(n/4), from the starting variables on: mark k, and then group k on the way to the next.
pub fn mend(code: usize, sheet: &[u8], n: usize, marks: &mut [u32]) -> Result<Mended, Refusal>
    ensures { record { answer = saying_of result; sheet = sheet.now; marks = marks.new } ≡ mend_outcome code sheet.now n marks.old }
{
    judge(code, sheet.len(), n, marks.len())?;
    let w = codes::width(code);
    let mut c = Counted {
        state: rounds::start(w),
        rounds: 0,
    };
    let mut found = Found {
        wrong: 0,
        first: None,
    };
    let last = n / 4;
    // By number: k is the mark that is looked at, and the group after it.
    for k in 0..last {
        found = look(found, marks, k, c.state);
        c = rounds::absorb(w, c, &sheet[GROUP * k..GROUP * k + GROUP]);
    }
    found = look(found, marks, last, c.state);
    Ok(Mended {
        wrong: found.wrong,
        first: found.first,
        rounds: c.rounds,
    })
}
