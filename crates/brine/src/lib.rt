// The brine statement over a batch of sheets (document 02, Q-3). Parameters are those of the C call, in its order.
#![tactic(auto)]

ghost use Rattle.std.specs.Prelude.{◌≡◌, length, ltb};
ghost use Rattle.std.specs.List.{list_any};
ghost use Rattle.definition.specs.Refusal.{first_of};
ghost use Rattle.refusals.specs.Number.{number_of};
ghost use Rattle.brine_definition.specs.Statement.{brine_refusals, brine_outcome};

use brine_definition::{SHEETS_MOST, Statement};
use refusals::Refusal;
use sheet_definition::{MOST, RECORD};

// Whether a sheet has more records than the most.
fn one_over(counts: &[usize]) -> bool
    ensures { result ≡ list_any (λ n. ltb 1024 n) counts.now }
{
    counts.iter().any(|n| MOST < *n)
}

// Which refusal comes first, from counts and lengths alone. Every count is held to the most before they are added, so that no sum wraps.
fn judge(sheets: usize, counts: &[usize], intake: usize, spare: usize) -> Result<(), Refusal>
    ensures { number_of result ≡ first_of (brine_refusals sheets counts.now intake spare) }
{
    Refusal::Batch.when(SHEETS_MOST < counts.len())?;
    Refusal::Sheet.when(one_over(counts))?;
    let total = counts.iter().sum();
    Refusal::Sheet.when(sheets < RECORD * total)?;
    brine_sheet::listed(intake, spare, total)
}

// Where nothing is refused. Each sheet's bytes and places begin where those of the sheets before it end, faulted or not.
fn sheet_after_sheet(
    sheets: &[u8],
    counts: &[usize],
    intake: &mut [u64],
    spare: &mut [i64],
) -> Statement
    requires { first_of (brine_refusals (length sheets.now) counts.now (length intake.old) (length spare.old)) ≡ 0 }
    ensures { record { answer = result; intake = intake.new; spare = spare.new } ≡ brine_outcome sheets.now counts.now intake.old spare.old }
{
    // One table for all sheets: what an earlier sheet put into it isn't read in a later one.
    let mut places = [0u16; 65536];
    let mut all = Statement::default();
    let mut at = 0;
    for n in counts {
        let one = brine_sheet::statement(
            &sheets[RECORD * at..],
            *n,
            &mut places,
            &mut intake[at..],
            &mut spare[at..],
        );
        all.sound += one.sound;
        all.faulted += one.faulted;
        all.intake += one.intake;
        all.overloaded += one.overloaded;
        at += *n;
    }
    all
}

// The page and the totals of a batch; a refused call writes nothing.
pub fn statement(
    sheets: &[u8],
    counts: &[usize],
    intake: &mut [u64],
    spare: &mut [i64],
) -> Statement
    ensures { record { answer = result; intake = intake.new; spare = spare.new } ≡ brine_outcome sheets.now counts.now intake.old spare.old }
{
    match judge(sheets.len(), counts, intake.len(), spare.len()) {
        Ok(()) => sheet_after_sheet(sheets, counts, intake, spare),
        Err(refusal) => brine_sheet::refused(refusal),
    }
}
