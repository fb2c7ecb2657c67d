// The brine statement of one sheet (document 02, Q-3), of which a batch is made.
#![tactic(auto)]

ghost use Rattle.std.specs.Prelude.{◌≡◌, true, [], ◌∷◌, ◌≤◌, pos, length, replicate};
ghost use Rattle.definition.specs.Refusal.{first_of};
ghost use Rattle.refusals.specs.Number.{number, number_of};
ghost use Rattle.plan_definition.specs.Rules.{injector};
ghost use Rattle.plan_definition.specs.Check.{sound};
ghost use Rattle.brine_definition.specs.Count.{sum};
ghost use Rattle.brine_definition.specs.Page.{spare_of, row_when, rows};
ghost use Rattle.brine_definition.specs.Statement.{intakes, spares, below_zero, statement_of, refused_by, list_refusal, brine_refusals, brine_outcome};
ghost use Rattle.plan.specs.Sets.{count_of, wells_of};
ghost use Rattle.plan_places.specs.Places.{placed};
ghost use Rattle.brine_sheet.specs.Stated.{Stated};
ghost use Rattle.brine_sheet.specs.Table.{placed_if, table_after};
ghost use Rattle.brine_sheet.specs.Sent.{Named, AllNamed, brought_to, sent_to, Added, Takes};

use brine_definition::{KILOGRAMS, Statement};
use plan_definition::{INJECTOR, Link, PRODUCER, Well};
use refusals::Refusal;
use sheet_definition::RECORD;

// What links at a rate bring, added to the intakes at the places of the injectors that they name.
fn send(rate: u64, links: &[Link], places: &[u16; 65536], intake: &mut [u64])
    requires { Named places.now (length intake.old) links.now × Takes (brought_to places.now rate links.now) intake.old }
    ensures { Added (brought_to places.now rate links.now) intake.old intake.new }
{
    for l in links {
        let p = plan_places::at(places, l.injector);
        intake[p] += rate * u64::from(l.share);
    }
}

// What the producers of a sheet send, added to the intakes.
fn send_all(records: &[u8], places: &[u16; 65536], intake: &mut [u64])
    requires { AllNamed places.now (length intake.old) (wells_of records.now) × Takes (sent_to places.now (wells_of records.now)) intake.old }
    ensures { Added (sent_to places.now (wells_of records.now)) intake.old intake.new }
{
    for i in 0..records.len() / RECORD {
        let w = plan_record::read(records, i);
        if w.kind == PRODUCER {
            let links = &w.links[..usize::from(w.count)];
            send(u64::from(w.rate), links, places, intake);
        }
    }
}

// What is spare of an injector's capacity at an intake, in kilograms a day; 0 for another well. The bound is what 1,024 producers send at most.
fn spare_of(w: Well, intake: u64) -> i64
    requires { intake ≤ 102400000000 }
    ensures { result ≡ (row_when (injector w) (record { intake = intake; spare = spare_of w.rate intake })).spare }
{
    if w.kind != INJECTOR {
        return 0;
    }
    // Document 01 names the form: a negation and a difference of bounded products. By `as`: there is no `From` from u64 to i64 (nor from usize
    // to u64, below).
    let excess = intake as i64 - (KILOGRAMS * u64::from(w.rate)) as i64;
    -excess
}

// The spares of a sound sheet's records, whose intakes are there already, and its part of the answer. The lists are two, as C lends them, so it is
// asked here, and of the two functions below, that they are as long as the sheet has records.
fn settle(records: &[u8], intake: &[u64], spare: &mut [i64]) -> Statement
    requires { (length spare.old ≡ count_of records.now) × (sound (wells_of records.now) ≡ true) × (intake.now ≡ intakes (rows (wells_of records.now))) × (sum intake.now ≤ 102400000000) }
    ensures { (result ≡ statement_of (wells_of records.now ∷ [])) × (spare.new ≡ spares (rows (wells_of records.now))) }
{
    // An index: after a zip with `iter_mut` the goals don't name the list that was written.
    for (i, s) in spare.iter_mut().enumerate() {
        *s = spare_of(plan_record::read(records, i), intake[i]);
    }
    Statement {
        sound: 1,
        intake: intake.iter().sum(),
        overloaded: spare.iter().filter(|s| **s < 0).count() as u64,
        ..Statement::default()
    }
}

// The figures of a sound sheet whose lists are zeros: first what its producers send, then what is spare.
fn sound_sheet(
    records: &[u8],
    places: &mut [u16; 65536],
    intake: &mut [u64],
    spare: &mut [i64],
) -> Statement
    requires { (count_of records.now ≤ 1024) × (sound (wells_of records.now) ≡ true) × (intake.old ≡ replicate (count_of records.now) 0) × (length spare.old ≡ count_of records.now) }
    ensures { Stated (wells_of records.now) result intake.new spare.new × (places.new ≡ placed records.now (count_of records.now) places.old) }
{
    plan_places::put(records, records.len() / RECORD, places);
    send_all(records, places, intake);
    settle(records, intake, spare)
}

// The rows of a sheet's records, in lists as long as it has records, and its part of the answer.
fn page(
    records: &[u8],
    places: &mut [u16; 65536],
    intake: &mut [u64],
    spare: &mut [i64],
) -> Statement
    requires { (count_of records.now ≤ 1024) × (length intake.old ≡ count_of records.now) × (length spare.old ≡ count_of records.now) }
    ensures { Stated (wells_of records.now) result intake.new spare.new × (places.new ≡ placed_if (sound (wells_of records.now)) records.now (count_of records.now) places.old) }
{
    // An empty sheet is sound and has no rows: a batch may have many.
    if records.is_empty() {
        return Statement {
            sound: 1,
            ..Statement::default()
        };
    }
    intake.fill(0);
    spare.fill(0);
    if plan::says_sound(plan::check(records, records.len() / RECORD)) {
        return sound_sheet(records, places, intake, spare);
    }
    Statement {
        faulted: 1,
        ..Statement::default()
    }
}

// 25: whether both lists have a place for each of so many records.
pub fn listed(intake: usize, spare: usize, records: usize) -> Result<(), Refusal>
    ensures { number_of result ≡ first_of (list_refusal records intake spare ∷ []) }
{
    Refusal::Lists.when(intake < records || spare < records)
}

// The first refusal of a batch of one sheet, from its numbers alone.
fn judged(sheet: usize, n: usize, intake: usize, spare: usize) -> Result<(), Refusal>
    ensures { number_of result ≡ first_of (brine_refusals sheet (n ∷ []) intake spare) }
{
    sheet_judge::has_records(n, sheet)?;
    listed(intake, spare, n)
}

// The answer of a refused call: its number and four zeros.
pub fn refused(refusal: Refusal) -> Statement
    ensures { result ≡ refused_by (number refusal) }
{
    Statement {
        number: u64::from(u32::from(refusal)),
        ..Statement::default()
    }
}

// The brine statement over a batch of this sheet alone. The table is lent so that a batch has one for all its sheets;
// what it holds before doesn't matter.
pub fn statement(
    sheet: &[u8],
    n: usize,
    places: &mut [u16; 65536],
    intake: &mut [u64],
    spare: &mut [i64],
) -> Statement
    ensures { (record { answer = result; intake = intake.new; spare = spare.new } ≡ brine_outcome sheet.now (n ∷ []) intake.old spare.old) × (places.new ≡ table_after sheet.now n (length intake.old) (length spare.old) places.old) }
{
    match judged(sheet.len(), n, intake.len(), spare.len()) {
        Ok(()) => page(
            &sheet[..RECORD * n],
            places,
            &mut intake[..n],
            &mut spare[..n],
        ),
        Err(refusal) => refused(refusal),
    }
}
