// Who depends on a well (document 02, Q-10): a step for producers and one for injectors call each other while the hops left fall. Each is one pass
// over the sheet. Producers that are reached have their byte, injectors their number in a set of 8 KiB until the search is over: a link says a
// number, so nobody looks for the place of one. Parameters of the call are those of C, in its order.
#![tactic(auto)]

ghost use Rattle.std.specs.Prelude.{◌≡◌, false, ◌<◌, ◌≤◌, length};
ghost use Rattle.std.specs.List.{list_any};
ghost use Rattle.definition.specs.Refusal.{first_of};
ghost use Rattle.refusals.specs.Number.{number_of};
ghost use Rattle.plan_definition.specs.Well.{wells};
ghost use Rattle.plan_definition.specs.Rules.{struck};
ghost use Rattle.plan_definition.specs.Sound.{Sound};
ghost use Rattle.plan_record.specs.Total.{well_in};
ghost use Rattle.plan_numbers.specs.Numbers.{has};
ghost use Rattle.plan.specs.Sets.{wells_of};
ghost use Rattle.reach_definition.specs.Reach.{marks, reach_outcome};
ghost use Rattle.reach.specs.Front.{front_refusals};
ghost use Rattle.reach.specs.Sets.{touches, plus_named, plus_linked, MarkedBy};
ghost use Rattle.reach.specs.Level.{Searched, Found, Onward};

use plan_definition::{INJECTOR, Link, PRODUCER, Well};
use reach_definition::HOPS_MOST;
use refusals::Refusal;
use sheet_definition::RECORD;

// The place of the well that has a number: no well has 0, and a struck record is none. The number is judged whole.
fn find(records: &[u8], well: usize) -> Option<usize>
    requires { Sound (wells_of records.now) }
    ensures { Found records.now well result }
{
    if well == 0 {
        return None;
    }
    for i in 0..records.len() / RECORD {
        let w = plan_record::read(records, i);
        if usize::from(w.number) == well {
            return Some(i);
        }
    }
    None
}

// The injectors that links name put into a set.
fn take(links: &[Link], taken: &mut [u64; 1024])
    ensures { has taken.new ≡ plus_named links.now (has taken.old) }
{
    for l in links {
        plan_numbers::put(taken, l.injector);
    }
}

// Whether one of the links names an injector of a set.
fn one_taken(links: &[Link], taken: &[u64; 1024]) -> bool
    ensures { result ≡ list_any (λ l. has taken.now l.injector) links.now }
{
    links.iter().any(|l| plan_numbers::has(taken, l.injector))
}

// Whether a well is of a kind and a set of injectors touches it: an injector that is in it, a producer that links one.
fn touched(w: Well, kind: u8, taken: &[u64; 1024]) -> bool
    requires { w.count ≤ 4 }
    ensures { result ≡ touches (has taken.now) kind w }
{
    if w.kind != kind {
        return false;
    }
    if w.kind == INJECTOR {
        return plan_numbers::has(taken, w.number);
    }
    one_taken(&w.links[..usize::from(w.count)], taken)
}

// The injectors that marked wells link put into the set. A byte stands for each record of the sheet, here and below.
// No struct has Searched as a ghost field: each contract would still have to say that its records are as many as the bytes.
fn take_linked(records: &[u8], reached: &[u8], taken: &mut [u64; 1024])
    requires { Searched records.now (length reached.now) }
    ensures { has taken.new ≡ plus_linked reached.now (wells (length reached.now) records.now) (has taken.old) }
{
    // Over the places: the record is read by its place too, so an enumerate would say no more.
    for i in 0..reached.len() {
        if reached[i] == 1 {
            let w = plan_record::read(records, i);
            take(&w.links[..usize::from(w.count)], taken);
        }
    }
}

// The wells of a kind that the set touches marked.
fn mark(records: &[u8], kind: u8, taken: &[u64; 1024], reached: &mut [u8])
    requires { Searched records.now (length reached.old) }
    ensures { MarkedBy (has taken.now) kind (wells (length reached.old) records.now) reached.old reached.new }
{
    for (i, byte) in reached.iter_mut().enumerate() {
        let w = plan_record::read(records, i);
        if touched(w, kind, taken) {
            *byte = 1;
        }
    }
}

// The steps that document 01 names. The hops left, where the next is from producers to the injectors that they link; and where it is from injectors
// to the producers that link them.
#[cycle(from_injectors_from_producers)]
fn from_producers(records: &[u8], hops: usize, reached: &mut [u8], taken: &mut [u64; 1024])
    requires { Searched records.now (length reached.old) }
    ensures { Onward 1 (wells (length reached.old) records.now) hops reached.old taken.old reached.new taken.new }
{
    if hops == 0 {
        return;
    }
    take_linked(records, reached, taken);
    from_injectors(records, hops - 1, reached, taken);
}

#[cycle(from_injectors_from_producers)]
fn from_injectors(records: &[u8], hops: usize, reached: &mut [u8], taken: &mut [u64; 1024])
    requires { Searched records.now (length reached.old) }
    ensures { Onward 2 (wells (length reached.old) records.now) hops reached.old taken.old reached.new taken.new }
{
    if hops == 0 {
        return;
    }
    mark(records, PRODUCER, taken, reached);
    from_producers(records, hops - 1, reached, taken);
}

// The marks of a sound sheet's records from the well at a place.
fn search(records: &[u8], place: usize, hops: usize, reached: &mut [u8])
    requires { Searched records.now (length reached.old) × (place < length reached.old) × (struck (well_in records.now place) ≡ false) }
    ensures { reached.new ≡ marks (wells (length reached.old) records.now) (well_in records.now place).number hops }
{
    reached.fill(0);
    let mut taken = [0u64; 1024];
    let w = plan_record::read(records, place);
    if w.kind == PRODUCER {
        reached[place] = 1;
        from_producers(records, hops, reached, &mut taken);
    } else {
        plan_numbers::put(&mut taken, w.number);
        from_injectors(records, hops, reached, &mut taken);
    }
    mark(records, INJECTOR, &taken, reached);
}

// The refusals that are judged before a well is looked for: 5, 19 and 20. What a sheet means is asked only if there are records to read.
fn judged(sheet: &[u8], n: usize, hops: usize) -> Result<(), Refusal>
    ensures { number_of result ≡ first_of (front_refusals sheet.now n hops) }
{
    sheet_judge::has_records(n, sheet.len())?;
    Refusal::Hops.when(HOPS_MOST < hops)?;
    Refusal::Unsound.when(!plan::says_sound(plan::check(sheet, n)))
}

// Each record that a chain of at most so many links joins to the well marked 1, each other of the n records 0.
pub fn reach(
    sheet: &[u8],
    n: usize,
    well: usize,
    hops: usize,
    reached: &mut [u8],
) -> Result<(), Refusal>
    ensures { record { number = number_of result; reached = reached.new } ≡ reach_outcome sheet.now n well hops reached.old }
{
    judged(sheet, n, hops)?;
    let records = &sheet[..RECORD * n];
    let place = find(records, well).ok_or(Refusal::Well)?;
    Refusal::Reach.when(reached.len() < n)?;
    search(records, place, hops, &mut reached[..n]);
    Ok(())
}
