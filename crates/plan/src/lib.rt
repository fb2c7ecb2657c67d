// The calls on what a sheet's records mean: the check of content (document 02, Q-1). A table of bits for "injector" and one for "seen", 8 KiB
// each, make it linear in n.
#![tactic(auto)]

ghost use Rattle.std.specs.Prelude.{◌≡◌};
ghost use Rattle.plan_definition.specs.Rules.{is_injector_of};
ghost use Rattle.plan_definition.specs.Check.{first_fault, says_sound, verdict};
ghost use Rattle.plan_numbers.specs.Numbers.{has};
ghost use Rattle.plan.specs.Sets.{wells_of, plus_injectors};

use plan_definition::{INJECTOR, Verdict};
use sheet_definition::RECORD;

// The numbers of the injectors among some records put into a set.
fn put_injectors(records: &[u8], t: &mut [u64; 1024])
    ensures { has t.new ≡ plus_injectors (wells_of records.now) (has t.old) }
{
    for i in 0..records.len() / RECORD {
        let w = plan_record::read(records, i);
        if w.kind == INJECTOR {
            plan_numbers::put(t, w.number);
        }
    }
}

// The lowest place where a rule is broken, with the first rule that is. The numbers of the places that were passed go into a set. A struck record is
// asked for no rule, and its number isn't met.
fn first_broken(records: &[u8], injectors: &[u64; 1024]) -> Verdict
    requires { has injectors.now ≡ is_injector_of (wells_of records.now) }
    ensures { result ≡ first_fault (wells_of records.now) (wells_of records.now) }
{
    let mut seen = [0u64; 1024];
    for i in 0..records.len() / RECORD {
        let w = plan_record::read(records, i);
        if plan_rules::struck(w) {
            continue;
        }
        if let Some(rule) = plan_rules::broken(w, injectors, &seen) {
            return Verdict::Fault(rule, i);
        }
        plan_numbers::put(&mut seen, w.number);
    }
    Verdict::Sound
}

// Whether the n records of a sheet make sense, or else the lowest faulty place with the first rule that is broken there.
pub fn check(sheet: &[u8], n: usize) -> Verdict
    ensures { result ≡ verdict sheet.now n }
{
    if let Err(refusal) = sheet_judge::has_records(n, sheet.len()) {
        return Verdict::Refused(u64::from(u32::from(refusal)));
    }
    // Without records no set is laid out.
    if n == 0 {
        return Verdict::Sound;
    }
    let records = &sheet[..RECORD * n];
    let mut injectors = [0u64; 1024];
    put_injectors(records, &mut injectors);
    first_broken(records, &injectors)
}

// Whether the check of content found no fault. Arm by arm, so that an edit can exchange a faulted sheet's.
pub fn says_sound(v: Verdict) -> bool
    ensures { result ≡ says_sound v }
{
    match v {
        Verdict::Refused(_) => false,
        Verdict::Sound => true,
        Verdict::Fault(_, _) => false,
    }
}
