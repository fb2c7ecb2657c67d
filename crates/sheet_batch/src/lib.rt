// Many changes in one save (document 02, Q-4): all are made or none, under one claim, with one check and one work over the sheet.
// Parameters are those of the C call, in its order.
#![tactic(auto)]

ghost use Rattle.std.specs.Prelude.{◌≡◌, [], ◌∷◌, ◌+◌, ◌*◌, ◌≤◌, length};
ghost use Rattle.definition.specs.Buffer.{Every};
ghost use Rattle.definition.specs.Refusal.{first_of};
ghost use Rattle.refusals.specs.Number.{number_of};
ghost use Rattle.sheet_definition.specs.Sheet.{record_bytes};
ghost use Rattle.sheet_definition.specs.Refusals.{set_refusal, places_refusal, batch_refusals};
ghost use Rattle.sheet_definition.specs.SheetCalls.{written_at, batch_outcome};
ghost use Rattle.sheet_work.specs.Answered.{answer_of};

use refusals::Refusal;
use sheet_definition::{Lengths, RECORD};
use sheet_work::{Saved, Turned};

// The most changes of one save.
const MOST_CHANGES: usize = 64;

// 14: whether there are at most 64 places, and each is above the one before it.
fn rise(places: &[usize]) -> Result<(), Refusal>
    ensures { number_of result ≡ first_of (set_refusal places.now ∷ []) }
{
    Refusal::Set.when(MOST_CHANGES < places.len() || !places.is_sorted_by(|a, b| a < b))
}

// 7: whether n records have each of the places.
fn have(n: usize, places: &[usize]) -> Result<(), Refusal>
    ensures { number_of result ≡ first_of (places_refusal n places.now ∷ []) }
{
    Refusal::Place.when(places.iter().any(|p| n <= *p))
}

// The first refusal, whether a claim is stale left aside. Places that are too many or don't rise aren't looked through again.
fn judge(l: Lengths, places: &[usize], records: usize, claim: usize) -> Result<(), Refusal>
    ensures { number_of result ≡ first_of (batch_refusals l places.now «records» claim) }
{
    sheet_judge::build(l)?;
    rise(places)?;
    have(l.n, places)?;
    sheet_judge::sized(l.code, places.len(), records, claim)
}

// The new records, each written at its place.
fn put(sheet: &mut [u8], places: &[usize], records: &[u8])
    requires { (Every (λ p. record_bytes * (p + 1) ≤ length sheet.old) places.now) × (length «records».now ≡ record_bytes * length places.now) }
    ensures { sheet.new ≡ written_at places.now «records».now sheet.old }
{
    for (place, record) in places.iter().zip(records.chunks_exact(RECORD)) {
        octets::put_bytes(sheet, RECORD * *place, record);
    }
}

// The records at these places replaced, where the claim is the digest of the sheet held; without a place the claim is checked and nothing else.
pub fn batch(
    code: usize,
    sheet: &mut [u8],
    n: usize,
    marks: &mut [u32],
    places: &[usize],
    records: &[u8],
    claim: &[u8],
    out: &mut [u8],
) -> Result<Saved, Turned>
    ensures { record { answer = answer_of n result; sheet = sheet.new; marks = marks.new; out = out.new } ≡ batch_outcome code sheet.old n marks.old places.now «records».now claim.now out.old }
{
    let l = sheet_judge::lengths(code, sheet, n, marks, out);
    let judged = judge(l, places, records.len(), claim.len());
    let before = sheet_work::admit(judged, code, sheet, n, marks, claim)?;
    let Some(first) = places.first() else {
        // the claim is the digest held, as the check has found
        octets::put_bytes(out, 0, claim);
        return Ok(Saved {
            count: n,
            rounds: before,
        });
    };
    put(sheet, places, records);
    let rounds = sheet_work::work_on(code, sheet, n, marks, *first / 4, before, out);
    Ok(Saved { count: n, rounds })
}
