// Which refusal comes first, from codes, numbers and lengths alone (document 01, "Refusal numbers", and document 02, Q-11): a function for each
// refusal, and for each call its list of them, one after the other. Whether a claim is stale is judged afterwards.
#![tactic(auto)]

ghost use Rattle.std.specs.Prelude.{◌≡◌, [], ◌∷◌};
ghost use Rattle.definition.specs.Luffa.{bytes_at};
ghost use Rattle.definition.specs.Refusal.{first_of};
ghost use Rattle.refusals.specs.Number.{number_of};
ghost use Rattle.sheet_definition.specs.Refusals.{lengths_of, sheet_refusal, marks_refusal, place_refusal, full_refusal, size_refusal, claim_refusal, list_refusal, build_refusals, change_refusals, append_refusals, drop_refusals, close_up_refusals};

use refusals::Refusal;
use sheet_definition::{Lengths, MARK, MOST, RECORD};

// 5: whether the buffer holds n records, at most 1,024. Lengths are divided and n isn't multiplied, so that nothing wraps.
pub fn has_records(n: usize, sheet: usize) -> Result<(), Refusal>
    ensures { number_of result ≡ first_of (sheet_refusal n sheet ∷ []) }
{
    Refusal::Sheet.when((MOST < n) | (sheet / RECORD < n))
}

// 6: whether there is room for the marks of n records.
pub fn has_marks(n: usize, marks: usize) -> Result<(), Refusal>
    ensures { number_of result ≡ first_of (marks_refusal n marks ∷ []) }
{
    Refusal::Marks.when(marks / MARK <= n / 4)
}

// 7: whether n records have such a place.
fn has_place(n: usize, place: usize) -> Result<(), Refusal>
    ensures { number_of result ≡ first_of (place_refusal n place ∷ []) }
{
    Refusal::Place.when(n <= place)
}

// 8: whether there is room for a record more. Of n + 1 records floor(n/4) groups are full, and one more where r = 3.
fn one_more(n: usize, sheet: usize, marks: usize) -> Result<(), Refusal>
    ensures { number_of result ≡ first_of (full_refusal n sheet marks ∷ []) }
{
    Refusal::Full.when((n == MOST) | (sheet / RECORD <= n) | (marks / MARK <= n / 4 + n % 4 / 3))
}

// 9: whether there are 40 bytes for each new record. Lengths are divided, so that nothing wraps.
fn records_size(count: usize, records: usize) -> Result<(), Refusal>
    ensures { number_of result ≡ first_of (size_refusal count «records» ∷ []) }
{
    Refusal::Size.when((records / RECORD != count) | (records % RECORD != 0))
}

// 10: whether the claim has the digest's bytes.
fn claim_size(code: usize, claim: usize) -> Result<(), Refusal>
    ensures { number_of result ≡ first_of (claim_refusal (bytes_at code) claim ∷ []) }
{
    Refusal::Claim.when(claim != 4 * codes::words(code))
}

// 23: whether the list has room for a place of each of n records.
fn list_room(n: usize, places: usize) -> Result<(), Refusal>
    ensures { number_of result ≡ first_of (list_refusal n places ∷ []) }
{
    Refusal::Places.when(places < n)
}

// What a call is judged by, of what it was lent.
pub fn lengths(code: usize, sheet: &[u8], n: usize, marks: &[u32], out: &[u8]) -> Lengths
    ensures { result ≡ lengths_of (record { code = code; n = n; sheet = sheet.now; marks = marks.now }) out.now }
{
    Lengths {
        code,
        n,
        sheet_length: sheet.len(),
        marks_length: marks.len(),
        out_length: out.len(),
    }
}

// The four refusals that every sheet call begins with.
pub fn build(l: Lengths) -> Result<(), Refusal>
    ensures { number_of result ≡ first_of (build_refusals l) }
{
    refusals::known_code(l.code)?;
    refusals::room(codes::words(l.code), l.out_length)?;
    refusals::in_turn(
        has_records(l.n, l.sheet_length),
        has_marks(l.n, l.marks_length),
    )
}

// The refusals of a save's new records, so many, and of its claim.
pub fn sized(code: usize, count: usize, records: usize, claim: usize) -> Result<(), Refusal>
    ensures { number_of result ≡ first_of (size_refusal count «records» ∷ claim_refusal (bytes_at code) claim ∷ []) }
{
    records_size(count, records)?;
    claim_size(code, claim)
}

// The refusals of each kind of save. They begin and end alike, and what stands between takes other arguments: over an enum of kinds each would
// have an arm of these same lines.
pub fn change(l: Lengths, place: usize, record: usize, claim: usize) -> Result<(), Refusal>
    ensures { number_of result ≡ first_of (change_refusals l place «record» claim) }
{
    build(l)?;
    has_place(l.n, place)?;
    sized(l.code, 1, record, claim)
}

pub fn append(l: Lengths, record: usize, claim: usize) -> Result<(), Refusal>
    ensures { number_of result ≡ first_of (append_refusals l «record» claim) }
{
    build(l)?;
    one_more(l.n, l.sheet_length, l.marks_length)?;
    sized(l.code, 1, record, claim)
}

pub fn drop(l: Lengths, claim: usize) -> Result<(), Refusal>
    ensures { number_of result ≡ first_of (drop_refusals l claim) }
{
    build(l)?;
    has_place(l.n, 0)?;
    claim_size(l.code, claim)
}

pub fn close_up(l: Lengths, places: usize, claim: usize) -> Result<(), Refusal>
    ensures { number_of result ≡ first_of (close_up_refusals l places claim) }
{
    build(l)?;
    list_room(l.n, places)?;
    claim_size(l.code, claim)
}
