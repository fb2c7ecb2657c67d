// The sheet and its marks: build, change, append, drop (document 01, "Sheet and marks" and refusals 1, 2 and 5 to 11). Each call's outcome,
// the answer and the buffers that were lent, is one function of its inputs. Parameters are those of the C calls, in their order.
#![tactic(auto)]

ghost use Rattle.std.specs.Prelude.{◌≡◌, length};
ghost use Rattle.refusals.specs.Number.{number_of};
ghost use Rattle.sheet_definition.specs.SheetCalls.{build_outcome, change_outcome, append_outcome, drop_outcome};
ghost use Rattle.sheet_definition.specs.Save.{save_outcome};
ghost use Rattle.sheet_work.specs.Answered.{answer_of};
ghost use Rattle.sheet.specs.Save.{Valid, record_save};

use refusals::Refusal;
use sheet_definition::RECORD;
use sheet_work::{Saved, Turned};

// All marks of a sheet, and its digest.
pub fn build(
    code: usize,
    sheet: &[u8],
    n: usize,
    marks: &mut [u32],
    out: &mut [u8],
) -> Result<Saved, Turned>
    ensures { record { answer = answer_of n result; sheet = sheet.now; marks = marks.new; out = out.new } ≡ build_outcome code sheet.now n marks.old out.old }
{
    let l = sheet_judge::lengths(code, sheet, n, marks, out);
    sheet_judge::build(l)?;
    sheet_marks::write(marks, 0, rounds::start(codes::width(code)));
    let rounds = sheet_work::work_on(code, sheet, n, marks, 0, 0, out);
    Ok(Saved { count: n, rounds })
}

// A save of one record, by what its arguments were judged to be: the record written at its place, from n records to count, where the
// claim is the digest of the sheet held.
fn save(
    judged: Result<(), Refusal>,
    code: usize,
    sheet: &mut [u8],
    n: usize,
    marks: &mut [u32],
    place: usize,
    record: &[u8],
    count: usize,
    claim: &[u8],
    out: &mut [u8],
) -> Result<Saved, Turned>
    requires { number_of judged ≡ 0 → Valid code (length sheet.old) n (length marks.old) place (length «record».now) count (length claim.now) (length out.old) }
    ensures { record { answer = answer_of n result; sheet = sheet.new; marks = marks.new; out = out.new } ≡ save_outcome (record { code = code; n = n; sheet = sheet.old; marks = marks.old }) (record_save (number_of judged) (record { code = code; n = n; sheet = sheet.old; marks = marks.old }) place «record».now count claim.now out.old) }
{
    let before = sheet_work::admit(judged, code, sheet, n, marks, claim)?;
    octets::put_bytes(sheet, RECORD * place, record);
    sheet_marks::clear(marks, n, count);
    let rounds = sheet_work::work_on(code, sheet, count, marks, place / 4, before, out);
    Ok(Saved { count, rounds })
}

// A record replaced, where the claim is the digest of the sheet held.
pub fn change(
    code: usize,
    sheet: &mut [u8],
    n: usize,
    marks: &mut [u32],
    place: usize,
    record: &[u8],
    claim: &[u8],
    out: &mut [u8],
) -> Result<Saved, Turned>
    ensures { record { answer = answer_of n result; sheet = sheet.new; marks = marks.new; out = out.new } ≡ change_outcome code sheet.old n marks.old place «record».now claim.now out.old }
{
    let l = sheet_judge::lengths(code, sheet, n, marks, out);
    let judged = sheet_judge::change(l, place, record.len(), claim.len());
    save(judged, code, sheet, n, marks, place, record, n, claim, out)
}

// A record added at the end, where the claim is the digest of the sheet held.
pub fn append(
    code: usize,
    sheet: &mut [u8],
    n: usize,
    marks: &mut [u32],
    record: &[u8],
    claim: &[u8],
    out: &mut [u8],
) -> Result<Saved, Turned>
    ensures { record { answer = answer_of n result; sheet = sheet.new; marks = marks.new; out = out.new } ≡ append_outcome code sheet.old n marks.old «record».now claim.now out.old }
{
    let l = sheet_judge::lengths(code, sheet, n, marks, out);
    let judged = sheet_judge::append(l, record.len(), claim.len());
    // a full sheet is refused, so a count that can't rise is never used
    let more = n.saturating_add(1);
    save(judged, code, sheet, n, marks, n, record, more, claim, out)
}

// The last record taken away and its room zeroed, where the claim is the digest of the sheet held.
pub fn drop(
    code: usize,
    sheet: &mut [u8],
    n: usize,
    marks: &mut [u32],
    claim: &[u8],
    out: &mut [u8],
) -> Result<Saved, Turned>
    ensures { record { answer = answer_of n result; sheet = sheet.new; marks = marks.new; out = out.new } ≡ drop_outcome code sheet.old n marks.old claim.now out.old }
{
    let l = sheet_judge::lengths(code, sheet, n, marks, out);
    let judged = sheet_judge::drop(l, claim.len());
    // an empty sheet is refused, so a count that can't fall is never used
    let last = n.saturating_sub(1);
    save(
        judged, code, sheet, n, marks, last, &[0u8; 40], last, claim, out,
    )
}
