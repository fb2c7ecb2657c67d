// Closing up struck wells (document 02, Q-11): the records that stand move down over those that are struck, each with its old place in a list,
// under one claim, with one check and one work over the sheet. Parameters are those of the C call, in its order.
#![tactic(auto)]

ghost use Rattle.std.specs.Prelude.{◌≡◌, ◌-◌, ◌*◌, ◌≤◌, length, replicate, position};
ghost use Rattle.definition.specs.Buffer.{overwrite_at, overwrite, joined};
ghost use Rattle.sheet_definition.specs.Sheet.{most, record_bytes, cut};
ghost use Rattle.sheet_definition.specs.Struck.{all_zero, standing, old_places};
ghost use Rattle.sheet_definition.specs.SheetCalls.{close_up_outcome};
ghost use Rattle.sheet_work.specs.Answered.{answer_of};

use sheet_definition::RECORD;
use sheet_work::{Saved, Turned};

// The first struck place. n stands beside the sheet, here and below: the buffer that is lent may have room after its records.
fn first_struck(sheet: &[u8], n: usize) -> Option<usize>
    requires { record_bytes * n ≤ length sheet.now }
    ensures { result ≡ position all_zero (cut n sheet.now) }
{
    sheet
        .chunks_exact(RECORD)
        .take(n)
        .position(|record| sheet_struck::zeros(record))
}

// The records that stand moved together to the front, with their old places; and how many they are.
fn gather(sheet: &mut [u8], n: usize, places: &mut [u16]) -> usize
    requires { (n ≤ most) × (record_bytes * n ≤ length sheet.old) × (n ≤ length places.old) }
    ensures value { result ≡ length (standing (cut n sheet.old)) }
    ensures sheet_after { sheet.new ≡ overwrite (joined (standing (cut n sheet.old))) sheet.old }
    ensures places_after { places.new ≡ overwrite (old_places 0 (cut n sheet.old)) places.old }
{
    let mut count = 0;
    for i in 0..n {
        let at = RECORD * i;
        if !sheet_struck::zeros(&sheet[at..at + RECORD]) {
            sheet.copy_within(at..at + RECORD, RECORD * count);
            // a place is under 1,024, so nothing is cut
            places[count] = i as u16;
            count += 1;
        }
    }
    count
}

// The records from a place up to another zeroed.
fn zero(sheet: &mut [u8], from: usize, to: usize)
    requires { (from ≤ to) × (record_bytes * to ≤ length sheet.old) }
    ensures { sheet.new ≡ overwrite_at (record_bytes * from) (replicate (record_bytes * (to - from)) 0) sheet.old }
{
    sheet[RECORD * from..RECORD * to].fill(0);
}

// Struck records removed, where the claim is the digest of the sheet held.
pub fn close_up(
    code: usize,
    sheet: &mut [u8],
    n: usize,
    marks: &mut [u32],
    claim: &[u8],
    places: &mut [u16],
    out: &mut [u8],
) -> Result<Saved, Turned>
    ensures { record { answer = answer_of n result; sheet = sheet.new; marks = marks.new; places = places.new; out = out.new } ≡ close_up_outcome code sheet.old n marks.old claim.now places.old out.old }
{
    let l = sheet_judge::lengths(code, sheet, n, marks, out);
    let judged = sheet_judge::close_up(l, places.len(), claim.len());
    let before = sheet_work::admit(judged, code, sheet, n, marks, claim)?;
    let first = first_struck(sheet, n).unwrap_or(n);
    let count = gather(sheet, n, places);
    zero(sheet, count, n);
    sheet_marks::clear(marks, n, count);
    let rounds = sheet_work::work_on(code, sheet, count, marks, first / 4, before, out);
    Ok(Saved { count, rounds })
}
