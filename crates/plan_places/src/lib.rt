// The places of a sheet's wells by their numbers (document 02, Q-3): an entry for each of the 65,536 numbers, which is 128 KiB. With it a well
// that a link names is found at once, however many records there are.
#![tactic(auto)]

ghost use Rattle.std.specs.Prelude.{◌≡◌, length, get_or};
ghost use Rattle.plan_places.specs.Places.{placed};

// The place of each of the sheet's first n records put at its number. What stands at other numbers stays. That the table is whole is said too:
// a caller that was lent it can't see its length. n stands beside the sheet, which may have more records.
pub fn put(sheet: &[u8], n: usize, t: &mut [u16; 65536])
    ensures { (t.new ≡ placed sheet.now n t.old) × (length t.old ≡ 65536) }
{
    for i in 0..n {
        let w = plan_record::read(sheet, i);
        // By `as`: there is no `From` from usize to u16, and the remainder fits.
        t[usize::from(w.number)] = (i % 65536) as u16;
    }
}

// The entry at a number.
pub fn at(t: &[u16; 65536], number: u16) -> usize
    ensures { result ≡ get_or t.now number 0 }
{
    usize::from(t[usize::from(number)])
}
