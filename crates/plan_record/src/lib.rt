// A record of a sheet read as a well (document 02, Q-1). Its places in the 40 bytes stand here alone.
#![tactic(auto)]

ghost use Rattle.std.specs.Prelude.{◌≡◌, ◌+◌, ◌≤◌, length};
ghost use Rattle.plan_definition.specs.Well.{two as two_at, four as four_at, link_at, well_of};
ghost use Rattle.plan_record.specs.Total.{well_in};

use plan_definition::{Link, Well};
use sheet_definition::RECORD;

// Where the parts of a record begin.
const KIND_AT: usize = 2;

const COUNT_AT: usize = 3;

const RATE_AT: usize = 4;

const LINKS_AT: usize = 8;

const NOTE_AT: usize = 24;

// Two bytes from byte i on, the high one first.
fn two(t: &[u8], i: usize) -> u16
    requires { i + 2 ≤ length t.now }
    ensures { result ≡ two_at t.now i }
{
    u16::from_be_bytes([t[i], t[i + 1]])
}

// Four bytes from byte i on, the same way.
fn four(t: &[u8], i: usize) -> u32
    requires { i + 4 ≤ length t.now }
    ensures { result ≡ four_at t.now i }
{
    u32::from_be_bytes([t[i], t[i + 1], t[i + 2], t[i + 3]])
}

fn link(t: &[u8], i: usize) -> Link
    requires { i + 4 ≤ length t.now }
    ensures { result ≡ link_at t.now i }
{
    Link {
        injector: two(t, i),
        share: two(t, i + 2),
    }
}

// The record at a place of the sheet; nothing but zeros where the sheet has no whole record there.
pub fn read(sheet: &[u8], place: usize) -> Well
    ensures { result ≡ well_in sheet.now place }
{
    if sheet.len() / RECORD <= place {
        return Well {
            place,
            ..Well::default()
        };
    }
    let at = RECORD * place;
    well(&sheet[at..at + RECORD], place)
}

// The first bytes of a slice as the record at a place.
fn well(t: &[u8], place: usize) -> Well
    requires { 24 ≤ length t.now }
    ensures { result ≡ well_of place t.now }
{
    Well {
        place,
        number: two(t, 0),
        kind: t[KIND_AT],
        count: t[COUNT_AT],
        rate: four(t, RATE_AT),
        links: [
            link(t, LINKS_AT),
            link(t, LINKS_AT + 4),
            link(t, LINKS_AT + 8),
            link(t, LINKS_AT + 12),
        ],
        noted: !sheet_struck::zeros(&t[NOTE_AT..]),
    }
}
