// The 216 bytes of a kept hash record: read and written. Lengths and places stand here alone (document 01, "The kept hash record"; document 02,
// Q-7).
#![tactic(auto)]

ghost use Rattle.std.specs.Prelude.{◌≡◌, ◌+◌, ◌≤◌, take, drop};
ghost use Rattle.definition.specs.Block.{words_of_all};
ghost use Rattle.definition.specs.Width.{block_count, width_at};
ghost use Rattle.definition.specs.State.{five};
ghost use Rattle.hash_definition.specs.Record.{record_length, number_at, all_zero, held_of, decode as decode_of};
ghost use Rattle.hash_record.specs.Reading.{nothing as nothing_of, reading, waiting_of, glance_of, held_written, written};

use definition::{State, Width};
use hash_definition::{Held, Kept};

// The record's length, and where its parts begin.
pub const LENGTH: usize = 216;

const ODD_AT: usize = 1;

const STATE_AT: usize = 8;

const PENDING_AT: usize = 168;

const COUNT_AT: usize = 200;

// The state's blocks and the pending bytes of a record.
fn state_in(b: &[u8; LENGTH]) -> State
    ensures { result ≡ (decode_of b.now).state }
{
    State {
        h0: octets::block(&b[STATE_AT..]),
        h1: octets::block(&b[STATE_AT + 32..]),
        h2: octets::block(&b[STATE_AT + 64..]),
        h3: octets::block(&b[STATE_AT + 96..]),
        h4: octets::block(&b[STATE_AT + 128..]),
    }
}

fn pending_in(b: &[u8; LENGTH]) -> [u8; 32]
    ensures { result ≡ (decode_of b.now).pending }
{
    let mut p = [0u8; 32];
    p.copy_from_slice(&b[PENDING_AT..COUNT_AT]);
    p
}

// Eight bytes from place i on, the highest first.
fn number_at(b: &[u8; LENGTH], i: usize) -> u64
    requires { i + 8 ≤ record_length }
    ensures { result ≡ number_at i b.now }
{
    let high = u64::from(octets::first_word(&b[i..]));
    let low = u64::from(octets::first_word(&b[i + 4..]));
    (high << 32) + low
}

// What a record holds beside code and state.
fn held_in(b: &[u8; LENGTH]) -> Held
    ensures { result ≡ held_of (decode_of b.now) }
{
    Held {
        odd: usize::from(b[ODD_AT]),
        pending: pending_in(b),
        high: number_at(b, COUNT_AT),
        low: number_at(b, COUNT_AT + 8),
    }
}

// What a record holds.
fn decode(b: &[u8; LENGTH]) -> Kept
    ensures { result ≡ decode_of b.now }
{
    let Held {
        odd,
        pending,
        high,
        low,
    } = held_in(b);
    Kept {
        code: usize::from(b[0]),
        odd,
        state: state_in(b),
        pending,
        high,
        low,
    }
}

// Nothing held: what a reading gives where the length or the reserved bytes aren't right. Its code is no code, so it isn't well formed.
fn nothing() -> Kept
    ensures { result ≡ nothing_of }
{
    Kept {
        code: 0,
        odd: 0,
        state: State::ZERO,
        pending: [0u8; 32],
        high: 0,
        low: 0,
    }
}

// Whether the six bytes after code and odd bits are zero.
fn reserved_zero(b: &[u8; LENGTH]) -> bool
    ensures { result ≡ all_zero (take 6 (drop 2 b.now)) }
{
    b[2..STATE_AT].iter().fold(0, |set, x| set | *x) == 0
}

// Whether the state's blocks that the code doesn't use are zero.
fn unused_zero(b: &[u8; LENGTH]) -> bool
    ensures { result ≡ all_zero (words_of_all (drop (block_count (width_at (decode_of b.now).code)) (five (decode_of b.now).state))) }
{
    let fourth = &b[STATE_AT + 96..];
    let fifth = &b[STATE_AT + 128..];
    match codes::width(usize::from(b[0])) {
        Width::W3 => {
            hash_kept::zero_block(octets::full_block(fourth))
                & hash_kept::zero_block(octets::full_block(fifth))
        }
        Width::W4 => hash_kept::zero_block(octets::full_block(fifth)),
        Width::W5 => true,
    }
}

// A record, read once: what it holds, where its length and its reserved bytes are right.
pub fn read(b: &[u8]) -> Kept
    ensures { result ≡ reading b.now }
{
    match <&[u8; LENGTH]>::try_from(b) {
        Ok(r) if reserved_zero(r) => decode(r),
        _ => nothing(),
    }
}

// How many whole bytes wait in a record for a full block; 32, as if no byte more had room, in a buffer of another length.
pub fn waiting(b: &[u8]) -> usize
    ensures { result ≡ waiting_of b.now }
{
    match <&[u8; LENGTH]>::try_from(b) {
        Ok(r) => usize::from(r[LENGTH - 1]) % 32,
        Err(_) => 32,
    }
}

// A record read but for its state: its code, what else it holds, and whether it is well formed. Nothing of a buffer of another length. No Option:
// what a record that isn't well formed holds is told too, as docs/STATEMENTS.md has it.
#[derive(Clone, Copy)]
pub struct Glanced {
    pub code: usize,
    pub held: Held,
    pub well: bool,
}

pub fn glance(b: &[u8]) -> Glanced
    ensures { result ≡ glance_of b.now }
{
    match <&[u8; LENGTH]>::try_from(b) {
        Ok(r) => {
            let code = usize::from(r[0]);
            let held = held_in(r);
            Glanced {
                code,
                held,
                well: reserved_zero(r) & (hash_kept::well_held(code, held) & unused_zero(r)),
            }
        }
        Err(_) => Glanced {
            code: 0,
            held: hash_kept::held(nothing()),
            well: false,
        },
    }
}

// What a piece that completes no block alters, written into a record; where there is no room for a part it isn't written.
pub fn put_held(h: Held, b: &mut [u8])
    ensures { b.new ≡ held_written h b.old }
{
    octets::put_bytes(b, ODD_AT, &[(h.odd % 256) as u8]);
    octets::put_bytes(b, PENDING_AT, &h.pending);
    // The count by halves and in one call: two calls of eight bytes would write the first where there is no room for both.
    octets::put_words(
        b,
        COUNT_AT,
        &[
            (h.high / 4294967296) as u32,
            (h.high % 4294967296) as u32,
            (h.low / 4294967296) as u32,
            (h.low % 4294967296) as u32,
        ],
    );
}

// What a record holds, written into its 216 bytes; nothing is written into a buffer of another length.
pub fn encode(k: Kept, b: &mut [u8])
    ensures { b.new ≡ written k b.old }
{
    if b.len() != LENGTH {
        return;
    }
    octets::put_bytes(b, 0, &[(k.code % 256) as u8, 0, 0, 0, 0, 0, 0, 0]);
    octets::put_words(b, STATE_AT, &blocks::words(k.state));
    put_held(hash_kept::held(k), b);
}
