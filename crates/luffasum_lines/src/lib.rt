// What the digest program feeds and prints, without its reading and writing (document 01, the paragraph on the digest program): three records
// started and fed, and the text at each end of the reading. Codes 1 and 2 share a record, since a digest of 224 bits is the first 28 bytes of
// that of 256.
#![tactic(auto)]

ghost use Rattle.std.specs.Prelude.{◌≡◌, ◌+◌, ◌*◌, ◌<◌, ◌≤◌, length, drop};
ghost use Rattle.definition.specs.Luffa.{bytes_at};
ghost use Rattle.octets.specs.Total.{write_at};
ghost use Rattle.luffasum_lines.specs.Line.{digit as digit_of, decimal as decimal_of, hexadecimal, line};
ghost use Rattle.luffasum_lines.specs.Text.{record_line, four_records, room, printed, reading_of, started_records, fed_records};

use hash_definition::Kept;
use refusals::Refusal;

// The bytes of text that four lines have at most: two digits for each byte of the digests, and a code, 20 digits, two spaces and a line end
// for each line.
pub const ROOM: usize = 440;

// What is held at codes 2, 3 and 4 of all that was read, and whether a read was refused.
#[derive(Clone, Copy)]
pub struct Records {
    pub fed: Result<(), Refusal>,
    pub two: Kept,
    pub three: Kept,
    pub four: Kept,
}

// How the reading ended: the input's end was reached, or a read failed.
#[derive(Clone, Copy)]
pub enum End {
    Whole,
    Failed,
}

// The digit of a number below 16, in lower case.
fn digit(n: u8) -> u8
    requires { n < 16 }
    ensures { result ≡ digit_of n }
{
    if n < 10 {
        return b'0' + n;
    }
    b'a' + (n - 10)
}

// The decimal digits of a number at the end of 20 bytes, and the place where they begin. By hand: Display promises
// nothing of the text. `as`: a u8 has no From of a u64; both digits are below 10.
fn decimal(n: u64, t: &mut [u8]) -> usize
    requires { length t.old ≡ 20 }
    ensures { (result ≤ 20) × (drop result t.new ≡ decimal_of n) }
{
    let mut i: usize = 20;
    let mut rest = n;
    while rest >= 10 {
        i -= 1;
        t[i] = digit((rest % 10) as u8);
        rest /= 10;
    }
    i -= 1;
    t[i] = digit(rest as u8);
    i
}

// Bytes as hexadecimal digits from place i on.
fn put_hexadecimal(out: &mut [u8], i: usize, digest: &[u8])
    requires { i + 2 * length digest.now ≤ length out.old }
    ensures { out.new ≡ write_at i (hexadecimal digest.now) out.old }
{
    for (k, b) in digest.iter().enumerate() {
        octets::put_bytes(out, i + 2 * k, &[digit(b / 16), digit(b % 16)]);
    }
}

// A line from place i on, and the place after it.
fn put_line(out: &mut [u8], i: usize, code: u8, count: u64, digest: &[u8]) -> usize
    requires { (code < 16) × (i + (24 + 2 * length digest.now) ≤ length out.old) }
    ensures { (result ≡ i + length (line code count digest.now)) × (out.new ≡ write_at i (line code count digest.now) out.old) }
{
    let mut t = [0u8; 20];
    let from = decimal(count, &mut t);
    octets::put_bytes(out, i, &[digit(code), b' ']);
    let d = &t[from..];
    octets::put_bytes(out, i + 2, d);
    let j = i + 2 + d.len();
    octets::put_bytes(out, j, b" ");
    put_hexadecimal(out, j + 1, digest);
    let k = j + 1 + 2 * digest.len();
    octets::put_bytes(out, k, b"\n");
    k + 1
}

// The line at a code, of what is held at code c, from place i on, and the place after it; no line of what isn't held so.
fn put_record(out: &mut [u8], i: usize, code: u8, c: usize, k: Kept) -> usize
    requires { (code < 16) × (bytes_at code ≤ bytes_at c) × (i + (24 + 2 * bytes_at code) ≤ length out.old) }
    ensures { (result ≡ i + length (record_line code c k)) × (out.new ≡ write_at i (record_line code c k) out.old) }
{
    if hash_kept::form(k).is_err() | (k.code != c) {
        return i;
    }
    let mut digest = [0u8; 64];
    let _ = hash_working::finish(k, &mut digest);
    let n = 4 * codes::words(usize::from(code));
    put_line(out, i, code, k.low, &digest[..n])
}

// The four lines in front of a buffer, and their bytes. Four calls: two codes share a record, so a table for a loop would be longer than they are.
fn put_lines(r: &Records, out: &mut [u8]) -> usize
    requires { room ≤ length out.old }
    ensures { (result ≡ length (four_records (reading_of r.now))) × (out.new ≡ write_at 0 (four_records (reading_of r.now)) out.old) }
{
    let a = put_record(out, 0, 1, 2, r.two);
    let b = put_record(out, a, 2, 2, r.two);
    let c = put_record(out, b, 3, 3, r.three);
    put_record(out, c, 4, 4, r.four)
}

// What is to be printed, in front of a buffer, and its bytes; nothing where the buffer has less than ROOM.
pub fn print(end: End, r: &Records, out: &mut [u8]) -> usize
    ensures { record { size = result; buffer = out.new } ≡ printed end (reading_of r.now) out.old }
{
    if out.len() < ROOM {
        return 0;
    }
    if r.fed.is_err() {
        octets::put_bytes(out, 0, b"4\n");
        return 2;
    }
    match end {
        End::Whole => put_lines(r, out),
        End::Failed => 0,
    }
}

// The records to begin with.
pub fn start() -> Records
    ensures { reading_of result ≡ started_records }
{
    Records {
        fed: Ok(()),
        two: hash_working::started(2),
        three: hash_working::started(3),
        four: hash_working::started(4),
    }
}

// What was read, fed to each record, unless a read before it was refused.
pub fn feed(r: &mut Records, read: &[u8])
    ensures { reading_of r.new ≡ fed_records (reading_of r.old) read.now }
{
    if r.fed.is_err() {
        return;
    }
    let two = hash_pieces::feed(&mut r.two, read, 0);
    let three = hash_pieces::feed(&mut r.three, read, 0);
    let four = hash_pieces::feed(&mut r.four, read, 0);
    r.fed = refusals::in_turn(two, refusals::in_turn(three, four));
}
