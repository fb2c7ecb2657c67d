// Luffa over messages and kept hash records: digest, start, feed, finish, and longer output (document 01, "The kept hash record" and refusals 1
// to 4; document 02, Q-2 and Q-7). Each call's outcome, its answer and the buffer that was lent for writing, is one function of its inputs.
// Parameters are those of the C calls, in their order.
#![tactic(auto)]

ghost use Rattle.std.specs.Prelude.{◌≡◌, [], ◌∷◌, ◌-◌, ◌*◌, ◌<◌, ◌≤◌, length, get_or};
ghost use Rattle.definition.specs.Padding.{whole_bytes, closing_byte, bits_in};
ghost use Rattle.definition.specs.Luffa.{luffa_output};
ghost use Rattle.definition.specs.Buffer.{overwrite};
ghost use Rattle.definition.specs.Refusal.{first_of, when_done, out_refusal};
ghost use Rattle.refusals.specs.Number.{number_of};
ghost use Rattle.hash_kept.specs.Answer.{answer_of};
ghost use Rattle.hash_record.specs.Reading.{waiting_of};
ghost use Rattle.hash_definition.specs.Calls.{odd_refusal, long_refusal, digest_bits_outcome, digest_outcome, start_outcome, feed_bits_outcome, feed_outcome, finish_outcome};
ghost use Rattle.hash_definition.specs.Output.{output_by, output_bits_outcome, output_outcome, finish_output_outcome};

use hash_definition::Held;
use refusals::Refusal;

// The byte that closes a message of n whole bytes: its last one holds the odd bits where it isn't whole.
fn closing(message: &[u8], odd: usize, n: usize) -> u8
    ensures { odd ≤ 7 → (0 < odd → 0 < length message.now) → n ≡ whole_bytes odd (length message.now) → result ≡ closing_byte odd (get_or message.now n 0) }
{
    if n < message.len() {
        return rounds::last::closing(odd, message[n]);
    }
    rounds::last::CLOSING
}

// A number of words of a message that may end with odd bits, and the rounds that they took; what was judged before, and then 2, 17 and 4 in turn
// refuse the call.
fn put_out(
    before: Result<(), Refusal>,
    code: usize,
    words: usize,
    message: &[u8],
    odd: usize,
    out: &mut [u8],
) -> Result<u64, Refusal>
    ensures { record { answer = answer_of result; buffer = out.new } ≡ output_by (when_done (number_of before) (first_of (out_refusal (4 * words) (length out.old) ∷ odd_refusal 0 odd (length message.now) ∷ long_refusal code 0 odd (length message.now) ∷ [])) (number_of before)) words (overwrite (luffa_output code words (bits_in message.now odd)) out.old) out.old }
{
    let none = Held {
        odd: 0,
        pending: [0u8; 32],
        high: 0,
        low: 0,
    };
    let size = refusals::in_turn(
        refusals::room(words, out.len()),
        hash_kept::piece(code, none, odd, message.len()),
    );
    refusals::in_turn(before, size)?;
    let w = codes::width(code);
    let n = hash_kept::whole(odd, message.len());
    let byte = closing(message, odd, n);
    Ok(squeeze::end(w, rounds::start(w), &message[..n], byte, words, out))
}

// The digest in one call of a message that may end with odd bits: the digest's words.
pub fn digest_bits(code: usize, message: &[u8], odd: usize, out: &mut [u8]) -> Result<(), Refusal>
    ensures { record { number = number_of result; buffer = out.new } ≡ digest_bits_outcome code message.now odd out.old }
{
    put_out(
        refusals::known_code(code),
        code,
        codes::words(code),
        message,
        odd,
        out,
    )?;
    Ok(())
}

// The same of a message of whole bytes.
pub fn digest(code: usize, message: &[u8], out: &mut [u8]) -> Result<(), Refusal>
    ensures { record { number = number_of result; buffer = out.new } ≡ digest_outcome code message.now out.old }
{
    digest_bits(code, message, 0, out)
}

// A number of words in one call of a message that may end with odd bits, and the rounds that they took.
pub fn output_bits(
    code: usize,
    words: usize,
    message: &[u8],
    odd: usize,
    out: &mut [u8],
) -> Result<u64, Refusal>
    ensures { record { answer = answer_of result; buffer = out.new } ≡ output_bits_outcome code words message.now odd out.old }
{
    let before = refusals::in_turn(refusals::known_code(code), hash_kept::words(words));
    put_out(before, code, words, message, odd, out)
}

// The same of a message of whole bytes.
pub fn output(code: usize, words: usize, message: &[u8], out: &mut [u8]) -> Result<u64, Refusal>
    ensures { record { answer = answer_of result; buffer = out.new } ≡ output_outcome code words message.now out.old }
{
    output_bits(code, words, message, 0, out)
}

// A fresh record at a code.
pub fn start(code: usize, record: &mut [u8]) -> Result<(), Refusal>
    ensures { record { number = number_of result; buffer = «record».new } ≡ start_outcome code «record».old }
{
    refusals::known_code(code)?;
    Refusal::Record.when(record.len() != hash_record::LENGTH)?;
    hash_record::encode(hash_working::started(code), record);
    Ok(())
}

// A piece that completes no block: the state is judged where it lies, and stays there.
fn feed_short(record: &mut [u8], piece: &[u8], odd: usize) -> Result<(), Refusal>
    requires { whole_bytes odd (length piece.now) < 32 - waiting_of «record».old }
    ensures { record { number = number_of result; buffer = «record».new } ≡ feed_bits_outcome «record».old piece.now odd }
{
    let g = hash_record::glance(record);
    let h = g.held;
    Refusal::Record.when(!g.well)?;
    hash_kept::piece(g.code, h, odd, piece.len())?;
    hash_record::put_held(hash_pieces::short_fed(h, piece, odd), record);
    Ok(())
}

// Any piece: the record is read, fed by value and written. A match and no `?`, so that an edit can answer another refusal.
fn feed_whole(record: &mut [u8], piece: &[u8], odd: usize) -> Result<(), Refusal>
    ensures { record { number = number_of result; buffer = «record».new } ≡ feed_bits_outcome «record».old piece.now odd }
{
    let mut k = hash_record::read(record);
    match hash_pieces::feed(&mut k, piece, odd) {
        Ok(()) => hash_record::encode(k, record),
        Err(refusal) => return Err(refusal),
    }
    Ok(())
}

// A piece, which may end with odd bits, fed to a record, which is altered where it lies.
pub fn feed_bits(record: &mut [u8], piece: &[u8], odd: usize) -> Result<(), Refusal>
    ensures { record { number = number_of result; buffer = «record».new } ≡ feed_bits_outcome «record».old piece.now odd }
{
    let n = hash_kept::whole(odd, piece.len());
    if n < 32 - hash_record::waiting(record) {
        return feed_short(record, piece, odd);
    }
    feed_whole(record, piece, odd)
}

// The same of a piece of whole bytes.
pub fn feed(record: &mut [u8], piece: &[u8]) -> Result<(), Refusal>
    ensures { record { number = number_of result; buffer = «record».new } ≡ feed_outcome «record».old piece.now }
{
    feed_bits(record, piece, 0)
}

// The digest of what a record was fed; the record stays as it is.
pub fn finish(record: &[u8], out: &mut [u8]) -> Result<(), Refusal>
    ensures { record { number = number_of result; buffer = out.new } ≡ finish_outcome «record».now out.old }
{
    hash_working::finish(hash_record::read(record), out)
}

// A number of words of what a record was fed; the record stays as it is.
pub fn finish_output(record: &[u8], words: usize, out: &mut [u8]) -> Result<u64, Refusal>
    ensures { record { answer = answer_of result; buffer = out.new } ≡ finish_output_outcome «record».now words out.old }
{
    hash_working::finish_output(hash_record::read(record), words, out)
}
