// Everything that C can call, and nothing else: thin functions, each with the contract of the function that it calls, of whose `Result` they
// answer the number. They are what a program in Rattle calls too; luffa_c exports them to C.
#![tactic(auto)]

ghost use Rattle.std.specs.Prelude.{◌≡◌};
ghost use Rattle.hash_definition.specs.Calls.{digest_bits_outcome, digest_outcome, start_outcome, feed_bits_outcome, feed_outcome, finish_outcome};
ghost use Rattle.hash_definition.specs.Lent.{lent_start_outcome, lent_feed_bits_outcome, lent_feed_outcome, lent_finish_outcome};
ghost use Rattle.hash_definition.specs.Output.{output_bits_outcome, output_outcome, finish_output_outcome, lent_finish_output_outcome};
ghost use Rattle.back_definition.specs.Back.{back_outcome};
ghost use Rattle.sheet_definition.specs.SheetCalls.{build_outcome, change_outcome, append_outcome, drop_outcome, batch_outcome, close_up_outcome, own_outcome};
ghost use Rattle.sheet_definition.specs.SheetCalls.Kind.{Change, Append, Drop};
ghost use Rattle.sheet_definition.specs.Own.{located_answer};
ghost use Rattle.mend_definition.specs.Mend.{mend_outcome, mend_answer};
ghost use Rattle.plan_definition.specs.Check.{verdict, answer_of};
ghost use Rattle.brine_definition.specs.Statement.{brine_outcome};
ghost use Rattle.reach_definition.specs.Reach.{reach_outcome};

use brine_definition::Statement;
use hash_definition::{Kept, OutputAnswer};
use mend_definition::MendAnswer;
use plan_definition::ContentAnswer;
use sheet_definition::{Answer, LocatedAnswer};

// The digest of a message in one call.
pub fn luffa_digest(code: usize, message: &[u8], out: &mut [u8]) -> u32
    ensures { record { number = result; buffer = out.new } ≡ digest_outcome code message.now out.old }
{
    refusals::number_of(hash::digest(code, message, out))
}

// The digest of a message that may end with odd bits.
pub fn luffa_digest_bits(code: usize, message: &[u8], odd: usize, out: &mut [u8]) -> u32
    ensures { record { number = result; buffer = out.new } ≡ digest_bits_outcome code message.now odd out.old }
{
    refusals::number_of(hash::digest_bits(code, message, odd, out))
}

// Longer output of a message.
pub fn luffa_output(code: usize, words: usize, message: &[u8], out: &mut [u8]) -> OutputAnswer
    ensures { record { answer = result; buffer = out.new } ≡ output_outcome code words message.now out.old }
{
    hash_working::answer(hash::output(code, words, message, out))
}

// Longer output of a message that may end with odd bits.
pub fn luffa_output_bits(
    code: usize,
    words: usize,
    message: &[u8],
    odd: usize,
    out: &mut [u8],
) -> OutputAnswer
    ensures { record { answer = result; buffer = out.new } ≡ output_bits_outcome code words message.now odd out.old }
{
    hash_working::answer(hash::output_bits(code, words, message, odd, out))
}

// A fresh hash record at a code.
pub fn luffa_start(code: usize, record: &mut [u8]) -> u32
    ensures { record { number = result; buffer = «record».new } ≡ start_outcome code «record».old }
{
    refusals::number_of(hash::start(code, record))
}

// A piece fed to a hash record.
pub fn luffa_feed(record: &mut [u8], piece: &[u8]) -> u32
    ensures { record { number = result; buffer = «record».new } ≡ feed_outcome «record».old piece.now }
{
    refusals::number_of(hash::feed(record, piece))
}

// A piece that may end with odd bits, fed to a hash record.
pub fn luffa_feed_bits(record: &mut [u8], piece: &[u8], odd: usize) -> u32
    ensures { record { number = result; buffer = «record».new } ≡ feed_bits_outcome «record».old piece.now odd }
{
    refusals::number_of(hash::feed_bits(record, piece, odd))
}

// The digest of what a hash record was fed.
pub fn luffa_finish(record: &[u8], out: &mut [u8]) -> u32
    ensures { record { number = result; buffer = out.new } ≡ finish_outcome «record».now out.old }
{
    refusals::number_of(hash::finish(record, out))
}

// Longer output of what a hash record was fed.
pub fn luffa_finish_output(record: &[u8], words: usize, out: &mut [u8]) -> OutputAnswer
    ensures { record { answer = result; buffer = out.new } ≡ finish_output_outcome «record».now words out.old }
{
    hash_working::answer(hash::finish_output(record, words, out))
}

// A step back over the last block of what a hash record was fed.
pub fn luffa_back(record: &mut [u8], block: &[u8]) -> u32
    ensures { record { number = result; buffer = «record».new } ≡ back_outcome «record».old block.now }
{
    refusals::number_of(hash_back::back(record, block))
}

// A fresh working state at a code, in a struct that the caller lends.
pub fn luffa_hash_start(code: usize, hash: &mut Kept) -> u32
    ensures { record { number = result; kept = hash.new } ≡ lent_start_outcome code hash.old }
{
    refusals::number_of(hash_working::start(code, hash))
}

// A piece that may end with odd bits, fed to a working state, which is altered where it stands.
pub fn luffa_hash_feed_bits(hash: &mut Kept, piece: &[u8], odd: usize) -> u32
    ensures { record { number = result; kept = hash.new } ≡ lent_feed_bits_outcome hash.old piece.now odd }
{
    refusals::number_of(hash_pieces::feed(hash, piece, odd))
}

// The same of a piece of whole bytes.
pub fn luffa_hash_feed(hash: &mut Kept, piece: &[u8]) -> u32
    ensures { record { number = result; kept = hash.new } ≡ lent_feed_outcome hash.old piece.now }
{
    luffa_hash_feed_bits(hash, piece, 0)
}

// The digest of what a working state was fed.
pub fn luffa_hash_finish(hash: &Kept, out: &mut [u8]) -> u32
    ensures { record { number = result; buffer = out.new } ≡ lent_finish_outcome hash.now out.old }
{
    refusals::number_of(hash_working::finish(*hash, out))
}

// Longer output of what a working state was fed.
pub fn luffa_hash_finish_output(hash: &Kept, words: usize, out: &mut [u8]) -> OutputAnswer
    ensures { record { answer = result; buffer = out.new } ≡ lent_finish_output_outcome hash.now words out.old }
{
    hash_working::answer(hash_working::finish_output(*hash, words, out))
}

// All marks of a sheet, and its digest.
pub fn luffa_sheet_build(
    code: usize,
    sheet: &[u8],
    n: usize,
    marks: &mut [u32],
    out: &mut [u8],
) -> Answer
    ensures { record { answer = result; sheet = sheet.now; marks = marks.new; out = out.new } ≡ build_outcome code sheet.now n marks.old out.old }
{
    let saved = sheet::build(code, sheet, n, marks, out);
    sheet_work::answer(n, saved)
}

// A record replaced.
pub fn luffa_sheet_change(
    code: usize,
    sheet: &mut [u8],
    n: usize,
    marks: &mut [u32],
    place: usize,
    record: &[u8],
    claim: &[u8],
    out: &mut [u8],
) -> Answer
    ensures { record { answer = result; sheet = sheet.new; marks = marks.new; out = out.new } ≡ change_outcome code sheet.old n marks.old place «record».now claim.now out.old }
{
    let saved = sheet::change(code, sheet, n, marks, place, record, claim, out);
    sheet_work::answer(n, saved)
}

// The records at up to 64 places replaced in one save.
pub fn luffa_sheet_batch(
    code: usize,
    sheet: &mut [u8],
    n: usize,
    marks: &mut [u32],
    places: &[usize],
    records: &[u8],
    claim: &[u8],
    out: &mut [u8],
) -> Answer
    ensures { record { answer = result; sheet = sheet.new; marks = marks.new; out = out.new } ≡ batch_outcome code sheet.old n marks.old places.now «records».now claim.now out.old }
{
    let saved = sheet_batch::batch(code, sheet, n, marks, places, records, claim, out);
    sheet_work::answer(n, saved)
}

// Struck records removed, with the old place of each that is left.
pub fn luffa_sheet_close_up(
    code: usize,
    sheet: &mut [u8],
    n: usize,
    marks: &mut [u32],
    claim: &[u8],
    places: &mut [u16],
    out: &mut [u8],
) -> Answer
    ensures { record { answer = result; sheet = sheet.new; marks = marks.new; places = places.new; out = out.new } ≡ close_up_outcome code sheet.old n marks.old claim.now places.old out.old }
{
    let saved = sheet_close_up::close_up(code, sheet, n, marks, claim, places, out);
    sheet_work::answer(n, saved)
}

// A record added at the end.
pub fn luffa_sheet_append(
    code: usize,
    sheet: &mut [u8],
    n: usize,
    marks: &mut [u32],
    record: &[u8],
    claim: &[u8],
    out: &mut [u8],
) -> Answer
    ensures { record { answer = result; sheet = sheet.new; marks = marks.new; out = out.new } ≡ append_outcome code sheet.old n marks.old «record».now claim.now out.old }
{
    let saved = sheet::append(code, sheet, n, marks, record, claim, out);
    sheet_work::answer(n, saved)
}

// The last record taken away.
pub fn luffa_sheet_drop(
    code: usize,
    sheet: &mut [u8],
    n: usize,
    marks: &mut [u32],
    claim: &[u8],
    out: &mut [u8],
) -> Answer
    ensures { record { answer = result; sheet = sheet.new; marks = marks.new; out = out.new } ≡ drop_outcome code sheet.old n marks.old claim.now out.old }
{
    let saved = sheet::drop(code, sheet, n, marks, claim, out);
    sheet_work::answer(n, saved)
}

// A record replaced, and where the sheet differs if it is stale.
pub fn luffa_sheet_change_own(
    code: usize,
    sheet: &mut [u8],
    n: usize,
    marks: &mut [u32],
    place: usize,
    record: &[u8],
    claim: &[u8],
    owned: usize,
    own: &[u32],
    out: &mut [u8],
) -> LocatedAnswer
    ensures value { result ≡ located_answer (own_outcome (record { code = code; n = n; sheet = sheet.old; marks = marks.old }) (Change place «record».now) claim.now owned own.now out.old).answer }
    ensures sheet_after { sheet.new ≡ (own_outcome (record { code = code; n = n; sheet = sheet.old; marks = marks.old }) (Change place «record».now) claim.now owned own.now out.old).sheet }
    ensures marks_after { marks.new ≡ (own_outcome (record { code = code; n = n; sheet = sheet.old; marks = marks.old }) (Change place «record».now) claim.now owned own.now out.old).marks }
    ensures out_after { out.new ≡ (own_outcome (record { code = code; n = n; sheet = sheet.old; marks = marks.old }) (Change place «record».now) claim.now owned own.now out.old).out }
{
    let saved = sheet_own::change(code, sheet, n, marks, place, record, claim, owned, own, out);
    sheet_own::answer(n, saved)
}

// A record added at the end, and where the sheet differs if it is stale.
pub fn luffa_sheet_append_own(
    code: usize,
    sheet: &mut [u8],
    n: usize,
    marks: &mut [u32],
    record: &[u8],
    claim: &[u8],
    owned: usize,
    own: &[u32],
    out: &mut [u8],
) -> LocatedAnswer
    ensures value { result ≡ located_answer (own_outcome (record { code = code; n = n; sheet = sheet.old; marks = marks.old }) (Append «record».now) claim.now owned own.now out.old).answer }
    ensures sheet_after { sheet.new ≡ (own_outcome (record { code = code; n = n; sheet = sheet.old; marks = marks.old }) (Append «record».now) claim.now owned own.now out.old).sheet }
    ensures marks_after { marks.new ≡ (own_outcome (record { code = code; n = n; sheet = sheet.old; marks = marks.old }) (Append «record».now) claim.now owned own.now out.old).marks }
    ensures out_after { out.new ≡ (own_outcome (record { code = code; n = n; sheet = sheet.old; marks = marks.old }) (Append «record».now) claim.now owned own.now out.old).out }
{
    let saved = sheet_own::append(code, sheet, n, marks, record, claim, owned, own, out);
    sheet_own::answer(n, saved)
}

// The last record taken away, and where the sheet differs if it is stale.
pub fn luffa_sheet_drop_own(
    code: usize,
    sheet: &mut [u8],
    n: usize,
    marks: &mut [u32],
    claim: &[u8],
    owned: usize,
    own: &[u32],
    out: &mut [u8],
) -> LocatedAnswer
    ensures value { result ≡ located_answer (own_outcome (record { code = code; n = n; sheet = sheet.old; marks = marks.old }) Drop claim.now owned own.now out.old).answer }
    ensures sheet_after { sheet.new ≡ (own_outcome (record { code = code; n = n; sheet = sheet.old; marks = marks.old }) Drop claim.now owned own.now out.old).sheet }
    ensures marks_after { marks.new ≡ (own_outcome (record { code = code; n = n; sheet = sheet.old; marks = marks.old }) Drop claim.now owned own.now out.old).marks }
    ensures out_after { out.new ≡ (own_outcome (record { code = code; n = n; sheet = sheet.old; marks = marks.old }) Drop claim.now owned own.now out.old).out }
{
    let saved = sheet_own::drop(code, sheet, n, marks, claim, owned, own, out);
    sheet_own::answer(n, saved)
}

// The marks of a sheet, those that are wrong replaced.
pub fn luffa_sheet_mend(code: usize, sheet: &[u8], n: usize, marks: &mut [u32]) -> MendAnswer
    ensures value { result ≡ mend_answer (mend_outcome code sheet.now n marks.old).answer }
    ensures marks_after { marks.new ≡ (mend_outcome code sheet.now n marks.old).marks }
{
    MendAnswer::from(mend::mend(code, sheet, n, marks))
}

// Whether the records of a sheet make sense, in this paper's numbers.
pub fn luffa_plan_check(sheet: &[u8], n: usize) -> ContentAnswer
    ensures { result ≡ answer_of (verdict sheet.now n) }
{
    ContentAnswer::from(plan::check(sheet, n))
}

// The brine statement over a batch of sheets.
pub fn luffa_plan_brine(
    sheets: &[u8],
    counts: &[usize],
    intake: &mut [u64],
    spare: &mut [i64],
) -> Statement
    ensures { record { answer = result; intake = intake.new; spare = spare.new } ≡ brine_outcome sheets.now counts.now intake.old spare.old }
{
    brine::statement(sheets, counts, intake, spare)
}

// Who depends on a well: the records that so many hops reach.
pub fn luffa_plan_reach(sheet: &[u8], n: usize, well: usize, hops: usize, reached: &mut [u8]) -> u32
    ensures { record { number = result; reached = reached.new } ≡ reach_outcome sheet.now n well hops reached.old }
{
    refusals::number_of(reach::reach(sheet, n, well, hops, reached))
}
