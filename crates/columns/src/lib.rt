// States and message blocks by columns, for the commissioning crew (document 02, Q-12): from words, to words, and from a message block.
#![tactic(auto)]

ghost use Rattle.std.specs.Prelude.{◌≡◌, ◌+◌, ◌*◌, ◌^◌, ◌<◌, length, map};
ghost use Rattle.definition.specs.Word.{bit};
ghost use Rattle.definition.specs.Block.{words_of, words_of_all, block_from};
ghost use Rattle.definition.specs.Field.{element as element_of};
ghost use Rattle.columns_definition.specs.Dump.{column, dump as dump_of, block_at, undump};
ghost use Rattle.refusals.specs.Number.{number_of};
ghost use Rattle.columns_definition.specs.Columns.{from_words_outcome, to_words_outcome, from_message_outcome};

use refusals::Refusal;

// A block's byte at position l, by its words: bit k is bit l of word k. A shift asks that l is below 32.
fn element(b: &[u32; 8], l: usize) -> u8
    requires { l < 32 }
    ensures { result ≡ element_of l (block_from b.now) }
{
    let x7 = (b[7] >> l) % 2;
    let x6 = x7 * 2 + (b[6] >> l) % 2;
    let x5 = x6 * 2 + (b[5] >> l) % 2;
    let x4 = x5 * 2 + (b[4] >> l) % 2;
    let x3 = x4 * 2 + (b[3] >> l) % 2;
    let x2 = x3 * 2 + (b[2] >> l) % 2;
    let x1 = x2 * 2 + (b[1] >> l) % 2;
    // A cast: eight bits fit in a byte.
    (x1 * 2 + (b[0] >> l) % 2) as u8
}

// The bytes of blocks at position l, one for each block. They are lent: with no heap a list of any length can't be returned.
fn put_position(blocks: &[[u32; 8]], l: usize, bytes: &mut [u8])
    requires { (l < 32) × (length bytes.old ≡ length blocks.now) }
    ensures { bytes.new ≡ column l (map block_from blocks.now) }
{
    // Written by place: what is written through a zip with iter_mut isn't known to a proof.
    for (j, block) in blocks.iter().enumerate() {
        bytes[j] = element(block, l);
    }
}

// The dump of blocks.
fn put_dump(blocks: &[[u32; 8]], dump: &mut [u8])
    requires { length dump.old ≡ 32 * length blocks.now }
    ensures { dump.new ≡ dump_of (map block_from blocks.now) }
{
    let n = blocks.len();
    // A range: what is written through chunks_exact_mut isn't known to a proof.
    for l in 0..32usize {
        put_position(blocks, l, &mut dump[n * l..n * l + n]);
    }
}

// A word of l bits with bit l, which is bit k of a byte. The shifts ask for the bounds of k and l.
fn with_bit(a: u32, x: u8, k: usize, l: usize) -> u32
    requires { (a < 2 ^ l) × (k < 8) × (l < 32) }
    ensures { result ≡ bit k x * 2 ^ l + a }
{
    (((u32::from(x) >> k) % 2) << l) + a
}

// The words of block j of the n blocks of a dump. n stands beside the dump: as_chunks has a constant for a size, and a column has n bytes.
fn words_at(dump: &[u8], n: usize, j: usize) -> [u32; 8]
    requires { (j < n) × (length dump.now ≡ 32 * n) }
    ensures { result ≡ words_of (block_at n j dump.now) }
{
    let mut words = [0; 8];
    for (l, column) in dump.chunks_exact(n).enumerate() {
        for (k, word) in words.iter_mut().enumerate() {
            *word = with_bit(*word, column[j], k, l);
        }
    }
    words
}

// The words of the n blocks of a dump. The words aren't lent as blocks: as_chunks_mut doesn't say what they end as.
fn put_blocks(dump: &[u8], n: usize, words: &mut [u32])
    requires { (length dump.now ≡ 32 * n) × (length words.old ≡ 8 * n) }
    ensures { words.new ≡ words_of_all (undump n dump.now) }
{
    // A range: what is written through chunks_exact_mut isn't known to a proof.
    for j in 0..n {
        words[8 * j..8 * j + 8].copy_from_slice(&words_at(dump, n, j));
    }
}

// The words of a state by columns.
pub fn from_words(code: usize, words: &[u32], dump: &mut [u8]) -> Result<(), Refusal>
    ensures { record { number = number_of result; buffer = dump.new } ≡ from_words_outcome code words.now dump.old }
{
    let n = blocks::count(codes::width(code));
    columns_judge::refusal(code, dump.len(), words.len(), 8 * n)?;
    put_dump(words.as_chunks().0, dump);
    Ok(())
}

// A state's columns as words.
pub fn to_words(code: usize, dump: &[u8], words: &mut [u32]) -> Result<(), Refusal>
    ensures { record { number = number_of result; buffer = words.new } ≡ to_words_outcome code dump.now words.old }
{
    let n = blocks::count(codes::width(code));
    columns_judge::refusal(code, dump.len(), words.len(), 8 * n)?;
    put_blocks(dump, n, words);
    Ok(())
}

// A message block by columns.
pub fn from_message(block: &[u8], dump: &mut [u8]) -> Result<(), Refusal>
    ensures { record { number = number_of result; buffer = dump.new } ≡ from_message_outcome block.now dump.old }
{
    columns_judge::lengths(block.len(), 32, dump.len(), 32)?;
    let b = octets::block(block);
    let words = [b.a0, b.a1, b.a2, b.a3, b.a4, b.a5, b.a6, b.a7];
    put_dump(&[words], dump);
    Ok(())
}
