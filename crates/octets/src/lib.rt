// Words and blocks from bytes, and bytes and words into a buffer: four bytes to a word, the first highest (source, 2.2). A slice that is too
// short reads as zero, and nothing is written where there is no room.
#![tactic(auto)]

ghost use Rattle.std.specs.Prelude.{◌≡◌, ◌+◌, ◌≤◌, length, get_or};
ghost use Rattle.definition.specs.Word.{word_of, bytes_of, bytes_of_all};
ghost use Rattle.definition.specs.Block.{block_of};
ghost use Rattle.octets.specs.Total.{first_block, first_word, write_at};

use definition::Block;

fn word_at(t: &[u8], i: usize) -> u32
    requires { i + 4 ≤ length t.now }
    ensures { result ≡ word_of (get_or t.now i 0) (get_or t.now (i + 1) 0) (get_or t.now (i + 2) 0) (get_or t.now (i + 3) 0) }
{
    u32::from_be_bytes([t[i], t[i + 1], t[i + 2], t[i + 3]])
}

// The first 32 bytes of a slice as a block, where there are as many: what the loop over a message's blocks calls.
pub fn full_block(t: &[u8]) -> Block
    requires { 32 ≤ length t.now }
    ensures { result ≡ block_of t.now }
{
    Block {
        a0: word_at(t, 0),
        a1: word_at(t, 4),
        a2: word_at(t, 8),
        a3: word_at(t, 12),
        a4: word_at(t, 16),
        a5: word_at(t, 20),
        a6: word_at(t, 24),
        a7: word_at(t, 28),
    }
}

// The same, or zero where the slice is shorter.
pub fn block(t: &[u8]) -> Block
    ensures { result ≡ first_block t.now }
{
    match t.first_chunk::<32>() {
        Some(x) => full_block(x),
        None => Block::ZERO,
    }
}

// The first word of a slice, or zero where there are fewer than four bytes.
pub fn first_word(t: &[u8]) -> u32
    ensures { result ≡ first_word t.now }
{
    match t.first_chunk() {
        Some(x) => u32::from_be_bytes(*x),
        None => 0,
    }
}

// Bytes, one after the other, from place i on; nothing where there is no room for them. By place: a `copy_from_slice` of a length that is known
// only when it runs has the archive ask for `memmove` from outside.
pub fn put_bytes(b: &mut [u8], i: usize, t: &[u8])
    ensures { b.new ≡ write_at i t.now b.old }
{
    if i <= b.len() && t.len() <= b.len() - i {
        for (j, x) in t.iter().enumerate() {
            b[i + j] = *x;
        }
    }
}

// A buffer of 32 bytes by value with bytes written from place i on; as it was where there is no room for them.
pub fn pasted(p: [u8; 32], i: usize, t: &[u8]) -> [u8; 32]
    ensures { result ≡ write_at i t.now p }
{
    let mut q = p;
    put_bytes(&mut q, i, t);
    q
}

// A word's four bytes, the highest first, from place i on; nothing where there is no room for them.
pub fn put_word(out: &mut [u8], i: usize, a: u32)
    ensures { out.new ≡ write_at i (bytes_of a) out.old }
{
    put_bytes(out, i, &a.to_be_bytes());
}

// Words, one after the other, from place i on; nothing where there is no room for them.
pub fn put_words(out: &mut [u8], i: usize, ws: &[u32])
    ensures { out.new ≡ write_at i (bytes_of_all ws.now) out.old }
{
    if i <= out.len() && ws.len() <= (out.len() - i) / 4 {
        for (k, a) in ws.iter().enumerate() {
            put_word(out, i + 4 * k, *a);
        }
    }
}
