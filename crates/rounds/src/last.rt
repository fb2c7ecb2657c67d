// The padded end of a message (source, 3.1), which may stop inside a byte (document 02, Q-7).
ghost use Rattle.std.specs.Prelude.{◌≡◌, ◌<◌, ◌≤◌, [], ◌∷◌, ◌++◌, length};
ghost use Rattle.definition.specs.Block.{block_of};
ghost use Rattle.definition.specs.Padding.{high_bits, closing_byte, padding, padded, blocks};
ghost use Rattle.definition.specs.Counted.{counted_chain};

use definition::{Counted, Width};

// The byte that closes a message of whole bytes: the padding bit and zeros.
pub const CLOSING: u8 = 0x80;

// The odd bits of a byte, the others zero.
pub fn high_bits(odd: usize, byte: u8) -> u8
    ensures { result ≡ high_bits odd byte }
{
    match odd {
        0 => 0,
        1..=7 => byte >> (8 - odd) << (8 - odd),
        _ => byte,
    }
}

// The byte that closes a message with odd bits, at most seven: they, the padding bit, and zeros.
pub fn closing(odd: usize, byte: u8) -> u8
    ensures { odd ≤ 7 → result ≡ closing_byte odd byte }
{
    if 7 < odd {
        return CLOSING;
    }
    let one = CLOSING >> odd;
    high_bits(odd, byte) + one
}

// Fewer than 32 bytes, closed and filled up: one round.
fn absorb_padded(w: Width, c: Counted, t: &[u8], closing: u8) -> Counted
    requires { length t.now < 32 }
    ensures { result ≡ counted_chain w c (block_of (t.now ++ padding closing (length t.now)) ∷ []) }
{
    let n = t.len();
    let mut p = [0u8; 32];
    p[..n].copy_from_slice(t);
    p[n] = closing;
    crate::absorb(w, c, &p)
}

// All that is left of a message: a round for each full block, and one for the padded end.
pub fn absorb_last(w: Width, c: Counted, s: &[u8], closing: u8) -> Counted
    ensures { result ≡ counted_chain w c (blocks (padded closing s.now)) }
{
    let d = crate::absorb(w, c, s);
    absorb_padded(w, d, s.chunks_exact(32).remainder(), closing)
}
