// Whether what a kept hash record holds is well formed, and refusals 3, 12, 17 and 4, which the calls over messages, records and lent working
// states share (document 01, "The kept hash record"; document 02, Q-2 and Q-7).
#![tactic(auto)]

ghost use Rattle.std.specs.Prelude.{◌≡◌, ◌+◌, ◌*◌, ◌/◌, ◌%◌, ◌^◌, ◌≤◌, [], ◌∷◌, drop, nat_lt};
ghost use lib.Dec.{ltb};
ghost use Rattle.definition.specs.Block.{words_of, words_of_all};
ghost use Rattle.definition.specs.Width.{block_count};
ghost use Rattle.definition.specs.State.{five};
ghost use Rattle.definition.specs.Luffa.{limit_at};
ghost use Rattle.definition.specs.Padding.{bits_of_byte, whole_bytes};
ghost use Rattle.definition.specs.Refusal.{first_of};
ghost use Rattle.hash_definition.specs.Record.{all_zero, held_of, with_held, count_of, well_held, well_kept};
ghost use Rattle.hash_definition.specs.Calls.{odd_refusal, long_refusal};
ghost use Rattle.hash_definition.specs.Lent.{kept_refusal};
ghost use Rattle.hash_definition.specs.Output.{words_refusal};
ghost use Rattle.refusals.specs.Number.{number_of};

use definition::{Block, State, Width};
use hash_definition::{Held, Kept};
use refusals::Refusal;

// 2^64: what the high word of a count counts.
const WORD: u128 = 1 << 64;

// The count of whole bytes, which two words hold.
pub fn count(high: u64, low: u64) -> u128
    ensures { result ≡ count_of high low }
{
    u128::from(high) * WORD + u128::from(low)
}

// And the two words of a count, the high one first. `as`, here and below: no From cuts a half off, and none leads from a
// usize to more bits or back.
pub fn two_words(count: u128) -> (u64, u64)
    ensures { result ≡ (count / 2 ^ 64, count % 2 ^ 64) }
{
    ((count / WORD) as u64, (count % WORD) as u64)
}

// Table 1's limit, in bytes.
fn byte_limit(code: usize) -> u128
    ensures { 8 * result ≡ limit_at code }
{
    if code < 3 { 1 << 61 } else { 1 << 125 }
}

// What is held beside code and state. No From: its partner below puts two values together, and the pair reads alike.
pub fn held(k: Kept) -> Held
    ensures { result ≡ held_of k }
{
    let pending = k.pending;
    Held {
        odd: k.odd,
        pending,
        high: k.high,
        low: k.low,
    }
}

// The same put in the place of what was held.
pub fn with_held(k: Kept, h: Held) -> Kept
    ensures { result ≡ with_held k h }
{
    let pending = h.pending;
    Kept {
        odd: h.odd,
        pending,
        high: h.high,
        low: h.low,
        ..k
    }
}

// Whether all words of a block are zero.
pub fn zero_block(b: Block) -> bool
    ensures { result ≡ all_zero (words_of b) }
{
    b.a0 | (b.a1 | (b.a2 | (b.a3 | (b.a4 | (b.a5 | (b.a6 | b.a7)))))) == 0
}

// Whether the blocks that w doesn't use are zero.
fn unused_zero(w: Width, s: State) -> bool
    ensures { result ≡ all_zero (words_of_all (drop (block_count w) (five s))) }
{
    match w {
        Width::W3 => zero_block(s.h3) & zero_block(s.h4),
        Width::W4 => zero_block(s.h4),
        Width::W5 => true,
    }
}

// Whether the bytes from a place on are zero: they are read as one block, out of a buffer that has zeros after them.
fn zero_from(p: [u8; 32], at: usize) -> bool
    requires { at ≤ 32 }
    ensures { result ≡ all_zero (drop at p) }
{
    let mut q = [0u8; 64];
    octets::put_bytes(&mut q, 0, &p);
    zero_block(octets::full_block(&q[at..]))
}

// Whether the bits of a byte after its first ones are zero. odd ≤ 7 is asked here and twice below: the callers have judged it, well_held at once
// and piece by 17, which comes before 4.
fn low_zero(x: u8, odd: usize) -> bool
    requires { odd ≤ 7 }
    ensures { result ≡ all_zero (drop odd (bits_of_byte x)) }
{
    (u32::from(x) << odd) % 256 == 0
}

// Whether a count of whole bytes and at most seven odd bits are under Table 1's limit.
fn within(code: usize, count: u128, odd: usize) -> bool
    requires { odd ≤ 7 }
    ensures { result ≡ nat_lt (8 * count + odd) (limit_at code) }
{
    count < byte_limit(code)
}

// Whether what is held beside the state is well formed at a code.
pub fn well_held(code: usize, h: Held) -> bool
    ensures { result ≡ well_held code h }
{
    let odd = h.odd;
    if 7 < odd {
        return false;
    }
    let pos = (h.low % 32) as usize;
    let known = codes::known(code);
    let low = low_zero(h.pending[pos], odd);
    let after = zero_from(h.pending, pos + 1);
    let under = within(code, count(h.high, h.low), odd);
    known & low & after & under
}

// Whether what a record holds is well formed.
fn well_kept(k: Kept) -> bool
    ensures { result ≡ well_kept k }
{
    let unused = unused_zero(codes::width(k.code), k.state);
    let rest = well_held(k.code, held(k));
    rest & unused
}

// 12: no word is asked for, or more than 64.
pub fn words(words: usize) -> Result<(), Refusal>
    ensures { number_of result ≡ first_of (words_refusal words ∷ []) }
{
    Refusal::Words.when((words == 0) | (64 < words))
}

// 3: what a record holds isn't well formed.
pub fn form(k: Kept) -> Result<(), Refusal>
    ensures { number_of result ≡ first_of (kept_refusal k ∷ []) }
{
    Refusal::Record.when(!well_kept(k))
}

// The whole bytes of a piece: with odd bits its last byte isn't one.
pub fn whole(odd: usize, n: usize) -> usize
    ensures { result ≡ whole_bytes odd n }
{
    if odd == 0 {
        return n;
    }
    if n == 0 {
        return 0;
    }
    n - 1
}

// 4: the whole bytes so far and n more, with at most seven odd bits, reach Table 1's limit.
fn long(code: usize, count: u128, n: usize, odd: usize) -> bool
    requires { odd ≤ 7 }
    ensures { result ≡ lib.Dec.leb (limit_at code) (8 * (count + n) + odd) }
{
    byte_limit(code) <= count.saturating_add(n as u128)
}

// 17, then 4, of n bytes with odd bits, fed to what holds odd bits and a count.
pub fn piece(code: usize, h: Held, odd: usize, n: usize) -> Result<(), Refusal>
    ensures { number_of result ≡ first_of (odd_refusal h.odd odd n ∷ long_refusal code (count_of h.high h.low) odd n ∷ []) }
{
    Refusal::Odd.when((h.odd != 0) | (7 < odd) | ((odd != 0) & (n == 0)))?;
    Refusal::Long.when(long(code, count(h.high, h.low), whole(odd, n), odd))
}
