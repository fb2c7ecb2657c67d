// A piece fed to what a kept hash record holds, where it stands (document 01, "The kept hash record"; document 02, Q-7): judged, pasted behind the
// pending bytes, or absorbed where it lies. A piece that completes no block alters the pending bytes, the odd bits and the count alone.
#![tactic(auto)]

ghost use Rattle.std.specs.Prelude.{◌≡◌, ◌+◌, ◌-◌, ◌*◌, ◌%◌, ◌<◌, ◌≤◌, true, ◌++◌, length, take};
ghost use Rattle.definition.specs.Round.{chain};
ghost use Rattle.definition.specs.Padding.{blocks, whole_bytes};
ghost use Rattle.definition.specs.State.{blocks_in, state_of};
ghost use Rattle.definition.specs.Luffa.{limit_at};
ghost use Rattle.definition.specs.Refusal.{first_of};
ghost use Rattle.hash_definition.specs.Record.{bytes_fed, well_kept, fed as fed_of, fed_bits as fed_bits_of};
ghost use Rattle.hash_definition.specs.Lent.{lent_feed_refusals, lent_feed_bits_outcome};
ghost use Rattle.refusals.specs.Number.{number_of};
ghost use Rattle.hash_pieces.specs.Short.{high_of, low_of, stays_of, ended_of, short_of};

use definition::{Counted, State, Width};
use hash_definition::{Held, Kept};
use refusals::Refusal;

// The two words of a count with n bytes more.
fn counted(high: u64, low: u64, n: usize) -> (u64, u64)
    ensures { result ≡ (high_of high low n, low_of high low n) }
{
    hash_kept::two_words(hash_kept::count(high, low).wrapping_add(n as u128))
}

// Whole bytes that complete no block.
fn stays(h: Held, piece: &[u8]) -> Held
    ensures { result ≡ stays_of h piece.now }
{
    let pos = (h.low % 32) as usize;
    let (high, low) = counted(h.high, h.low, piece.len());
    Held {
        odd: h.odd,
        pending: octets::pasted(h.pending, pos, piece),
        high,
        low,
    }
}

// Odd bits after the pending bytes.
fn ended(h: Held, odd: usize, byte: u8) -> Held
    ensures { result ≡ ended_of h odd byte }
{
    let pos = (h.low % 32) as usize;
    Held {
        odd,
        pending: octets::pasted(h.pending, pos, &[rounds::last::high_bits(odd, byte)]),
        ..h
    }
}

// A piece that completes no block.
pub fn short_fed(h: Held, piece: &[u8], odd: usize) -> Held
    ensures { (0 < odd → 0 < length piece.now) → result ≡ short_of h piece.now odd }
{
    let n = hash_kept::whole(odd, piece.len());
    let s = stays(h, &piece[..n]);
    if n == piece.len() {
        return s;
    }
    ended(s, odd, piece[n])
}

// The state after the pending block, which the front of a piece completes; where nothing is pending there is no front.
fn completed(w: Width, s: State, p: [u8; 32], pos: usize, front: &[u8]) -> State
    requires { (pos < 32) × (length front.now ≡ (32 - pos) % 32) }
    ensures { result ≡ state_of (chain w (blocks_in w s) (blocks (take pos p ++ front.now))) }
{
    if pos == 0 {
        return blocks::used(w, s);
    }
    let q = octets::pasted(p, pos, front);
    let c = Counted {
        state: s,
        rounds: 0,
    };
    rounds::absorb(w, c, &q).state
}

// Whole bytes fed that complete the pending block: they are continued from their middle, where they lie.
fn fed(k: Kept, piece: &[u8]) -> Kept
    requires { (well_kept k ≡ true) × (8 * (bytes_fed k + length piece.now) < limit_at k.code) × (32 - k.low % 32 ≤ length piece.now) }
    ensures { result ≡ fed_of k piece.now }
{
    let w = codes::width(k.code);
    let pos = (k.low % 32) as usize;
    let (front, rest) = piece.split_at((32 - pos) % 32);
    let c = Counted {
        state: completed(w, k.state, k.pending, pos, front),
        rounds: 0,
    };
    let d = rounds::absorb(w, c, rest);
    let at = rest.len() / 32 * 32;
    let (high, low) = counted(k.high, k.low, piece.len());
    Kept {
        code: k.code,
        odd: k.odd,
        state: d.state,
        pending: octets::pasted([0u8; 32], 0, &rest[at..]),
        high,
        low,
    }
}

// A piece fed that completes the pending block: its whole bytes, and the odd bits of its last byte, which end the message.
fn fed_bits(k: Kept, piece: &[u8], odd: usize) -> Kept
    requires { (first_of (lent_feed_refusals k odd (length piece.now)) ≡ 0) × (32 - k.low % 32 ≤ whole_bytes odd (length piece.now)) }
    ensures { result ≡ fed_bits_of k piece.now odd }
{
    let n = hash_kept::whole(odd, piece.len());
    let f = fed(k, &piece[..n]);
    if n == piece.len() {
        return f;
    }
    hash_kept::with_held(f, ended(hash_kept::held(f), odd, piece[n]))
}

// A piece, which may end with odd bits, fed to what is held, which is altered where it stands: of a piece that completes no block only what it
// alters is stored.
pub fn feed(hash: &mut Kept, piece: &[u8], odd: usize) -> Result<(), Refusal>
    ensures { record { number = number_of result; kept = hash.new } ≡ lent_feed_bits_outcome hash.old piece.now odd }
{
    let k = *hash;
    let h = hash_kept::held(k);
    let n = piece.len();
    hash_kept::form(k)?;
    hash_kept::piece(k.code, h, odd, n)?;
    let pos = (k.low % 32) as usize;
    if hash_kept::whole(odd, n) < 32 - pos {
        let s = short_fed(h, piece, odd);
        let pending = s.pending;
        hash.odd = s.odd;
        hash.pending = pending;
        hash.high = s.high;
        hash.low = s.low;
    } else {
        *hash = fed_bits(k, piece, odd);
    }
    Ok(())
}
