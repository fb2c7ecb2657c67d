// Stepping back over a block of a kept hash record (document 02, Q-9): its refusals, 3 and 18, and the record before the block was fed.
#![tactic(auto)]

ghost use Rattle.std.specs.Prelude.{◌≡◌, [], ◌∷◌, length};
ghost use Rattle.definition.specs.Refusal.{first_of};
ghost use Rattle.definition.specs.State.{blocks_in, state_of};
ghost use Rattle.hash_kept.specs.Answer.{lent_of};
ghost use Rattle.refusals.specs.Number.{number_of};
ghost use Rattle.back_definition.specs.Round.{round_back};
ghost use Rattle.back_definition.specs.Back.{backed as backed_of, back_refusal, back_outcome, lent_back_refusals, lent_back_outcome};

use definition::{Block, State, Width};
use hash_definition::Kept;
use refusals::Refusal;

// The bytes of a block.
const BLOCK: usize = 32;

// 18: pending bytes, odd bits, a count under 32, or a block that isn't 32 bytes.
fn refusal(k: Kept, n: usize) -> Result<(), Refusal>
    ensures { number_of result ≡ first_of (back_refusal k n ∷ []) }
{
    let count = hash_kept::count(k.high, k.low);
    Refusal::Back.when((count % 32 != 0) | (k.odd != 0) | (count < 32) | (n != BLOCK))
}

// The round undone: the permutation, and then the injection.
fn round(w: Width, s: State, m: Block) -> State
    ensures { result ≡ state_of (round_back w (blocks_in w s) m) }
{
    injection_back::inject(w, permutation_back::permute(w, s), m)
}

// What a record held before a block was fed.
fn backed(k: Kept, block: &[u8]) -> Kept
    requires { first_of (lent_back_refusals k (length block.now)) ≡ 0 }
    ensures { result ≡ backed_of k block.now }
{
    let (high, low) = hash_kept::two_words(hash_kept::count(k.high, k.low) - 32);
    Kept {
        state: round(codes::width(k.code), k.state, octets::block(block)),
        high,
        low,
        ..k
    }
}

// What a record holds, stepped back over a block.
fn answer(k: Kept, block: &[u8]) -> Result<Kept, Refusal>
    ensures { lent_of result k ≡ lent_back_outcome k block.now }
{
    hash_kept::form(k)?;
    refusal(k, block.len())?;
    Ok(backed(k, block))
}

// A step back over a block of a record, which is altered where it lies.
pub fn back(record: &mut [u8], block: &[u8]) -> Result<(), Refusal>
    ensures { record { number = number_of result; buffer = «record».new } ≡ back_outcome «record».old block.now }
{
    let before = answer(hash_record::read(record), block)?;
    hash_record::encode(before, record);
    Ok(())
}
