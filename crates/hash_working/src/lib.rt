// What a kept hash record holds to begin with, and its output, by value (document 01, "The kept hash record"; document 02, Q-2).
#![tactic(auto)]

ghost use Rattle.std.specs.Prelude.{◌≡◌, [], ◌∷◌, ◌*◌, length};
ghost use Rattle.definition.specs.Buffer.{overwrite};
ghost use Rattle.definition.specs.Refusal.{first_of, out_refusal};
ghost use Rattle.hash_definition.specs.Record.{started as started_of, output_from};
ghost use Rattle.hash_definition.specs.Lent.{kept_refusal, lent_start_outcome, lent_finish_outcome};
ghost use Rattle.refusals.specs.Number.{number_of};
ghost use Rattle.hash_kept.specs.Answer.{answer_of};
ghost use Rattle.hash_definition.specs.Output.{output_by, lent_finish_output_outcome};

use hash_definition::{Kept, OutputAnswer};
use refusals::Refusal;

// What is held to begin with.
pub fn started(code: usize) -> Kept
    ensures { result ≡ started_of code }
{
    let w = codes::width(code);
    Kept {
        code: code,
        odd: 0,
        state: rounds::start(w),
        pending: [0u8; 32],
        high: 0,
        low: 0,
    }
}

// A start: what is held is started afresh.
pub fn start(code: usize, hash: &mut Kept) -> Result<(), Refusal>
    ensures { record { number = number_of result; kept = hash.new } ≡ lent_start_outcome code hash.old }
{
    refusals::known_code(code)?;
    *hash = started(code);
    Ok(())
}

// A number of words of what is held, and the rounds that they took; 3, then 2, refuse the call.
fn put_out(k: Kept, words: usize, out: &mut [u8]) -> Result<u64, Refusal>
    ensures { record { answer = answer_of result; buffer = out.new } ≡ output_by (first_of (kept_refusal k ∷ out_refusal (4 * words) (length out.old) ∷ [])) words (overwrite (output_from k words) out.old) out.old }
{
    refusals::in_turn(hash_kept::form(k), refusals::room(words, out.len()))?;
    let p = k.pending;
    let pos = (k.low % 32) as usize;
    let closing = rounds::last::closing(k.odd, p[pos]);
    Ok(squeeze::end(
        codes::width(k.code),
        k.state,
        &p[..pos],
        closing,
        words,
        out,
    ))
}

// A finish: the digest's words.
pub fn finish(k: Kept, out: &mut [u8]) -> Result<(), Refusal>
    ensures { record { number = number_of result; buffer = out.new } ≡ lent_finish_outcome k out.old }
{
    put_out(k, codes::words(k.code), out)?;
    Ok(())
}

// A finish with a number of words, and the rounds that they took.
pub fn finish_output(k: Kept, words: usize, out: &mut [u8]) -> Result<u64, Refusal>
    ensures { record { answer = answer_of result; buffer = out.new } ≡ lent_finish_output_outcome k words out.old }
{
    hash_kept::words(words)?;
    put_out(k, words, out)
}

// What C is answered.
pub fn answer(put_out: Result<u64, Refusal>) -> OutputAnswer
    ensures { result ≡ answer_of put_out }
{
    match put_out {
        Ok(rounds) => OutputAnswer { number: 0, rounds },
        Err(r) => OutputAnswer {
            number: u64::from(u32::from(r)),
            rounds: 0,
        },
    }
}
