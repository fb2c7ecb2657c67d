// The four codes: 1 = 224 bits, 2 = 256, 3 = 384, 4 = 512 (source, Tables 2 and 3; document 01). No enum of them: C hands over any number, a record
// holds any byte, and each call's order of refusals says how late one that is no code is judged.
#![tactic(auto)]

ghost use Rattle.std.specs.Prelude.{◌≡◌};
ghost use Rattle.definition.specs.Width.{width_at};
ghost use Rattle.definition.specs.Luffa.{words_at};
ghost use Rattle.definition.specs.Refusal.{known as known_of};

use definition::Width;

pub fn known(code: usize) -> bool
    ensures { result ≡ known_of code }
{
    matches!(code, 1..=4)
}

// w at a code.
pub fn width(code: usize) -> Width
    ensures { result ≡ width_at code }
{
    match code {
        3 => Width::W4,
        4 => Width::W5,
        _ => Width::W3,
    }
}

// The words of the digest at a code.
pub fn words(code: usize) -> usize
    ensures { result ≡ words_at code }
{
    match code {
        1 => 7,
        2 => 8,
        3 => 12,
        4 => 16,
        _ => 0,
    }
}
