// The refusals of the calls on columns (document 02, Q-12): 1, then 24.
#![tactic(auto)]

ghost use Rattle.std.specs.Prelude.{◌≡◌, [], ◌∷◌, ◌*◌};
ghost use Rattle.definition.specs.Refusal.{first_of, width_refusal};
ghost use Rattle.columns_definition.specs.Columns.{blocks_at, columns_refusal};
ghost use Rattle.refusals.specs.Number.{number_of};

use refusals::Refusal;

// 24: one of two lengths isn't what is due.
pub fn lengths(one: usize, due: usize, other: usize, expected: usize) -> Result<(), Refusal>
    ensures { number_of result ≡ first_of (columns_refusal one due other expected ∷ []) }
{
    Refusal::Columns.when((one != due) | (other != expected))
}

// 1, then 24: of a state dump, and of what else is lent with it.
pub fn refusal(code: usize, dump: usize, other: usize, due: usize) -> Result<(), Refusal>
    ensures { number_of result ≡ first_of (width_refusal code ∷ columns_refusal dump (32 * blocks_at code) other due ∷ []) }
{
    let n = blocks::count(codes::width(code));
    refusals::in_turn(
        refusals::known_code(code),
        lengths(dump, 32 * n, other, due),
    )
}
