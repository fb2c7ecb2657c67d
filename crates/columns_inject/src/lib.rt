// Injection on a dump by columns (document 02, Q-12): the matrices of the source, 3.2.1 to 3.2.3, at each of the 32 positions, by the product tables.
#![tactic(auto)]

ghost use Rattle.std.specs.Prelude.{◌≡◌, ◌*◌, [], ◌∷◌, ◌++◌, length, map};
ghost use Rattle.definition.specs.Field.{product};
ghost use Rattle.definition.specs.Width.{block_count};
ghost use Rattle.columns_definition.specs.Columns.{row_sum, inject_dump, inject_outcome};
ghost use Rattle.columns_inject.specs.Coefficients.{number, numbers, injected};
ghost use Rattle.refusals.specs.Number.{number_of};

use definition::Width;
use refusals::Refusal;

// The coefficients of the matrices, in the order of their tables.
#[derive(Clone, Copy)]
enum Coefficient {
    C01,
    C02,
    C03,
    C04,
    C06,
    C07,
    C08,
    C0a,
    C0f,
    C10,
}

use Coefficient::{C0a, C0f, C01, C02, C03, C04, C06, C07, C08, C10};

// 3.2.1 to 3.2.3: the matrices at w = 3, 4 and 5. The last coefficient of a row is the message's.
const AT_3: [([Coefficient; 3], Coefficient); 3] = [
    ([C03, C02, C02], C01),
    ([C02, C03, C02], C02),
    ([C02, C02, C03], C04),
];

const AT_4: [([Coefficient; 4], Coefficient); 4] = [
    ([C04, C06, C06, C07], C01),
    ([C07, C04, C06, C06], C02),
    ([C06, C07, C04, C06], C04),
    ([C06, C06, C07, C04], C08),
];

const AT_5: [([Coefficient; 5], Coefficient); 5] = [
    ([C0f, C08, C0a, C0a, C08], C01),
    ([C08, C0f, C08, C0a, C0a], C02),
    ([C0a, C08, C0f, C08, C0a], C04),
    ([C0a, C0a, C08, C0f, C08], C08),
    ([C08, C0a, C0a, C08, C0f], C10),
];

impl Coefficient {
    // A byte times the coefficient.
    fn times(self, x: u8) -> u8
        ensures { result ≡ product (number self) x }
    {
        // A cast: a variant's number is the place of its table.
        products::tables()[self as usize][usize::from(x)]
    }
}

// A row of a matrix times the bytes of the blocks at a position and the message's.
fn sum<const W: usize>(row: &[Coefficient; W], last: Coefficient, column: &[u8], m: u8) -> u8
    requires { length column.now ≡ W }
    ensures { result ≡ row_sum (map number row.now ++ number last ∷ []) (column.now ++ m ∷ []) }
{
    let mut sum = last.times(m);
    for (c, x) in row.iter().zip(column) {
        sum ^= c.times(*x);
    }
    sum
}

// A matrix on the bytes of the blocks at a position and the message's.
fn mixed<const W: usize>(
    matrix: &[([Coefficient; W], Coefficient); W],
    column: &[u8],
    m: u8,
) -> [u8; W]
    requires { length column.now ≡ W }
    ensures { result ≡ map (λ cs. row_sum cs (column.now ++ m ∷ [])) (map numbers matrix.now) }
{
    // Written by place: what is written through a zip with iter_mut isn't known to a proof.
    let mut sums = [0; W];
    for (j, (row, last)) in matrix.iter().enumerate() {
        sums[j] = sum(row, *last, column, m);
    }
    sums
}

// Injection in place by a matrix, position by position.
fn inject_by<const W: usize>(
    matrix: &[([Coefficient; W], Coefficient); W],
    dump: &mut [u8],
    message: &[u8],
)
    requires { (length dump.old ≡ 32 * W) × (length message.now ≡ 32) }
    ensures { dump.new ≡ injected (map numbers matrix.now) W dump.old message.now }
{
    // Read and written by place: what is written through chunks_exact_mut isn't known to a proof.
    for (l, m) in message.iter().enumerate() {
        let column = mixed(matrix, &dump[W * l..W * l + W], *m);
        dump[W * l..W * l + W].copy_from_slice(&column);
    }
}

// Injection in place at w.
fn inject_at(w: Width, dump: &mut [u8], message: &[u8])
    requires { (length dump.old ≡ 32 * block_count w) × (length message.now ≡ 32) }
    ensures { dump.new ≡ inject_dump w dump.old message.now }
{
    match w {
        Width::W3 => inject_by(&AT_3, dump, message),
        Width::W4 => inject_by(&AT_4, dump, message),
        Width::W5 => inject_by(&AT_5, dump, message),
    }
}

// A message block's columns injected into a state's.
pub fn inject(code: usize, dump: &mut [u8], message: &[u8]) -> Result<(), Refusal>
    ensures { record { number = number_of result; buffer = dump.new } ≡ inject_outcome code dump.old message.now }
{
    columns_judge::refusal(code, dump.len(), message.len(), 32)?;
    inject_at(codes::width(code), dump, message);
    Ok(())
}
