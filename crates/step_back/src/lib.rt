// The step function of the permutation Q_j undone on one block: AddConstant, MixWord and SubCrumb (source, 4.1 to 4.4; document 02, Q-9).
#![tactic(auto)]

ghost use Rattle.std.specs.Prelude.{◌≡◌};
ghost use Rattle.back_definition.specs.Step.{sub_crumb_back, mix_word_back, step_back};

use definition::{Block, Crumb, Pair};

// SubCrumb undone at all 32 bits at once, in eleven instructions and two complements.
pub fn sub_crumb(x0: u32, x1: u32, x2: u32, x3: u32) -> Crumb
    ensures { result ≡ sub_crumb_back x0 x1 x2 x3 }
{
    let any = x2 | x3;
    let one = x2 ^ x3;
    let a0 = x0 ^ any;
    let e = x1 ^ any;
    let not_a1 = x3 ^ ((one ^ a0) & e);
    let not_a0 = !a0;
    let a3 = e ^ (not_a1 & not_a0);
    Crumb {
        x0: a0,
        x1: !not_a1,
        x2: one ^ (not_a0 & a3),
        x3: a3,
    }
}

// MixWord undone: its equations from the last to the first, with rotations to the right by 1, 10, 14 and 2.
pub fn mix_word(left: u32, right: u32) -> Pair
    ensures { result ≡ mix_word_back left right }
{
    let z4 = right.rotate_right(1);
    let y0 = (left ^ z4).rotate_right(10);
    let y4 = (z4 ^ y0).rotate_right(14);
    let x0 = (y0 ^ y4).rotate_right(2);
    Pair {
        left: x0,
        right: y4 ^ x0,
    }
}

// One step undone on a block, with its two constants.
pub fn step(c: Pair, a: Block) -> Block
    ensures { result ≡ step_back c a }
{
    let m0 = mix_word(a.a0 ^ c.left, a.a4 ^ c.right);
    let m1 = mix_word(a.a1, a.a5);
    let m2 = mix_word(a.a2, a.a6);
    let m3 = mix_word(a.a3, a.a7);
    let x = sub_crumb(m0.left, m1.left, m2.left, m3.left);
    let y = sub_crumb(m1.right, m2.right, m3.right, m0.right);
    Block {
        a0: x.x0,
        a1: x.x1,
        a2: x.x2,
        a3: x.x3,
        a4: y.x3,
        a5: y.x0,
        a6: y.x1,
        a7: y.x2,
    }
}
