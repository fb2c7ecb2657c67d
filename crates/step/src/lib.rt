// The step function of the permutation Q_j on one block: SubCrumb, MixWord and AddConstant (source, 4.1 to 4.4).
#![tactic(auto)]

ghost use Rattle.std.specs.Prelude.{◌≡◌};
ghost use Rattle.definition.specs.SubCrumb.{sub_crumb};
ghost use Rattle.definition.specs.MixWord.{mix_word};
ghost use Rattle.definition.specs.Permutation.{step as step_of};

use definition::{Block, Crumb, Pair};

// SubCrumb by the instructions of Appendix D, left to right and line by line.
pub fn sub_crumb(a0: u32, a1: u32, a2: u32, a3: u32) -> Crumb
    ensures { result ≡ sub_crumb a0 a1 a2 a3 }
{
    let mut r0 = a0;
    let mut r1 = a1;
    let mut r2 = a2;
    let mut r3 = a3;
    let mut r4 = r0;
    r0 |= r1;
    r2 ^= r3;
    r1 = !r1;
    r0 ^= r3;
    r3 &= r4;
    r1 ^= r3;
    r3 ^= r2;
    r2 &= r0;
    r0 = !r0;
    r2 ^= r1;
    r1 |= r3;
    r4 ^= r1;
    r3 ^= r2;
    r2 &= r1;
    r1 ^= r0;
    Crumb {
        x0: r4,
        x1: r1,
        x2: r2,
        x3: r3,
    }
}

// MixWord, with the rotations 2, 14, 10 and 1.
pub fn mix_word(x0: u32, x4: u32) -> Pair
    ensures { result ≡ mix_word x0 x4 }
{
    let y4 = x4 ^ x0;
    let y0 = x0.rotate_left(2) ^ y4;
    let z4 = y4.rotate_left(14) ^ y0;
    let z0 = y0.rotate_left(10) ^ z4;
    Pair {
        left: z0,
        right: z4.rotate_left(1),
    }
}

// One step on a block, with its two constants.
pub fn step(c: Pair, a: Block) -> Block
    ensures { result ≡ step_of c a }
{
    let x = sub_crumb(a.a0, a.a1, a.a2, a.a3);
    let y = sub_crumb(a.a5, a.a6, a.a7, a.a4);
    let m0 = mix_word(x.x0, y.x3);
    let m1 = mix_word(x.x1, y.x0);
    let m2 = mix_word(x.x2, y.x1);
    let m3 = mix_word(x.x3, y.x2);
    Block {
        a0: m0.left ^ c.left,
        a1: m1.left,
        a2: m2.left,
        a3: m3.left,
        a4: m0.right ^ c.right,
        a5: m1.right,
        a6: m2.right,
        a7: m3.right,
    }
}
