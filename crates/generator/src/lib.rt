// The generator of the step constants as one number of 64 bits, t_L || t_R (source, 4.4): its application, and the constant that this gives.
#![tactic(auto)]

ghost use Rattle.std.specs.Prelude.{◌≡◌, ◌%◌, ◌^◌};
ghost use Rattle.definition.specs.Constant.{f_l, exchanged};

// 4.4: the generator's polynomial less its heading term.
pub const MASK: u64 = 0xc4d6496c55c61c8d;

// B-1: the generator at its start, c_L || c_R of each block. No step constant is stored.
pub const STARTS: [u64; 5] = [
    0x181cca53380cde06,
    0x5b6f0876f16f8594,
    0x7e106ce938979cb0,
    0xbb62f36492e93c29,
    0x9a025047cff2a940,
];

// One application of the generator, by the equations of 4.4: f_L, then the exchange. The mask is all ones where the highest bit of t is 1, else 0,
// without a branch: 4.4's `if (c == 1)`.
pub fn turn_whole(t: u64) -> u64
    ensures { result ≡ exchanged (f_l t) }
{
    let mask = 0u64.wrapping_sub(t >> 63);
    let f = (t << 1) ^ (mask & MASK);
    f.rotate_left(32)
}

// t_r of t_l || t_r. An `as` here and in permutation's halves: t_l is cut off, which no From does.
pub fn right(t: u64) -> u32
    ensures { result ≡ t % 2 ^ 32 }
{
    (t % 4294967296) as u32
}
