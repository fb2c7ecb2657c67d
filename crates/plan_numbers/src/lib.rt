// A set of well numbers: a bit for each of the 65,536, which is 8 KiB (document 02, Q-1). With it a check asks once for each record whether a
// number was met, however many records there are.
#![tactic(auto)]

ghost use Rattle.std.specs.Prelude.{◌≡◌};
ghost use Rattle.plan_numbers.specs.Numbers.{has as has_number, plus};

// Whether a number is in the set. The bits stand 64 to a word.
pub fn has(t: &[u64; 1024], k: u16) -> bool
    ensures { result ≡ has_number t.now k }
{
    let i = usize::from(k);
    (t[i / 64] >> (i % 64)) % 2 == 1
}

// The set with a number more.
pub fn put(t: &mut [u64; 1024], k: u16)
    ensures { has_number t.new ≡ plus k (has_number t.old) }
{
    let i = usize::from(k);
    t[i / 64] |= 1 << (i % 64);
}
