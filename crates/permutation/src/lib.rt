// The permutation P: Q_j on each block of a state (source, 4.1 and 4.5), with the generator of the step constants (4.4) beside each block. Four
// blocks are stepped side by side.
#![tactic(auto)]

ghost use Rattle.std.specs.Prelude.{◌≡◌, ℕ, ◌%◌, ◌^◌, ◌<◌, ⊤, refl};
ghost use Rattle.definition.specs.declared.Pair.{Pair};
ghost use Rattle.definition.specs.Constant.{f_l, exchanged};
ghost use Rattle.definition.specs.Round.{permute_from};
ghost use Rattle.definition.specs.State.{blocks_in, state_of};
ghost use Rattle.definition.specs.AppendixB.{halves_of, pseudo_step};
ghost use Rattle.definition.proofs.Constant.{pseudo_step_lem};
ghost use Rattle.permutation.specs.Lanes.{go_on as gone_on, lane as lane_of, put_lane, lanes_of, stepped, step_fifth, all_after};

use blocks::{tweak, used};
use definition::{Block, Pair, State, Width};
use generator::{MASK, STARTS};

// The generator at its start, c_L of blocks 0 to 3, then c_R of them.
const STARTS_4: [u32; 8] = [
    (STARTS[0] >> 32) as u32,
    (STARTS[1] >> 32) as u32,
    (STARTS[2] >> 32) as u32,
    (STARTS[3] >> 32) as u32,
    (STARTS[0] % 4294967296) as u32,
    (STARTS[1] % 4294967296) as u32,
    (STARTS[2] % 4294967296) as u32,
    (STARTS[3] % 4294967296) as u32,
];

// 4.4: the halves for t_l and t_r of the generator's polynomial less its heading term.
const MASK_L: u32 = (MASK >> 32) as u32;

const MASK_R: u32 = (MASK % 4294967296) as u32;

// The generator of the step constants (4.4), t_l and t_r: two words, or one number t_l || t_r, which one register holds.
trait StepConstants {
    ghost turned: { Self → Self };

    ghost right: { Self → ℕ };

    ghost halves: { Self → Pair };

    ghost fits: { Self → Type 0 };

    // One application: f_L, then the exchange.
    fn turn(self) -> Self
        ensures { result ≡ turned self };

    // t_r, after an application the next step constant.
    fn right(self) -> u32
        ensures { result ≡ right self };

    // Its halves go on by the pseudo code of 4.4, and t_r is the right one.
    ghost by_pseudo_code: { (t : Self) → fits t → pseudo_step (halves t) ≡ halves (turned t) };

    ghost right_half: { (t : Self) → right t ≡ (halves t).right };
}

impl StepConstants for Pair {
    ghost turned = { pseudo_step };

    ghost right = { λ t. t.right };

    ghost halves = { λ t. t };

    ghost fits = { λ t. ⊤ };

    // The mask is all ones where the highest bit of t_l is 1, else 0, without a branch: 4.4's `if (c == 1)`.
    fn turn(self) -> Pair {
        let mask = 0u32.wrapping_sub(self.left >> 31);
        let tl = (self.left << 1) | (self.right >> 31);
        let tr = self.right << 1;
        Pair {
            left: tr ^ (mask & MASK_R),
            right: tl ^ (mask & MASK_L),
        }
    }

    fn right(self) -> u32 {
        self.right
    }

    ghost by_pseudo_code = { λ t h. refl };

    ghost right_half = { λ t. refl };
}

impl StepConstants for u64 {
    ghost turned = { λ t. exchanged (f_l t) };

    ghost right = { λ t. t % 2 ^ 32 };

    ghost halves = { halves_of };

    ghost fits = { λ t. t < 2 ^ 64 };

    fn turn(self) -> u64 {
        generator::turn_whole(self)
    }

    fn right(self) -> u32 {
        generator::right(self)
    }

    ghost by_pseudo_code = { pseudo_step_lem };

    ghost right_half = { λ t. refl };
}

// A Q_j on its way: the generator and the block.
#[derive(Clone, Copy)]
struct Going<G> {
    t: G,
    a: Block,
}

// One step of Q_j: the generator applied twice, and its t_r each time the next constant.
fn go_on<G: StepConstants + Copy>(g: Going<G>) -> Going<G>
    ensures { result ≡ gone_on G.turned G.right g }
{
    let t1 = g.t.turn();
    let t2 = t1.turn();
    let c = Pair {
        left: t1.right(),
        right: t2.right(),
    };
    Going {
        t: t2,
        a: step::step(c, g.a),
    }
}

// Lanes: of four Q_j on their way, word k of block j stands at 4k + j, its t_l at 32 + j and its t_r at 36 + j, so that a step over the
// four j is one vector operation for each of the step's. This is the j-th.
fn lane(v: &[u32; 40], j: usize) -> Going<Pair>
    requires { j < 4 }
    ensures { result ≡ lane_of j v.now }
{
    Going {
        t: Pair {
            left: v[32 + j],
            right: v[36 + j],
        },
        a: Block {
            a0: v[j],
            a1: v[4 + j],
            a2: v[8 + j],
            a3: v[12 + j],
            a4: v[16 + j],
            a5: v[20 + j],
            a6: v[24 + j],
            a7: v[28 + j],
        },
    }
}

// The j-th put in its lane.
fn put_lane(v: &mut [u32; 40], j: usize, g: Going<Pair>)
    requires { j < 4 }
    ensures { v.new ≡ put_lane j v.old g }
{
    let t = g.t;
    let a = g.a;
    v[j] = a.a0;
    v[4 + j] = a.a1;
    v[8 + j] = a.a2;
    v[12 + j] = a.a3;
    v[16 + j] = a.a4;
    v[20 + j] = a.a5;
    v[24 + j] = a.a6;
    v[28 + j] = a.a7;
    v[32 + j] = t.left;
    v[36 + j] = t.right;
}

// One step on all four. An index: j is a place in each row of the lanes, and what an iterator over copies gives would have to be put back by it.
fn step_lanes(v: &mut [u32; 40])
    requires { v.old ≡ lanes_of (lane_of 0 v.old) (lane_of 1 v.old) (lane_of 2 v.old) (lane_of 3 v.old) }
    ensures { v.new ≡ stepped v.old }
{
    for j in 0..4 {
        let g = go_on(lane(v, j));
        put_lane(v, j, g);
    }
}

// One step of Q_4 on the fifth block, where there is one.
fn step_fifth(fifth: bool, g: Going<u64>) -> Going<u64>
    ensures { result ≡ step_fifth fifth g }
{
    if fifth { go_on(g) } else { g }
}

// The eight steps, from the generators' starts: four blocks as lanes, and the fifth, where there is one, beside them.
fn all_steps(fifth: bool, t: State) -> State
    ensures { result ≡ all_after 8 fifth t }
{
    let k = STARTS_4;
    let t0 = t.h0;
    let t1 = t.h1;
    let t2 = t.h2;
    let t3 = t.h3;
    let t4 = t.h4;
    let mut v = [
        t0.a0, t1.a0, t2.a0, t3.a0, t0.a1, t1.a1, t2.a1, t3.a1, t0.a2, t1.a2, t2.a2, t3.a2, t0.a3,
        t1.a3, t2.a3, t3.a3, t0.a4, t1.a4, t2.a4, t3.a4, t0.a5, t1.a5, t2.a5, t3.a5, t0.a6, t1.a6,
        t2.a6, t3.a6, t0.a7, t1.a7, t2.a7, t3.a7, k[0], k[1], k[2], k[3], k[4], k[5], k[6], k[7],
    ];
    let mut e = Going {
        t: STARTS[4],
        a: t4,
    };
    for _ in 0..8usize {
        step_lanes(&mut v);
        e = step_fifth(fifth, e);
    }
    State {
        h0: lane(&v, 0).a,
        h1: lane(&v, 1).a,
        h2: lane(&v, 2).a,
        h3: lane(&v, 3).a,
        h4: e.a,
    }
}

// P: Q_j on block j for each j below w.
pub fn permute(w: Width, s: State) -> State
    ensures { result ≡ state_of (permute_from 0 (blocks_in w s)) }
{
    let t = State {
        h1: tweak(1, s.h1),
        h2: tweak(2, s.h2),
        h3: tweak(3, s.h3),
        h4: tweak(4, s.h4),
        ..s
    };
    used(w, all_steps(w == Width::W5, t))
}
