// A mark: 40 words that hold a state (document 01, "Sheet and marks"). Marks that are too short read as zero, and nothing is written where
// there is no room.
#![tactic(auto)]

ghost use Rattle.std.specs.Prelude.{◌≡◌, not, [], ◌*◌};
ghost use Rattle.definition.specs.Block.{words_of_all, block_from};
ghost use Rattle.definition.specs.State.{five, state_of};
ghost use Rattle.definition.specs.Buffer.{same};
ghost use Rattle.octets.specs.Total.{write_at};
ghost use Rattle.sheet_marks.specs.Total.{when_used, state_at, cleared};

use definition::{Block, State, Width};
use sheet_definition::MARK;

// Eight words as a block where it is used, else zero: the words of an unused block are not read.
fn block(used: bool, t: &[u32; 8]) -> Block
    ensures { result ≡ when_used used (block_from t.now) }
{
    if !used {
        return Block::ZERO;
    }
    let [a0, a1, a2, a3, a4, a5, a6, a7] = *t;
    Block {
        a0,
        a1,
        a2,
        a3,
        a4,
        a5,
        a6,
        a7,
    }
}

// The state that mark m holds.
pub fn read(w: Width, marks: &[u32], m: usize) -> State
    ensures { result ≡ state_at w marks.now m }
{
    let Some(mark) = marks.as_chunks::<MARK>().0.get(m) else {
        return State::ZERO;
    };
    let t = mark.as_chunks::<8>().0;
    let k = blocks::count(w);
    State {
        h0: block(true, &t[0]),
        h1: block(true, &t[1]),
        h2: block(true, &t[2]),
        h3: block(3 < k, &t[3]),
        h4: block(4 < k, &t[4]),
    }
}

// Whether a mark has other words than these; a list that isn't as long has. All 40 are compared without a stop at the first that differs, so that it
// goes by vectors.
pub fn differs(mark: &[u32], words: &[u32; 40]) -> bool
    ensures { result ≡ not (same mark.now words.now) }
{
    mark.len() != MARK
        || mark
            .iter()
            .zip(words)
            .fold(false, |other, (a, b)| other | (a != b))
}

// A state, written as mark m.
pub fn write(marks: &mut [u32], m: usize, s: State)
    ensures { marks.new ≡ write_at (40 * m) (words_of_all (five s)) marks.old }
{
    if m < marks.len() / MARK {
        let i = MARK * m;
        marks[i..i + MARK].copy_from_slice(&blocks::words(s));
    }
}

// A sheet of n records becomes one of count: the marks past its new last one are zeroed.
pub fn clear(marks: &mut [u32], n: usize, count: usize)
    ensures { marks.new ≡ cleared n count marks.old }
{
    let first = count / 4 + 1;
    let last = n / 4;
    if first <= last && last < marks.len() / MARK {
        marks[MARK * first..MARK * (last + 1)].fill(0);
    }
}
