// Whether a record is struck (document 02, Q-11): saves that close up ask it of its 40 bytes, and the plan's calls of those of its note.
#![tactic(auto)]

ghost use Rattle.std.specs.Prelude.{◌≡◌};
ghost use Rattle.sheet_definition.specs.Struck.{all_zero};

// Whether all bytes are zero. None is a stop, so that it goes by vectors.
pub fn zeros(t: &[u8]) -> bool
    ensures { result ≡ all_zero t.now }
{
    t.iter().fold(0, |set, x| set | *x) == 0
}
