// The values of an answer to an accepted call.
ghost use Rattle.std.specs.Prelude.{◌≡◌, true};
ghost use Rattle.lines.specs.Answers.{all_fit};

use ring::arcs::Lengths;

// Four numbers, each of which fits a column; a value that a call doesn't have is 0.
#[derive(Clone, Copy, PartialEq, Eq, Debug)]
pub struct Values {
    pub numbers: [i64; 4],
    ghost fit: { all_fit numbers ≡ true },
}

// Of a call that answers nothing but that it is done.
impl From<()> for Values {
    ghost use Rattle.std.specs.Prelude.{[], ◌∷◌, pos};

    ghost from_gives = { λ _ values. values.numbers ≡ pos 0 ∷ (pos 0 ∷ (pos 0 ∷ (pos 0 ∷ []))) };

    fn from(_done: ()) -> Values {
        Values { numbers: [0; 4] }
    }
}

// Of a call that answers 1 or 0.
impl From<bool> for Values {
    ghost use Rattle.std.specs.Prelude.{[], ◌∷◌, pos};
    ghost use Rattle.rules.specs.Rules.{flag};

    ghost from_gives = { λ t values. values.numbers ≡ pos (flag t) ∷ (pos 0 ∷ (pos 0 ∷ (pos 0 ∷ []))) };

    fn from(t: bool) -> Values {
        Values {
            numbers: [i64::from(t), 0, 0, 0],
        }
    }
}

// Of a call that answers a count.
impl From<u32> for Values {
    ghost use Rattle.std.specs.Prelude.{[], ◌∷◌, pos};

    ghost from_gives = { λ n values. values.numbers ≡ pos n ∷ (pos 0 ∷ (pos 0 ∷ (pos 0 ∷ []))) };

    fn from(n: u32) -> Values {
        Values::counts(n, 0, 0, 0)
    }
}

// Of a call that answers the lengths of the arcs.
impl From<Lengths> for Values {
    ghost use Rattle.std.specs.Prelude.{[], ◌∷◌, pos};

    ghost from_gives = { λ l values. values.numbers ≡ pos l.free ∷ (pos l.white ∷ (pos l.grey ∷ (pos l.black ∷ []))) };

    fn from(l: Lengths) -> Values {
        Values::counts(l.free, l.white, l.grey, l.black)
    }
}

impl Values {
    ghost use Rattle.std.specs.Prelude.{[], ◌∷◌, pos};

    // Four counts.
    pub fn counts(a: u32, b: u32, c: u32, d: u32) -> Values
        ensures { result.numbers ≡ pos a ∷ (pos b ∷ (pos c ∷ (pos d ∷ []))) }
    {
        Values {
            numbers: [i64::from(a), i64::from(b), i64::from(c), i64::from(d)],
        }
    }
}
