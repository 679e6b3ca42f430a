// What tally counts.
ghost use Rattle.std.specs.Prelude.{◌≡◌, ◌+◌, ◌*◌, ◌≤◌, Some};
ghost use Rattle.heap.specs.Printed.{tally_text};
ghost use Rattle.heap.specs.Tallies.{flush_count, flush_share};

use kinds::weighed::Weighed;
use std::fmt;

// How many flushes there are along a chain, and the sum of their weights in milligrams.
#[derive(Clone, Copy, PartialEq, Eq, Debug, Default)]
pub struct Tally {
    pub flushes: u32,
    pub weight: u64,
}

// As "flushes 2, together 900 mg".
impl fmt::Display for Tally {
    ghost output = { λ t. Some (tally_text t) };

    fn fmt<W: fmt::Write>(&self, f: &mut fmt::Formatter<W>) -> fmt::Result {
        let Tally { flushes, weight } = *self;
        write!(f, "flushes {flushes}, together {weight} mg")
    }
}

impl Tally {
    // With one record more, of at most 20,000.
    pub(crate) fn with<T: Weighed>(self, row: T) -> Tally
        requires few { self.flushes ≤ 20000 }
        requires light { self.weight ≤ 20000 * 9999999 }
        ensures flushes { result.flushes ≡ self.flushes + flush_count (T.Kind.plain row) }
        ensures weight { result.weight ≡ self.weight + flush_share (T.Kind.plain row) }
        ensures few { result.flushes ≤ self.flushes + 1 }
        ensures light { result.weight ≤ self.weight + 9999999 }
    {
        if !row.is_flush() {
            return self;
        }
        Tally {
            flushes: self.flushes + 1,
            weight: self.weight + u64::from(row.weight_mg()),
        }
    }
}
