// What tally reads of a record: whether it is a flush, and its weight.
ghost use Rattle.std.specs.Prelude.{◌≡◌, ◌≤◌};
ghost use Rattle.rules.specs.Chains.{is_flush, weight_in};

use crate::dose::{Dose, Mark};
use crate::kind::Kind;

// A kind whose plain part has a weight and a mark, as that of the dose.
pub trait Weighed: Kind {
    fn is_flush(&self) -> bool
        ensures { result ≡ is_flush (Self.Kind.plain self.now) };

    // The weight in milligrams.
    fn weight_mg(&self) -> u32
        ensures value { result ≡ weight_in (Self.Kind.plain self.now) }
        ensures light { result ≤ 9999999 };
}

impl Weighed for Dose {
    fn is_flush(&self) -> bool {
        self.mark() == Mark::Flush
    }

    fn weight_mg(&self) -> u32 {
        self.weight()
    }
}
