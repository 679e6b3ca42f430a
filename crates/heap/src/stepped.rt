// What a step did.
ghost use Rattle.std.specs.Prelude.{Some};
ghost use Rattle.heap.specs.Printed.{stepped_text};

use std::fmt;

// How many records were copied, how many slots left the grey arc, how many slots were freed, and whether a cycle is open.
#[derive(Clone, Copy, PartialEq, Eq, Debug)]
pub struct Stepped {
    pub copied: u32,
    pub scanned: u32,
    pub freed: u32,
    pub cycle_open: bool,
}

// As "copied 2, scanned 1, freed 0, cycle open".
impl fmt::Display for Stepped {
    ghost output = { λ s. Some (stepped_text s) };

    fn fmt<W: fmt::Write>(&self, f: &mut fmt::Formatter<W>) -> fmt::Result {
        let Stepped {
            copied,
            scanned,
            freed,
            cycle_open,
        } = *self;
        let cycle = if cycle_open { "open" } else { "closed" };
        write!(
            f,
            "copied {copied}, scanned {scanned}, freed {freed}, cycle {cycle}"
        )
    }
}
