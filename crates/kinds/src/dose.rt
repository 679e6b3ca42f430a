// The dose: one link, and component, weight in milligrams and mark as its plain part.
ghost use Rattle.std.specs.Prelude.{◌≡◌, ◌%◌, [], ◌∷◌, pos};
ghost use Rattle.kinds.specs.Doses.{built, dose_weight, mark_number, mark_of, dose_plain};
ghost use Rattle.std.proofs.Common.{rules};

use crate::fault::StoreFault;
use crate::kind::Kind;
use std::fmt;

// What a row is for, numbered as in the plain part.
#[derive(Clone, Copy, PartialEq, Eq, Debug)]
pub enum Mark {
    Dose = 0,
    Flush = 1,
}

impl Mark {
    // 0 for a dose, 1 for a flush: the variant's value, which `as` alone gives. A fault of the word layer has the same one line;
    // a trait for the two would be longer.
    pub fn number(self) -> u32
        ensures { result ≡ mark_number self }
    {
        self as u32
    }
}

impl fmt::Display for Mark {
    ghost use Rattle.std.specs.Prelude.{Some};
    ghost use Rattle.kinds.specs.Doses.{mark_name};

    ghost output = { λ m. Some (mark_name m) };

    fn fmt<W: fmt::Write>(&self, f: &mut fmt::Formatter<W>) -> fmt::Result {
        f.write_str(match self {
            Mark::Dose => "dose",
            Mark::Flush => "flush",
        })
    }
}

// 0 is a dose, 1 a flush; any other number is no mark.
impl TryFrom<i64> for Mark {
    type Error = StoreFault;

    ghost try_from_gives = { λ m r. r ≡ mark_of m };

    fn try_from(m: i64) -> Result<Mark, StoreFault> {
        match m {
            0 => Ok(Mark::Dose),
            1 => Ok(Mark::Flush),
            _ => Err(StoreFault::BadDose),
        }
    }
}

// A row of a dose. Every row is a dose: its weight is the field modulo 10,000,000. No ghost field bounds it, since the rules
// give any row of a lent table a meaning.
#[derive(Clone, Copy, PartialEq, Eq, Debug)]
pub struct Dose {
    next: u32,
    component: u16,
    milligrams: u32,
    mark: Mark,
}

impl Dose {
    // A dose with nothing as its link; weight 0 to 9,999,999 and mark 0 or 1, or it is refused.
    pub fn new(component: u16, weight: i64, mark: i64) -> Result<Dose, StoreFault>
        ensures { result ≡ built component weight mark }
    {
        let milligrams = u32::try_from(weight)
            .ok()
            .filter(|w| *w <= 9_999_999)
            .ok_or(StoreFault::BadDose)?;
        Ok(Dose {
            next: 0,
            component,
            milligrams,
            mark: Mark::try_from(mark)?,
        })
    }

    pub fn component(&self) -> u16
        ensures { result ≡ self.now.component }
    {
        self.component
    }

    // The weight in milligrams, 0 to 9,999,999.
    pub fn weight(&self) -> u32
        ensures { result ≡ dose_weight self.now }
    {
        self.milligrams % 10_000_000
    }

    pub fn mark(&self) -> Mark
        ensures { result ≡ self.now.mark }
    {
        self.mark
    }
}

impl Kind for Dose {
    ghost count = { 1 };

    ghost links = { λ d. d.next ∷ [] };

    ghost plain = { dose_plain };

    ghost counted = { Prim.search rules };

    ghost few = { Prim.search rules };

    fn link_count() -> usize {
        1
    }

    fn link(&self, k: usize) -> u32 {
        if k == 0 { self.next } else { 0 }
    }

    fn set_link(&mut self, k: usize, w: u32) {
        if k == 0 {
            self.next = w;
        }
    }
}
