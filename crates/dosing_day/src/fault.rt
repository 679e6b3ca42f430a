// Why a day ends early.
ghost use Rattle.std.specs.Prelude.{◌≡◌};
ghost use Rattle.dosing_day.specs.declared.fault.DayFault.TheVariants.{Store, Memory, Stream};

use kinds::fault::StoreFault;
use std::alloc::AllocError;
use std::error::Error;
use std::{fmt, io};

#[derive(Debug, Drop)]
pub enum DayFault {
    // The store is closed, or a dose is out of range.
    Store(StoreFault),
    // There is no memory for the plan.
    Memory(AllocError),
    // There is no memory for the answers, so that no call was made.
    Unanswered,
    // Standard output cannot be written.
    Stream(io::Error),
}

impl From<StoreFault> for DayFault {
    ghost from_gives = { λ e r. r ≡ Store e };

    fn from(e: StoreFault) -> DayFault {
        DayFault::Store(e)
    }
}

impl From<AllocError> for DayFault {
    ghost from_gives = { λ e r. r ≡ Memory e };

    fn from(e: AllocError) -> DayFault {
        DayFault::Memory(e)
    }
}

impl From<io::Error> for DayFault {
    ghost from_gives = { λ e r. r ≡ Stream e };

    fn from(e: io::Error) -> DayFault {
        DayFault::Stream(e)
    }
}

impl fmt::Display for DayFault {
    ghost use Rattle.dosing_day.specs.Printed.{day_fault_text};

    ghost output = { day_fault_text };

    fn fmt<W: fmt::Write>(&self, f: &mut fmt::Formatter<W>) -> fmt::Result {
        match self {
            DayFault::Store(e) => e.fmt(f),
            DayFault::Memory(e) => e.fmt(f),
            DayFault::Unanswered => f.write_str("no memory for the answers"),
            DayFault::Stream(e) => e.fmt(f),
        }
    }
}

impl Error for DayFault {}
