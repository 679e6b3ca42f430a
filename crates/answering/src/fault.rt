// Why a line of the sheet is refused. A refusal of the store is carried whole, and one of the word layer inside it.
ghost use Rattle.std.specs.Prelude.{◌≡◌};
ghost use Rattle.answering.specs.Faults.{sheet_refusal, sheet_layer, sheet_column};
ghost use Rattle.answering.specs.declared.fault.SheetFault.TheVariants.{Format, Store};

use kinds::fault::StoreFault;
use lines::request::FormatFault;
use std::error::Error;
use std::fmt;

#[derive(Clone, Copy, PartialEq, Eq, Debug)]
pub enum SheetFault {
    // The line is not in the format.
    Format(FormatFault),
    // A call before an accepted open, or an open after one.
    OutOfTurn,
    // The store refused.
    Store(StoreFault),
}

impl From<FormatFault> for SheetFault {
    ghost from_gives = { λ e r. r ≡ Format e };

    fn from(fault: FormatFault) -> SheetFault {
        SheetFault::Format(fault)
    }
}

impl From<StoreFault> for SheetFault {
    ghost from_gives = { λ e r. r ≡ Store e };

    fn from(fault: StoreFault) -> SheetFault {
        SheetFault::Store(fault)
    }
}

impl SheetFault {
    // The refusal's number. A match, since a refusal of the lines or of the store keeps its own.
    pub fn number(self) -> u32
        ensures { result ≡ sheet_refusal self }
    {
        match self {
            SheetFault::Format(e) => u32::from(e.refusal()),
            SheetFault::OutOfTurn => 34,
            SheetFault::Store(e) => e.number(),
        }
    }

    // The layer that refused: 1 the sheet, 2 the store, 3 the words. A match, since the case of the carried fault decides.
    pub fn layer(self) -> u32
        ensures { result ≡ sheet_layer self }
    {
        match self {
            SheetFault::Format(_) | SheetFault::OutOfTurn => 1,
            SheetFault::Store(StoreFault::Word(_)) => 3,
            SheetFault::Store(_) => 2,
        }
    }

    // The first offending field, 1 to 3, or 0, as an answer line has it. A match, since a fault of the lines carries the field.
    pub fn column(self) -> u32
        ensures { result ≡ sheet_column self }
    {
        match self {
            SheetFault::Format(e) => u32::from(e.column()),
            SheetFault::OutOfTurn | SheetFault::Store(_) => 0,
        }
    }
}

impl fmt::Display for SheetFault {
    ghost use Rattle.std.specs.Prelude.{Some};
    ghost use Rattle.answering.specs.Faults.{sheet_text};

    ghost output = { λ e. Some (sheet_text e) };

    fn fmt<W: fmt::Write>(&self, f: &mut fmt::Formatter<W>) -> fmt::Result {
        match self {
            SheetFault::Format(e) => e.fmt(f),
            SheetFault::OutOfTurn => f.write_str(
                "a call before an accepted open, or an open after one",
            ),
            SheetFault::Store(e) => e.fmt(f),
        }
    }
}

impl Error for SheetFault {}
