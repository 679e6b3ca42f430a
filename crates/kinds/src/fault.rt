// Why the store refuses.
ghost use Rattle.std.specs.Prelude.{◌≡◌};
ghost use Rattle.kinds.specs.Faults.{store_refusal};
ghost use Rattle.kinds.specs.declared.fault.StoreFault.TheVariants.{Word};

use std::error::Error;
use std::fmt;
use words::fault::WordFault;

#[derive(Clone, Copy, PartialEq, Eq, Debug)]
pub enum StoreFault {
    // A size is out of its range.
    SizeOutOfRange,
    // A lent table is shorter than its size.
    TableShort,
    // A register is not 0 to R − 1.
    NoSuchRegister,
    // The word layer refused.
    Word(WordFault),
    // A link is not 0 to n − 1, where the kind has n links.
    NoSuchLink,
    // A record is made of another number of registers than the kind has links.
    WrongLinkCount,
    // The weight or the mark of a dose is out of range.
    BadDose,
    // The store is closed.
    Closed,
    // A register holds no record.
    NoRecord,
    // Every nursery place is used.
    NurseryFull,
    // The free slots do not exceed the nursery's records.
    NoRoom,
    // A write needs a note, and as many notes stand as there are slots.
    NotesFull,
    // A chain of records never ends.
    EndlessChain,
}

impl From<WordFault> for StoreFault {
    ghost from_gives = { λ e r. r ≡ Word e };

    fn from(e: WordFault) -> StoreFault {
        StoreFault::Word(e)
    }
}

impl StoreFault {
    // The refusal's number. A match, since a refusal of the word layer keeps its own.
    pub fn number(self) -> u32
        ensures { result ≡ store_refusal self }
    {
        match self {
            StoreFault::SizeOutOfRange => 1,
            StoreFault::TableShort => 2,
            StoreFault::NoSuchRegister => 3,
            StoreFault::Word(e) => e.number(),
            StoreFault::NoSuchLink => 5,
            StoreFault::WrongLinkCount => 6,
            StoreFault::BadDose => 7,
            StoreFault::Closed => 20,
            StoreFault::NoRecord => 21,
            StoreFault::NurseryFull => 22,
            StoreFault::NoRoom => 23,
            StoreFault::NotesFull => 24,
            StoreFault::EndlessChain => 25,
        }
    }
}

impl fmt::Display for StoreFault {
    ghost use Rattle.std.specs.Prelude.{Some};
    ghost use Rattle.kinds.specs.Faults.{store_refusal_text};

    ghost output = { λ e. Some (store_refusal_text e) };

    fn fmt<W: fmt::Write>(&self, f: &mut fmt::Formatter<W>) -> fmt::Result {
        match self {
            StoreFault::SizeOutOfRange => f.write_str("a size is out of range"),
            StoreFault::TableShort => f.write_str("a table is shorter than its size"),
            StoreFault::NoSuchRegister => f.write_str("there is no such register"),
            StoreFault::Word(e) => e.fmt(f),
            StoreFault::NoSuchLink => f.write_str("there is no such link"),
            StoreFault::WrongLinkCount => f.write_str("a record has another number of links"),
            StoreFault::BadDose => f.write_str("the weight or the mark of a dose is out of range"),
            StoreFault::Closed => f.write_str("the store is closed"),
            StoreFault::NoRecord => f.write_str("the register holds no record"),
            StoreFault::NurseryFull => f.write_str("the nursery is full"),
            StoreFault::NoRoom => f.write_str("too few slots are free"),
            StoreFault::NotesFull => f.write_str("there is no room for a note"),
            StoreFault::EndlessChain => f.write_str("the chain of records never ends"),
        }
    }
}

impl Error for StoreFault {}
