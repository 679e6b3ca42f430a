// The colours of slots and the lengths of the arcs.
ghost use Rattle.std.specs.Prelude.{◌≡◌, ◌+◌, ◌^◌, ◌<◌, Some};
ghost use Rattle.ring.specs.Count.{one_more};
ghost use Rattle.ring.specs.Printed.{lengths_text};
ghost use Rattle.ring.specs.Sound.{stamp_colour};

use std::fmt;

// The arc in which a slot stands.
#[derive(Clone, Copy, PartialEq, Eq, Debug)]
pub enum Colour {
    Free,
    White,
    Grey,
    Black,
}

impl Colour {
    // The colour that a stamp means in an epoch.
    #[tactic(auto, unfolding(crate::specs::Sound::stamp_colour))]
    pub(crate) fn of_stamp(stamp: u32, epoch: u32, cycle_open: bool) -> Colour
        ensures { result ≡ stamp_colour cycle_open epoch stamp }
    {
        match i64::from(stamp) - i64::from(epoch) {
            0 => Colour::Black,
            1 => Colour::Grey,
            -2 if cycle_open => Colour::White,
            _ => Colour::Free,
        }
    }
}

// How many slots each arc has.
#[derive(Clone, Copy, PartialEq, Eq, Debug, Default)]
pub struct Lengths {
    pub free: u32,
    pub white: u32,
    pub grey: u32,
    pub black: u32,
}

// As "free 3, white 0, grey 1, black 2".
impl fmt::Display for Lengths {
    ghost output = { λ l. Some (lengths_text l) };

    fn fmt<W: fmt::Write>(&self, f: &mut fmt::Formatter<W>) -> fmt::Result {
        let Lengths {
            free,
            white,
            grey,
            black,
        } = *self;
        write!(f, "free {free}, white {white}, grey {grey}, black {black}")
    }
}

impl Lengths {
    // One more slot of a colour.
    pub(crate) fn add(&mut self, c: Colour)
        requires free { self.old.free + 1 < 2 ^ 32 }
        requires white { self.old.white + 1 < 2 ^ 32 }
        requires grey { self.old.grey + 1 < 2 ^ 32 }
        requires black { self.old.black + 1 < 2 ^ 32 }
        ensures { self.new ≡ one_more c self.old }
    {
        match c {
            Colour::Free => self.free += 1,
            Colour::White => self.white += 1,
            Colour::Grey => self.grey += 1,
            Colour::Black => self.black += 1,
        }
    }
}
