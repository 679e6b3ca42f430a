// The ring: S slots linked both ways in lent tables and cut into the arcs free, white, grey and black.
ghost use Rattle.std.specs.Prelude.{◌≡◌, ◌+◌, ◌^◌, ◌<◌, false, not, is_some, if◌then◌else◌, Some, None, slice_index};
ghost use Rattle.ring.specs.Arcs.{has, marked};
ghost use Rattle.ring.specs.Calls.{taken_slot, scanned_slot, is_none, first_of, colour_in, next_around, lengths_of};
ghost use Rattle.ring.specs.Sound.{stamp_colour};
ghost use Rattle.ring.specs.View.{arcs_of, slots_of, is_open_of, Fine, LinkedRing, Long, Begun, Refused};
ghost use Rattle.ring.specs.Laws.{OneArc};

use crate::arcs::{Colour, Lengths};
use crate::tables::set_each;
use std::marker::Model;

mod cycle;
mod moves;

// A ring is written in tables that its caller lends, one each for next slots, previous slots and stamps, and takes no memory
// of its own: so indices link the slots, not a `Box`. A table may be longer than `slots`, and stays as it is beyond.
// `head` is the first slot of the ring; `grey` and `black` are the slots at which these arcs begin, where an empty arc
// begins at the next one's start. A slot's stamp says its colour: `epoch` is black, `epoch` + 1 grey, `epoch` − 2 white
// while a cycle is open, anything else free.
#[derive(Drop)]
pub struct Ring<'a> {
    next: &'a mut [u32],
    previous: &'a mut [u32],
    stamp: &'a mut [u32],
    slots: u32,
    head: u32,
    grey: u32,
    black: u32,
    epoch: u32,
    cycle_open: bool,
}

// A caller sees the tables and the numbers. The tables hold the arcs of the ring. A caller's proof sees the value alone and not
// its invariant: so a call says again that the ring is `Fine` where the proofs of its callers speak of the tables.
impl<'a> Model for Ring<'a> {
    ghost use Rattle.ring.specs.Sound.{Tables};
    ghost use Rattle.ring.specs.View.{Fine};

    ghost Value = { Tables };

    ghost use Rattle.ring.specs.Inside.{tables};

    ghost view = { tables };

    ghost invariant = { λ r. Fine (tables r) };
}

impl<'a> Ring<'a> {
    // A ring of the slots 0 to `slots` − 1, all free; if a table is shorter, all tables stay and the ring has no slot.
    pub fn new(
        next: &'a mut [u32],
        previous: &'a mut [u32],
        stamp: &'a mut [u32],
        slots: u32,
    ) -> Ring<'a>
        ensures sound { Fine result }
        ensures closed { is_open_of result ≡ false }
        ensures linked { LinkedRing result }
        ensures begun { Long slots next.old previous.old stamp.old → Begun slots next.old previous.old stamp.old result }
        ensures refused { (Long slots next.old previous.old stamp.old → ⊥) → Refused next.old previous.old stamp.old result }
    {
        let n = slots as usize;
        let fits = n <= next.len() && n <= previous.len() && n <= stamp.len();
        Ring::begin(next, previous, stamp, if fits { slots } else { 0 }, 2)
    }

    // A ring of free slots that begins in a given epoch.
    pub(crate) fn begin(
        next: &'a mut [u32],
        previous: &'a mut [u32],
        stamp: &'a mut [u32],
        slots: u32,
        epoch: u32,
    ) -> Ring<'a>
        requires tables { Long slots next.old previous.old stamp.old }
        requires started { 0 < epoch }
        requires room { epoch + 1 < 2 ^ 32 }
        ensures sound { Fine result }
        ensures closed { is_open_of result ≡ false }
        ensures linked { LinkedRing result }
        ensures begun { Begun slots next.old previous.old stamp.old result }
    {
        set_each(next, slots, |i, _| if i + 1 == slots { 0 } else { i + 1 });
        set_each(
            previous,
            slots,
            |i, _| if i == 0 { slots - 1 } else { i - 1 },
        );
        set_each(stamp, slots, |_, _| 0);
        Ring {
            next,
            previous,
            stamp,
            slots,
            head: 0,
            grey: 0,
            black: 0,
            epoch,
            cycle_open: false,
        }
    }
}

impl Ring<'_> {
    // The number of slots.
    pub fn slot_count(&self) -> u32
        ensures { result ≡ slots_of self.now }
    {
        self.slots
    }

    // Whether a cycle is open.
    pub fn is_open(&self) -> bool
        ensures { result ≡ is_open_of self.now }
    {
        self.cycle_open
    }

    // The colour of a slot, by its stamp. That x is a slot, here and in `linked_next`, depends on the ring, so no type of x can
    // say it.
    fn stamped_colour(&self, x: u32) -> Colour
        requires slot { x < slots_of self.now }
        ensures stamp { result ≡ stamp_colour (is_open_of self.now) self.now.epoch (slice_index self.now.stamp x) }
        ensures value { Some result ≡ colour_in x (arcs_of self.now) }
        ensures one { OneArc (slots_of self.now) x (arcs_of self.now) (Some result) }
    {
        Colour::of_stamp(self.stamp[x as usize], self.epoch, self.cycle_open)
    }

    // The colour of a slot; a number that is no slot has none. An `if`, as in `next_slot`: with `then(|| ..)` the promise of
    // the method that the closure calls is lost.
    pub fn colour(&self, q: u32) -> Option<Colour>
        ensures sound { Fine self.now }
        ensures value { result ≡ colour_in q (arcs_of self.now) }
        ensures one { OneArc (slots_of self.now) q (arcs_of self.now) result }
    {
        if q < self.slots {
            Some(self.stamped_colour(q))
        } else {
            None
        }
    }

    // Whether a slot is grey or black.
    pub fn is_marked(&self, q: u32) -> bool
        ensures { result ≡ marked (arcs_of self.now) q }
    {
        matches!(self.colour(q), Some(Colour::Grey | Colour::Black))
    }

    // Whether a slot is white.
    fn is_white(&self, q: u32) -> bool
        ensures sound { Fine self.now }
        ensures value { result ≡ has q (arcs_of self.now).white }
    {
        self.colour(q) == Some(Colour::White)
    }

    // The slot after a slot, by its link.
    fn linked_next(&self, q: u32) -> u32
        requires slot { q < slots_of self.now }
        ensures { Some result ≡ next_around q (arcs_of self.now) }
    {
        self.next[q as usize]
    }

    // The slot after q along the ring; a number that is no slot has none.
    pub fn next_slot(&self, q: u32) -> Option<u32>
        ensures { result ≡ next_around q (arcs_of self.now) }
    {
        if q < self.slots {
            Some(self.linked_next(q))
        } else {
            None
        }
    }

    // The first free slot, which is the next to be taken.
    pub fn first_free(&self) -> Option<u32>
        ensures sound { Fine self.now }
        ensures value { result ≡ first_of (arcs_of self.now).free }
        ensures taken { result ≡ taken_slot (arcs_of self.now) }
    {
        let h = self.head;
        (self.colour(h)? == Colour::Free).then_some(h)
    }

    // The last grey slot, which is the next to be scanned.
    fn last_grey(&self) -> Option<u32>
        ensures sound { Fine self.now }
        ensures value { result ≡ scanned_slot (arcs_of self.now) }
        ensures some { is_some result ≡ not (is_none (arcs_of self.now).grey) }
    {
        let x = *self.previous.get(self.black as usize)?;
        (self.colour(x)? == Colour::Grey).then_some(x)
    }

    // Whether a slot is grey.
    pub fn has_grey(&self) -> bool
        ensures { result ≡ not (is_none (arcs_of self.now).grey) }
    {
        self.last_grey().is_some()
    }

    // The length of each arc, counted along the ring.
    pub fn lengths(&self) -> Lengths
        ensures value { result ≡ lengths_of (arcs_of self.now) }
        ensures sum { result.free + result.white + result.grey + result.black ≡ slots_of self.now }
    {
        let mut counted = Lengths::default();
        let mut x = self.head;
        for _ in 0..self.slots {
            counted.add(self.stamped_colour(x));
            x = self.next[x as usize];
        }
        counted
    }
}
