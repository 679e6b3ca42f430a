// The tables and counts of a store, and the calls on them.
ghost use Rattle.std.specs.Prelude.{length};
ghost use Rattle.heap.specs.Keeping.{Kept};

pub mod collecting;
pub mod cycle;
pub mod emptying;
pub mod links;
pub mod making;
pub mod opening;
pub mod places;
pub mod record_calls;
pub mod register_calls;
pub mod remember;
pub mod tables;
pub mod tally;
pub mod write;
pub mod writing;

use crate::area::Area;
use crate::rows::{Forward, Note};
use kinds::fault::StoreFault;
use registers::sizes::Limits;

// `used` nursery places hold records, and `noted` note rows stand. The tables are lent and of a fixed size, since a store takes
// no memory of its own; so their counts stand beside them, and slots, places and rows are u32 numbers in them, with `as usize`
// where one is an index: there is no `From<u32> for usize`. The sizes stand beside the status and not in its `Ok`: a closed heap
// has sizes of 0, so that what holds of an open heap's tables holds of it too. That a slot is below the number of slots, or a
// place within the heap, is asked where a function of the crate needs it: a bound by a field of the heap can't stand in the
// type of a number or a place.
// A record in a table is reached through a variable (`let slots = &mut *self.slots`): a method on an element of a slice in a
// field is not covered by the check.
// `Frame`, which each call that alters a heap ensures, says what it leaves: a relation of two heaps, which no type of one has.
#[derive(Drop)]
pub struct Heap<'a, T, B> {
    nursery: &'a mut [T],
    slots: &'a mut [T],
    registers: &'a mut [u32],
    forward: &'a mut [Forward],
    notes: &'a mut [Note],
    area: Area<'a>,
    limits: Limits,
    used: u32,
    noted: u32,
    status: Result<(), StoreFault>,
    barrier: B,
    pub ghost kept: { Kept limits (length nursery.now) (length slots.now) (length registers.now) (length forward.now) notes.now area.ring used noted },
}
