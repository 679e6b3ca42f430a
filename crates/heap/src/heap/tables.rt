// The tables that a caller lends to a store.
ghost use Rattle.std.specs.Prelude.{◌≡◌, true, None, replicate};
ghost use Rattle.heap.specs.Opening.{tables_long, limits_over};

use crate::rows::{Forward, Note};
use crate::sizes::{Limits, Sizes};
use kinds::fault::StoreFault;
use kinds::kind::Kind;

// Two areas of records, the registers, the forwarding and the note table, and the three tables of the ring. (Each table by
// itself, as the rules have them handed in: the caller owns the memory.)
#[derive(Drop)]
pub struct Tables<'a, T: Kind> {
    pub nursery: &'a mut [T],
    pub slots: &'a mut [T],
    pub registers: &'a mut [u32],
    pub forward: &'a mut [Forward],
    pub notes: &'a mut [Note],
    pub next: &'a mut [u32],
    pub previous: &'a mut [u32],
    pub stamp: &'a mut [u32],
}

// The memory of a store's tables: for so many slots, nursery places and registers.
#[derive(Drop)]
pub struct Memory<T: Kind, const SLOTS: usize, const PLACES: usize, const REGISTERS: usize> {
    nursery: [T; PLACES],
    slots: [T; SLOTS],
    registers: [u32; REGISTERS],
    forward: [Forward; PLACES],
    notes: [Note; SLOTS],
    next: [u32; SLOTS],
    previous: [u32; SLOTS],
    stamp: [u32; SLOTS],
}

impl<T: Kind, const SLOTS: usize, const PLACES: usize, const REGISTERS: usize> Memory<
    T,
    SLOTS,
    PLACES,
    REGISTERS,
> {
    // Every record is `blank`, every register and row 0, and nothing is forwarded.
    pub fn new(blank: T) -> Memory<T, SLOTS, PLACES, REGISTERS>
        ensures nursery { result.nursery ≡ replicate PLACES blank }
        ensures slots { result.slots ≡ replicate SLOTS blank }
        ensures registers { result.registers ≡ replicate REGISTERS 0 }
        ensures forward { result.forward ≡ replicate PLACES (record { target = None; copied = 0 }) }
        ensures notes { result.notes ≡ replicate SLOTS (record { slot = 0; index = 0 }) }
        ensures next { result.next ≡ replicate SLOTS 0 }
        ensures previous { result.previous ≡ replicate SLOTS 0 }
        ensures stamp { result.stamp ≡ replicate SLOTS 0 }
    {
        Memory {
            nursery: [blank; PLACES],
            slots: [blank; SLOTS],
            registers: [0; REGISTERS],
            forward: [Forward::default(); PLACES],
            notes: [Note::default(); SLOTS],
            next: [0; SLOTS],
            previous: [0; SLOTS],
            stamp: [0; SLOTS],
        }
    }

    // All tables, each as it stands.
    pub fn lend(&mut self) -> Tables<'_, T>
        ensures nursery { result.nursery.now ≡ self.old.nursery }
        ensures slots { result.slots.now ≡ self.old.slots }
        ensures registers { result.registers.now ≡ self.old.registers }
        ensures forward { result.forward.now ≡ self.old.forward }
        ensures notes { result.notes.now ≡ self.old.notes }
        ensures next { result.next.now ≡ self.old.next }
        ensures previous { result.previous.now ≡ self.old.previous }
        ensures stamp { result.stamp.now ≡ self.old.stamp }
        ensures long { tables_long SLOTS PLACES REGISTERS result ≡ true }
    {
        Tables {
            nursery: &mut self.nursery,
            slots: &mut self.slots,
            registers: &mut self.registers,
            forward: &mut self.forward,
            notes: &mut self.notes,
            next: &mut self.next,
            previous: &mut self.previous,
            stamp: &mut self.stamp,
        }
    }
}

impl<T: Kind> Tables<'_, T> {
    // Whether each table has as many places as the sizes ask for.
    fn are_long(&self, limits: Limits) -> bool
        ensures { result ≡ tables_long limits.slots limits.places limits.registers self.now }
    {
        let slots = limits.slots as usize;
        let places = limits.places as usize;
        let registers = limits.registers as usize;
        places <= self.nursery.len()
            && slots <= self.slots.len()
            && registers <= self.registers.len()
            && places <= self.forward.len()
            && slots <= self.notes.len()
            && slots <= self.next.len()
            && slots <= self.previous.len()
            && slots <= self.stamp.len()
    }

    // The limits of a store of these sizes, if they are in range and each table is long enough.
    pub(crate) fn limits_for(&self, sizes: Sizes) -> Result<Limits, StoreFault>
        ensures { result ≡ limits_over sizes self.now }
    {
        let limits = Limits::try_from(sizes)?;
        if !self.are_long(limits) {
            return Err(StoreFault::TableShort);
        }
        Ok(limits)
    }
}
