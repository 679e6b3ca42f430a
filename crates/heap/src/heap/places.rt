// Where the word in a register leads, and the record there.
ghost use Rattle.std.specs.Prelude.{◌≡◌, ◌<◌, length, IfSome, IfOk};
ghost use Rattle.rules.specs.Rules.{place_in, record_at};
ghost use Rattle.heap.specs.Answers.{held_place, open_record_place, link_place, is_within, Within};
ghost use Rattle.heap.specs.Meaning.{meaning_of};

use crate::heap::Heap;
use kinds::barrier::Barrier;
use kinds::fault::StoreFault;
use kinds::kind::Kind;
use registers::table::RegisterTable;
use words::place::Place;
use words::word::place_of;

impl<T: Kind, B: Barrier> Heap<'_, T, B> {
    ghost use Rattle.heap.specs.View.{contents, view};

    // Whether a place is a used one of the nursery or a slot of the store.
    fn is_within(&self, at: Place) -> bool
        ensures { result ≡ is_within self.now.used self.now.limits.slots at }
    {
        match at {
            Place::Young(p) => p < self.used,
            Place::Old(q) => q < self.limits.slots,
        }
    }

    // The record at a place.
    pub(crate) fn record_at(&self, at: Place) -> &T
        requires within { Within self.now.used self.now.limits.slots at }
        ensures { meaning_of T.Kind result.now ≡ record_at (contents T.Kind self.now) at }
    {
        match at {
            Place::Young(p) => {
                let nursery = &*self.nursery;
                &nursery[p as usize]
            }
            Place::Old(q) => {
                let slots = &*self.slots;
                &slots[q as usize]
            }
        }
    }

    // Where a word leads; a word that leads outside the store leads nowhere.
    pub(crate) fn place_in(&self, w: u32) -> Option<Place>
        ensures place { result ≡ place_in (view T.Kind self.now).sizes (length (view T.Kind self.now).store.nursery) w }
        ensures within { IfSome result (Within self.now.used self.now.limits.slots) }
    {
        let at = place_of(w)?;
        self.is_within(at).then_some(at)
    }

    // The place of the record that the register with index i holds.
    pub(crate) fn held_place(&self, i: usize) -> Result<Place, StoreFault>
        requires low { i < self.now.limits.registers }
        ensures place { result ≡ held_place (view T.Kind self.now).sizes (view T.Kind self.now).store i }
        ensures within { IfOk result (Within self.now.used self.now.limits.slots) }
    {
        self.place_in(self.word_in(i)).ok_or(StoreFault::NoRecord)
    }

    // The place of the record that register r of an open store holds.
    pub(crate) fn record_place(&self, r: i64) -> Result<Place, StoreFault>
        ensures place { result ≡ open_record_place self.now.status (view T.Kind self.now).sizes (view T.Kind self.now).store r }
        ensures within { IfOk result (Within self.now.used self.now.limits.slots) }
    {
        let i = self.open_register(r)?;
        self.held_place(i)
    }

    // Link k of the record that register r holds: the record's place and the link's index.
    pub(crate) fn link_place(&self, r: i64, k: i64) -> Result<(Place, usize), StoreFault>
        ensures place { result ≡ link_place (view T.Kind self.now).sizes (view T.Kind self.now).store r k }
        ensures within { IfOk result (λ p. Within self.now.used self.now.limits.slots p.0) }
    {
        let i = self.register(r)?;
        let n = self.link_index(k)?;
        let at = self.held_place(i)?;
        Ok((at, n))
    }
}
