// The collection cycle: it opens, grey slots are scanned, and it closes.
ghost use Rattle.std.specs.Prelude.{◌≡◌, ◌<◌, ◌≤◌, true, false, take, slice_index_or};
ghost use Rattle.ring.specs.View.{is_open_of};
ghost use Rattle.rules.specs.Rules.{no_record, scan_and_close, scans_made, freed_after};
ghost use Rattle.heap.specs.Scans.{scans_one, scanned_one, scanned_upto, with_open_cycle, finished, scans_finishing, freed_finishing, collected_all, scans_of_all, freed_of_all};

use crate::heap::Heap;
use crate::heap::links::links_of;
use kinds::barrier::Barrier;
use kinds::kind::Kind;

// How many slots left the grey arc, and how many were freed.
#[derive(Clone, Copy, PartialEq, Eq, Debug, Default)]
pub struct Collected {
    pub scanned: u32,
    pub freed: u32,
}

impl<T: Kind, B: Barrier> Heap<'_, T, B> {
    ghost use Rattle.heap.specs.View.{contents, Frame};

    // Opens a cycle unless one is open: every record of the old area is white, and those that registers lead to are shaded.
    pub(crate) fn open_cycle(&mut self)
        ensures frame { Frame self.old self.new }
        ensures opened { is_open_of self.new.area.ring ≡ true }
        ensures left { contents T.Kind self.new ≡ with_open_cycle (contents T.Kind self.old) }
    {
        if self.area.open_cycle() {
            let registers = &mut self.registers[..self.limits.registers as usize];
            self.area.shade_words(registers);
        }
    }

    // The links of the record in slot q, and 0 after them.
    fn links_of(&self, q: u32) -> [u32; 8]
        requires within { q < self.now.limits.slots }
        ensures { take T.Kind.count result ≡ (slice_index_or (contents T.Kind self.now).slots q no_record).links }
    {
        let slots = &*self.slots;
        links_of(&slots[q as usize])
    }

    // Scans the last grey slot, if there is one: it becomes black, and its links are shaded. Says whether there was one.
    fn scan_one(&mut self) -> bool
        ensures frame { Frame self.old self.new }
        ensures cycle { is_open_of self.new.area.ring ≡ is_open_of self.old.area.ring }
        ensures answer { result ≡ scans_one (contents T.Kind self.old) }
        ensures left { contents T.Kind self.new ≡ scanned_one (contents T.Kind self.old) }
    {
        let Some(q) = self.area.scan() else {
            return false;
        };
        let links = self.links_of(q);
        self.area.shade_words(&links[..T::link_count()]);
        true
    }

    // Scans until no slot is grey or `most` were scanned. Says how many were scanned.
    fn scan_upto(&mut self, most: u32) -> u32
        ensures frame { Frame self.old self.new }
        ensures answer { result ≡ scans_made most (contents T.Kind self.old) }
        ensures few { result ≤ most }
        ensures left { contents T.Kind self.new ≡ scanned_upto most (contents T.Kind self.old) }
    {
        for scanned in 0..most {
            if !self.scan_one() {
                return scanned;
            }
        }
        most
    }

    // At most `most` scans of an open cycle, and then the close if no slot is grey.
    pub(crate) fn scan_and_close(&mut self, most: u32) -> Collected
        requires opened { is_open_of self.old.area.ring ≡ true }
        ensures frame { Frame self.old self.new }
        ensures scanned { result.scanned ≡ scans_made most (contents T.Kind self.old) }
        ensures few { result.scanned ≤ most }
        ensures few_freed { result.freed ≤ self.old.limits.slots }
        ensures freed { result.freed ≡ freed_after most (contents T.Kind self.old) }
        ensures left { contents T.Kind self.new ≡ scan_and_close most (contents T.Kind self.old) }
    {
        let scanned = self.scan_upto(most);
        let freed = self.area.close_cycle();
        Collected { scanned, freed }
    }

    // Finishes the cycle if one is open: no more slots can become grey than there are, so none is left, and it closes.
    fn finish_cycle(&mut self) -> Collected
        ensures frame { Frame self.old self.new }
        ensures shut { is_open_of self.new.area.ring ≡ false }
        ensures few_scanned { result.scanned ≤ self.old.limits.slots }
        ensures few_freed { result.freed ≤ self.old.limits.slots }
        ensures scanned { result.scanned ≡ scans_finishing self.old.limits.slots (contents T.Kind self.old) }
        ensures freed { result.freed ≡ freed_finishing self.old.limits.slots (contents T.Kind self.old) }
        ensures left { contents T.Kind self.new ≡ finished self.old.limits.slots (contents T.Kind self.old) }
    {
        if !self.area.is_open() {
            return Collected::default();
        }
        self.scan_and_close(self.limits.slots)
    }

    // Finishes the cycle if one is open, then opens another and finishes it. Says what both did together.
    pub(crate) fn collect_all(&mut self) -> Collected
        ensures frame { Frame self.old self.new }
        ensures shut { is_open_of self.new.area.ring ≡ false }
        ensures scanned { result.scanned ≡ scans_of_all self.old.limits.slots (contents T.Kind self.old) }
        ensures freed { result.freed ≡ freed_of_all self.old.limits.slots (contents T.Kind self.old) }
        ensures left { contents T.Kind self.new ≡ collected_all self.old.limits.slots (contents T.Kind self.old) }
    {
        let first = self.finish_cycle();
        self.open_cycle();
        let second = self.finish_cycle();
        Collected {
            scanned: first.scanned + second.scanned,
            freed: first.freed + second.freed,
        }
    }
}
