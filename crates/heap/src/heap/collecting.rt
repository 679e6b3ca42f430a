// The calls that collect: the nursery is emptied, and the cycle goes on by a limited number of scans, or all is collected.
ghost use Rattle.std.specs.Prelude.{◌≡◌, ◌≤◌, false, IfOk, OnOk};
ghost use Rattle.ring.specs.View.{is_open_of};
ghost use Rattle.rules.specs.Rules.{step, full};
ghost use Rattle.heap.specs.Collecting.{told_step};
ghost use Rattle.registers.specs.State.{after, answer};

use crate::heap::Heap;
use crate::heap::cycle::Collected;
use crate::stepped::Stepped;
use kinds::barrier::Barrier;
use kinds::fault::StoreFault;
use kinds::kind::Kind;
use registers::table::RegisterTable;

impl<T: Kind, B: Barrier> Heap<'_, T, B> {
    ghost use Rattle.heap.specs.View.{view, Frame};

    // A step: the nursery is emptied, a cycle opens if none is open, slots are scanned, and it closes if none is grey.
    pub fn step(&mut self) -> Result<Stepped, StoreFault>
        ensures state { view T.Kind self.new ≡ after B.Barrier.answers (view T.Kind self.old) step }
        ensures told { told_step result ≡ answer B.Barrier.answers (view T.Kind self.old) step }
        ensures few { IfOk result (λ r. r.scanned ≤ self.old.limits.scans) }
        ensures frame { Frame self.old self.new }
    {
        self.ready()?;
        let copied = self.empty_nursery();
        self.open_cycle();
        let Collected { scanned, freed } = self.scan_and_close(self.limits.scans);
        Ok(Stepped {
            copied,
            scanned,
            freed,
            cycle_open: self.area.is_open(),
        })
    }

    // A full collection: the nursery is emptied, an open cycle is finished, and then another is opened and finished.
    pub fn full(&mut self) -> Result<Stepped, StoreFault>
        ensures state { view T.Kind self.new ≡ after B.Barrier.answers (view T.Kind self.old) full }
        ensures told { told_step result ≡ answer B.Barrier.answers (view T.Kind self.old) full }
        ensures shut { OnOk result (is_open_of self.new.area.ring ≡ false) }
        ensures frame { Frame self.old self.new }
    {
        self.ready()?;
        let moved = self.empty_nursery();
        let Collected { scanned, freed } = self.collect_all();
        Ok(Stepped {
            copied: moved,
            scanned,
            freed,
            cycle_open: false,
        })
    }
}
