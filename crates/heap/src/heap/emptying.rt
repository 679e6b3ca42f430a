// Emptying the nursery: its reachable records move to the old area.
ghost use Rattle.std.specs.Prelude.{◌≡◌, length};
ghost use Rattle.ring.specs.View.{is_open_of};
ghost use Rattle.rules.specs.Rules.{empty_nursery};

use crate::evacuation::evacuate_all;
use crate::heap::Heap;
use kinds::barrier::Barrier;
use kinds::kind::Kind;

impl<T: Kind, B: Barrier> Heap<'_, T, B> {
    ghost use Rattle.heap.specs.View.{contents, sizes_of_heap, Frame};

    // Empties the nursery: what registers and noted records lead to is copied to slots, and what the copied records lead to;
    // nursery and notes are then empty. Says how many records were copied.
    pub(crate) fn empty_nursery(&mut self) -> u32
        ensures frame { Frame self.old self.new }
        ensures cycle { is_open_of self.new.area.ring ≡ is_open_of self.old.area.ring }
        ensures state { contents T.Kind self.new ≡ (empty_nursery (sizes_of_heap T.Kind self.old) B.Barrier.answers (contents T.Kind self.old)).store }
        ensures copied { result ≡ length (empty_nursery (sizes_of_heap T.Kind self.old) B.Barrier.answers (contents T.Kind self.old)).copied }
    {
        // (Lent as `&mut`, also where `&` would do: of a table lent as `&` the check knows nothing afterwards.)
        let rescan = self.area.is_open() && B::rescans();
        let used = std::mem::take(&mut self.used) as usize;
        let noted = std::mem::take(&mut self.noted) as usize;
        evacuate_all(
            &mut self.nursery[..used],
            &mut self.notes[..noted],
            &mut self.registers[..self.limits.registers as usize],
            &mut self.slots[..self.limits.slots as usize],
            &mut self.forward[..used],
            &mut self.area,
            rescan,
        )
    }
}
