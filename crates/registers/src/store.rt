// The store: a heap of registers alone, and its calls, which refuse what is out of range.
ghost use Rattle.std.specs.Prelude.{◌≡◌, true, length, drop, IfOk};
ghost use Rattle.rules.specs.Rules.{load, empty, copy, same, look};
ghost use Rattle.registers.specs.Answers.{seen_in_range, told_done, told_flag, told_seen, told_why};
ghost use Rattle.registers.specs.State.{after, answer, opened};
ghost use Rattle.registers.specs.View.{view, Beyond};

use crate::heap::Heap;
use crate::seen::Seen;
use crate::sizes::Sizes;
use crate::table::RegisterTable;
use kinds::barrier::Barrier;
use kinds::fault::StoreFault;

#[derive(Drop)]
pub struct Store<'a, B: Barrier> {
    heap: Heap<'a, B>,
}

impl<'a, B: Barrier> Store<'a, B> {
    // A new store over a lent register table. With a size out of range or a short table it is closed, and the table is untouched.
    pub fn open(registers: &'a mut [u32], sizes: Sizes, barrier: B) -> Store<'a, B>
        ensures state { view result.heap ≡ opened sizes (length registers.old) }
        ensures beyond { drop result.heap.limits.registers result.heap.registers.now ≡ drop result.heap.limits.registers registers.old }
    {
        let heap = Heap::open(registers, sizes, barrier);
        Store { heap }
    }
}

// Each call is one line over the heap. A store does not have the trait `RegisterTable`, since `put_word` takes any word.
impl<B: Barrier> Store<'_, B> {
    // Why the store is closed: 1 or 2 as a fault, or 0 as done where it is open.
    pub fn why(&self) -> Result<(), StoreFault>
        ensures { told_why result ≡ (view self.now.heap).why }
    {
        self.heap.why()
    }

    // Puts the number v into register r.
    pub fn load(&mut self, r: i64, v: i64) -> Result<(), StoreFault>
        ensures state { view self.new.heap ≡ after B.Barrier.answers (view self.old.heap) (load r v) }
        ensures told { told_done result ≡ answer B.Barrier.answers (view self.old.heap) (load r v) }
        ensures beyond { Beyond self.old.heap self.new.heap }
    {
        self.heap.load(r, v)
    }

    // Puts nothing into register r.
    pub fn empty(&mut self, r: i64) -> Result<(), StoreFault>
        ensures state { view self.new.heap ≡ after B.Barrier.answers (view self.old.heap) (empty r) }
        ensures told { told_done result ≡ answer B.Barrier.answers (view self.old.heap) (empty r) }
        ensures beyond { Beyond self.old.heap self.new.heap }
    {
        self.heap.empty(r)
    }

    // Puts what register s holds into register d.
    pub fn copy(&mut self, d: i64, s: i64) -> Result<(), StoreFault>
        ensures state { view self.new.heap ≡ after B.Barrier.answers (view self.old.heap) (copy d s) }
        ensures told { told_done result ≡ answer B.Barrier.answers (view self.old.heap) (copy d s) }
        ensures beyond { Beyond self.old.heap self.new.heap }
    {
        self.heap.copy(d, s)
    }

    // Whether two registers hold the same word; alters nothing.
    pub fn same(&mut self, a: i64, b: i64) -> Result<bool, StoreFault>
        ensures state { view self.new.heap ≡ view self.old.heap }
        ensures rule { view self.new.heap ≡ after B.Barrier.answers (view self.old.heap) (same a b) }
        ensures told { told_flag result ≡ answer B.Barrier.answers (view self.old.heap) (same a b) }
        ensures beyond { Beyond self.old.heap self.new.heap }
    {
        self.heap.same(a, b)
    }

    // What register r holds: nothing, a number or a record; alters nothing.
    pub fn look(&mut self, r: i64) -> Result<Seen, StoreFault>
        ensures state { view self.new.heap ≡ view self.old.heap }
        ensures rule { view self.new.heap ≡ after B.Barrier.answers (view self.old.heap) (look r) }
        ensures told { told_seen result ≡ answer B.Barrier.answers (view self.old.heap) (look r) }
        ensures range { IfOk result (λ s. seen_in_range s ≡ true) }
        ensures beyond { Beyond self.old.heap self.new.heap }
    {
        self.heap.look(r)
    }
}
