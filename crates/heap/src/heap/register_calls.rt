// The heap's registers, with the calls on them that `RegisterTable` has. (The bodies are as those of the heap of registers alone:
// each gives its own fields.)
ghost use Rattle.std.specs.Prelude.{refl};
ghost use Rattle.std.proofs.Common.{rules};

use crate::heap::Heap;
use kinds::barrier::Barrier;
use kinds::fault::StoreFault;
use kinds::kind::Kind;
use registers::table::RegisterTable;

impl<T: Kind, B: Barrier> RegisterTable for Heap<'_, T, B> {
    ghost use Rattle.heap.specs.View.{view, Frame};

    ghost state = { view T.Kind };

    ghost status = { λ h. h.status };

    ghost answers = { B.Barrier.answers };

    ghost frame = { Frame };

    ghost why_is = { λ h. refl };

    ghost frame_still = { Prim.search rules };

    fn why(&self) -> Result<(), StoreFault> {
        self.status
    }

    fn register_count(&self) -> u32 {
        self.limits.registers
    }

    fn word_in(&self, i: usize) -> u32 {
        self.registers[i]
    }

    fn put_word(&mut self, i: usize, w: u32) {
        self.registers[i] = w;
    }
}
