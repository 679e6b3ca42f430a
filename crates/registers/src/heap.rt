// The register table and the sizes of a store of registers alone.
ghost use Rattle.std.specs.Prelude.{◌≡◌, ◌≤◌, length, drop, refl};

use crate::sizes::{Limits, Sizes};
use crate::table::RegisterTable;
use kinds::barrier::Barrier;
use kinds::fault::StoreFault;

// The table is the caller's, since a store takes no memory of its own, and has a place for each register. The limits stand
// beside the status, all 0 where the heap is closed: with a `Result` of them, what is said of the table and of each
// register would have a case more.
#[derive(Drop)]
pub struct Heap<'a, B> {
    registers: &'a mut [u32],
    limits: Limits,
    status: Result<(), StoreFault>,
    barrier: B,
    ghost long: { limits.registers ≤ length registers.now },
}

impl<'a, B: Barrier> Heap<'a, B> {
    ghost use Rattle.registers.specs.State.{opened};
    ghost use Rattle.registers.specs.View.{view};

    // A new heap over a lent table, or a closed one that leaves the table as it is.
    pub(crate) fn open(registers: &'a mut [u32], sizes: Sizes, barrier: B) -> Heap<'a, B>
        ensures state { view result ≡ opened sizes (length registers.old) }
        ensures beyond { drop result.limits.registers result.registers.now ≡ drop result.limits.registers registers.old }
    {
        let asked = Limits::over(sizes, registers.len());
        let limits = asked.unwrap_or_default();
        registers[..limits.registers as usize].fill(0);
        Heap {
            registers,
            limits,
            status: asked.map(|_| ()),
            barrier,
        }
    }
}

impl<B: Barrier> RegisterTable for Heap<'_, B> {
    ghost use Rattle.registers.specs.View.{view, Beyond};

    ghost state = { view };

    ghost status = { λ h. h.status };

    ghost answers = { B.Barrier.answers };

    ghost frame = { Beyond };

    ghost why_is = { λ h. refl };

    ghost frame_still = { λ h. refl };

    fn why(&self) -> Result<(), StoreFault> {
        self.status
    }

    fn register_count(&self) -> u32 {
        self.limits.registers
    }

    fn word_in(&self, i: usize) -> u32 {
        self.registers[i]
    }

    fn put_word(&mut self, i: usize, w: u32) {
        self.registers[i] = w;
    }
}
