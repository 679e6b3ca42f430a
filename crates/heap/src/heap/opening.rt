// Opening: a heap over lent tables, open or closed.
ghost use Rattle.std.specs.Prelude.{◌≡◌, ◌≤◌, true};
ghost use Rattle.heap.specs.Opening.{tables_long};
ghost use Rattle.registers.specs.Answers.{told_why};
ghost use Rattle.registers.specs.State.{sizes_in};
ghost use Rattle.heap.specs.State.{opened, state_over};

use crate::area::Area;
use crate::heap::Heap;
use crate::heap::tables::Tables;
use crate::sizes::{Limits, Sizes};
use kinds::barrier::Barrier;
use kinds::fault::StoreFault;
use kinds::kind::Kind;
use ring::ring::Ring;

impl<'a, T: Kind, B: Barrier> Heap<'a, T, B> {
    ghost use Rattle.heap.specs.Lent.{Lent};
    ghost use Rattle.heap.specs.View.{view};

    // A heap with empty registers, an empty nursery and free slots, over tables that are long enough.
    fn over(
        tables: Tables<'a, T>,
        limits: Limits,
        status: Result<(), StoreFault>,
        barrier: B,
    ) -> Heap<'a, T, B>
        requires long { tables_long limits.slots limits.places limits.registers tables ≡ true }
        requires slots { limits.slots ≤ 16384 }
        requires places { limits.places ≤ 1024 }
        ensures state { view T.Kind result ≡ state_over T.Kind (told_why status) (sizes_in T.Kind.count limits) tables.entry }
        ensures lent { Lent tables.entry result }
        ensures barrier { result.barrier ≡ barrier }
    {
        let Tables {
            nursery,
            slots,
            registers,
            forward,
            notes,
            next,
            previous,
            stamp,
        } = tables;
        registers[..limits.registers as usize].fill(0);
        Heap {
            nursery,
            slots,
            registers,
            forward,
            notes,
            area: Area::new(Ring::new(next, previous, stamp, limits.slots)),
            limits,
            used: 0,
            noted: 0,
            status,
            barrier,
        }
    }

    // A new heap over lent tables; with a size out of range or a short table it is closed, with sizes of 0, and the tables
    // are left as they are.
    pub fn open(tables: Tables<'a, T>, sizes: Sizes, barrier: B) -> Heap<'a, T, B>
        ensures state { view T.Kind result ≡ opened T.Kind sizes tables.entry }
        ensures lent { Lent tables.entry result }
        ensures barrier { result.barrier ≡ barrier }
    {
        let asked = tables.limits_for(sizes);
        let limits = asked.unwrap_or_default();
        let status = asked.map(|_| ());
        Heap::over(tables, limits, status, barrier)
    }
}
