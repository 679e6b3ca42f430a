// Tally: a chain of records is followed along link 0, and its flushes are counted.
ghost use Rattle.std.specs.Prelude.{◌≡◌, ◌≤◌};
ghost use Rattle.rules.specs.Chains.{all_places, follow, tally_answer};
ghost use Rattle.heap.specs.Tallies.{answer_tally, told_tally};

use crate::heap::Heap;
use crate::tally::Tally;
use kinds::barrier::Barrier;
use kinds::fault::StoreFault;
use kinds::weighed::Weighed;
use registers::table::RegisterTable;

impl<T: Weighed, B: Barrier> Heap<'_, T, B> {
    ghost use Rattle.heap.specs.View.{view, Frame};

    // How many places can hold a record: the used ones of the nursery and all slots.
    fn place_count(&self) -> u32
        ensures places { result ≡ all_places (view T.Kind self.now).sizes (view T.Kind self.now).store }
        ensures few { result ≤ 17408 }
    {
        self.used + self.limits.slots
    }

    // Counts the flushes along the chain from a word, up to the first word that is no record. A chain that has an end has no
    // more records than there are places.
    fn tally_from(&self, first: u32) -> Result<Tally, StoreFault>
        ensures { told_tally result ≡ tally_answer (view T.Kind self.now).store (follow (view T.Kind self.now).sizes (view T.Kind self.now).store (all_places (view T.Kind self.now).sizes (view T.Kind self.now).store) first) }
    {
        let most = self.place_count();
        let mut w = first;
        let mut tally = Tally::default();
        for _ in 0..=most {
            let Some(at) = self.place_in(w) else {
                return Ok(tally);
            };
            let one = self.record_at(at);
            tally = tally.with(*one);
            w = one.link(0);
        }
        Err(StoreFault::EndlessChain)
    }

    // Counts the flushes along the chain from register r; alters nothing.
    pub fn tally(&mut self, r: i64) -> Result<Tally, StoreFault>
        ensures still { view T.Kind self.new ≡ view T.Kind self.old }
        ensures told { told_tally result ≡ answer_tally (view T.Kind self.old) r }
        ensures frame { Frame self.old self.new }
    {
        let i = self.open_register(r)?;
        self.tally_from(self.word_in(i))
    }
}
