// The call that writes a link of a record.
ghost use Rattle.std.specs.Prelude.{◌≡◌, ◌<◌};
ghost use Rattle.words.specs.declared.place.Place.TheVariants.{Young, Old};
ghost use Rattle.rules.specs.Rules.{write, do_write};
ghost use Rattle.registers.specs.Answers.{told_done};
ghost use Rattle.heap.specs.Answers.{Within};
ghost use Rattle.registers.specs.State.{after, answer, with_store};

use crate::heap::Heap;
use kinds::barrier::Barrier;
use kinds::fault::StoreFault;
use kinds::kind::Kind;
use registers::table::RegisterTable;
use words::place::Place;

impl<T: Kind, B: Barrier> Heap<'_, T, B> {
    ghost use Rattle.heap.specs.View.{view, Frame};

    // Writes w into link k of the record at a place.
    fn write_at(&mut self, at: Place, k: usize, w: u32) -> Result<(), StoreFault>
        requires within { Within self.old.used self.old.limits.slots at }
        ensures state { view T.Kind self.new ≡ with_store (view T.Kind self.old) (do_write (view T.Kind self.old).sizes B.Barrier.answers (view T.Kind self.old).store k w at).0 }
        ensures told { told_done result ≡ (do_write (view T.Kind self.old).sizes B.Barrier.answers (view T.Kind self.old).store k w at).1 }
        ensures frame { Frame self.old self.new }
    {
        match at {
            Place::Young(_) => {
                self.write_link(at, k, w);
                Ok(())
            }
            Place::Old(q) => self.write_old(q, k, w),
        }
    }

    // Puts the word of register t into link k of the record in register s.
    pub fn write(&mut self, s: i64, k: i64, t: i64) -> Result<(), StoreFault>
        ensures state { view T.Kind self.new ≡ after B.Barrier.answers (view T.Kind self.old) (write s k t) }
        ensures told { told_done result ≡ answer B.Barrier.answers (view T.Kind self.old) (write s k t) }
        ensures frame { Frame self.old self.new }
    {
        let i = self.open_register(t)?;
        let (at, n) = self.link_place(s, k)?;
        let w = self.word_in(i);
        self.write_at(at, n, w)
    }
}
