// The calls that read and fill records, and the count of the arcs.
ghost use Rattle.std.specs.Prelude.{◌≡◌, replicate, MatchResult};
ghost use Rattle.rules.specs.Rules.{read, fill, plain, tell, record_at, put_record, with_plain};
ghost use Rattle.registers.specs.Answers.{told_done};
ghost use Rattle.heap.specs.Answers.{link_index, Within, told_plain, told_lengths};
ghost use Rattle.registers.specs.State.{after, answer, with_store};

use crate::heap::{Heap, links};
use kinds::barrier::Barrier;
use kinds::fault::StoreFault;
use kinds::kind::Kind;
use registers::index::index_below;
use registers::table::RegisterTable;
use ring::arcs::Lengths;
use words::place::Place;

impl<T: Kind, B: Barrier> Heap<'_, T, B> {
    ghost use Rattle.heap.specs.View.{view, Frame};

    // The index of a link.
    pub(crate) fn link_index(&self, k: i64) -> Result<usize, StoreFault>
        ensures { result ≡ link_index T.Kind.count k }
    {
        index_below(k, T::link_count()).ok_or(StoreFault::NoSuchLink)
    }

    // Gives the record at a place the plain part of a template. (By a match: a method that lends the record as `&mut` would have
    // to say what the heap is once the loan ends.)
    fn fill_at(&mut self, at: Place, template: &T)
        requires within { Within self.old.used self.old.limits.slots at }
        ensures state { view T.Kind self.new ≡ with_store (view T.Kind self.old) (put_record (view T.Kind self.old).store at (with_plain (record_at (view T.Kind self.old).store at) (T.Kind.plain template.now))) }
        ensures frame { Frame self.old self.new }
    {
        match at {
            Place::Young(p) => {
                let nursery = &mut *self.nursery;
                links::fill(&mut nursery[p as usize], template);
            }
            Place::Old(q) => {
                let slots = &mut *self.slots;
                links::fill(&mut slots[q as usize], template);
            }
        }
    }

    // Puts link k of the record in register s into register d.
    pub fn read(&mut self, d: i64, s: i64, k: i64) -> Result<(), StoreFault>
        ensures state { view T.Kind self.new ≡ after B.Barrier.answers (view T.Kind self.old) (read d s k) }
        ensures told { told_done result ≡ answer B.Barrier.answers (view T.Kind self.old) (read d s k) }
        ensures frame { Frame self.old self.new }
    {
        let i = self.open_register(d)?;
        let (at, n) = self.link_place(s, k)?;
        let w = self.record_at(at).link(n);
        self.put_word(i, w);
        Ok(())
    }

    // Gives the record in register s the plain part of a template.
    pub fn fill(&mut self, s: i64, template: &T) -> Result<(), StoreFault>
        ensures state { view T.Kind self.new ≡ after B.Barrier.answers (view T.Kind self.old) (fill s (T.Kind.plain template.now)) }
        ensures told { told_done result ≡ answer B.Barrier.answers (view T.Kind self.old) (fill s (T.Kind.plain template.now)) }
        ensures frame { Frame self.old self.new }
    {
        let at = self.record_place(s)?;
        self.fill_at(at, template);
        Ok(())
    }

    // Writes the plain part of the record in register s to a record of the caller, whose links become nothing. A refusal
    // leaves that record as it is. Alters nothing in the store.
    pub fn plain(&mut self, s: i64, out: &mut T) -> Result<(), StoreFault>
        ensures still { view T.Kind self.new ≡ view T.Kind self.old }
        ensures state { view T.Kind self.new ≡ after B.Barrier.answers (view T.Kind self.old) (plain s) }
        ensures told { told_plain (T.Kind.plain out.new) result ≡ answer B.Barrier.answers (view T.Kind self.old) (plain s) }
        ensures links { MatchResult result (λ _. T.Kind.links out.new ≡ replicate T.Kind.count 0) (λ _. out.new ≡ out.old) }
        ensures frame { Frame self.old self.new }
    {
        let at = self.record_place(s)?;
        *out = links::without_links(*self.record_at(at));
        Ok(())
    }

    // The lengths of the free, white, grey and black arc, counted along the ring; alters nothing.
    pub fn tell(&mut self) -> Result<Lengths, StoreFault>
        ensures still { view T.Kind self.new ≡ view T.Kind self.old }
        ensures state { view T.Kind self.new ≡ after B.Barrier.answers (view T.Kind self.old) tell }
        ensures told { told_lengths result ≡ answer B.Barrier.answers (view T.Kind self.old) tell }
        ensures frame { Frame self.old self.new }
    {
        self.ready()?;
        Ok(self.area.lengths())
    }
}
