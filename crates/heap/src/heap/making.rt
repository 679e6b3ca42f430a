// Making records: a record begins in the nursery.
ghost use Rattle.std.specs.Prelude.{◌≡◌, ◌+◌, ◌<◌, true, false, [], ◌∷◌, ◌++◌, length, IfOk, MatchResult};
ghost use Rattle.kinds.specs.declared.fault.StoreFault.TheVariants.{NoSuchRegister};
ghost use Rattle.rules.specs.Rules.{make, all_in, links_from, with_nursery};
ghost use Rattle.heap.specs.Answers.{room_at, told_count};
ghost use Rattle.heap.specs.Meaning.{meaning_of};
ghost use Rattle.ring.specs.View.{arcs_of};
ghost use Rattle.registers.specs.State.{after, answer, with_store};

use crate::heap::Heap;
use kinds::barrier::Barrier;
use kinds::fault::StoreFault;
use kinds::kind::Kind;
use registers::table::RegisterTable;
use words::word::nursery_word;

impl<T: Kind, B: Barrier> Heap<'_, T, B> {
    ghost use Rattle.heap.specs.View.{contents, view, Frame};

    // Refuses where the nursery is full, or where a nursery record more would have no slot.
    fn room(&self) -> Result<(), StoreFault>
        ensures { result ≡ room_at (view T.Kind self.now).sizes (view T.Kind self.now).store }
    {
        if self.used >= self.limits.places {
            return Err(StoreFault::NurseryFull);
        }
        if !self.area.has_room(self.used) {
            return Err(StoreFault::NoRoom);
        }
        Ok(())
    }

    // The template with the words of the given registers as its links, as many as its kind has; refused if one of them is no
    // register.
    fn linked(&self, template: &T, links: &[i64]) -> Result<T, StoreFault>
        ensures register { MatchResult result (λ _. all_in links.now self.now.limits.registers ≡ true) (λ e. (all_in links.now self.now.limits.registers ≡ false) × (e ≡ NoSuchRegister)) }
        ensures links { length links.now ≡ T.Kind.count → IfOk result (λ made. T.Kind.links made ≡ links_from (contents T.Kind self.now) links.now) }
        ensures plain { IfOk result (λ made. T.Kind.plain made ≡ T.Kind.plain template.now) }
    {
        let mut made = *template;
        for (k, r) in links.iter().enumerate() {
            let i = self.register(*r)?;
            made.set_link(k, self.word_in(i));
        }
        Ok(made)
    }

    // Puts a record at the next place of the nursery.
    fn add_record(&mut self, made: T)
        requires place { self.old.used < self.old.limits.places }
        requires slot { self.old.used < length (arcs_of self.old.area.ring).free }
        ensures state { view T.Kind self.new ≡ with_store (view T.Kind self.old) (with_nursery ((view T.Kind self.old).store.nursery ++ (meaning_of T.Kind made ∷ [])) (view T.Kind self.old).store) }
        ensures frame { Frame self.old self.new }
    {
        let p = self.used;
        self.nursery[p as usize] = made;
        self.used = p + 1;
    }

    // Makes a record of a template's plain part and the words of the given registers, and puts it into register d. Says how
    // many records the nursery then has.
    pub fn make(&mut self, d: i64, template: &T, links: &[i64]) -> Result<u32, StoreFault>
        ensures state { view T.Kind self.new ≡ after B.Barrier.answers (view T.Kind self.old) (make d (T.Kind.plain template.now) links.now) }
        ensures told { told_count result ≡ answer B.Barrier.answers (view T.Kind self.old) (make d (T.Kind.plain template.now) links.now) }
        ensures frame { Frame self.old self.new }
    {
        let i = self.open_register(d)?;
        let made = self.linked(template, links)?;
        if links.len() != T::link_count() {
            return Err(StoreFault::WrongLinkCount);
        }
        self.room()?;
        let w = nursery_word(self.used).unwrap();
        self.add_record(made);
        self.put_word(i, w);
        Ok(self.used)
    }
}
