// Writing a link of a record: the write barrier, the remembered set, and the link itself.
ghost use Rattle.std.specs.Prelude.{◌≡◌, ◌<◌, true, false, not, ◌&&◌, [], ◌∷◌, ◌++◌, length, is_ok, Ok, Err, if◌then◌else◌, nat_le};
ghost use Rattle.ring.specs.Arcs.{has, marked};
ghost use Rattle.words.specs.Words.{place_of};
ghost use Rattle.heap.specs.Answers.{Within};
ghost use Rattle.kinds.specs.Barriers.{names_overwritten, names_new};
ghost use Rattle.kinds.specs.declared.fault.StoreFault.TheVariants.{NotesFull};
ghost use Rattle.rules.specs.Rules.{with_arcs, with_notes, with_slots, with_link, record_at, put_record, link_at, set_link, is_young, shade_if, barrier_shades, needs_note, write_old};

use crate::heap::Heap;
use kinds::barrier::{Barrier, Shades};
use kinds::fault::StoreFault;
use kinds::kind::Kind;
use words::place::Place;
use words::word::place_of;

// Whether a word leads to a nursery place.
fn is_nursery_word(w: u32) -> bool
    ensures { result ≡ is_young (place_of w) }
{
    matches!(place_of(w), Some(Place::Young(_)))
}

// Whether a barrier's answer names the overwritten word. (Beside `shades_new`: each is a definition of its own in `kinds`; a
// function for both would have a parameter more and no shorter contract.)
fn shades_overwritten(shades: Shades) -> bool
    ensures { result ≡ names_overwritten shades }
{
    matches!(shades, Shades::Overwritten | Shades::Both)
}

// Whether a barrier's answer names the new word.
fn shades_new(shades: Shades) -> bool
    ensures { result ≡ names_new shades }
{
    matches!(shades, Shades::New | Shades::Both)
}

impl<T: Kind, B: Barrier> Heap<'_, T, B> {
    ghost use Rattle.heap.specs.View.{contents, Frame};

    // Shades what the barrier names at a write into slot q, the overwritten word first.
    fn barrier_shades(&mut self, q: u32, overwritten: u32, new: u32)
        ensures frame { Frame self.old self.new }
        ensures noted { self.new.noted ≡ self.old.noted }
        ensures left { contents T.Kind self.new ≡ with_arcs (barrier_shades B.Barrier.answers (marked (contents T.Kind self.old).arcs q) overwritten new (contents T.Kind self.old).arcs) (contents T.Kind self.old) }
    {
        let shades = B::shades(self.area.is_marked(q));
        if shades_overwritten(shades) {
            self.area.shade_word(overwritten);
        }
        if shades_new(shades) {
            self.area.shade_word(new);
        }
    }

    // The barrier, which is consulted while a cycle is open, at a write of w into link k of slot q.
    fn consult_barrier(&mut self, q: u32, k: usize, w: u32)
        requires within { q < self.old.limits.slots }
        ensures frame { Frame self.old self.new }
        ensures noted { self.new.noted ≡ self.old.noted }
        ensures left { contents T.Kind self.new ≡ with_arcs (write_old B.Barrier.answers (contents T.Kind self.old) q k w).arcs (contents T.Kind self.old) }
    {
        if self.area.is_open() {
            let overwritten = self.record_at(Place::Old(q)).link(k);
            self.barrier_shades(q, overwritten, w);
        }
    }

    // Whether a write of w into slot q needs a note.
    fn needs_note(&self, q: u32, w: u32) -> bool
        requires within { q < self.now.limits.slots }
        ensures { result ≡ needs_note (contents T.Kind self.now) q w }
    {
        is_nursery_word(w) && !self.is_noted(q)
    }

    // Writes w into link k of the record at a place.
    pub(crate) fn write_link(&mut self, at: Place, k: usize, w: u32)
        requires within { Within self.old.used self.old.limits.slots at }
        ensures frame { Frame self.old self.new }
        ensures left { contents T.Kind self.new ≡ put_record (contents T.Kind self.old) at (with_link (record_at (contents T.Kind self.old) at) k w) }
    {
        match at {
            Place::Young(p) => {
                let nursery = &mut *self.nursery;
                nursery[p as usize].set_link(k, w);
            }
            Place::Old(q) => {
                let slots = &mut *self.slots;
                slots[q as usize].set_link(k, w);
            }
        }
    }

    // Writes w into link k of the record in slot q; refused, with nothing altered, if that needs a note and no row is left.
    pub(crate) fn write_old(&mut self, q: u32, k: usize, w: u32) -> Result<(), StoreFault>
        requires within { q < self.old.limits.slots }
        ensures frame { Frame self.old self.new }
        ensures answer { result ≡ (if needs_note (contents T.Kind self.old) q w && nat_le self.old.limits.slots (length (contents T.Kind self.old).notes) then Err NotesFull else Ok tt) }
        ensures left { contents T.Kind self.new ≡ (if is_ok result then write_old B.Barrier.answers (contents T.Kind self.old) q k w else contents T.Kind self.old) }
    {
        let needed = self.needs_note(q, w);
        if needed && self.noted >= self.limits.slots {
            return Err(StoreFault::NotesFull);
        }
        self.consult_barrier(q, k, w);
        if needed {
            self.note(q);
        }
        self.write_link(Place::Old(q), k, w);
        Ok(())
    }
}
