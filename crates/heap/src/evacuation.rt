// Evacuation: the nursery is emptied. A record of it that a word leads to is copied to a slot of the old area, once, and the
// word is replaced by that of the slot.
ghost use Rattle.std.specs.Prelude.{◌≡◌, ℕ, ◌+◌, ◌<◌, ◌≤◌, List, length, map, Some, None, MatchOption, slice_index_or};
ghost use Rattle.ring.specs.Arcs.{take_slot};
ghost use Rattle.ring.specs.View.{arcs_of, slots_of, Beyond};
ghost use Rattle.rules.specs.Rules.{Evacuation as Emptying, evacuate_into, evacuate_to, evacuated, link_at, visit_links, visit_link, visit_registers, visit_noted, visit_copied};
ghost use Rattle.heap.specs.Evacuating.{SlotsBelow, Underway, shade_visited, store_over, visited};
ghost use Rattle.heap.specs.Rows.{no_forward};

use crate::area::Area;
use crate::rows::{Forward, Note};
use kinds::kind::Kind;
use words::place::Place;
use words::word::{place_of, slot_word};

// The used places of the nursery, a forwarding row for each, the slots, and how many records were copied, which is how many rows
// have a slot in their queue.
#[derive(Drop)]
pub struct Evacuation<'e, 'a, T> {
    nursery: &'e [T],
    slots: &'e mut [T],
    forward: &'e mut [Forward],
    area: &'e mut Area<'a>,
    copied: u32,
    ghost underway: { Underway (length nursery.now) (length slots.now) forward.now area.now.ring copied },
}

// The used nursery place that a word leads to, if it leads to one of the first n.
fn used_place(w: u32, n: usize) -> Option<u32>
    ensures { MatchOption result ((c : Emptying) → length c.forward ≡ n → evacuated w c ≡ (w, c)) (λ p. (p < n) × ((c : Emptying) → length c.forward ≡ n → evacuated w c ≡ evacuate_to p (slice_index_or c.forward p None) c)) }
{
    match place_of(w) {
        Some(Place::Young(p)) if (p as usize) < n => Some(p),
        _ => None,
    }
}

// Copies to slots what the registers and the records of noted slots lead to, and what the copied records lead to. Says how many
// records were copied. (A function of
// its own with a parameter for each table: that a method of `Heap` lends parts of it to a struct is not covered by the check.)
pub(crate) fn evacuate_all<'e, 'a, T: Kind>(
    nursery: &'e [T],
    notes: &[Note],
    registers: &mut [u32],
    slots: &'e mut [T],
    forward: &'e mut [Forward],
    area: &'e mut Area<'a>,
    rescan: bool,
) -> u32
    requires rows { length forward.old ≡ length nursery.now }
    requires ring_size { slots_of area.old.ring ≡ length slots.old }
    requires few_slots { length slots.old ≤ 16384 }
    requires few_places { length nursery.now ≤ 1024 }
    requires noted { SlotsBelow (length slots.old) notes.now }
    requires room { length nursery.now ≤ length (arcs_of area.old.ring).free }
    ensures registers_long { length registers.new ≡ length registers.old }
    ensures slots_long { length slots.new ≡ length slots.old }
    ensures forward_long { length forward.new ≡ length forward.old }
    ensures ring_size { slots_of area.new.ring ≡ slots_of area.old.ring }
    ensures beyond { Beyond area.old.ring area.new.ring }
    ensures state { store_over T.Kind registers.new nursery.now slots.new (map (λ n. n.slot) notes.now) area.new.ring ≡ (visited rescan T.Kind.count (store_over T.Kind registers.old nursery.now slots.old (map (λ n. n.slot) notes.now) area.old.ring)).store }
    ensures copied { result ≡ length (visited rescan T.Kind.count (store_over T.Kind registers.old nursery.now slots.old (map (λ n. n.slot) notes.now) area.old.ring)).copied }
{
    forward.fill(Forward::default());
    let mut evacuation = Evacuation {
        nursery,
        slots,
        forward,
        area,
        copied: 0,
    };
    evacuation.visit_registers(registers, rescan);
    evacuation.visit_noted(notes);
    evacuation.visit_copied(rescan);
    evacuation.copied
}

impl<T: Kind> Evacuation<'_, '_, T> {
    ghost use Rattle.heap.specs.Emptying.{emptying, Stage};

    // Copies the record of nursery place p to the first free slot; the word of that slot. (The slot is taken last, so that what
    // always holds of an evacuation holds after each line. There always is a free slot; the rules say what is left without one.)
    fn copy_record(&mut self, p: u32) -> u32
        requires used { p < length self.old.nursery.now }
        requires unmoved { (slice_index_or self.old.forward.now p no_forward).target ≡ None }
        ensures stage { Stage self.old self.new }
        ensures state { (rs ns : List ℕ) → emptying T.Kind rs ns self.new ≡ (evacuate_into p (take_slot (arcs_of self.old.area.now.ring)) (emptying T.Kind rs ns self.old)).1 }
        ensures word { (rs ns : List ℕ) → result ≡ (evacuate_into p (take_slot (arcs_of self.old.area.now.ring)) (emptying T.Kind rs ns self.old)).0 }
    {
        let Some(q) = self.area.first_free() else {
            return 0;
        };
        let record = self.nursery[p as usize];
        self.slots[q as usize] = record;
        self.forward[p as usize].target = Some(q);
        self.forward[self.copied as usize].copied = q;
        self.copied += 1;
        let _ = self.area.take();
        slot_word(q).unwrap()
    }

    // The word that takes the place of w: that of the slot of the record, if w is a used nursery place, else w itself.
    fn evacuate(&mut self, w: u32) -> u32
        ensures stage { Stage self.old self.new }
        ensures state { (rs ns : List ℕ) → emptying T.Kind rs ns self.new ≡ (evacuated w (emptying T.Kind rs ns self.old)).1 }
        ensures word { (rs ns : List ℕ) → result ≡ (evacuated w (emptying T.Kind rs ns self.old)).0 }
    {
        let Some(p) = used_place(w, self.nursery.len()) else {
            return w;
        };
        match self.forward[p as usize].target {
            Some(q) => slot_word(q).unwrap(),
            None => self.copy_record(p),
        }
    }

    // Visits a word: the word that takes its place, which is shaded too if the visit rescans. (An argument, as in all that visits, and as in
    // the rules: noted records are visited without it, whatever the barrier says. A closure in its place would be called with the
    // whole evacuation, and what it has to keep is all that this function ensures.)
    fn visit(&mut self, w: u32, rescan: bool) -> u32
        ensures stage { Stage self.old self.new }
        ensures state { (rs ns : List ℕ) → emptying T.Kind rs ns self.new ≡ shade_visited rescan result (evacuated w (emptying T.Kind rs ns self.old)).1 }
        ensures word { (rs ns : List ℕ) → result ≡ (evacuated w (emptying T.Kind rs ns self.old)).0 }
    {
        let v = self.evacuate(w);
        if rescan {
            self.area.shade_word(v);
        }
        v
    }

    // Visits the registers, ascending: each word is replaced by that of the evacuated record.
    fn visit_registers(&mut self, registers: &mut [u32], rescan: bool)
        ensures stage { Stage self.old self.new }
        ensures long { length registers.new ≡ length registers.old }
        ensures state { (ns : List ℕ) → emptying T.Kind registers.new ns self.new ≡ visit_registers rescan 0 (length registers.old) (emptying T.Kind registers.old ns self.old) }
    {
        for word in registers.iter_mut() {
            *word = self.visit(*word, rescan);
        }
    }

    // Link k of slot q.
    fn link_of(&self, q: u32, k: usize) -> u32
        requires { q < length self.now.slots.now }
        ensures { (rs ns : List ℕ) → result ≡ link_at (emptying T.Kind rs ns self.now).store.slots q k }
    {
        let slots = &*self.slots;
        slots[q as usize].link(k)
    }

    // Visits link k of slot q: its word is replaced by that of the evacuated record.
    fn visit_link(&mut self, q: u32, k: usize, rescan: bool)
        requires within { q < length self.old.slots.now }
        ensures stage { Stage self.old self.new }
        ensures state { (rs ns : List ℕ) → emptying T.Kind rs ns self.new ≡ visit_link rescan q k (emptying T.Kind rs ns self.old) }
    {
        let w = self.link_of(q, k);
        let v = self.visit(w, rescan);
        let slots = &mut *self.slots;
        slots[q as usize].set_link(k, v);
    }

    // Visits the links of slot q, ascending. (By index: a visit takes the whole evacuation, so that no link can be lent to the loop.)
    fn visit_links(&mut self, q: u32, rescan: bool)
        requires within { q < length self.old.slots.now }
        ensures stage { Stage self.old self.new }
        ensures state { (rs ns : List ℕ) → emptying T.Kind rs ns self.new ≡ visit_links rescan q 0 T.Kind.count (emptying T.Kind rs ns self.old) }
    {
        for k in 0..T::link_count() {
            self.visit_link(q, k, rescan);
        }
    }

    // Visits the links of the noted records, in order of noting.
    fn visit_noted(&mut self, notes: &[Note])
        requires { SlotsBelow (length self.old.slots.now) notes.now }
        ensures stage { Stage self.old self.new }
        ensures state { (rs ns : List ℕ) → emptying T.Kind rs ns self.new ≡ visit_noted T.Kind.count (map (λ n. n.slot) notes.now) (emptying T.Kind rs ns self.old) }
    {
        for note in notes {
            self.visit_links(note.slot, false);
        }
    }

    // Visits the links of the copied records, in order of copying; more may be copied on the way, so the end is read again
    // each time.
    fn visit_copied(&mut self, rescan: bool)
        ensures stage { Stage self.old self.new }
        ensures state { (rs ns : List ℕ) → emptying T.Kind rs ns self.new ≡ visit_copied rescan T.Kind.count 0 (length self.old.nursery.now) (emptying T.Kind rs ns self.old) }
    {
        let mut i = 0;
        while i < self.copied {
            let q = self.forward[i as usize].copied;
            self.visit_links(q, rescan);
            i += 1;
        }
    }
}
