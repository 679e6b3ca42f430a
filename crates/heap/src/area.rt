// The old area by arcs: the ring of its slots, with the number of occupied and of white slots.
ghost use Rattle.std.specs.Prelude.{◌≡◌, ◌<◌, ◌-◌, ◌^◌, true, length, nat_lt, not};
ghost use Rattle.ring.specs.Arcs.{marked, new_arcs};
ghost use Rattle.ring.specs.Calls.{taken_slot, taken_arcs, scanned_slot, scanned_arcs, opened_arcs, closed_arcs, still_open, lengths_of};
ghost use Rattle.ring.specs.View.{arcs_of, is_open_of, slots_of, Fine, Leaves};
ghost use Rattle.rules.specs.Rules.{shade, shade_all};
ghost use Rattle.heap.specs.Areas.{Counted, freed_number};

use ring::arcs::Lengths;
use ring::ring::Ring;
use words::place::Place;
use words::word::place_of;

// The counts are kept, so that neither a test for room nor a close walks the ring.
#[derive(Drop)]
pub struct Area<'a> {
    ring: Ring<'a>,
    occupied: u32,
    white: u32,
    pub ghost counted: { Counted ring occupied white },
}

impl<'a> Area<'a> {
    // The area of a ring of free slots.
    pub(crate) fn new(ring: Ring<'a>) -> Area<'a>
        requires fine { Fine ring }
        requires few { slots_of ring < 2 ^ 32 }
        requires free { arcs_of ring ≡ new_arcs (slots_of ring) }
        ensures { result.ring ≡ ring.entry }
    {
        Area {
            ring,
            occupied: 0,
            white: 0,
        }
    }
}

impl Area<'_> {
    // Whether a cycle is open.
    pub(crate) fn is_open(&self) -> bool
        ensures { result ≡ is_open_of self.now.ring }
    {
        self.ring.is_open()
    }

    // Whether a slot is grey or black.
    pub(crate) fn is_marked(&self, q: u32) -> bool
        ensures { result ≡ marked (arcs_of self.now.ring) q }
    {
        self.ring.is_marked(q)
    }

    // The lengths of the arcs, counted along the ring.
    pub(crate) fn lengths(&self) -> Lengths
        ensures { result ≡ lengths_of (arcs_of self.now.ring) }
    {
        self.ring.lengths()
    }

    // Whether more slots are free than so many.
    pub(crate) fn has_room(&self, n: u32) -> bool
        ensures { result ≡ nat_lt n (length (arcs_of self.now.ring).free) }
    {
        n < self.ring.slot_count() - self.occupied
    }

    // The first free slot, which is the next to be taken.
    pub(crate) fn first_free(&self) -> Option<u32>
        ensures { result ≡ taken_slot (arcs_of self.now.ring) }
    {
        self.ring.first_free()
    }

    // The first free slot becomes the last black one.
    pub(crate) fn take(&mut self) -> Option<u32>
        ensures answer { result ≡ taken_slot (arcs_of self.old.ring) }
        ensures left { Leaves self.old.ring self.new.ring (taken_arcs (arcs_of self.old.ring)) (is_open_of self.old.ring) }
    {
        let q = self.ring.take()?;
        self.occupied += 1;
        Some(q)
    }

    // The slot that a word leads to becomes the first grey one, if it is white.
    pub(crate) fn shade_word(&mut self, w: u32)
        ensures { Leaves self.old.ring self.new.ring (shade w (arcs_of self.old.ring)) (is_open_of self.old.ring) }
    {
        let Some(Place::Old(q)) = place_of(w) else {
            return;
        };
        if self.ring.shade(q) {
            self.white -= 1;
        }
    }

    // Shades words, in their order.
    pub(crate) fn shade_words(&mut self, words: &[u32])
        ensures { Leaves self.old.ring self.new.ring (shade_all words.now (arcs_of self.old.ring)) (is_open_of self.old.ring) }
    {
        for w in words {
            self.shade_word(*w);
        }
    }

    // The last grey slot becomes the first black one.
    pub(crate) fn scan(&mut self) -> Option<u32>
        ensures answer { result ≡ scanned_slot (arcs_of self.old.ring) }
        ensures left { Leaves self.old.ring self.new.ring (scanned_arcs (arcs_of self.old.ring)) (is_open_of self.old.ring) }
    {
        self.ring.scan()
    }

    // The black arc becomes the white one, and a cycle is open; nothing changes while one is open. Says whether one was opened.
    pub(crate) fn open_cycle(&mut self) -> bool
        ensures answer { result ≡ not (is_open_of self.old.ring) }
        ensures left { Leaves self.old.ring self.new.ring (opened_arcs (is_open_of self.old.ring) (arcs_of self.old.ring)) true }
    {
        let opened = self.ring.open_cycle();
        if opened {
            self.white = self.occupied;
        }
        opened
    }

    // The white arc joins the free one and the cycle is closed; nothing changes unless a cycle is open and no slot is grey.
    // Says how many slots that frees.
    pub(crate) fn close_cycle(&mut self) -> u32
        ensures answer { result ≡ freed_number (is_open_of self.old.ring) (arcs_of self.old.ring) }
        ensures left { Leaves self.old.ring self.new.ring (closed_arcs (is_open_of self.old.ring) (arcs_of self.old.ring)) (still_open (is_open_of self.old.ring) (arcs_of self.old.ring)) }
    {
        if !self.ring.close_cycle() {
            return 0;
        }
        let freed = self.white;
        self.occupied -= freed;
        self.white = 0;
        freed
    }
}
