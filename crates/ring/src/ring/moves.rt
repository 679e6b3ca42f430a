// The steps that move one slot: taking, scanning and shading.
ghost use Rattle.std.specs.Prelude.{◌≡◌, true, Some};
ghost use Rattle.ring.specs.Arcs.{has, shade_slot};
ghost use Rattle.ring.specs.Calls.{taken_slot, taken_arcs, scanned_slot, scanned_arcs};
ghost use Rattle.ring.specs.View.{arcs_of, is_open_of, Fine, Leaves};
ghost use Rattle.ring.specs.Laws.{KeepsOrder};

use super::Ring;
use crate::tables::instead;

impl Ring<'_> {
    // The first free slot h becomes the last black one: the ring begins at the slot after it.
    fn blacken_first(&mut self, h: u32)
        requires first { Some h ≡ taken_slot (arcs_of self.old) }
        ensures sound { Fine self.new }
        ensures left { Leaves self.old self.new (taken_arcs (arcs_of self.old)) (is_open_of self.old) }
    {
        self.stamp[h as usize] = self.epoch;
        self.head = self.next[h as usize];
    }

    // The first free slot becomes the last black one. Of the same shape as `scan`: one function for both would need a
    // parameter for each of their two parts, and its contract would name the definitions of both.
    pub fn take(&mut self) -> Option<u32>
        ensures sound { Fine self.new }
        ensures answer { result ≡ taken_slot (arcs_of self.old) }
        ensures left { Leaves self.old self.new (taken_arcs (arcs_of self.old)) (is_open_of self.old) }
    {
        let h = self.first_free()?;
        self.blacken_first(h);
        Some(h)
    }

    // The last grey slot x becomes the first black one: the black arc begins at it.
    fn blacken_last(&mut self, x: u32)
        requires last { Some x ≡ scanned_slot (arcs_of self.old) }
        ensures sound { Fine self.new }
        ensures left { Leaves self.old self.new (scanned_arcs (arcs_of self.old)) (is_open_of self.old) }
    {
        self.stamp[x as usize] = self.epoch;
        self.black = x;
    }

    // The last grey slot becomes the first black one.
    pub fn scan(&mut self) -> Option<u32>
        ensures sound { Fine self.new }
        ensures answer { result ≡ scanned_slot (arcs_of self.old) }
        ensures left { Leaves self.old self.new (scanned_arcs (arcs_of self.old)) (is_open_of self.old) }
    {
        let x = self.last_grey()?;
        self.blacken_last(x);
        Some(x)
    }

    // The white slot q leaves its spot and becomes the first grey one. The last white slot only moves the start of the
    // grey arc; any other is linked in behind the last white one, whose next slot is read once q is out of the ring.
    fn make_grey(&mut self, q: u32)
        requires white { true ≡ has q (arcs_of self.old).white }
        ensures sound { Fine self.new }
        ensures left { Leaves self.old self.new (shade_slot q (arcs_of self.old)) (is_open_of self.old) }
        ensures order { KeepsOrder q (arcs_of self.old) (arcs_of self.new) }
    {
        let z = self.previous[self.grey as usize];
        if z == q {
            self.stamp[q as usize] = self.epoch + 1;
            self.grey = q;
            return;
        }
        let p = self.previous[q as usize];
        let n = self.next[q as usize];
        self.next[p as usize] = n;
        self.previous[n as usize] = p;
        let y = self.next[z as usize];
        self.next[z as usize] = q;
        self.previous[q as usize] = z;
        self.next[q as usize] = y;
        self.previous[y as usize] = q;
        self.head = instead(self.head, q, n);
        self.black = instead(self.black, q, n);
        self.stamp[q as usize] = self.epoch + 1;
        self.grey = q;
    }

    // The white slot q leaves its spot and becomes the first grey one; any other number is passed over. Says whether a
    // slot moved.
    pub fn shade(&mut self, q: u32) -> bool
        ensures sound { Fine self.new }
        ensures answer { result ≡ has q (arcs_of self.old).white }
        ensures left { Leaves self.old self.new (shade_slot q (arcs_of self.old)) (is_open_of self.old) }
        ensures order { KeepsOrder q (arcs_of self.old) (arcs_of self.new) }
    {
        let moves = self.is_white(q);
        if moves {
            self.make_grey(q);
        }
        moves
    }
}
