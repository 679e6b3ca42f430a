// The opening and the closing of a cycle.
ghost use Rattle.std.specs.Prelude.{◌≡◌, ◌+◌, ◌^◌, ◌<◌, true, false, not};
ghost use Rattle.ring.specs.Calls.{is_none, opened_arcs, may_close, closed_arcs, still_open};
ghost use Rattle.ring.specs.View.{arcs_of, is_open_of, Fine, Leaves};

use super::Ring;
use crate::tables::set_each;

impl Ring<'_> {
    // Stamps and an epoch that leave room, for the same arcs. No cycle is open, here and in the two steps below: a type for
    // such a ring would be a second one with the same nine fields.
    fn renew(&mut self)
        requires shut { is_open_of self.old ≡ false }
        ensures sound { Fine self.new }
        ensures left { Leaves self.old self.new (arcs_of self.old) false }
        ensures reset { self.new.epoch ≡ 2 }
    {
        let e = self.epoch;
        set_each(self.stamp, self.slots, |_, s| if s == e { 2 } else { 0 });
        self.epoch = 2;
    }

    // Room for one more epoch, for the same arcs.
    fn make_room(&mut self)
        requires shut { is_open_of self.old ≡ false }
        ensures sound { Fine self.new }
        ensures left { Leaves self.old self.new (arcs_of self.old) false }
        ensures room { self.new.epoch + 3 < 2 ^ 32 }
    {
        if self.epoch >= u32::MAX - 3 {
            self.renew();
        }
    }

    // The black arc becomes the white one and a cycle is open.
    fn start_cycle(&mut self)
        requires shut { is_open_of self.old ≡ false }
        ensures sound { Fine self.new }
        ensures left { Leaves self.old self.new (opened_arcs (is_open_of self.old) (arcs_of self.old)) true }
    {
        self.make_room();
        self.epoch += 2;
        self.cycle_open = true;
        self.grey = self.head;
        self.black = self.head;
    }

    // The black arc becomes the white one and a cycle is open; nothing changes while one is open. Says whether one was
    // opened, which is no fault either way, so it is a `bool` as in `close_cycle` and `shade`.
    pub fn open_cycle(&mut self) -> bool
        ensures sound { Fine self.new }
        ensures answer { result ≡ not (is_open_of self.old) }
        ensures left { Leaves self.old self.new (opened_arcs (is_open_of self.old) (arcs_of self.old)) true }
    {
        let opens = !self.cycle_open;
        if opens {
            self.start_cycle();
        }
        opens
    }

    // The white arc joins the end of the free one and the cycle is closed.
    fn end_cycle(&mut self)
        requires live { is_open_of self.old ≡ true }
        requires scanned { not (is_none (arcs_of self.old).grey) ≡ false }
        ensures sound { Fine self.new }
        ensures answer { true ≡ may_close (is_open_of self.old) (arcs_of self.old) }
        ensures left { Leaves self.old self.new (closed_arcs (is_open_of self.old) (arcs_of self.old)) (still_open (is_open_of self.old) (arcs_of self.old)) }
    {
        self.cycle_open = false;
    }

    // The white arc joins the end of the free one and the cycle is closed; nothing changes unless a cycle is open and
    // no slot is grey. Says whether it was closed.
    pub fn close_cycle(&mut self) -> bool
        ensures sound { Fine self.new }
        ensures answer { result ≡ may_close (is_open_of self.old) (arcs_of self.old) }
        ensures left { Leaves self.old self.new (closed_arcs (is_open_of self.old) (arcs_of self.old)) (still_open (is_open_of self.old) (arcs_of self.old)) }
    {
        let closes = self.cycle_open && !self.has_grey();
        if closes {
            self.end_cycle();
        }
        closes
    }
}
