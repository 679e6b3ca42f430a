// The remembered set: the noted slots in order of noting, in rows that also say where each slot was noted.
ghost use Rattle.std.specs.Prelude.{◌≡◌, ◌<◌, false, [], ◌∷◌, ◌++◌};
ghost use Rattle.ring.specs.Arcs.{has};
ghost use Rattle.rules.specs.Rules.{with_notes};

use crate::heap::Heap;
use kinds::barrier::Barrier;
use kinds::kind::Kind;

impl<T: Kind, B: Barrier> Heap<'_, T, B> {
    ghost use Rattle.heap.specs.View.{contents, Frame};

    // Whether slot q is noted.
    pub(crate) fn is_noted(&self, q: u32) -> bool
        requires within { q < self.now.limits.slots }
        ensures { result ≡ has q (contents T.Kind self.now).notes }
    {
        let i = self.notes[q as usize].index;
        i < self.noted && self.notes[i as usize].slot == q
    }

    // Notes slot q, after the others.
    pub(crate) fn note(&mut self, q: u32)
        requires within { q < self.old.limits.slots }
        requires fresh { has q (contents T.Kind self.old).notes ≡ false }
        requires room { self.old.noted < self.old.limits.slots }
        ensures frame { Frame self.old self.new }
        ensures left { contents T.Kind self.new ≡ with_notes ((contents T.Kind self.old).notes ++ (q ∷ [])) (contents T.Kind self.old) }
    {
        let n = self.noted;
        self.notes[n as usize].slot = q;
        self.notes[q as usize].index = n;
        self.noted = n + 1;
    }
}
