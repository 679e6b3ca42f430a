// The pair: two links and an empty plain part.
ghost use Rattle.std.specs.Prelude.{[], ◌∷◌};
ghost use Rattle.std.proofs.Common.{rules};

use crate::kind::Kind;

#[derive(Clone, Copy, PartialEq, Eq, Debug)]
pub struct Pair {
    pub head: u32,
    pub tail: u32,
}

impl Kind for Pair {
    ghost count = { 2 };

    ghost links = { λ p. p.head ∷ (p.tail ∷ []) };

    ghost plain = { λ _. [] };

    ghost counted = { Prim.search rules };

    ghost few = { Prim.search rules };

    fn link_count() -> usize {
        2
    }

    fn link(&self, k: usize) -> u32 {
        match k {
            0 => self.head,
            1 => self.tail,
            _ => 0,
        }
    }

    fn set_link(&mut self, k: usize, w: u32) {
        match k {
            0 => self.head = w,
            1 => self.tail = w,
            _ => {}
        }
    }
}
