// Kinds of records: a list of links, each a 32-bit word, and a plain part.
ghost use Rattle.std.specs.Prelude.{◌≡◌, ℕ, ◌≤◌, List, length, ℤ, slice_index, slice_set};

// A kind is lawful by these contracts and laws: it has at most 8 links, always as many; it gives a link and alters nothing;
// it replaces a link and alters no other link and nothing of the plain part. Past its links it gives 0 and replaces nothing.
pub trait Kind: Copy {
    ghost count: { ℕ };

    ghost links: { Self → List ℕ };

    ghost plain: { Self → List ℤ };

    // The number of links.
    fn link_count() -> usize
        ensures { result ≡ count };

    // Link k, or 0 where there is none.
    fn link(&self, k: usize) -> u32
        ensures { result ≡ slice_index (links self.now) k };

    // Replaces link k by the word w.
    fn set_link(&mut self, k: usize, w: u32)
        ensures linked { links self.new ≡ slice_set (links self.old) k w }
        ensures kept { plain self.new ≡ plain self.old };

    ghost counted: { (x : Self) → length (links x) ≡ count };

    ghost few: { count ≤ 8 };
}
