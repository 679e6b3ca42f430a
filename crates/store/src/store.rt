// The store: a heap, and its calls, which refuse what is out of range.
ghost use Rattle.std.specs.Prelude.{◌≡◌, ◌≤◌, true, false, replicate, IfOk, MatchResult, OnOk};
ghost use Rattle.ring.specs.View.{is_open_of};
ghost use Rattle.rules.specs.Rules.{load, empty, copy, make, read, write, fill, plain, same, look, tell, step, full};
ghost use Rattle.rules.specs.Chains.{FollowedToTheEnd, TallyIsTheBooks};
ghost use Rattle.registers.specs.Answers.{seen_in_range, told_done, told_flag, told_seen, told_why};
ghost use Rattle.heap.specs.Answers.{told_count, told_lengths, told_plain};
ghost use Rattle.heap.specs.Collecting.{told_step};
ghost use Rattle.heap.specs.Lent.{Lent};
ghost use Rattle.registers.specs.State.{after, answer};
ghost use Rattle.heap.specs.State.{opened};
ghost use Rattle.heap.specs.Tallies.{ByChain, answer_tally, told_tally};
ghost use Rattle.heap.specs.View.{view, Frame};

use heap::heap::Heap;
use heap::heap::tables::Tables;
use heap::seen::Seen;
use heap::sizes::Sizes;
use heap::stepped::Stepped;
use heap::tally::Tally;
use kinds::barrier::Barrier;
use kinds::fault::StoreFault;
use kinds::kind::Kind;
use kinds::weighed::Weighed;
use registers::table::RegisterTable;
use ring::arcs::Lengths;

#[derive(Drop)]
pub struct Store<'a, T: Kind, B: Barrier> {
    heap: Heap<'a, T, B>,
}

impl<'a, T: Kind, B: Barrier> Store<'a, T, B> {
    // A new store over lent tables. With a size out of range or a short table it is closed, and the tables are untouched.
    pub fn open(tables: Tables<'a, T>, sizes: Sizes, barrier: B) -> Store<'a, T, B>
        ensures state { view T.Kind result.heap ≡ opened T.Kind sizes tables.entry }
        ensures lent { Lent tables.entry result.heap }
        ensures barrier { result.heap.barrier ≡ barrier }
    {
        let heap = Heap::open(tables, sizes, barrier);
        Store { heap }
    }
}

// Each call is one line over the heap's. (A store stands beside its heap, and hasn't the trait `RegisterTable`, whose `put_word`
// takes any word: no caller of a store can put a word that leads nowhere.)
impl<T: Kind, B: Barrier> Store<'_, T, B> {
    // Why the store is closed: 1 or 2 as a fault, or 0 as done where it is open.
    pub fn why(&self) -> Result<(), StoreFault>
        ensures { told_why result ≡ (view T.Kind self.now.heap).why }
    {
        self.heap.why()
    }

    // Puts the number v into register r.
    pub fn load(&mut self, r: i64, v: i64) -> Result<(), StoreFault>
        ensures state { view T.Kind self.new.heap ≡ after B.Barrier.answers (view T.Kind self.old.heap) (load r v) }
        ensures told { told_done result ≡ answer B.Barrier.answers (view T.Kind self.old.heap) (load r v) }
        ensures frame { Frame self.old.heap self.new.heap }
    {
        self.heap.load(r, v)
    }

    // Puts nothing into register r.
    pub fn empty(&mut self, r: i64) -> Result<(), StoreFault>
        ensures state { view T.Kind self.new.heap ≡ after B.Barrier.answers (view T.Kind self.old.heap) (empty r) }
        ensures told { told_done result ≡ answer B.Barrier.answers (view T.Kind self.old.heap) (empty r) }
        ensures frame { Frame self.old.heap self.new.heap }
    {
        self.heap.empty(r)
    }

    // Puts what register s holds into register d.
    pub fn copy(&mut self, d: i64, s: i64) -> Result<(), StoreFault>
        ensures state { view T.Kind self.new.heap ≡ after B.Barrier.answers (view T.Kind self.old.heap) (copy d s) }
        ensures told { told_done result ≡ answer B.Barrier.answers (view T.Kind self.old.heap) (copy d s) }
        ensures frame { Frame self.old.heap self.new.heap }
    {
        self.heap.copy(d, s)
    }

    // Makes a record of a template's plain part and the words of the given registers, and puts it into register d. Says how
    // many records the nursery then has.
    pub fn make(&mut self, d: i64, template: &T, links: &[i64]) -> Result<u32, StoreFault>
        ensures state { view T.Kind self.new.heap ≡ after B.Barrier.answers (view T.Kind self.old.heap) (make d (T.Kind.plain template.now) links.now) }
        ensures told { told_count result ≡ answer B.Barrier.answers (view T.Kind self.old.heap) (make d (T.Kind.plain template.now) links.now) }
        ensures frame { Frame self.old.heap self.new.heap }
    {
        self.heap.make(d, template, links)
    }

    // Puts link k of the record in register s into register d.
    pub fn read(&mut self, d: i64, s: i64, k: i64) -> Result<(), StoreFault>
        ensures state { view T.Kind self.new.heap ≡ after B.Barrier.answers (view T.Kind self.old.heap) (read d s k) }
        ensures told { told_done result ≡ answer B.Barrier.answers (view T.Kind self.old.heap) (read d s k) }
        ensures frame { Frame self.old.heap self.new.heap }
    {
        self.heap.read(d, s, k)
    }

    // Gives the record in register s the plain part of a template.
    pub fn fill(&mut self, s: i64, template: &T) -> Result<(), StoreFault>
        ensures state { view T.Kind self.new.heap ≡ after B.Barrier.answers (view T.Kind self.old.heap) (fill s (T.Kind.plain template.now)) }
        ensures told { told_done result ≡ answer B.Barrier.answers (view T.Kind self.old.heap) (fill s (T.Kind.plain template.now)) }
        ensures frame { Frame self.old.heap self.new.heap }
    {
        self.heap.fill(s, template)
    }

    // Writes the plain part of the record in register s to a record of the caller, whose links become nothing. A refusal
    // leaves that record as it is. Alters nothing in the store.
    pub fn plain(&mut self, s: i64, out: &mut T) -> Result<(), StoreFault>
        ensures still { view T.Kind self.new.heap ≡ view T.Kind self.old.heap }
        ensures state { view T.Kind self.new.heap ≡ after B.Barrier.answers (view T.Kind self.old.heap) (plain s) }
        ensures told { told_plain (T.Kind.plain out.new) result ≡ answer B.Barrier.answers (view T.Kind self.old.heap) (plain s) }
        ensures links { MatchResult result (λ _. T.Kind.links out.new ≡ replicate T.Kind.count 0) (λ _. out.new ≡ out.old) }
        ensures frame { Frame self.old.heap self.new.heap }
    {
        self.heap.plain(s, out)
    }

    // Whether two registers hold the same word; alters nothing.
    pub fn same(&mut self, a: i64, b: i64) -> Result<bool, StoreFault>
        ensures still { view T.Kind self.new.heap ≡ view T.Kind self.old.heap }
        ensures state { view T.Kind self.new.heap ≡ after B.Barrier.answers (view T.Kind self.old.heap) (same a b) }
        ensures told { told_flag result ≡ answer B.Barrier.answers (view T.Kind self.old.heap) (same a b) }
        ensures frame { Frame self.old.heap self.new.heap }
    {
        self.heap.same(a, b)
    }

    // What register r holds: nothing, a number or a record; alters nothing.
    pub fn look(&mut self, r: i64) -> Result<Seen, StoreFault>
        ensures still { view T.Kind self.new.heap ≡ view T.Kind self.old.heap }
        ensures state { view T.Kind self.new.heap ≡ after B.Barrier.answers (view T.Kind self.old.heap) (look r) }
        ensures told { told_seen result ≡ answer B.Barrier.answers (view T.Kind self.old.heap) (look r) }
        ensures range { IfOk result (λ s. seen_in_range s ≡ true) }
        ensures frame { Frame self.old.heap self.new.heap }
    {
        self.heap.look(r)
    }

    // The lengths of the free, white, grey and black arc, counted along the ring; alters nothing.
    pub fn tell(&mut self) -> Result<Lengths, StoreFault>
        ensures still { view T.Kind self.new.heap ≡ view T.Kind self.old.heap }
        ensures state { view T.Kind self.new.heap ≡ after B.Barrier.answers (view T.Kind self.old.heap) tell }
        ensures told { told_lengths result ≡ answer B.Barrier.answers (view T.Kind self.old.heap) tell }
        ensures frame { Frame self.old.heap self.new.heap }
    {
        self.heap.tell()
    }

    // Puts the word of register t into link k of the record in register s.
    pub fn write(&mut self, s: i64, k: i64, t: i64) -> Result<(), StoreFault>
        ensures state { view T.Kind self.new.heap ≡ after B.Barrier.answers (view T.Kind self.old.heap) (write s k t) }
        ensures told { told_done result ≡ answer B.Barrier.answers (view T.Kind self.old.heap) (write s k t) }
        ensures frame { Frame self.old.heap self.new.heap }
    {
        self.heap.write(s, k, t)
    }

    // A step: the nursery is emptied, a cycle opens if none is open, at most K slots are scanned, and it closes if none is grey.
    pub fn step(&mut self) -> Result<Stepped, StoreFault>
        ensures state { view T.Kind self.new.heap ≡ after B.Barrier.answers (view T.Kind self.old.heap) step }
        ensures told { told_step result ≡ answer B.Barrier.answers (view T.Kind self.old.heap) step }
        ensures few { IfOk result (λ r. r.scanned ≤ self.old.heap.limits.scans) }
        ensures frame { Frame self.old.heap self.new.heap }
    {
        self.heap.step()
    }

    // A full collection: the nursery is emptied, an open cycle is finished, and then another is opened and finished. The
    // counts are sums over the call; no cycle is open after it.
    pub fn full(&mut self) -> Result<Stepped, StoreFault>
        ensures state { view T.Kind self.new.heap ≡ after B.Barrier.answers (view T.Kind self.old.heap) full }
        ensures told { told_step result ≡ answer B.Barrier.answers (view T.Kind self.old.heap) full }
        ensures shut { OnOk result (is_open_of self.new.heap.area.ring ≡ false) }
        ensures frame { Frame self.old.heap self.new.heap }
    {
        self.heap.full()
    }
}

impl<T: Weighed, B: Barrier> Store<'_, T, B> {
    // Counts the flushes along the chain of register r and adds up their weights: link 0 is followed from record to record,
    // up to the first word that is no record. A chain that never ends is refused. Alters nothing.
    pub fn tally(&mut self, r: i64) -> Result<Tally, StoreFault>
        ensures still { view T.Kind self.new.heap ≡ view T.Kind self.old.heap }
        ensures told { told_tally result ≡ answer_tally (view T.Kind self.old.heap) r }
        ensures chain { ByChain (view T.Kind self.old.heap) r (told_tally result) }
        ensures followed { FollowedToTheEnd }
        ensures book { TallyIsTheBooks }
        ensures frame { Frame self.old.heap self.new.heap }
    {
        self.heap.tally(r)
    }
}
