// The registers of a store, as a table of words: the calls that write or read registers and need no record.
ghost use Rattle.std.specs.Prelude.{◌≡◌, ◌<◌, true, IfOk, Result, slice_index, slice_set};
ghost use Rattle.kinds.specs.declared.fault.StoreFault.{StoreFault};
ghost use Rattle.rules.specs.Rules.{Barrier, load, empty, copy, same, look, done, do_look, with_registers};
ghost use Rattle.registers.specs.Answers.{seen_values, seen_in_range, told_done, told_flag, told_seen, told_why, register_at, ready_at, open_register};
ghost use Rattle.registers.specs.State.{State, after, answer, with_store};

use crate::index::index_below;
use crate::seen::Seen;
use kinds::fault::StoreFault;
use words::word::{Word, number_word};

// What a 32-bit number in a register is to a caller; one that is no word is taken for a record.
fn classify(w: u32) -> Seen
    ensures value { done (seen_values result) ≡ do_look w }
    ensures range { seen_in_range result ≡ true }
{
    Word::parse(w).map_or(Seen::Record, Seen::from)
}

// A heap with registers. `state` is what it holds, `status` why it is closed, `answers` what its barrier names, and
// `frame` says what no call alters.
pub trait RegisterTable {
    ghost state: { Self → State };

    ghost status: { Self → Result (Unit {0}) StoreFault };

    ghost answers: { Barrier };

    ghost frame: { Self → Self → Type 0 };

    // Why the store is closed, if it is.
    fn why(&self) -> Result<(), StoreFault>
        ensures status { result ≡ status self.now }
        ensures told { told_why result ≡ (state self.now).why };

    // How many registers there are.
    fn register_count(&self) -> u32
        ensures { result ≡ (state self.now).sizes.registers };

    // The word in register i.
    fn word_in(&self, i: usize) -> u32
        requires low { i < (state self.now).sizes.registers }
        ensures { result ≡ slice_index (state self.now).store.registers i };

    // Puts a word into register i.
    fn put_word(&mut self, i: usize, w: u32)
        requires low { i < (state self.old).sizes.registers }
        ensures state { state self.new ≡ with_store (state self.old) (with_registers (slice_set (state self.old).store.registers i w) (state self.old).store) }
        ensures frame { frame self.old self.new };

    ghost why_is: { (x : Self) → (state x).why ≡ told_why (status x) };

    ghost frame_still: { (x : Self) → frame x x };

    // Refuses where the store is closed.
    final fn ready(&self) -> Result<(), StoreFault>
        ensures { result ≡ ready_at (status self.now) }
    {
        self.why().map_err(|_| StoreFault::Closed)
    }

    // The index of a register.
    final fn register(&self, r: i64) -> Result<usize, StoreFault>
        ensures { result ≡ register_at (state self.now).sizes.registers r }
    {
        index_below(r, self.register_count() as usize).ok_or(StoreFault::NoSuchRegister)
    }

    // The index of a register of an open store.
    final fn open_register(&self, r: i64) -> Result<usize, StoreFault>
        ensures { result ≡ open_register (status self.now) (state self.now).sizes.registers r }
    {
        self.ready()?;
        self.register(r)
    }

    // Puts the number v into register r.
    final fn load(&mut self, r: i64, v: i64) -> Result<(), StoreFault>
        ensures state { state self.new ≡ after answers (state self.old) (load r v) }
        ensures told { told_done result ≡ answer answers (state self.old) (load r v) }
        ensures frame { frame self.old self.new }
    {
        let i = self.open_register(r)?;
        let w = number_word(v)?;
        self.put_word(i, w);
        Ok(())
    }

    // Puts nothing into register r.
    final fn empty(&mut self, r: i64) -> Result<(), StoreFault>
        ensures state { state self.new ≡ after answers (state self.old) (empty r) }
        ensures told { told_done result ≡ answer answers (state self.old) (empty r) }
        ensures frame { frame self.old self.new }
    {
        let i = self.open_register(r)?;
        self.put_word(i, 0);
        Ok(())
    }

    // Puts what register s holds into register d.
    final fn copy(&mut self, d: i64, s: i64) -> Result<(), StoreFault>
        ensures state { state self.new ≡ after answers (state self.old) (copy d s) }
        ensures told { told_done result ≡ answer answers (state self.old) (copy d s) }
        ensures frame { frame self.old self.new }
    {
        let i = self.open_register(d)?;
        let j = self.register(s)?;
        let w = self.word_in(j);
        self.put_word(i, w);
        Ok(())
    }

    // Whether two registers hold the same word; alters nothing.
    final fn same(&mut self, a: i64, b: i64) -> Result<bool, StoreFault>
        ensures still { state self.new ≡ state self.old }
        ensures state { state self.new ≡ after answers (state self.old) (same a b) }
        ensures told { told_flag result ≡ answer answers (state self.old) (same a b) }
        ensures frame { frame self.old self.new }
    {
        let i = self.open_register(a)?;
        let j = self.register(b)?;
        Ok(self.word_in(i) == self.word_in(j))
    }

    // What register r holds: nothing, a number or a record; alters nothing.
    final fn look(&mut self, r: i64) -> Result<Seen, StoreFault>
        ensures still { state self.new ≡ state self.old }
        ensures state { state self.new ≡ after answers (state self.old) (look r) }
        ensures told { told_seen result ≡ answer answers (state self.old) (look r) }
        ensures range { IfOk result (λ s. seen_in_range s ≡ true) }
        ensures frame { frame self.old self.new }
    {
        let i = self.open_register(r)?;
        Ok(classify(self.word_in(i)))
    }
}
