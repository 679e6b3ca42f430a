// A call made of a store, given as a value.
ghost use Rattle.std.specs.Prelude.{◌≡◌, IfOk};
ghost use Rattle.rules.specs.Rules.{plain};
ghost use Rattle.registers.specs.State.{after, answer};
ghost use Rattle.heap.specs.View.{view, Frame};
ghost use Rattle.store.specs.Calls.{call_of, told_call, GivenBare, Answers};

use crate::call::{Answer, Call};
use crate::store::Store;
use kinds::barrier::Barrier;
use kinds::fault::StoreFault;
use kinds::kind::Kind;

impl<T: Kind, B: Barrier> Store<'_, T, B> {
    // Plain, with the caller's record by value.
    fn give(&mut self, s: i64, record: T) -> Result<Answer<T>, StoreFault>
        ensures state { view T.Kind self.new.heap ≡ after B.Barrier.answers (view T.Kind self.old.heap) (plain s) }
        ensures told { told_call T.Kind result ≡ answer B.Barrier.answers (view T.Kind self.old.heap) (plain s) }
        ensures case { IfOk result (GivenBare T.Kind) }
        ensures frame { Frame self.old.heap self.new.heap }
    {
        let mut out = record;
        self.plain(s, &mut out)?;
        Ok(Answer::Given(out))
    }
}

impl<T: Kind, B: Barrier> Store<'_, T, B> {
    // Makes the call. Its answer is that of the method with the call's name.
    pub fn call(&mut self, call: &Call<T>) -> Result<Answer<T>, StoreFault>
        ensures state { view T.Kind self.new.heap ≡ after B.Barrier.answers (view T.Kind self.old.heap) (call_of T.Kind call.now) }
        ensures answer { Answers T.Kind B.Barrier.answers (view T.Kind self.old.heap) call.now result }
        ensures frame { Frame self.old.heap self.new.heap }
    {
        match call {
            Call::Load { r, v } => self.load(*r, *v).map(|_| Answer::Done),
            Call::Empty { r } => self.empty(*r).map(|_| Answer::Done),
            Call::Copy { d, s } => self.copy(*d, *s).map(|_| Answer::Done),
            Call::Make { d, template, links } => self
                .make(*d, template, links)
                .map(|x| Answer::Count(x)),
            Call::Read { d, s, k } => self.read(*d, *s, *k).map(|_| Answer::Done),
            Call::Write { s, k, t } => self.write(*s, *k, *t).map(|_| Answer::Done),
            Call::Fill { s, template } => self.fill(*s, template).map(|_| Answer::Done),
            Call::Plain { s, record } => self.give(*s, *record),
            Call::Same { a, b } => self.same(*a, *b).map(|x| Answer::Flag(x)),
            Call::Look { r } => self.look(*r).map(|x| Answer::Held(x)),
            Call::Tell => self.tell().map(|x| Answer::Arcs(x)),
            Call::Step => self.step().map(|x| Answer::Collected(x)),
            Call::Full => self.full().map(|x| Answer::Collected(x)),
        }
    }
}
