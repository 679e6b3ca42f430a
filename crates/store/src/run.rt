// A list of calls on a store opened new, with the main promise.
ghost use Rattle.std.specs.Prelude.{◌≡◌, ◌+◌, ◌≤◌, length, vec_len, vec_capacity};
ghost use Rattle.heap.specs.View.{view, Frame};
ghost use Rattle.store.specs.Promised.{Ran, RunOf};

use crate::call::{Answer, Call};
use crate::store::Store;
use heap::heap::tables::Tables;
use heap::sizes::Sizes;
use kinds::barrier::Barrier;
use kinds::fault::StoreFault;
use kinds::kind::Kind;

impl<T: Kind, B: Barrier> Store<'_, T, B> {
    // Makes the calls in their order, and adds their answers; there is memory for all of them.
    fn make_calls(&mut self, calls: &[Call<T>], answers: &mut Vec<Result<Answer<T>, StoreFault>>)
        requires { vec_len answers.old + length calls.now ≤ vec_capacity answers.old }
        ensures ran { Ran T.Kind B.Barrier.answers (view T.Kind self.old.heap) calls.now answers.old.items answers.new.items self.new.heap }
        ensures frame { Frame self.old.heap self.new.heap }
    {
        for call in calls {
            let answer = self.call(call);
            let _ = answers.push(answer);
        }
    }
}

// Opens a store over lent tables and makes the calls in their order; the answers are added to `answers`. Without memory for
// them no call is made. Nothing in use is ever taken back, every answer is the record book's, what is out of reach is taken
// back in time, and a store made to size never lacks room.
pub fn run<'a, T: Kind, B: Barrier>(
    tables: Tables<'a, T>,
    sizes: Sizes,
    barrier: B,
    calls: &[Call<T>],
    answers: &mut Vec<Result<Answer<T>, StoreFault>>,
) -> Store<'a, T, B>
    ensures run { RunOf T.Kind B.Barrier.answers sizes tables.entry calls.now (vec_len answers.old + length calls.now ≤ vec_capacity answers.old) answers.old.items answers.new.items result.heap }
    ensures barrier { result.heap.barrier ≡ barrier }
{
    let mut store = Store::open(tables, sizes, barrier);
    if answers.reserve(calls.len()).is_ok() {
        store.make_calls(calls, answers);
    }
    store
}
