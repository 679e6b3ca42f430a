// The calls of a sheet of pairs on its open store, and the values that each answers.
ghost use Rattle.std.specs.Prelude.{◌≡◌, ℕ, [], ◌∷◌, pos};
ghost use Rattle.rules.specs.Rules.{flag};
ghost use Rattle.answering.specs.Runs.{row_of_result};
ghost use Rattle.answering.specs.Sheets.{order_of, running, state_after_order, reply_to_order, row_of_reply};
ghost use Rattle.pair_sheet.specs.Pairs.{held};
ghost use Rattle.pair_sheet.specs.Sheets.{order, rules};

use crate::run::{NOTHING, PairSheet};
use answering::fault::SheetFault;
use answering::seen::numbers_of;
use answering::sheet::SheetStore;
use answering::values::Values;
use heap::stepped::Stepped;
use kinds::barrier::Barrier;
use kinds::fault::StoreFault;
use kinds::pair::Pair;
use lines::command::Command;
use lines::request::Request;
use store::store::Store;

// What a collection did. A function, since neither type is of this crate, so that there can be no From.
fn collected(stepped: Stepped) -> Values
    ensures { result.numbers ≡ pos stepped.copied ∷ (pos stepped.scanned ∷ (pos stepped.freed ∷ (pos (flag stepped.cycle_open) ∷ []))) }
{
    let open = u32::from(stepped.cycle_open);
    Values::counts(stepped.copied, stepped.scanned, stepped.freed, open)
}

impl<B: Barrier> SheetStore<PairSheet> for Store<'_, Pair, B> {
    ghost held = { λ s. held s.heap };

    ghost barrier = { B.answers };

    fn why(&self) -> Result<(), StoreFault> {
        self.why()
    }

    fn perform(&mut self, request: Request<Command>) -> Result<Values, SheetFault>
        ensures state { running B.answers (held self.new.heap) ≡ state_after_order rules (running B.answers (held self.old.heap)) (order_of order request) }
        ensures reply { (n : ℕ) → row_of_result n result ≡ row_of_reply n (reply_to_order rules (running B.answers (held self.old.heap)) (order_of order request)) }
    {
        let Request { command, a, b, c } = request;
        let values = match command {
            Command::OpenSnapshot | Command::OpenUpdate => return Err(SheetFault::OutOfTurn),
            Command::Load => self.load(a, b)?.into(),
            Command::Empty => self.empty(a)?.into(),
            Command::Copy => self.copy(a, b)?.into(),
            Command::Make => self.make(a, &NOTHING, &[b, c])?.into(),
            Command::Read => self.read(a, b, c)?.into(),
            Command::Write => self.write(a, b, c)?.into(),
            Command::Same => self.same(a, b)?.into(),
            Command::Look => Values {
                numbers: numbers_of(self.look(a)?),
            },
            Command::Step => collected(self.step()?),
            Command::Full => collected(self.full()?),
            Command::Tell => self.tell()?.into(),
        };
        Ok(values)
    }
}
