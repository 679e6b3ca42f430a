// The calls of a sheet of registers on its open store, and the values that each answers.
ghost use Rattle.std.specs.Prelude.{◌≡◌, ℕ};
ghost use Rattle.registers.specs.View.{view};
ghost use Rattle.answering.specs.Runs.{row_of_result};
ghost use Rattle.answering.specs.Sheets.{order_of, running, state_after_order, reply_to_order, row_of_reply};
ghost use Rattle.sheet.specs.Sheets.{order, rules};

use crate::command::Command;
use crate::run::RegisterSheet;
use answering::fault::SheetFault;
use answering::seen::numbers_of;
use answering::sheet::SheetStore;
use answering::values::Values;
use kinds::barrier::Barrier;
use kinds::fault::StoreFault;
use lines::request::Request;
use registers::store::Store;

impl<B: Barrier> SheetStore<RegisterSheet> for Store<'_, B> {
    ghost held = { λ s. view s.heap };

    ghost barrier = { B.answers };

    fn why(&self) -> Result<(), StoreFault> {
        self.why()
    }

    fn perform(&mut self, request: Request<Command>) -> Result<Values, SheetFault>
        ensures state { running B.answers (view self.new.heap) ≡ state_after_order rules (running B.answers (view self.old.heap)) (order_of order request) }
        ensures reply { (n : ℕ) → row_of_result n result ≡ row_of_reply n (reply_to_order rules (running B.answers (view self.old.heap)) (order_of order request)) }
    {
        let Request { command, a, b, .. } = request;
        let values = match command {
            Command::OpenSnapshot | Command::OpenUpdate => return Err(SheetFault::OutOfTurn),
            Command::Load => self.load(a, b)?.into(),
            Command::Empty => self.empty(a)?.into(),
            Command::Copy => self.copy(a, b)?.into(),
            Command::Same => self.same(a, b)?.into(),
            Command::Look => Values {
                numbers: numbers_of(self.look(a)?),
            },
        };
        Ok(values)
    }
}
