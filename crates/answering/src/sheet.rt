// What a sheet is: its commands, what they ask for, and the store that they are made on.
ghost use Rattle.std.specs.Prelude.{◌≡◌, ℕ, List, [], ◌++◌, ℤ, if◌then◌else◌, MatchResult};
ghost use Rattle.rules.specs.Rules.{Barrier as Answers};
ghost use Rattle.registers.specs.Answers.{told_why};
ghost use Rattle.registers.specs.State.{State};
ghost use Rattle.lines.specs.Lines.{lines};
ghost use Rattle.lines.specs.Requests.{parsed};
ghost use Rattle.lines.specs.declared.answer.RowFault.TheVariants.{NoMemory};
ghost use Rattle.answering.specs.Runs.{row_of_result, Opens, Answered, written_after};
ghost use Rattle.answering.specs.Sheets.{SheetRules, Order, order_of, order_read, waiting, running, state_opened, reply_opened, state_after_order, reply_to_order, row_of_reply, written_for};

use crate::fault::SheetFault;
use crate::session::Session;
use crate::values::Values;
use kinds::barrier::Barrier;
use kinds::fault::StoreFault;
use lines::answer::RowFault;
use lines::command_set::CommandSet;
use lines::request::Request;
use registers::sizes::Sizes;

// How many registers the store of a sheet has.
pub const REGISTERS: usize = 8;

// The barrier that a store is opened with.
#[derive(Clone, Copy, PartialEq, Eq, Debug)]
pub enum OpenedWith {
    Snapshot,
    Update,
}

// A sheet by its commands.
pub trait Sheet {
    type Command: CommandSet;

    // What a command with its three numbers asks for.
    ghost order: { Self.Command → ℤ → ℤ → ℤ → Order };

    // What a line asks for, and what a store opened with sizes holds.
    ghost rules: { SheetRules };

    // The barrier that a command opens a store with, or none of a command that asks for a call.
    fn opens(command: Self::Command) -> Option<OpenedWith>
        ensures { Opens result (order command) };

    // A line asks for what its command does with its numbers.
    ghost asked: { (line : List ℕ) → rules.asked line ≡ order_read order (parsed Self.Command.commands line) };
}

// A store on which the requests of a sheet are made.
pub trait SheetStore<T: Sheet> {
    // What it holds, and its barrier.
    ghost held: { Self → State };

    ghost barrier: { Answers };

    // Why the store is closed, if it is.
    fn why(&self) -> Result<(), StoreFault>
        ensures { told_why result ≡ (held self.now).why };

    // One request, while the store is open.
    fn perform(&mut self, request: Request<T::Command>) -> Result<Values, SheetFault>
        ensures state { running barrier (held self.new) ≡ state_after_order T.rules (running barrier (held self.old)) (order_of T.order request) }
        ensures reply { (n : ℕ) → row_of_result n result ≡ row_of_reply n (reply_to_order T.rules (running barrier (held self.old)) (order_of T.order request)) };
}

// A sheet with a store of its own, over tables that it makes for each open.
pub trait NewStore: Sheet {
    // Opens a store, and goes on with the session on it if the store accepts. The answer is whether it does.
    fn run_on_new<B: Barrier>(
        barrier: B,
        sizes: Sizes,
        session: &mut Session<'_>,
    ) -> Result<bool, RowFault>
        ensures { Answered Self.rules result (session.old.out.items ++ written_after Self.rules (reply_opened (Self.rules.opened sizes)) (state_opened B.answers (Self.rules.opened sizes)) session.old.number (lines session.old.rest.now)) session.old session.new };
}
