// Running a sheet of registers: what is written for the lines of an input.
ghost use Rattle.std.specs.Prelude.{◌≡◌, refl, MatchResult};
ghost use Rattle.lines.specs.declared.answer.RowFault.TheVariants.{NoMemory};
ghost use Rattle.sheet.specs.Sheets.{order, rules, sheet_output};

use crate::command::Command;
use answering::run::run_new;
use answering::session::Session;
use answering::sheet::{NewStore, OpenedWith, REGISTERS, Sheet};
use kinds::barrier::Barrier;
use lines::answer::RowFault;
use registers::sizes::Sizes;
use registers::store::Store;
use std::alloc::Global;

// The sheet of registers, whose store has them alone.
#[derive(Drop)]
pub struct RegisterSheet;

impl Sheet for RegisterSheet {
    type Command = Command;

    ghost order = { order };

    ghost rules = { rules };

    fn opens(command: Command) -> Option<OpenedWith> {
        match command {
            Command::OpenSnapshot => Some(OpenedWith::Snapshot),
            Command::OpenUpdate => Some(OpenedWith::Update),
            Command::Load | Command::Empty | Command::Copy | Command::Same | Command::Look => None,
        }
    }

    ghost asked = { λ line. refl };
}

impl NewStore for RegisterSheet {
    fn run_on_new<B: Barrier>(
        barrier: B,
        sizes: Sizes,
        session: &mut Session<'_>,
    ) -> Result<bool, RowFault> {
        let mut registers = [0u32; REGISTERS];
        let mut store = Store::open(&mut registers, sizes, barrier);
        run_new::<RegisterSheet, _>(&mut store, session)
    }
}

// Runs a sheet: what is written for the lines of an input.
pub fn run(heap: Global, input: &[u8]) -> Result<Vec<u8>, RowFault>
    ensures { MatchResult result (λ v. v.items ≡ sheet_output input.now) (λ e. e ≡ NoMemory) }
{
    answering::run::run::<RegisterSheet>(heap, input)
}
