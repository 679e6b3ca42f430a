// Running a sheet of pairs: what is written for the lines of an input.
ghost use Rattle.std.specs.Prelude.{◌≡◌, refl, MatchResult};
ghost use Rattle.lines.specs.declared.answer.RowFault.TheVariants.{NoMemory};
ghost use Rattle.pair_sheet.specs.Promised.{SheetPromise};
ghost use Rattle.pair_sheet.specs.Sheets.{order, rules, sheet_output};

use answering::run::run_new;
use answering::session::Session;
use answering::sheet::{NewStore, OpenedWith, REGISTERS, Sheet};
use heap::heap::tables::Memory;
use kinds::barrier::Barrier;
use kinds::pair::Pair;
use lines::answer::RowFault;
use lines::command::Command;
use registers::sizes::Sizes;
use std::alloc::Global;
use store::store::Store;

// How many slots and nursery places a store is lent beside its registers.
pub const SLOTS: usize = 256;

pub const PLACES: usize = 64;

// What the nursery and the slots of a new store hold.
pub(crate) const NOTHING: Pair = Pair { head: 0, tail: 0 };

// The sheet of pairs.
#[derive(Drop)]
pub struct PairSheet;

impl Sheet for PairSheet {
    type Command = Command;

    ghost order = { order };

    ghost rules = { rules };

    fn opens(command: Command) -> Option<OpenedWith> {
        match command {
            Command::OpenSnapshot => Some(OpenedWith::Snapshot),
            Command::OpenUpdate => Some(OpenedWith::Update),
            _ => None,
        }
    }

    ghost asked = { λ line. refl };
}

impl NewStore for PairSheet {
    fn run_on_new<B: Barrier>(
        barrier: B,
        sizes: Sizes,
        session: &mut Session<'_>,
    ) -> Result<bool, RowFault> {
        let mut memory = Memory::<Pair, SLOTS, PLACES, REGISTERS>::new(NOTHING);
        let mut store = Store::open(memory.lend(), sizes, barrier);
        run_new::<PairSheet, _>(&mut store, session)
    }
}

// Runs a sheet: what is written for the lines of an input, and what a sheet is promised.
pub fn run(heap: Global, input: &[u8]) -> Result<Vec<u8>, RowFault>
    ensures promise { SheetPromise input.now }
    ensures output { MatchResult result (λ v. v.items ≡ sheet_output input.now) (λ e. e ≡ NoMemory) }
{
    answering::run::run::<PairSheet>(heap, input)
}
