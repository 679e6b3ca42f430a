// Running a sheet: the lines of an input one after the other, and what is written for them.
ghost use Rattle.std.specs.Prelude.{◌≡◌, ℕ, [], ◌∷◌, ◌++◌, is_ok, if◌then◌else◌, MatchResult, ◌==◌};
ghost use Rattle.lines.specs.Lines.{lines};
ghost use Rattle.lines.specs.declared.answer.RowFault.TheVariants.{NoMemory};
ghost use Rattle.answering.specs.Runs.{row_of_result, state_after_opening, reply_to_opening, state_after_asked, reply_to_asked, Answered, written_after};
ghost use Rattle.answering.specs.Sheets.{waiting, running, state_opened, reply_opened, state_after_line, reply_to_line, row_of_reply, next_line, written_for, sheet_output};

use crate::fault::SheetFault;
use crate::session::Session;
use crate::sheet::{NewStore, OpenedWith, REGISTERS, Sheet, SheetStore};
use crate::values::Values;
use kinds::barrier::{Snapshot, Update};
use lines::answer::RowFault;
use lines::request::parse_line;
use registers::sizes::Sizes;
use std::alloc::Global;

// An open that a line asks for.
#[derive(Clone, Copy, PartialEq, Eq, Debug)]
struct Opening {
    barrier: OpenedWith,
    sizes: Sizes,
}

// One line, with an open store.
fn answer_line<T: Sheet, S: SheetStore<T>>(store: &mut S, text: &[u8]) -> Result<Values, SheetFault>
    ensures state { running S.barrier (S.held store.new) ≡ state_after_line T.rules (running S.barrier (S.held store.old)) text.now }
    ensures reply { (n : ℕ) → row_of_result n result ≡ row_of_reply n (reply_to_line T.rules (running S.barrier (S.held store.old)) text.now) }
{
    let request = parse_line::<T::Command>(text)?;
    store.perform(request)
}

// Answers the lines of a session with an open store.
fn run_open<T: Sheet, S: SheetStore<T>>(
    store: &mut S,
    session: &mut Session<'_>,
) -> Result<(), RowFault>
    ensures { MatchResult result (λ _. session.new.out.items ≡ session.old.out.items ++ written_for T.rules (running S.barrier (S.held store.old)) session.old.number (lines session.old.rest.now)) (λ e. e ≡ NoMemory) }
{
    while let Some(text) = session.next_line() {
        session.answer(answer_line::<T, S>(store, text))?;
    }
    Ok(())
}

// The open that a line asks for before one is accepted. The number of registers is a cast: there is no From<usize> for i64.
fn parse_opening<T: Sheet>(text: &[u8]) -> Result<Opening, SheetFault>
    ensures state { state_after_asked T.rules result ≡ state_after_line T.rules waiting text.now }
    ensures reply { reply_to_asked T.rules result ≡ reply_to_line T.rules waiting text.now }
{
    let request = parse_line::<T::Command>(text)?;
    let barrier = T::opens(request.command).ok_or(SheetFault::OutOfTurn)?;
    let sizes = Sizes {
        slots: request.a,
        places: request.b,
        registers: REGISTERS as i64,
        scans: request.c,
    };
    Ok(Opening { barrier, sizes })
}

// The answer to an open: whether the store accepted it.
fn answer_open<T: Sheet, S: SheetStore<T>>(store: &S) -> Result<Values, SheetFault>
    ensures accepted { is_ok result ≡ ((S.held store.now).why == 0) }
    ensures reply { (n : ℕ) → row_of_result n result ≡ row_of_reply n (reply_opened (S.held store.now)) }
{
    Ok(store.why()?.into())
}

// Answers the open of a store. If the store accepted it, the lines of the session are answered too, and the answer is true.
pub fn run_new<T: Sheet, S: SheetStore<T>>(
    store: &mut S,
    session: &mut Session<'_>,
) -> Result<bool, RowFault>
    ensures { Answered T.rules result (session.old.out.items ++ written_after T.rules (reply_opened (S.held store.old)) (state_opened S.barrier (S.held store.old)) session.old.number (lines session.old.rest.now)) session.old session.new }
{
    let told = answer_open::<T, S>(store);
    let started = told.is_ok();
    session.answer(told)?;
    if started {
        run_open::<T, S>(store, session)?;
    }
    Ok(started)
}

// The same for a store that is opened as a line asks for.
fn run_opening<T: NewStore>(opening: Opening, session: &mut Session<'_>) -> Result<bool, RowFault>
    ensures { Answered T.rules result (session.old.out.items ++ written_after T.rules (reply_to_opening T.rules opening) (state_after_opening T.rules opening) session.old.number (lines session.old.rest.now)) session.old session.new }
{
    match opening.barrier {
        OpenedWith::Snapshot => T::run_on_new(Snapshot, opening.sizes, session),
        OpenedWith::Update => T::run_on_new(Update, opening.sizes, session),
    }
}

// Answers a line before an accepted open. If it opens a store, the lines after it are answered too, and the answer is true.
fn answer_waiting<T: NewStore>(text: &[u8], session: &mut Session<'_>) -> Result<bool, RowFault>
    ensures { Answered T.rules result (session.old.out.items ++ written_for T.rules waiting session.old.number (text.now ∷ lines session.old.rest.now)) session.old session.new }
{
    match parse_opening::<T>(text) {
        Ok(opening) => run_opening::<T>(opening, session),
        Err(e) => {
            session.answer(Err(e))?;
            Ok(false)
        }
    }
}

// Runs a sheet: what is written for the lines of an input.
pub fn run<T: NewStore>(heap: Global, input: &[u8]) -> Result<Vec<u8>, RowFault>
    ensures { MatchResult result (λ v. v.items ≡ sheet_output T.rules input.now) (λ e. e ≡ NoMemory) }
{
    let mut session = Session::new(heap, input);
    while let Some(text) = session.next_line() {
        if answer_waiting::<T>(text, &mut session)? {
            return Ok(session.finish());
        }
    }
    Ok(session.finish())
}
