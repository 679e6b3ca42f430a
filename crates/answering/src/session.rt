// A sheet that is being answered: the lines that are left, and what is written for those before them.
ghost use Rattle.std.specs.Prelude.{ℕ, ◌≤◌};

use crate::fault::SheetFault;
use crate::row::row;
use crate::values::Values;
use lines::answer::{RowFault, push_row};
use lines::line::split_line;
use std::alloc::Global;

// The number of a line counts up to 999,999,999, which stands for every later line too.
#[derive(Drop)]
pub struct Session<'a> {
    // The lines that are left.
    rest: &'a [u8],
    // The number of the line that is answered next.
    number: u32,
    // What is written.
    out: Vec<u8>,
    ghost counted: { number ≤ 999999999 },
}

impl<'a> Session<'a> {
    ghost use Rattle.std.specs.Prelude.{◌≡◌, ◌<◌, [], ◌∷◌, ◌++◌, length, IfOk, IfSome, MatchOption, MatchResult};
    ghost use Rattle.lines.specs.Answers.{row_bytes};
    ghost use Rattle.lines.specs.Lines.{lines};
    ghost use Rattle.lines.specs.declared.answer.RowFault.TheVariants.{NoMemory};
    ghost use Rattle.answering.specs.Runs.{row_of_result};
    ghost use Rattle.answering.specs.Sheets.{next_line};

    // All lines of an input, and nothing written.
    pub(crate) fn new(heap: Global, input: &'a [u8]) -> Session<'a>
        ensures rest { result.rest.now ≡ input.now }
        ensures number { result.number ≡ 1 }
        ensures out { result.out.items ≡ [] }
    {
        Session {
            rest: input,
            number: 1,
            out: Vec::new(heap),
        }
    }

    // Takes the next line, if one is left.
    pub(crate) fn next_line(&mut self) -> Option<&'a [u8]>
        ensures line { MatchOption result (lines self.old.rest.now ≡ []) (λ line. lines self.old.rest.now ≡ line.now ∷ lines self.new.rest.now) }
        ensures shorter { IfSome result (λ _. length self.new.rest.now < length self.old.rest.now) }
        ensures number { self.new.number ≡ self.old.number }
        ensures out { self.new.out.items ≡ self.old.out.items }
    {
        let (line, rest) = split_line(self.rest)?;
        self.rest = rest;
        Some(line)
    }

    // Writes the answer to the line of the next number. The numbers of an answer fit, so that no memory is the only fault here
    // and in what is made of this; its type stays that of `push_row` and of the public `run`s, without a conversion on the way.
    pub(crate) fn answer(&mut self, told: Result<Values, SheetFault>) -> Result<(), RowFault>
        ensures written { MatchResult result (λ _. self.new.out.items ≡ self.old.out.items ++ row_bytes (row_of_result self.old.number told)) (λ e. e ≡ NoMemory) }
        ensures number { IfOk result (λ _. self.new.number ≡ next_line self.old.number) }
        ensures rest { self.new.rest.now ≡ self.old.rest.now }
    {
        push_row(&mut self.out, row(self.number, told))?;
        self.number = (self.number + 1).min(999_999_999);
        Ok(())
    }

    // What is written.
    pub(crate) fn finish(self) -> Vec<u8>
        ensures { result.items ≡ self.entry.out.items }
    {
        let Session {
            rest: _,
            number: _,
            out,
        } = self;
        out
    }
}
