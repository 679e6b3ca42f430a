// The program of a sheet: what it reads from standard input it answers on standard output.
ghost use Rattle.std.specs.Io.KnownBytes.{Appends};
ghost use Rattle.std.specs.Prelude.{◌≡◌, Ok, IfSome, OnOk};
ghost use Rattle.answering.specs.declared.program.ProgramFault.TheVariants.{Stream, Row};

use lines::answer::RowFault;
use std::alloc::Global;
use std::error::Error;
use std::io::{Read, Write};
use std::{fmt, io};

// Why the program ends before its answers are written.
#[derive(Debug, Drop)]
pub enum ProgramFault {
    // Standard input cannot be read, or standard output not written.
    Stream(io::Error),
    // An answer line cannot be kept.
    Row(RowFault),
}

impl From<io::Error> for ProgramFault {
    ghost from_gives = { λ e r. r ≡ Stream e };

    fn from(error: io::Error) -> ProgramFault {
        ProgramFault::Stream(error)
    }
}

impl From<RowFault> for ProgramFault {
    ghost from_gives = { λ e r. r ≡ Row e };

    fn from(fault: RowFault) -> ProgramFault {
        ProgramFault::Row(fault)
    }
}

impl fmt::Display for ProgramFault {
    ghost use Rattle.answering.specs.Faults.{program_text};

    ghost output = { program_text };

    fn fmt<W: fmt::Write>(&self, f: &mut fmt::Formatter<W>) -> fmt::Result {
        match self {
            ProgramFault::Stream(e) => e.fmt(f),
            ProgramFault::Row(e) => e.fmt(f),
        }
    }
}

impl Error for ProgramFault {}

// Reads an input to its end, runs it as a sheet and writes its answers. On success there are answers of a run of what was read:
// of just the reader's bytes, where these are known; and what the writer holds, where that is known, grew by these answers.
pub fn answer_input<R: Read, W: Write, F: FnOnce(Global, &[u8]) -> Result<Vec<u8>, RowFault>>(
    heap: Global,
    input: &mut R,
    output: &mut W,
    run: F,
) -> Result<(), ProgramFault>
    requires { F.IsAlwaysCallable run }
    ensures { OnOk result ((sheet : _) × (answers : _) × IfSome (R.remaining input.old) (λ read. sheet.now ≡ read) × F.post run heap sheet (Ok answers) × Appends (W.contents output.old) (W.contents output.new) answers.items) }
{
    let mut sheet = Vec::new(heap);
    input.read_to_end(&mut sheet)?;
    let answers = run(heap, &sheet)?;
    output.write_all(&answers)?;
    Ok(())
}
