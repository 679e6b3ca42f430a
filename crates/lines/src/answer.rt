// Answer lines: five numbers in ten columns each, and a newline.
ghost use Rattle.std.specs.Prelude.{◌≡◌, false, ◌↔◌, ◌++◌, is_ok, if◌then◌else◌, Some, None, Err};
ghost use Rattle.lines.specs.declared.answer.RowFault.TheVariants.{WontFit, NoMemory};
ghost use Rattle.lines.specs.Answers.{row_bytes, all_fit};

use crate::column::write_column;
use std::alloc::AllocError;
use std::error::Error;
use std::fmt;

// Why an answer line is not written.
#[derive(Clone, Copy, PartialEq, Eq, Debug)]
pub enum RowFault {
    // A number lies outside −999,999,999 to 9,999,999,999.
    WontFit,
    // No memory is left.
    NoMemory,
}

impl From<AllocError> for RowFault {
    ghost from_gives = { λ _ fault. fault ≡ NoMemory };

    fn from(_error: AllocError) -> RowFault {
        RowFault::NoMemory
    }
}

impl fmt::Display for RowFault {
    ghost use Rattle.std.specs.Prelude.{Some};
    ghost use Rattle.lines.specs.Answers.{row_fault_text};

    ghost output = { λ e. Some (row_fault_text e) };

    fn fmt<W: fmt::Write>(&self, f: &mut fmt::Formatter<W>) -> fmt::Result {
        f.write_str(match self {
            RowFault::WontFit => "a number does not fit its column",
            RowFault::NoMemory => "no memory for the answers",
        })
    }
}

impl Error for RowFault {}

// The bytes of an answer line, if each number fits its column. A range for each column: after chunks_exact_mut nothing is known
// of the bytes.
fn line_bytes(values: &[i64; 5]) -> Option<[u8; 51]>
    ensures { result ≡ (if all_fit values.now then Some (row_bytes values.now) else None) }
{
    let mut line = [b'\n'; 51];
    for (i, v) in values.iter().enumerate() {
        let column = write_column(*v)?;
        line[10 * i..10 * i + 10].copy_from_slice(&column);
    }
    Some(line)
}

// Adds an answer line with these numbers to `out`. A line that is not written leaves `out` as it was.
pub fn push_row(out: &mut Vec<u8>, values: [i64; 5]) -> Result<(), RowFault>
    ensures items { out.new.items ≡ (if is_ok result then out.old.items ++ row_bytes values else out.old.items) }
    ensures refused { (result ≡ Err WontFit) ↔ (all_fit values ≡ false) }
{
    let line = line_bytes(&values).ok_or(RowFault::WontFit)?;
    out.extend_from_slice(&line)?;
    Ok(())
}
