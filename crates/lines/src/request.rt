// What a line asks for, or why it is refused.
ghost use Rattle.std.specs.Prelude.{◌≡◌};
ghost use Rattle.lines.specs.Columns.{column};
ghost use Rattle.lines.specs.Requests.{format_refusal, format_column, field_read, parsed, TakenAsSpelled};

use crate::column::{Column, read_column};
use crate::command_set::CommandSet;
use crate::line::is_good_line;
use std::error::Error;
use std::fmt;

// Why a line is refused.
#[derive(Clone, Copy, PartialEq, Eq, Debug)]
pub enum FormatFault {
    // The line has not 36 bytes of 32 to 126.
    NotALine,
    // The first six columns are no command.
    UnknownCommand,
    // This field, 1 to 3, is used and no number, or not used and not blank.
    BadField(u8),
}

impl FormatFault {
    // The number of the refusal. A match, since a case carries the field.
    pub fn refusal(self) -> u8
        ensures { result ≡ format_refusal self }
    {
        match self {
            FormatFault::NotALine => 31,
            FormatFault::UnknownCommand => 32,
            FormatFault::BadField(_) => 33,
        }
    }

    // The first field that offends, 1 to 3, or 0 where none does: the number that an answer line has, so that it is no Option.
    pub fn column(self) -> u8
        ensures { result ≡ format_column self }
    {
        match self {
            FormatFault::NotALine | FormatFault::UnknownCommand => 0,
            FormatFault::BadField(k) => k,
        }
    }
}

impl fmt::Display for FormatFault {
    ghost use Rattle.std.specs.Prelude.{Some};
    ghost use Rattle.lines.specs.Requests.{format_text};

    ghost output = { λ e. Some (format_text e) };

    fn fmt<W: fmt::Write>(&self, f: &mut fmt::Formatter<W>) -> fmt::Result {
        match self {
            FormatFault::NotALine => f.write_str("the line is not 36 bytes of 32 to 126"),
            FormatFault::UnknownCommand => f.write_str("the command is unknown"),
            FormatFault::BadField(k) => write!(
                f,
                "field {k} is no number, or not used and not blank"
            ),
        }
    }
}

impl Error for FormatFault {}

// A command with its fields; a field that it does not use is 0.
#[derive(Clone, Copy, PartialEq, Eq, Debug)]
pub struct Request<C> {
    pub command: C,
    pub a: i64,
    pub b: i64,
    pub c: i64,
}

// Field k of a command that uses the first `used` fields.
fn read_field(row: &[u8], used: usize, k: u8) -> Result<i64, FormatFault>
    ensures { result ≡ field_read used k (column row.now) }
{
    match (read_column(row), usize::from(k) <= used) {
        (Column::Number(v), true) => Ok(v),
        (Column::Blank, false) => Ok(0),
        _ => Err(FormatFault::BadField(k)),
    }
}

// The request of a line, or the first fault of the line.
#[tactic(auto, unfolding(crate::specs::Requests::parsed, crate::specs::CommandSets::command_named))]
pub fn parse_line<C: CommandSet>(line: &[u8]) -> Result<Request<C>, FormatFault>
    ensures value { result ≡ parsed C.commands line.now }
    ensures spelled { TakenAsSpelled C.commands }
{
    if !is_good_line(line) {
        return Err(FormatFault::NotALine);
    }
    let command = C::parse(&line[..6]).ok_or(FormatFault::UnknownCommand)?;
    let used = command.field_count();
    let a = read_field(&line[6..16], used, 1)?;
    let b = read_field(&line[16..26], used, 2)?;
    let c = read_field(&line[26..36], used, 3)?;
    Ok(Request { command, a, b, c })
}
