// The commands of a sheet.
ghost use Rattle.std.specs.Prelude.{refl};
ghost use Rattle.lines.specs.Commands.{commands};

use crate::command_set::CommandSet;

#[derive(Clone, Copy, PartialEq, Eq, Debug)]
pub enum Command {
    OpenSnapshot,
    OpenUpdate,
    Load,
    Empty,
    Copy,
    Make,
    Read,
    Write,
    Same,
    Look,
    Step,
    Full,
    Tell,
}

// The text of each command in six columns.
const COMMANDS: &[([u8; 6], Command)] = &[
    (*b"opens ", Command::OpenSnapshot),
    (*b"openu ", Command::OpenUpdate),
    (*b"load  ", Command::Load),
    (*b"empty ", Command::Empty),
    (*b"copy  ", Command::Copy),
    (*b"make  ", Command::Make),
    (*b"read  ", Command::Read),
    (*b"write ", Command::Write),
    (*b"same  ", Command::Same),
    (*b"look  ", Command::Look),
    (*b"step  ", Command::Step),
    (*b"full  ", Command::Full),
    (*b"tell  ", Command::Tell),
];

impl CommandSet for Command {
    ghost commands = { commands };

    fn table<'a>() -> &'a [([u8; 6], Command)] {
        COMMANDS
    }

    fn field_count(self) -> usize {
        match self {
            Command::OpenSnapshot | Command::OpenUpdate => 3,
            Command::Make | Command::Read | Command::Write => 3,
            Command::Load | Command::Copy | Command::Same => 2,
            Command::Empty | Command::Look => 1,
            Command::Step | Command::Full | Command::Tell => 0,
        }
    }

    ghost texts = { refl };
}
