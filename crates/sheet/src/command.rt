// The commands of a sheet of registers. An enum of its own, since the commands on records are unknown to this sheet.
ghost use Rattle.std.specs.Prelude.{refl};
ghost use Rattle.sheet.specs.Commands.{commands};

use lines::command_set::CommandSet;

#[derive(Clone, Copy, PartialEq, Eq, Debug)]
pub enum Command {
    OpenSnapshot,
    OpenUpdate,
    Load,
    Empty,
    Copy,
    Same,
    Look,
}

// The text of each command in six columns.
const COMMANDS: &[([u8; 6], Command)] = &[
    (*b"opens ", Command::OpenSnapshot),
    (*b"openu ", Command::OpenUpdate),
    (*b"load  ", Command::Load),
    (*b"empty ", Command::Empty),
    (*b"copy  ", Command::Copy),
    (*b"same  ", Command::Same),
    (*b"look  ", Command::Look),
];

impl CommandSet for Command {
    ghost commands = { commands };

    fn table<'a>() -> &'a [([u8; 6], Command)] {
        COMMANDS
    }

    fn field_count(self) -> usize {
        match self {
            Command::OpenSnapshot | Command::OpenUpdate => 3,
            Command::Load | Command::Copy | Command::Same => 2,
            Command::Empty | Command::Look => 1,
        }
    }

    ghost texts = { refl };
}
