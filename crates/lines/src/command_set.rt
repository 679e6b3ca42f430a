// Sets of commands, each with its text in six columns.
ghost use Rattle.std.specs.Prelude.{◌≡◌, true};
ghost use Rattle.lines.specs.CommandSets.{Commands, command_in, are_texts};

// The commands that a sheet has.
pub trait CommandSet: Copy {
    ghost commands: { Commands Self };

    // The text of each command in six columns.
    fn table<'a>() -> &'a [([u8; 6], Self)]
        ensures { result.now ≡ commands.table };

    // How many of the three fields the command uses; they are the first ones.
    fn field_count(self) -> usize
        ensures { result ≡ commands.field_count self };

    // The command with this text, which fills six columns.
    final fn parse(name: &[u8]) -> Option<Self>
        ensures { result ≡ command_in commands.table name.now }
    {
        command_in(Self::table(), name)
    }

    // Each text is six printable bytes.
    ghost texts: { are_texts commands.table ≡ true };
}

// The command of the first row with this text.
pub fn command_in<C: Copy>(rows: &[([u8; 6], C)], name: &[u8]) -> Option<C>
    ensures { result ≡ command_in rows.now name.now }
{
    rows.iter()
        .find(|(text, _)| name == text.as_slice())
        .map(|(_, command)| *command)
}
