// Write barriers: what is shaded at a write into an old record while a cycle is open.
ghost use Rattle.std.specs.Prelude.{◌≡◌};
ghost use Rattle.rules.specs.Rules.{Barrier as Answers, Lawful, snapshot, update};
ghost use Rattle.kinds.specs.Barriers.{names_overwritten, names_new};
ghost use Rattle.std.proofs.Common.{rules};

// Which words of a write are shaded.
#[derive(Clone, Copy, PartialEq, Eq, Debug)]
pub enum Shades {
    Neither,
    Overwritten,
    New,
    Both,
}

// A barrier is a type; asked again, it says the same. Its law: it names the overwritten word for every target,
// or it rescans and names the new word for every marked target.
pub trait Barrier: Copy {
    ghost answers: { Answers };

    // Whether a step shades the words that it visits in registers and copied records while a cycle is open.
    fn rescans() -> bool
        ensures { result ≡ answers.rescans };

    // The words that it names at a write into a marked or an unmarked record.
    fn shades(marked: bool) -> Shades
        ensures overwritten { names_overwritten result ≡ answers.names_old marked }
        ensures new { names_new result ≡ answers.names_new marked };

    ghost lawful: { Lawful answers };
}

// Names the overwritten word of every write.
#[derive(Clone, Copy, Debug)]
pub struct Snapshot;

impl Barrier for Snapshot {
    ghost answers = { snapshot };

    ghost lawful = { Prim.search rules };

    fn rescans() -> bool {
        false
    }

    fn shades(_marked: bool) -> Shades {
        Shades::Overwritten
    }
}

// Rescans, and names the new word of a write into a marked record.
#[derive(Clone, Copy, Debug)]
pub struct Update;

impl Barrier for Update {
    ghost answers = { update };

    ghost lawful = { Prim.search rules };

    fn rescans() -> bool {
        true
    }

    fn shades(marked: bool) -> Shades {
        if marked { Shades::New } else { Shades::Neither }
    }
}
