// What a register holds, as a caller may see it.
ghost use Rattle.std.specs.Prelude.{◌≡◌};
ghost use Rattle.registers.specs.Answers.{seen_as};

use words::word::Word;

#[derive(Clone, Copy, PartialEq, Eq, Debug)]
pub enum Seen {
    Nothing,
    Number(i32),
    Record,
}

// What a word's meaning is to a caller: of a record only that it is one.
impl From<Word> for Seen {
    ghost from_gives = { λ w r. r ≡ seen_as w };

    fn from(w: Word) -> Seen {
        match w {
            Word::Nothing => Seen::Nothing,
            Word::Number(v) => Seen::Number(v),
            Word::Nursery(_) | Word::Slot(_) => Seen::Record,
        }
    }
}
