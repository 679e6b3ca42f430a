// Why the word layer refuses.
ghost use Rattle.std.specs.Prelude.{◌≡◌};
ghost use Rattle.words.specs.Refusals.{word_refusal};

use std::error::Error;
use std::fmt;

// The value of a variant is the refusal's number.
#[derive(Clone, Copy, PartialEq, Eq, Debug)]
pub enum WordFault {
    // The number lies outside −536,870,912 to 536,870,911.
    NumberOutOfRange = 4,
}

impl WordFault {
    // The refusal's number: the variant's value, which `as` alone gives.
    pub fn number(self) -> u32
        ensures { result ≡ word_refusal self }
    {
        self as u32
    }
}

impl fmt::Display for WordFault {
    ghost use Rattle.std.specs.Prelude.{Some};
    ghost use Rattle.words.specs.Refusals.{word_refusal_text};

    ghost output = { λ e. Some (word_refusal_text e) };

    fn fmt<W: fmt::Write>(&self, f: &mut fmt::Formatter<W>) -> fmt::Result {
        match self {
            WordFault::NumberOutOfRange => f.write_str(
                "the number is outside -536870912 to 536870911",
            ),
        }
    }
}

impl Error for WordFault {}
