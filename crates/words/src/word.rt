// Words and their meanings.
ghost use Rattle.std.specs.Prelude.{◌≡◌, ◌+◌, ◌*◌, ◌<◌};
ghost use Rattle.words.specs.Words.{below_2^30, nursery_word_of, slot_word_of, number_word_of, meaning, encoded, place_meant, place_of, word_number};
ghost use Rattle.words.specs.Laws.{ReadBack, WrittenBack, WordsDiffer, OneMeaning, AsStated};
ghost use Rattle.words.specs.Cases.{WordCases};

use crate::fault::WordFault;
use crate::place::Place;

// What a word means.
#[derive(Clone, Copy, PartialEq, Eq, Debug)]
pub enum Word {
    Nothing,
    Number(i32),
    Nursery(u32),
    Slot(u32),
}

// The least number that has a word.
const LEAST: i32 = -536_870_912;

// The greatest number that has a word.
const GREATEST: i32 = 536_870_911;

// A word holds its number modulo this.
const MODULUS: i32 = 1_073_741_824;

// The remainder modulo 4 of a number's word. A number and no case of an enum, as those below: `parse` matches on remainders.
const NUMBER: u32 = 1;

// The remainder modulo 4 of a nursery place's word.
const NURSERY: u32 = 2;

// The remainder modulo 4 of an old slot's word.
const SLOT: u32 = 3;

// The word 4n + tag; from 2^30 on a number has none.
fn tagged(n: u32, tag: u32) -> Option<u32>
    requires { tag < 4 }
    ensures { result ≡ below_2^30 n (4 * n + tag) }
{
    Some(n.checked_mul(4)? + tag)
}

// The word of a number, or the fault where the number is outside the word range.
pub fn number_word(v: i64) -> Result<u32, WordFault>
    ensures { result ≡ number_word_of v }
{
    let n = i32::try_from(v)
        .ok()
        .filter(|n| (LEAST..=GREATEST).contains(n))
        .ok_or(WordFault::NumberOutOfRange)?;
    Ok(4 * n.rem_euclid(MODULUS).cast_unsigned() + NUMBER)
}

// The word of a nursery place; a place from 2^30 on has none.
pub fn nursery_word(p: u32) -> Option<u32>
    ensures { result ≡ nursery_word_of p }
{
    tagged(p, NURSERY)
}

// The word of an old slot; a slot from 2^30 on has none.
pub fn slot_word(q: u32) -> Option<u32>
    ensures { result ≡ slot_word_of q }
{
    tagged(q, SLOT)
}

// The number that a word with remainder 1 means.
fn number_in(w: u32) -> i32
    ensures { result ≡ word_number w }
{
    w.cast_signed() >> 2
}

// The place that a word leads to, if it is a record's.
pub fn place_of(w: u32) -> Option<Place>
    ensures { result ≡ place_of w }
{
    Word::parse(w)?.place()
}

impl Word {
    // What a 32-bit number means, if it is a word. An `Option`, here and in `encode`: a number that is no word is no fault,
    // and `TryFrom` would ask for an error type.
    pub fn parse(w: u32) -> Option<Word>
        ensures value { result ≡ meaning w }
        ensures as_stated { AsStated }
        ensures one_meaning { OneMeaning }
    {
        match w % 4 {
            NUMBER => Some(Word::Number(number_in(w))),
            NURSERY => Some(Word::Nursery(w / 4)),
            SLOT => Some(Word::Slot(w / 4)),
            _ => (w == 0).then_some(Word::Nothing),
        }
    }

    // The word of this meaning, if there is one; with the laws of words.
    pub fn encode(self) -> Option<u32>
        ensures value { result ≡ encoded self }
        ensures read_back { ReadBack }
        ensures written_back { WrittenBack }
        ensures words_differ { WordsDiffer }
        ensures cases { WordCases }
    {
        match self {
            Word::Nothing => Some(0),
            Word::Number(v) => number_word(i64::from(v)).ok(),
            Word::Nursery(p) => nursery_word(p),
            Word::Slot(q) => slot_word(q),
        }
    }

    // The place of the record that this meaning leads to, if it is a record's. Not `TryFrom`: the other meanings are no faults.
    pub fn place(self) -> Option<Place>
        ensures { result ≡ place_meant self }
    {
        match self {
            Word::Nothing | Word::Number(_) => None,
            Word::Nursery(p) => Some(Place::Young(p)),
            Word::Slot(q) => Some(Place::Old(q)),
        }
    }
}
