// What a register shows, as values of an answer.
ghost use Rattle.std.specs.Prelude.{◌≡◌, true, ◌∷◌, pos};
ghost use Rattle.registers.specs.Answers.{seen_values, seen_in_range};
ghost use Rattle.lines.specs.Answers.{all_fit};
ghost use Rattle.answering.specs.Sheets.{padded};

use registers::seen::Seen;

// The four numbers: 0 for nothing, 1 and the number, 2 for a record. A function and no From: not every Seen fits the columns of
// Values, but each that a register can show does.
pub fn numbers_of(seen: Seen) -> [i64; 4]
    ensures value { pos 0 ∷ result ≡ padded (seen_values seen) }
    ensures fit { seen_in_range seen ≡ true → all_fit result ≡ true }
{
    match seen {
        Seen::Nothing => [0, 0, 0, 0],
        Seen::Number(v) => [1, i64::from(v), 0, 0],
        Seen::Record => [2, 0, 0, 0],
    }
}
