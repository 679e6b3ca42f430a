// What stands after the blanks of a column.
ghost use Rattle.std.specs.Prelude.{◌≤◌, length};

use crate::column::Column;

// Ten bytes at most.
#[derive(Clone, Copy)]
pub(crate) struct Text<'a> {
    pub(crate) bytes: &'a [u8],
    ghost short: { length bytes.now ≤ 10 },
}

impl<'a> Text<'a> {
    ghost use Rattle.std.specs.Prelude.{◌≡◌, ◌^◌, ◌<◌, IfSome};
    ghost use Rattle.lines.specs.Columns.{digits_after, natural, positive, negative, justified};

    // The number that the bytes write if each is a digit; no bytes write 0.
    fn digits_value(self) -> Option<u64>
        ensures value { result ≡ digits_after 0 self.entry.bytes.now }
        ensures small { IfSome result (λ n. n < 10 ^ 10) }
    {
        let mut n: u64 = 0;
        for d in self.bytes {
            if !d.is_ascii_digit() {
                return None;
            }
            n = n * 10 + u64::from(*d - b'0');
        }
        Some(n)
    }

    // The number that the bytes write without a sign: one digit at least, and no zero in front of another digit.
    fn natural(self) -> Option<u64>
        ensures value { result ≡ natural self.entry.bytes.now }
        ensures small { IfSome result (λ n. n < 10 ^ 10) }
    {
        match self.bytes {
            [] | [b'0', _, ..] => None,
            _ => self.digits_value(),
        }
    }

    // A column with these digits.
    fn positive(self) -> Column
        ensures { result ≡ positive (natural self.entry.bytes.now) }
    {
        self.natural()
            .map_or(Column::NoNumber, |n| Column::Number(n.cast_signed()))
    }

    // A column with a minus and these digits. A match, since −0 is no number.
    fn negative(self) -> Column
        ensures { result ≡ negative (natural self.entry.bytes.now) }
    {
        match self.natural() {
            None | Some(0) => Column::NoNumber,
            Some(n) => Column::Number(-n.cast_signed()),
        }
    }

    // A column with this text after the blanks.
    pub(crate) fn column(self) -> Column
        ensures { result ≡ justified self.entry.bytes.now }
    {
        match self.bytes {
            [] => Column::Blank,
            [b'-', digits @ ..] => Text { bytes: digits }.negative(),
            _ => self.positive(),
        }
    }
}
