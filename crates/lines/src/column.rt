// A column of ten bytes: a base-ten number right-justified, or ten blanks.
ghost use Rattle.std.specs.Prelude.{◌≡◌, ◌-◌, ◌≤◌, ◌++◌, length, take, decimal};
ghost use Rattle.lines.specs.Columns.{blanks, column, fits_column, written, ColumnLaws};

use crate::text::Text;

// What a column holds. An enum of three cases: as a Result of an Option, a blank would be Ok(None) to its readers.
#[derive(Clone, Copy, PartialEq, Eq, Debug)]
pub enum Column {
    Blank,
    Number(i64),
    NoNumber,
}

// How many blanks stand at the front.
fn leading_blanks(row: &[u8]) -> usize
    ensures value { result ≡ blanks row.now }
    ensures within { result ≤ length row.now }
{
    row.iter().position(|b| *b != b' ').unwrap_or(row.len())
}

// What a row of ten bytes holds; a row of another length holds no number.
#[tactic(auto, using(crate::proofs::Columns::column_laws), unfolding(crate::specs::Columns::column))]
pub fn read_column(row: &[u8]) -> Column
    ensures value { result ≡ column row.now }
    ensures laws { ColumnLaws }
{
    if row.len() != 10 {
        return Column::NoNumber;
    }
    let text = Text {
        bytes: &row[leading_blanks(row)..],
    };
    text.column()
}

// Writes the digits of n to the end of the row, the last one first, and answers where the first one stands. A digit is below
// 10, so that the cast keeps it; a try_from would add a case that never comes. The loop is over indices, since after the reverse
// of an enumerated iter_mut nothing is known of the bytes; the 0 at the end is never reached, as the row has room for every digit.
fn write_digits(row: &mut [u8], n: u64) -> usize
    requires { length (decimal n) ≤ length row.old }
    ensures first { result ≡ length row.old - length (decimal n) }
    ensures after { row.new ≡ take (length row.old - length (decimal n)) row.old ++ decimal n }
{
    let mut rest = n;
    for at in (0..row.len()).rev() {
        row[at] = b'0' + (rest % 10) as u8;
        rest /= 10;
        if rest == 0 {
            return at;
        }
    }
    0
}

// Whether a number lies between −999,999,999 and 9,999,999,999.
fn is_in_range(v: i64) -> bool
    ensures { result ≡ fits_column v }
{
    (-999_999_999..=9_999_999_999).contains(&v)
}

// The row of a number, if it lies between −999,999,999 and 9,999,999,999.
pub fn write_column(v: i64) -> Option<[u8; 10]>
    ensures { result ≡ written v }
{
    if !is_in_range(v) {
        return None;
    }
    let mut row = [b' '; 10];
    let first = write_digits(&mut row, v.unsigned_abs());
    if v < 0 {
        row[first - 1] = b'-';
    }
    Some(row)
}
