// The five numbers of an answer to a line.
ghost use Rattle.std.specs.Prelude.{◌≡◌, true};
ghost use Rattle.lines.specs.Answers.{all_fit};
ghost use Rattle.answering.specs.Runs.{row_of_result};

use crate::fault::SheetFault;
use crate::values::Values;

// 0 and the values, or the refusal with the number of the line.
pub(crate) fn row(line: u32, told: Result<Values, SheetFault>) -> [i64; 5]
    ensures value { result ≡ row_of_result line told }
    ensures fit { all_fit result ≡ true }
{
    match told {
        Ok(values) => {
            let [a, b, c, d] = values.numbers;
            [0, a, b, c, d]
        }
        Err(e) => [
            i64::from(e.number()),
            i64::from(line),
            i64::from(e.layer()),
            i64::from(e.column()),
            0,
        ],
    }
}
