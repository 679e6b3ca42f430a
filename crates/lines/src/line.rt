// Where lines end, and which lines are good.
ghost use Rattle.std.specs.Prelude.{◌≡◌, ◌≤◌, length, ◌==◌};
ghost use Rattle.std.specs.List.{position_or_len};
ghost use Rattle.std.specs.Option.{option_map};
ghost use Rattle.lines.specs.Lines.{line_end, good_line, printable, FirstLine, LineLaws};

// How many bytes stand before the first newline, or at all where there is none.
fn line_len(input: &[u8]) -> usize
    ensures value { result ≡ position_or_len (λ b. b == 10) input.now }
    ensures within { result ≤ length input.now }
{
    input
        .iter()
        .position(|b| *b == b'\n')
        .unwrap_or(input.len())
}

// The index of the first newline at or after `from`, else the length of the input.
#[tactic(auto, using(crate::proofs::Lines::line_laws), unfolding(crate::specs::Lines::line_end))]
pub fn line_end(input: &[u8], from: usize) -> usize
    ensures value { result ≡ line_end input.now from }
    ensures within { result ≤ length input.now }
    ensures onward { from ≤ length input.now → from ≤ result }
    ensures laws { LineLaws }
{
    let start = from.min(input.len());
    start + line_len(&input[start..])
}

// The first line of an input and what follows its newline, or nothing where the input is empty.
#[tactic(auto, using(crate::proofs::Lines::first_line, crate::proofs::Lines::no_line))]
pub fn split_line(input: &[u8]) -> Option<(&[u8], &[u8])>
    ensures { FirstLine input.now (option_map (λ parts. (parts.0.now, parts.1.now)) result) }
{
    if input.is_empty() {
        return None;
    }
    let end = line_len(input);
    let next = (end + 1).min(input.len());
    Some((&input[..end], &input[next..]))
}

// Whether each byte is one of 32 to 126.
fn is_printable(bytes: &[u8]) -> bool
    ensures { result ≡ printable bytes.now }
{
    bytes.iter().all(|b| (b' '..=b'~').contains(b))
}

// Whether a line has 36 bytes, each one of 32 to 126.
pub fn is_good_line(line: &[u8]) -> bool
    ensures { result ≡ good_line line.now }
{
    line.len() == 36 && is_printable(line)
}
