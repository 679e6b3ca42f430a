// Numbers as indices.
ghost use Rattle.std.specs.Prelude.{◌≡◌};
ghost use Rattle.registers.specs.Answers.{index_in};

// The index that a number is, if it is below n.
pub fn index_below(v: i64, n: usize) -> Option<usize>
    ensures { result ≡ index_in n v }
{
    usize::try_from(v).ok().filter(|i| *i < n)
}
