// Write barriers as tables of their answers.
ghost use Rattle.std.specs.Prelude.{◌≡◌, true, ◌↔◌};
ghost use Rattle.rules.specs.Rules.{Lawful};
ghost use Rattle.rules.specs.Barriers.{barrier_of, lawful_test};
ghost use Rattle.rules.specs.Statements.{KeepsPromise, NothingInUseIsTakenBack, TracingAlwaysEnds, TracingIsExact};

// What a barrier says: whether it rescans, and, for an unmarked and for a marked target, whether it names the
// overwritten word (old) and whether it names the new word.
#[derive(Clone, Copy, PartialEq, Eq, Debug, Default)]
pub struct BarrierTable {
    pub rescans: bool,
    pub old_unmarked: bool,
    pub old_marked: bool,
    pub new_unmarked: bool,
    pub new_marked: bool,
}

// It names the overwritten word for both targets, or it rescans and names the new word for a marked one.
fn names_enough(b: BarrierTable) -> bool
    ensures { result ≡ lawful_test (barrier_of b) }
{
    (b.old_unmarked && b.old_marked) || (b.rescans && b.new_marked)
}

// Whether a barrier is lawful. Under a lawful barrier nothing in use is ever taken back, and after a full collection the
// occupied slots hold exactly what tracing reaches.
pub fn is_lawful(b: BarrierTable) -> bool
    ensures value { result ≡ lawful_test (barrier_of b) }
    ensures law { (result ≡ true) ↔ Lawful (barrier_of b) }
    ensures safe { result ≡ true → KeepsPromise (barrier_of b) }
    ensures promise { NothingInUseIsTakenBack }
    ensures tracing_ends { TracingAlwaysEnds }
    ensures tracing_is_exact { TracingIsExact }
{
    names_enough(b)
}
