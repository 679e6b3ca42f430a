// Which refusals an open store can answer.
ghost use Rattle.std.specs.Prelude.{◌≡◌, true, ◌↔◌};
ghost use Rattle.rules.specs.Statements.{may_refuse, Answered, NotesNeverRunOut, ClosedStoresAgree};

// The refusals of the calls on an open store, but for the one that never comes.
fn is_listed(number: u32) -> bool
    ensures { result ≡ may_refuse number }
{
    matches!(number, 3..=6 | 21..=23)
}

// Whether some call of some run is refused with this number. A closed store refuses every call with 20, and no store
// lacks a note. A number, and no case of an enum: the rules know refusals by their numbers, and any number may be asked.
pub fn may_refuse(number: u32) -> bool
    ensures value { result ≡ may_refuse number }
    ensures exact { (result ≡ true) ↔ Answered number }
    ensures notes { NotesNeverRunOut }
    ensures closed { ClosedStoresAgree }
{
    is_listed(number)
}
