// Where a record lies: a place of the nursery or a slot of the old area.

#[derive(Clone, Copy, PartialEq, Eq, Debug)]
pub enum Place {
    Young(u32),
    Old(u32),
}
