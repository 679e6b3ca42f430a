// Rows of the forwarding table and of the note table.

// A row serves two tables, so that a caller lends one. Row p has the slot to which the record of nursery place p was copied, if it was; row i has the slot that was taken as
// the i-th, from 0.
#[derive(Clone, Copy, PartialEq, Eq, Debug, Default)]
pub struct Forward {
    pub target: Option<u32>,
    pub copied: u32,
}

// Row i has the slot that was noted as the i-th, from 0; row q has that number i of slot q, if it is noted.
#[derive(Clone, Copy, PartialEq, Eq, Debug, Default)]
pub struct Note {
    pub slot: u32,
    pub index: u32,
}
