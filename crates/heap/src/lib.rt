// The heap of a store: records in a nursery and an old area over lent tables, and the calls on them.
#![tactic(auto)]

pub use registers::{seen, sizes};

mod area;
mod evacuation;
pub mod heap;
pub mod rows;
pub mod stepped;
pub mod tally;
