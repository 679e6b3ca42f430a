// The store: its calls over lent tables, one by one and as a list.
#![tactic(auto)]

pub use heap::{rows, seen, sizes, stepped};

pub mod call;
pub mod calling;
pub mod run;
pub mod store;
