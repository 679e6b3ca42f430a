// The sheet of pairs: its lines made as calls on a store of pairs, and their answers.
#![tactic(auto)]

mod calls;
pub mod run;
#[cfg(test)]
mod run_tests;

pub use answering::fault;
