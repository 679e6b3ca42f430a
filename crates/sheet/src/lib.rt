// The sheet of registers: its commands, one to a line, and their answers.
#![tactic(auto)]

mod calls;
pub mod command;
pub mod run;
#[cfg(test)]
mod run_tests;
#[cfg(test)]
mod tests;

pub use answering::fault;
pub use lines::{answer, column, line, request};
