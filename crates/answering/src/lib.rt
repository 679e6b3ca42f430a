// Answering a sheet, whatever its commands: its lines one after the other, made as requests of a store, and their answers.
#![tactic(auto)]

pub mod fault;
pub mod program;
mod row;
pub mod run;
pub mod seen;
pub mod session;
pub mod sheet;
pub mod values;
