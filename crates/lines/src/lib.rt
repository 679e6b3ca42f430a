// The lines of a sheet: what a line asks for, in fixed columns, and answer lines.
#![tactic(auto)]

pub mod answer;
pub mod column;
pub mod command;
pub mod command_set;
pub mod line;
pub mod request;
#[cfg(test)]
mod tests;
mod text;
