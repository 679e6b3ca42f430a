// The registers of a store over a lent table, with the calls that need no record. The sheet runs on them.
#![tactic(auto)]

pub mod heap;
pub mod index;
pub mod seen;
pub mod sizes;
pub mod store;
pub mod table;
#[cfg(test)]
mod tests;
