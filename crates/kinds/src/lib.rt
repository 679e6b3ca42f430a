// What a store is opened for: kinds of records and write barriers; and why the store layer refuses.
#![tactic(auto)]

pub mod barrier;
pub mod dose;
pub mod fault;
pub mod kind;
pub mod pair;
#[cfg(test)]
mod tests;
pub mod weighed;
