// The rules of the record store, without any code of the store. The rules, the record book and the main promise stand in
// specs/, their proof in proofs/. The functions here are small: whether a barrier is lawful, how many steps a cycle may
// take and how many slots a store needs, and which refusals an open store can answer.
#![tactic(auto)]

pub mod barrier;
pub mod planning;
pub mod refusal;
#[cfg(test)]
mod tests;
