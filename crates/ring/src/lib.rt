// The ring of slots: four arcs in lent tables.
#![tactic(auto)]

pub mod arcs;
pub mod ring;
mod tables;
#[cfg(test)]
mod tests;
