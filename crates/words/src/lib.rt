// What a 32-bit word of a register or a link means: nothing, a number, a nursery place or an old slot.
#![tactic(auto)]

pub mod fault;
pub mod place;
#[cfg(test)]
mod tests;
pub mod word;
