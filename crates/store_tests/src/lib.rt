#![tactic(auto)]

// The store on examples.
#[cfg(test)]
mod dose_tests;
#[cfg(test)]
mod pair_and_dose_tests;
#[cfg(test)]
mod run_tests;
#[cfg(test)]
mod tests;
