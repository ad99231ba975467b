// The crates used from outside, on examples.
#![tactic(auto)]

#[cfg(test)]
mod files;
#[cfg(test)]
mod rows;
pub mod sight;
