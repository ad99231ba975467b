#![tactic(auto)]

mod blink;
#[cfg(test)]
mod piles;
#[cfg(test)]
mod refusals;
#[cfg(test)]
mod runs;
#[cfg(test)]
mod shown;

pub use blink::Blink;
