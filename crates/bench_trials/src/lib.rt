// Runs and benches from outside: graphs read from bytes, what their rate answers and leaves, and benches over piles of policies.
#![tactic(auto)]

#[cfg(test)]
mod benches;
#[cfg(test)]
mod calls;
#[cfg(test)]
mod files;
#[cfg(test)]
mod rating;
