//! The statistics of a run: what its logs count together, and their text.
#![tactic(auto)]

mod tally;
#[cfg(test)]
mod tests;

pub use tally::Tally;
