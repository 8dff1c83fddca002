//! A memory limit that many threads draw on: one word counts the bytes of all seats, and a claim past the limit is refused.
#![tactic(auto)]

mod rule;
mod seat;
#[cfg(test)]
mod tests;

pub use rule::{View, within_limit};
pub use seat::{Budget, Full, Seat};
