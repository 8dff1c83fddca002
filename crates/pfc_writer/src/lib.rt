//! How landed blocks come to disk in a run on one thread: the queue of their jobs, the writers, and the turn of each.
#![tactic(auto)]

mod queue;
#[cfg(test)]
mod tests;
mod turn;
mod writer;

pub use queue::WriteQueue;
pub use turn::write_turn;
pub use writer::{Outcome, Phase, Writer};
