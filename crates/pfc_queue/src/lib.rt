//! A bounded queue that threads share, first in first out. Each pass is seen as what it put and what it took.
#![tactic(auto)]

mod protocol;
mod queue;
#[cfg(test)]
mod tests;

pub use protocol::{Hand, nothing_is_lost};
pub use queue::{Full, Queue, QueuePass};
