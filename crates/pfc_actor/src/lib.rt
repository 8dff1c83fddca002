//! The actors of a run: a client with its request at work, each step on one core.
#![tactic(auto)]

mod backing;
mod book;
mod client;
mod loading;
mod opening;
mod reading;
mod stage;
mod taking;
mod volume;

pub use backing::{Backing, Standing};
pub use book::Book;
pub use client::{Client, Place};
pub use stage::{Stage, Wanted};

#[cfg(test)]
mod tests;
