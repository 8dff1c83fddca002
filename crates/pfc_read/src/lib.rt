//! One read of pieces of a file: which parts they have, what is to be done for each, and the reply.
#![tactic(auto)]

mod action;
mod draft;
mod op;
mod segment;
#[cfg(test)]
mod tests;

pub use action::{Action, Answer, Done, Saw};
pub use op::ReadOp;
