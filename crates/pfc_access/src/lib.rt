//! Access records: what a cinfo keeps of the accesses to its file.
#![tactic(auto)]

mod records;
#[cfg(test)]
mod tests;

pub use records::{attach, detach, last_access, merge_oldest};
