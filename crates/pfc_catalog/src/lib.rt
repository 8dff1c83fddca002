//! The catalog of a cache: which files it has, who holds each, how much of the disk they take, and which is purged next.
#![tactic(auto)]

mod catalog;
mod entry;
mod files;
mod laws;
mod order;
#[cfg(test)]
mod scan_tests;
mod scanning;
mod shells;
#[cfg(test)]
mod tests;

pub use catalog::{Catalog, Entered, Victim, plan};
pub use entry::{Entry, State};
pub use laws::a_put_changes_one_file;
pub use scanning::{ScanRefusal, scan};
pub use shells::SHELLS;
