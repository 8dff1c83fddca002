//! Volumes of files that are to go: the main file is taken away first, and then the data.
#![tactic(auto)]

mod wiped;

pub use wiped::{Wiped, wipe};

#[cfg(test)]
mod tests;
