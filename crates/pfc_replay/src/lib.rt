//! The replay: requests of clients and their steps in an order that a schedule names, and the theorem on what is reported.
#![tactic(auto)]

mod outcome;
mod play;
mod replay;
mod words;
mod write;

pub use replay::run_replay;

#[cfg(test)]
mod disk_cases;
#[cfg(test)]
mod disk_models;
#[cfg(test)]
mod outside;
#[cfg(test)]
mod record_cases;
#[cfg(test)]
mod restart_cases;
#[cfg(test)]
mod shared_cases;
#[cfg(test)]
mod tests;
#[cfg(test)]
mod vector_cases;
