//! The printer of cinfo files: the text of each, the words that ask for it, and the statuses.
#![tactic(auto)]

mod printing;
mod showing;
mod text;
mod words;

pub use printing::print;

#[cfg(test)]
mod tests;
