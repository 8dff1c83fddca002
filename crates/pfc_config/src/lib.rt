//! The directives of a cache: the lines of a site's configuration that begin with `pfc.`, taken or refused by line.
#![tactic(auto)]

mod config;
mod directive;
mod line;
mod mark;
mod refusal;
mod setting;
mod settings;
#[cfg(test)]
mod tests;
mod words;

pub use config::{Config, read_config};
pub use refusal::{ConfigRefusal, Kind};
