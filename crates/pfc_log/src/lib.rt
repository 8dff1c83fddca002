//! What the core of a file writes down: entries, the views that read them, and which logs are lawful.
#![tactic(auto)]

mod counts;
mod entry;
mod laws;
mod log;
mod runs;
mod start;
#[cfg(test)]
mod tests;
mod text;
mod uncaching;

pub use counts::Counts;
pub use entry::{DropCause, Entry, Fell, Mark, Served, Spot, Stranger, Uncached, Way};
pub use laws::{
    direct_reads_are_bounded, lawful_growth, one_flight_at_a_time, owners_stay, places_read_back,
    sets_read_back, tallies_grow, tickets_are_once, uncached_logs,
};
pub use log::FileLog;
pub use runs::{push_runs, push_set};
pub use start::Start;
pub use text::{push_entry, push_line, push_log};
pub use uncaching::{MOST_BLOCKS, uncached_cause};
