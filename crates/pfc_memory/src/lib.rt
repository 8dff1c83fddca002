//! The outside in memory: worlds, links, hosts, sources, sinks, devices and depots with stated contents, which fail where a
//! list says so, and clocks.
#![tactic(auto)]

mod calls;
mod clock;
mod data;
mod depot;
mod history;
mod host;
mod info;
mod lay;
mod link;
mod main_file;
mod numbers;
mod pick;
mod place;
mod rows;
mod texts;
mod volume;

pub use clock::ListClock;
pub use data::MemoryData;
pub use depot::MemoryDepot;
pub use host::MemoryHost;
pub use info::MemoryInfo;
pub use link::MemoryLink;
pub use pick::Pick;
pub use rows::{MemoryWorld, RowWorld};
pub use texts::{VecSink, VecSource};

#[cfg(test)]
mod device_tests;
#[cfg(test)]
mod tests;
