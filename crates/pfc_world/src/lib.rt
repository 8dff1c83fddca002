//! The outside as traits: the world's files, links to them, what is known of a file, sources, sinks and hosts, disks, depots and clocks.
#![tactic(auto)]

mod clock;
mod depot;
mod device;
mod host;
mod known;
mod origin;
mod refusal;
mod text;

pub use clock::Clock;
pub use depot::{Depot, Taken};
pub use device::{DataDev, InfoDev, MAIN_READ_MOST};
pub use host::{Host, Sink, Source, Sources};
pub use known::{Block, Known};
pub use origin::{Origin, World};
pub use refusal::{Fault, Refusal};
pub use text::{read_text, write_text};
