//! The outside in real folders and on standard output, which counts its faults and tells nothing of its bytes.
#![tactic(auto)]

mod clock;
mod data;
mod depot;
mod fault;
mod folder;
mod host;
mod info;
mod link;
mod paths;
mod place;
mod source;
mod stdout;
mod walk;
mod world;

pub use clock::WallClock;
pub use data::FolderData;
pub use depot::FolderDepot;
pub use host::FolderHost;
pub use info::FolderInfo;
pub use link::FolderLink;
pub use source::FileSource;
pub use stdout::StdSink;
pub use world::FolderWorld;

#[cfg(test)]
mod tests;
