//! What one file has on disk: its blocks and the cinfo that claims them, where every pair that a crash leaves is sound.
#![tactic(auto)]

mod bare;
mod broken;
mod data;
mod found;
mod info;
mod open;
mod store;
mod volume;

pub use bare::{Bare, Stripped, strip};
pub use broken::{
    Broken, InfoPutRefusal, Put, ReadRefusal, SurveyRefusal, SyncRefusal, WriteRefusal,
};
pub use data::DataHalf;
pub use found::{Found, survey};
pub use info::InfoHalf;
pub use open::OpenRefusal;
pub use store::{FileStore, Unjoined, halves_stay_sound, join};

#[cfg(test)]
mod tests;
