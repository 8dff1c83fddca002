//! The turns of a sync: first what was written is made to stay, then a cinfo is put that claims it.
#![tactic(auto)]

mod turn;
mod work;

pub use turn::{data_turn, info_turn, turn_by};
pub use work::{SyncPhase, SyncWork};
