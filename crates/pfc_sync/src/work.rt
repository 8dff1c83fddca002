// What the sync of a run is at.
use pfc_core::Turn;

/// How far the sync has come with the core that it is at.
#[derive(Clone, Copy, Debug, PartialEq, Eq)]
pub enum SyncPhase {
    /// The store was lent for this turn.
    Lent(Turn),
    /// The turn is over, and the loan is to be given back. Then the other turn follows, or none.
    Returning { follows: bool },
    /// The data is on disk for good, and the store is to be lent for the put of the cinfo.
    Between,
}

impl SyncPhase {
    /// The phase after a turn, which went well or didn't.
    pub fn after(turn: Turn, went_well: bool) -> SyncPhase {
        match turn {
            Turn::Data => SyncPhase::Returning { follows: went_well },
            Turn::Info => SyncPhase::Returning { follows: false },
        }
    }
}

/// The core that the sync is at, by its place, and how far it has come.
#[derive(Clone, Copy, Debug, PartialEq, Eq)]
pub struct SyncWork {
    pub core: usize,
    pub phase: SyncPhase,
}
