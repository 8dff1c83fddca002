ghost use Rattle.std.specs.Prelude.{◌≡◌, []};
ghost use Rattle.pfc_log.specs.Counts.{counts_of, one_more};

use crate::entry::Entry;

/// What a log counts, one number for each line of the statistics that is counted from logs. Each stays at `2^64 - 1`
/// once it stands there. `hit`, `missed` and `bypassed` are bytes; the others are entries.
#[derive(Clone, Copy, Debug, PartialEq, Eq)]
pub struct Counts {
    pub opens: u64,
    pub reads: u64,
    pub hit: u64,
    pub missed: u64,
    pub bypassed: u64,
    pub joined: u64,
    pub fetched: u64,
    pub prefetched: u64,
    pub failed: u64,
    pub written: u64,
    pub dropped: u64,
    pub synced: u64,
    pub claimed: u64,
}

impl Counts {
    /// The counts of a log without entries.
    pub fn none() -> Counts
        ensures { result ≡ counts_of [] }
    {
        Counts {
            opens: 0,
            reads: 0,
            hit: 0,
            missed: 0,
            bypassed: 0,
            joined: 0,
            fetched: 0,
            prefetched: 0,
            failed: 0,
            written: 0,
            dropped: 0,
            synced: 0,
            claimed: 0,
        }
    }

    /// The counts after one more entry. `prefetched` says whether it landed a flight of client 0.
    pub(crate) fn with(self, entry: Entry, prefetched: bool) -> Counts
        ensures { result ≡ one_more self entry prefetched }
    {
        match entry {
            Entry::Opened { client: _ } => Counts {
                opens: self.opens.saturating_add(1),
                ..self
            },
            Entry::Served { client: _, served } => Counts {
                reads: self.reads.saturating_add(1),
                hit: self.hit.saturating_add(served.hit),
                missed: self.missed.saturating_add(served.missed),
                bypassed: self.bypassed.saturating_add(served.bypassed),
                ..self
            },
            Entry::Join { .. } => Counts {
                joined: self.joined.saturating_add(1),
                ..self
            },
            Entry::Landed { ticket: _ } => Counts {
                fetched: self.fetched.saturating_add(1),
                prefetched: self.prefetched.saturating_add(u64::from(prefetched)),
                ..self
            },
            Entry::Failed { .. } => Counts {
                failed: self.failed.saturating_add(1),
                ..self
            },
            Entry::Wrote { block: _ } => Counts {
                written: self.written.saturating_add(1),
                ..self
            },
            Entry::Dropped { .. } => Counts {
                dropped: self.dropped.saturating_add(1),
                ..self
            },
            Entry::Synced => Counts {
                synced: self.synced.saturating_add(1),
                ..self
            },
            Entry::Claimed { .. } => Counts {
                claimed: self.claimed.saturating_add(1),
                ..self
            },
            _ => self,
        }
    }
}
