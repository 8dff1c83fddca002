// The head of a cinfo: when the file was made, how often it was accessed, and the accesses that are still on record.
ghost use Rattle.std.specs.Prelude.{◌≡◌, ◌≤◌, [], length, IfOk};

use pfc_base::Memory;
use std::alloc::Global;
use std::marker::Model;

/// One access to a file, from the attach of its first descriptor to the detach of its last, or several accesses that
/// were merged into one. Times are in seconds; `detach` is 0 while the access lasts. `hit`, `missed` and `bypassed`
/// are bytes, `ios` is a number of reads, and `merged` the number of accesses that were merged into this one.
#[derive(Clone, Copy, Debug, PartialEq, Eq)]
pub struct Record {
    pub attach: u64,
    pub detach: u64,
    pub ios: u32,
    pub duration: u32,
    pub merged: u32,
    pub hit: u64,
    pub missed: u64,
    pub bypassed: u64,
}

impl Model for Record {
    ghost use Rattle.pfc_base.specs.Cinfo as said;

    ghost Value = { said.Record };

    ghost view = { λ r. record { attach = r.attach; detach = r.detach; ios = r.ios; duration = r.duration; merged = r.merged; hit = r.hit; missed = r.missed; bypassed = r.bypassed } };

    ghost inverse = { λ r. record { attach = r.attach; detach = r.detach; ios = r.ios; duration = r.duration; merged = r.merged; hit = r.hit; missed = r.missed; bypassed = r.bypassed } };
}

/// A file of format version 4 has room for so many records.
pub const MOST_RECORDS: usize = 20;

/// The records of a head, the oldest first.
#[derive(Drop)]
pub struct Records {
    items: Vec<Record>,
}

impl Model for Records {
    ghost use Rattle.std.specs.Prelude.{List, length, ◌≤◌};
    ghost use Rattle.pfc_base.specs.Cinfo as said;

    ghost Value = { List said.Record };

    ghost view = { λ r. r.items.items };

    ghost invariant = { λ r. length r.items.items ≤ 20 };
}

impl Records {
    /// No record yet.
    pub fn new(alloc: Global) -> Records
        ensures { result ≡ [] }
    {
        Records {
            items: Vec::new(alloc),
        }
    }

    /// These records, without taking memory.
    pub fn from_vec(items: Vec<Record>) -> Records
        requires { length items.items ≤ MOST_RECORDS }
        ensures { result ≡ items.items }
    {
        Records { items }
    }

    /// The records as a vector, without taking memory.
    pub fn into_vec(self) -> Vec<Record>
        ensures records { result.items ≡ self }
        ensures most { length result.items ≤ MOST_RECORDS }
    {
        self.items
    }

    /// The records as a slice.
    pub fn as_slice(&self) -> &[Record]
        ensures records { result.now ≡ self.now }
        ensures most { length result.now ≤ MOST_RECORDS }
    {
        &self.items
    }
}

/// What is known of a file beside its blocks: the moment it was made in seconds, the number of its accesses, and the
/// records of the newest of them.
#[derive(Drop)]
pub struct Head {
    pub created: u64,
    pub accesses: u64,
    pub records: Records,
}

impl Model for Head {
    ghost use Rattle.pfc_base.specs.Cinfo as said;

    ghost Value = { said.Head };

    ghost view = { λ h. record { created = h.created; accesses = h.accesses; records = h.records } };
}

impl Head {
    /// An equal head.
    pub fn copy(&self, alloc: Global) -> Result<Head, Memory>
        ensures { IfOk result (λ head. head ≡ self.now) }
    {
        let items = Vec::from_slice(alloc, self.records.as_slice())?;
        Ok(Head {
            created: self.created,
            accesses: self.accesses,
            records: Records::from_vec(items),
        })
    }
}
