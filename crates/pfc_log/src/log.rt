ghost use Rattle.std.specs.Prelude.{◌≡◌, ◌+◌, ◌-◌, ◌<◌, ◌≤◌, [], ◌∷◌, ◌++◌, length, max, OnOk, OnErr, vec_len, vec_capacity};
ghost use Rattle.pfc_log.specs.Owners.{owning, is_landed_of};
ghost use Rattle.pfc_log.specs.Counts.{counts_of};

use crate::counts::Counts;
use crate::entry::Entry;
use crate::start::Start;
use pfc_base::Memory;
use std::alloc::Global;
use std::marker::Model;

/// The log of one opening of a file: how it starts, and its entries in order. It only grows, in room that was taken
/// before, so that an entry which has to be made is never refused.
#[derive(Drop)]
pub struct FileLog {
    start: Start,
    entries: Vec<Entry>,
    owners: Vec<u32>,
    counts: Counts,
    room: u64,
}

impl Model for FileLog {
    ghost use Rattle.pfc_log.specs.LogView.{LogView};

    ghost Value = { LogView };

    ghost use Rattle.pfc_log.specs.Log.{IsKept};

    ghost view = { λ log. record { first = log.start; entries = log.entries.items; room = log.room } };

    ghost invariant = { IsKept };
}

/// Whether the entry lands a flight of client 0.
fn is_prefetch(owners: &[u32], entry: Entry) -> bool
    ensures { result ≡ is_landed_of 0 owners.now entry }
{
    match entry {
        Entry::Landed { ticket } => owners.get(ticket as usize) == Some(&0),
        _ => false,
    }
}

/// Keeps the client of a flight that begins.
fn keep_owner(owners: &mut Vec<u32>, entry: Entry)
    requires { vec_len owners.old < vec_capacity owners.old }
    ensures owners { owners.new.items ≡ owning owners.old.items entry }
    ensures len { vec_len owners.new ≤ vec_len owners.old + 1 }
    ensures capacity { vec_capacity owners.new ≡ vec_capacity owners.old }
{
    match entry {
        Entry::Begin {
            ticket: _,
            block: _,
            client,
        } => owners.push_reserved(client),
        _ => (),
    }
}

impl FileLog {
    /// A log without entries.
    pub fn new(alloc: Global, start: Start) -> FileLog
        ensures { result ≡ record { first = start; entries = []; room = 0 } }
    {
        FileLog {
            start,
            entries: Vec::new(alloc),
            owners: Vec::new(alloc),
            counts: Counts::none(),
            room: 0,
        }
    }

    /// How the log starts.
    pub fn start(&self) -> &Start
        ensures { result.now ≡ self.now.first }
    {
        &self.start
    }

    /// Takes room for so many entries, those that already have room among them.
    pub fn reserve(&mut self, more: u64) -> Result<(), Memory>
        ensures ok { OnOk result (self.new ≡ record self.old { room = max self.old.room more }) }
        // Room that is there isn't refused.
        ensures short { OnErr result (self.old.room < more) }
        ensures err { OnErr result (self.new ≡ self.old) }
    {
        if more <= self.room {
            return Ok(());
        }
        self.entries.reserve(more as usize)?;
        self.owners.reserve(more as usize)?;
        self.room = more;
        Ok(())
    }

    /// Adds an entry at the end, in room that was taken before.
    pub fn push(&mut self, entry: Entry)
        requires { 0 < self.old.room }
        ensures { self.new ≡ record self.old { entries = self.old.entries ++ entry ∷ []; room = self.old.room - 1 } }
    {
        let prefetched = is_prefetch(&self.owners, entry);
        self.counts = self.counts.with(entry, prefetched);
        keep_owner(&mut self.owners, entry);
        self.entries.push_reserved(entry);
        self.room -= 1;
    }

    /// How many entries there are.
    pub fn len(&self) -> u64
        ensures { result ≡ length self.now.entries }
    {
        self.entries.len() as u64
    }

    /// The entries in order.
    pub fn entries(&self) -> &[Entry]
        ensures { result.now ≡ self.now.entries }
    {
        &self.entries
    }

    /// What the entries count. It is kept up at each push.
    pub fn counts(&self) -> Counts
        ensures { result ≡ counts_of self.now.entries }
    {
        self.counts
    }
}
