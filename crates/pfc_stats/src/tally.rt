// Counts of logs, summed up and printed.
ghost use Rattle.std.specs.Prelude.{◌≡◌, ◌∷◌, ◌++◌, [], List, codes, OnOk};
ghost use Rattle.pfc_log.specs.declared.entry.Entry.{Entry};
ghost use Rattle.pfc_log.specs.Counts.{counts_of};
ghost use Rattle.pfc_stats.specs.Statistics.{counts_of_all, plus, count_line, reads_text, flights_text, blocks_text, counts_text, own_counts_text, statistics_text, own_text};

use pfc_base::{Memory, push_number, push_word};
use pfc_log::Counts;
use std::alloc::Global;
use std::marker::Model;

/// What logs count together. Sums stay at `2^64 - 1` once they stand there.
#[derive(Clone, Copy, Debug, PartialEq, Eq)]
pub struct Tally {
    counts: Counts,
}

impl Model for Tally {
    ghost use Rattle.pfc_log.specs.declared.counts.Counts.{Counts};

    ghost Value = { Counts };

    ghost view = { λ t. t.counts };

    ghost inverse = { λ c. record { counts = c } };
}

impl Tally {
    /// Of no log.
    pub fn new() -> Tally
        ensures { result ≡ counts_of_all [] }
    {
        Tally {
            counts: Counts::none(),
        }
    }

    /// Of one log more, which counts this.
    pub fn add(&mut self, counts: &Counts)
        ensures { (logs : List (List Entry)) (log : List Entry) → self.old ≡ counts_of_all logs → counts.now ≡ counts_of log → self.new ≡ counts_of_all (logs ++ log ∷ []) }
    {
        self.counts = sums(self.counts, *counts);
    }

    /// Appends the statistics of a replay: what its logs count, how many files purges cleared, and the bytes on disk at the end.
    pub fn push_text(
        &self,
        alloc: Global,
        out: &mut Vec<u8>,
        purged: u64,
        usage: u64,
    ) -> Result<(), Memory>
        ensures { OnOk result (out.new.items ≡ out.old.items ++ statistics_text self.now purged usage) }
    {
        push_counts(alloc, out, &self.counts)?;
        push_count(alloc, out, b"purged", purged)?;
        push_count(alloc, out, b"usage", usage)
    }

    /// Appends the statistics of a server: what its clients and its prefetcher did themselves, and the bytes on disk at the end.
    pub fn push_own(&self, alloc: Global, out: &mut Vec<u8>, usage: u64) -> Result<(), Memory>
        ensures { OnOk result (out.new.items ≡ out.old.items ++ own_text self.now usage) }
    {
        push_own_counts(alloc, out, &self.counts)?;
        push_count(alloc, out, b"usage", usage)
    }
}

/// The sums of two logs' counts.
fn sums(one: Counts, other: Counts) -> Counts
    ensures { result ≡ plus one other }
{
    Counts {
        opens: one.opens.saturating_add(other.opens),
        reads: one.reads.saturating_add(other.reads),
        hit: one.hit.saturating_add(other.hit),
        missed: one.missed.saturating_add(other.missed),
        bypassed: one.bypassed.saturating_add(other.bypassed),
        joined: one.joined.saturating_add(other.joined),
        fetched: one.fetched.saturating_add(other.fetched),
        prefetched: one.prefetched.saturating_add(other.prefetched),
        failed: one.failed.saturating_add(other.failed),
        written: one.written.saturating_add(other.written),
        dropped: one.dropped.saturating_add(other.dropped),
        synced: one.synced.saturating_add(other.synced),
        claimed: one.claimed.saturating_add(other.claimed),
    }
}

/// Appends a line: a word and a decimal.
fn push_count(alloc: Global, out: &mut Vec<u8>, word: &[u8], n: u64) -> Result<(), Memory>
    ensures { OnOk result (out.new.items ≡ out.old.items ++ count_line word.now n) }
{
    push_word(out, word)?;
    push_word(out, b" ")?;
    push_number(alloc, out, n)?;
    push_word(out, b"\n")
}

/// Appends what clients did.
fn push_reads(alloc: Global, out: &mut Vec<u8>, counts: &Counts) -> Result<(), Memory>
    ensures { OnOk result (out.new.items ≡ out.old.items ++ reads_text counts.now) }
{
    push_count(alloc, out, b"opens", counts.opens)?;
    push_count(alloc, out, b"reads", counts.reads)?;
    push_count(alloc, out, b"hit", counts.hit)?;
    push_count(alloc, out, b"missed", counts.missed)?;
    push_count(alloc, out, b"bypassed", counts.bypassed)
}

/// Appends what became of flights.
fn push_flights(alloc: Global, out: &mut Vec<u8>, counts: &Counts) -> Result<(), Memory>
    ensures { OnOk result (out.new.items ≡ out.old.items ++ flights_text counts.now) }
{
    push_count(alloc, out, b"fetched", counts.fetched)?;
    push_count(alloc, out, b"prefetched", counts.prefetched)?;
    push_count(alloc, out, b"failed", counts.failed)
}

/// Appends both, below their title.
fn push_own_counts(alloc: Global, out: &mut Vec<u8>, counts: &Counts) -> Result<(), Memory>
    ensures { OnOk result (out.new.items ≡ out.old.items ++ own_counts_text counts.now) }
{
    push_word(out, b"statistics\n")?;
    push_reads(alloc, out, counts)?;
    push_flights(alloc, out, counts)
}

/// Appends what became of flights and blocks.
fn push_blocks(alloc: Global, out: &mut Vec<u8>, counts: &Counts) -> Result<(), Memory>
    ensures { OnOk result (out.new.items ≡ out.old.items ++ blocks_text counts.now) }
{
    push_count(alloc, out, b"joined", counts.joined)?;
    push_count(alloc, out, b"fetched", counts.fetched)?;
    push_count(alloc, out, b"prefetched", counts.prefetched)?;
    push_count(alloc, out, b"failed", counts.failed)?;
    push_count(alloc, out, b"written", counts.written)?;
    push_count(alloc, out, b"dropped", counts.dropped)?;
    push_count(alloc, out, b"synced", counts.synced)?;
    push_count(alloc, out, b"claimed", counts.claimed)
}

/// Appends what clients did and what became of blocks, below their title.
fn push_counts(alloc: Global, out: &mut Vec<u8>, counts: &Counts) -> Result<(), Memory>
    ensures { OnOk result (out.new.items ≡ out.old.items ++ counts_text counts.now) }
{
    push_word(out, b"statistics\n")?;
    push_reads(alloc, out, counts)?;
    push_blocks(alloc, out, counts)
}
