// Which files a purge removes to come from the high mark to the low one.
ghost use Rattle.std.specs.Prelude.{◌≡◌, ◌+◌, ◌<◌, ◌≤◌, ◌++◌, ◌∷◌, [], IfOk, OnOk, length, filter, take};
ghost use Rattle.std.specs.Ordering.{is_lt};
ghost use Rattle.pfc_catalog.specs.Entry.{is_candidate};
ghost use Rattle.pfc_catalog.specs.Catalog.{usage_of};
ghost use Rattle.pfc_catalog.specs.Purge.{candidates, purge_cmp, IsOrder, IsShortest, IsPlan};

use crate::catalog::Catalog;
use crate::entry::Entry;
use crate::files::Files;
use pfc_base::{Memory, Path};
use std::alloc::Global;
use std::cmp::Ordering;

/// Which of two files a purge takes first.
fn compare(one: &(Path, Entry), other: &(Path, Entry)) -> Ordering
    ensures { result ≡ purge_cmp one.now other.now }
{
    match one.1.last.cmp(&other.1.last) {
        Ordering::Less => Ordering::Less,
        Ordering::Equal => one.0.cmp(&other.0),
        Ordering::Greater => Ordering::Greater,
    }
}

/// The candidates, in the order in which they came.
fn unordered(alloc: Global, files: &Files) -> Result<Vec<(Path, Entry)>, Memory>
    ensures { IfOk result (λ found. found.items ≡ candidates files.now) }
{
    let mut found = Vec::new(alloc);
    for place in 0..files.len() {
        push_candidate(&mut found, files, place)?;
    }
    Ok(found)
}

/// Adds the file at a place, if it is a candidate.
fn push_candidate(found: &mut Vec<(Path, Entry)>, files: &Files, place: usize) -> Result<(), Memory>
    requires within { place < length files.now }
    requires before { found.old.items ≡ candidates (take place files.now) }
    ensures { OnOk result (found.new.items ≡ candidates (take (place + 1) files.now)) }
{
    let Some((path, entry)) = files.at(place) else {
        return Ok(());
    };
    if entry.is_candidate() {
        found.push((path.copy(), entry))?;
    }
    Ok(())
}

/// The candidates, in the order of a purge.
fn ordered(alloc: Global, files: &Files) -> Result<Vec<(Path, Entry)>, Memory>
    ensures { IfOk result (λ order. IsOrder files.now order.items) }
{
    let mut order = unordered(alloc, files)?;
    order.sort_unstable_by(|one, other| compare(one, other));
    Ok(order)
}

/// The shortest front of the order that leaves at most the low mark.
fn shortest(
    alloc: Global,
    order: &[(Path, Entry)],
    usage: u64,
    low: u64,
) -> Result<Vec<Path>, Memory>
    ensures { IfOk result (λ plan. IsShortest usage low order.now plan.items) }
{
    let mut plan = Vec::new(alloc);
    let mut left = usage;
    for row in order {
        if left <= low {
            return Ok(plan);
        }
        left = left.saturating_sub(row.1.usage);
        plan.push(row.0.copy())?;
    }
    Ok(plan)
}

/// The files that a purge removes, in order: none where the usage is at most the high mark; else as many as bring it
/// down to the low mark, or all that may be removed. The marks are in bytes.
pub fn plan(alloc: Global, catalog: &Catalog, low: u64, high: u64) -> Result<Vec<Path>, Memory>
    ensures nothing { IfOk result (λ plan. usage_of catalog.now.entries ≤ high → plan.items ≡ []) }
    ensures shortest { IfOk result (λ plan. high < usage_of catalog.now.entries → IsPlan catalog.now.entries low plan.items) }
{
    let usage = catalog.usage();
    if usage <= high {
        return Ok(Vec::new(alloc));
    }
    let order = ordered(alloc, &catalog.files)?;
    shortest(alloc, &order, usage, low)
}
