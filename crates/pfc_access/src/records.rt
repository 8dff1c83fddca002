// The accesses to a file: how one begins and ends, and how old ones are merged.
ghost use Rattle.std.specs.Prelude.{◌≡◌, ◌<◌, ◌≤◌, ◌++◌, ◌∷◌, ◌+◌, [], length, vec_capacity, OnOk, OnErr};
ghost use Rattle.pfc_access.specs.Records as access;

use pfc_base::Memory;
use pfc_cinfo::{Head, MOST_RECORDS, Record, Records};
use pfc_log::Served;
use std::alloc::Global;
use std::mem;

/// An access that lasts since this moment.
fn begun(now: u64) -> Record
    ensures { result ≡ access.begun now }
{
    Record {
        attach: now,
        detach: 0,
        ios: 0,
        duration: 0,
        merged: 0,
        hit: 0,
        missed: 0,
        bypassed: 0,
    }
}

/// Two accesses as one.
fn merged(first: Record, second: Record) -> Record
    ensures { result ≡ access.merged first second }
{
    Record {
        attach: first.attach,
        detach: second.detach,
        ios: first.ios.saturating_add(second.ios),
        duration: first.duration.saturating_add(second.duration),
        merged: first.merged.saturating_add(second.merged).saturating_add(1),
        hit: first.hit.saturating_add(second.hit),
        missed: first.missed.saturating_add(second.missed),
        bypassed: first.bypassed.saturating_add(second.bypassed),
    }
}

/// The access as it ended at this moment.
fn ended(newest: Record, now: u64, served: &Served, ios: u32) -> Record
    ensures { result ≡ access.ended now served.now ios newest }
{
    let duration = now.saturating_sub(newest.attach).min(u32::MAX as u64) as u32;
    Record {
        detach: now,
        duration,
        ios,
        hit: served.hit,
        missed: served.missed,
        bypassed: served.bypassed,
        ..newest
    }
}

/// The two oldest records become one.
fn merge(items: &mut Vec<Record>)
    requires { 2 ≤ length items.old.items }
    ensures merged { items.new.items ≡ access.merge items.old.items }
    ensures room { vec_capacity items.new ≡ vec_capacity items.old }
    ensures fewer { length items.new.items + 1 ≡ length items.old.items }
{
    let second = items.remove(1);
    items[0] = merged(items[0], second);
}

/// The two oldest records of a head become one.
pub fn merge_oldest(alloc: Global, head: &mut Head)
    requires { 2 ≤ length head.old.records }
    ensures { head.new ≡ record head.old { records = access.merge head.old.records } }
{
    let mut items = mem::replace(&mut head.records, Records::new(alloc)).into_vec();
    merge(&mut items);
    head.records = Records::from_vec(items);
}

/// An access begins at this moment, in seconds. Where 20 records stand, the two oldest become one first.
/// Without memory nothing changes.
pub fn attach(alloc: Global, head: &mut Head, now: u64) -> Result<(), Memory>
    ensures ok { OnOk result (head.new ≡ access.attached now head.old) }
    ensures memory { OnErr result (head.new ≡ head.old) }
{
    let mut items = mem::replace(&mut head.records, Records::new(alloc)).into_vec();
    let answer = begin(&mut items, now);
    head.records = Records::from_vec(items);
    answer?;
    head.accesses = head.accesses.saturating_add(1);
    Ok(())
}

/// One record more, for an access that begins.
fn begin(items: &mut Vec<Record>, now: u64) -> Result<(), Memory>
    requires { length items.old.items ≤ 20 }
    ensures ok { OnOk result (items.new.items ≡ access.with_room items.old.items ++ access.begun now ∷ []) }
    ensures memory { OnErr result (items.new.items ≡ items.old.items) }
    ensures most { length items.new.items ≤ 20 }
{
    if items.len() < MOST_RECORDS {
        items.push(begun(now))?;
        return Ok(());
    }
    merge(items);
    items.push_reserved(begun(now));
    Ok(())
}

/// The newest access ends at this moment, in seconds, after so many reads with these bytes.
pub fn detach(alloc: Global, head: &mut Head, now: u64, served: &Served, ios: u32)
    requires { 0 < length head.old.records }
    ensures { head.new ≡ access.detached now served.now ios head.old }
{
    let mut items = mem::replace(&mut head.records, Records::new(alloc)).into_vec();
    end(&mut items, now, served, ios);
    head.records = Records::from_vec(items);
}

/// The newest access ends.
#[tactic(auto, using(crate::proofs::Newest::newest_end))]
fn end(items: &mut Vec<Record>, now: u64, served: &Served, ios: u32)
    requires { 0 < length items.old.items }
    ensures ended { items.new.items ≡ access.end_newest (access.ended now served.now ios) items.old.items }
    ensures length { length items.new.items ≡ length items.old.items }
{
    let last = items.len() - 1;
    items[last] = ended(items[last], now, served, ios);
}

/// The moment at which the file was last in use, in seconds; 0 where it never was.
#[tactic(auto, using(crate::proofs::Newest::newest_use))]
pub fn last_access(head: &Head) -> u64
    ensures { result ≡ access.last_use head.now.records }
{
    let records = head.records.as_slice();
    let count = records.len();
    if count == 0 {
        return 0;
    }
    let newest = records[count - 1];
    newest.attach.max(newest.detach)
}
