ghost use Rattle.std.specs.Prelude.{◌≡◌, ◌∷◌, ◌++◌, OnOk};
ghost use Rattle.pfc_log.specs.Text.{numbers_text, uncached_text, spot_text, fell_text, cause_text, way_text, entry_text_of, lines_text, start_text, log_text};

use crate::entry::{DropCause, Entry, Fell, Spot, Uncached, Way};
use crate::log::FileLog;
use crate::runs::push_set;
use crate::start::Start;
use pfc_base::{Memory, Path, push_number, push_word};
use std::alloc::Global;

/// Adds a blank and a decimal for each number.
fn push_numbers(alloc: Global, out: &mut Vec<u8>, numbers: &[u64]) -> Result<(), Memory>
    ensures { OnOk result (out.new.items ≡ out.old.items ++ numbers_text numbers.now) }
{
    for n in numbers {
        push_word(out, b" ")?;
        push_number(alloc, out, *n)?;
    }
    Ok(())
}

fn push_spot(out: &mut Vec<u8>, spot: Spot) -> Result<(), Memory>
    ensures { OnOk result (out.new.items ≡ out.old.items ++ spot_text spot) }
{
    match spot {
        Spot::Ram => push_word(out, b" memory"),
        Spot::Disk => push_word(out, b" disk"),
    }
}

fn push_fell(out: &mut Vec<u8>, why: Fell) -> Result<(), Memory>
    ensures { OnOk result (out.new.items ≡ out.old.items ++ fell_text why) }
{
    match why {
        Fell::Fault => push_word(out, b" fault"),
        Fell::Memory => push_word(out, b" memory"),
    }
}

fn push_uncached(out: &mut Vec<u8>, why: Uncached) -> Result<(), Memory>
    ensures { OnOk result (out.new.items ≡ out.old.items ++ uncached_text why) }
{
    match why {
        Uncached::Suffix => push_word(out, b" uncached suffix"),
        Uncached::Blocks => push_word(out, b" uncached blocks"),
        Uncached::Volume => push_word(out, b" uncached volume"),
        Uncached::Shell => push_word(out, b" uncached shell"),
        Uncached::Strayed(_) => push_word(out, b" uncached strayed"),
    }
}

fn push_cause(alloc: Global, out: &mut Vec<u8>, why: DropCause) -> Result<(), Memory>
    ensures { OnOk result (out.new.items ≡ out.old.items ++ cause_text why) }
{
    match why {
        DropCause::Full { capacity } => {
            push_word(out, b" full")?;
            push_numbers(alloc, out, &[u64::from(capacity)])
        }
        DropCause::Frozen => push_word(out, b" frozen"),
        DropCause::There => push_word(out, b" there"),
    }
}

fn push_way(alloc: Global, out: &mut Vec<u8>, why: Way) -> Result<(), Memory>
    ensures { OnOk result (out.new.items ≡ out.old.items ++ way_text why) }
{
    match why {
        Way::Full { found, want, limit } => {
            push_word(out, b" full")?;
            push_numbers(alloc, out, &[found, want, limit])
        }
        Way::Lost { ticket } => {
            push_word(out, b" lost")?;
            push_numbers(alloc, out, &[ticket])
        }
        Way::Device => push_word(out, b" device"),
        Way::Uncached(why) => push_uncached(out, why),
    }
}

/// Adds a word and numbers behind it, each after a blank. Where memory is refused, a part of the text may stand.
pub fn push_line(
    alloc: Global,
    out: &mut Vec<u8>,
    word: &[u8],
    numbers: &[u64],
) -> Result<(), Memory>
    ensures { OnOk result (out.new.items ≡ out.old.items ++ word.now ++ numbers_text numbers.now) }
{
    push_word(out, word)?;
    push_numbers(alloc, out, numbers)
}

/// Adds the text of an entry. Where memory is refused, a part of the text may stand.
pub fn push_entry(alloc: Global, out: &mut Vec<u8>, entry: &Entry) -> Result<(), Memory>
    ensures { OnOk result (out.new.items ≡ out.old.items ++ entry_text_of entry.now) }
{
    match *entry {
        Entry::Opened { client } => push_line(alloc, out, b"opened", &[u64::from(client)]),
        Entry::Closed { client } => push_line(alloc, out, b"closed", &[u64::from(client)]),
        Entry::Begin {
            ticket,
            block,
            client,
        } => {
            push_line(
                alloc,
                out,
                b"begin",
                &[ticket, u64::from(block), u64::from(client)],
            )
        }
        Entry::Join {
            ticket,
            block,
            client,
        } => {
            push_line(
                alloc,
                out,
                b"join",
                &[ticket, u64::from(block), u64::from(client)],
            )
        }
        Entry::Hit {
            block,
            place,
            client,
        } => {
            push_line(alloc, out, b"hit", &[u64::from(block)])?;
            push_spot(out, place)?;
            push_numbers(alloc, out, &[u64::from(client)])
        }
        Entry::Direct { block, client, why } => {
            push_line(
                alloc,
                out,
                b"direct",
                &[u64::from(block), u64::from(client)],
            )?;
            push_way(alloc, out, why)
        }
        Entry::Landed { ticket } => push_line(alloc, out, b"landed", &[ticket]),
        Entry::Failed { ticket, why } => {
            push_line(alloc, out, b"failed", &[ticket])?;
            push_fell(out, why)
        }
        Entry::Dropped { block, why } => {
            push_line(alloc, out, b"dropped", &[u64::from(block)])?;
            push_cause(alloc, out, why)
        }
        Entry::Wrote { block } => push_line(alloc, out, b"wrote", &[u64::from(block)]),
        Entry::Left { block } => push_line(alloc, out, b"left", &[u64::from(block)]),
        Entry::Synced => push_word(out, b"synced"),
        Entry::Claimed { at, count } => push_line(alloc, out, b"claimed", &[at, u64::from(count)]),
        Entry::Frozen => push_word(out, b"frozen"),
        Entry::WrittenOff => push_word(out, b"written_off"),
        Entry::Served { client, served } => push_line(
            alloc,
            out,
            b"served",
            &[
                u64::from(client),
                served.hit,
                served.missed,
                served.bypassed,
            ],
        ),
    }
}

fn push_start(alloc: Global, out: &mut Vec<u8>, start: &Start) -> Result<(), Memory>
    ensures { OnOk result (out.new.items ≡ out.old.items ++ start_text start.now) }
{
    match start {
        Start::Stored(set) => {
            push_word(out, b" stored ")?;
            push_set(alloc, out, set)
        }
        Start::Uncached(why) => push_uncached(out, *why),
    }
}

pub fn push_lines(alloc: Global, out: &mut Vec<u8>, entries: &[Entry]) -> Result<(), Memory>
    ensures { OnOk result (out.new.items ≡ out.old.items ++ lines_text entries.now) }
{
    for entry in entries {
        push_entry(alloc, out, entry)?;
        push_word(out, b"\n")?;
    }
    Ok(())
}

/// Adds the section of a log: a line for its file and how it starts, and a line for each entry. Where memory is refused,
/// a part of the text may stand.
pub fn push_log(alloc: Global, out: &mut Vec<u8>, path: &Path, log: &FileLog) -> Result<(), Memory>
    ensures { OnOk result (out.new.items ≡ out.old.items ++ log_text path.now log.now.first log.now.entries) }
{
    push_word(out, b"log ")?;
    push_word(out, path.as_bytes())?;
    push_start(alloc, out, log.start())?;
    push_word(out, b"\n")?;
    push_lines(alloc, out, log.entries())
}
