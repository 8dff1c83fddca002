// The texts of cinfo files.
ghost use Rattle.std.specs.Prelude.{◌≡◌, ◌++◌, OnOk};
ghost use Rattle.std.specs.List.{flat_map};
ghost use Rattle.pfc_print.specs.Text.{line_text, record_text, claims_text, head_text, cinfo_text, damage_word, damaged_text};

use pfc_base::{BlockSet, Memory, push_word};
use pfc_cinfo::{Cinfo, Damage, Record};
use pfc_log::{push_line, push_set};
use std::alloc::Global;

fn push_numbers(
    alloc: Global,
    out: &mut Vec<u8>,
    word: &[u8],
    numbers: &[u64],
) -> Result<(), Memory>
    ensures { OnOk result (out.new.items ≡ out.old.items ++ line_text word.now numbers.now) }
{
    push_line(alloc, out, word, numbers)?;
    push_word(out, b"\n")
}

fn push_record(alloc: Global, out: &mut Vec<u8>, row: &Record) -> Result<(), Memory>
    ensures { OnOk result (out.new.items ≡ out.old.items ++ record_text row.now) }
{
    let numbers = [
        row.attach,
        row.detach,
        u64::from(row.ios),
        u64::from(row.duration),
        u64::from(row.merged),
        row.hit,
        row.missed,
        row.bypassed,
    ];
    push_numbers(alloc, out, b"record", &numbers)
}

fn push_records(alloc: Global, out: &mut Vec<u8>, records: &[Record]) -> Result<(), Memory>
    ensures { OnOk result (out.new.items ≡ out.old.items ++ flat_map record_text records.now) }
{
    for record in records {
        push_record(alloc, out, record)?;
    }
    Ok(())
}

fn push_claims(
    alloc: Global,
    out: &mut Vec<u8>,
    verbose: bool,
    claims: &BlockSet,
) -> Result<(), Memory>
    ensures { OnOk result (out.new.items ≡ out.old.items ++ claims_text verbose claims.now) }
{
    if !verbose {
        return Ok(());
    }
    push_word(out, b"runs ")?;
    push_set(alloc, out, claims)?;
    push_word(out, b"\n")
}

fn push_head(alloc: Global, out: &mut Vec<u8>, word: &[u8], cinfo: &Cinfo) -> Result<(), Memory>
    ensures { OnOk result (out.new.items ≡ out.old.items ++ head_text word.now cinfo.now) }
{
    push_word(out, b"cinfo ")?;
    push_word(out, word)?;
    push_word(out, b"\nversion 4\n")?;
    let head = &cinfo.head;
    push_numbers(alloc, out, b"block", &[cinfo.block])?;
    push_numbers(alloc, out, b"size", &[cinfo.size])?;
    push_numbers(alloc, out, b"blocks", &[u64::from(cinfo.claims.bound())])?;
    push_numbers(alloc, out, b"created", &[head.created])?;
    push_numbers(alloc, out, b"accesses", &[head.accesses])?;
    push_numbers(alloc, out, b"claimed", &[u64::from(cinfo.claims.count())])?;
    push_numbers(alloc, out, b"bytes", &[cinfo.claimed_bytes()])
}

/// Appends the text of a cinfo, with its runs where `verbose` asks for them.
pub(crate) fn push_cinfo(
    alloc: Global,
    out: &mut Vec<u8>,
    verbose: bool,
    word: &[u8],
    cinfo: &Cinfo,
) -> Result<(), Memory>
    ensures { OnOk result (out.new.items ≡ out.old.items ++ cinfo_text verbose word.now cinfo.now) }
{
    let head = &cinfo.head;
    push_head(alloc, out, word, cinfo)?;
    push_claims(alloc, out, verbose, &cinfo.claims)?;
    push_records(alloc, out, head.records.as_slice())
}

fn word_of(damage: Damage) -> &'static [u8]
    ensures { result.now ≡ damage_word damage }
{
    match damage {
        Damage::Short => b"short",
        Damage::Version => b"version",
        Damage::HeaderSum => b"headersum",
        Damage::Shape => b"shape",
        Damage::BodySum => b"bodysum",
    }
}

/// Appends the line of a file that is no cinfo.
pub(crate) fn push_damaged(out: &mut Vec<u8>, word: &[u8], damage: Damage) -> Result<(), Memory>
    ensures { OnOk result (out.new.items ≡ out.old.items ++ damaged_text word.now damage) }
{
    push_word(out, b"damaged ")?;
    push_word(out, word)?;
    push_word(out, b" ")?;
    push_word(out, word_of(damage))?;
    push_word(out, b"\n")
}
