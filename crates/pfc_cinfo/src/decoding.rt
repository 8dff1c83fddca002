// A cinfo from its bytes.
ghost use Rattle.std.specs.Prelude.{◌≡◌, ◌*◌, ◌≤◌, length, IfOk};
ghost use Rattle.pfc_base.specs.Cinfo.{record_in, records_in, cinfo_in};
ghost use Rattle.pfc_base.specs.Cinfo as said;
ghost use Rattle.pfc_cinfo.specs.Damage.{blocks_in, Passes};
ghost use Rattle.pfc_cinfo.specs.Decoding.{Decodes, Gives};

use crate::checks::damage;
use crate::fields::{eight_from, four_from};
use crate::{Cinfo, DecodeRefusal, Head, Record, Records};
use pfc_base::{BlockSet, Memory};
use std::alloc::Global;

fn read_record(bytes: &[u8]) -> Record
    requires { 64 ≤ length bytes.now }
    ensures { result ≡ record_in bytes.now }
{
    Record {
        attach: eight_from(bytes, 0),
        detach: eight_from(bytes, 8),
        ios: four_from(bytes, 16),
        duration: four_from(bytes, 20),
        merged: four_from(bytes, 24),
        hit: eight_from(bytes, 32),
        missed: eight_from(bytes, 40),
        bypassed: eight_from(bytes, 48),
    }
}

fn read_records(alloc: Global, count: u32, bytes: &[u8]) -> Result<Vec<Record>, Memory>
    requires { 64 * count ≤ length bytes.now }
    ensures { IfOk result (λ records. records.items ≡ records_in count bytes.now) }
{
    let mut records = Vec::with_capacity(alloc, count as usize)?;
    let mut rest = bytes;
    for _ in 0..count {
        records.push(read_record(rest))?;
        rest = &rest[64..];
    }
    Ok(records)
}

fn blocks(bytes: &[u8]) -> u32
    requires { Passes bytes.now }
    ensures { result ≡ blocks_in bytes.now }
{
    let block = eight_from(bytes, 4);
    ((eight_from(bytes, 12) + (block - 1)) / block) as u32
}

fn read_claims(alloc: Global, bytes: &[u8]) -> Result<BlockSet, Memory>
    requires { Passes bytes.now }
    ensures { IfOk result (λ claims. claims ≡ (cinfo_in bytes.now).claims) }
{
    let count = blocks(bytes);
    let end = 44 + (count as usize).div_ceil(8);
    match BlockSet::from_bitmap(alloc, &bytes[44..end], count)? {
        Some(claims) => Ok(claims),
        None => unreachable!(),
    }
}

fn read_head(alloc: Global, bytes: &[u8]) -> Result<Head, Memory>
    requires { Passes bytes.now }
    ensures { IfOk result (λ head. head ≡ (cinfo_in bytes.now).head) }
{
    let at = 44 + (blocks(bytes) as usize).div_ceil(8);
    let records = read_records(alloc, four_from(bytes, 36), &bytes[at..])?;
    Ok(Head {
        created: eight_from(bytes, 20),
        accesses: eight_from(bytes, 28),
        records: Records::from_vec(records),
    })
}

/// The cinfo of bytes that pass each test.
fn read(alloc: Global, bytes: &[u8]) -> Result<Cinfo, Memory>
    requires { Passes bytes.now }
    ensures { IfOk result (λ cinfo. cinfo ≡ cinfo_in bytes.now) }
{
    let claims = read_claims(alloc, bytes)?;
    let head = read_head(alloc, bytes)?;
    Ok(Cinfo {
        block: eight_from(bytes, 4),
        size: eight_from(bytes, 12),
        head,
        claims,
    })
}

/// What the bytes of a cinfo file say. The tests come before any memory is taken, and what is taken is no more than
/// the bytes account for.
pub fn decode(alloc: Global, bytes: &[u8]) -> Result<Cinfo, DecodeRefusal>
    ensures exact { Decodes bytes.now result }
    // What was encoded is read again.
    ensures again { (cinfo : said.Cinfo) → said.IsCinfo bytes.now cinfo → Gives result cinfo }
{
    if let Some(damage) = damage(bytes) {
        return Err(DecodeRefusal::Damaged(damage));
    }
    Ok(read(alloc, bytes)?)
}
