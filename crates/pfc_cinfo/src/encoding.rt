// The one spelling of a cinfo.
ghost use Rattle.std.specs.Prelude.{◌≡◌, ◌+◌, ◌<◌, ◌≤◌, ◌^◌, ◌++◌, Bool, List, length, drop, All, IfOk, OnOk};
ghost use Rattle.std.specs.List.{flat_map};
ghost use Rattle.pfc_base.specs.Crc.{crc_of};
ghost use Rattle.pfc_base.specs.Cinfo.{FitsRecord, FitsHead, header_of, record_of, four, IsCinfo};
ghost use Rattle.pfc_cinfo.specs.Cinfo.{IsTiled};

use crate::fields::{put_eight, put_four};
use crate::{Cinfo, Head, Record};
use pfc_base::crc::crc32c;
use pfc_base::{BlockSet, Memory};
use std::alloc::Global;

fn put_header(out: &mut Vec<u8>, block: u64, size: u64, head: &Head) -> Result<(), Memory>
    ensures written { OnOk result ((claims : List Bool) → out.new.items ≡ out.old.items ++ header_of (record { block = block; size = size; head = head.now; claims = claims })) }
    ensures fits { OnOk result (All FitsRecord head.now.records → FitsHead head.now) }
{
    put_four(out, 4)?;
    put_eight(out, block)?;
    put_eight(out, size)?;
    put_eight(out, head.created)?;
    put_eight(out, head.accesses)?;
    put_four(out, head.records.as_slice().len() as u32)
}

fn put_record(out: &mut Vec<u8>, row: &Record) -> Result<(), Memory>
    ensures written { OnOk result (out.new.items ≡ out.old.items ++ record_of row.now) }
    ensures fits { OnOk result (FitsRecord row.now) }
{
    put_eight(out, row.attach)?;
    put_eight(out, row.detach)?;
    put_four(out, row.ios)?;
    put_four(out, row.duration)?;
    put_four(out, row.merged)?;
    put_four(out, 0)?;
    put_eight(out, row.hit)?;
    put_eight(out, row.missed)?;
    put_eight(out, row.bypassed)?;
    put_eight(out, 0)
}

fn put_records(out: &mut Vec<u8>, records: &[Record]) -> Result<(), Memory>
    ensures written { OnOk result (out.new.items ≡ out.old.items ++ flat_map record_of records.now) }
    ensures fits { OnOk result (All FitsRecord records.now) }
{
    for record in records {
        put_record(out, record)?;
    }
    Ok(())
}

/// Appends the checksum of all that stands from a place on.
fn put_sum(out: &mut Vec<u8>, from: usize) -> Result<(), Memory>
    requires { from ≤ length out.old.items }
    ensures { OnOk result (out.new.items ≡ out.old.items ++ four (crc_of (drop from out.old.items))) }
{
    let sum = crc32c(&out.as_slice()[from..]);
    put_four(out, sum)
}

/// The bytes of the cinfo file that says this of a file of `size` bytes in blocks of `block` bytes.
pub fn encode_parts(
    alloc: Global,
    block: u64,
    size: u64,
    head: &Head,
    claims: &BlockSet,
) -> Result<Vec<u8>, Memory>
    requires { IsTiled block size (length claims.now) }
    ensures { IfOk result (λ bytes. IsCinfo bytes.items (record { block = block; size = size; head = head.now; claims = claims.now })) }
{
    let records = head.records.as_slice();
    let bitmap = (claims.bound() as usize).div_ceil(8);
    let mut out = Vec::with_capacity(alloc, 48 + bitmap + 64 * records.len())?;
    put_header(&mut out, block, size, head)?;
    put_sum(&mut out, 0)?;
    claims.bytes_into(&mut out)?;
    put_records(&mut out, records)?;
    put_sum(&mut out, 44)?;
    Ok(out)
}

/// The bytes of the cinfo file that says this.
pub fn encode(alloc: Global, cinfo: &Cinfo) -> Result<Vec<u8>, Memory>
    ensures { IfOk result (λ bytes. IsCinfo bytes.items cinfo.now) }
{
    encode_parts(alloc, cinfo.block, cinfo.size, &cinfo.head, &cinfo.claims)
}
