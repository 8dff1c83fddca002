// CRC-32C, the checksum of iSCSI and of many file formats, eight bytes a turn: a table for each byte of a word says
// what that byte leaves in the register behind the word.
ghost use Rattle.std.specs.Prelude.{◌≡◌, ◌%◌, ◌++◌, List, [], ℕ};
ghost use Rattle.pfc_base.specs.Crc.{after_bytes, after_bits, crc_of, IsFed};

mod tables;

use crate::crc::tables::{T0, T1, T2, T3, T4, T5, T6, T7};
use std::marker::Model;

/// A checksum on the way: the register behind what was fed so far.
#[derive(Clone, Copy)]
pub struct Crc {
    register: u32,
}

impl Model for Crc {
    ghost Value = { ℕ };

    ghost view = { λ c. c.register };

    ghost inverse = { λ n. record { register = n } };
}

const ALL_ONES: u32 = 0xFFFF_FFFF;

impl Crc {
    /// Nothing was fed yet.
    pub fn new() -> Crc
        ensures { IsFed result [] }
    {
        Crc { register: ALL_ONES }
    }

    /// These bytes follow what was fed before.
    pub fn feed(&mut self, bytes: &[u8])
        ensures fed { (before : List ℕ) → IsFed self.old before → IsFed self.new (before ++ bytes.now) }
        ensures register { self.new ≡ after_bytes self.old bytes.now }
    {
        self.register = run(self.register, bytes);
    }

    /// The checksum of all that was fed, however it was cut.
    pub fn end(&self) -> u32
        ensures { (bytes : List ℕ) → IsFed self.now bytes → result ≡ crc_of bytes }
    {
        self.register ^ ALL_ONES
    }
}

#[inline(always)]
fn after_8(x: u64) -> u32
    ensures { result ≡ after_bits 8 (x % 256) }
{
    T0[(x & 255) as usize]
}

#[inline(always)]
fn after_16(x: u64) -> u32
    ensures { result ≡ after_bits 16 (x % 256) }
{
    T1[(x & 255) as usize]
}

#[inline(always)]
fn after_24(x: u64) -> u32
    ensures { result ≡ after_bits 24 (x % 256) }
{
    T2[(x & 255) as usize]
}

#[inline(always)]
fn after_32(x: u64) -> u32
    ensures { result ≡ after_bits 32 (x % 256) }
{
    T3[(x & 255) as usize]
}

#[inline(always)]
fn after_40(x: u64) -> u32
    ensures { result ≡ after_bits 40 (x % 256) }
{
    T4[(x & 255) as usize]
}

#[inline(always)]
fn after_48(x: u64) -> u32
    ensures { result ≡ after_bits 48 (x % 256) }
{
    T5[(x & 255) as usize]
}

#[inline(always)]
fn after_56(x: u64) -> u32
    ensures { result ≡ after_bits 56 (x % 256) }
{
    T6[(x & 255) as usize]
}

#[inline(always)]
fn after_64(x: u64) -> u32
    ensures { result ≡ after_bits 64 (x % 256) }
{
    T7[(x & 255) as usize]
}

fn bytewise(start: u32, bytes: &[u8]) -> u32
    ensures { result ≡ after_bytes start bytes.now }
{
    let mut c = start;
    for b in bytes {
        c = after_8(u64::from(c ^ u32::from(*b))) ^ (c >> 8);
    }
    c
}

fn eight(c: u32, a: &[u8; 8]) -> u32
    ensures { result ≡ after_bytes c a.now }
{
    let w = u64::from(c) ^ u64::from_le_bytes(*a);
    after_64(w)
        ^ (after_56(w >> 8)
            ^ (after_48(w >> 16)
                ^ (after_40(w >> 24)
                    ^ (after_32(w >> 32)
                        ^ (after_24(w >> 40) ^ (after_16(w >> 48) ^ after_8(w >> 56)))))))
}

/// The register behind these bytes, from `start`.
fn run(start: u32, bytes: &[u8]) -> u32
    ensures { result ≡ after_bytes start bytes.now }
{
    let mut c = start;
    let mut rest = bytes;
    while let Some((a, more)) = rest.split_first_chunk::<8>() {
        c = eight(c, a);
        rest = more;
    }
    bytewise(c, rest)
}

/// The CRC-32C of these bytes.
pub fn crc32c(bytes: &[u8]) -> u32
    ensures { result ≡ crc_of bytes.now }
{
    run(ALL_ONES, bytes) ^ ALL_ONES
}

#[cfg(test)]
mod tests;
