// The tests on the bytes of a cinfo, which take no memory.
ghost use Rattle.std.specs.Prelude.{◌≡◌, ◌+◌, ◌*◌, ◌/◌, ◌<◌, ◌≤◌, ◌==◌, length, drop, Some, None, if◌then◌else◌};
ghost use Rattle.pfc_base.specs.Block.{count_of};
ghost use Rattle.pfc_cinfo.specs.Damage.{is_block_size, is_tiled, padding_of, are_clear, has_shape, header_sum_fits, body_sum_fits, first_damage};

use crate::Damage;
use crate::fields::{eight_from, four_from};
use pfc_base::crc::crc32c;

const MOST_BLOCKS: u64 = 16777216;

fn block_size_fits(k: u64) -> bool
    ensures { result ≡ is_block_size k }
{
    4096 <= k && k <= 16777216 && k % 4096 == 0
}

/// How many blocks of `k` bytes a file of this size has, where both are within bounds.
pub(crate) fn tiles(k: u64, size: u64) -> Option<u32>
    ensures { result ≡ (if is_tiled k size then Some (count_of size k) else None) }
{
    if !block_size_fits(k) || size > k * MOST_BLOCKS {
        return None;
    }
    Some(((size + (k - 1)) / k) as u32)
}

fn padding_is_clear(bitmap: &[u8], blocks: u32) -> bool
    requires { length bitmap.now ≡ (blocks + 7) / 8 }
    ensures { result ≡ (padding_of bitmap.now blocks == 0) }
{
    match bitmap.get(blocks as usize / 8) {
        None => true,
        Some(last) => *last >> (blocks % 8) == 0,
    }
}

fn reserved_are_clear(records: &[u8], count: u32) -> bool
    requires { 64 * count ≤ length records.now }
    ensures { result ≡ are_clear count records.now }
{
    let mut rest = records;
    for _ in 0..count {
        if four_from(rest, 28) != 0 || eight_from(rest, 56) != 0 {
            return false;
        }
        rest = &rest[64..];
    }
    true
}

#[tactic(auto, using(std::proofs::lemmas::List::take_rest), unfolding(crate::specs::Damage::has_shape))]
fn shape_fits(bytes: &[u8]) -> bool
    requires { 48 ≤ length bytes.now }
    ensures { result ≡ has_shape bytes.now }
{
    let Some(blocks) = tiles(eight_from(bytes, 4), eight_from(bytes, 12)) else {
        return false;
    };
    let count = four_from(bytes, 36);
    if count > 20 {
        return false;
    }
    let records = 44 + (blocks as usize + 7) / 8;
    if bytes.len() != records + 4 + 64 * count as usize {
        return false;
    }
    padding_is_clear(&bytes[44..records], blocks) && reserved_are_clear(&bytes[records..], count)
}

fn header_sum_is_right(bytes: &[u8]) -> bool
    requires { 48 ≤ length bytes.now }
    ensures { result ≡ header_sum_fits bytes.now }
{
    four_from(bytes, 40) == crc32c(&bytes[..40])
}

fn body_sum_is_right(bytes: &[u8]) -> bool
    requires { 48 ≤ length bytes.now }
    ensures { result ≡ body_sum_fits bytes.now }
{
    let end = bytes.len() - 4;
    four_from(bytes, end) == crc32c(&bytes[44..end])
}

/// The first test that the bytes fail.
#[tactic(auto, unfolding(crate::specs::Damage::first_damage))]
pub(crate) fn damage(bytes: &[u8]) -> Option<Damage>
    ensures { result ≡ first_damage bytes.now }
{
    if bytes.len() < 48 {
        return Some(Damage::Short);
    }
    if four_from(bytes, 0) != 4 {
        return Some(Damage::Version);
    }
    if !header_sum_is_right(bytes) {
        return Some(Damage::HeaderSum);
    }
    if !shape_fits(bytes) {
        return Some(Damage::Shape);
    }
    if !body_sum_is_right(bytes) {
        return Some(Damage::BodySum);
    }
    None
}
