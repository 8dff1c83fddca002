ghost use Rattle.std.specs.Prelude.{◌≡◌, ◌+◌, ◌*◌, ◌<◌, ◌≤◌, ◌^◌};
ghost use Rattle.pfc_base.specs.Block.{slice_of, count_of, block_len_of};

/// A piece inside one block of a file, in bytes. It is never empty and never passes the block's end.
#[derive(Clone, Copy, Debug, PartialEq, Eq)]
pub struct Part {
    pub block: u32,
    pub from: u32,
    pub len: u32,
}

/// A piece of a request: an offset into a file and a length, both in bytes, which may pass its end.
#[derive(Clone, Copy, Debug, PartialEq, Eq)]
pub struct Piece {
    pub off: u64,
    pub len: u64,
}

/// The bytes from an offset, at most so many, and none past the end.
pub fn slice(bytes: &[u8], off: u64, len: u64) -> &[u8]
    ensures { result.now ≡ slice_of bytes.now off len }
{
    let all = bytes.len() as u64;
    if off >= all {
        return &bytes[..0];
    }
    let rest = &bytes[off as usize..];
    if len >= rest.len() as u64 {
        return rest;
    }
    &rest[..len as usize]
}

/// How many blocks of `k` bytes a file of `size` bytes has; the last one may be shorter.
pub fn block_count(size: u64, k: u64) -> u64
    requires size { size < 2 ^ 44 }
    requires some { 0 < k }
    requires most { k ≤ 16777216 }
    ensures { result ≡ count_of size k }
{
    (size + (k - 1)) / k
}

/// The length of block `i` in bytes: `k`, but for a shorter last block.
pub fn block_len(size: u64, k: u64, i: u32) -> u64
    requires size { size < 2 ^ 44 }
    requires some { 0 < k }
    requires most { k ≤ 16777216 }
    requires block { i < count_of size k }
    ensures len { result ≡ block_len_of size k i }
    ensures within { i * k + result ≤ size }
    ensures some { 0 < result }
{
    k.min(size - u64::from(i) * k)
}
