use crate::Head;
use pfc_base::BlockSet;
use std::marker::Model;

/// What a cinfo file says: of a file of `size` bytes in blocks of `block` bytes, which blocks the data holds
/// (`claims`, a set below the number of blocks), and the file's head. A block size is a multiple of 4096 from 4096 to
/// 16777216, and there are at most 16777216 blocks.
#[derive(Drop)]
pub struct Cinfo {
    pub block: u64,
    pub size: u64,
    pub head: Head,
    pub claims: BlockSet,
}

impl Model for Cinfo {
    ghost use Rattle.std.specs.Prelude.{length};
    ghost use Rattle.pfc_base.specs.Cinfo as said;
    ghost use Rattle.pfc_cinfo.specs.Cinfo.{IsTiled};

    ghost Value = { said.Cinfo };

    ghost view = { λ c. record { block = c.block; size = c.size; head = c.head; claims = c.claims } };

    ghost invariant = { λ c. IsTiled c.block c.size (length c.claims) };
}

impl Cinfo {
    ghost use Rattle.std.specs.Prelude.{◌≡◌};
    ghost use Rattle.pfc_cinfo.specs.Cinfo as words;

    /// How many bytes the claimed blocks have: each a whole block, but for a shorter last one.
    pub fn claimed_bytes(&self) -> u64
        ensures { result ≡ words.claimed_bytes self.now }
    {
        let whole = u64::from(self.claims.count()) * self.block;
        let bound = self.claims.bound();
        if bound == 0 || !self.claims.test(bound - 1) {
            return whole;
        }
        whole - (u64::from(bound) * self.block - self.size)
    }
}
