use pfc_base::Memory;
use thiserror::Error;

/// Why bytes are no cinfo: the first test, in this order, that they fail.
#[derive(Clone, Copy, Debug, PartialEq, Eq, Error)]
pub enum Damage {
    /// Fewer than 48 bytes.
    #[error("fewer than 48 bytes")]
    Short,
    /// The version isn't 4.
    #[error("an unknown version")]
    Version,
    /// The checksum of the header isn't the one behind it.
    #[error("the header's checksum differs")]
    HeaderSum,
    /// A block size, a number of blocks or records, or the whole length is out of bounds; or a padding bit or a
    /// reserved field isn't 0.
    #[error("a field is out of bounds")]
    Shape,
    /// The checksum of the bitmap and the records isn't the last field.
    #[error("the body's checksum differs")]
    BodySum,
}

/// Why `decode` gave no cinfo.
#[derive(Clone, Copy, Debug, PartialEq, Eq, Error)]
pub enum DecodeRefusal {
    /// The bytes are no cinfo.
    #[error("no cinfo: {0}")]
    Damaged(Damage),
    /// Memory was refused.
    #[error("out of memory")]
    Memory,
}

impl From<Memory> for DecodeRefusal {
    ghost use Rattle.std.specs.Prelude.{◌≡◌};
    ghost use Rattle.pfc_cinfo.specs.declared.damage.DecodeRefusal.TheVariants as refusals;

    ghost from_gives = { λ _ e. e ≡ refusals.Memory };

    fn from(_: Memory) -> DecodeRefusal {
        DecodeRefusal::Memory
    }
}
