ghost use Rattle.std.specs.Prelude.{◌≡◌};
ghost use Rattle.pfc_world.specs.declared.refusal.Refusal.TheVariants as refusal;

use pfc_base::Memory;
use std::alloc::AllocError;

/// A call of the outside failed. It is answered only where the object's count of faults rose in that call.
#[derive(Clone, Copy, Debug, PartialEq, Eq)]
pub struct Fault;

/// Why a call of the outside that also takes memory gave nothing.
#[derive(Clone, Copy, Debug, PartialEq, Eq)]
pub enum Refusal {
    /// The outside failed.
    Fault,
    /// Memory was refused.
    Memory,
}

impl From<AllocError> for Refusal {
    ghost from_gives = { λ _ e. e ≡ refusal.Memory };

    fn from(_: AllocError) -> Self {
        Refusal::Memory
    }
}

impl From<Memory> for Refusal {
    ghost from_gives = { λ _ e. e ≡ refusal.Memory };

    fn from(_: Memory) -> Self {
        Refusal::Memory
    }
}

impl From<Fault> for Refusal {
    ghost from_gives = { λ _ e. e ≡ refusal.Fault };

    fn from(_: Fault) -> Self {
        Refusal::Fault
    }
}
