ghost use Rattle.std.specs.Prelude.{◌≡◌, ◌==◌, ◌&&◌, ◌+◌, ◌<◌, ◌^◌};
ghost use Rattle.pfc_core.specs.Slots.{fresh_slot, landed_slot, written_slot, ended_slot, is_idle, bumped, lowered};
ghost use Rattle.pfc_core.specs.Out.{flight_of};

use crate::held::Held;

/// What is kept of a block that is in flight or in memory: its flight, who began it, whether it landed, whether it was
/// written since, whether its job is out, and how many pins wait for it or hold it.
#[derive(Clone, Copy, Debug, PartialEq, Eq)]
pub(crate) struct Slot {
    pub block: u32,
    pub ticket: u64,
    pub client: u32,
    pub landed: bool,
    pub written: bool,
    pub job: bool,
    pub pins: u64,
}

impl Slot {
    /// A block that goes into flight, with the pin of the client that begins it.
    pub fn fresh(block: u32, ticket: u64, client: u32) -> Slot
        ensures { result ≡ fresh_slot block ticket client }
    {
        Slot {
            block,
            ticket,
            client,
            landed: false,
            written: false,
            job: false,
            pins: 1,
        }
    }

    pub fn landed(self) -> Slot
        ensures { result ≡ landed_slot self }
    {
        Slot {
            landed: true,
            written: false,
            job: true,
            ..self
        }
    }

    pub fn written(self) -> Slot
        ensures { result ≡ written_slot self }
    {
        Slot {
            written: true,
            ..self
        }
    }

    /// The block's job has ended.
    pub fn ended(self) -> Slot
        ensures { result ≡ ended_slot self }
    {
        Slot { job: false, ..self }
    }

    pub fn pinned(self) -> Slot
        requires { self.pins + 1 < 2 ^ 64 }
        ensures { result ≡ bumped self }
    {
        Slot {
            pins: self.pins + 1,
            ..self
        }
    }

    pub fn unpinned(self) -> Slot
        requires { 0 < self.pins }
        ensures { result ≡ lowered self }
    {
        Slot {
            pins: self.pins - 1,
            ..self
        }
    }

    /// What is kept of the flight's ticket, and of its job once it landed.
    pub fn flight(self) -> Held
        ensures { result ≡ flight_of self }
    {
        Held {
            number: self.ticket,
            client: self.client,
            block: self.block,
            flight: self.ticket,
            owner: self.client,
        }
    }

    /// Whether the block leaves memory with one pin.
    pub fn is_last(self) -> bool
        ensures { result ≡ (self.landed && is_idle self && self.pins == 1) }
    {
        self.landed && !self.job && self.pins == 1
    }
}
