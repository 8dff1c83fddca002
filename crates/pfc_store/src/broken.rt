use pfc_base::Memory;

/// A device's count of faults before and after the call that failed.
#[derive(Clone, Copy, Debug, PartialEq, Eq, Drop)]
pub struct Broken {
    pub before: u64,
    pub after: u64,
}

/// What became of a block that was to be written.
#[derive(Clone, Copy, Debug, PartialEq, Eq, Drop)]
pub enum Put {
    /// It was written.
    Wrote,
    /// It had been written before, and nothing was done.
    AlreadyThere,
}

/// Why a part was not read.
#[derive(Clone, Copy, Debug, PartialEq, Eq, Drop)]
pub enum ReadRefusal {
    /// The block isn't written.
    Absent,
    /// The device failed before, and the block isn't durable.
    Frozen(Broken),
    /// The device failed in this read. That alone freezes nothing.
    Device(Broken),
}

/// Why a block was not written.
#[derive(Clone, Copy, Debug, PartialEq, Eq, Drop)]
pub enum WriteRefusal {
    /// A device failed before.
    Frozen(Broken),
    /// The device failed in this write.
    Device(Broken),
}

/// Why the data was not synced.
#[derive(Clone, Copy, Debug, PartialEq, Eq, Drop)]
pub enum SyncRefusal {
    /// A device failed before.
    Frozen(Broken),
    /// The device failed in this sync.
    Device(Broken),
}

/// Why no cinfo was put.
#[derive(Clone, Copy, Debug, PartialEq, Eq, Drop)]
pub enum InfoPutRefusal {
    /// Memory was refused, before any call on the device.
    Memory,
    /// A device failed before.
    Frozen(Broken),
    /// The device failed in this put. The main file is the old one or the new one.
    Device(Broken),
}

impl From<Memory> for InfoPutRefusal {
    ghost use Rattle.std.specs.Prelude.{◌≡◌};
    ghost use Rattle.pfc_store.specs.declared.broken.InfoPutRefusal.TheVariants as refusals;

    ghost from_gives = { λ _ e. e ≡ refusals.Memory };

    fn from(_: Memory) -> Self {
        InfoPutRefusal::Memory
    }
}

/// Why a volume was not surveyed.
#[derive(Clone, Copy, Debug, PartialEq, Eq, Drop)]
pub enum SurveyRefusal {
    /// One of the devices failed in this survey.
    Device(Broken),
    /// Memory was refused.
    Memory,
}

impl From<Broken> for SurveyRefusal {
    ghost use Rattle.std.specs.Prelude.{◌≡◌};
    ghost use Rattle.pfc_store.specs.declared.broken.SurveyRefusal.TheVariants as refusals;

    ghost from_gives = { λ broken e. e ≡ refusals.Device broken };

    fn from(broken: Broken) -> Self {
        SurveyRefusal::Device(broken)
    }
}

impl From<Memory> for SurveyRefusal {
    ghost use Rattle.std.specs.Prelude.{◌≡◌};
    ghost use Rattle.pfc_store.specs.declared.broken.SurveyRefusal.TheVariants as refusals;

    ghost from_gives = { λ _ e. e ≡ refusals.Memory };

    fn from(_: Memory) -> Self {
        SurveyRefusal::Memory
    }
}
