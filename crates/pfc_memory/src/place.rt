// How durable the bytes of a data device in memory are.
ghost use Rattle.std.specs.Prelude.{◌≡◌};
ghost use Rattle.pfc_world.specs.Disk.{not_settled};
ghost use Rattle.pfc_memory.specs.Places.{after_sync, after_loss, place_of, place_at};

/// How durable the byte at a place is.
#[derive(Clone, Copy, Debug, PartialEq, Eq)]
pub(crate) enum Place {
    /// A crash leaves it as it reads.
    Settled,
    /// A crash may leave anything. The next sync settles it.
    Unsettled,
    /// A crash may leave anything. It has to be written again before a sync settles it.
    LeftOver,
}

impl Place {
    /// Whether a crash may leave another byte there.
    pub(crate) fn is_loose(self) -> bool
        ensures { result ≡ not_settled (place_of self) }
    {
        match self {
            Place::Settled => false,
            Place::Unsettled | Place::LeftOver => true,
        }
    }

    /// What it is after a sync.
    pub(crate) fn synced(self) -> Place
        ensures { result ≡ after_sync self }
    {
        match self {
            Place::Settled | Place::Unsettled => Place::Settled,
            Place::LeftOver => Place::LeftOver,
        }
    }

    /// What it is after a sync or a clear that failed.
    pub(crate) fn lost(self) -> Place
        ensures { result ≡ after_loss self }
    {
        match self {
            Place::Settled => Place::Settled,
            Place::Unsettled | Place::LeftOver => Place::LeftOver,
        }
    }
}

/// The place with a number. Places past the end of their list are settled.
pub(crate) fn place_at(places: &[Place], number: usize) -> Place
    ensures { result ≡ place_at places.now number }
{
    match places.get(number) {
        Some(place) => *place,
        None => Place::Settled,
    }
}
