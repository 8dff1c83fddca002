// Parts and their places in the reply.
ghost use Rattle.std.specs.Prelude.{◌≡◌, ◌+◌, ◌<◌, ◌^◌};

use pfc_base::Part;
use pfc_core::{Leave, OnDisk, Pin};
use pfc_world::World;

/// Where the bytes of a part come from: a block that was in memory or on disk, a flight that was waited for, or the origin
/// itself.
#[derive(Clone, Copy, Debug, PartialEq, Eq)]
pub(crate) enum Source {
    Cache,
    Flight,
    Origin,
}

/// A part that is still to be read, and where in the reply its bytes start.
#[derive(Clone, Copy, Debug, PartialEq, Eq)]
pub(crate) struct Segment {
    pub part: Part,
    pub at: usize,
    pub source: Source,
}

/// A part that waits to be looked at, with its pin.
#[derive(Drop)]
pub(crate) struct Pending<W: World> {
    pub pin: Pin<W>,
    pub segment: Segment,
}

/// A part that is on disk, with the right to read it there. The right must be spent.
pub(crate) struct Found<W: World> {
    pub disk: OnDisk<W>,
    pub segment: Segment,
}

/// A part that is owed a direct read. Its leave must be spent.
pub(crate) struct Owed<W: World> {
    pub leave: Leave<W>,
    pub segment: Segment,
}

impl<W: World> Owed<W> {
    pub fn discard(self) {
        let Owed { leave, segment: _ } = self;
        leave.discard();
    }
}

/// The action that was given out and isn't supplied yet, with the part that it is about.
#[derive(Clone, Copy, Debug, PartialEq, Eq)]
pub(crate) enum Hand {
    Nothing,
    Ticket,
    Leave(Segment),
    Pin(Segment),
    Disk(Segment),
    End,
}

/// How many parts were found in memory or on disk, wait for a flight, and are read by a leave, and how many flights of the
/// read failed.
#[derive(Clone, Copy, Debug, PartialEq, Eq)]
pub(crate) struct Counts {
    pub hits: u64,
    pub waits: u64,
    pub directs: u64,
    pub failed: u64,
}
