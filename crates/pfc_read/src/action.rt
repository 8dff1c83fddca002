use pfc_base::Part;
use pfc_core::{Leave, OnDisk, Pin, Ticket};
use pfc_log::{Fell, Served};
use pfc_span::Pieces;
use pfc_world::World;

/// What is to be done next for a read.
pub enum Action<W: World> {
    /// Run the flight, land it or fail it, and supply how it ended.
    Run(Ticket<W>),
    /// Read the part of the leave straight from the origin, by `direct`.
    Direct(Leave<W>),
    /// See what has become of the pin's flight, by `look`.
    Look(Pin<W>, Part),
    /// Read the part from disk, by `read` with a loan of the file's store, and end the token; or leave the token, and `owe` the
    /// part a direct read.
    Disk(OnDisk<W>, Part),
    /// There is nothing more to do: `finish`.
    Finish,
}

/// How a flight of the read itself ended.
#[derive(Clone, Copy, Debug, PartialEq, Eq)]
pub enum Done {
    Landed,
    Failed(Fell),
}

/// What a look found.
#[derive(Clone, Copy, Debug, PartialEq, Eq)]
pub enum Saw {
    /// The flight is still out. The next action is the same look.
    Flying,
    /// The block is in memory, and the part was copied.
    Ready,
    /// Another client's flight failed: a direct read follows.
    Lost,
    /// The client's own flight failed, so the read ends without data.
    Own,
    /// The core doesn't know the pin: a direct read follows.
    Stray,
}

/// How a read ended.
#[derive(Drop)]
pub enum Answer {
    /// With data: the bytes of the pieces, one behind the other; the pieces and the file's size, which tell how many bytes
    /// each piece has; and where the bytes came from.
    Bytes {
        bytes: Vec<u8>,
        pieces: Pieces,
        size: u64,
        served: Served,
    },
    /// The origin failed, before anything else was missing.
    Fetch,
    /// Memory was refused, before the origin failed.
    Memory,
}
