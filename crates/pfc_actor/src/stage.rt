// How far a client has come with its request.
ghost use Rattle.std.specs.Prelude.{◌≡◌};
ghost use Rattle.pfc_world.specs.Files.{HasSize};

use pfc_base::{Part, Path};
use pfc_core::{Job, OnDisk};
use pfc_read::ReadOp;
use pfc_span::Pieces;
use pfc_world::{Known, World};
use std::marker::Model;

/// A file that a client wants to open at a descriptor. The origin told its size.
#[derive(Drop)]
pub struct Wanted<W: World> {
    number: u64,
    known: Known<W>,
}

impl<W: World> Model for Wanted<W> {
    ghost use Rattle.pfc_actor.specs.Wanted.{WantedView};

    ghost Value = { WantedView };

    ghost view = { λ w. record { number = w.number; path = w.known.path; size = w.known.size } };
}

impl<W: World> Wanted<W> {
    pub fn new(number: u64, known: Known<W>) -> Wanted<W>
        ensures { result ≡ record { number = number; path = known.path; size = known.size } }
    {
        Wanted { number, known }
    }

    /// The descriptor.
    pub fn number(&self) -> u64
        ensures { result ≡ self.now.number }
    {
        self.number
    }

    pub fn path(&self) -> &Path
        ensures { result.now ≡ self.now.path }
    {
        self.known.path()
    }

    /// The size of the file in bytes, as the origin told it.
    pub fn size(&self) -> u64
        ensures size { result ≡ self.now.size }
        ensures right { HasSize W.told W.files self.now.path self.now.size }
    {
        self.known.size()
    }

    /// The file, for a core of its own.
    pub fn known(&self) -> Known<W>
        ensures path { result.path ≡ self.now.path }
        ensures size { result.size ≡ self.now.size }
    {
        self.known.copy()
    }
}

/// The stage of a client's request at work.
pub enum Stage<W: World> {
    /// No request is at work.
    Rest,
    /// An open whose size is known.
    Wanted(Wanted<W>),
    /// It made the core of this number, of its file.
    Making(Wanted<W>, u64),
    /// It found a core of its file.
    Joining(Wanted<W>),
    /// A read of an open descriptor that isn't planned yet.
    Planning(u64, Pieces),
    /// A close of an open descriptor.
    Closing(u64),
    /// The file was closed.
    Closed,
    /// A read that goes on with its next action.
    Reading(ReadOp<W>),
    /// A read that wants the file's store lent, for a part that is on disk.
    Loading(ReadOp<W>, OnDisk<W>, Part),
    /// The store was lent for the part.
    Borrowing(ReadOp<W>, OnDisk<W>, Part),
    /// The part was read, and the store is to be given back.
    Loaded(ReadOp<W>, OnDisk<W>),
    /// The part couldn't be read, and the store is to be given back.
    Refused(ReadOp<W>, OnDisk<W>, Part),
    /// The part couldn't be read, and is to be read from the origin.
    Broken(ReadOp<W>, OnDisk<W>, Part),
    /// A flight of the read landed, and its block is to be put to the queue.
    Landed(ReadOp<W>, Job<W>),
    /// The queue was full, with so many jobs.
    Full(ReadOp<W>, Job<W>, u32),
}
