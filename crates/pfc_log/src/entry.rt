/// Names a token: the core that gave it out, and its number there.
#[derive(Clone, Copy, Debug, PartialEq, Eq)]
pub struct Mark {
    pub instance: u64,
    pub number: u64,
}

/// A token that came to a core which doesn't know it, and the core's instance number.
#[derive(Clone, Copy, Debug, PartialEq, Eq)]
pub struct Stranger {
    pub token: Mark,
    pub instance: u64,
}

/// Why a file isn't cached: its path has the suffix of a cinfo file or of its temporary, it has too many blocks,
/// its volume couldn't be taken or opened, no shell of the catalog was free, or a loan came back strayed.
#[derive(Clone, Copy, Debug, PartialEq, Eq)]
pub enum Uncached {
    Suffix,
    Blocks,
    Volume,
    Shell,
    Strayed(Stranger),
}

/// Where a block was found.
#[derive(Clone, Copy, Debug, PartialEq, Eq)]
pub enum Spot {
    Ram,
    Disk,
}

/// Why a flight failed.
#[derive(Clone, Copy, Debug, PartialEq, Eq)]
pub enum Fell {
    Fault,
    Memory,
}

/// Why a landed block isn't written: the queue already held `capacity` jobs, the store is frozen, or the block was
/// there already.
#[derive(Clone, Copy, Debug, PartialEq, Eq)]
pub enum DropCause {
    Full { capacity: u32 },
    Frozen,
    There,
}

/// Why a part is read straight from the origin. The numbers of `Full` are bytes: what the budget held, what the block
/// wanted, and the limit.
#[derive(Clone, Copy, Debug, PartialEq, Eq)]
pub enum Way {
    Full { found: u64, want: u64, limit: u64 },
    Lost { ticket: u64 },
    Device,
    Uncached(Uncached),
}

/// The bytes of one read, by where they came from.
#[derive(Clone, Copy, Debug, PartialEq, Eq)]
pub struct Served {
    pub hit: u64,
    pub missed: u64,
    pub bypassed: u64,
}

/// One event of a file's core. A client is named by its number, and client 0 is the prefetcher.
#[derive(Clone, Copy, Debug, PartialEq, Eq)]
pub enum Entry {
    /// The client has opened the file.
    Opened {
        client: u32,
    },
    /// The client has closed it.
    Closed {
        client: u32,
    },
    /// A flight, a fetch of one block from the origin through the cache, has begun for the client.
    Begin {
        ticket: u64,
        block: u32,
        client: u32,
    },
    /// The client waits for a flight that is out.
    Join {
        ticket: u64,
        block: u32,
        client: u32,
    },
    /// The client found the block.
    Hit {
        block: u32,
        place: Spot,
        client: u32,
    },
    /// The client reads a part of the block straight from the origin.
    Direct {
        block: u32,
        client: u32,
        why: Way,
    },
    /// The flight brought its block into memory.
    Landed {
        ticket: u64,
    },
    /// The flight brought nothing.
    Failed {
        ticket: u64,
        why: Fell,
    },
    /// The block in memory will not be written.
    Dropped {
        block: u32,
        why: DropCause,
    },
    /// The block was written to the data device.
    Wrote {
        block: u32,
    },
    /// The block left memory.
    Left {
        block: u32,
    },
    /// A sync of the data device answered Ok.
    Synced,
    /// A cinfo was put that claims `count` blocks: those that were durable when the log had `at` entries.
    Claimed {
        at: u64,
        count: u32,
    },
    /// A device failed other than in a read: nothing is written from now on.
    Frozen,
    /// A loan came back strayed: the file is uncached from now on.
    WrittenOff,
    /// A read or vector read of the client ended with data.
    Served {
        client: u32,
        served: Served,
    },
}
