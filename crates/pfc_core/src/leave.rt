ghost use Rattle.std.specs.Prelude.{◌≡◌, ◌<◌, ◌≤◌};
ghost use Rattle.pfc_base.specs.Block.{IsPartOf};
ghost use Rattle.pfc_core.specs.Leave.{leave_of};

use crate::tag::Tag;
use crate::token::{OnDisk, Pin};
use pfc_base::Part;
use pfc_world::{Known, World};
use std::marker::Model;

/// The right to read one part of a block straight from the origin, once. The log has its entry already. It must be spent.
pub struct Leave<W: World> {
    pub(crate) known: Known<W>,
    pub(crate) block_size: u64,
    client: u32,
    pub(crate) part: Part,
}

impl<W: World> Model for Leave<W> {
    ghost use Rattle.pfc_core.specs.Leave.{LeaveView, IsInFile};

    ghost Value = { LeaveView };

    ghost view = { λ l. record { client = l.client; path = l.known.path; size = l.known.size; block_size = l.block_size; part = l.part } };

    ghost invariant = { λ l. IsInFile l.known.size l.block_size l.part };
}

impl<W: World> Leave<W> {
    pub fn client(&self) -> u32
        ensures { result ≡ self.now.client }
    {
        self.client
    }

    pub fn known(&self) -> &Known<W>
        ensures path { result.now.path ≡ self.now.path }
        ensures size { result.now.size ≡ self.now.size }
    {
        &self.known
    }

    /// The block size in bytes.
    pub fn block_size(&self) -> u64
        ensures value { result ≡ self.now.block_size }
        ensures some { 0 < result }
        ensures most { result ≤ 16777216 }
    {
        self.block_size
    }

    pub fn part(&self) -> Part
        ensures value { result ≡ self.now.part }
        ensures within { IsPartOf self.now.size self.now.block_size result }
    {
        self.part
    }

    /// Ends a leave by which nothing is read.
    pub fn discard(self) {
        let Leave {
            known,
            block_size: _,
            client: _,
            part: _,
        } = self;
        drop(known);
    }
}

/// A leave for the client of a token, in the token's place.
fn leave_by<W: World>(tag: Tag<W>, part: Part) -> Leave<W>
    requires { IsPartOf tag.known.size tag.block_size part }
    ensures { result ≡ record { client = tag.held.client; path = tag.known.path; size = tag.known.size; block_size = tag.block_size; part = part } }
{
    let Tag {
        known,
        block_size,
        held,
        ..
    } = tag;
    Leave {
        known,
        block_size,
        client: held.client,
        part,
    }
}

/// A leave in the place of a pin.
pub(crate) fn leave_for<W: World>(pin: Pin<W>, part: Part) -> Leave<W>
    requires { IsPartOf pin.size pin.block_size part }
    ensures { result ≡ leave_of pin part }
{
    let Pin { tag } = pin;
    leave_by(tag, part)
}

/// A leave in the place of a token for a block on disk.
pub(crate) fn leave_for_disk<W: World>(disk: OnDisk<W>, part: Part) -> Leave<W>
    requires { IsPartOf disk.size disk.block_size part }
    ensures { result ≡ leave_of disk part }
{
    let OnDisk { tag } = disk;
    leave_by(tag, part)
}

/// A client's leave for a part of a file.
pub(crate) fn leave_at<W: World>(n: u32, known: Known<W>, block_size: u64, part: Part) -> Leave<W>
    requires some { 0 < block_size }
    requires most { block_size ≤ 16777216 }
    requires part { IsPartOf known.size block_size part }
    ensures { result ≡ record { client = n; path = known.path; size = known.size; block_size = block_size; part = part } }
{
    Leave {
        known,
        block_size,
        client: n,
        part,
    }
}
