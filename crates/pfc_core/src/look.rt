ghost use Rattle.std.specs.Prelude.{◌≡◌};
ghost use Rattle.pfc_core.specs.Fates.{HasFate, IsWhose};

use crate::held::{Held, Tokens};
use crate::leave::Leave;
use crate::shelf::Shelf;
use crate::slot::Slot;
use crate::token::Pin;
use pfc_world::World;

/// What has become of a pin's flight. The pin comes back where it is still out.
pub enum Look<W: World> {
    /// The flight is out.
    Flying(Pin<W>),
    /// The block is in memory, and the part was copied.
    Ready(Pin<W>),
    /// Another client's flight failed. The part may be read straight from the origin.
    Lost(Leave<W>),
    /// The client's own flight failed. No direct read follows.
    Own(Pin<W>),
    /// The core doesn't know the pin. The part may be read straight from the origin.
    Stray(Leave<W>),
}

/// What has become of a pin, with the slot of its flight.
pub(crate) enum Fate {
    Stray,
    Flying(Slot),
    Ready(Slot),
    Lost,
    Own,
}

/// The fate of a pin whose flight has no slot any more.
fn bare(held: Held) -> Fate
    ensures { IsWhose held result }
{
    if held.owner == held.client {
        return Fate::Own;
    }
    Fate::Lost
}

pub(crate) fn fate_of<W: World>(held: Held, shelf: &Shelf<W>, pins: &Tokens) -> Fate
    ensures { HasFate held shelf.now.slots pins.now.list result }
{
    if !pins.has(held) {
        return Fate::Stray;
    }
    let Some(slot) = shelf.find(held.block) else {
        return bare(held);
    };
    if slot.ticket != held.flight {
        return bare(held);
    }
    if slot.landed {
        return Fate::Ready(slot);
    }
    Fate::Flying(slot)
}
