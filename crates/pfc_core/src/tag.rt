ghost use Rattle.std.specs.Prelude.{◌<◌, ◌≤◌};

use crate::held::Held;
use pfc_world::{Known, World};

/// What all tokens carry.
#[derive(Drop)]
pub(crate) struct Tag<W: World> {
    pub instance: u64,
    pub known: Known<W>,
    pub block_size: u64,
    pub held: Held,
    pub ghost some: { 0 < block_size },
    pub ghost most: { block_size ≤ 16777216 },
}
