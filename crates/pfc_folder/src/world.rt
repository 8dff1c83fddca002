ghost use Rattle.std.specs.Prelude.{[], false};

use pfc_world::World;

/// The files of a folder. Nothing is told of them.
pub struct FolderWorld;

impl World for FolderWorld {
    ghost files = { [] };

    ghost told = { false };

    ghost short = { tt };
}
