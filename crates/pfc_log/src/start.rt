use crate::entry::Uncached;
use pfc_base::BlockSet;

/// How a log starts: with the blocks that the file's cinfo claimed, or without a store. The start set of a log
/// without a store is empty.
#[derive(Drop)]
pub enum Start {
    Stored(BlockSet),
    Uncached(Uncached),
}
