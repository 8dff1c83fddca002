//! Slices, blocks, paths, numbers, checksums and sets of blocks: what every crate of the cache stands on.
#![tactic(auto)]

mod block;
mod block_set;
mod cinfo;
pub mod crc;
mod memory;
mod number;
mod path;
mod pieces;
mod text;
mod words;

pub use block::{Part, Piece, block_count, block_len, slice};
pub use block_set::BlockSet;
pub use cinfo::cinfo_says_one_thing;
pub use memory::Memory;
pub use number::{decimal, digits, size};
pub use path::{Path, PathRefusal};
pub use pieces::next_piece;
pub use text::{push_number, push_word};
pub use words::{first_zero, ones};
