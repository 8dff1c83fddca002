//! What a request asks of a file, and its parts: each piece, cut at the ends of the file's blocks.
#![tactic(auto)]

mod pieces;
mod tile;

pub use pieces::{MOST_PIECES, PieceList, Pieces, asked, total};
pub use tile::parts;
