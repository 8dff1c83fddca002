//! Cinfo files: what they say, their one spelling, and the reader that takes nothing else.
#![tactic(auto)]

mod checks;
mod cinfo;
mod damage;
mod decoding;
mod encoding;
mod fields;
mod head;

pub use cinfo::Cinfo;
pub use damage::{Damage, DecodeRefusal};
pub use decoding::decode;
pub use encoding::{encode, encode_parts};
pub use head::{Head, MOST_RECORDS, Record, Records};

#[cfg(test)]
mod tests;
