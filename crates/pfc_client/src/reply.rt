ghost use Rattle.std.specs.Prelude.{◌≡◌, ◌<◌, ◌≤◌, ◌*◌, ◌+◌, ◌^◌, ◌++◌, length, slice_index, OnOk};
ghost use Rattle.hex.specs.Hex.{encode_lower, lower_digits};
ghost use Rattle.pfc_span.specs.Pieces.{pieces_in, total_of};
ghost use Rattle.pfc_client.specs.Replies.{reply_text_of, reply_with, bytes_text};

use crate::vector::{VectorBytes, push_vector};
use pfc_base::{Memory, push_number, push_word};
use pfc_span::Pieces;
use std::alloc::Global;
use std::marker::Model;

/// Bytes that contracts see as a list.
#[derive(Drop)]
pub struct Octets {
    bytes: Vec<u8>,
}

impl Model for Octets {
    ghost use Rattle.std.specs.Prelude.{ℕ, List};

    ghost Value = { List ℕ };

    ghost view = { λ o. o.bytes.items };
}

impl Octets {
    pub fn new(bytes: Vec<u8>) -> Octets
        ensures { result ≡ bytes.items }
    {
        Octets { bytes }
    }

    pub fn as_slice(&self) -> &[u8]
        ensures { result.now ≡ self.now }
    {
        &self.bytes
    }
}

/// What a client is told of one request.
#[derive(Drop)]
pub enum Reply {
    /// The file is open, and has so many bytes.
    Size(u64),
    /// The descriptor is free again.
    Closed,
    /// The bytes of a read, cut at the file's end.
    Bytes(Octets),
    /// The bytes of each piece of a vector read, cut at the file's end.
    Vector(VectorBytes),
    /// The line has no request's form.
    Request,
    /// The third word of an open is no path.
    Path,
    /// The number is no descriptor, or in use at an open, or free at another request.
    Descriptor,
    /// More bytes were asked than one read gives.
    Range,
    /// The origin has no such file.
    NoFile,
    /// A call on the client's own link failed.
    Fetch,
    /// Memory was refused.
    Memory,
}

impl Reply {
    /// The reply with these bytes of the pieces of a file of `size` bytes, one piece behind the other.
    pub fn of_bytes(pieces: Pieces, size: u64, bytes: Vec<u8>) -> Reply
        requires { length bytes.items ≡ total_of size (pieces_in pieces) }
        ensures { result ≡ reply_with pieces size bytes.items }
    {
        match pieces {
            Pieces::One(_) => Reply::Bytes(Octets::new(bytes)),
            Pieces::Vector(list) => Reply::Vector(VectorBytes::new(list, size, bytes)),
        }
    }
}

/// One digit of a number below 16.
#[inline(always)]
fn digit(n: u8) -> u8
    requires { n < 16 }
    ensures { result ≡ slice_index lower_digits n }
{
    if n < 10 { n + 48 } else { n + 87 }
}

/// Two digits for each byte, over the whole of `out`. A plain loop without a table, which becomes vector code.
fn encode_into(bytes: &[u8], out: &mut [u8])
    requires { length out.old ≡ 2 * length bytes.now }
    ensures { out.new ≡ encode_lower bytes.now }
{
    for i in 0..bytes.len() {
        let b = bytes[i];
        out[2 * i] = digit(b >> 4);
        out[2 * i + 1] = digit(b & 15);
    }
}

/// Appends two digits for each byte.
pub(crate) fn push_hex(out: &mut Vec<u8>, bytes: &[u8]) -> Result<(), Memory>
    ensures { OnOk result (out.new.items ≡ out.old.items ++ encode_lower bytes.now) }
{
    let start = out.len();
    // More digits than a vector can have are more than memory has.
    let end = match bytes.len().checked_mul(2) {
        None => return Err(Memory),
        Some(digits) => match start.checked_add(digits) {
            None => return Err(Memory),
            Some(end) => end,
        },
    };
    out.resize(end, 0)?;
    encode_into(bytes, &mut out[start..]);
    Ok(())
}

/// Appends `data`, how many bytes there are, and their digits.
fn push_bytes(alloc: Global, out: &mut Vec<u8>, bytes: &[u8]) -> Result<(), Memory>
    ensures { OnOk result (out.new.items ≡ out.old.items ++ bytes_text bytes.now) }
{
    if bytes.is_empty() {
        return push_word(out, b"data 0 -");
    }
    push_word(out, b"data ")?;
    push_number(alloc, out, bytes.len() as u64)?;
    push_word(out, b" ")?;
    push_hex(out, bytes)
}

/// Appends the text of a reply, without its line's end.
pub fn push_reply(alloc: Global, out: &mut Vec<u8>, reply: &Reply) -> Result<(), Memory>
    ensures { OnOk result (out.new.items ≡ out.old.items ++ reply_text_of reply.now) }
{
    match reply {
        Reply::Size(n) => {
            push_word(out, b"ok ")?;
            push_number(alloc, out, *n)
        }
        Reply::Bytes(bytes) => push_bytes(alloc, out, bytes.as_slice()),
        Reply::Vector(vector) => push_vector(alloc, out, vector),
        Reply::Closed => push_word(out, b"ok"),
        Reply::Request => push_word(out, b"error request"),
        Reply::Path => push_word(out, b"error path"),
        Reply::Descriptor => push_word(out, b"error descriptor"),
        Reply::Range => push_word(out, b"error range"),
        Reply::NoFile => push_word(out, b"error nofile"),
        Reply::Fetch => push_word(out, b"error fetch"),
        Reply::Memory => push_word(out, b"error memory"),
    }
}
