// A path keeps its bytes in place, so it is read and copied without memory. Contracts see its bytes.
ghost use Rattle.std.specs.Prelude.{◌≡◌, ◌↔◌, ◌==◌, List, ℕ, take, IsTrue, true, IfOk, IsOk, IsErr, length, ◌≤◌, ◌<◌, ◌∷◌};
ghost use Rattle.std.specs.Cmp.Lexicographic.{pointwise, slice_cmp};
ghost use Rattle.std.specs.Ordering.{nat_cmp, as_partial_cmp};
ghost use Rattle.std.specs.Cmp.{partial_order_from_own_ties};
ghost use Rattle.std.specs.Cmp.Rules.{comparing, hashing};
ghost use Rattle.std.specs.List.{list_all};
ghost use Rattle.std.specs.Hash as fed;
ghost use Rattle.std.proofs.Common.{rules};
ghost use Rattle.pfc_base.specs.Pieces.{pieces_of};
ghost use Rattle.pfc_base.specs.Path.{is_path, is_path_byte, is_name, all_names};

use crate::next_piece;
use std::cmp::Ordering;
use std::hash::{Hash, Hasher};
use std::marker::Model;

#[derive(Drop)]
pub struct Path {
    bytes: [u8; 255],
    used: u8,
}

impl Model for Path {
    ghost Value = { List ℕ };

    ghost view = { λ p. take p.used p.bytes };

    ghost invariant = { λ p. IsTrue (is_path (take p.used p.bytes)) };
}

#[derive(Clone, Copy, Debug, PartialEq, Eq)]
pub enum PathRefusal {
    Bad,
}

/// Neither empty nor one dot nor two.
fn name_ok(part: &[u8]) -> bool
    ensures { result ≡ is_name part.now }
{
    match part {
        [] => false,
        [a] => *a != b'.',
        [a, b] => !(*a == b'.' && *b == b'.'),
        _ => true,
    }
}

/// Each part between slashes is a name.
fn names_ok(bytes: &[u8]) -> bool
    ensures { result ≡ all_names (pieces_of 47 bytes.now) }
{
    let mut rest = bytes;
    'parts: loop {
        let (part, more) = next_piece(rest, b'/');
        if !name_ok(part) {
            return false;
        }
        match more {
            None => return true,
            Some(after) => rest = after,
        }
    }
}

/// Each byte may stand in a path.
fn bytes_ok(bytes: &[u8]) -> bool
    ensures { result ≡ list_all is_path_byte bytes.now }
{
    bytes.iter().all(|b| 33 <= *b && *b <= 126)
}

/// The bytes are a path.
fn path_ok(bytes: &[u8]) -> bool
    ensures { result ≡ is_path bytes.now }
{
    match bytes.split_first() {
        None => false,
        Some((first, rest)) => tail_ok(*first, rest),
    }
}

fn tail_ok(first: u8, rest: &[u8]) -> bool
    ensures { result ≡ is_path (first ∷ rest.now) }
{
    if first != b'/' || rest.len() > 254 {
        return false;
    }
    let bytes = bytes_ok(rest);
    let names = names_ok(rest);
    bytes && names
}

impl Path {
    /// The path of these bytes, if they are one.
    pub fn read(bytes: &[u8]) -> Result<Path, PathRefusal>
        ensures ok { IfOk result (λ path. path ≡ bytes.now) }
        ensures exact { IsOk result ↔ IsTrue (is_path bytes.now) }
    {
        if !path_ok(bytes) {
            return Err(PathRefusal::Bad);
        }
        let mut place = [0u8; 255];
        let used = bytes.len();
        place[..used].copy_from_slice(bytes);
        Ok(Path {
            bytes: place,
            used: used as u8,
        })
    }

    /// The bytes of the path.
    pub fn as_bytes(&self) -> &[u8]
        ensures bytes { result.now ≡ self.now }
        ensures path { IsTrue (is_path self.now) }
    {
        &self.bytes[..self.used as usize]
    }

    /// The same path once more.
    pub fn copy(&self) -> Path
        ensures { result ≡ self.now }
    {
        Path {
            bytes: self.bytes,
            used: self.used,
        }
    }
}

impl PartialEq for Path {
    ghost eq = { pointwise ◌==◌ };

    ghost laws = { Prim.search (comparing, rules) };

    fn eq(&self, other: &Path) -> bool {
        self.as_bytes() == other.as_bytes()
    }
}

impl Eq for Path {
    ghost laws = { Prim.search (comparing, rules) };
}

impl Ord for Path {
    ghost cmp = { slice_cmp nat_cmp };

    ghost total = { Prim.search (comparing, rules) };

    ghost matches_partial_cmp = { Prim.search (comparing, rules) };

    ghost matches_eq = { Prim.search (comparing, rules) };

    fn cmp(&self, other: &Path) -> Ordering {
        self.as_bytes().cmp(other.as_bytes())
    }
}

impl PartialOrd for Path {
    ghost partial_cmp = { as_partial_cmp (slice_cmp nat_cmp) };

    ghost laws = { partial_order_from_own_ties (Prim.search (comparing, rules)) (Prim.search (comparing, rules)) };

    fn partial_cmp(&self, other: &Path) -> Option<Ordering> {
        Some(self.cmp(other))
    }
}

impl Hash for Path {
    ghost hash_input = { fed.slice fed.u8 };

    ghost respects_eq = { Prim.search (hashing, rules) };

    fn hash<H: Hasher>(&self, state: &mut H) {
        self.as_bytes().hash(state);
    }
}
