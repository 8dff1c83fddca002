ghost use Rattle.std.specs.Prelude.{◌≡◌, ◌+◌, ◌++◌, [], ◌<◌, ◌≤◌, ℕ, length, take, vec_len, IfOk, OnOk, OnErr, IsTrue};
ghost use Rattle.pfc_world.specs.Counts.{HasCause, RefusalCause};
ghost use Rattle.pfc_world.specs.Texts.{Appends, AppendsFront};

use crate::{Fault, Refusal, Sink, Source};
use std::alloc::{AllocError, Global};

/// How many bytes one read asks for.
const READ_SIZE: usize = 65536;

/// A buffer of so many bytes. The size is a parameter, so that no proof unfolds it.
fn buffer(alloc: Global, size: usize) -> Result<Vec<u8>, AllocError>
    ensures { IfOk result (λ buffer. vec_len buffer ≡ size) }
{
    vec![in alloc; 0u8; size]
}

/// Reads once, and appends what was read to the text.
fn read_on<I: Source>(input: &mut I, text: &mut Vec<u8>, place: &mut [u8]) -> Result<usize, Refusal>
    ensures count { IfOk result (λ n. (n ≤ length place.old) × (vec_len text.new ≡ vec_len text.old + n)) }
    ensures read { IfOk result (λ n. IsTrue I.told → text.old.items ++ I.left input.old ≡ text.new.items ++ I.left input.new) }
    ensures end { IfOk result (λ n. IsTrue I.told → 0 < length place.old → n ≡ 0 → I.left input.old ≡ []) }
    ensures cause { RefusalCause (I.faults input.old) (I.faults input.new) result }
{
    let n = input.read(place)?;
    text.extend_from_slice(&place[..n])?;
    Ok(n)
}

/// What is left of the source, up to `most` bytes. Whoever wants to know that it has no more asks for one byte more.
pub fn read_text<I: Source>(alloc: Global, input: &mut I, most: usize) -> Result<Vec<u8>, Refusal>
    ensures text { IfOk result (λ text. IsTrue I.told → text.items ≡ take most (I.left input.old)) }
    ensures most { IfOk result (λ text. vec_len text ≤ most) }
    ensures cause { RefusalCause (I.faults input.old) (I.faults input.new) result }
{
    let mut text = Vec::new(alloc);
    let mut place = buffer(alloc, READ_SIZE)?;
    while text.len() < most {
        let room = place.len().min(most - text.len());
        let n = read_on(input, &mut text, &mut place[..room])?;
        if n == 0 {
            break;
        }
    }
    Ok(text)
}

/// Writes all of the bytes, from the front on. After a fault a front of them is written.
pub fn write_text<S: Sink>(out: &mut S, bytes: &[u8]) -> Result<(), Fault>
    ensures ok { OnOk result (Appends S.told (S.written out.old) (S.written out.new) bytes.now) }
    ensures front { AppendsFront S.told (S.written out.old) (S.written out.new) bytes.now }
    ensures cause { HasCause (S.faults out.old) (S.faults out.new) result }
{
    let mut at = 0;
    while at < bytes.len() {
        at += out.write(&bytes[at..])?;
    }
    Ok(())
}
