// One file, read and judged.
ghost use Rattle.std.specs.Prelude.{◌≡◌, IfOk, true, false};
ghost use Rattle.pfc_world.specs.Counts.{RefusalCause};
ghost use Rattle.pfc_base.specs.Cinfo.{Cinfo, IsCinfo, cinfo_in};
ghost use Rattle.pfc_print.specs.Text.{file_text};
ghost use Rattle.pfc_print.specs.Shown.{AreRead, IsShown};

use crate::text::{push_cinfo, push_damaged};
use pfc_base::Memory;
use pfc_cinfo::{DecodeRefusal, decode};
use pfc_world::{Refusal, Sources, read_text};
use std::alloc::Global;

/// How many bytes of a file are looked at: one more than the longest cinfo has.
const READ_LIMIT: usize = 4194305;

/// The bytes of the file of this name, up to the limit.
fn read_file<H: Sources>(alloc: Global, host: &mut H, name: &str) -> Result<Vec<u8>, Refusal>
    ensures read { IfOk result (λ bytes. AreRead H.told (H.texts host.old) name.now bytes.items) }
    ensures cause { RefusalCause (H.faults host.old) (H.faults host.new) result }
    ensures texts { H.texts host.new ≡ H.texts host.old }
{
    let mut input = host.source(alloc, name)?;
    let bytes = read_text(alloc, &mut input, READ_LIMIT);
    host.done(input);
    bytes
}

/// The text of a file, and whether its bytes are no cinfo.
#[derive(Drop)]
pub(crate) struct Shown {
    pub text: Vec<u8>,
    pub damaged: bool,
}

/// What is printed of these bytes.
fn judge(alloc: Global, verbose: bool, name: &[u8], bytes: &[u8]) -> Result<Shown, Memory>
    ensures text { IfOk result (λ shown. shown.text.items ≡ file_text verbose name.now bytes.now) }
    ensures cinfo { IfOk result (λ shown. shown.damaged ≡ false → IsCinfo bytes.now (cinfo_in bytes.now)) }
    ensures none { IfOk result (λ shown. shown.damaged ≡ true → (cinfo : Cinfo) → ¬ IsCinfo bytes.now cinfo) }
{
    let mut text = Vec::new(alloc);
    match decode(alloc, bytes) {
        Ok(cinfo) => {
            push_cinfo(alloc, &mut text, verbose, name, &cinfo)?;
            Ok(Shown {
                text,
                damaged: false,
            })
        }
        Err(DecodeRefusal::Damaged(damage)) => {
            push_damaged(&mut text, name, damage)?;
            Ok(Shown {
                text,
                damaged: true,
            })
        }
        Err(DecodeRefusal::Memory) => Err(Memory),
    }
}

/// Reads a file and makes its text.
pub(crate) fn show<H: Sources>(
    alloc: Global,
    verbose: bool,
    name: &str,
    host: &mut H,
) -> Result<Shown, Refusal>
    ensures shown { IfOk result (λ shown. IsShown H.told (H.texts host.old) verbose name.now shown.text.items shown.damaged) }
    ensures cause { RefusalCause (H.faults host.old) (H.faults host.new) result }
    ensures texts { H.texts host.new ≡ H.texts host.old }
{
    let bytes = read_file(alloc, host, name)?;
    Ok(judge(alloc, verbose, name.as_bytes(), &bytes)?)
}
