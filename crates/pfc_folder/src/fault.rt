ghost use Rattle.std.specs.Prelude.{◌≡◌, ◌≢◌, is_ok};
ghost use Rattle.std.specs.IoError.{error_kind};
ghost use Rattle.pfc_world.specs.Counts.{HasCause, add_count};

use pfc_world::{Fault, Refusal};
use std::io;
use std::io::ErrorKind;

/// A fault, which is counted here.
pub(crate) fn fault(faults: &mut u64) -> Fault
    ensures { faults.new ≡ add_count faults.old 1 }
{
    *faults = faults.saturating_add(1);
    Fault
}

/// What a call gave, its failure as a fault that is counted here.
pub(crate) fn counted<T: Drop>(outcome: io::Result<T>, faults: &mut u64) -> Result<T, Fault>
    ensures same { is_ok result ≡ is_ok outcome }
    ensures cause { HasCause faults.old faults.new result }
{
    match outcome {
        Ok(value) => Ok(value),
        Err(_) => Err(fault(faults)),
    }
}

/// The refusal that an error is, with no fault counted yet.
pub(crate) fn refusal_of(error: &io::Error) -> Refusal
    ensures memory { error_kind error.now ≡ ErrorKind.OutOfMemory → result ≡ Refusal.Memory }
    ensures fault { error_kind error.now ≢ ErrorKind.OutOfMemory → result ≡ Refusal.Fault }
{
    if error.kind() == ErrorKind::OutOfMemory {
        Refusal::Memory
    } else {
        Refusal::Fault
    }
}
