ghost use Rattle.std.specs.Prelude.{◌≡◌, ◌++◌, OnOk, OnErr};
ghost use Rattle.std.specs.Fmt.{decimal};

use crate::Memory;
use std::alloc::Global;

/// Appends these bytes.
pub fn push_word(out: &mut Vec<u8>, word: &[u8]) -> Result<(), Memory>
    ensures ok { OnOk result (out.new.items ≡ out.old.items ++ word.now) }
{
    out.extend_from_slice(word)?;
    Ok(())
}

/// Appends the decimal of a number.
pub fn push_number(alloc: Global, out: &mut Vec<u8>, n: u64) -> Result<(), Memory>
    ensures ok { OnOk result (out.new.items ≡ out.old.items ++ decimal n) }
{
    let text = n.to_string(alloc)?;
    push_word(out, text.as_bytes())
}
