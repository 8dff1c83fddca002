// Watermarks: sizes, and fractions of a capacity.
ghost use Rattle.std.specs.Prelude.{◌≡◌};
ghost use Rattle.pfc_config.specs.Directive.{fraction_of, mark_of};

use pfc_base::{digits, size};

/// The most digits behind the point of a fraction.
const MOST_DIGITS: usize = 6;

/// The capacity times these digits behind a point, rounded down.
fn fraction(capacity: u64, places: &[u8]) -> Option<u64>
    ensures { result ≡ fraction_of capacity places.now }
{
    if places.is_empty() || places.len() > MOST_DIGITS {
        return None;
    }
    let n = digits(places)?;
    let scale = 10u64.pow(places.len() as u32);
    Some((u128::from(capacity) * u128::from(n) / u128::from(scale)) as u64)
}

/// The bytes of a watermark: a size, or a fraction of the capacity such as `0.95`.
pub(crate) fn mark(capacity: u64, word: &[u8]) -> Option<u64>
    ensures { result ≡ mark_of capacity word.now }
{
    if word.starts_with(b"0.") {
        fraction(capacity, &word[2..])
    } else {
        size(word)
    }
}
