ghost use Rattle.std.specs.Prelude.{◌≡◌, ◌<◌, IfSome, option_and_then};
ghost use Rattle.pfc_base.specs.Number.{decimal_of, digits_from, fitting, unit_of, scaled_by, size_of_text};

/// The greatest size, in bytes.
const SIZE_MAX: u64 = (1 << 63) - 1;

/// The number of these digits, if it is below 2^64. Leading zeros are taken, and no digits are 0.
pub fn digits(bytes: &[u8]) -> Option<u64>
    ensures { result ≡ option_and_then fitting (digits_from 0 bytes.now) }
{
    let mut n = 0u64;
    for b in bytes {
        if *b < b'0' || *b > b'9' {
            return None;
        }
        let d = u64::from(*b - b'0');
        if n > (u64::MAX - d) / 10 {
            return None;
        }
        n = n * 10 + d;
    }
    Some(n)
}

/// The number that these bytes spell: one or more digits, no leading zero but in `0` itself, below 2^64.
pub fn decimal(bytes: &[u8]) -> Option<u64>
    ensures { result ≡ decimal_of bytes.now }
{
    match bytes {
        [] => None,
        [_] => digits(bytes),
        [first, _, ..] => { if *first == b'0' { None } else { digits(bytes) } }
    }
}

/// What the last letter of a size multiplies it by.
fn unit(byte: u8) -> Option<u64>
    ensures value { result ≡ unit_of byte }
    ensures some { IfSome result (λ unit. 0 < unit) }
{
    match byte {
        b'k' | b'K' => Some(1 << 10),
        b'm' | b'M' => Some(1 << 20),
        b'g' | b'G' => Some(1 << 30),
        b't' | b'T' => Some(1 << 40),
        _ => None,
    }
}

/// The number of these digits times the unit, if it is below 2^63.
fn scaled(digits: &[u8], unit: u64) -> Option<u64>
    requires { 0 < unit }
    ensures { result ≡ scaled_by digits.now unit }
{
    let n = decimal(digits)?;
    if n > SIZE_MAX / unit {
        return None;
    }
    Some(n * unit)
}

/// The bytes that a size spells, such as `512k`: a decimal, or a decimal and one of the letters k, m, g and t in
/// either case, which multiply it by 1024, 1024^2, 1024^3 and 1024^4. The result is below 2^63.
pub fn size(bytes: &[u8]) -> Option<u64>
    ensures { result ≡ size_of_text bytes.now }
{
    let (last, front) = bytes.split_last()?;
    match unit(*last) {
        Some(unit) => scaled(front, unit),
        None => scaled(bytes, 1),
    }
}
