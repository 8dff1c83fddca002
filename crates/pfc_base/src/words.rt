// Bits in lists of words of 64 bits: the low word first, and in a word the low bit.
ghost use Rattle.std.specs.Prelude.{◌≡◌, ◌<◌, ◌≤◌, ◌^◌, ◌+◌, ◌-◌, ◌*◌, ◌/◌, ◌==◌, ◌++◌, ℕ, Bool, length, take, replicate, IfOk, OnOk, OnErr, slice_index, sum_by, bit_and};
ghost use Rattle.std.specs.List.{prefix_len, list_all, zip};
ghost use Rattle.std.specs.Int.{bit_at, bit_not, to_le_bytes, w64};
ghost use Rattle.std.specs.Int.RustNames.{count_ones};
ghost use Rattle.pfc_base.specs.Words.{bit_of, bit_in, bytes_of, has_bit, NonePass, IsFirst};

use std::alloc::{AllocError, Global};
use std::simd::prelude::*;

fn ones_one_by_one(words: &[u64]) -> u64
    requires { length words.now < 2 ^ 57 }
    ensures { result ≡ sum_by count_ones words.now }
{
    let mut total = 0u64;
    for w in words {
        total += u64::from(w.count_ones());
    }
    total
}

/// How many bits of these words are set, four words at a time.
pub fn ones(words: &[u64]) -> u64
    requires { length words.now < 2 ^ 57 }
    ensures { result ≡ sum_by count_ones words.now }
{
    let mut sum = u64x4::splat(0);
    let mut rest = words;
    while let Some((four, more)) = rest.split_first_chunk::<4>() {
        sum = sum.strict_add(u64x4::from_array(*four).count_ones());
        rest = more;
    }
    sum.strict_reduce_sum() + ones_one_by_one(rest)
}

fn equal_in_eight(words: &[u64; 8], word: u64) -> u32
    ensures { result ≡ prefix_len (λ w. w == word) words.now }
{
    let others = u64x8::from_array(*words)
        .simd_ne(u64x8::splat(word))
        .to_bitmask();
    if others == 0 {
        8
    } else {
        others.trailing_zeros()
    }
}

fn equal_one_by_one(words: &[u64], word: u64) -> usize
    ensures { result ≡ prefix_len (λ w. w == word) words.now }
{
    let mut n = 0;
    let mut rest = words;
    while let Some((w, more)) = rest.split_first() {
        if *w != word {
            return n;
        }
        n += 1;
        rest = more;
    }
    n
}

/// How many words stand before the first that isn't this one.
fn equal_words(words: &[u64], word: u64) -> usize
    ensures { result ≡ prefix_len (λ w. w == word) words.now }
{
    let mut n = 0;
    let mut rest = words;
    while let Some((eight, more)) = rest.split_first_chunk::<8>() {
        let k = equal_in_eight(eight, word);
        if k < 8 {
            return n + k as usize;
        }
        n += 8;
        rest = more;
    }
    n + equal_one_by_one(rest, word)
}

/// The least place in a word, not below `from`, that has this bit.
fn first_in_word(word: u64, from: u32, bit: bool) -> Option<u32>
    requires { from < 64 }
    ensures { IsFirst (λ i. bit_at word i == bit_of bit) from 64 result }
{
    let shown = if bit { word } else { !word };
    let rest = shown & (u64::MAX << from);
    if rest == 0 {
        None
    } else {
        Some(rest.trailing_zeros())
    }
}

/// The first word, from one on, that has this bit somewhere, or how many words there are.
fn next_word(words: &[u64], at: usize, bit: bool) -> usize
    requires { at ≤ length words.now }
    ensures low { at ≤ result }
    ensures high { result ≤ length words.now }
    ensures before { NonePass (has_bit words.now bit) (64 * at) (64 * result) }
    ensures has { result < length words.now → ¬ NonePass (λ i. bit_at (slice_index words.now result) i == bit_of bit) 0 64 }
{
    let other = if bit { 0 } else { u64::MAX };
    at + equal_words(&words[at..], other)
}

/// The least place with this bit, from the start of a word on.
fn first_from_word(words: &[u64], at: usize, bit: bool) -> Option<u64>
    requires at { at ≤ length words.now }
    requires most { length words.now < 2 ^ 57 }
    ensures { IsFirst (has_bit words.now bit) (64 * at) (64 * length words.now) result }
{
    let place = next_word(words, at, bit);
    if place == words.len() {
        return None;
    }
    match first_in_word(words[place], 0, bit) {
        None => None,
        Some(i) => Some(64 * place as u64 + u64::from(i)),
    }
}

/// The least place with this bit that isn't below `from`.
pub fn first_place(words: &[u64], from: u64, bit: bool) -> Option<u64>
    requires { length words.now < 2 ^ 57 }
    ensures { IsFirst (has_bit words.now bit) from (64 * length words.now) result }
{
    if from / 64 >= words.len() as u64 {
        return None;
    }
    let at = (from / 64) as usize;
    match first_in_word(words[at], (from % 64) as u32, bit) {
        Some(i) => Some(64 * at as u64 + u64::from(i)),
        None => first_from_word(words, at + 1, bit),
    }
}

/// The least place whose bit is not set, and which isn't below `from`.
pub fn first_zero(words: &[u64], from: u64) -> Option<u64>
    requires { length words.now < 2 ^ 57 }
    ensures { IsFirst (λ i. bit_in 64 words.now i == 0) from (64 * length words.now) result }
{
    first_place(words, from, false)
}

/// Whether each bit that is set in the one is set in the other.
pub fn words_within(low: &[u64], high: &[u64]) -> bool
    requires { length low.now ≡ length high.now }
    ensures { result ≡ list_all (λ p. bit_and p.0 (bit_not w64 p.1) == 0) (zip low.now high.now) }
{
    low.iter().zip(high).all(|(a, b)| *a & !*b == 0)
}

/// A place that was found below some end, where it is below this bound too.
pub fn below(place: Option<u64>, bound: u32) -> Option<u32>
    ensures { (test : ℕ → Bool) (from end : ℕ) → bound ≤ end → IsFirst test from end place → IsFirst test from bound result }
{
    match place {
        None => None,
        Some(i) => {
            if i < u64::from(bound) {
                Some(i as u32)
            } else {
                None
            }
        }
    }
}

/// Appends the first `count` bytes of these words, the low byte of each first. Room is made first, so that
/// nothing is appended where it is refused.
pub fn append_bytes(words: &[u64], count: usize, into: &mut Vec<u8>) -> Result<(), AllocError>
    requires { count ≤ 8 * length words.now }
    ensures ok { OnOk result (into.new.items ≡ into.old.items ++ take count (bytes_of words.now)) }
    ensures err { OnErr result (into.new.items ≡ into.old.items) }
{
    into.reserve(count)?;
    let (whole, rest) = words.split_at(count / 8);
    for w in whole {
        into.extend_from_slice(&w.to_le_bytes()).unwrap();
    }
    if let [last, ..] = rest {
        into.extend_from_slice(&last.to_le_bytes()[..count % 8])
            .unwrap();
    }
    Ok(())
}

/// The word of fewer than eight bytes, with zeros behind them.
fn last_word(bytes: &[u8]) -> u64
    requires { length bytes.now < 8 }
    ensures { to_le_bytes w64 result ≡ bytes.now ++ replicate (8 - length bytes.now) 0 }
{
    let mut last = [0u8; 8];
    last[..bytes.len()].copy_from_slice(bytes);
    u64::from_le_bytes(last)
}

/// The words of these bytes, with zeros up to a whole word.
pub fn words_of(alloc: Global, bytes: &[u8]) -> Result<Vec<u64>, AllocError>
    requires { length bytes.now < 2 ^ 60 }
    ensures bytes { IfOk result (λ words. bytes_of words.items ≡ bytes.now ++ replicate (8 * ((length bytes.now + 7) / 8) - length bytes.now) 0) }
    ensures fits { IfOk result (λ words. (k : ℕ) → slice_index words.items k < 2 ^ 64) }
{
    let mut words = Vec::with_capacity(alloc, bytes.len().div_ceil(8))?;
    let mut rest = bytes;
    while let Some((eight, more)) = rest.split_first_chunk::<8>() {
        words.push(u64::from_le_bytes(*eight))?;
        rest = more;
    }
    if !rest.is_empty() {
        words.push(last_word(rest))?;
    }
    Ok(words)
}
