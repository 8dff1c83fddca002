// What the words behind a directive set.
ghost use Rattle.std.specs.Prelude.{◌≡◌, ◌≢◌, ℕ, ◌∷◌, [], length, MatchResult};
ghost use Rattle.pfc_config.specs.Directive.{ReadsArgs, TakesArgs};
ghost use Rattle.pfc_config.specs.Words.{words_of};
ghost use Rattle.pfc_config.specs.declared.directive.Directive.TheVariants as directive;

use crate::directive::Directive;
use crate::mark::mark;
use crate::refusal::Kind;
use crate::words::next_word;
use pfc_base::{decimal, size};

const BLOCK_SIZE_MIN: u64 = 4 << 10;

const BLOCK_SIZE_MAX: u64 = 16 << 20;

const RAM_MAX: u64 = 64 << 30;

const PREFETCH_MAX: u64 = 128;

const QUEUE_MAX: u64 = 1024;

const WRITERS_MAX: u64 = 16;

const FLUSH_MAX: u64 = 100000;

/// What one line sets.
#[derive(Clone, Copy, Debug, PartialEq, Eq)]
pub(crate) enum Setting {
    BlockSize(u64),
    Ram(u64),
    Prefetch(u32),
    WriteQueue(u32, u32),
    Flush(u64),
    DiskUsage(u64, u64),
}

/// The one word that stands here.
fn one_word(args: &[u8]) -> Result<&[u8], Kind>
    ensures { MatchResult result (λ word. words_of args.now ≡ word.now ∷ [])
        (λ kind. (kind ≡ Kind.Arity) × (length (words_of args.now) ≢ 1)) }
{
    match next_word(args) {
        Some((word, rest)) if next_word(rest).is_none() => Ok(word),
        _ => Err(Kind::Arity),
    }
}

/// The two words that stand here.
fn two_words(args: &[u8]) -> Result<(&[u8], &[u8]), Kind>
    ensures { MatchResult result (λ words. words_of args.now ≡ words.0.now ∷ words.1.now ∷ [])
        (λ kind. (kind ≡ Kind.Arity) × (length (words_of args.now) ≢ 2)) }
{
    let (first, rest) = next_word(args).ok_or(Kind::Arity)?;
    Ok((first, one_word(rest)?))
}

fn block_size(args: &[u8]) -> Result<Setting, Kind>
    ensures { ReadsArgs 0 directive.BlockSize (words_of args.now) result }
{
    let bytes = size(one_word(args)?).ok_or(Kind::Number)?;
    if bytes < BLOCK_SIZE_MIN || bytes > BLOCK_SIZE_MAX || bytes % BLOCK_SIZE_MIN != 0 {
        return Err(Kind::Range);
    }
    Ok(Setting::BlockSize(bytes))
}

fn ram(args: &[u8]) -> Result<Setting, Kind>
    ensures { ReadsArgs 0 directive.Ram (words_of args.now) result }
{
    let bytes = size(one_word(args)?).ok_or(Kind::Number)?;
    if bytes > RAM_MAX {
        return Err(Kind::Range);
    }
    Ok(Setting::Ram(bytes))
}

fn prefetch(args: &[u8]) -> Result<Setting, Kind>
    ensures { ReadsArgs 0 directive.Prefetch (words_of args.now) result }
{
    let blocks = decimal(one_word(args)?).ok_or(Kind::Number)?;
    if blocks > PREFETCH_MAX {
        return Err(Kind::Range);
    }
    Ok(Setting::Prefetch(blocks as u32))
}

fn write_queue(args: &[u8]) -> Result<Setting, Kind>
    ensures { ReadsArgs 0 directive.WriteQueue (words_of args.now) result }
{
    let (jobs, writers) = two_words(args)?;
    let jobs = decimal(jobs).ok_or(Kind::Number)?;
    let writers = decimal(writers).ok_or(Kind::Number)?;
    if jobs < 1 || jobs > QUEUE_MAX || writers < 1 || writers > WRITERS_MAX {
        return Err(Kind::Range);
    }
    Ok(Setting::WriteQueue(jobs as u32, writers as u32))
}

fn flush(args: &[u8]) -> Result<Setting, Kind>
    ensures { ReadsArgs 0 directive.Flush (words_of args.now) result }
{
    let blocks = decimal(one_word(args)?).ok_or(Kind::Number)?;
    if blocks < 1 || blocks > FLUSH_MAX {
        return Err(Kind::Range);
    }
    Ok(Setting::Flush(blocks))
}

fn disk_usage(args: &[u8], capacity: u64) -> Result<Setting, Kind>
    ensures { ReadsArgs capacity directive.DiskUsage (words_of args.now) result }
{
    let (low, high) = two_words(args)?;
    let low = mark(capacity, low).ok_or(Kind::Number)?;
    let high = mark(capacity, high).ok_or(Kind::Number)?;
    if low >= high || high > capacity {
        return Err(Kind::Range);
    }
    Ok(Setting::DiskUsage(low, high))
}

/// What the words behind a directive set, if it sets anything.
pub(crate) fn read_args(
    directive: Directive,
    args: &[u8],
    capacity: u64,
) -> Result<Option<Setting>, Kind>
    ensures { TakesArgs capacity directive (words_of args.now) result }
{
    match directive {
        Directive::BlockSize => block_size(args).map(Some),
        Directive::Ram => ram(args).map(Some),
        Directive::Prefetch => prefetch(args).map(Some),
        Directive::WriteQueue => write_queue(args).map(Some),
        Directive::Flush => flush(args).map(Some),
        Directive::DiskUsage => disk_usage(args, capacity).map(Some),
        Directive::User | Directive::Trace => one_word(args).map(|_| None),
        Directive::Spaces => two_words(args).map(|_| None),
    }
}
