// One line of a configuration.
ghost use Rattle.std.specs.Prelude.{◌≡◌, ◌||◌, ◌&&◌, codes, ◌∷◌};
ghost use Rattle.std.specs.List.{list_any};
ghost use Rattle.pfc_config.specs.Words.{words_of};
ghost use Rattle.pfc_config.specs.Directive.{is_word};
ghost use Rattle.pfc_config.specs.Line as line;

use crate::directive::find_directive;
use crate::refusal::Kind;
use crate::setting::{Setting, read_args};
use crate::words::{is_continued, next_word};

/// The longest line, in bytes.
const MOST_LINE: usize = 4096;

fn is_conditional(word: &[u8]) -> bool
    ensures { result ≡ line.is_conditional word.now }
{
    word == b"if".as_slice()
        || word == b"else".as_slice()
        || word == b"fi".as_slice()
        || word == b"set".as_slice()
        || word == b"continue".as_slice()
}

/// A directive of XRootD's cache that this cache doesn't have.
fn is_left_out(word: &[u8]) -> bool
    ensures { result ≡ line.is_left_out word.now }
{
    word == b"pfc.cschk".as_slice()
        || word == b"pfc.decisionlib".as_slice()
        || word == b"pfc.hdfsmode".as_slice()
        || word == b"pfc.onlyifcached".as_slice()
        || word == b"pfc.allow_xrdpfc_command".as_slice()
        || word == b"pfc.urlcgi".as_slice()
        || word == b"pfc.dirstats".as_slice()
}

/// A word of `pfc.diskusage` that this cache doesn't have.
fn is_purge_word(word: &[u8]) -> bool
    ensures { result ≡ line.is_purge_word word.now }
{
    word == b"files".as_slice()
        || word == b"purgeinterval".as_slice()
        || word == b"purgecoldfiles".as_slice()
}

fn any_dollar(text: &[u8]) -> bool
    ensures { result ≡ list_any line.has_dollar (words_of text.now) }
{
    let mut rest = text;
    'words: while let Some((word, after)) = next_word(rest) {
        if word.contains(&b'$') {
            return true;
        }
        rest = after;
    }
    false
}

fn any_purge_word(text: &[u8]) -> bool
    ensures { result ≡ list_any line.is_purge_word (words_of text.now) }
{
    let mut rest = text;
    'words: while let Some((word, after)) = next_word(rest) {
        if is_purge_word(word) {
            return true;
        }
        rest = after;
    }
    false
}

/// Whether the words ask for what this cache doesn't have.
fn are_unsupported(text: &[u8]) -> bool
    ensures { result ≡ line.are_unsupported (words_of text.now) }
{
    let Some((first, args)) = next_word(text) else {
        return false;
    };
    is_conditional(first)
        || is_left_out(first)
        || (first.starts_with(b"pfc.") && any_dollar(text))
        || (first == b"pfc.diskusage".as_slice() && any_purge_word(args))
}

/// What a line sets, if it sets anything.
#[tactic(auto, unfolding(crate::specs::Line::kind_alone))]
pub(crate) fn read_line(text: &[u8], capacity: u64) -> Result<Option<Setting>, Kind>
    ensures { line.ReadsLine capacity text.now result }
{
    if text.len() > MOST_LINE {
        return Err(Kind::TooLong);
    }
    if is_continued(text) || are_unsupported(text) {
        return Err(Kind::Unsupported);
    }
    let Some((first, args)) = next_word(text) else {
        return Ok(None);
    };
    if !first.starts_with(b"pfc.") {
        return Ok(None);
    }
    let directive = find_directive(first).ok_or(Kind::Unknown)?;
    read_args(directive, args, capacity)
}
