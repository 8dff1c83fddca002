// The words of a line.
ghost use Rattle.std.specs.Prelude.{◌≡◌, ◌≤◌, length, reverse, option_map};
ghost use Rattle.std.specs.List.{prefix_len, find};
ghost use Rattle.std.specs.Option.{option_copied};
ghost use Rattle.std.specs.Prelude.{not};
ghost use Rattle.pfc_config.specs.Words as word;

/// A word that begins so ends the line.
const COMMENT: u8 = b'#';

fn is_blank(byte: u8) -> bool
    ensures { result ≡ word.is_blank byte }
{
    byte == b' ' || byte == b'\t' || byte == b'\r'
}

/// How many blanks stand in front.
fn blanks(bytes: &[u8]) -> usize
    ensures value { result ≡ prefix_len word.is_blank bytes.now }
    ensures within { result ≤ length bytes.now }
{
    bytes.iter().take_while(|b| is_blank(**b)).count()
}

/// How many bytes stand before the first blank.
fn word_len(bytes: &[u8]) -> usize
    ensures value { result ≡ prefix_len (λ b. not (word.is_blank b)) bytes.now }
    ensures within { result ≤ length bytes.now }
{
    bytes.iter().take_while(|b| !is_blank(**b)).count()
}

/// The last byte that isn't blank.
fn last_inked(line: &[u8]) -> Option<&u8>
    ensures { option_copied result ≡ find (λ b. not (word.is_blank b)) (reverse line.now) }
{
    line.iter().rev().find(|b| !is_blank(**b))
}

/// Whether the last byte that isn't blank is a backslash.
pub(crate) fn is_continued(line: &[u8]) -> bool
    ensures { result ≡ word.is_continued line.now }
{
    match last_inked(line) {
        Some(last) => *last == b'\\',
        None => false,
    }
}

/// What stands behind the blanks in front.
fn trimmed(bytes: &[u8]) -> &[u8]
    ensures words { word.words_of result.now ≡ word.words_of bytes.now }
    ensures front { prefix_len word.is_blank result.now ≡ 0 }
    ensures within { length result.now ≤ length bytes.now }
{
    bytes.split_at(blanks(bytes)).1
}

/// The first word of a line and what stands behind it, or nothing where the line has no word.
pub(crate) fn next_word(bytes: &[u8]) -> Option<(&[u8], &[u8])>
    ensures { word.BeginsWord bytes.now (option_map (λ begun. (begun.0.now, begun.1.now)) result) }
{
    let text = trimmed(bytes);
    let len = word_len(text);
    if len == 0 || text[0] == COMMENT {
        return None;
    }
    Some(text.split_at(len))
}
