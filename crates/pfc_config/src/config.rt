// A whole configuration.
ghost use Rattle.std.specs.Prelude.{◌≡◌, ℕ, List, [], ◌∷◌, ◌++◌, ◌+◌, ◌≤◌, ◌*◌, ◌/◌, length, Some, None, MatchResult, IfOk};
ghost use Rattle.pfc_base.specs.Pieces.{pieces_of};
ghost use Rattle.pfc_config.specs.Config.{configured, kind_of, first_bad, config_by, or_default, with_room, IsWithinRanges};
ghost use Rattle.pfc_config.specs.Settings.{set_by, ram_line, AreSetBy};

use crate::line::read_line;
use crate::refusal::{ConfigRefusal, Kind};
use crate::settings::Settings;
use pfc_base::next_piece;

/// The longest file, in bytes.
const MOST_BYTES: usize = 1 << 20;

/// What the directives of a site come to.
#[derive(Clone, Copy, Debug, PartialEq, Eq)]
pub struct Config {
    /// The bytes of a block.
    pub blocksize: u64,
    /// The bytes of memory for blocks in flight or unwritten, of all files together.
    pub ram: u64,
    /// How many blocks are written before a sync is due.
    pub flush: u64,
    /// The bytes that a purge leaves on disk.
    pub low: u64,
    /// The bytes on disk above which a purge begins.
    pub high: u64,
    /// How many blocks of a file are prefetched at a time.
    pub prefetch: u32,
    /// How many blocks wait to be written.
    pub queue: u32,
    /// How many threads write.
    pub writers: u32,
}

/// What the lines set, one after the other, up to the first bad one.
fn read_lines(bytes: &[u8], capacity: u64) -> Result<Settings, ConfigRefusal>
    requires { length bytes.now ≤ 1048576 }
    ensures { MatchResult result
        (λ settings. (first_bad capacity [] (pieces_of 10 bytes.now) ≡ None) × AreSetBy capacity (pieces_of 10 bytes.now) settings)
        (λ refusal. first_bad capacity [] (pieces_of 10 bytes.now) ≡ Some refusal) }
{
    let mut settings = Settings::new();
    let mut rest = bytes;
    let mut line = 1u32;
    'lines: loop {
        let (text, more) = next_piece(rest, b'\n');
        if let Err(kind) = settings.take(text, line, capacity) {
            return Err(ConfigRefusal::Bad { line, kind });
        }
        match more {
            None => return Ok(settings),
            Some(after) => rest = after,
        }
        line += 1;
    }
}

/// Reads the directives of a site's configuration, for a cache of so many bytes. Lines of other components are
/// passed over. The first bad line is refused with the first kind that fits it; memory without room for four
/// blocks is refused last, on its own line. Takes no memory, in one pass over the lines.
pub fn read_config(bytes: &[u8], capacity: u64) -> Result<Config, ConfigRefusal>
    ensures value { result ≡ configured bytes.now capacity }
    ensures ranges { IfOk result (IsWithinRanges capacity) }
{
    if bytes.len() > MOST_BYTES {
        return Err(ConfigRefusal::Bad {
            line: 0,
            kind: Kind::TooLong,
        });
    }
    read_lines(bytes, capacity)?.config(capacity)
}
