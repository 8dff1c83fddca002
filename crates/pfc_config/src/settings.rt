// What the lines of a configuration have set so far.
ghost use Rattle.std.specs.Prelude.{◌≡◌, ◌≤◌, ℕ, ◌+◌, ◌*◌, ◌/◌, Option, Some, None, List, [], ◌∷◌, ◌++◌, length, is_some, MatchResult, if◌then◌else◌};
ghost use Rattle.pfc_config.specs.declared.directive.Directive.{Directive};
ghost use Rattle.pfc_config.specs.Directive.{directive_set, values_set, is_word, row_of};

use crate::config::Config;
use crate::directive::Directive;
use crate::line::read_line;
use crate::refusal::{ConfigRefusal, Kind};
use crate::setting::Setting;

const BLOCK_SIZE: u64 = 128 << 10;

const RAM: u64 = 256 << 20;

const PREFETCH: u32 = 10;

const QUEUE: u32 = 16;

const WRITERS: u32 = 4;

const FLUSH: u64 = 100;

/// So many hundredths of a capacity, rounded down.
fn percent(capacity: u64, hundredths: u64) -> u64
    requires { hundredths ≤ 100 }
    ensures { result ≡ capacity * hundredths / 100 }
{
    (u128::from(capacity) * u128::from(hundredths) / 100) as u64
}

#[derive(Drop)]
pub(crate) struct Settings {
    pub(crate) block_size: Option<u64>,
    /// The bytes, and the number of the line that set them.
    pub(crate) ram: Option<(u64, u32)>,
    pub(crate) prefetch: Option<u32>,
    /// The capacity of the queue, and its writers.
    pub(crate) write_queue: Option<(u32, u32)>,
    pub(crate) flush: Option<u64>,
    /// The watermarks, low and high, in bytes.
    pub(crate) disk_usage: Option<(u64, u64)>,
}

impl Settings {
    ghost use Rattle.pfc_config.specs.Settings.{set_by, ram_line, AreSetBy};
    ghost use Rattle.pfc_config.specs.Config.{kind_of, config_by, or_default, with_room};

    pub(crate) fn new() -> Self
        ensures { (directive : Directive) → set_by result directive ≡ None }
    {
        Settings {
            block_size: None,
            ram: None,
            prefetch: None,
            write_queue: None,
            flush: None,
            disk_usage: None,
        }
    }

    /// Takes what a line sets, and says whether its directive had been set before.
    pub(crate) fn put(&mut self, setting: Setting, line: u32) -> bool
        ensures stood { result ≡ is_some (set_by self.old (directive_set setting)) }
        ensures values { (other : Directive) → set_by self.new other
            ≡ (if is_word (row_of (directive_set setting)).name (row_of other).name then Some (values_set setting) else set_by self.old other) }
        ensures line { ram_line self.new
            ≡ (if is_word (row_of (directive_set setting)).name (row_of Directive.Ram).name then Some line else ram_line self.old) }
    {
        match setting {
            Setting::BlockSize(bytes) => self.block_size.replace(bytes).is_some(),
            Setting::Ram(bytes) => self.ram.replace((bytes, line)).is_some(),
            Setting::Prefetch(blocks) => self.prefetch.replace(blocks).is_some(),
            Setting::WriteQueue(queue, writers) => self
                .write_queue
                .replace((queue, writers))
                .is_some(),
            Setting::Flush(blocks) => self.flush.replace(blocks).is_some(),
            Setting::DiskUsage(low, high) => self.disk_usage.replace((low, high)).is_some(),
        }
    }

    /// Takes the next line.
    pub(crate) fn take(&mut self, text: &[u8], number: u32, capacity: u64) -> Result<(), Kind>
        ensures { (before : List (List ℕ)) → AreSetBy capacity before self.old → number ≡ length before + 1 →
            MatchResult result (λ _. (kind_of capacity before text.now ≡ None) × AreSetBy capacity (before ++ text.now ∷ []) self.new)
            (λ kind. kind_of capacity before text.now ≡ Some kind) }
    {
        match read_line(text, capacity)? {
            Some(setting) => if self.put(setting, number) {
                Err(Kind::Twice)
            } else {
                Ok(())
            },
            None => Ok(()),
        }
    }

    /// What the lines come to, with the defaults of the directives that they leave out.
    pub(crate) fn config(&self, capacity: u64) -> Result<Config, ConfigRefusal>
        ensures { result ≡ with_room (ram_line self.now) (config_by (or_default capacity (set_by self.now))) }
    {
        let (ram, line) = self.ram.unwrap_or((RAM, 0));
        let (queue, writers) = self.write_queue.unwrap_or((QUEUE, WRITERS));
        let (low, high) = self
            .disk_usage
            .unwrap_or((percent(capacity, 90), percent(capacity, 95)));
        let blocksize = self.block_size.unwrap_or(BLOCK_SIZE);
        if ram / 4 < blocksize {
            return Err(ConfigRefusal::Bad {
                line,
                kind: Kind::Range,
            });
        }
        Ok(Config {
            blocksize,
            ram,
            flush: self.flush.unwrap_or(FLUSH),
            low,
            high,
            prefetch: self.prefetch.unwrap_or(PREFETCH),
            queue,
            writers,
        })
    }
}
