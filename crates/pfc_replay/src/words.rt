ghost use Rattle.std.specs.Prelude.{◌≡◌, option_map, map, string_bytes};
ghost use Rattle.pfc_replay.specs.Words.{capacity_of, call_of};

use pfc_base::size;

/// What the words of a call name.
#[derive(Clone, Copy)]
pub struct Call<'a> {
    /// The configuration's source.
    pub config: &'a str,
    /// The capacity of the cache's disk in bytes.
    pub capacity: u64,
    /// The schedule's source.
    pub schedule: &'a str,
}

/// The capacity of the cache's disk in bytes: a size from 1000 to 2^62.
fn read_capacity(word: &[u8]) -> Option<u64>
    ensures { result ≡ capacity_of word.now }
{
    match size(word) {
        None => None,
        Some(n) => {
            if n < 1000 {
                return None;
            }
            if n > 4611686018427387904 {
                return None;
            }
            Some(n)
        }
    }
}

/// What the words `<config> <origin> <cache> <capacity> <schedule>` name, and nothing where they are not of this form.
pub fn read_words(words: &[String]) -> Option<Call<'_>>
    ensures { option_map (λ call. record { config = call.config.now; capacity = call.capacity; schedule = call.schedule.now }) result ≡ call_of (map string_bytes words.now) }
{
    match words {
        [config, _, _, capacity, schedule] => match read_capacity(capacity.as_bytes()) {
            None => None,
            Some(capacity) => Some(Call {
                config: config.as_str(),
                capacity,
                schedule: schedule.as_str(),
            }),
        },
        _ => None,
    }
}
