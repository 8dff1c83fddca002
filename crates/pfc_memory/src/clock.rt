// Clocks in memory.
ghost use Rattle.std.specs.Prelude.{◌≡◌, ◌+◌, ◌<◌, slice_index, vec_len, nat_lt, if◌then◌else◌};

use pfc_world::Clock;

/// Tells moments from a list, one after another, and then the last one again. An empty list tells 0.
#[derive(Drop)]
pub struct ListClock {
    values: Vec<u64>,
    // The number of the next moment.
    at: usize,
}

impl ListClock {
    /// Tells these moments, in seconds since 1970.
    pub fn new(values: Vec<u64>) -> ListClock
        ensures values { result.values ≡ values }
        ensures at { result.at ≡ 0 }
    {
        ListClock { values, at: 0 }
    }
}

impl Clock for ListClock {
    fn now(&mut self) -> u64
        ensures value { result ≡ slice_index self.old.values.items self.old.at }
        ensures values { self.new.values ≡ self.old.values }
        ensures at { self.new.at ≡ (if nat_lt (self.old.at + 1) (vec_len self.old.values) then self.old.at + 1 else self.old.at) }
    {
        let Some(value) = self.values.get(self.at) else {
            return 0;
        };
        let value = *value;
        if self.at + 1 < self.values.len() {
            self.at += 1;
        }
        value
    }
}
