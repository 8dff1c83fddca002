// The machine's clock.
ghost use Rattle.std.specs.Prelude.{◌≡◌};

use pfc_world::Clock;
use std::rt;

/// The machine's clock, in seconds since 1970. Where it can't be read, it gives the value that it gave last, and 0 before
/// it gave any.
#[derive(Drop)]
pub struct WallClock<R: rt::Clock + Send + Drop> {
    rt: R,
    last: u64,
}

impl<R: rt::Clock + Send + Drop> WallClock<R> {
    /// It gave nothing yet.
    pub fn new(rt: R) -> WallClock<R>
        ensures { result.last ≡ 0 }
    {
        WallClock { rt, last: 0 }
    }
}

impl<R: rt::Clock + Send + Drop> Clock for WallClock<R> {
    fn now(&mut self) -> u64
        ensures { result ≡ self.new.last }
    {
        if let Ok(time) = self.rt.since_1970() {
            self.last = time.as_secs();
        }
        self.last
    }
}
