ghost use Rattle.std.specs.Prelude.{◌≡◌, Ok, IfOk};

use anyhow::{Result, bail};
use pfc_base::Memory;
use std::io;
use std::rt::Clock;
use std::time::Instant;

/// How much a run does.
#[derive(Clone, Copy)]
pub enum Plan {
    /// A few rounds, whose lines are the same whatever the speed.
    Try,
    /// Enough rounds for a figure.
    Measure,
}

impl Plan {
    /// The rounds of one thread.
    pub fn rounds(self) -> u64 {
        match self {
            Plan::Try => 10,
            Plan::Measure => 1_000_000,
        }
    }
}

/// What one round took a thread, and a sum over all that was done, which keeps the compiler from leaving it out.
#[derive(Clone, Copy)]
pub struct Sample {
    nanoseconds: u64,
    sum: u64,
}

impl Sample {
    /// A sample of so many rounds of each thread, begun at `start` and over now.
    pub fn until_now(rt: &impl Clock, start: Instant, rounds: u64, sum: u64) -> io::Result<Self> {
        Ok(Sample::of_total(nanoseconds_since(rt, start)?, rounds, sum))
    }

    /// A sample of so many rounds that took so many nanoseconds in all.
    pub fn of_total(nanoseconds: u64, rounds: u64, sum: u64) -> Self {
        Sample {
            nanoseconds: nanoseconds / rounds.max(1),
            sum,
        }
    }
}

/// The time since `start`.
pub fn nanoseconds_since(rt: &impl Clock, start: Instant) -> io::Result<u64> {
    let nanoseconds = start.elapsed(rt)?.as_nanos();
    Ok(u64::try_from(nanoseconds).unwrap_or(u64::MAX))
}

/// Prints the line of a sample.
pub fn show(rt: &impl Print, plan: Plan, name: &str, sample: &Sample) -> io::Result<()> {
    let Sample { nanoseconds, sum } = *sample;
    match plan {
        Plan::Try => println!(rt; "{name}: sum {sum}"),
        Plan::Measure => println!(rt; "{name}: {nanoseconds} ns, sum {sum}"),
    }
}

/// The value, or the program's error where there was no memory for it.
pub fn have<T: Drop>(found: std::result::Result<T, Memory>) -> Result<T>
    ensures { IfOk result (λ value. found ≡ Ok value) }
{
    match found {
        Ok(value) => Ok(value),
        Err(Memory) => bail!("out of memory"),
    }
}
