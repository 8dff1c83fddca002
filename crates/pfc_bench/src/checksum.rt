// The checksum of a buffer.
use crate::sample::{Plan, Sample};
use anyhow::Result;
use pfc_base::crc::crc32c;
use std::alloc::Global;
use std::rt::Clock;
use std::time::Instant;

// The bytes and the rounds.
fn size(plan: Plan) -> (usize, u64) {
    match plan {
        Plan::Try => (4096, 2),
        Plan::Measure => (1 << 24, 16),
    }
}

// The sum of the checksums, of bytes whose first one is the round.
fn turns(bytes: &mut [u8], rounds: u64) -> u64 {
    let mut sum = 0u64;
    for i in 0..rounds {
        if let Some(first) = bytes.first_mut() {
            *first = (i % 251) as u8;
        }
        sum = sum.wrapping_add(u64::from(crc32c(bytes)));
    }
    sum
}

pub fn of_buffer<R: Clock + Alloc<A = Global>>(rt: &R, plan: Plan) -> Result<Sample> {
    let (size, rounds) = size(plan);
    let mut bytes = vec![in rt.alloc(); 0u8; size]?;
    let start = Instant::now(rt)?;
    let sum = turns(&mut bytes, rounds);
    Ok(Sample::until_now(rt, start, rounds, sum)?)
}
