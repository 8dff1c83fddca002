// What is asked of the bitmap of a file: how many blocks it has, and the first that is absent.
use crate::sample::{Plan, Sample};
use anyhow::Result;
use pfc_base::{first_zero, ones};
use std::alloc::Global;
use std::rt::Clock;
use std::time::Instant;

// The words of the set and the rounds.
fn size(plan: Plan) -> (usize, u64) {
    match plan {
        Plan::Try => (64, 2),
        Plan::Measure => (1 << 18, 16),
    }
}

// The members that were counted, of a set that lacks one more with each round.
fn count_turns(words: &mut [u64], rounds: u64) -> u64 {
    let mut sum = 0u64;
    for i in 0..rounds {
        if let Some(first) = words.first_mut() {
            *first = u64::MAX.wrapping_sub(i);
        }
        if words.len() < 1 << 57 {
            sum = sum.wrapping_add(ones(words));
        }
    }
    sum
}

// The numbers that were found, of a set that lacks one in its last word.
fn find_turns(words: &mut [u64], rounds: u64) -> u64 {
    let mut sum = 0u64;
    for i in 0..rounds {
        if let Some(last) = words.last_mut() {
            *last = u64::MAX.wrapping_sub(1).wrapping_sub(i);
        }
        if words.len() < 1 << 57 {
            sum = sum.wrapping_add(first_zero(words, 0).unwrap_or(0));
        }
    }
    sum
}

pub fn members<R: Clock + Alloc<A = Global>>(rt: &R, plan: Plan) -> Result<Sample> {
    let (size, rounds) = size(plan);
    let mut words = vec![in rt.alloc(); u64::MAX; size]?;
    let start = Instant::now(rt)?;
    let sum = count_turns(&mut words, rounds);
    Ok(Sample::until_now(rt, start, rounds, sum)?)
}

pub fn first_absent<R: Clock + Alloc<A = Global>>(rt: &R, plan: Plan) -> Result<Sample> {
    let (size, rounds) = size(plan);
    let mut words = vec![in rt.alloc(); u64::MAX; size]?;
    let start = Instant::now(rt)?;
    let sum = find_turns(&mut words, rounds);
    Ok(Sample::until_now(rt, start, rounds, sum)?)
}
