// A claim with its give.
use crate::sample::{Plan, Sample, have};
use anyhow::Result;
use pfc_budget::{Budget, Seat};
use std::alloc::Global;
use std::rt::Clock;
use std::thread;
use std::thread::Threads;
use std::time::Instant;

const LIMIT: u64 = 1 << 30;

// The bytes that were claimed and given back.
fn turns(seat: &mut Seat, rounds: u64) -> u64 {
    let mut sum = 0u64;
    for i in 0..rounds {
        let want = i % 4096 + 1;
        if seat.claim(want).is_ok() {
            seat.give(want);
            sum = sum.wrapping_add(want);
        }
    }
    sum
}

fn all_turns(mut seat: Seat, rounds: u64) -> u64 {
    turns(&mut seat, rounds)
}

pub fn alone<R: Clock + Alloc<A = Global>>(rt: &R, plan: Plan) -> Result<Sample> {
    let mut seat = have(Budget::start(rt.alloc(), LIMIT))?;
    let start = Instant::now(rt)?;
    let sum = turns(&mut seat, plan.rounds());
    Ok(Sample::until_now(rt, start, plan.rounds(), sum)?)
}

pub fn four_threads<R: Clock + Alloc<A = Global> + Threads>(rt: &R, plan: Plan) -> Result<Sample> {
    let rounds = plan.rounds();
    let mut first = have(Budget::start(rt.alloc(), LIMIT))?;
    let second = have(first.split())?;
    let third = have(first.split())?;
    let fourth = have(first.split())?;
    let start = Instant::now(rt)?;
    let one = thread::spawn(rt, move || all_turns(first, rounds))?;
    let two = thread::spawn(rt, move || all_turns(second, rounds))?;
    let three = thread::spawn(rt, move || all_turns(third, rounds))?;
    let four = thread::spawn(rt, move || all_turns(fourth, rounds))?;
    let sum = one.join(rt).wrapping_add(two.join(rt));
    let sum = sum.wrapping_add(three.join(rt)).wrapping_add(four.join(rt));
    Ok(Sample::until_now(rt, start, rounds, sum)?)
}
