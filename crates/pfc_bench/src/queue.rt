// A put with its take.
ghost use Rattle.std.specs.Arc.{arc_value};
ghost use Rattle.pfc_queue.specs.Queue.{IsPassOf};

use crate::sample::{Plan, Sample, have};
use anyhow::Result;
use pfc_queue::{Queue, QueuePass};
use std::alloc::Global;
use std::rt::Clock;
use std::sync::{Arc, Wait};
use std::thread;
use std::thread::{JoinHandle, Threads};
use std::time::Instant;

const PLACES: u32 = 64;

// The sum of the items that were taken. Each thread puts before it takes, so no take finds the queue empty.
fn turns<R: Wait>(rt: &R, queue: &Queue<u64>, mut pass: QueuePass<u64>, rounds: u64) -> u64
    requires { IsPassOf queue.now pass }
{
    let mut sum = 0u64;
    for i in 0..rounds {
        if queue.put(rt, &mut pass, i).is_ok() {
            sum = sum.wrapping_add(queue.take(rt, &mut pass).unwrap_or(0));
        }
    }
    sum
}

pub fn alone<R: Clock + Alloc<A = Global> + Wait>(rt: &R, plan: Plan) -> Result<Sample> {
    let (queue, pass) = have(Queue::new(rt.alloc(), PLACES))?;
    let start = Instant::now(rt)?;
    let sum = turns(rt, &queue, pass, plan.rounds());
    Ok(Sample::until_now(rt, start, plan.rounds(), sum)?)
}

fn begin<R>(
    rt: R,
    queue: &Arc<Queue<u64>, Global>,
    pass: QueuePass<u64>,
    rounds: u64,
) -> Result<JoinHandle<u64>>
where
    R: Threads + Wait + Copy + Send + 'static,
    requires { IsPassOf (arc_value queue.now) pass }
{
    let queue = Arc::try_clone(queue)?;
    let work = move ||
        requires { IsPassOf (arc_value queue) pass }
    { turns(&rt, &queue, pass, rounds) };
    Ok(thread::spawn(&rt, work)?)
}

pub fn four_threads<R>(rt: R, plan: Plan) -> Result<Sample>
where
    R: Clock + Alloc<A = Global> + Threads + Wait + Copy + Send + 'static,
{
    let rounds = plan.rounds();
    let (queue, mut first) = have(Queue::new(rt.alloc(), PLACES))?;
    let second = have(queue.split(&rt, &mut first))?;
    let third = have(queue.split(&rt, &mut first))?;
    let fourth = have(queue.split(&rt, &mut first))?;
    let queue = Arc::new(rt.alloc(), queue)?;
    let start = Instant::now(&rt)?;
    let one = begin(rt, &queue, first, rounds)?;
    let two = begin(rt, &queue, second, rounds)?;
    let three = begin(rt, &queue, third, rounds)?;
    let four = begin(rt, &queue, fourth, rounds)?;
    let sum = one.join(&rt).wrapping_add(two.join(&rt));
    let sum = sum
        .wrapping_add(three.join(&rt))
        .wrapping_add(four.join(&rt));
    Ok(Sample::until_now(&rt, start, rounds, sum)?)
}
