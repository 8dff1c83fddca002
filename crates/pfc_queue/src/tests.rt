ghost use Rattle.std.specs.Arc.{arc_value};
ghost use Rattle.pfc_queue.specs.Queue.{IsPassOf};

use crate::{Full, Queue, QueuePass};
use std::alloc::{AllocError, Global};
use std::sync::{Arc, Wait};
use std::test::Fail;
use std::thread;
use std::thread::{JoinHandle, Threads};

// No clause refuses a put that always answers `Full`, nor a take that always answers `None`, where there are two passes.
#[test]
fn finds_room_and_finds_none(rt: HostRuntime) -> Result<(), Fail> {
    let (queue, mut pass) = Queue::new(rt.alloc(), 2)?;
    let mut other = queue.split(&rt, &mut pass)?;
    let first = queue.put(&rt, &mut pass, 1u8);
    let second = queue.put(&rt, &mut other, 2);
    let third = queue.put(&rt, &mut pass, 3);
    assert_eq!(rt; (first, second, third), (Ok(()), Ok(()), Err(Full(3))));
    let first = queue.take(&rt, &mut other);
    let fourth = queue.put(&rt, &mut other, 4);
    let second = queue.take(&rt, &mut other);
    assert_eq!(rt; (first, fourth, second), (Some(1), Ok(()), Some(2)));
    let third = queue.take(&rt, &mut pass);
    let none_left = queue.take(&rt, &mut other);
    assert_eq!(rt; (third, none_left), (Some(4), None));
    Ok(())
}

const SHARE: u32 = 500;

fn put_one<R: Wait>(rt: &R, queue: &Queue<u32>, pass: &mut QueuePass<u32>, item: u32)
    requires { IsPassOf queue.now pass.old }
    ensures { IsPassOf queue.now pass.new }
{
    for _ in rt.forever() {
        if queue.put(rt, pass, item).is_ok() {
            break;
        }
        thread::yield_now();
    }
}

fn take_one<R: Wait>(rt: &R, queue: &Queue<u32>, pass: &mut QueuePass<u32>) -> u32
    requires { IsPassOf queue.now pass.old }
    ensures { IsPassOf queue.now pass.new }
{
    for _ in rt.forever() {
        if let Some(item) = queue.take(rt, pass) {
            return item;
        }
        thread::yield_now();
    }
    unreachable!()
}

// Puts as many items as one thread's share, from `first` on.
fn produce<R: Wait>(rt: &R, queue: &Queue<u32>, mut pass: QueuePass<u32>, first: u32)
    requires { IsPassOf queue.now pass }
{
    for i in 0..SHARE {
        put_one(rt, queue, &mut pass, first.saturating_add(i));
    }
}

fn consume<R: Wait>(
    rt: &R,
    alloc: Global,
    queue: &Queue<u32>,
    mut pass: QueuePass<u32>,
) -> Result<Vec<u32>, AllocError>
    requires { IsPassOf queue.now pass }
{
    let mut taken = Vec::new(alloc);
    for _ in 0..SHARE {
        taken.push(take_one(rt, queue, &mut pass))?;
    }
    Ok(taken)
}

fn start_producer<R>(
    rt: R,
    queue: &Arc<Queue<u32>, Global>,
    pass: QueuePass<u32>,
    first: u32,
) -> Result<JoinHandle<()>, Fail>
where
    R: Threads + Wait + Copy + Send + 'static,
    requires { IsPassOf (arc_value queue.now) pass }
{
    let queue = Arc::try_clone(queue)?;
    Ok(thread::spawn(
        &rt,
        move ||
            requires { IsPassOf (arc_value queue) pass }
        { produce(&rt, &queue, pass, first) },
    )?)
}

fn start_consumer<R>(
    rt: R,
    alloc: Global,
    queue: &Arc<Queue<u32>, Global>,
    pass: QueuePass<u32>,
) -> Result<JoinHandle<Result<Vec<u32>, AllocError>>, Fail>
where
    R: Threads + Wait + Copy + Send + 'static,
    requires { IsPassOf (arc_value queue.now) pass }
{
    let queue = Arc::try_clone(queue)?;
    Ok(thread::spawn(
        &rt,
        move ||
            requires { IsPassOf (arc_value queue) pass }
        { consume(&rt, alloc, &queue, pass) },
    )?)
}

#[test]
fn four_producers_and_four_consumers_lose_and_double_nothing(rt: HostRuntime) -> Result<(), Fail> {
    let alloc = rt.alloc();
    let (queue, mut pass) = Queue::new(alloc, 3)?;
    let queue = Arc::new(alloc, queue)?;
    let a = start_producer(rt, &queue, queue.split(&rt, &mut pass)?, 0)?;
    let b = start_producer(rt, &queue, queue.split(&rt, &mut pass)?, SHARE)?;
    let c = start_producer(rt, &queue, queue.split(&rt, &mut pass)?, 2 * SHARE)?;
    let d = start_producer(rt, &queue, queue.split(&rt, &mut pass)?, 3 * SHARE)?;
    let e = start_consumer(rt, alloc, &queue, queue.split(&rt, &mut pass)?)?;
    let f = start_consumer(rt, alloc, &queue, queue.split(&rt, &mut pass)?)?;
    let g = start_consumer(rt, alloc, &queue, queue.split(&rt, &mut pass)?)?;
    let h = start_consumer(rt, alloc, &queue, queue.split(&rt, &mut pass)?)?;
    let mut all = e.join(&rt)?;
    all.extend_from_slice(f.join(&rt)?.as_slice())?;
    all.extend_from_slice(g.join(&rt)?.as_slice())?;
    all.extend_from_slice(h.join(&rt)?.as_slice())?;
    for producer in [a, b, c, d] {
        producer.join(&rt);
    }
    all.sort()?;
    assert_eq!(rt; all.len(), 2000);
    for (i, item) in all.iter().enumerate() {
        assert_eq!(rt; *item as usize, i);
    }
    assert_eq!(rt; queue.take(&rt, &mut pass), None);
    Ok(())
}
