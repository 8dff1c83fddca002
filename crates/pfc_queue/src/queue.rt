ghost use Rattle.std.specs.Prelude.{◌≡◌, ◌+◌, [], ◌∷◌, ◌++◌, ◌<◌, length, IsTrue, IfOk, IfErr, IfSome, IfNone, OnOk, OnErr, IsOk};
ghost use Rattle.pfc_queue.specs.Queue.{put_by, taken_by, is_alone, IsPassOf, WasFull, WasEmpty, WasFirst, IsNext, capacity_of};

use crate::protocol::{Hand, Ordered, Passes, Puts, Takes};
use crossbeam_queue::{Pass, RuledArrayQueue};
use pfc_base::Memory;
use std::alloc::Global;
use std::sync::Wait;

/// The queue was full at one moment of the call. The item comes back.
#[derive(Debug, Drop, PartialEq, Eq)]
pub struct Full<T>(pub T);

/// A bounded queue. Threads share it, each with a pass of its own.
#[derive(Drop)]
pub struct Queue<T: Drop> {
    line: RuledArrayQueue<T, Hand<T>, Ordered, Global>,
}

/// The right to put and to take. It has no bytes, and only the calls that it is passed to change its two lists.
#[derive(Drop)]
pub struct QueuePass<T: Drop> {
    seat: Pass<T, Hand<T>>,
}

impl<T: Drop> Queue<T> {
    /// An empty queue with places for `capacity` items, and its first pass. All memory is taken here.
    pub fn new(alloc: Global, capacity: u32) -> Result<(Queue<T>, QueuePass<T>), Memory>
        requires { 0 < capacity }
        ensures queue { IfOk result (λ q. IsPassOf q.0 q.1 × (capacity_of q.0 ≡ capacity)) }
        ensures pass { IfOk result (λ q. IsTrue (is_alone q.1) × (put_by q.1 ≡ []) × (taken_by q.1 ≡ [])) }
    {
        let (line, seat) = RuledArrayQueue::ruled(alloc, capacity as usize)?;
        Ok((Queue { line }, QueuePass { seat }))
    }

    /// A further pass, which has put and taken nothing. It takes no memory and waits for nobody.
    pub fn split<R: Wait>(&self, rt: &R, pass: &mut QueuePass<T>) -> Result<QueuePass<T>, Memory>
        requires { IsPassOf self.now pass.old }
        ensures old { IsPassOf self.now pass.new × (put_by pass.new ≡ put_by pass.old) × (taken_by pass.new ≡ taken_by pass.old) }
        ensures ok { IsOk result }
        ensures new { IfOk result (λ p. IsPassOf self.now p × (put_by p ≡ []) × (taken_by p ≡ [])) }
    {
        let _ = rt;
        Ok(QueuePass {
            seat: self.line.another::<Passes>(&mut pass.seat),
        })
    }

    /// Puts an item at the back, by one step.
    pub fn put<R: Wait>(&self, rt: &R, pass: &mut QueuePass<T>, item: T) -> Result<(), Full<T>>
        requires { IsPassOf self.now pass.old }
        ensures pass { IsPassOf self.now pass.new × (taken_by pass.new ≡ taken_by pass.old) × (is_alone pass.new ≡ is_alone pass.old) }
        ensures ok { OnOk result (put_by pass.new ≡ put_by pass.old ++ item ∷ []) }
        ensures full { IfErr result (λ f. (f.0 ≡ item) × (put_by pass.new ≡ put_by pass.old) × WasFull self.now pass.old) }

        // Where no other pass was made, the queue holds what this one put and didn't take.
        ensures alone { IsTrue (is_alone pass.old) → OnErr result (length (put_by pass.old) ≡ length (taken_by pass.old) + capacity_of self.now) }
    {
        match self.line.push_as::<Puts, R>(rt, &mut pass.seat, item) {
            Ok(()) => Ok(()),
            Err(item) => Err(Full(item)),
        }
    }

    /// Takes the item at the front, by one step. `None` says that the queue was empty at one moment of the call.
    pub fn take<R: Wait>(&self, rt: &R, pass: &mut QueuePass<T>) -> Option<T>
        requires { IsPassOf self.now pass.old }
        ensures pass { IsPassOf self.now pass.new × (put_by pass.new ≡ put_by pass.old) × (is_alone pass.new ≡ is_alone pass.old) }
        ensures some { IfSome result (λ x. (taken_by pass.new ≡ taken_by pass.old ++ x ∷ []) × WasFirst pass.old x) }
        ensures none { IfNone result ((taken_by pass.new ≡ taken_by pass.old) × WasEmpty pass.old) }
        ensures alone { IsTrue (is_alone pass.old) → IsNext pass.old result }
    {
        self.line.pop_as::<Takes, R>(rt, &mut pass.seat)
    }
}
