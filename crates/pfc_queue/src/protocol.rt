// The rule over the queue and the hands of all passes, and what a put and a take tell.
ghost use Rattle.std.specs.Prelude.{◌≡◌, ℕ, ◌+◌, List};
ghost use Rattle.pfc_queue.specs.declared.protocol.Hand.{Hand};
ghost use Rattle.pfc_queue.specs.Rule.{InOrder, all_put, all_taken, weigh};

use crossbeam_queue::protocol::{Lesson, Outcome, Protocol, Split};
use std::collections::LinkedList;

/// What a pass knows: what it put, what it took, and whether it is the only pass that was ever made.
/// No value of this type is ever made.
pub struct Hand<T> {
    pub put: LinkedList<T>,
    pub taken: LinkedList<T>,
    pub alone: bool,
}

pub struct Ordered;

impl<T> Protocol<T, Hand<T>> for Ordered {
    ghost use Rattle.std.specs.Prelude.{[], true};
    ghost use Rattle.pfc_queue.specs.Rule.{hand, InOrder};

    ghost holds = { InOrder };

    ghost first = { hand [] [] true };
}

pub struct Passes;

impl<T> Split<Hand<T>> for Passes {
    ghost use Rattle.std.specs.Prelude.{[], false};
    ghost use Rattle.pfc_queue.specs.Rule.{hand};

    ghost left = { λ v. hand v.put v.taken false };

    ghost right = { λ v. hand [] [] false };
}

pub struct Puts;

impl<T> Outcome<T, Hand<T>> for Puts {
    ghost use Rattle.pfc_queue.specs.Rule.{PutOne};

    ghost then = { PutOne };
}

impl<T> Lesson<T, Hand<T>> for Puts {
    ghost use Rattle.pfc_queue.specs.Rule.{MayHold};

    ghost fact = { MayHold };
}

pub struct Takes;

impl<T> Outcome<T, Hand<T>> for Takes {
    ghost use Rattle.pfc_queue.specs.Rule.{TookOne};

    ghost then = { TookOne };
}

impl<T> Lesson<T, Hand<T>> for Takes {
    ghost use Rattle.pfc_queue.specs.Rule.{MayHold};

    ghost fact = { MayHold };
}

/// By the rule, which stands between any two steps of any threads, each item was put as often as it was taken or is
/// left in the queue: however the items are weighed, both sides weigh the same.
#[tactic(auto, using(crate::proofs::Balance::balanced))]
pub fn nothing_is_lost<T>()
    ensures { (items : List T) (views : List (Hand T)) → InOrder items views → (h : T → ℕ) → all_put h views ≡ all_taken h views + weigh h items }
{}
