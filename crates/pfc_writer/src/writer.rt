// A writer and the job that it is at.
ghost use Rattle.std.specs.Prelude.{◌≡◌, ◌+◌, ℕ, false, IsTrue, Some, None, option_map, sum_by, MatchOption, OnOk, OnErr, IfErr, IsSome};
ghost use Rattle.pfc_core.specs.declared.loan.Did.TheVariants as did;
ghost use Rattle.pfc_core.specs.Loans.{WritesLent};
ghost use Rattle.pfc_core.specs.Marks.{Mark};
ghost use Rattle.pfc_writer.specs.Writer.{Task, is_returning, turned, gone_on, work_weight, EndsWork, IsOfStore, TakesJob};

use crate::queue::WriteQueue;
use crate::turn::write_turn;
use pfc_core::{FileCore, Job, Loan, Strayed};
use pfc_log::DropCause;
use pfc_store::{Put, WriteRefusal};
use pfc_world::{DataDev, InfoDev, World};
use std::marker::Model;

/// How a write turn went.
#[derive(Clone, Copy, Debug, PartialEq, Eq)]
pub enum Outcome {
    /// The block is on disk.
    Written,
    /// The store is frozen, or a device failed.
    Refused,
}

/// How far a writer has come with its job.
#[derive(Clone, Copy, Debug, PartialEq, Eq)]
pub enum Phase {
    /// It has the job, and no loan.
    Taken,
    /// The store was lent to it.
    Lent,
    /// Its turn is over, and the loan is to be given back.
    Returning(Outcome),
    /// The loan was given back.
    Given(Outcome),
    /// The bytes were counted, and the job is to be ended.
    Counted(Outcome),
}

#[derive(Drop)]
struct Work<W: World> {
    job: Job<W>,
    phase: Phase,
}

/// A writer, with the job that it is at. Contracts see the job, and whether its turn is over and the loan still to be given back.
#[derive(Drop)]
pub struct Writer<W: World> {
    work: Option<Work<W>>,
}

impl<W: World> Model for Writer<W> {
    ghost use Rattle.std.specs.Prelude.{Option, option_map};
    ghost use Rattle.pfc_writer.specs.Writer.{Task, is_returning};

    ghost Value = { Option Task };

    ghost view = { λ w. option_map (λ x. record { job = x.job; returning = is_returning x.phase }) w.work };
}

impl<W: World> Writer<W> {
    /// A writer at rest.
    pub fn new() -> Writer<W>
        ensures { result ≡ None }
    {
        Writer { work: None }
    }

    /// How far it has come; `None` at rest.
    pub fn phase(&self) -> Option<Phase>
        ensures { option_map is_returning result ≡ option_map (λ t. t.returning) self.now }
    {
        match &self.work {
            None => None,
            Some(work) => Some(work.phase),
        }
    }

    /// The number of the core of its job.
    pub fn instance(&self) -> Option<u64>
        ensures { result ≡ option_map (λ t. t.job.instance) self.now }
    {
        match &self.work {
            None => None,
            Some(work) => Some(work.job.instance()),
        }
    }

    /// Whether it has a job, and that is of the file and block size of the loan.
    pub fn fits<D: DataDev<W>, I: InfoDev<W>>(&self, loan: &Loan<W, D, I>) -> bool
        ensures some { IsTrue result → IsSome self.now }
        ensures file { IsTrue result → (task : Task) → self.now ≡ Some task → IsOfStore task.job loan.now.store }
    {
        match &self.work {
            None => false,
            Some(work) => is_of_store(&work.job, loan),
        }
    }

    /// Takes the first job of the queue, where it has none and there is one. It tells whether it did.
    pub fn take(&mut self, queue: &mut WriteQueue<W>) -> bool
        ensures tokens { (w : Mark → ℕ) → work_weight w self.new + sum_by w queue.new.jobs ≡ work_weight w self.old + sum_by w queue.old.jobs }
        ensures capacity { queue.new.capacity ≡ queue.old.capacity }
        ensures busy { IsSome self.old → (self.new ≡ self.old) × (queue.new ≡ queue.old) }
    {
        if self.work.is_some() {
            return false;
        }
        let Some(job) = queue.take() else {
            return false;
        };
        self.work = Some(Work {
            job,
            phase: Phase::Taken,
        });
        true
    }

    /// The next phase, where that is no turn and no end: the store was lent, the loan given back, or the bytes counted.
    pub fn go_on(&mut self)
        ensures { self.new ≡ option_map gone_on self.old }
    {
        let Some(work) = &mut self.work else {
            return;
        };
        work.phase = next_phase(work.phase);
    }

    /// Writes the block of its job, where it has one, by a loan of the file's store.
    pub fn write<D: DataDev<W>, I: InfoDev<W>>(
        &mut self,
        loan: &mut Loan<W, D, I>,
    ) -> Option<Result<Put, WriteRefusal>>
        requires path { (task : Task) → self.old ≡ Some task → task.job.path ≡ loan.old.store.path }
        requires size { (task : Task) → self.old ≡ Some task → task.job.size ≡ loan.old.store.size }
        requires block_size { (task : Task) → self.old ≡ Some task → task.job.block_size ≡ loan.old.store.block_size }
        requires once { loan.old.did ≡ did.Nothing }
        ensures job { MatchOption result (self.new ≡ self.old) (λ answer. self.new ≡ option_map turned self.old) }
        ensures loan { MatchOption result (loan.new ≡ loan.old) (λ answer. (task : Task) → self.old ≡ Some task → WritesLent W.told W.files D.told I.told D.faults D.seen I.seen loan.old task.job.block answer loan.new) }
    {
        let Some(work) = &self.work else {
            return None;
        };
        let answer = write_turn(loan, &work.job);
        self.turn_over(outcome_of(answer));
        Some(answer)
    }

    /// Its turn is over.
    fn turn_over(&mut self, outcome: Outcome)
        ensures { self.new ≡ option_map turned self.old }
    {
        let Some(work) = &mut self.work else {
            return;
        };
        work.phase = Phase::Returning(outcome);
    }

    /// Ends its job by the outcome of its turn: without one the block wasn't written. It tells whether the core took the job;
    /// where it didn't nothing has changed.
    pub fn end(&mut self, core: &mut FileCore<W>) -> bool
        ensures yes { IsTrue result → EndsWork core.old self.old core.new × (self.new ≡ None) }
        ensures no { result ≡ false → (self.new ≡ self.old) × (core.new ≡ core.old) }
    {
        let Some(Work { job, phase }) = self.work.take() else {
            return false;
        };
        match end_job(core, job, phase) {
            Ok(()) => true,
            Err(Strayed { token, why: _ }) => {
                self.work = Some(Work { job: token, phase });
                false
            }
        }
    }
}

/// Whether a job is of the file and block size of a loan.
fn is_of_store<W: World, D: DataDev<W>, I: InfoDev<W>>(job: &Job<W>, loan: &Loan<W, D, I>) -> bool
    ensures { IsTrue result → IsOfStore job.now loan.now.store }
{
    let block = job.block();
    if !block.known().same(loan.known()) {
        return false;
    }
    block.block_size() == loan.block_size()
}

/// Ends a job at this phase.
fn end_job<W: World>(
    core: &mut FileCore<W>,
    job: Job<W>,
    phase: Phase,
) -> Result<(), Strayed<Job<W>>>
    ensures ok { OnOk result (TakesJob core.old job core.new) }
    ensures back { IfErr result (λ s. s.token ≡ job) }
    ensures same { OnErr result (core.new ≡ core.old) }
{
    match phase {
        Phase::Counted(Outcome::Written) => core.wrote(job),
        _ => core.drop_job(job, DropCause::Frozen),
    }
}

fn outcome_of(answer: Result<Put, WriteRefusal>) -> Outcome {
    match answer {
        Ok(_) => Outcome::Written,
        Err(_) => Outcome::Refused,
    }
}

fn next_phase(phase: Phase) -> Phase
    ensures { is_returning result ≡ false }
{
    match phase {
        Phase::Taken => Phase::Lent,
        Phase::Lent => Phase::Lent,
        Phase::Returning(outcome) => Phase::Given(outcome),
        Phase::Given(outcome) => Phase::Counted(outcome),
        Phase::Counted(outcome) => Phase::Counted(outcome),
    }
}
