ghost use Rattle.std.specs.Prelude.{◌≡◌, ℕ, ◌++◌, [], ◌<◌, ◌≤◌, length, option_map, map, Some, Ok, Err, IfOk, IfErr, OnOk, false, ◌||◌, is_some, slice_index_or};
ghost use Rattle.pfc_base.specs.Pieces.{pieces_of};
ghost use Rattle.pfc_report.specs.Schedule.{Line, Sync, path_stepping, decimal_to, client_of, asking, stepping, line_by, said_by, said_first, all_said, schedule_of, is_asked, request_for};
ghost use Rattle.pfc_report.specs.Plan.{line_of, words_behind, Refuses};
ghost use Rattle.pfc_report.specs.declared.schedule.ScheduleRefusal.TheVariants as refusal;

use pfc_base::{Path, decimal, next_piece};
use std::alloc::{AllocFailed, Global};
use std::marker::Model;

/// The most bytes of a schedule.
pub const SCHEDULE_LIMIT: usize = 67108864;

/// How many clients there may be. Their numbers begin with 1.
pub const CLIENTS: usize = 64;

/// One thing that a schedule says.
#[derive(Clone, Copy)]
pub enum Step<'a> {
    /// The client, from 1 to 64, gets one more request line, which may be anything.
    Ask { client: u32, rest: &'a [u8] },
    /// The client makes so many steps, from 1 to 10000.
    Go { client: u32, times: u32 },
    /// The writer, from 1 on, makes so many steps, from 1 to 10000.
    Write { writer: u32, times: u32 },
    /// The sync makes so many steps, from 1 to 10000, where it is at rest or at this path.
    Sync { path: &'a [u8], times: u32 },
}

/// What a schedule says, in order. Contracts see the list of its lines that do something.
#[derive(Drop)]
pub struct Plan<'a> {
    steps: Vec<Step<'a>>,
}

impl<'a> Model for Plan<'a> {
    ghost use Rattle.std.specs.Prelude.{List, map};
    ghost use Rattle.pfc_report.specs.Schedule.{Line};

    ghost Value = { List Line };

    ghost use Rattle.pfc_report.specs.Plan.{line_of};

    ghost view = { λ plan. map line_of plan.steps.items };
}

/// Why a text is no schedule.
#[derive(Clone, Copy, Debug, PartialEq, Eq)]
pub enum ScheduleRefusal {
    /// The first line that has no line's form, from 1 on, or 0 for the length.
    Bad { line: u64 },
    /// Memory was refused.
    Memory,
}

impl<T: Drop> From<AllocFailed<T>> for ScheduleRefusal {
    ghost from_gives = { λ _ e. e ≡ refusal.Memory };

    fn from(_: AllocFailed<T>) -> Self {
        ScheduleRefusal::Memory
    }
}

impl<'a> Plan<'a> {
    /// The steps in order.
    pub fn steps(&self) -> &[Step<'a>]
        ensures { map line_of result.now ≡ self.now }
    {
        &self.steps
    }

    /// Which numbers up to 64 are clients that are asked anything, in one pass.
    pub fn asked(&self) -> [bool; CLIENTS + 1]
        ensures { (n : ℕ) → n < 65 → slice_index_or result n false ≡ is_asked self.now n }
    {
        asked_in(&self.steps)
    }
}

/// Which numbers up to 64 are clients that the steps ask anything.
fn asked_in(steps: &[Step<'_>]) -> [bool; CLIENTS + 1]
    ensures { (n : ℕ) → n < 65 → slice_index_or result n false ≡ is_asked (map line_of steps.now) n }
{
    let mut marks = [false; CLIENTS + 1];
    for step in steps {
        mark_asked(&mut marks, step);
    }
    marks
}

/// Marks the client that a step asks something.
fn mark_asked(marks: &mut [bool], step: &Step<'_>)
    requires { length marks.old ≡ 65 }
    ensures { (n : ℕ) → n < 65 → slice_index_or marks.new n false ≡ (slice_index_or marks.old n false || is_some (request_for n (line_of step.now))) }
{
    match step {
        Step::Go { .. } => (),
        Step::Write { .. } => (),
        Step::Sync { .. } => (),
        Step::Ask { client, .. } => {
            if *client < 65 {
                marks[*client as usize] = true;
            }
        }
    }
}

/// The decimal that a word spells, where it lies from 1 to `most`.
fn number_to(word: &[u8], most: u32) -> Option<u32>
    ensures { result ≡ decimal_to most word.now }
{
    let n = match decimal(word) {
        None => return None,
        Some(n) => n,
    };
    if n < 1 {
        return None;
    }
    if n > u64::from(most) {
        return None;
    }
    Some(n as u32)
}

/// What an `ask` line says, by its number and what stands behind the space after it.
fn read_ask<'a>(number: &[u8], behind: Option<&'a [u8]>) -> Option<Step<'a>>
    ensures { option_map line_of result ≡ asking (client_of number.now) (words_behind (option_map (λ rest. rest.now) behind.entry)) }
{
    let client = match number_to(number, 64) {
        None => return None,
        Some(client) => client,
    };
    match behind {
        None => None,
        Some(rest) => Some(Step::Ask { client, rest }),
    }
}

/// How often somebody steps, by what stands behind the space after their number.
fn read_times(behind: &[u8]) -> Option<u32>
    ensures { (line : ℕ → ℕ → Line) (n : ℕ) → option_map (line n) result ≡ stepping line (Some n) (pieces_of 32 behind.now) }
{
    let (times, more) = next_piece(behind, b' ');
    match more {
        Some(_) => None,
        None => number_to(times, 10000),
    }
}

/// Who steps, from 1 to `most`, and how often: by their number and what stands behind the space after it.
fn read_steps(number: &[u8], most: u32, behind: Option<&[u8]>) -> Option<(u32, u32)>
    ensures { (line : ℕ → ℕ → Line) → option_map (λ steps. line steps.0 steps.1) result ≡ stepping line (decimal_to most number.now) (words_behind (option_map (λ rest. rest.now) behind.entry)) }
{
    let who = match number_to(number, most) {
        None => return None,
        Some(who) => who,
    };
    let behind = match behind {
        None => return Some((who, 1)),
        Some(behind) => behind,
    };
    match read_times(behind) {
        None => None,
        Some(times) => Some((who, times)),
    }
}

/// What a `sync` line says, by its path and what stands behind the space after it.
fn read_sync<'a>(path: &'a [u8], behind: Option<&'a [u8]>) -> Option<Step<'a>>
    ensures { option_map line_of result ≡ path_stepping Sync path.now (words_behind (option_map (λ rest. rest.now) behind.entry)) }
{
    if Path::read(path).is_err() {
        return None;
    }
    let behind = match behind {
        None => return Some(Step::Sync { path, times: 1 }),
        Some(behind) => behind,
    };
    match read_times(behind) {
        None => None,
        Some(times) => Some(Step::Sync { path, times }),
    }
}

/// What a line says that isn't passed over, by its words.
fn read_step(line: &[u8], writers: u32) -> Option<Step<'_>>
    ensures { option_map line_of result ≡ line_by writers (pieces_of 32 line.now) }
{
    let (verb, behind) = next_piece(line, b' ');
    let behind = match behind {
        None => return None,
        Some(behind) => behind,
    };
    let (number, words) = next_piece(behind, b' ');
    if verb == b"ask".as_slice() {
        return read_ask(number, words);
    }
    if verb == b"go".as_slice() {
        return match read_steps(number, 64, words) {
            None => None,
            Some((client, times)) => Some(Step::Go { client, times }),
        };
    }
    if verb == b"write".as_slice() {
        return match read_steps(number, writers, words) {
            None => None,
            Some((writer, times)) => Some(Step::Write { writer, times }),
        };
    }
    if verb == b"sync".as_slice() {
        return read_sync(number, words);
    }
    None
}

/// Adds what a line says.
fn read_line<'a>(
    steps: &mut Vec<Step<'a>>,
    line: &'a [u8],
    number: u64,
    writers: u32,
) -> Result<(), ScheduleRefusal>
    ensures ok { OnOk result (option_map (λ said. map line_of steps.old.items ++ said) (said_by writers line.now) ≡ Some (map line_of steps.new.items)) }
    ensures err { IfErr result (λ refusal. Refuses refusal (said_first number (said_by writers line.now) (Ok []))) }
{
    let first = match line.first() {
        None => return Ok(()),
        Some(first) => *first,
    };
    if first == b'#' {
        return Ok(());
    }
    match read_step(line, writers) {
        None => Err(ScheduleRefusal::Bad { line: number }),
        Some(step) => {
            steps.push(step)?;
            Ok(())
        }
    }
}

/// What the lines of a text say, or the first line without a form.
fn read_lines(alloc: Global, text: &[u8], writers: u32) -> Result<Vec<Step<'_>>, ScheduleRefusal>
    requires { length text.now ≤ 67108864 }
    ensures ok { IfOk result (λ steps. all_said writers 1 (pieces_of 10 text.now) ≡ Ok (map line_of steps.items)) }
    ensures err { IfErr result (λ refusal. Refuses refusal (all_said writers 1 (pieces_of 10 text.now))) }
{
    let mut steps = Vec::new(alloc);
    let mut rest = text;
    let mut number = 1u64;
    'lines: loop {
        let (line, more) = next_piece(rest, b'\n');
        read_line(&mut steps, line, number, writers)?;
        match more {
            None => return Ok(steps),
            Some(after) => {
                rest = after;
                number += 1;
            }
        }
    }
}

/// What a schedule says, where the writers are numbered from 1 to `writers`. Refused for its first line without a form, or
/// for more than 67108864 bytes.
pub fn read_schedule(alloc: Global, text: &[u8], writers: u32) -> Result<Plan<'_>, ScheduleRefusal>
    ensures ok { IfOk result (λ plan. schedule_of writers text.now ≡ Ok plan) }
    ensures err { IfErr result (λ refusal. Refuses refusal (schedule_of writers text.now)) }
{
    if text.len() > SCHEDULE_LIMIT {
        return Err(ScheduleRefusal::Bad { line: 0 });
    }
    match read_lines(alloc, text, writers) {
        Ok(steps) => Ok(Plan { steps }),
        Err(refusal) => Err(refusal),
    }
}
