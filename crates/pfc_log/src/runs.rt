ghost use Rattle.std.specs.Prelude.{◌≡◌, ◌++◌, OnOk};
ghost use Rattle.pfc_log.specs.Runs.{run_text, more_runs_text, runs_of, runs_text};

use pfc_base::{BlockSet, Memory, push_number, push_word};
use std::alloc::Global;

fn push_run(alloc: Global, out: &mut Vec<u8>, run: (u32, u32)) -> Result<(), Memory>
    ensures { OnOk result (out.new.items ≡ out.old.items ++ run_text run) }
{
    push_number(alloc, out, u64::from(run.0))?;
    push_word(out, b"-")?;
    push_number(alloc, out, u64::from(run.1))
}

fn push_more_runs(alloc: Global, out: &mut Vec<u8>, runs: &[(u32, u32)]) -> Result<(), Memory>
    ensures { OnOk result (out.new.items ≡ out.old.items ++ more_runs_text runs.now) }
{
    for run in runs {
        push_word(out, b",")?;
        push_run(alloc, out, *run)?;
    }
    Ok(())
}

/// Adds the text of runs, each its first and its last number. Where memory is refused, a part of the text may stand.
pub fn push_runs(alloc: Global, out: &mut Vec<u8>, runs: &[(u32, u32)]) -> Result<(), Memory>
    ensures { OnOk result (out.new.items ≡ out.old.items ++ runs_text runs.now) }
{
    match runs {
        [] => push_word(out, b"-"),
        [first, more @ ..] => {
            push_run(alloc, out, *first)?;
            push_more_runs(alloc, out, more)
        }
    }
}

/// Adds the text of a set's runs. Where memory is refused, a part of the text may stand.
pub fn push_set(alloc: Global, out: &mut Vec<u8>, set: &BlockSet) -> Result<(), Memory>
    ensures { OnOk result (out.new.items ≡ out.old.items ++ runs_text (runs_of set.now)) }
{
    let runs = set.runs(alloc)?;
    push_runs(alloc, out, &runs)
}
