//! What the parts of the cache take, for a person to read: with the word `measure` each line has nanoseconds,
//! and without it a few rounds of each are run and only the sums of what was done are printed.
#![tactic(auto)]

mod budget;
mod catalog;
mod checksum;
mod queue;
mod sample;
mod sets;
mod store;
mod stored;

use crate::sample::{Plan, show};
use anyhow::{Result, bail};
use std::env;
use std::env::Env;

fn plan(rt: &(impl Env + Alloc)) -> Result<Plan> {
    let mut words = env::args(rt)?.skip(1);
    match words.next() {
        None => Ok(Plan::Try),
        Some(word) if word.as_str() == "measure" => Ok(Plan::Measure),
        Some(_) => bail!("usage: pfc_bench [measure]"),
    }
}

// The lines that compare with the baseline in C.
fn show_kernels(rt: &HostRuntime, plan: Plan) -> Result<()> {
    show(
        rt,
        plan,
        "checksum of a buffer",
        &checksum::of_buffer(rt, plan)?,
    )?;
    show(rt, plan, "members of a set", &sets::members(rt, plan)?)?;
    show(
        rt,
        plan,
        "first absent of a set",
        &sets::first_absent(rt, plan)?,
    )?;
    Ok(())
}

// The lines that compare with the system's calls on the same files.
fn show_store(rt: &HostRuntime, plan: Plan) -> Result<()> {
    let samples = store::all(rt, plan)?;
    show(rt, plan, "read 4 KiB of a block", &samples.small)?;
    show(rt, plan, "read 128 KiB of a block", &samples.large)?;
    show(rt, plan, "write a block", &samples.write)?;
    show(rt, plan, "sync a block, put its cinfo", &samples.turn)?;
    Ok(())
}

// The lines of a catalog of so many files.
fn show_catalog(rt: &HostRuntime, plan: Plan, count: u64) -> Result<()> {
    let samples = catalog::of_files(rt, plan, count)?;
    let learn = format!(in rt.alloc(); "learn one of {count} files")?;
    show(rt, plan, learn.as_str(), &samples.learn)?;
    let usages = format!(in rt.alloc(); "1000 usages of {count} files")?;
    show(rt, plan, usages.as_str(), &samples.usages)?;
    let victim = format!(in rt.alloc(); "a victim of {count} files")?;
    show(rt, plan, victim.as_str(), &samples.victim)?;
    Ok(())
}

fn main(rt: HostRuntime) -> Result<()> {
    let plan = plan(&rt)?;
    show_kernels(&rt, plan)?;
    show_store(&rt, plan)?;
    for count in catalog::sizes(plan) {
        show_catalog(&rt, plan, count)?;
    }
    show(
        &rt,
        plan,
        "claim and give, alone",
        &budget::alone(&rt, plan)?,
    )?;
    show(
        &rt,
        plan,
        "claim and give, four threads",
        &budget::four_threads(&rt, plan)?,
    )?;
    show(&rt, plan, "put and take, alone", &queue::alone(&rt, plan)?)?;
    show(
        &rt,
        plan,
        "put and take, four threads",
        &queue::four_threads(rt, plan)?,
    )?;
    Ok(())
}
