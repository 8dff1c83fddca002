//! `xcache_replay <config> <origin> <cache> <capacity> <schedule>`: runs a schedule over real folders, and writes the
//! replies to standard output.
#![tactic(auto)]

use anyhow::Result;
use pfc_base::Memory;
use pfc_folder::{FolderDepot, FolderHost, FolderWorld, StdSink, WallClock};
use pfc_replay::run_replay;
use std::env;
use std::process::ExitCode;

/// The exit status for want of memory.
const OUT_OF_MEMORY: u8 = 5;

/// Makes the outside of this machine and runs the replay in it.
fn run(rt: HostRuntime) -> Result<u8> {
    let alloc = rt.alloc();
    let mut words = Vec::new(alloc);
    for word in env::args(&rt)?.skip(1) {
        words.push(word)?;
    }
    let mut host = match FolderHost::new(rt.clone()?, alloc, &words) {
        Ok(host) => host,
        Err(Memory) => return Ok(OUT_OF_MEMORY),
    };
    let mut depot = match FolderDepot::new(rt.clone()?, alloc, &words) {
        Ok(depot) => depot,
        Err(Memory) => return Ok(OUT_OF_MEMORY),
    };
    let mut clock = WallClock::new(rt.clone()?);
    let mut out = StdSink::new(rt);
    Ok(run_replay::<
        FolderWorld,
        FolderHost<HostRuntime>,
        FolderDepot<HostRuntime>,
        WallClock<HostRuntime>,
        StdSink<HostRuntime>,
    >(alloc, &words, &mut host, &mut depot, &mut clock, &mut out))
}

fn main(rt: HostRuntime) -> ExitCode {
    match run(rt) {
        Ok(status) => ExitCode::from(status),
        Err(_) => ExitCode::from(OUT_OF_MEMORY),
    }
}
