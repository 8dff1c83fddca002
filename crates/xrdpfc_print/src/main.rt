//! `xrdpfc_print [-v] <cinfo>..`: writes what the named cinfo files say to standard output.
#![tactic(auto)]

use anyhow::Result;
use pfc_base::Memory;
use pfc_folder::{FolderHost, StdSink};
use pfc_print::print;
use std::env;
use std::process::ExitCode;

/// The exit status for want of memory.
const OUT_OF_MEMORY: u8 = 5;

/// Makes the outside of this machine and prints in it.
fn run(rt: HostRuntime) -> Result<u8> {
    let alloc = rt.alloc();
    let mut words = Vec::new(alloc);
    for word in env::args(&rt)?.skip(1) {
        words.push(word)?;
    }
    let mut host = match FolderHost::new(rt.clone()?, alloc, &words) {
        Ok(host) => host,
        Err(Memory) => return Ok(OUT_OF_MEMORY),
    };
    let mut out = StdSink::new(rt);
    Ok(print(alloc, &words, &mut host, &mut out))
}

fn main(rt: HostRuntime) -> ExitCode {
    match run(rt) {
        Ok(status) => ExitCode::from(status),
        Err(_) => ExitCode::from(OUT_OF_MEMORY),
    }
}
