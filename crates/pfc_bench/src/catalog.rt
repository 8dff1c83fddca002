// A catalog of many files: each one that a scan finds, what its usage takes, and each victim of a purge.
use crate::sample::{Plan, Sample, have, nanoseconds_since};
use anyhow::{Result, bail};
use pfc_base::Path;
use pfc_catalog::{Catalog, Victim};
use std::alloc::Global;
use std::rt::Clock;
use std::time::Instant;

/// The files of the catalogs. Each number is a multiple of `PART`.
pub fn sizes(plan: Plan) -> [u64; 3] {
    match plan {
        Plan::Try => [1000, 2000, 3000],
        Plan::Measure => [10_000, 100_000, 1_000_000],
    }
}

/// So many files are made, and then learnt while the clock runs.
const PART: u64 = 1000;

/// The victims of a purge.
fn victims(plan: Plan) -> u64 {
    match plan {
        Plan::Try => 10,
        Plan::Measure => 1000,
    }
}

/// How often a thousand usages are read.
fn thousands(plan: Plan) -> u64 {
    match plan {
        Plan::Try => 1,
        Plan::Measure => 1000,
    }
}

/// The samples of one catalog.
#[derive(Clone, Copy)]
pub struct Samples {
    /// Of one file that is learnt.
    pub learn: Sample,
    /// Of a thousand usages.
    pub usages: Sample,
    /// Of one victim that is taken and gone.
    pub victim: Sample,
}

/// What a scan finds of a file.
#[derive(Drop)]
struct Found {
    path: Path,
    usage: u64,
    last: u64,
}

/// A slash and the last three digits of a number.
fn push_digits(bytes: &mut Vec<u8>, number: u64) -> Result<()> {
    bytes.push(b'/')?;
    for place in [100u64, 10, 1] {
        bytes.push(b'0' + (number / place % 10) as u8)?;
    }
    Ok(())
}

/// The path of a number below 10^9.
fn path_of(alloc: Global, number: u64) -> Result<Path> {
    let mut bytes = Vec::new(alloc);
    bytes.extend_from_slice(b"/store/data/Run2024C/EGamma/AOD/PromptReco-v1")?;
    push_digits(&mut bytes, number / 1_000_000)?;
    push_digits(&mut bytes, number / 1000)?;
    push_digits(&mut bytes, number)?;
    bytes.extend_from_slice(b".root")?;
    match Path::read(&bytes) {
        Ok(path) => Ok(path),
        Err(_) => bail!("no path"),
    }
}

/// A second of a year; those of successive numbers are in no order.
fn second_of(number: u64) -> u64 {
    let mixed = number.wrapping_mul(0x9E37_79B9_7F4A_7C15);
    let mixed = (mixed ^ (mixed >> 30)).wrapping_mul(0xBF58_476D_1CE4_E5B9);
    (mixed ^ (mixed >> 27)) % 31_536_000
}

/// The files of these numbers. Each takes a byte more than its number.
fn files_of(alloc: Global, from: u64, until: u64) -> Result<Vec<Found>> {
    let mut files = Vec::new(alloc);
    for number in from..until {
        files.push(Found {
            path: path_of(alloc, number)?,
            usage: number.saturating_add(1),
            last: second_of(number),
        })?;
    }
    Ok(files)
}

/// Learns files that aren't known.
fn learn(catalog: &mut Catalog, files: &[Found]) -> Result<()> {
    for file in files {
        if catalog.known(&file.path) {
            bail!("known already");
        }
        have(catalog.learn(&file.path, file.usage, file.last, false))?;
    }
    Ok(())
}

/// Learns so many files into an empty catalog. The nanoseconds come back.
fn scan<R: Clock + Alloc<A = Global>>(rt: &R, catalog: &mut Catalog, count: u64) -> Result<u64> {
    let mut spent = 0u64;
    for part in 0..count / PART {
        let from = part.saturating_mul(PART);
        let files = files_of(rt.alloc(), from, from.saturating_add(PART))?;
        let start = Instant::now(rt)?;
        learn(catalog, &files)?;
        spent = spent.saturating_add(nanoseconds_since(rt, start)?);
    }
    Ok(spent)
}

/// The sum of the catalogs' usages.
fn usage_sum(catalogs: &[&Catalog]) -> u64 {
    let mut sum = 0u64;
    for catalog in catalogs {
        sum = sum.wrapping_add(catalog.usage());
    }
    sum
}

/// How many victims were taken and gone.
fn purge(catalog: &mut Catalog, rounds: u64) -> u64 {
    let mut sum = 0u64;
    for _ in 0..rounds {
        if let Victim::Take(path) = catalog.take_victim(0)
            && catalog.gone(&path)
        {
            sum = sum.wrapping_add(1);
        }
    }
    sum
}

/// The same catalog stands many times in a list, so that each usage is read anew.
fn sample_usages<R: Clock + Alloc<A = Global>>(
    rt: &R,
    plan: Plan,
    catalog: &Catalog,
) -> Result<Sample> {
    let rounds = thousands(plan);
    let catalogs = vec![in rt.alloc(); catalog; rounds.saturating_mul(1000) as usize]?;
    let start = Instant::now(rt)?;
    let sum = usage_sum(&catalogs);
    Ok(Sample::until_now(rt, start, rounds, sum)?)
}

fn sample_victims<R: Clock + Alloc<A = Global>>(
    rt: &R,
    plan: Plan,
    catalog: &mut Catalog,
) -> Result<Sample> {
    let rounds = victims(plan);
    let start = Instant::now(rt)?;
    let sum = purge(catalog, rounds);
    Ok(Sample::until_now(rt, start, rounds, sum)?)
}

/// Of a catalog of so many files.
pub fn of_files<R: Clock + Alloc<A = Global>>(rt: &R, plan: Plan, count: u64) -> Result<Samples> {
    let mut catalog = Catalog::new(rt.alloc());
    let spent = scan(rt, &mut catalog, count)?;
    let learn = Sample::of_total(spent, count, catalog.usage());
    let usages = sample_usages(rt, plan, &catalog)?;
    let victim = sample_victims(rt, plan, &mut catalog)?;
    Ok(Samples {
        learn,
        usages,
        victim,
    })
}
