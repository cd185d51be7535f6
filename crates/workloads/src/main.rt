//! The jobs that users of the libraries wait for, on inputs that are made from a number: what
//! bench/workloads.txt runs.
//!
//! `workloads JOB SEED ROUNDS` does a job this many times, each time on other inputs, and prints a
//! digest of all results: the texts, the data, and the faults with their positions. The jobs are
//! `streams`, `tokens`, `mail`, `pieces`, `own` and `awkward`; `all` is each of them.
#![tactic(auto)]

mod digest;
mod inputs;
mod jobs;

use anyhow::{Context, Result, bail};
use digest::Digest;
use inputs::Inputs;
use std::alloc::Global;
use std::env;

// Does a job, and adds its results to the digest.
fn run(alloc: Global, job: &str, seed: u64, rounds: u64, digest: &mut Digest) -> Result<()> {
    let mut inputs = Inputs::new(alloc, seed)?;
    match job {
        "streams" => jobs::streams::run(alloc, &mut inputs, rounds, digest),
        "tokens" => jobs::tokens::run(alloc, &mut inputs, rounds, digest),
        "mail" => jobs::mail::run(alloc, &mut inputs, rounds, digest),
        "pieces" => jobs::pieces::run(alloc, &mut inputs, rounds, digest),
        "own" => jobs::own::run(alloc, &mut inputs, rounds, digest),
        "awkward" => jobs::awkward::run(alloc, &mut inputs, rounds, digest),
        _ => bail!("no such job: {job}"),
    }
}

fn main(rt: HostRuntime) -> Result<()> {
    let words = env::args(&rt)?;
    let mut words = words.skip(1);
    let job = words.next().context("the job is missing")?;
    let seed = words.next().context("the seed is missing")?.parse()?;
    let rounds = words
        .next()
        .context("the number of rounds is missing")?
        .parse()?;
    let mut digest = Digest::new();
    if job.as_str() == "all" {
        for each in ["streams", "tokens", "mail", "pieces", "own", "awkward"] {
            run(rt.alloc(), each, seed, rounds, &mut digest)?;
        }
    } else {
        run(rt.alloc(), job.as_str(), seed, rounds, &mut digest)?;
    }
    let value = digest.value();
    println!(rt; "{job} {seed} {rounds}: {value:016x}")?;
    Ok(())
}
