//! Measures the store of `camel_vlr`, the records of `camel_rows` and the table of `camel_table` by a script on
//! standard input, in the words of the protocol in `bench/README.md`. Without words it does nothing.
#![tactic(auto)]

mod bench;
mod calls;

use crate::bench::{Bench, System};
use anyhow::{Context, Result, anyhow};
use camel_rows::Records;
use camel_script::Script;
use camel_table::{Seed, Table};
use std::alloc::Global;
use std::io::Read;
use std::process::ExitCode;

fn main(rt: HostRuntime) -> ExitCode {
    match words(&rt).and_then(|words| -> Result<()> { answer(&rt, rt.stdin(), &words) }) {
        Ok(()) => ExitCode::SUCCESS,
        Err(error) => {
            let _ = eprintln!(rt; "camel_bench: {error}");
            ExitCode::FAILURE
        }
    }
}

fn words(rt: &HostRuntime) -> Result<Vec<String>> {
    Ok(std::env::args(rt)?.collect(rt.alloc())?)
}

fn answer<R: System, I: Read + Drop + Send>(rt: &R, stdin: I, words: &[String]) -> Result<()> {
    let Some(what) = words.get(1) else {
        return Ok(());
    };
    let numbers = numbers_in(rt.alloc(), words.get(2..).unwrap_or(&[]))?;
    let script = Script::new(rt.alloc(), stdin, u64::MAX).ok();
    let script = script.context("out of memory")?;
    measure(&mut Bench { rt, script }, what, &numbers)
}

fn numbers_in(alloc: Global, words: &[String]) -> Result<Vec<u64>> {
    let mut numbers = Vec::new(alloc);
    for word in words {
        numbers.push(word.parse::<u64>().ok().context("a word is no number")?)?;
    }
    Ok(numbers)
}

fn measure<R: System, I: Read + Drop + Send>(
    bench: &mut Bench<'_, R, I>,
    what: &str,
    numbers: &[u64],
) -> Result<()> {
    let alloc = bench.rt.alloc();
    match (what, numbers) {
        ("each", []) => bench.publish_each(),
        ("records", [rounds]) => bench.look_into(Records::new(alloc), *rounds),
        ("table", [rounds]) => bench.look_into(Table::new(alloc, Seed::fixed()), *rounds),
        ("run", [readers, rounds]) => bench.run(*readers as usize, *rounds),
        _ => Err(anyhow!("these are no words of the protocol")),
    }
}
