//! Reads an array message from a file and writes its value to another: this is what the benchmarks of tables measure.
//! Given a number of rounds, it also prints the times of reading and writing.
#![tactic(auto)]

ghost use Rattle.vx_flat.specs.IsOf.{IsOf};
ghost use Rattle.vx_flat.specs.View.{value as value_of};
ghost use Rattle.vx_serialized.specs.ArraySchema.{array_schema};

use anyhow::{Context, Result, bail};
use bench_timing::print_least;
use std::rt::Files;
use std::time::CpuClock;
use std::{env, fs};
use vx_flat::{FlatBuffer, TableValue, read_value, write_value};
use vx_serde::ArrayKind;

fn rewrite<R: Files + AllocGlobal + Print>(rt: &R, from: &str, to: &str) -> Result<()> {
    let message = fs::read(rt, from).context(format_args!("reading {from}"))?;
    let value = read_value(rt.alloc(), &message, &ArrayKind)?;
    let written = write_value(rt.alloc(), &ArrayKind, &value)?;
    fs::write(rt, to, written.as_slice()).context(format_args!("writing {to}"))?;
    let (read, written) = (message.len(), written.len());
    rt.println(format_args!("{read} bytes read, {written} bytes written"))?;
    Ok(())
}

fn time<R: CpuClock + Files + AllocGlobal + Print>(rt: &R, from: &str, rounds: u32) -> Result<()> {
    let message = fs::read(rt, from).context(format_args!("reading {from}"))?;
    print_least(rt, "read", rounds, || {
        Ok(read_value(rt.alloc(), &message, &ArrayKind)?)
    })?;
    let value = read_value(rt.alloc(), &message, &ArrayKind)?;
    time_writing(rt, &value, rounds)
}

fn time_writing<R: CpuClock + AllocGlobal + Print>(
    rt: &R,
    value: &TableValue,
    rounds: u32,
) -> Result<()>
    requires { IsOf array_schema (value_of value.now) }
{
    print_least(
        rt,
        "write",
        rounds,
        || -> Result<FlatBuffer>
            requires { IsOf array_schema (value_of value.now) }
        { Ok(write_value(rt.alloc(), &ArrayKind, value)?) },
    )
}

fn main(rt: HostRuntime) -> Result<()> {
    let mut words = env::args(&rt)?.skip(1);
    let (Some(from), Some(to)) = (words.next(), words.next()) else {
        bail!("usage: bench_rewrite FROM TO [ROUNDS]");
    };
    rewrite(&rt, from.as_str(), to.as_str())?;
    if let Some(rounds) = words.next() {
        time(&rt, from.as_str(), rounds.as_str().parse()?)?;
    }
    Ok(())
}
