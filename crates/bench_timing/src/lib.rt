//! The time that a job takes, for the programs that the benchmarks run.
#![tactic(auto)]

use anyhow::Result;
use std::time::{CpuClock, Duration};

/// Prints a job's name and the least processor time of `rounds` runs, in microseconds. What a round makes is dropped
/// before the next, outside its time.
pub fn print_least<R: CpuClock + Print, T: Drop, F: FnMut() -> Result<T>>(
    rt: &R,
    name: &str,
    rounds: u32,
    mut job: F,
) -> Result<()>
    requires { F.IsAlwaysCallable job }
{
    let mut least = Duration::MAX;
    for _ in 0..rounds {
        let begun = rt.thread_cpu_time()?;
        let _made = job()?;
        least = least.min(rt.thread_cpu_time()?.saturating_sub(begun));
    }
    rt.println(format_args!("{name} {}", least.as_micros()))?;
    Ok(())
}
