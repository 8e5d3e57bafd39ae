//! Verifies an array message and walks over its value through views: this is what the benchmarks of tables measure.
//! Given a number of rounds, it also prints the time of each.
#![tactic(auto)]

mod walk;

ghost use Rattle.std.specs.Prelude.{IfOk};
ghost use Rattle.vx_flat.specs.Seen.{IsViewOf};
ghost use Rattle.vx_serialized.specs.ArraySchema.{array_schema};

use anyhow::{Context, Result, bail};
use bench_timing::print_least;
use std::{env, fs};
use vx_flat::{FlatError, View, verify_uncounted};
use vx_serde::ArrayKind;
use walk::walk;

/// The view of a message's root table.
fn verify(message: &[u8]) -> Result<View<'_>, FlatError>
    ensures { IfOk result (λ v. IsViewOf array_schema 0 v) }
{
    verify_uncounted(message, &ArrayKind)
}

fn main(rt: HostRuntime) -> Result<()> {
    let mut words = env::args(&rt)?.skip(1);
    let Some(from) = words.next() else {
        bail!("usage: bench_walk FROM [ROUNDS]");
    };
    let message = fs::read(&rt, from.as_str()).context(format_args!("reading {from}"))?;
    let root = verify(&message)?;
    rt.println(walk(&root))?;
    if let Some(rounds) = words.next() {
        let rounds = rounds.as_str().parse()?;
        print_least(&rt, "verify", rounds, || Ok(verify(&message)?))?;
        print_least(&rt, "walk", rounds, || Ok(walk(&root)))?;
    }
    Ok(())
}
