//! Opens a blob and decodes its array, whose content is judged meanwhile: this is what the benchmark of content
//! measures. Given a number of rounds, it also prints the time that decoding takes.
#![tactic(auto)]

use anyhow::{Context, Result, bail};
use bench_timing::print_least;
use std::alloc::Global;
use std::rt::Files;
use std::time::CpuClock;
use std::{env, fs};
use vx_buffer::ByteBuffer;
use vx_registry::{ArraySession, ReadContext, VortexSession};
use vx_serde::SerializedArray;
use vx_type_wire::{DTypeExt, ExtSession};
use vx_types::{DType, Id, Ids};

/// The identifiers in a word, with a comma between them.
fn ids_of(alloc: Global, word: &str) -> Result<ReadContext> {
    let mut ids = Ids::new(alloc);
    for id in word.split(',') {
        ids.push(Id::new(alloc, id)?)?;
    }
    Ok(ReadContext::new(ids))
}

// The type that a file shows.
fn type_in<R: Files + AllocGlobal>(rt: &R, from: &str) -> Result<DType> {
    let message = fs::read(rt, from).context(format_args!("reading {from}"))?;
    Ok(DType::from_flatbuffer(rt.alloc(), &message, &ExtSession::new(rt.alloc()))?)
}

// The blob in a file, opened.
fn blob_in<R: Files + AllocGlobal>(rt: &R, from: &str) -> Result<SerializedArray> {
    let blob = fs::read(rt, from).context(format_args!("reading {from}"))?;
    Ok(SerializedArray::try_from_buffer(rt.alloc(), ByteBuffer::from_vec(blob)?)?)
}

// Decodes an array, which judges it, and prints what it is.
fn judge<R: AllocGlobal + Print>(
    rt: &R,
    serialized: &SerializedArray,
    dtype: &DType,
    len: usize,
    ids: &ReadContext,
) -> Result<()> {
    let arrays = ArraySession::default(rt.alloc())?;
    let session = VortexSession::new(arrays, ExtSession::new(rt.alloc()));
    let array = serialized.decode(rt.alloc(), dtype, len, ids, &session)?;
    rt.println(format_args!("{}, {} rows", array.encoding_id(), array.len()))?;
    Ok(())
}

// Prints how long decoding it takes.
fn time<R: CpuClock + AllocGlobal + Print>(
    rt: &R,
    serialized: &SerializedArray,
    dtype: &DType,
    len: usize,
    ids: &ReadContext,
    rounds: &str,
) -> Result<()> {
    let arrays = ArraySession::default(rt.alloc())?;
    let session = VortexSession::new(arrays, ExtSession::new(rt.alloc()));
    print_least(rt, "decode", rounds.parse()?, || {
        Ok(serialized.decode(rt.alloc(), dtype, len, ids, &session)?)
    })
}

fn main(rt: HostRuntime) -> Result<()> {
    let mut words = env::args(&rt)?.skip(1);
    let (Some(of), Some(from), Some(len), Some(ids)) = (
        words.next(),
        words.next(),
        words.next(),
        words.next(),
    ) else {
        bail!("usage: bench_judge TYPE BLOB LEN ID,.. [ROUNDS]");
    };
    let len = len.as_str().parse()?;
    let dtype = type_in(&rt, of.as_str())?;
    let ids = ids_of(rt.alloc(), ids.as_str())?;
    let serialized = blob_in(&rt, from.as_str())?;
    judge(&rt, &serialized, &dtype, len, &ids)?;
    match words.next() {
        Some(rounds) => time(&rt, &serialized, &dtype, len, &ids, rounds.as_str()),
        None => Ok(()),
    }
}
