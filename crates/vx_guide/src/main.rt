//! A guide to the library, as a program: it makes a table of cities, writes it as a blob, looks at the blob without
//! decoding it, decodes it and prints it; two blobs are refused; then it writes the table as a column file and loads two of
//! its columns. docs/LIBRARY.md walks through it.
#![tactic(auto)]

mod cities;
mod columns;
mod files;
mod rows;

use crate::cities::cities;
use crate::files::tell_file;
use crate::rows::print_rows;
use anyhow::{Result, bail};
use duriancards::prelude::{
    Array, ArrayContext, ArrayExt, ArraySession, ByteBuffer, DType, ExtSession, ReadContext,
    SerializeOptions, SerializedArray, VortexSession,
};
use duriancards::serde::SerializedNode;
use std::alloc::Global;

/// The bytes of a blob, and the identifiers that its nodes name by number.
#[derive(Drop)]
struct Written {
    blob: ByteBuffer,
    ids: ReadContext,
}

/// Writes an array. An empty context takes its identifiers, so it numbers those of this array alone.
fn write(alloc: Global, array: &Array, session: &VortexSession) -> Result<Written> {
    let mut ctx = ArrayContext::empty(alloc);
    let options = SerializeOptions::default();
    let buffers = array.serialize(alloc, &mut ctx, session, &options)?;
    let blob = buffers.join(alloc)?;
    let ids = ReadContext::new(ctx.to_ids(alloc)?);
    Ok(Written { blob, ids })
}

/// Prints a node: its encoding, by the identifier of its number, and its parts.
fn print_node(rt: &impl Print, node: &SerializedNode<'_>, ids: &ReadContext) -> Result<()> {
    let Some(id) = ids.resolve(node.encoding_id()) else {
        bail!("no identifier has this number");
    };
    let (id, children, buffers) = (id.as_str(), node.nchildren(), node.nbuffers());
    rt.println(format_args!("{id}: {children} children, {buffers} buffers"))?;
    Ok(())
}

/// Prints the root of a blob and the nodes right below it. Nothing is decoded, so this takes no memory.
fn look(rt: &impl Print, serialized: &SerializedArray, ids: &ReadContext) -> Result<()> {
    let root = serialized.root();
    print_node(rt, &root, ids)?;
    for i in 0..root.nchildren() {
        print_node(rt, &root.child(i), ids)?;
    }
    Ok(())
}

/// Decodes the array of a blob at a type and a length, and prints its rows.
fn read(
    rt: &impl Print,
    alloc: Global,
    serialized: &SerializedArray,
    dtype: &DType,
    ids: &ReadContext,
    session: &VortexSession,
) -> Result<()> {
    let array = serialized.decode(alloc, dtype, 3, ids, session)?;
    print_rows(rt, alloc, &array)
}

/// Asks for four rows of a blob of three, and prints the refusal.
fn refuse_rows(
    rt: &impl Print,
    alloc: Global,
    serialized: &SerializedArray,
    dtype: &DType,
    ids: &ReadContext,
    session: &VortexSession,
) -> Result<()> {
    match serialized.decode(alloc, dtype, 4, ids, session) {
        Ok(_) => bail!("four rows were read of three"),
        Err(why) => rt.println(format_args!("four rows: {why}"))?,
    }
    Ok(())
}

/// Opens a blob without its last byte, and prints the refusal.
fn refuse_bytes(rt: &impl Print, alloc: Global, blob: &ByteBuffer) -> Result<()> {
    let cut = blob.slice(alloc, 0..blob.len().saturating_sub(1))?;
    match SerializedArray::try_from_buffer(alloc, cut) {
        Ok(_) => bail!("a blob was opened without its last byte"),
        Err(why) => rt.println(format_args!("a byte less: {why}"))?,
    }
    Ok(())
}

/// Prints what a blob holds: its nodes, its rows, and the refusal of one row more.
fn show(
    rt: &impl Print,
    alloc: Global,
    serialized: &SerializedArray,
    dtype: &DType,
    ids: &ReadContext,
    session: &VortexSession,
) -> Result<()> {
    look(rt, serialized, ids)?;
    read(rt, alloc, serialized, dtype, ids, session)?;
    refuse_rows(rt, alloc, serialized, dtype, ids, session)
}

/// Opens a blob of a type, and prints what it holds.
fn open(
    rt: &impl Print,
    alloc: Global,
    written: Written,
    dtype: &DType,
    session: &VortexSession,
) -> Result<()> {
    let Written { blob, ids } = written;
    let serialized = SerializedArray::try_from_buffer(alloc, blob)?;
    show(rt, alloc, &serialized, dtype, &ids, session)
}

/// Writes the table, prints the length of its blob and why a shorter one is refused, and opens it.
fn tell(rt: &impl Print, alloc: Global, table: &Array, session: &VortexSession) -> Result<()> {
    let written = write(alloc, table, session)?;
    rt.println(format_args!("{} bytes", written.blob.len()))?;
    refuse_bytes(rt, alloc, &written.blob)?;
    open(rt, alloc, written, table.dtype(), session)
}

fn main(rt: HostRuntime) -> Result<()> {
    let alloc = rt.alloc();
    let session = VortexSession::new(ArraySession::default(alloc)?, ExtSession::new(alloc));
    let table = cities(alloc)?;
    tell(&rt, alloc, &table, &session)?;
    tell_file(&rt, alloc, &table, &session)
}
