//! The columns of a file, as they are written.

ghost use Rattle.std.specs.Prelude.{◌≡◌, ◌+◌, ◌<◌, ◌^◌, ◌++◌, length, IfOk, IfErr, OnOk};
ghost use Rattle.vx_buffer.specs.Joined.{joined};
ghost use Rattle.vx_registry.specs.Meaning.{session_meaning};
ghost use Rattle.vx_file.specs.ColumnsMade.{AreColumnsMade, RefusesMaking};
ghost use Rattle.vx_file.specs.Written.{column_blob, context_after};
ghost use Rattle.vx_file.specs.WrittenColumns.{IsWrittenColumn};
ghost use Rattle.vx_file.specs.Causes.{RefusesWritingColumn};

use crate::buffers::{append, joined_len};
use crate::error::FileError;
use crate::footer::ColumnRange;
use std::alloc::Global;
use vx_arrays::Array;
use vx_buffer::ByteBuffers;
use vx_registry::{ArrayContext, VortexSession};
use vx_serde::{ArrayExt, SerializeOptions, WireError};

/// The blobs of columns, one after the other, their ranges, and the context that they have grown. The blobs' buffers are
/// those of the arrays: no byte of them is copied.
#[derive(Drop)]
pub(crate) struct ColumnsWritten {
    pub(crate) buffers: ByteBuffers,
    pub(crate) ranges: Vec<ColumnRange>,
    pub(crate) ctx: ArrayContext,
}

/// Writes a column at an offset: appends the buffers of its blob, and answers the number of their bytes.
fn write_column(
    alloc: Global,
    column: &Array,
    session: &VortexSession,
    offset: u64,
    ctx: &mut ArrayContext,
    buffers: &mut ByteBuffers,
) -> Result<u64, FileError>
    ensures written { let s = session_meaning (λ b. means (b.vtable, b.value)) (λ b. accepted (b.vtable, b.value)) session.now in
        OnOk result (joined buffers.new ≡ joined buffers.old ++ column_blob s column.now offset ctx.old) }
    ensures len { let s = session_meaning (λ b. means (b.vtable, b.value)) (λ b. accepted (b.vtable, b.value)) session.now in
        IfOk result (λ len. len ≡ length (column_blob s column.now offset ctx.old)) }
    ensures ends { IfOk result (λ len. offset + len < 2 ^ 64) }
    ensures context { let s = session_meaning (λ b. means (b.vtable, b.value)) (λ b. accepted (b.vtable, b.value)) session.now in
        OnOk result (ctx.new ≡ context_after s column.now offset ctx.old) }
    ensures column { let s = session_meaning (λ b. means (b.vtable, b.value)) (λ b. accepted (b.vtable, b.value)) session.now in
        OnOk result (IsWrittenColumn s column.now offset ctx.old) }
    ensures cause { let s = session_meaning (λ b. means (b.vtable, b.value)) (λ b. accepted (b.vtable, b.value)) session.now in
        IfErr result (RefusesWritingColumn s column.now offset ctx.old) }
{
    let options = SerializeOptions {
        offset: offset as usize,
        include_padding: true,
        deep: false,
    };
    let blob = match column.serialize(alloc, ctx, session, &options) {
        Ok(blob) => blob,
        Err(e) => match e.refusal() {
            None => return Err(FileError::OutOfMemory),
            Some(refusal) => return Err(FileError::Wire(refusal)),
        },
    };
    let len = joined_len(&blob);
    match append(buffers, blob) {
        Ok(()) => Ok(len),
        Err(_) => Err(FileError::OutOfMemory),
    }
}

/// Writes columns one after the other, the first after the file's first word.
pub(crate) fn write_columns(
    alloc: Global,
    columns: &[Array],
    session: &VortexSession,
) -> Result<ColumnsWritten, FileError>
    ensures made { let s = session_meaning (λ b. means (b.vtable, b.value)) (λ b. accepted (b.vtable, b.value)) session.now in
        IfOk result (AreColumnsMade s columns.now) }
    ensures cause { let s = session_meaning (λ b. means (b.vtable, b.value)) (λ b. accepted (b.vtable, b.value)) session.now in
        IfErr result (RefusesMaking s columns.now) }
{
    let mut ctx = ArrayContext::empty(alloc);
    let mut buffers = ByteBuffers::new(alloc);
    let mut ranges = Vec::new(alloc);
    let mut offset: u64 = 4;
    for column in columns {
        let len = write_column(alloc, column, session, offset, &mut ctx, &mut buffers)?;
        ranges.push(ColumnRange { start: offset, len })?;
        offset += len;
    }
    Ok(ColumnsWritten {
        buffers,
        ranges,
        ctx,
    })
}
