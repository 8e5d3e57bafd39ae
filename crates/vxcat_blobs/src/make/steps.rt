//! The steps of the command `make` before it saves: generating the table, and writing its type and its blob.

ghost use Rattle.std.specs.Prelude.{◌≡◌, ◌≤◌, IfOk, IfErr};
ghost use Rattle.vx_buffer.specs.Joined.{joined};
ghost use Rattle.vx_flat.specs.Layout.{written_layout};
ghost use Rattle.vx_trees.specs.Rose.{label};
ghost use Rattle.vx_type_wire.specs.Known.{IsRead, no_readers};
ghost use Rattle.vx_type_wire.specs.Schema.{type_schema};
ghost use Rattle.vx_type_wire.specs.Shown.{ShowsType};
ghost use Rattle.vx_type_wire.specs.TypeTable.{type_table};
ghost use Rattle.vx_registry.specs.Meaning.{session_meaning};
ghost use Rattle.vx_generator.specs.Made.{data_len, made};
ghost use Rattle.vxcat_blobs.specs.MakeCommand.{make_session};
ghost use Rattle.vxcat_blobs.specs.MakeViews.{AreOutputsOf, IsTable, IsTableWritten, IsWrittenAgain};
ghost use Rattle.vxcat_store.specs.declared.status.Status.TheVariants.{OutOfMemory};

use crate::recode::{Outputs, recode_buffer, serialize_options};
use std::alloc::Global;
use vx_arrays::Array;
use vx_buffer::{ByteBuffer, ByteBuffers};
use vx_flat::FlatBuffer;
use vx_generator::{Table, generate, summary};
use vx_registry::{ArrayContext, ArraySession, ReadContext, VortexSession};
use vx_serde::ArrayExt;
use vx_type_wire::{DTypeExt, ExtSession};
use vx_types::Ids;
use vxcat_store::Status;

/// The outputs of the command: the bytes of the table's type, the buffers of its blob with their identifiers, and the
/// line of the table.
#[derive(Drop)]
pub struct MadeOutputs {
    pub type_bytes: FlatBuffer,
    pub buffers: ByteBuffers,
    pub ids: Ids,
    pub line: String,
}

/// An array as a blob, and the identifiers of its nodes.
#[derive(Drop)]
pub struct WrittenTable {
    pub blob: ByteBuffer,
    pub ids: Ids,
}

/// Makes the table of this seed and number of rows, and writes it. The only status that is returned is `OutOfMemory`.
pub fn make_outputs(alloc: Global, seed: u64, rows: usize) -> Result<MadeOutputs, Status>
    requires { rows ≤ 1000000 }
    ensures made { IfOk result (AreOutputsOf (made seed rows)) }
    ensures memory { IfErr result (λ status. status ≡ OutOfMemory) }
{
    match generate(alloc, seed, rows) {
        Ok(table) => outputs_of(alloc, &table),
        Err(_) => Err(Status::OutOfMemory),
    }
}

// The outputs of a table.
fn outputs_of(alloc: Global, table: &Table) -> Result<MadeOutputs, Status>
    requires table { IsTable table.now.array }
    requires data { table.now.data_len ≡ data_len table.now.array }
    ensures made { IfOk result (AreOutputsOf table.now.array) }
    ensures memory { IfErr result (λ status. status ≡ OutOfMemory) }
{
    let Ok(line) = summary(alloc, table.array.len(), table.data_len) else {
        return Err(Status::OutOfMemory);
    };
    let type_bytes = match write_type(alloc, &table.array) {
        Ok(type_bytes) => type_bytes,
        Err(status) => return Err(status),
    };
    match write_again(alloc, &table.array) {
        Ok(again) => Ok(MadeOutputs {
            type_bytes,
            buffers: again.buffers,
            ids: again.ids,
            line,
        }),
        Err(status) => Err(status),
    }
}

// The bytes of a table's type.
fn write_type(alloc: Global, array: &Array) -> Result<FlatBuffer, Status>
    requires { IsTable array.now }
    ensures written { IfOk result (λ m. m ≡ written_layout type_schema (type_table (label array.now).dtype)) }
    ensures read { IfOk result (λ m. IsRead (ShowsType m) no_readers (label array.now).dtype) }
    ensures memory { IfErr result (λ status. status ≡ OutOfMemory) }
{
    match array.dtype().write_flatbuffer_bytes(alloc) {
        Ok(message) => Ok(message),
        Err(error) => Err(Status::of_type(error)),
    }
}

// A table's blob, read and written again with the shipped encodings, so that `make` saves what `recode` would.
fn write_again(alloc: Global, array: &Array) -> Result<Outputs, Status>
    requires { IsTable array.now }
    ensures again { IfOk result (IsWrittenAgain array.now) }
    ensures memory { IfErr result (λ status. status ≡ OutOfMemory) }
{
    let Ok(arrays) = ArraySession::default(alloc) else {
        return Err(Status::OutOfMemory);
    };
    let session = VortexSession::new(arrays, ExtSession::new(alloc));
    write_under(alloc, array, &session)
}

// The same under a session: that of the shipped encodings, without readers of extensions.
fn write_under(alloc: Global, array: &Array, session: &VortexSession) -> Result<Outputs, Status>
    requires table { IsTable array.now }
    requires session { session_meaning (λ b. means (b.vtable, b.value)) (λ b. accepted (b.vtable, b.value)) session.now ≡ make_session }
    ensures again { IfOk result (IsWrittenAgain array.now) }
    ensures memory { IfErr result (λ status. status ≡ OutOfMemory) }
{
    let written = match write_once(alloc, array, session) {
        Ok(written) => written,
        Err(status) => return Err(status),
    };
    let read = ReadContext::new(written.ids);
    recode_buffer(
        alloc,
        written.blob,
        array.dtype(),
        array.len() as u64,
        &read,
        ArrayContext::empty(alloc),
        session,
        &serialize_options(None, false),
    )
}

// A table as a blob, written under that session.
fn write_once(alloc: Global, array: &Array, session: &VortexSession) -> Result<WrittenTable, Status>
    requires table { IsTable array.now }
    requires session { session_meaning (λ b. means (b.vtable, b.value)) (λ b. accepted (b.vtable, b.value)) session.now ≡ make_session }
    ensures written { IfOk result (IsTableWritten array.now) }
    ensures memory { IfErr result (λ status. status ≡ OutOfMemory) }
{
    let mut ids = ArrayContext::empty(alloc);
    match array.serialize(alloc, &mut ids, session, &serialize_options(None, false)) {
        Ok(buffers) => join_written(alloc, &buffers, &ids),
        Err(error) => Err(Status::of_blob(error)),
    }
}

// The buffers joined to one, and the identifiers of their context.
fn join_written(
    alloc: Global,
    buffers: &ByteBuffers,
    ids: &ArrayContext,
) -> Result<WrittenTable, Status>
    ensures blob { IfOk result (λ written. written.blob.bytes ≡ joined buffers.now) }
    ensures ids { IfOk result (λ written. written.ids ≡ ids.now.ids) }
    ensures memory { IfErr result (λ status. status ≡ OutOfMemory) }
{
    let Ok(blob) = buffers.join(alloc) else {
        return Err(Status::OutOfMemory);
    };
    match ids.to_ids(alloc) {
        Ok(ids) => Ok(WrittenTable { blob, ids }),
        Err(_) => Err(Status::OutOfMemory),
    }
}
