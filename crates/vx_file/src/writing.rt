//! Writing a table as a column file.

ghost use Rattle.std.specs.Prelude.{◌≡◌, IsTrue, IsFalse, IfOk, IfErr};
ghost use Rattle.vx_flat.specs.Building.{nothing_built};
ghost use Rattle.vx_flat.specs.Layout.{written_layout};
ghost use Rattle.vx_trees.specs.Rose.{label};
ghost use Rattle.vx_types.specs.Known.{IsKnown, ExtMeaning};
ghost use Rattle.vx_types.specs.Seen.{typ};
ghost use Rattle.vx_type_wire.specs.Known.{IsRead};
ghost use Rattle.vx_type_wire.specs.Schema.{type_schema};
ghost use Rattle.vx_type_wire.specs.Shown.{ShowsType};
ghost use Rattle.vx_type_wire.specs.TypeTable.{type_table};
ghost use Rattle.vx_wire_tree.specs.Session.{IsShipped};
ghost use Rattle.vx_wire_tree.specs.Written.{canon};
ghost use Rattle.vx_encodings.specs.Messages.{codec};
ghost use Rattle.vx_registry.specs.Meaning.{session_meaning};
ghost use Rattle.vx_serde.specs.Serializing.{IsReadAgain};
ghost use Rattle.vx_file.specs.Causes.{RefusesWritingFile, RefusesWritingType};
ghost use Rattle.vx_file.specs.Spells.{FileSpells};
ghost use Rattle.vx_file.specs.Tables.{IsPlainTable, IsNoTable};
ghost use Rattle.vx_file.specs.Written.{file_bytes};

use crate::buffers::join_file;
use crate::error::FileError;
use crate::footer_writing::footer_bytes;
use crate::written_columns::write_columns;
use std::alloc::Global;
use vx_arrays::{Array, Body};
use vx_flat::FlatBuffer;
use vx_registry::VortexSession;
use vx_type_wire::{DTypeExt, TypeWireError};
use vx_types::{Blob, DType, Nullability};

/// Whether an array is encoded as structures of which no row is null.
fn is_table(array: &Array) -> bool
    ensures table { IsTrue result → IsPlainTable array.now }
    ensures none { IsFalse result → IsNoTable array.now }
{
    match array.body() {
        Body::Struct => match array.dtype().nullability() {
            Nullability::NonNullable => true,
            Nullability::Nullable => false,
        },
        _ => false,
    }
}

/// The message of a type.
fn type_message(alloc: Global, dtype: &DType) -> Result<FlatBuffer, FileError>
    ensures written { IfOk result (λ m. m ≡ written_layout type_schema (type_table (typ dtype.now))) }
    ensures read_back { IfOk result (λ m. (x : ExtMeaning) → IsKnown x (typ dtype.now) → IsRead (ShowsType m) x (typ dtype.now)) }
    ensures cause { IfErr result (RefusesWritingType (typ dtype.now)) }
{
    match dtype.write_flatbuffer_bytes(alloc) {
        Ok(message) => Ok(message),
        Err(TypeWireError::OutOfMemory) => Err(FileError::OutOfMemory),
        Err(TypeWireError::WireLimit) => Err(FileError::TooLong),
        Err(_) => unreachable!(),
    }
}

/// Writes a table as a column file: each column as a blob with pads, as at its offset, with one context for all. Statistics
/// of the table's own node are not written.
///
/// # Errors
/// `NotAStruct` where the array is not encoded as structures or its rows may be null, `TooLong` where a count or a length
/// passes four bytes or the type is too large to be written, and `Wire` where a column is refused.
pub fn write_file(alloc: Global, array: &Array, session: &VortexSession) -> Result<Blob, FileError>
    // The bytes are those of the table.
    ensures written { let s = session_meaning (λ b. means (b.vtable, b.value)) (λ b. accepted (b.vtable, b.value)) session.now in
        IfOk result (λ blob. blob ≡ file_bytes s array.now) }
    // With shipped encodings only, they spell what is read back of the table, where its own type and those in its metadata
    // are known.
    ensures spelled { let s = session_meaning (λ b. means (b.vtable, b.value)) (λ b. accepted (b.vtable, b.value)) session.now in
        IsShipped s → IsReadAgain s array.now → IsKnown s.ext (label array.now).dtype
        → IfOk result (λ blob. FileSpells blob s (canon codec s array.now)) }
    // Each refusal has its cause.
    ensures cause { let s = session_meaning (λ b. means (b.vtable, b.value)) (λ b. accepted (b.vtable, b.value)) session.now in
        IfErr result (RefusesWritingFile s array.now) }
{
    if !is_table(array) {
        return Err(FileError::NotAStruct);
    }
    let columns = write_columns(alloc, array.children(), session)?;
    let message = type_message(alloc, array.dtype())?;
    let ids = match columns.ctx.to_ids(alloc) {
        Ok(ids) => ids,
        Err(_) => return Err(FileError::OutOfMemory),
    };
    let footer = footer_bytes(
        alloc,
        array.len() as u64,
        columns.ranges.as_slice(),
        ids.as_slice(),
        message.as_slice(),
    )?;
    let bytes = join_file(alloc, &columns.buffers, footer.as_slice())?;
    Ok(Blob::new(bytes))
}
