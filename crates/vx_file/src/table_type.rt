//! Types of tables.

ghost use Rattle.std.specs.Prelude.{◌≡◌, ◌↔◌, ◌<◌, ℕ, List, Some, IsTrue, IfOk, IsOkUnless, MatchOption, slice_get};
ghost use Rattle.vx_trees.specs.Rose.{node, roses_of};
ghost use Rattle.vx_types.specs.Kind.{structure};
ghost use Rattle.vx_types.specs.Seen.{typ};
ghost use Rattle.vx_types.specs.Typ.{Typ};
ghost use Rattle.vx_type_wire.specs.Known.{IsRead};
ghost use Rattle.vx_type_wire.specs.Session.{ext_meaning};
ghost use Rattle.vx_type_wire.specs.Shown.{ShowsType};
ghost use Rattle.vx_file.specs.Shows.{IsTableType, ReadsNoTable, field_types};

use crate::error::FileError;
use std::alloc::Global;
use vx_type_wire::{DTypeExt, ExtSession, TypeWireError};
use vx_types::{DType, Nullability, StructFields};

/// Whether structures of these fields are tables of so many columns.
fn is_table_of(fields: &StructFields, nullability: Nullability, columns: usize) -> bool
    ensures { IsTrue result ↔ IsTableType columns (node (structure fields.now.names nullability) (roses_of fields.now.types)) }
{
    match nullability {
        Nullability::NonNullable => fields.fields().len() == columns,
        Nullability::Nullable => false,
    }
}

/// Whether a type is that of tables of so many columns.
fn is_table(dtype: &DType, columns: usize) -> bool
    ensures { IsTrue result ↔ IsTableType columns (typ dtype.now) }
{
    match dtype {
        DType::Struct(fields, nullability) => is_table_of(fields, *nullability, columns),
        _ => false,
    }
}

/// The type of tables of so many columns that is read of a message: none where none is.
pub(crate) fn read_table_type(
    alloc: Global,
    message: &[u8],
    columns: usize,
    readers: &ExtSession,
) -> Result<Option<DType>, FileError>
    ensures ok { IfOk result (λ o. MatchOption o (ReadsNoTable (ext_meaning (λ b. accepted (b.vtable, b.value)) readers.now) message.now columns)
        (λ d. IsRead (ShowsType message.now) (ext_meaning (λ b. accepted (b.vtable, b.value)) readers.now) (typ d) × IsTableType columns (typ d))) }
    ensures err { IsOkUnless result FileError.OutOfMemory }
{
    let dtype = match DType::from_flatbuffer(alloc, message, readers) {
        Ok(dtype) => dtype,
        Err(TypeWireError::OutOfMemory) => return Err(FileError::OutOfMemory),
        Err(_) => return Ok(None),
    };
    if is_table(&dtype, columns) {
        Ok(Some(dtype))
    } else {
        Ok(None)
    }
}

/// The type of a column of a table type.
pub(crate) fn column_type(dtype: &DType, columns: usize, column: usize) -> &DType
    requires table { IsTableType columns (typ dtype.now) }
    requires within { column < columns }
    ensures { (fields : List Typ) → field_types (typ dtype.now) ≡ Some fields → slice_get fields column ≡ Some (typ result.now) }
{
    match dtype {
        DType::Struct(fields, _) => match fields.fields().get(column) {
            Some(found) => found,
            None => unreachable!(),
        },
        _ => unreachable!(),
    }
}
