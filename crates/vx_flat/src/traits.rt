//! Traits of types that are read from views and written by builders.

ghost use Rattle.std.specs.Prelude.{◌≡◌, ◌<◌, ◌^◌, ◌⊎◌, false, IfOk, IfErr, OnOk, OnErr, IsOk, length};
ghost use Rattle.vx_flat.specs.Schema.{fields_of};
ghost use Rattle.vx_flat.specs.Value.{Fields};
ghost use Rattle.vx_flat.specs.Seen.{seen, IsViewOf};
ghost use Rattle.vx_flat.specs.IsOf.{IsOf};
ghost use Rattle.vx_flat.specs.Shows.{Shows};
ghost use Rattle.vx_flat.specs.Layout.{written_layout};
ghost use Rattle.vx_flat.specs.Limits.{limits, KeepsLimits};
ghost use Rattle.vx_flat.specs.Weight.{weight};
ghost use Rattle.vx_flat.specs.Pieces.{table_pieces};
ghost use Rattle.vx_flat.specs.Building.{Built, nothing_built, Takes, Written, Keeps};
ghost use Rattle.vx_flat.specs.Refusing.{RefusesTables};
ghost use Rattle.vx_flat.specs.declared.error.FlatError.TheVariants.{OutOfMemory};

use crate::buffer::FlatBuffer;
use crate::builder::Builder;
use crate::builder::piece::LinkKind;
use crate::error::FlatError;
use crate::schema::TableKind;
use crate::viewing::{View, verify_uncounted};
use std::alloc::Global;

/// A type whose table is the root of a message.
pub trait FlatBufferRoot {}

/// A type that is read from a message.
pub trait ReadFlatBuffer: Sized {
    /// The kind of its messages.
    type Kind: TableKind + Drop;

    /// The kind, as a value.
    const KIND: Self::Kind;

    /// The error of reading.
    type Error: From<FlatError>;

    /// A table, and a value that it is read as.
    ghost reads: { Fields → Self → Type 0 };

    /// Why a table is not read. Allocation failure has no cause in the table.
    ghost unread: { Fields → Self.Error → Type 0 };

    /// Reads a view of the kind's root table.
    fn read_flatbuffer(alloc: Global, view: &View<'_>) -> Result<Self, Self::Error>
        requires { IsViewOf Self.Kind.schema Self.Kind.schema.root view.now }
        ensures read { IfOk result (λ x. reads (seen view.now) x) }
        ensures cause { IfErr result (λ e. unread (seen view.now) e) }

        // A table that can be read is read, unless memory runs out.
        ensures complete { (x : Self) → reads (seen view.now) x
            → IfErr result (λ e. Self.Error.from_gives OutOfMemory e) };

    /// Verifies a message and reads its root table.
    fn read_flatbuffer_bytes(alloc: Global, message: &[u8]) -> Result<Self, Self::Error>
        ensures read { IfOk result
            (λ x. (v : Fields) × Shows Self.Kind.schema message.now v × reads v x) }
        ensures within_limits { OnOk result (KeepsLimits limits (weight Self.Kind.schema message.now)) }
        ensures cause { IfErr result
            (λ e. ((f : FlatError) × RefusesTables Self.Kind.schema message.now f × Self.Error.from_gives f e)
            ⊎ ((v : Fields) × Shows Self.Kind.schema message.now v × unread v e)) }

        // A table within the limits that can be read is read, unless memory runs out.
        ensures complete { (v : Fields) (x : Self) → Shows Self.Kind.schema message.now v
            → KeepsLimits limits (weight Self.Kind.schema message.now) → reads v x
            → IfErr result (λ e. Self.Error.from_gives OutOfMemory e) }
    {
        let view = verify_uncounted(message, &Self::KIND)?;
        Self::read_flatbuffer(alloc, &view)
    }
}

/// A type that is written as a table.
pub trait WriteFlatBuffer {
    /// The kind of its messages.
    type Kind: TableKind + Drop;

    /// The kind, as a value.
    const KIND: Self::Kind;

    /// The error of writing.
    type Error;

    /// The value's table.
    ghost table: { Self → Fields };

    /// Why a value is not written by a builder.
    ghost unwritten: { Self → Built → Self.Error → Type 0 };

    /// Writes the blocks of the value, its table first, after those that the builder has. After an
    /// error the builder keeps its blocks, and those of the value that were written so far.
    fn write_flatbuffer(&self, alloc: Global, builder: &mut Builder) -> Result<(), Self::Error>
        requires { Takes LinkKind.Table builder.old }
        ensures of_kind { IsOk result → IsOf Self.Kind.schema (table self.now) }
        ensures written { OnOk result
            (Written Self.Kind.schema (fields_of Self.Kind.schema Self.Kind.schema.root) (table self.now)
            builder.old builder.new) }
        ensures fits { IsOk result → length builder.new.bytes < 2 ^ 31 }
        ensures works { IsOk result → builder.old.failed ≡ false }
        ensures kept { OnErr result (Keeps builder.old
            (table_pieces Self.Kind.schema (fields_of Self.Kind.schema Self.Kind.schema.root) (table self.now))
            builder.new) }
        ensures cause { IfErr result (λ e. unwritten self.now builder.old e) };
}

/// Writes a value as a message.
pub trait WriteFlatBufferExt: WriteFlatBuffer + FlatBufferRoot {
    /// The message whose root is the value's table: the layout of that table.
    fn write_flatbuffer_bytes(&self, alloc: Global) -> Result<FlatBuffer, Self::Error>
        ensures of_kind { IsOk result → IsOf Self.Kind.schema (Self.table self.now) }
        ensures written { IfOk result
            (λ b. b ≡ written_layout Self.Kind.schema (Self.table self.now)) }
        ensures fits { IfOk result (λ b. length b < 2 ^ 31) }
        ensures cause { IfErr result (λ e. Self.unwritten self.now nothing_built e) }
    {
        let mut builder = Builder::new(alloc);
        self.write_flatbuffer(alloc, &mut builder)?;
        match builder.finish(alloc) {
            Ok(message) => Ok(message),
            Err(_) => unreachable!(),
        }
    }
}

impl<T: WriteFlatBuffer + FlatBufferRoot> WriteFlatBufferExt for T {}
