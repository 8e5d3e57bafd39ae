//! What is asked of a blob, and the number of the result.

use crate::samples::{begun, has_ids, ids_of, session_of};
use std::alloc::Global;
use vx_buffer::ByteBuffer;
use vx_registry::{ArrayContext, ReadContext, VortexSession};
use vx_serde::{SerializeOptions, recode};
use vx_types::{DType, Nullability, PType};

/// A type that a blob is read at.
#[derive(Clone, Copy)]
pub(crate) enum Kind {
    /// Nulls.
    Null,
    /// Signed numbers of four bytes.
    I32,
    /// Unsigned numbers of a byte, some of which may be null.
    SomeBytes,
    /// Texts.
    Texts,
}

// The type.
fn type_of(kind: Kind) -> DType {
    match kind {
        Kind::Null => DType::Null,
        Kind::I32 => DType::Primitive(PType::I32, Nullability::NonNullable),
        Kind::SomeBytes => DType::Primitive(PType::U8, Nullability::Nullable),
        Kind::Texts => DType::Utf8(Nullability::NonNullable),
    }
}

/// How a blob is read and written.
#[derive(Clone, Copy)]
pub(crate) struct Asked<'a> {
    /// The type.
    pub kind: Kind,
    /// The number of rows.
    pub len: usize,
    /// The identifiers of the blob's nodes.
    pub ids: &'a [&'a str],
    /// Whether what is unknown is allowed.
    pub unknown: bool,
    /// The position of the new blob. It is padded where this is not 0.
    pub offset: usize,
}

/// Four signed numbers of four bytes, under the identifier by which they are written.
pub(crate) const INTEGERS: Asked<'static> = Asked {
    kind: Kind::I32,
    len: 4,
    ids: &["vortex.primitive"],
    unknown: false,
    offset: 0,
};

// The number of the result: 0 for Ok, else the refusal's.
fn number_by(
    alloc: Global,
    blob: ByteBuffer,
    asked: &Asked<'_>,
    ids: &ReadContext,
    ctx: &mut ArrayContext,
    session: &VortexSession,
) -> u8 {
    let options = SerializeOptions {
        offset: asked.offset,
        include_padding: asked.offset > 0,
        deep: false,
    };
    let dtype = type_of(asked.kind);
    let answer = recode(alloc, blob, &dtype, asked.len, ids, ctx, session, &options);
    match answer.err() {
        None => 0,
        Some(error) => error.number(),
    }
}

// The same for bytes; 1 where allocation fails for the arguments.
fn number_under(
    alloc: Global,
    blob: &[u8],
    asked: &Asked<'_>,
    ctx: &mut ArrayContext,
    session: &VortexSession,
) -> u8 {
    let Ok(ids) = ids_of(alloc, asked.ids) else {
        return 1;
    };
    let Ok(blob) = ByteBuffer::copy_from(alloc, blob) else {
        return 1;
    };
    number_by(alloc, blob, asked, &ReadContext::new(ids), ctx, session)
}

/// The same with the shipped encodings.
pub(crate) fn number(alloc: Global, blob: &[u8], asked: &Asked<'_>, ctx: &mut ArrayContext) -> u8 {
    match session_of(alloc, asked.unknown) {
        Ok(session) => number_under(alloc, blob, asked, ctx, &session),
        Err(_) => 1,
    }
}

/// The number of the result where the context begins with `a`, or 1 where the context then has other identifiers than
/// these.
pub(crate) fn number_leaving(alloc: Global, blob: &[u8], asked: &Asked<'_>, left: &[&str]) -> u8 {
    let Ok(mut ctx) = begun(alloc, &["a"]) else {
        return 1;
    };
    let number = number(alloc, blob, asked, &mut ctx);
    if has_ids(alloc, &ctx, left) {
        number
    } else {
        1
    }
}
