//! The parts of the tests of plugins.

use crate::asking::Asking;
use crate::odd::{Odd, Oddity};
use crate::versioned::Versioned;
use std::alloc::Global;
use vx_arrays::{Array, Arrays, ExtensionArray, PrimitiveArray, new_foreign_array};
use vx_buffer::{Alignment, BufferHandle, BufferHandles, ByteBuffer, ByteBuffers};
use vx_registry::{
    ArrayContext, ArrayPlugin, ArraySession, PluginEntry, ReadContext, VortexSession,
};
use vx_serde::{ArrayExt, SerializeOptions, WireError, read_blob};
use vx_test_arrays::parts::both;
use vx_type_wire::{ExtPlugin, ExtSession};
use vx_types::{Blob, DType, ExtDType, Id, Ids, Nullability, PType};

/// The identifiers of numbers, for old writers and for new ones.
pub(crate) const OLD: &str = "vortex.primitive";

pub(crate) const NEW: &str = "vortex.test.primitive_v2";

/// The identifier of nodes that are read where the session accepts their type.
pub(crate) const ASKING: &str = "vortex.test.asking";

/// Allocation failure, for any refusal.
pub(crate) fn lacking<T: Drop, E: Drop>(made: Result<T, E>) -> Result<T, WireError> {
    match made {
        Ok(value) => Ok(value),
        Err(_) => Err(WireError::OutOfMemory),
    }
}

// The bytes of numbers.
fn number_bytes(alloc: Global, values: &[i32]) -> Result<ByteBuffer, WireError> {
    let mut bytes = Vec::new(alloc);
    for value in values {
        bytes.extend_from_slice(&value.to_le_bytes())?;
    }
    lacking(ByteBuffer::from_vec(bytes))
}

// The alignment of the numbers.
fn alignment() -> Alignment {
    match Alignment::new(4) {
        Some(alignment) => alignment,
        None => Alignment::none(),
    }
}

/// These numbers, never null.
pub(crate) fn numbers(alloc: Global, values: &[i32]) -> Result<Array, WireError> {
    let buffer = number_bytes(alloc, values)?;
    let bytes = BufferHandle::new_host(buffer.aligned(alignment()));
    let never = Nullability::NonNullable;
    lacking(PrimitiveArray::try_new(alloc, bytes, PType::I32, never, values.len(), None))
}

/// The type of the numbers.
pub(crate) fn number_type() -> DType {
    DType::Primitive(PType::I32, Nullability::NonNullable)
}

/// The extension `x.day` over numbers.
pub(crate) fn day_type(alloc: Global) -> Result<ExtDType, WireError> {
    let id = lacking(Id::new(alloc, "x.day"))?;
    lacking(ExtDType::new(alloc, id, Blob::new(Vec::new(alloc)), number_type()))
}

/// The days of these numbers.
pub(crate) fn days(alloc: Global, values: &[i32]) -> Result<Array, WireError> {
    let (ext, storage) = both(day_type(alloc), numbers(alloc, values))?;
    lacking(ExtensionArray::try_new(alloc, ext, storage))
}

// The only child of a node.
fn only(alloc: Global, child: Array) -> Result<Arrays, WireError> {
    let mut children = Arrays::new(alloc);
    match lacking(children.push(child)) {
        Ok(()) => Ok(children),
        Err(e) => {
            drop(children);
            Err(e)
        }
    }
}

// Days as the only child of a node.
fn only_days(alloc: Global, values: &[i32]) -> Result<Arrays, WireError> {
    only(alloc, days(alloc, values)?)
}

/// Days below a node that the asking plugin reads.
pub(crate) fn asked_days(alloc: Global, values: &[i32]) -> Result<Array, WireError> {
    let label = both(lacking(Id::new(alloc, ASKING)), day_type(alloc));
    let ((id, ext), children) = both(label, only_days(alloc, values))?;
    let metadata = Blob::new(Vec::new(alloc));
    let buffers = BufferHandles::new(alloc);
    lacking(new_foreign_array(
        alloc,
        id,
        DType::Extension(ext),
        values.len(),
        metadata,
        buffers,
        children,
    ))
}

// Appends identifiers.
fn push_ids(alloc: Global, texts: &[&str], ids: &mut Ids) -> Result<(), WireError> {
    for text in texts {
        let id = lacking(Id::new(alloc, text))?;
        lacking(ids.push(id))?;
    }
    Ok(())
}

/// A list of identifiers.
pub(crate) fn ids_of(alloc: Global, texts: &[&str]) -> Result<Ids, WireError> {
    let mut ids = Ids::new(alloc);
    match push_ids(alloc, texts, &mut ids) {
        Ok(()) => Ok(ids),
        Err(e) => {
            drop(ids);
            Err(e)
        }
    }
}

/// A context that allows these identifiers.
pub(crate) fn allowing(alloc: Global, texts: &[&str]) -> Result<ArrayContext, WireError> {
    let ids = ids_of(alloc, texts)?;
    let ctx = ArrayContext::empty(alloc).with_allowed_ids(alloc, &ids);
    drop(ids);
    lacking(ctx)
}

// Whether these are the identifiers, in this order.
fn are_ids(ids: &[Id], texts: &[&str]) -> bool {
    if ids.len() != texts.len() {
        return false;
    }
    for (id, text) in ids.iter().zip(texts) {
        if id.as_str() != *text {
            return false;
        }
    }
    true
}

/// Whether a context has these identifiers, in this order, and no other.
pub(crate) fn has_ids(alloc: Global, ctx: &ArrayContext, texts: &[&str]) -> bool {
    match ctx.to_ids(alloc) {
        Ok(ids) => {
            let same = are_ids(ids.as_slice(), texts);
            drop(ids);
            same
        }
        Err(_) => false,
    }
}

/// A session of the shipped encodings.
pub(crate) fn shipped(alloc: Global) -> Result<VortexSession, WireError> {
    let arrays = lacking(ArraySession::default(alloc))?;
    Ok(VortexSession::new(arrays, ExtSession::new(alloc)))
}

// Registers a plugin for numbers under two identifiers.
fn register_versioned(alloc: Global, session: &mut VortexSession) -> Result<(), WireError> {
    let plugin: Box<dyn ArrayPlugin> = Box::new(alloc, Versioned::new(alloc)?)?;
    lacking(session.arrays.register(PluginEntry::Boxed(plugin)))
}

// Registers a plugin for numbers that does not write them as it should.
fn register_odd(alloc: Global, does: Oddity, session: &mut VortexSession) -> Result<(), WireError> {
    let plugin: Box<dyn ArrayPlugin> = Box::new(alloc, Odd::new(alloc, OLD, does)?)?;
    lacking(session.arrays.register(PluginEntry::Boxed(plugin)))
}

// Registers a plugin for numbers that has no form for them, before or after the plugin of both identifiers.
fn register_both(alloc: Global, last: bool, session: &mut VortexSession) -> Result<(), WireError> {
    if last {
        register_versioned(alloc, session)?;
        register_odd(alloc, Oddity::Formless, session)
    } else {
        register_odd(alloc, Oddity::Formless, session)?;
        register_versioned(alloc, session)
    }
}

// A session in which something was registered, or the refusal of that.
fn once_registered(
    registered: Result<(), WireError>,
    session: VortexSession,
) -> Result<VortexSession, WireError> {
    match registered {
        Ok(()) => Ok(session),
        Err(e) => {
            drop(session);
            Err(e)
        }
    }
}

/// The same with a plugin for numbers under two identifiers.
pub(crate) fn versioned(alloc: Global) -> Result<VortexSession, WireError> {
    let mut session = shipped(alloc)?;
    once_registered(register_versioned(alloc, &mut session), session)
}

/// The same with a plugin for numbers that does not write them as it should.
pub(crate) fn odd(alloc: Global, does: Oddity) -> Result<VortexSession, WireError> {
    let mut session = shipped(alloc)?;
    once_registered(register_odd(alloc, does, &mut session), session)
}

/// The same with a plugin for numbers that has no form for them, registered before or after the plugin of both
/// identifiers.
pub(crate) fn replaced(alloc: Global, last: bool) -> Result<VortexSession, WireError> {
    let mut session = shipped(alloc)?;
    once_registered(register_both(alloc, last, &mut session), session)
}

/// A reader of the extension `x.day` that accepts all or none.
#[derive(Drop)]
pub struct DayReader {
    id: Id,
    accepts: bool,
}

impl ExtPlugin for DayReader {
    ghost its_id = { λ p. p.id };

    ghost accepted = { λ p metadata storage. p.accepts };

    fn id(&self) -> &Id {
        &self.id
    }

    fn accepts(&self, _metadata: &[u8], _storage: &DType) -> bool {
        self.accepts
    }
}

// Registers a plugin that asks the session's readers.
fn register_asking(alloc: Global, session: &mut VortexSession) -> Result<(), WireError> {
    let plugin: Box<dyn ArrayPlugin> = Box::new(alloc, Asking::new(alloc)?)?;
    lacking(session.arrays.register(PluginEntry::Boxed(plugin)))
}

// Registers a reader of `x.day`.
fn register_reader(
    alloc: Global,
    accepts: bool,
    session: &mut VortexSession,
) -> Result<(), WireError> {
    let id = lacking(Id::new(alloc, "x.day"))?;
    let reader: Box<dyn ExtPlugin> = Box::new(alloc, DayReader { id, accepts })?;
    lacking(session.ext.register(reader))
}

// Registers both of these.
fn register_asked(
    alloc: Global,
    accepts: bool,
    session: &mut VortexSession,
) -> Result<(), WireError> {
    register_asking(alloc, session)?;
    register_reader(alloc, accepts, session)
}

/// A session with a plugin that asks the session's readers, and with a reader of `x.day`.
pub(crate) fn asking(alloc: Global, accepts: bool) -> Result<VortexSession, WireError> {
    let mut session = shipped(alloc)?;
    once_registered(register_asked(alloc, accepts, &mut session), session)
}

/// A session of the shipped encodings that allows what nothing is registered for.
pub(crate) fn allowing_unknown(alloc: Global) -> Result<VortexSession, WireError> {
    let mut session = shipped(alloc)?;
    session.ext.allow_unknown();
    Ok(session)
}

/// The blob that an array is written as.
pub(crate) fn written(
    alloc: Global,
    array: &Array,
    ctx: &mut ArrayContext,
    session: &VortexSession,
) -> Result<ByteBuffer, WireError> {
    let options = SerializeOptions::default();
    let buffers: ByteBuffers = array.serialize(alloc, ctx, session, &options)?;
    let blob = buffers.join(alloc);
    drop(buffers);
    lacking(blob)
}

/// The array that a blob is read as, with these identifiers.
pub(crate) fn read(
    alloc: Global,
    blob: ByteBuffer,
    dtype: &DType,
    len: usize,
    texts: &[&str],
    session: &VortexSession,
) -> Result<Array, WireError> {
    let ids = ReadContext::new(ids_of(alloc, texts)?);
    read_blob(alloc, blob, dtype, len, &ids, session, false)
}
