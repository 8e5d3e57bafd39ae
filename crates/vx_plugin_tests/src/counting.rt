//! A plugin that counts how often it is asked to write.

ghost use Rattle.std.specs.Prelude.{◌≡◌};
ghost use Rattle.vx_plugin_tests.specs.Meanings.{versioned};

use crate::parts::{
    NEW, OLD, allowing, has_ids, lacking, number_type, numbers, read, shipped, written,
};
use crate::versioned::Versioned;
use std::alloc::Global;
use std::cell::Cell;
use std::rc::Rc;
use vx_arrays::Array;
use vx_buffer::ByteBuffer;
use vx_encodings::{ArrayHead, ChildPlans};
use vx_registry::{
    ArrayDeserialization, ArrayPlugin, ArraySerialization, PluginEntry, PluginError, VortexSession,
};
use vx_serde::WireError;
use vx_test_arrays::parts::both;
use vx_type_wire::Readers;
use vx_types::{Id, Ids};

/// The plugin of both identifiers, with the number of its calls of `serialize`.
#[derive(Drop)]
pub struct Counting {
    inner: Versioned,
    calls: Rc<Cell<u64>>,
}

impl ArrayPlugin for Counting {
    ghost means = { λ p. versioned p.inner.old p.inner.new };

    fn id(&self) -> &Id {
        self.inner.id()
    }

    fn serialized_ids(&self, alloc: Global) -> Result<Ids, PluginError> {
        self.inner.serialized_ids(alloc)
    }

    fn serialize(
        &self,
        alloc: Global,
        array: &Array,
    ) -> Result<Option<ArraySerialization>, PluginError> {
        self.calls.set(self.calls.get().saturating_add(1));
        self.inner.serialize(alloc, array)
    }

    fn plan(
        &self,
        alloc: Global,
        head: &ArrayHead,
        ext: &Readers,
    ) -> Result<ChildPlans, PluginError> {
        self.inner.plan(alloc, head, ext)
    }

    fn build(
        &self,
        alloc: Global,
        parts: ArrayDeserialization,
        ext: &Readers,
    ) -> Result<Array, PluginError> {
        self.inner.build(alloc, parts, ext)
    }

    fn is_supported_encoding(&self, encoding: &Id) -> bool {
        self.inner.is_supported_encoding(encoding)
    }
}

// Registers the plugin that counts.
fn register(
    alloc: Global,
    calls: Rc<Cell<u64>>,
    session: &mut VortexSession,
) -> Result<(), WireError> {
    let inner = Versioned::new(alloc)?;
    let plugin: Box<dyn ArrayPlugin> = Box::new(alloc, Counting { inner, calls })?;
    lacking(session.arrays.register(PluginEntry::Boxed(plugin)))
}

// The blob of an array, if it is written under the old identifier by one call of the plugin.
fn written_once(
    alloc: Global,
    array: &Array,
    session: &VortexSession,
    calls: &Cell<u64>,
) -> Result<ByteBuffer, WireError> {
    let mut ctx = allowing(alloc, &[OLD, NEW])?;
    let blob = written(alloc, array, &mut ctx, session);
    let once = calls.get() == 1 && has_ids(alloc, &ctx, &[OLD]);
    drop(ctx);
    if once {
        blob
    } else {
        drop(blob);
        Err(WireError::BadContent)
    }
}

// Whether it is, and is read again as itself without another call.
fn returns_once(
    alloc: Global,
    array: &Array,
    session: &VortexSession,
    calls: &Cell<u64>,
) -> Result<bool, WireError> {
    let blob = written_once(alloc, array, session, calls)?;
    let again = read(alloc, blob, &number_type(), array.len(), &[OLD], session)?;
    let same = again.array_eq(array);
    drop(again);
    Ok(same && calls.get() == 1)
}

// The same for 1, 2, 3, 4 and a session with the plugin that counts.
fn is_asked_once(alloc: Global) -> Result<bool, WireError> {
    let calls = Rc::new(alloc, Cell::new(0u64))?;
    let (array, mut session) = both(numbers(alloc, &[1, 2, 3, 4]), shipped(alloc))?;
    register(alloc, calls.clone()?, &mut session)?;
    returns_once(alloc, &array, &session, &calls)
}

#[test]
fn an_array_is_written_by_one_call(rt: HostRuntime) {
    assert!(rt; is_asked_once(rt.alloc()) == Ok(true));
}
