//! A plugin for arrays of numbers, which has an identifier for old writers and one for new ones.

ghost use Rattle.std.specs.Prelude.{◌≡◌, ◌∷◌, [], IfOk, IsOkUnless, length, true};
ghost use Rattle.vx_types.specs.Seen.{typ};
ghost use Rattle.vx_registry.specs.Plugin.{IsAnswer};
ghost use Rattle.vx_plugin_tests.specs.Meanings.{versioned};
ghost use Rattle.vx_plugin_tests.specs.Versioned.{holds, id_for, is_plain, is_form, filled};
ghost use Rattle.vx_wire_tree.specs.Plugin.{NodeHead};

use crate::named::{copied, named, push};
use std::alloc::{AllocError, Global};
use vx_arrays::{Array, ArrayError, Arrays, Body, PrimitiveArray, PrimitiveData};
use vx_buffer::BufferHandles;
use vx_encodings::{ArrayHead, ChildPlans};
use vx_registry::{ArrayDeserialization, ArrayPlugin, ArraySerialization, PluginError};
use vx_type_wire::Readers;
use vx_types::{Blob, DType, Id, Ids, Nullability};

/// The greatest number of rows of the old identifier.
const MOST: usize = 4;

/// A plugin of numbers without nulls, in the form of `vortex.primitive`: under that identifier for up to four rows,
/// under a new one for any number of them. It refuses other arrays.
#[derive(Drop)]
pub struct Versioned {
    old: Id,
    new: Id,
}

impl Versioned {
    /// The plugin of both identifiers.
    pub fn new(alloc: Global) -> Result<Versioned, AllocError> {
        Ok(Versioned {
            old: named(alloc, PrimitiveArray::ID)?,
            new: named(alloc, "vortex.test.primitive_v2")?,
        })
    }

    // Whether an identifier holds `len` rows.
    fn holds(&self, id: &Id, len: usize) -> bool
        ensures { result ≡ holds self.now.old self.now.new id.now len }
    {
        if *id == self.new {
            return true;
        }
        *id == self.old && len <= MOST
    }

    // The identifier for `len` rows.
    fn id_for(&self, len: usize) -> &Id
        ensures { result.now ≡ id_for self.now.old self.now.new len }
    {
        if len <= MOST { &self.old } else { &self.new }
    }

    // Whether a node has the form of numbers without nulls, under an identifier that holds its rows.
    fn is_form(
        &self,
        id: &Id,
        dtype: &DType,
        len: usize,
        metadata: &Blob,
        nbuffers: usize,
        nchildren: usize,
    ) -> bool
        ensures { let h : NodeHead = record { id = id.now; dtype = typ dtype.now; len = len; metadata = metadata.now; nbuffers = nbuffers; nchildren = nchildren } in
            result ≡ is_form self.now.old self.now.new h }
    {
        if !self.holds(id, len) {
            return false;
        }
        if !is_plain(dtype) {
            return false;
        }
        if metadata.len() != 0 {
            return false;
        }
        if nbuffers != 1 {
            return false;
        }
        nchildren == 0
    }
}

// Whether a type is one of numbers without nulls.
fn is_plain(dtype: &DType) -> bool
    ensures { result ≡ is_plain (typ dtype.now) }
{
    match dtype {
        DType::Primitive(_, Nullability::NonNullable) => true,
        _ => false,
    }
}

impl ArrayPlugin for Versioned {
    ghost means = { λ p. versioned p.old p.new };

    fn id(&self) -> &Id {
        &self.old
    }

    fn serialized_ids(&self, alloc: Global) -> Result<Ids, PluginError> {
        let mut ids = Ids::new(alloc);
        push(alloc, &self.old, &mut ids)?;
        push(alloc, &self.new, &mut ids)?;
        Ok(ids)
    }

    fn serialize(
        &self,
        alloc: Global,
        array: &Array,
    ) -> Result<Option<ArraySerialization>, PluginError> {
        let Body::Primitive(numbers) = array.body() else {
            return Err(PluginError::Refused);
        };
        if array.children().len() != 0 {
            return Err(PluginError::Refused);
        }
        if !is_plain(array.dtype()) {
            return Err(PluginError::Refused);
        }
        let id = copied(alloc, self.id_for(array.len()))?;
        let buffers = buffers_of(alloc, numbers)?;
        let metadata = Blob::new(Vec::new(alloc));
        Ok(Some(ArraySerialization::new(id, metadata, buffers, Arrays::new(alloc))))
    }

    fn plan(
        &self,
        alloc: Global,
        head: &ArrayHead,
        _ext: &Readers,
    ) -> Result<ChildPlans, PluginError> {
        let id = &head.serialized_id;
        if !self.is_form(
            id,
            &head.dtype,
            head.len,
            &head.metadata,
            head.nbuffers,
            head.nchildren,
        ) {
            return Err(PluginError::Refused);
        }
        Ok(ChildPlans::new(alloc))
    }

    fn build(
        &self,
        alloc: Global,
        parts: ArrayDeserialization,
        _ext: &Readers,
    ) -> Result<Array, PluginError> {
        let id = &parts.serialized_id;
        let (nbuffers, nchildren) = (parts.buffers.len(), parts.children.len());
        if !self.is_form(
            id,
            &parts.dtype,
            parts.len,
            &parts.metadata,
            nbuffers,
            nchildren,
        ) {
            return Err(PluginError::Refused);
        }
        let buffers = parts.buffers;
        filled(alloc, &parts.dtype, parts.len, buffers)
    }

    fn is_supported_encoding(&self, encoding: &Id) -> bool {
        encoding.as_str() == PrimitiveArray::ID
    }
}

// The buffer of numbers.
fn buffers_of(alloc: Global, numbers: &PrimitiveData) -> Result<BufferHandles, PluginError>
    ensures ok { IfOk result (λ bs. bs ≡ numbers.now.values ∷ []) }
    ensures err { IsOkUnless result PluginError.OutOfMemory }
{
    let mut buffers = BufferHandles::new(alloc);
    let Ok(values) = numbers.values().clone(alloc) else {
        return Err(PluginError::OutOfMemory);
    };
    match buffers.push(values) {
        Ok(()) => Ok(buffers),
        Err(_) => Err(PluginError::OutOfMemory),
    }
}

// The numbers in the one buffer of a node of this type and length.
fn filled(
    alloc: Global,
    dtype: &DType,
    len: usize,
    buffers: BufferHandles,
) -> Result<Array, PluginError>
    requires plain { is_plain (typ dtype.now) ≡ true }
    requires alone { length buffers ≡ 1 }
    ensures { IsAnswer (filled (typ dtype.now) len buffers) result }
{
    let DType::Primitive(kind, nullability) = dtype else {
        unreachable!();
    };
    let Some(values) = buffers.into_vec().pop() else {
        return Err(PluginError::Refused);
    };
    match PrimitiveArray::try_new(alloc, values, *kind, *nullability, len, None) {
        Ok(array) => Ok(array),
        Err(ArrayError::OutOfMemory) => Err(PluginError::OutOfMemory),
        Err(_) => Err(PluginError::Refused),
    }
}

/// A clone of an array.
pub fn copy_of(alloc: Global, array: &Array) -> Result<Array, PluginError>
    ensures ok { IfOk result (λ copy. copy ≡ array.now) }
    ensures err { IsOkUnless result PluginError.OutOfMemory }
{
    match array.clone(alloc) {
        Ok(array) => Ok(array),
        Err(_) => Err(PluginError::OutOfMemory),
    }
}
