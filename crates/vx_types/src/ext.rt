//! The types of extensions.

ghost use Rattle.std.specs.Prelude.{◌≡◌, ◌-◌, ◌^◌, IfOk, IsOkUnless, min};
ghost use Rattle.vx_trees.specs.Walks.{levels};
ghost use Rattle.vx_trees.specs.Bytes.{AreBytes};
ghost use Rattle.vx_types.specs.Content.{IsText};
ghost use Rattle.vx_types.specs.Seen.{typ};
ghost use Rattle.vx_types.specs.Typ.{IsType};
ghost use Rattle.vx_types.specs.Words.{with_nullability};

use crate::blob::Blob;
use crate::dtype::DType;
use crate::error::TypeError;
use crate::id::Id;
use crate::nullability::Nullability;
use crate::type_ref::TypeRef;
use std::alloc::Global;
use std::marker::Model;

/// A type that is stored as another: its identifier, its metadata, and the type of
/// its storage.
#[cycle(dtype)]
#[derive(Debug, Drop)]
pub struct ExtDType {
    own: Box<Own>,
    storage: TypeRef,
}

/// The identifier and the metadata, boxed to keep a type small.
#[derive(Debug, Drop)]
struct Own {
    id: Id,
    metadata: Blob,
}

impl Model for ExtDType {
    ghost use Rattle.std.proofs.Common.{arith};
    ghost use Rattle.vx_trees.specs.Bytes.{AreBytes};
    ghost use Rattle.vx_types.specs.Content.{IsText};
    ghost use Rattle.vx_types.specs.Parts.{Ext, ext_code, ext_size};

    ghost Value = { Ext };

    ghost coded = { ext_code };

    ghost view = { λ a. record { id = a.own.value.id; metadata = a.own.value.metadata; storage = a.storage } };

    ghost invariant = { λ a. IsText a.own.value.id × AreBytes a.own.value.metadata };

    ghost size = { ext_size };

    ghost size_decreases = { λ a h. Prim.omega arith };
}

impl ExtDType {
    /// An extension of this identifier, metadata and storage.
    pub fn new(alloc: Global, id: Id, metadata: Blob, storage: DType) -> Result<ExtDType, TypeError>
        ensures ok { IfOk result (λ ext. ext ≡ record { id = id; metadata = metadata; storage = typ storage }) }
        ensures err { IsOkUnless result TypeError.OutOfMemory }
    {
        // Reads the fields, so that the proof has their invariants.
        let _ = &id.text;
        let _ = &metadata.bytes;
        let storage = TypeRef::new(alloc, storage)?;
        let own = Box::new(alloc, Own { id, metadata })?;
        Ok(ExtDType { own, storage })
    }

    /// The identifier.
    pub fn id(&self) -> &Id
        ensures { result.now ≡ self.now.id }
    {
        &self.own.id
    }

    /// The metadata.
    pub fn metadata(&self) -> &Blob
        ensures { result.now ≡ self.now.metadata }
    {
        &self.own.metadata
    }

    /// The type of the storage.
    pub fn storage_dtype(&self) -> &DType
        ensures { typ result.now ≡ self.now.storage }
    {
        self.storage.get()
    }

    /// An equal extension.
    #[cycle(copy)]
    pub fn clone(&self, alloc: Global) -> Result<ExtDType, TypeError>
        ensures ok { IfOk result (λ ext. ext ≡ self.now) }
        ensures err { IsOkUnless result TypeError.OutOfMemory }
    {
        let id = self.id().clone(alloc)?;
        let metadata = self.metadata().clone(alloc)?;
        let storage = self.storage.clone(alloc)?;
        let own = Box::new(alloc, Own { id, metadata })?;
        Ok(ExtDType { own, storage })
    }

    // The same extension over its storage with this nullability.
    #[cycle(nullable)]
    pub(crate) fn with_nullability(
        &self,
        alloc: Global,
        nullability: Nullability,
    ) -> Result<ExtDType, TypeError>
        ensures ok { IfOk result (λ ext. ext ≡ record {
          id = self.now.id;
          metadata = self.now.metadata;
          storage = with_nullability nullability self.now.storage;
        }) }
        ensures err { IsOkUnless result TypeError.OutOfMemory }
    {
        let id = self.id().clone(alloc)?;
        let metadata = self.metadata().clone(alloc)?;
        let storage = self.storage_dtype().with_nullability(alloc, nullability)?;
        ExtDType::new(alloc, id, metadata, storage)
    }

    // The number of levels of the storage, capped at the largest `u64`.
    pub(crate) fn levels(&self) -> u64
        ensures levels { result ≡ min (levels self.now.storage) (2 ^ 64 - 1) }
        ensures id { IsText self.now.id }
        ensures metadata { AreBytes self.now.metadata }
        ensures storage { IsType self.now.storage }
    {
        self.storage.levels()
    }
}
