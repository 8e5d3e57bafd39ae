//! Identifiers of plugins.

ghost use Rattle.std.specs.Prelude.{◌≡◌, ◌++◌, ◌∷◌, [], IfOk, OnOk};

use std::alloc::{AllocError, Global};
use vx_types::{Id, Ids};

/// The identifier of this text.
pub fn named(alloc: Global, text: &str) -> Result<Id, AllocError>
    ensures { IfOk result (λ id. id ≡ text.now) }
{
    match Id::new(alloc, text) {
        Ok(id) => Ok(id),
        Err(_) => Err(AllocError {}),
    }
}

/// A copy of an identifier.
pub fn copied(alloc: Global, id: &Id) -> Result<Id, AllocError>
    ensures { IfOk result (λ copy. copy ≡ id.now) }
{
    match id.clone(alloc) {
        Ok(id) => Ok(id),
        Err(_) => Err(AllocError {}),
    }
}

/// Appends a copy of an identifier.
pub fn push(alloc: Global, id: &Id, ids: &mut Ids) -> Result<(), AllocError>
    ensures { OnOk result (ids.new ≡ ids.old ++ id.now ∷ []) }
{
    let id = copied(alloc, id)?;
    match ids.push(id) {
        Ok(()) => Ok(()),
        Err(_) => Err(AllocError {}),
    }
}
