//! Files of identifiers, one on each line: reading and writing them.

ghost use Rattle.std.specs.Prelude.{◌≡◌, ◌⊎◌, ◌<◌, ◌≤◌, ℕ, List, [], ◌∷◌, ◌++◌, length, IfOk, IfErr, OnOk, IsErrOf};
ghost use Rattle.vxcat_store.specs.IdFile.{ReadsIds, HasLines, id_text};
ghost use Rattle.vxcat_store.specs.declared.id_file.IdFileError.TheVariants as id_file_error;

use std::alloc::{AllocError, Global};
use thiserror::Error;
use vx_types::{Id, Ids};

/// The greatest number of lines of an id file: nodes name identifiers by a u16.
pub const MAX_LINES: usize = 65_536;

/// Why bytes are not read as an id file.
#[derive(Clone, Copy, Debug, PartialEq, Eq, Error)]
pub enum IdFileError {
    /// An allocation failed.
    #[error("out of memory")]
    OutOfMemory,
    /// The bytes are not UTF-8, or a line is empty, or there are more than 65,536 lines.
    #[error("no text of identifiers, one on each line")]
    BadText,
}

impl From<AllocError> for IdFileError {
    ghost from_gives = { λ _ e. e ≡ id_file_error.OutOfMemory };

    fn from(_: AllocError) -> Self {
        IdFileError::OutOfMemory
    }
}

/// The identifiers of an id file: UTF-8, one on each line, none of them empty, at most 65,536.
///
/// # Errors
/// `OutOfMemory`; `BadText` where the bytes are no such text.
pub fn read_ids(alloc: Global, bytes: &[u8]) -> Result<Ids, IdFileError>
    ensures reads { IfOk result (λ ids. ReadsIds bytes.now ids) }
    ensures bad { IsErrOf result id_file_error.BadText → (ids : List (List ℕ)) → ¬ (ReadsIds bytes.now ids) }
{
    match simdutf8::compat::from_utf8(bytes) {
        Ok(text) => read_lines(alloc, text),
        Err(_) => Err(IdFileError::BadText),
    }
}

fn read_lines(alloc: Global, text: &str) -> Result<Ids, IdFileError>
    ensures lines { IfOk result (λ ids. HasLines text.now ids) }
    ensures few { IfOk result (λ ids. length ids ≤ 65536) }
    ensures bad { IfErr result (λ e. e ≡ id_file_error.BadText → (ids : List (List ℕ)) → HasLines text.now ids → length ids ≤ 65536 → ⊥) }
{
    let mut ids = Ids::new(alloc);
    let mut rest = text;
    while let Some((line, after)) = rest.split_once('\n') {
        if let Err(error) = push_line(alloc, &mut ids, line) {
            return Err(error);
        }
        rest = after;
    }
    if rest.is_empty() {
        return Ok(ids);
    }
    match push_line(alloc, &mut ids, rest) {
        Ok(()) => Ok(ids),
        Err(error) => Err(error),
    }
}

fn push_line(alloc: Global, ids: &mut Ids, line: &str) -> Result<(), IdFileError>
    ensures ok { OnOk result (ids.new ≡ ids.old ++ line.now ∷ []) }
    ensures fits { OnOk result ((0 < length line.now) × (length ids.old < 65536)) }
    ensures bad { IfErr result (λ e. e ≡ id_file_error.BadText → (length line.now ≡ 0) ⊎ (65536 ≤ length ids.old)) }
{
    if line.is_empty() || ids.len() >= MAX_LINES {
        return Err(IdFileError::BadText);
    }
    let id = Id::new(alloc, line).map_err(|_| IdFileError::OutOfMemory)?;
    ids.push(id).map_err(|_| IdFileError::OutOfMemory)
}

/// The text of identifiers: each on a line that ends with a line feed.
///
/// # Errors
/// Allocation failure.
pub fn write_ids(alloc: Global, ids: &Ids) -> Result<Vec<u8>, AllocError>
    ensures { IfOk result (λ bytes. bytes.items ≡ id_text ids.now) }
{
    let mut bytes = Vec::new(alloc);
    for id in ids.as_slice() {
        bytes.extend_from_slice(id.as_str().as_bytes())?;
        bytes.push(b'\n')?;
    }
    Ok(bytes)
}
