//! Borrowed readers of extension types: what a plugin sees of a session's extensions.
//!
//! A session owns its readers in boxes, and a method of a boxed trait cannot take a value that holds boxes. It takes the
//! same readers as borrowed trait objects, under the same identifiers.

ghost use Rattle.std.specs.Prelude.{◌≡◌};
ghost use Rattle.vx_types.specs.Seen.{typ};
ghost use Rattle.vx_type_wire.specs.Borrowed.{borrowed_meaning, accepts_by};

use crate::readers::ExtPlugin;
use vx_types::{DType, Id};

/// A borrowed reader and its identifier.
#[derive(Drop)]
pub struct BorrowedReader<'a, R> {
    pub(crate) id: &'a Id,
    pub(crate) reader: R,
}

/// Borrowed extension readers, and whether extensions without a reader are allowed.
#[derive(Drop)]
pub struct ReadersOf<'a, R> {
    pub(crate) entries: Vec<BorrowedReader<'a, R>>,
    pub(crate) unknown: bool,
}

/// The readers of a session as borrowed trait objects, which a boxed plugin can take.
pub type Readers<'a> = ReadersOf<'a, &'a dyn ExtPlugin>;

impl<'a> ReadersOf<'a, &'a dyn ExtPlugin> {
    /// Whether an extension with this identifier, metadata and storage is accepted: by its reader, or without one
    /// where extensions without a reader are allowed.
    pub fn accepts(&self, id: &Id, metadata: &[u8], storage: &DType) -> bool
        ensures { result ≡ accepts_by (borrowed_meaning (λ r. accepted r.now) self.now) id.now metadata.now (typ storage.now) }
    {
        for entry in self.entries.as_slice() {
            if *entry.id == *id {
                return reader_accepts(entry.reader, metadata, storage);
            }
        }
        self.unknown
    }

    /// Whether extensions without a reader are allowed.
    pub fn allows_unknown(&self) -> bool
        ensures { result ≡ (borrowed_meaning (λ r. accepted r.now) self.now).unknown }
    {
        self.unknown
    }
}

// Whether a reader accepts this metadata and storage.
fn reader_accepts(reader: &dyn ExtPlugin, metadata: &[u8], storage: &DType) -> bool
    ensures { result ≡ accepted reader.now metadata.now (typ storage.now) }
{
    reader.accepts(metadata, storage)
}
