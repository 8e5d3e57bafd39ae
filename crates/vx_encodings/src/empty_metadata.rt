//! Metadata of the encodings that have none.

ghost use Rattle.std.specs.Prelude.{◌≡◌, ◌≢◌, [], OnOk, OnErr, IsOkUnless};

use std::alloc::Global;
use vx_plans::EncodingError;
use vx_types::Blob;

// Reads the metadata of an encoding that has none: `BadMetadata` unless it is empty.
pub(crate) fn read_empty(bytes: &[u8]) -> Result<(), EncodingError>
    ensures ok { OnOk result (bytes.now ≡ []) }
    ensures refused { OnErr result (bytes.now ≢ []) }
    ensures err { IsOkUnless result EncodingError.BadMetadata }
{
    if !bytes.is_empty() {
        return Err(EncodingError::BadMetadata);
    }
    Ok(())
}

// The metadata of an encoding that has none, as it is written: empty. It takes no memory.
pub(crate) fn write_empty(alloc: Global) -> Blob
    ensures { result ≡ [] }
{
    Blob::new(Vec::new(alloc))
}
