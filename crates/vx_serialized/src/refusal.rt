//! The refusals of blobs without allocation failure.

ghost use Rattle.std.specs.Prelude.{◌≡◌, IfSome, IfNone};
ghost use Rattle.vx_serialized.specs.Refusals.{wire_error};
ghost use Rattle.vx_serialized.specs.declared.error.WireError.TheVariants.{OutOfMemory};

use crate::error::WireError;

/// Why a blob is not read, or an array not written, apart from allocation failure: the other refusals of [`WireError`].
#[derive(Clone, Copy, Debug, PartialEq, Eq)]
pub enum BlobRefusal {
    TooShort,
    BadTable,
    TableLimit,
    BadAlignment,
    Compressed,
    OutOfBounds,
    UnknownIndex,
    UnknownEncoding,
    BadMetadata,
    BadShape,
    BadContent,
    ForeignControl,
    BadStats,
    NotPermitted,
    WireLimit,
    NotRegistered,
    NotSerializable,
    UndeclaredId,
    PluginRefused,
}

impl BlobRefusal {
    /// The refusal as a `WireError`.
    pub fn wire_error(self) -> WireError
        ensures { result ≡ wire_error self }
    {
        match self {
            BlobRefusal::TooShort => WireError::TooShort,
            BlobRefusal::BadTable => WireError::BadTable,
            BlobRefusal::TableLimit => WireError::TableLimit,
            BlobRefusal::BadAlignment => WireError::BadAlignment,
            BlobRefusal::Compressed => WireError::Compressed,
            BlobRefusal::OutOfBounds => WireError::OutOfBounds,
            BlobRefusal::UnknownIndex => WireError::UnknownIndex,
            BlobRefusal::UnknownEncoding => WireError::UnknownEncoding,
            BlobRefusal::BadMetadata => WireError::BadMetadata,
            BlobRefusal::BadShape => WireError::BadShape,
            BlobRefusal::BadContent => WireError::BadContent,
            BlobRefusal::ForeignControl => WireError::ForeignControl,
            BlobRefusal::BadStats => WireError::BadStats,
            BlobRefusal::NotPermitted => WireError::NotPermitted,
            BlobRefusal::WireLimit => WireError::WireLimit,
            BlobRefusal::NotRegistered => WireError::NotRegistered,
            BlobRefusal::NotSerializable => WireError::NotSerializable,
            BlobRefusal::UndeclaredId => WireError::UndeclaredId,
            BlobRefusal::PluginRefused => WireError::PluginRefused,
        }
    }
}

impl WireError {
    /// The refusal, where it is not allocation failure.
    pub fn refusal(self) -> Option<BlobRefusal>
        ensures some { IfSome result (λ r. wire_error r ≡ self) }
        ensures none { IfNone result (self ≡ OutOfMemory) }
    {
        Some(match self {
            WireError::OutOfMemory => return None,
            WireError::TooShort => BlobRefusal::TooShort,
            WireError::BadTable => BlobRefusal::BadTable,
            WireError::TableLimit => BlobRefusal::TableLimit,
            WireError::BadAlignment => BlobRefusal::BadAlignment,
            WireError::Compressed => BlobRefusal::Compressed,
            WireError::OutOfBounds => BlobRefusal::OutOfBounds,
            WireError::UnknownIndex => BlobRefusal::UnknownIndex,
            WireError::UnknownEncoding => BlobRefusal::UnknownEncoding,
            WireError::BadMetadata => BlobRefusal::BadMetadata,
            WireError::BadShape => BlobRefusal::BadShape,
            WireError::BadContent => BlobRefusal::BadContent,
            WireError::ForeignControl => BlobRefusal::ForeignControl,
            WireError::BadStats => BlobRefusal::BadStats,
            WireError::NotPermitted => BlobRefusal::NotPermitted,
            WireError::WireLimit => BlobRefusal::WireLimit,
            WireError::NotRegistered => BlobRefusal::NotRegistered,
            WireError::NotSerializable => BlobRefusal::NotSerializable,
            WireError::UndeclaredId => BlobRefusal::UndeclaredId,
            WireError::PluginRefused => BlobRefusal::PluginRefused,
        })
    }
}
