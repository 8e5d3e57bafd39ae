//! Blobs: arrays written and read.

pub use vx_serde::{
    ArrayExt, ArrayNodeFlatBuffer, BlobRefusal, BufferLengths, Recoded, SerializeOptions,
    SerializedArray, SerializedNode, WireError, read_blob, recode,
};
