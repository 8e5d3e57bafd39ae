//! Arrays as blobs: reading a blob back into an array, and writing an array as one.
#![tactic(auto)]

mod array_node;
mod blocks;
mod borrowed_buffers;
mod gathering;
pub mod laws;
mod limits;
mod node_ref;
mod nodes;
mod options;
mod placing;
mod reading;
mod recoding;
mod serializing;
mod taken;
mod writing;

pub use array_node::ArrayNodeFlatBuffer;
pub use options::SerializeOptions;
pub use reading::read_blob;
pub use recoding::{Recoded, recode};
pub use serializing::ArrayExt;
pub use vx_serialized::{
    ArrayKind, BlobRefusal, BufferLengths, Descriptor, SerializedArray, SerializedNode, WireError,
};
