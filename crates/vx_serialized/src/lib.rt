//! Serialized arrays: a blob, or a message with its buffers, which is opened, read node by node, and decoded.
#![tactic(auto)]

mod array_kind;
mod decoding;
mod error;
mod keeping;
pub mod laws;
mod message;
mod refusal;
mod serialized;
mod steps;

pub use array_kind::ArrayKind;
pub use error::WireError;
pub use message::Descriptor;
pub use refusal::BlobRefusal;
pub use serialized::SerializedArray;
pub use serialized::lengths::BufferLengths;
pub use serialized::node::SerializedNode;
