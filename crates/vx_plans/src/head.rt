//! What is known of a node before its children are read.

use vx_types::{Blob, DType, Id};

/// What is known of a node before its children are read: its own parts, and the type and number of rows
/// that its parent asks for.
#[derive(Drop)]
pub struct ArrayHead {
    /// The identifier under which the node was written.
    pub serialized_id: Id,
    /// The type that the array is to have.
    pub dtype: DType,
    /// The number of rows that the array is to have.
    pub len: usize,
    /// The bytes of its metadata.
    pub metadata: Blob,
    /// The number of its own buffers, those of its children not counted.
    pub nbuffers: usize,
    /// How many children it has.
    pub nchildren: usize,
}
