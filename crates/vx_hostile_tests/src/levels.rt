//! Blobs of few bytes and many nodes: both children of a node are the next level's one node, at one place.

use std::alloc::{AllocError, Global};

// The place of the root table, the field table of an array, and the array's table, after which its root stands.
const FRONT: [u8; 18] = [10, 0, 0, 0, 6, 0, 8, 0, 4, 0, 6, 0, 0, 0, 14, 0, 0, 0];

// A node's field table, and the node with the one below it as both of its children.
const LEVEL: [u8; 30] = [
    10, 0, 8, 0, 0, 0, 0, 0, 4, 0, 10, 0, 0, 0, 4, 0, 0, 0, 2, 0, 0, 0, 18, 0, 0, 0, 14, 0, 0, 0,
];

// The lowest node, which is empty.
const LAST: [u8; 14] = [0, 0, 0, 0, 0, 0, 4, 0, 4, 0, 4, 0, 0, 0];

// The same, whose field table ends before its own size.
const ILL_FORMED: [u8; 14] = [0, 0, 0, 0, 0, 0, 2, 0, 4, 0, 4, 0, 0, 0];

// The blob of `levels` levels over a lowest node, whose message has this length.
fn levels_over(alloc: Global, levels: usize, last: &[u8], len: u32) -> Result<Vec<u8>, AllocError> {
    let mut blob = Vec::from_slice(alloc, &FRONT)?;
    for _ in 1..levels {
        blob.extend_from_slice(&LEVEL)?;
    }
    blob.extend_from_slice(last)?;
    blob.extend_from_slice(&len.to_le_bytes())?;
    Ok(blob)
}

/// The blob of `levels` levels of nodes, without buffers, whose message has this length: 32 bytes, and 30 for each
/// level but the last. The nodes, counted once for each path, are 2^`levels` - 1.
pub fn levels(alloc: Global, levels: usize, len: u32) -> Result<Vec<u8>, AllocError> {
    levels_over(alloc, levels, &LAST, len)
}

/// The same over a lowest node that is ill-formed.
pub fn levels_over_none(alloc: Global, levels: usize, len: u32) -> Result<Vec<u8>, AllocError> {
    levels_over(alloc, levels, &ILL_FORMED, len)
}
