//! Worked files: the types, the blobs and the identifiers of the integers 1, 2, 3, 4 and of nulls.

/// The type of 32-bit signed integers, not nullable, as a table message.
pub const TYPE: [u8; 45] = [
    16, 0, 0, 0, 0, 0, 0, 0, 8, 0, 12, 0, 4, 0, 8, 0, 8, 0, 0, 0, 3, 0, 0, 0, 16, 0, 0, 0, 0, 0, 0,
    0, 8, 0, 5, 0, 4, 0, 0, 0, 8, 0, 0, 0, 6,
];

/// The type of texts, nullable.
pub const UTF8_TYPE: [u8; 45] = [
    16, 0, 0, 0, 0, 0, 0, 0, 8, 0, 12, 0, 4, 0, 8, 0, 8, 0, 0, 0, 5, 0, 0, 0, 16, 0, 0, 0, 0, 0, 0,
    0, 6, 0, 5, 0, 4, 0, 0, 0, 8, 0, 0, 0, 1,
];

/// The type of the extension `x.day` of metadata 7, stored as 32-bit signed integers, nullable.
pub const EXTENSION_TYPE: [u8; 125] = [
    16, 0, 0, 0, 0, 0, 0, 0, 8, 0, 12, 0, 4, 0, 8, 0, 8, 0, 0, 0, 9, 0, 0, 0, 24, 0, 0, 0, 0, 0, 0,
    0, 10, 0, 16, 0, 4, 0, 8, 0, 12, 0, 0, 0, 0, 0, 0, 0, 16, 0, 0, 0, 12, 0, 0, 0, 32, 0, 0, 0,
    60, 0, 0, 0, 5, 0, 0, 0, 120, 46, 100, 97, 121, 0, 0, 0, 0, 0, 0, 0, 8, 0, 12, 0, 4, 0, 8, 0,
    8, 0, 0, 0, 3, 0, 0, 0, 16, 0, 0, 0, 0, 0, 0, 0, 8, 0, 6, 0, 4, 0, 5, 0, 8, 0, 0, 0, 6, 1, 0,
    0, 1, 0, 0, 0, 7,
];

/// The blob of 1, 2, 3, 4: the numbers, the message and its length.
pub const BLOB: [u8; 168] = [
    1, 0, 0, 0, 2, 0, 0, 0, 3, 0, 0, 0, 4, 0, 0, 0, 16, 0, 0, 0, 0, 0, 0, 0, 8, 0, 12, 0, 4, 0, 8,
    0, 8, 0, 0, 0, 28, 0, 0, 0, 112, 0, 0, 0, 0, 0, 0, 0, 14, 0, 20, 0, 0, 0, 4, 0, 8, 0, 12, 0,
    16, 0, 0, 0, 16, 0, 0, 0, 20, 0, 0, 0, 24, 0, 0, 0, 28, 0, 0, 0, 64, 0, 0, 0, 0, 0, 0, 0, 0, 0,
    0, 0, 0, 0, 0, 0, 0, 0, 0, 0, 0, 0, 0, 0, 1, 0, 0, 0, 0, 0, 0, 0, 26, 0, 4, 0, 0, 0, 0, 0, 0,
    0, 0, 0, 0, 0, 0, 0, 0, 0, 0, 0, 0, 0, 0, 0, 0, 0, 0, 0, 0, 0, 0, 0, 32, 0, 0, 0, 0, 0, 0, 0,
    1, 0, 0, 0, 0, 0, 2, 0, 16, 0, 0, 0, 148, 0, 0, 0,
];

/// The same blob, whose node names the second identifier.
pub const BLOB_OF_SECOND: [u8; 168] = [
    1, 0, 0, 0, 2, 0, 0, 0, 3, 0, 0, 0, 4, 0, 0, 0, 16, 0, 0, 0, 0, 0, 0, 0, 8, 0, 12, 0, 4, 0, 8,
    0, 8, 0, 0, 0, 28, 0, 0, 0, 112, 0, 0, 0, 0, 0, 0, 0, 14, 0, 24, 0, 4, 0, 8, 0, 12, 0, 16, 0,
    20, 0, 0, 0, 16, 0, 0, 0, 1, 0, 0, 0, 16, 0, 0, 0, 20, 0, 0, 0, 24, 0, 0, 0, 60, 0, 0, 0, 0, 0,
    0, 0, 0, 0, 0, 0, 0, 0, 0, 0, 0, 0, 0, 0, 1, 0, 0, 0, 0, 0, 0, 0, 26, 0, 4, 0, 0, 0, 0, 0, 0,
    0, 0, 0, 0, 0, 0, 0, 0, 0, 0, 0, 0, 0, 0, 0, 0, 0, 0, 0, 0, 0, 0, 0, 32, 0, 0, 0, 0, 0, 0, 0,
    1, 0, 0, 0, 0, 0, 2, 0, 16, 0, 0, 0, 148, 0, 0, 0,
];

/// The same blob, padded for position 3.
pub const PADDED_BLOB: [u8; 173] = [
    0, 1, 0, 0, 0, 2, 0, 0, 0, 3, 0, 0, 0, 4, 0, 0, 0, 0, 0, 0, 0, 16, 0, 0, 0, 0, 0, 0, 0, 8, 0,
    12, 0, 4, 0, 8, 0, 8, 0, 0, 0, 28, 0, 0, 0, 112, 0, 0, 0, 0, 0, 0, 0, 14, 0, 20, 0, 0, 0, 4, 0,
    8, 0, 12, 0, 16, 0, 0, 0, 16, 0, 0, 0, 20, 0, 0, 0, 24, 0, 0, 0, 28, 0, 0, 0, 64, 0, 0, 0, 0,
    0, 0, 0, 0, 0, 0, 0, 0, 0, 0, 0, 0, 0, 0, 0, 0, 0, 0, 0, 1, 0, 0, 0, 0, 0, 0, 0, 26, 0, 4, 0,
    0, 0, 0, 0, 0, 0, 0, 0, 0, 0, 0, 0, 0, 0, 0, 0, 0, 0, 0, 0, 0, 0, 0, 0, 0, 0, 0, 0, 32, 0, 0,
    0, 0, 0, 0, 0, 1, 0, 0, 0, 1, 0, 2, 0, 16, 0, 0, 0, 148, 0, 0, 0,
];

/// The same array by another writer: parts in another order, at places that are not aligned, with an unknown field
/// more, and bytes of the segment that no descriptor covers.
pub const BLOB_OF_ANOTHER: [u8; 93] = [
    255, 254, 253, 1, 0, 0, 0, 2, 0, 0, 0, 3, 0, 0, 0, 4, 0, 0, 0, 252, 5, 0, 0, 0, 170, 214, 255,
    255, 255, 19, 0, 0, 0, 5, 0, 0, 0, 7, 217, 255, 255, 255, 18, 0, 0, 0, 0, 0, 1, 0, 0, 0, 3, 0,
    2, 0, 16, 0, 0, 0, 1, 0, 0, 0, 0, 0, 187, 10, 0, 13, 0, 8, 0, 4, 0, 12, 0, 12, 0, 10, 0, 8, 0,
    0, 0, 0, 0, 4, 0, 69, 0, 0, 0,
];

/// The identifiers of the blob, one on each line.
pub const IDS: &str = "vortex.primitive\n";

/// The type of nulls as a table message.
pub const NULL_TYPE: [u8; 44] = [
    16, 0, 0, 0, 0, 0, 0, 0, 8, 0, 12, 0, 4, 0, 8, 0, 8, 0, 0, 0, 1, 0, 0, 0, 16, 0, 0, 0, 0, 0, 0,
    0, 4, 0, 4, 0, 0, 0, 0, 0, 8, 0, 0, 0,
];

/// The blob of nulls, of any number: the message and its length. The place of the metadata is 72.
pub const NULL_BLOB: [u8; 144] = [
    16, 0, 0, 0, 0, 0, 0, 0, 8, 0, 12, 0, 4, 0, 8, 0, 8, 0, 0, 0, 28, 0, 0, 0, 112, 0, 0, 0, 0, 0,
    0, 0, 14, 0, 20, 0, 0, 0, 4, 0, 8, 0, 12, 0, 16, 0, 0, 0, 16, 0, 0, 0, 20, 0, 0, 0, 24, 0, 0,
    0, 28, 0, 0, 0, 64, 0, 0, 0, 0, 0, 0, 0, 0, 0, 0, 0, 0, 0, 0, 0, 0, 0, 0, 0, 0, 0, 0, 0, 0, 0,
    0, 0, 0, 0, 0, 0, 26, 0, 4, 0, 0, 0, 0, 0, 0, 0, 0, 0, 0, 0, 0, 0, 0, 0, 0, 0, 0, 0, 0, 0, 0,
    0, 0, 0, 0, 0, 0, 0, 32, 0, 0, 0, 0, 0, 0, 0, 0, 0, 0, 0, 140, 0, 0, 0,
];

/// The identifiers of the blob of nulls.
pub const NULL_IDS: &str = "vortex.null\n";

/// What stands before the nodes of a chain, each of which is the only child of the node before: the place of the root
/// table, the field table of an array, and the array's table, after which its root stands.
pub const CHAIN_FRONT: [u8; 18] = [10, 0, 0, 0, 6, 0, 8, 0, 4, 0, 6, 0, 0, 0, 14, 0, 0, 0];

/// A node of a chain: its field table, and the node with the one below it as its only child.
pub const CHAIN_LEVEL: [u8; 26] = [
    10, 0, 8, 0, 0, 0, 0, 0, 4, 0, 10, 0, 0, 0, 4, 0, 0, 0, 1, 0, 0, 0, 14, 0, 0, 0,
];

/// The last node of a chain, which is empty.
pub const CHAIN_LAST: [u8; 14] = [0, 0, 0, 0, 0, 0, 4, 0, 4, 0, 4, 0, 0, 0];

/// The blob of nulls whose least value has the one byte 255, by another writer.
pub const NULL_BLOB_OF_LEAST: [u8; 63] = [
    10, 0, 0, 0, 6, 0, 8, 0, 4, 0, 6, 0, 0, 0, 18, 0, 0, 0, 14, 0, 8, 0, 0, 0, 0, 0, 0, 0, 0, 0, 4,
    0, 14, 0, 0, 0, 10, 0, 0, 0, 6, 0, 8, 0, 4, 0, 6, 0, 0, 0, 4, 0, 0, 0, 1, 0, 0, 0, 255, 59, 0,
    0, 0,
];

/// The blob of the booleans true, false, true, whose least value is told by the message `1802` of a number, by another
/// writer. The place of that message is 87.
pub const FLAG_BLOB_OF_LEAST: [u8; 93] = [
    5, 12, 0, 0, 0, 8, 0, 12, 0, 4, 0, 8, 0, 8, 0, 0, 0, 22, 0, 0, 0, 36, 0, 0, 0, 14, 0, 12, 0, 0,
    0, 0, 0, 0, 0, 4, 0, 8, 0, 14, 0, 0, 0, 8, 0, 0, 0, 28, 0, 0, 0, 1, 0, 0, 0, 0, 0, 1, 0, 0, 0,
    0, 0, 0, 0, 1, 0, 0, 0, 6, 0, 8, 0, 4, 0, 6, 0, 0, 0, 4, 0, 0, 0, 2, 0, 0, 0, 24, 2, 88, 0, 0,
    0,
];
