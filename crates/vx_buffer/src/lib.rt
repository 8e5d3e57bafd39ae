//! Buffers of bytes with their alignment: plain values that share memory when they are cloned or sliced.
#![tactic(auto)]

mod align;
mod byte_buffer;
mod error;
mod handle;
mod lists;

pub use align::Alignment;
pub use byte_buffer::ByteBuffer;
pub use error::BufferError;
pub use handle::BufferHandle;
pub use lists::{BufferHandles, ByteBuffers};
