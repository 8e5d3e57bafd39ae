//! Buffers of bytes with their alignment.

pub use vx_buffer::{Alignment, BufferError, BufferHandle, BufferHandles, ByteBuffer, ByteBuffers};
