//! What most programs use.

pub use vx_arrays::{Array, Arrays, RowValue};
pub use vx_buffer::{Alignment, BufferHandle, ByteBuffer};
pub use vx_registry::{ArrayContext, ArraySession, ReadContext, VortexSession};
pub use vx_serde::{ArrayExt, SerializeOptions, SerializedArray, WireError, read_blob, recode};
pub use vx_type_wire::ExtSession;
pub use vx_types::{DType, Nullability, PType};
