//! Forms of plain bytes: little-endian numbers, bytes and texts after their length, lists after
//! their count, values one after the other, and files between two equal words with a footer.
//!
//! A form is described once, by combinators of `specs`, and each has the same laws: what is
//! written is read back, nothing else is read, and further bytes change no answer but
//! [`ReadError::Short`]. The readers and writers of this crate are those of these forms.
#![tactic(auto)]

pub mod error;
pub mod frame;
pub mod laws;
pub mod reading;
pub mod writing;

pub use error::ReadError;
pub use frame::{FrameParts, cut_frame, push_frame_end};
pub use reading::{
    take_constant, take_count, take_front, take_octets, take_text, take_u8, take_u32, take_u64,
};
pub use writing::{push_octets, push_text, push_u8, push_u32, push_u64};
