//! Types as tagged messages.

pub mod parts;
pub mod reading;
pub mod slots;
pub mod writing;

pub use slots::TypeMessage;
