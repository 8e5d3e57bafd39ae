//! Logical types as table messages, and as tagged messages.
//!
//! [`TypeKind`] is the kind of messages that show a type: a table with one
//! field, a union whose members are the kinds of types. [`DTypeExt`] gives a
//! type its reader, which asks an [`ExtSession`] for the extensions that stand in
//! a type, and writes a type as such a table, block by block or as a message of
//! its own. [`TypeTable`] is a type for the writers of tables. What contracts say
//! is written down in `specs::TypeTable`, the table of each type, `specs::Known`,
//! which types a session knows, `specs::Shown`, what it means that a message shows
//! a type, and `specs::Written`, which types are written.
//!
//! [`pb::DType`] is the tagged message of a type, and [`slots`] has its schema, for messages of other
//! crates that hold types. `specs::TypeMessage` says which message each type has, and when a message
//! is read as a type.
#![tactic(auto)]

mod entries;
mod error;
mod kind;
mod known;
pub mod laws;
mod lending;
mod messages;
mod parts;
pub mod pb;
mod proto;
mod readers;
mod reading;
mod table;
mod weighing;
mod writing;

pub use error::TypeWireError;
pub use kind::TypeKind;
pub use lending::{BorrowedReader, Readers, ReadersOf};
pub use messages::DTypeExt;
pub use proto::{TypeMessage, slots};
pub use readers::{ExtPlugin, ExtSession};
pub use table::TypeTable;
pub use weighing::MAX_LEVELS;
