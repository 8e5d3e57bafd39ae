//! What a session reads and writes arrays by, and the numbered identifiers of a blob.
#![tactic(auto)]

mod array_session;
mod context;
mod error;
mod named;
mod plugin;
mod read;
mod serialization;
mod serializing;
mod session;
mod tables;

pub use array_session::ArraySession;
pub use context::ArrayContext;
pub use error::RegistryError;
pub use plugin::{ArrayPlugin, PluginError, build_by, plan_by};
pub use read::ReadContext;
pub use serialization::{ArrayDeserialization, ArraySerialization, written_id};
pub use serializing::{WrittenRoot, serialize_root, written_root};
pub use session::{PluginEntry, VortexSession};
pub use tables::Entry;
