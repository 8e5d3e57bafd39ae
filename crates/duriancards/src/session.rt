//! Sessions: which encodings and plugins read and write which identifier, and the contexts that number identifiers.

pub use vx_registry::{
    ArrayContext, ArrayDeserialization, ArrayPlugin, ArraySerialization, ArraySession, Entry,
    PluginEntry, PluginError, ReadContext, RegistryError, VortexSession,
};
