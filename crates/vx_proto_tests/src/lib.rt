//! Tests of vx_proto, and message types as samples: plain messages over the schemas that other
//! crates have, and metadata with named fields.
#![tactic(auto)]

pub mod bool_metadata;
#[cfg(test)]
mod fields;
#[cfg(test)]
mod metadata;
#[cfg(test)]
mod parts;
#[cfg(test)]
mod rows;
pub mod samples;
pub mod tree_metadata;
