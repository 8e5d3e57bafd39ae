//! The library of Duriancards, by the module names of upstream's crates: everything that a user of arrays and blobs needs.
//! This crate has no code of its own. Each item is documented, and its contract stands, in the crate that declares it.
//!
//! [`prelude`] has what most programs use: write an array with [`serde::ArrayExt`], read a blob with [`serde::read_blob`],
//! look into one with [`serde::SerializedArray`], or read and write with [`serde::recode`].
//! [`file`] has tables in files, of which columns are read by themselves.
#![tactic(auto)]

pub mod arrays;
pub mod buffer;
pub mod dtype;
pub mod expr;
pub mod file;
pub mod prelude;
pub mod scalar;
pub mod serde;
pub mod session;
pub mod stats;
