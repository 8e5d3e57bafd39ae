//! Tests of buffers, of arrays of numbers, flags and nulls and of foreign ones, and of sessions, each module over its
//! crate's public calls; and the parts that other tests of arrays are made of too.
#![tactic(auto)]

#[cfg(test)]
mod arrays;
#[cfg(test)]
mod bools;
#[cfg(test)]
mod buffers;
#[cfg(test)]
mod foreign;
pub mod parts;
#[cfg(test)]
mod registry;
#[cfg(test)]
mod sessions;
