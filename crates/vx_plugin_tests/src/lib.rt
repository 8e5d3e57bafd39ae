//! Plugins of a caller, and what sessions read and write by them.
#![tactic(auto)]

pub mod asking;
#[cfg(test)]
mod counting;
pub mod named;
pub mod odd;
#[cfg(test)]
mod parts;
#[cfg(test)]
mod plugged;
#[cfg(test)]
mod refused;
pub mod versioned;
