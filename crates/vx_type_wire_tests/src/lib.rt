//! The tests of the crate `vx_type_wire`: worked messages, and what the definitions say of them.
#![tactic(auto)]

#[cfg(test)]
mod kinds;
#[cfg(test)]
mod messages;
#[cfg(test)]
mod tables;
pub mod worked;
