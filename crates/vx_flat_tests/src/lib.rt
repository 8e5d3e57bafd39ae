//! The tests of the crate `vx_flat`: worked messages, and their values and weights.
#![tactic(auto)]

#[cfg(test)]
mod building;
pub mod kinds;
pub mod messages;
#[cfg(test)]
mod reading;
#[cfg(test)]
mod sharing;
pub mod traits;
#[cfg(test)]
mod viewing;
pub mod worked;
