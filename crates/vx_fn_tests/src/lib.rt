//! The tests of the crate `vx_fn_wire`: functions, expressions, their messages and their texts.
#![tactic(auto)]

pub mod echo;
#[cfg(test)]
mod expression_reading;
#[cfg(test)]
mod expressions;
#[cfg(test)]
mod functions;
pub mod pairing;
#[cfg(test)]
mod reading;
#[cfg(test)]
mod samples;
