//! Tests of scalars as messages, over the crate's public calls.
#![tactic(auto)]

#[cfg(test)]
mod messages;
#[cfg(test)]
mod reading;
#[cfg(test)]
mod statistics;
#[cfg(test)]
mod whole;
