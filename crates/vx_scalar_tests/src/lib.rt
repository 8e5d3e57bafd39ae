//! Tests of scalars and statistics, each module over its crate's public calls.
#![tactic(auto)]

#[cfg(test)]
mod scalars;
#[cfg(test)]
mod statistics;
