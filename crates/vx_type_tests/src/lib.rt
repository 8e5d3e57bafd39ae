//! Tests of logical types, each module over its crate's public calls.
#![tactic(auto)]

#[cfg(test)]
mod types;
#[cfg(test)]
mod values;
