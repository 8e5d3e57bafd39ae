//! Tests of tables that are drawn from a seed.
#![tactic(auto)]

#[cfg(test)]
mod tables;
