//! Tests of the statistics of arrays in blobs.
#![tactic(auto)]

#[cfg(test)]
mod statistics;
