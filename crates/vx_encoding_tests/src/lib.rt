//! Tests of encodings: decimals, texts and bytes by offsets, nodes; and of arrays of each encoding: the names of their
//! parts, statistics, and which arrays are equal. `proofs::WorkedMetadata` has the bytes of worked metadata, as the
//! definitions compute them.
#![tactic(auto)]

#[cfg(test)]
mod decimals;
#[cfg(test)]
mod encodings;
#[cfg(test)]
mod same;
#[cfg(test)]
mod slots;
#[cfg(test)]
mod statistics;
#[cfg(test)]
mod varbins;
