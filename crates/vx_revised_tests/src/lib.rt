//! Tests of primitives under two identifiers: four and five rows under each of them, in each session.
#![tactic(auto)]

#[cfg(test)]
mod parts;
#[cfg(test)]
mod recoding;
#[cfg(test)]
mod sessions;
