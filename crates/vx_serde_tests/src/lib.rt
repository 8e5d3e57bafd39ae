//! The tests of the crate `vx_serde`: worked blobs, and what the definitions say of them; blobs read, read node by node
//! and written again; messages made by hand; arrays written; and the texts of refusals.
#![tactic(auto)]

#[cfg(test)]
mod array_nodes;
#[cfg(test)]
mod blobs;
#[cfg(test)]
mod by_hand;
pub mod files;
pub mod laws;
#[cfg(test)]
mod nodes;
#[cfg(test)]
mod reading;
#[cfg(test)]
mod texts;
#[cfg(test)]
mod writing;
