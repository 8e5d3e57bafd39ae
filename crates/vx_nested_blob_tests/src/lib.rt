//! Tests of nested arrays in blobs, also with nodes that nothing reads, and of their nodes: which are planned, and the
//! metadata that is written.
#![tactic(auto)]

#[cfg(test)]
mod arrays;
#[cfg(test)]
mod blobs;
#[cfg(test)]
mod broken;
#[cfg(test)]
mod decimals;
#[cfg(test)]
mod deep;
#[cfg(test)]
mod dictionaries;
#[cfg(test)]
mod foreign;
#[cfg(test)]
mod list_views;
#[cfg(test)]
mod nodes;
#[cfg(test)]
mod recoding;
#[cfg(test)]
mod steps;
#[cfg(test)]
mod variants;
#[cfg(test)]
mod wire;
