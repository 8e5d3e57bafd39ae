//! Tests of hostile bytes, of refused memory and of failing stores and outputs: which result comes, and what is left.
#![tactic(auto)]

#[cfg(test)]
mod asked;
#[cfg(test)]
mod blobs;
#[cfg(test)]
mod commands;
#[cfg(test)]
mod contexts;
#[cfg(test)]
mod levels;
#[cfg(test)]
mod memory;
#[cfg(test)]
mod messages;
#[cfg(test)]
mod program;
#[cfg(test)]
mod samples;
