//! Tests of variants in memory: merges of scalars, and arrays with their rows.
#![tactic(auto)]

#[cfg(test)]
mod arrays;
#[cfg(test)]
mod merges;
#[cfg(test)]
mod scalars;
#[cfg(test)]
mod texts;
