//! Tests of texts and bytes by views.
#![tactic(auto)]

#[cfg(test)]
mod judging;
#[cfg(test)]
mod nodes;
#[cfg(test)]
mod parts;
#[cfg(test)]
mod rows;
