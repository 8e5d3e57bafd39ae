//! The parts of nested arrays for tests, and the texts of their rows.
#![tactic(auto)]

pub mod parts;
pub mod rows;
