//! The program over a store of files and a sink for its text, both of which the caller gives: the table of its commands,
//! and `run`.
#![tactic(auto)]

mod commands;
mod program;

pub use program::run;
