//! Worked rows that cross crates: the program over files in memory and over real ones.
#![tactic(auto)]

#[cfg(test)]
mod decimals;
#[cfg(test)]
mod expressions;
#[cfg(test)]
mod faults;
#[cfg(test)]
mod flag_files;
#[cfg(test)]
mod flags;
#[cfg(test)]
mod foreigns;
#[cfg(test)]
mod integers;
pub mod laws;
#[cfg(test)]
mod made;
#[cfg(test)]
mod nested;
#[cfg(test)]
mod program;
#[cfg(test)]
mod revised;
#[cfg(test)]
mod varbins;
#[cfg(test)]
mod varbinviews;
#[cfg(test)]
mod variants;
