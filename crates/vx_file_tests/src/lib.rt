//! Tests of vx_file: worked files, files that are made by their parts, files that are changed, and files that are
//! written and read again.
#![tactic(auto)]

#[cfg(test)]
mod bytes;
#[cfg(test)]
mod changed;
#[cfg(test)]
mod columns;
#[cfg(test)]
mod faults;
#[cfg(test)]
mod loading;
#[cfg(test)]
mod memory;
#[cfg(test)]
mod parts;
#[cfg(test)]
mod reading;
#[cfg(test)]
mod tables;
#[cfg(test)]
mod texts;
#[cfg(test)]
mod untold;
#[cfg(test)]
mod within;
#[cfg(test)]
mod worked;
#[cfg(test)]
mod writing;
