//! Tests of nested arrays, each encoding in a module of its own: which arrays are made, their rows, and the cells that
//! these take.
#![tactic(auto)]

#[cfg(test)]
mod dictionaries;
#[cfg(test)]
mod extensions;
#[cfg(test)]
mod foreign;
#[cfg(test)]
mod list_views;
#[cfg(test)]
mod lists;
#[cfg(test)]
mod lists_of_one_size;
#[cfg(test)]
mod maps;
#[cfg(test)]
mod structs;
#[cfg(test)]
mod unions;
