//! Tests of vx_forms: rows of bytes, read and written, and a format that is made of its forms.
#![tactic(auto)]

#[cfg(test)]
mod frames;
pub mod sizes;
#[cfg(test)]
mod values;
