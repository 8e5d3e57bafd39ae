//! Arrays for contracts: plain trees with a case for each encoding, and the definitions on them.
//!
//! The crate has no code of its own. What it gives are definitions, to be cited in contracts, and their laws:
//!
//! - `specs::Tree`: arrays as trees of nodes, their codes for models, and their rows;
//! - `specs::Encodings`: a file for each encoding, in which stands all that is said of it;
//! - `specs::Table`: the same words for any encoding, which only hand on to those files;
//! - `specs::Sound`, `specs::Normal`, `specs::Canon`: when an array is sound, when it has the one form in which
//!   it is read, and which array is read back where one was written;
//! - `specs::Merge`: the variant of a typed value that stands over another variant.
//!
//! The laws stand in `proofs`.
#![tactic(auto)]
