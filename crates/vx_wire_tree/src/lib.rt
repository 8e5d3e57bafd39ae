//! What sessions and wire trees mean, and which arrays wire trees decode to, for all encodings: definitions and their
//! laws alone.
#![tactic(auto)]
