//! Tests of the definitions of wire trees: each lemma is a row of a table, which the definitions compute.
//!
//! - `proofs::SampleWires`: messages of metadata; the identifiers, and of some the buffers, of wire trees of arrays of
//!   each encoding;
//! - `proofs::SampleContexts`: how contexts grow;
//! - `proofs::SampleTold`: a wire tree that decodes to an array, and the causes of those that decode to none;
//! - `proofs::SampleRaw`: wire trees with nodes that nothing reads;
//! - `proofs::SampleRevised`: primitives under two identifiers;
//! - `proofs::SampleVariants`: wire trees of variants, and which types their metadata may have;
//! - `proofs::SampleMaps`: a map over a list by offsets, whose entries are of an encoding that they may not be.
#![tactic(auto)]
