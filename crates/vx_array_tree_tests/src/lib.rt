//! Tests of the definitions of arrays: each lemma is a worked row, which the definitions compute.
//!
//! - `proofs::Samples`: arrays of each encoding;
//! - `proofs::SampleRows`: their rows, and how many cells a row takes;
//! - `proofs::SampleParts`: their metadata, the places of their children, and what is read back of them;
//! - `proofs::SoundSamples`: that they are sound;
//! - `proofs::BrokenSamples`: which rule each array breaks that breaks one, of its shape or of its content, so that it is not sound;
//! - `proofs::SampleForeigns`: foreign nodes, their rows and parts, where they may stand, and what is read back of them;
//! - `proofs::SampleStats`: statistics that fit or do not, and what is read back of them;
//! - `proofs::SampleMerges`: typed values over variants.
#![tactic(auto)]
