//! Rose trees for contracts: a label at each node, and any number of trees below it.
//!
//! Types, arrays and the trees of a blob all have this one shape, so each recursion over them is
//! written here once. The crate has no code of its own. It gives definitions, to be cited in
//! contracts, and their laws:
//!
//! - `specs::Rose`: the trees, and the lists of trees below a node;
//! - `specs::Walks`: how many nodes and levels, and what is gathered in preorder;
//! - `specs::Everywhere`: a fact that holds at each node;
//! - `specs::Codes`: how a tree is stored, so that a struct may have one as its model;
//! - `specs::Same`: equality as a test, for what has a code.
//!
//! The laws stand in `proofs`. The ruleset `proofs::Roses::roses` collects those that a loop over the
//! trees below a node needs.
#![tactic(auto)]
