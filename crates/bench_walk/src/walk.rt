//! The walk: every part of every table is read once.

ghost use Rattle.vx_flat.specs.Seen.{IsViewOf};
ghost use Rattle.vx_serialized.specs.ArraySchema.{array_schema};

use std::fmt;
use vx_flat::{FieldKind, View, Width};

/// What a walk counts: the nodes, the sum of their numbers, and the sum of the lengths of their vectors. Sums wrap.
#[derive(Clone, Copy, Debug, Default, Drop)]
pub struct Tally {
    nodes: u64,
    numbers: u64,
    elements: u64,
}

impl Tally {
    /// Counts a node.
    fn node(&mut self) {
        self.nodes = self.nodes.wrapping_add(1);
    }

    /// Adds a number.
    fn number(&mut self, number: u64) {
        self.numbers = self.numbers.wrapping_add(number);
    }

    /// Adds a number, where there is one.
    fn opt_number(&mut self, number: Option<u64>) {
        self.number(number.unwrap_or(0));
    }

    /// Adds the length of a vector.
    fn vector(&mut self, len: usize) {
        self.elements = self.elements.wrapping_add(len as u64);
    }

    /// Adds the length of a vector of bytes, where there is one.
    fn bytes(&mut self, bytes: Option<&[u8]>) {
        if let Some(bytes) = bytes {
            self.vector(bytes.len());
        }
    }
}

impl fmt::Display for Tally {
    fn fmt<W: fmt::Write>(&self, f: &mut fmt::Formatter<W>) -> fmt::Result {
        write!(
            f,
            "{} nodes, {} in numbers, {} elements",
            self.nodes, self.numbers, self.elements
        )
    }
}

/// Walks over statistics.
fn walk_stats(stats: &View<'_>, tally: &mut Tally)
    requires { IsViewOf array_schema 2 stats.now }
{
    tally.bytes(stats.numbers_of(0, Width::One));
    tally.number(stats.number_of(1, Width::One));
    tally.bytes(stats.numbers_of(2, Width::One));
    tally.number(stats.number_of(3, Width::One));
    tally.bytes(stats.numbers_of(4, Width::One));
    tally.opt_number(stats.opt_flag(5));
    tally.opt_number(stats.opt_flag(6));
    tally.opt_number(stats.opt_flag(7));
    tally.opt_number(stats.opt_number_of(8, Width::Eight));
    tally.opt_number(stats.opt_number_of(9, Width::Eight));
    tally.opt_number(stats.opt_number_of(10, Width::Eight));
}

/// Walks over the numbers of a node's buffers.
fn walk_buffers(node: &View<'_>, tally: &mut Tally)
    requires { IsViewOf array_schema 1 node.now }
{
    if let Some(buffers) = node.vector_of(3, FieldKind::Vector(Width::Two)) {
        tally.vector(buffers.len());
        for i in 0..buffers.len() {
            tally.number(buffers.number(i, 0));
        }
    }
}

/// Walks over a node, and the nodes below it.
fn walk_node(node: &View<'_>, tally: &mut Tally)
    requires { IsViewOf array_schema 1 node.now }
{
    tally.node();
    tally.number(node.number_of(0, Width::Two));
    tally.bytes(node.numbers_of(1, Width::One));
    walk_buffers(node, tally);
    if let Some(stats) = node.table_of(4, 2) {
        walk_stats(&stats, tally);
    }
    if let Some(children) = node.vector_of(2, FieldKind::Tables(1)) {
        tally.vector(children.len());
        for i in 0..children.len() {
            walk_node(&children.table(i), tally);
        }
    }
}

/// Walks over the descriptors of the message's buffers.
fn walk_descriptors(root: &View<'_>, tally: &mut Tally)
    requires { IsViewOf array_schema 0 root.now }
{
    if let Some(descriptors) = root.vector_of(1, FieldKind::Structs(0)) {
        tally.vector(descriptors.len());
        for i in 0..descriptors.len() {
            tally.number(descriptors.number(i, 0));
            tally.number(descriptors.number(i, 1));
            tally.number(descriptors.number(i, 2));
            tally.number(descriptors.number(i, 3));
        }
    }
}

/// Walks over the nodes of a message, and the descriptors of its buffers.
pub fn walk(root: &View<'_>) -> Tally
    requires { IsViewOf array_schema 0 root.now }
{
    let mut tally = Tally::default();
    if let Some(node) = root.table_of(0, 1) {
        walk_node(&node, &mut tally);
    }
    walk_descriptors(root, &mut tally);
    tally
}
