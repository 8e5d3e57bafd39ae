//! The listing of an array: its nodes and its first rows.

ghost use Rattle.std.specs.Prelude.{◌≡◌, ◌≤◌, ◌<◌, ◌++◌, min, IfOk, OnOk, IsErrOf, string_bytes, codes, decimal};
ghost use Rattle.std.specs.Io.KnownBytes.{Appends};
ghost use Rattle.vx_trees.specs.Rose.{label};
ghost use Rattle.vx_array_tree.specs.Table.{buffers_of};
ghost use Rattle.vxcat_store.specs.StoreState.{HasRisen};
ghost use Rattle.vxcat_store.specs.Written.{AppendsPrefix};
ghost use Rattle.vxcat_store.specs.Listing.{lengths_text, node_line, node_lines, shown_row, row_line, row_lines, listing};
ghost use Rattle.vxcat_store.specs.declared.print.PrintError.TheVariants as print_error;

use crate::print::{PrintError, write_text};
use crate::row_text::row_text;
use crate::sink::Sink;
use std::alloc::{AllocError, Global};
use vx_arrays::{Array, ArrayError};

/// The greatest number of cells of a row whose value is printed.
pub const MAX_CELLS: u64 = 10_000;

/// Prints the listing of an array: a line for each node, and one for each of the first rows.
///
/// # Errors
/// `OutOfMemory`; `Failed` where a write failed. Both may leave a prefix of the listing written.
pub fn print_listing<O: Sink>(
    alloc: Global,
    array: &Array,
    rows: usize,
    out: &mut O,
) -> Result<(), PrintError>
    ensures ok { OnOk result (Appends (O.state out.old).written (O.state out.new).written (listing array.now rows)) }
    ensures prefix { AppendsPrefix (O.state out.old).written (O.state out.new).written (listing array.now rows) }
    ensures never_decreases { (O.state out.old).faults ≤ (O.state out.new).faults }
    ensures fault { IsErrOf result print_error.Failed → HasRisen (O.state out.old).faults (O.state out.new).faults }
{
    let mut nodes = String::new(alloc);
    push_nodes(alloc, array, "", &mut nodes)?;
    write_text(out, nodes.as_str().as_bytes())?;
    print_rows(alloc, array, rows, out)
}

// Appends the lines of an array's nodes. They are printed by one write, since there may be many of them.
#[tactic(auto, using(vx_trees::proofs::Roses::roses))]
fn push_nodes(
    alloc: Global,
    array: &Array,
    indent: &str,
    text: &mut String,
) -> Result<(), AllocError>
    ensures { OnOk result (string_bytes text.new ≡ string_bytes text.old ++ node_lines indent.now array.now) }
{
    push_node(alloc, array, indent, text)?;
    let deeper = format!(in alloc; "{indent}  ")?;
    for child in array.children() {
        push_nodes(alloc, child, deeper.as_str(), text)?;
    }
    Ok(())
}

// Appends the line of a node.
fn push_node(
    alloc: Global,
    array: &Array,
    indent: &str,
    text: &mut String,
) -> Result<(), AllocError>
    ensures { OnOk result (string_bytes text.new ≡ string_bytes text.old ++ node_line indent.now (label array.now)) }
{
    let id = array.encoding_id();
    let len = array.len();
    let lengths = lengths_text(alloc, array)?;
    write!(text, "{indent}{id} len={len} buffers=[{lengths}]\n")
}

fn lengths_text(alloc: Global, array: &Array) -> Result<String, AllocError>
    ensures { IfOk result (λ text. string_bytes text ≡ lengths_text (buffers_of (label array.now).body)) }
{
    let mut text = String::new(alloc);
    for i in 0..array.nbuffers() {
        push_length(&mut text, i, array.buffer(i).len())?;
    }
    Ok(text)
}

// Appends the length of buffer `i`, after a comma and a space unless it is the first.
fn push_length(text: &mut String, i: usize, len: usize) -> Result<(), AllocError>
    ensures first { i ≡ 0 → OnOk result (string_bytes text.new ≡ string_bytes text.old ++ decimal len) }
    ensures further { 0 < i → OnOk result (string_bytes text.new ≡ string_bytes text.old ++ (codes ", " ++ decimal len)) }
{
    if i > 0 {
        text.push_str(", ")?;
    }
    write!(text, "{len}")
}

fn print_rows<O: Sink>(
    alloc: Global,
    array: &Array,
    rows: usize,
    out: &mut O,
) -> Result<(), PrintError>
    ensures ok { OnOk result (Appends (O.state out.old).written (O.state out.new).written
        (row_lines array.now 0 (min rows (label array.now).len))) }
    ensures prefix { AppendsPrefix (O.state out.old).written (O.state out.new).written
        (row_lines array.now 0 (min rows (label array.now).len)) }
    ensures never_decreases { (O.state out.old).faults ≤ (O.state out.new).faults }
    ensures fault { IsErrOf result print_error.Failed → HasRisen (O.state out.old).faults (O.state out.new).faults }
{
    let shown = rows.min(array.len());
    for i in 0..shown {
        let line = row_line(alloc, array, i)?;
        write_text(out, line.as_str().as_bytes())?;
    }
    Ok(())
}

fn row_line(alloc: Global, array: &Array, i: usize) -> Result<String, AllocError>
    requires { i < (label array.now).len }
    ensures { IfOk result (λ line. string_bytes line ≡ row_line array.now i) }
{
    let row = shown_row(alloc, array, i)?;
    format!(in alloc; "{i}: {row}\n")
}

fn shown_row(alloc: Global, array: &Array, i: usize) -> Result<String, AllocError>
    requires { i < (label array.now).len }
    ensures { IfOk result (λ text. string_bytes text ≡ shown_row array.now i) }
{
    match array.value_at(alloc, i, MAX_CELLS) {
        Ok(value) => row_text(alloc, &value, array.dtype()),
        Err(ArrayError::ValueTooLarge) => String::from_str(alloc, "(large)"),
        Err(_) => Err(AllocError),
    }
}
