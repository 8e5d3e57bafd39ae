//! Trees of many levels, written and recoded, with deep trees allowed and not.

use crate::wire::{blob_with, recoded_with, unbuilt};
use std::alloc::Global;
use vx_arrays::{Array, ArrayError, Arrays, new_foreign_array};
use vx_buffer::BufferHandles;
use vx_registry::ArrayContext;
use vx_serde::{SerializeOptions, SerializedArray, WireError};
use vx_test_arrays::parts::{Made, There, both, bytes, dicts, extensions, lists, one, structs};
use vx_test_arrays::rows::takes;
use vx_types::{Blob, DType, Id, TypeError};

// The node at each level of a tree but the lowest, which is a number.
#[derive(Clone, Copy, Debug)]
enum Level {
    // A list of the level below.
    Lists,
    // A structure of one field.
    Structs,
    // An extension whose storage is the level below.
    Extensions,
    // A code of the only value.
    Dictionaries,
}

// An identifier that nothing reads, and the type of a tree.
fn parts_like(alloc: Global, tree: &Array) -> Result<(Id, DType), TypeError> {
    both(Id::new(alloc, "x.new"), tree.dtype().clone(alloc))
}

// A row of which nothing is known, at the type of a tree.
fn alike(alloc: Global, tree: &Array) -> Made {
    match parts_like(alloc, tree) {
        Ok((id, dtype)) => {
            let metadata = Blob::new(Vec::new(alloc));
            let buffers = BufferHandles::new(alloc);
            new_foreign_array(alloc, id, dtype, 1, metadata, buffers, Arrays::new(alloc))
        }
        Err(_) => Err(ArrayError::OutOfMemory),
    }
}

// One level more above a tree of one row.
fn above(alloc: Global, level: Level, tree: Array) -> Made {
    match level {
        Level::Lists => lists(alloc, Ok(tree), bytes(alloc, &[0, 1]), There::Always),
        Level::Structs => {
            let types = one(alloc, alike(alloc, &tree));
            let columns = one(alloc, Ok(tree));
            structs(alloc, &["a"], types, columns, 1, There::Always)
        }
        Level::Extensions => {
            let kind = alike(alloc, &tree);
            extensions(alloc, kind, Ok(tree))
        }
        Level::Dictionaries => dicts(alloc, bytes(alloc, &[0]), Ok(tree)),
    }
}

// The same, if that tree was made.
fn higher(alloc: Global, level: Level, tree: Made) -> Made {
    above(alloc, level, tree?)
}

// A tree of `levels` levels.
fn tree(alloc: Global, level: Level, levels: usize) -> Made {
    let mut tree = bytes(alloc, &[7]);
    for _ in 1..levels {
        tree = higher(alloc, level, tree);
    }
    tree
}

// No pads, and deep trees allowed or not.
fn options(deep: bool) -> SerializeOptions {
    SerializeOptions {
        offset: 0,
        include_padding: false,
        deep,
    }
}

// The refusal of writing and recoding a tree, if it is refused; else whether the same tree is read, and its row takes
// this many cells.
fn recoded(alloc: Global, tree: &Array, deep: bool, cells: u64) -> Result<bool, WireError> {
    let mut ctx = ArrayContext::empty(alloc);
    let recoded = recoded_with(alloc, tree, &mut ctx, &options(deep));
    drop(ctx);
    let recoded = recoded?;
    let same = tree.array_eq(&recoded.array);
    drop(recoded);
    Ok(same && takes(alloc, tree.clone(alloc), cells))
}

// The same for a tree that is made.
fn comes_back(
    alloc: Global,
    level: Level,
    levels: usize,
    deep: bool,
    cells: u64,
) -> Result<bool, WireError> {
    match tree(alloc, level, levels) {
        Ok(tree) => {
            let told = recoded(alloc, &tree, deep, cells);
            drop(tree);
            told
        }
        Err(_) => Err(WireError::OutOfMemory),
    }
}

const PASSED: Result<bool, WireError> = Err(WireError::WireLimit);

// The levels and their number, the cells of the row, whether deep trees are allowed, and the result.
const TREES: [(Level, usize, u64, bool, Result<bool, WireError>); 11] = [
    (Level::Lists, 62, 62, false, Ok(true)),
    (Level::Lists, 63, 63, false, PASSED),
    (Level::Lists, 63, 63, true, Ok(true)),
    (Level::Lists, 126, 126, true, Ok(true)),
    (Level::Lists, 127, 127, true, PASSED),
    (Level::Structs, 126, 126, true, Ok(true)),
    (Level::Structs, 127, 127, true, PASSED),
    (Level::Extensions, 126, 1, true, Ok(true)),
    (Level::Extensions, 127, 1, true, PASSED),
    (Level::Dictionaries, 126, 1, true, Ok(true)),
    (Level::Dictionaries, 127, 1, true, PASSED),
];

#[test]
fn trees_are_written_up_to_a_level(rt: HostRuntime) {
    for (level, levels, cells, deep, told) in &TREES {
        let answer = comes_back(rt.alloc(), *level, *levels, *deep, *cells);
        assert!(rt; answer == *told, "{level:?} {levels}");
    }
}

// The refusal of opening a tree that was written deep, deep or not, if it is refused.
fn unopened(alloc: Global, tree: &Array, deep: bool) -> Result<Option<WireError>, WireError> {
    let blob = blob_with(alloc, tree, &options(true))?;
    Ok(SerializedArray::try_from_buffer_to(alloc, blob, deep).err())
}

// The same for lists that are made.
fn unopened_lists(
    alloc: Global,
    levels: usize,
    deep: bool,
) -> Result<Option<WireError>, WireError> {
    match tree(alloc, Level::Lists, levels) {
        Ok(tree) => {
            let refused = unopened(alloc, &tree, deep);
            drop(tree);
            refused
        }
        Err(_) => Err(WireError::OutOfMemory),
    }
}

// The number of levels of lists that were written deep, and the refusal of opening them without `deep`.
const OPENED: [(usize, Option<WireError>); 3] = [
    (62, None),
    (63, Some(WireError::TableLimit)),
    (126, Some(WireError::TableLimit)),
];

#[test]
fn deep_trees_are_opened_where_they_are_asked_for(rt: HostRuntime) {
    let alloc = rt.alloc();
    for (levels, told) in &OPENED {
        assert!(rt;
            unopened_lists(alloc, *levels, true) == Ok(None),
            "{levels}"
        );
        assert!(rt;
            unopened_lists(alloc, *levels, false) == Ok(*told),
            "{levels}"
        );
    }
}

// The refusal of lists as a node of a message that a caller builds, if they are refused.
fn unbuilt_lists(alloc: Global, levels: usize) -> Result<Option<WireError>, WireError> {
    match tree(alloc, Level::Lists, levels) {
        Ok(tree) => {
            let refused = unbuilt(alloc, &tree);
            drop(tree);
            refused
        }
        Err(_) => Err(WireError::OutOfMemory),
    }
}

// The number of levels of lists, and their refusal as a node: this call takes no options.
const BUILT: [(usize, Option<WireError>); 3] = [
    (62, None),
    (63, Some(WireError::WireLimit)),
    (126, Some(WireError::WireLimit)),
];

#[test]
fn nodes_in_messages_of_a_caller_are_not_deep(rt: HostRuntime) {
    for (levels, told) in &BUILT {
        assert!(rt; unbuilt_lists(rt.alloc(), *levels) == Ok(*told), "{levels}");
    }
}
