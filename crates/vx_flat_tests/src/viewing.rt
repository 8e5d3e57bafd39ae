//! Views: each accessor for each kind of field, present and absent, and tables with many paths to
//! them.

ghost use Rattle.std.specs.Prelude.{◌≡◌, ◌+◌, ◌<◌, IfOk, IfSome, OnOk};
ghost use Rattle.vx_flat.specs.Seen.{IsViewOf};
ghost use Rattle.vx_flat_tests.specs.Worked.{array_schema, array_message, every_schema};

use crate::kinds::{ArrayKind, EveryKind, PairKind};
use crate::messages::{ARRAY, EVERY};
use crate::reading::nested;
use std::alloc::{AllocError, Global};
use std::marker::Brand;
use std::sync::ledger::{Blank, Ledger};
use std::test::Fail;
use vx_flat::{
    FlatError, Steps, TableKind, UnionPart, View, Weight, verify, verify_uncounted,
    verify_uncounted_to, view_at,
};

/// A table without fields.
const NOTHING: [u8; 12] = [8, 0, 0, 0, 4, 0, 4, 0, 4, 0, 0, 0];

/// The view of a message's root.
fn root_view<'a, K: TableKind>(message: &'a [u8], kind: &K) -> Result<View<'a>, FlatError>
    ensures { IfOk result (λ v. IsViewOf K.schema K.schema.root v) }
{
    verify_uncounted(message, kind)
}

fn numbers(view: &View<'_>) -> [u64; 4]
    requires { IsViewOf every_schema 0 view.now }
{
    [
        view.number(0),
        view.number(1),
        view.number(2),
        view.number(3),
    ]
}

fn numbers_that_may_be_missing(view: &View<'_>) -> [Option<u64>; 4]
    requires { IsViewOf every_schema 0 view.now }
{
    [
        view.opt_number(4),
        view.opt_number(5),
        view.opt_number(8),
        view.opt_number(9),
    ]
}

fn flags(view: &View<'_>) -> [bool; 2]
    requires { IsViewOf every_schema 0 view.now }
{
    [view.flag(6), view.flag(7)]
}

/// The lengths in bytes of the vectors of numbers and structs and of the string, if present.
fn lengths(view: &View<'_>) -> [Option<usize>; 3]
    requires { IsViewOf every_schema 0 view.now }
{
    let elements = match view.bytes(10) {
        None => None,
        Some(bytes) => Some(bytes.len()),
    };
    let structs = match view.bytes(11) {
        None => None,
        Some(bytes) => Some(bytes.len()),
    };
    let text = match view.text(12) {
        None => None,
        Some(text) => Some(text.len()),
    };
    [elements, structs, text]
}

/// The lengths of the vectors of numbers, structs, strings and tables, if present.
fn counts(view: &View<'_>) -> [Option<usize>; 4]
    requires { IsViewOf every_schema 0 view.now }
{
    let numbers = match view.vector(10) {
        None => None,
        Some(vector) => Some(vector.len()),
    };
    let structs = match view.vector(11) {
        None => None,
        Some(vector) => Some(vector.len()),
    };
    let texts = match view.vector(13) {
        None => None,
        Some(vector) => Some(vector.len()),
    };
    let tables = match view.vector(15) {
        None => None,
        Some(vector) => Some(vector.len()),
    };
    [numbers, structs, texts, tables]
}

/// The two numbers of the vector of numbers, and the second members of the two structs.
fn numbers_of_elements(view: &View<'_>) -> Option<[u64; 4]>
    requires { IsViewOf every_schema 0 view.now }
{
    let Some(numbers) = view.vector(10) else {
        return None;
    };
    let Some(structs) = view.vector(11) else {
        return None;
    };
    if numbers.len() != 2 || structs.len() != 2 {
        return None;
    }
    Some([
        numbers.number(0, 0),
        numbers.number(1, 0),
        structs.number(0, 1),
        structs.number(1, 1),
    ])
}

/// How many bytes the two strings of the vector of strings have.
fn lengths_of_texts(view: &View<'_>) -> Option<[usize; 2]>
    requires { IsViewOf every_schema 0 view.now }
{
    let Some(texts) = view.vector(13) else {
        return None;
    };
    if texts.len() != 2 {
        return None;
    }
    Some([texts.text(0).len(), texts.text(1).len()])
}

/// The tag of a union, if it has one, and whether the schema has it.
fn tag_of(part: UnionPart<'_>) -> Option<(u8, bool)> {
    match part {
        UnionPart::None => None,
        UnionPart::Known(tag, _) => Some((tag, true)),
        UnionPart::Unknown(tag) => Some((tag, false)),
    }
}

/// The tags of the three unions.
fn tags(view: &View<'_>) -> [Option<(u8, bool)>; 3]
    requires { IsViewOf every_schema 0 view.now }
{
    [
        tag_of(view.union_part(16)),
        tag_of(view.union_part(18)),
        tag_of(view.union_part(20)),
    ]
}

/// The place of the table in a field, if there is one.
fn place_of_table(view: &View<'_>) -> Option<usize>
    requires { IsViewOf every_schema 0 view.now }
{
    match view.table(14) {
        None => None,
        Some(table) => Some(table.place()),
    }
}

/// Whether views give the numbers, flags and tags of the message with a field of every kind.
fn tells_scalars(every: &View<'_>) -> bool
    requires { IsViewOf every_schema 0 every.now }
{
    numbers(every) == [0, 300, 70_000, 1_099_511_627_781]
        && numbers_that_may_be_missing(every) == [Some(0), None, Some(0), None]
        && flags(every) == [true, false]
        && tags(every) == [Some((2, true)), Some((9, false)), None]
}

/// Whether views give its vectors, strings and table.
fn tells_parts(every: &View<'_>) -> bool
    requires { IsViewOf every_schema 0 every.now }
{
    lengths(every) == [Some(4), Some(6), Some(2)]
        && counts(every) == [Some(2), Some(2), Some(2), Some(2)]
        && numbers_of_elements(every) == Some([1, 2, 2, 4])
        && lengths_of_texts(every) == Some([0, 2])
        && place_of_table(every) == Some(200)
}

/// Whether numbers, flags and tags of a table without a field are at their defaults.
fn lacks_scalars(nothing: &View<'_>) -> bool
    requires { IsViewOf every_schema 0 nothing.now }
{
    numbers(nothing) == [0, 0, 0, 0]
        && numbers_that_may_be_missing(nothing) == [None, None, None, None]
        && flags(nothing) == [false, false]
        && tags(nothing) == [None, None, None]
}

/// Whether it has no vectors, strings and table.
fn lacks_parts(nothing: &View<'_>) -> bool
    requires { IsViewOf every_schema 0 nothing.now }
{
    lengths(nothing) == [None, None, None]
        && counts(nothing) == [None, None, None, None]
        && numbers_of_elements(nothing).is_none()
        && lengths_of_texts(nothing).is_none()
        && place_of_table(nothing).is_none()
}

#[test]
fn fields_are_told(rt: HostRuntime) {
    match root_view(&EVERY, &EveryKind) {
        Ok(every) => assert!(rt; tells_scalars(&every) && tells_parts(&every)),
        Err(_) => assert!(rt; false),
    }
}

#[test]
fn missing_fields_are_told(rt: HostRuntime) {
    match root_view(&NOTHING, &EveryKind) {
        Ok(nothing) => assert!(rt; lacks_scalars(&nothing) && lacks_parts(&nothing)),
        Err(_) => assert!(rt; false),
    }
}

/// A message of nested nodes, each with two offsets to one child; the last has none.
fn shared_children(alloc: Global, levels: usize) -> Result<Vec<u8>, AllocError> {
    let mut message = Vec::from_slice(
        alloc,
        &[10, 0, 0, 0, 6, 0, 8, 0, 4, 0, 6, 0, 0, 0, 14, 0, 0, 0],
    )?;
    for _ in 1..levels {
        message.extend_from_slice(&[10, 0, 8, 0, 0, 0, 0, 0, 4, 0, 10, 0, 0, 0])?;
        message.extend_from_slice(&[4, 0, 0, 0, 2, 0, 0, 0, 18, 0, 0, 0, 14, 0, 0, 0])?;
    }
    message.extend_from_slice(&[0, 0, 0, 0, 0, 0, 4, 0, 4, 0, 4, 0, 0, 0])?;
    Ok(message)
}

/// The root node of an array.
fn node<'a>(view: &View<'a>) -> Option<View<'a>>
    requires { IsViewOf array_schema 0 view.now }
    ensures { IfSome result (λ w. IsViewOf array_schema 1 w) }
{
    view.table(0)
}

/// The first of two children, if both are at one place.
fn child<'a>(view: &View<'a>) -> Option<View<'a>>
    requires { IsViewOf array_schema 1 view.now }
    ensures { IfSome result (λ w. IsViewOf array_schema 1 w) }
{
    let Some(children) = view.vector(2) else {
        return None;
    };
    if children.len() != 2 {
        return None;
    }
    let first = children.table(0);
    if first.place() != children.table(1).place() {
        return None;
    }
    Some(first)
}

/// How many levels of nodes there are below the root's node.
fn levels_below(root: &View<'_>) -> usize
    requires { IsViewOf array_schema 0 root.now }
{
    let Some(first) = node(root) else {
        return 0;
    };
    let mut view = first;
    for level in 0..64 {
        match child(&view) {
            None => return level,
            Some(next) => view = next,
        }
    }
    64
}

/// Whether the message weighs what all paths through it weigh.
fn weighs_all_paths(message: &[u8]) -> bool {
    match root_view(message, &ArrayKind) {
        Ok(root) => {
            root.weight().tables == 524_288
                && root.weight().nested == 20
                && levels_below(&root) == 18
        }
        Err(_) => false,
    }
}

#[test]
fn tables_that_many_paths_reach(rt: HostRuntime) {
    match shared_children(rt.alloc(), 19) {
        Ok(message) => assert!(rt; weighs_all_paths(&message)),
        Err(_) => assert!(rt; false),
    }
}

#[test]
fn worked_weight(rt: HostRuntime) -> Result<(), FlatError> {
    let weight = Weight {
        nested: 3,
        tables: 3,
        bytes: 218,
    };
    let root = verify_uncounted(&ARRAY, &ArrayKind)?;
    assert_eq!(rt; root.weight(), weight);
    assert_eq!(rt; root.place(), 16);
    let again = view_at(&ARRAY, &ArrayKind, root.place(), weight);
    assert_eq!(rt; again.place(), 16);
    assert_eq!(rt; again.weight(), weight);
    Ok(())
}

/// The weight of the worked message, which is verified in three steps.
fn weight_in_three_steps<L: Ledger>(
    message: &[u8],
    steps: &mut Steps<L>,
) -> Result<Weight, FlatError>
    requires { message.now ≡ array_message }
    ensures { OnOk result (steps.new ≡ steps.old + 3) }
{
    let root = verify(message, &ArrayKind, steps)?;
    Ok(root.weight())
}

/// The same, with a counter of its own.
fn weight_by<L: Ledger>(blank: Blank) -> Result<Weight, FlatError>
    requires name { blank.name ≡ L.name }
    requires parts { blank.parts ≡ L.parts }
    requires some { 0 < blank.parts }
{
    let mut steps = Steps::<L>::new(blank);
    weight_in_three_steps(&ARRAY, &mut steps)
}

#[test]
fn steps_are_counted(rt: HostRuntime) -> Result<(), Fail> {
    let weight = weight_by::<Brand>(Blank::new(1))?;
    assert_eq!(rt; weight.tables, 3);
    Ok(())
}

/// How deep a message nests, or why it is refused, with deep trees or without.
fn nested_in(message: &[u8], deep: bool) -> Result<u64, FlatError> {
    match verify_uncounted_to(message, &PairKind, deep) {
        Ok(root) => Ok(root.weight().nested),
        Err(error) => Err(error),
    }
}

/// The same of this many nested tables.
fn nested_of(alloc: Global, levels: usize, both: bool, deep: bool) -> Result<u64, FlatError> {
    let message = nested(alloc, levels, both)?;
    nested_in(&message, deep)
}

/// The number of nested tables, whether both fields point to the next one, whether deep trees are
/// allowed, and the result.
const NESTED: [(usize, bool, bool, Result<u64, FlatError>); 6] = [
    (64, false, false, Ok(64)),
    (65, false, false, Err(FlatError::TableLimit)),
    (20, true, false, Err(FlatError::TableLimit)),
    (65, false, true, Ok(65)),
    (128, false, true, Ok(128)),
    (129, false, true, Err(FlatError::TableLimit)),
];

#[test]
fn nested_tables(rt: HostRuntime) {
    for (levels, both, deep, expected) in &NESTED {
        assert_eq!(rt; nested_of(rt.alloc(), *levels, *both, *deep), *expected);
    }
}

#[test]
fn prefixes_are_refused(rt: HostRuntime) {
    for len in 0..ARRAY.len() {
        let refused = verify_uncounted(&ARRAY[..len], &ArrayKind);
        assert_eq!(rt; refused.err(), Some(FlatError::BadTable), "of {len} bytes");
    }
}
