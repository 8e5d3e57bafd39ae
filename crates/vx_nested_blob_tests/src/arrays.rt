//! The arrays that are written.

use std::alloc::Global;
use vx_test_arrays::parts::{
    AllMade, Made, There, and, bytes, extensions, fixed, lists, none, nulls, numbers, one, structs,
    texts, two, unions,
};
use vx_types::PType;

/// Nested arrays, of three rows if nothing else is said.
#[derive(Clone, Copy)]
pub(crate) enum Nested {
    /// Structures of a number and a text.
    Pairs,
    /// The same, of which the second is null.
    SomePairs,
    /// Seven structures without fields.
    Empty,
    /// Structures of a number.
    OneField,
    /// The same, of a type that lets rows be null.
    OneFieldOrNull,
    /// Lists of texts.
    Lists,
    /// The same, of a type that lets rows be null.
    ListsOrNull,
    /// The same, of which the second is null.
    SomeLists,
    /// Lists of structures of a number and a text, of which the second is null.
    PairLists,
    /// Two lists of lists of texts.
    ListLists,
    /// One list of as many nulls as can be counted.
    NullList,
    /// Two lists of three numbers.
    Threes,
    /// The same, of which the first is null.
    SomeThrees,
    /// One list of seven numbers.
    Seven,
    /// Five lists of no numbers.
    NoBytes,
    /// Lists of as many nulls as can be counted.
    NullLists,
    /// Two extensions that are stored as lists of three numbers.
    Extended,
    /// The same in an extension.
    ExtendedTwice,
    /// Two extensions that are stored as lists that may be null.
    ExtendedOrNull,
    /// Extensions that are stored as numbers.
    Stored,
    /// Unions of a number and a text.
    Unions,
    /// The same, of which the second is null.
    SomeUnions,
    /// Unions of the number under 255 and the text under 0.
    Crossed,
    /// Structures of structures, lists and unions.
    All,
}

/// A nested array.
pub(crate) fn made(alloc: Global, which: Nested) -> Made {
    match which {
        Nested::Pairs => pairs(alloc, There::Always),
        Nested::SomePairs => pairs(alloc, There::Bits(0b101)),
        Nested::Empty => structs(alloc, &[], none(alloc), none(alloc), 7, There::Always),
        Nested::OneField => one_field(alloc, There::Always),
        Nested::OneFieldOrNull => one_field(alloc, There::All),
        Nested::Lists => listed(alloc, There::Always),
        Nested::ListsOrNull => listed(alloc, There::All),
        Nested::SomeLists => listed(alloc, There::Bits(0b101)),
        Nested::PairLists => pair_lists(alloc),
        Nested::ListLists => list_lists(alloc),
        Nested::NullList => null_list(alloc),
        Nested::Threes => threes(alloc, There::Always),
        Nested::SomeThrees => threes(alloc, There::Bits(0b10)),
        Nested::Seven => fixed(alloc, bytes(alloc, b"abcdefg"), 7, 1, There::Always),
        Nested::NoBytes => fixed(alloc, bytes(alloc, &[]), 0, 5, There::Always),
        Nested::NullLists => null_lists(alloc),
        Nested::Extended => extended(alloc, There::Always),
        Nested::ExtendedTwice => extended_twice(alloc),
        Nested::ExtendedOrNull => extended(alloc, There::Bits(0b10)),
        Nested::Stored => extensions(alloc, counts(alloc), counts(alloc)),
        Nested::Unions => united(alloc, &[255, 0, 255], There::Always),
        Nested::SomeUnions => united(alloc, &[0, 7, 255], There::Bits(0b101)),
        Nested::Crossed => crossed(alloc),
        Nested::All => all(alloc),
    }
}

// Three numbers.
fn counts(alloc: Global) -> Made {
    bytes(alloc, &[1, 2, 3])
}

// Three texts, of which the last is null.
fn letters(alloc: Global) -> Made {
    texts(alloc, b"abc", There::Bits(0b011))
}

// The numbers and the texts.
fn columns(alloc: Global) -> AllMade {
    two(alloc, counts(alloc), letters(alloc))
}

// Three structures of a number and a text.
fn pairs(alloc: Global, there: There) -> Made {
    structs(alloc, &["a", "b"], columns(alloc), columns(alloc), 3, there)
}

// The numbers alone.
fn column(alloc: Global) -> AllMade {
    one(alloc, counts(alloc))
}

// Three structures of a number.
fn one_field(alloc: Global, there: There) -> Made {
    structs(alloc, &["a"], column(alloc), column(alloc), 3, there)
}

// The offsets 0, 2, 2 and 3, each of four bytes.
fn offsets(alloc: Global) -> Made {
    let bytes = b"\0\0\0\0\x02\0\0\0\x02\0\0\0\x03\0\0\0";
    numbers(alloc, PType::I32, bytes, There::Always)
}

// Three lists of texts.
fn listed(alloc: Global, there: There) -> Made {
    lists(alloc, letters(alloc), offsets(alloc), there)
}

// Three lists of structures, of which the second is null.
fn pair_lists(alloc: Global) -> Made {
    let pairs = pairs(alloc, There::Always);
    lists(alloc, pairs, offsets(alloc), There::Bits(0b101))
}

// Two lists of lists of texts.
fn list_lists(alloc: Global) -> Made {
    let inner = listed(alloc, There::Always);
    lists(alloc, inner, bytes(alloc, &[0, 1, 3]), There::All)
}

// One list of as many nulls as can be counted.
fn null_list(alloc: Global) -> Made {
    let ends = b"\0\0\0\0\0\0\0\0\xff\xff\xff\xff\xff\xff\xff\xff";
    let offsets = numbers(alloc, PType::U64, ends, There::Always);
    lists(alloc, nulls(alloc, usize::MAX), offsets, There::Always)
}

// Lists of as many nulls: 2^64 - 1 is (2^32 - 1) times (2^32 + 1).
fn null_lists(alloc: Global) -> Made {
    let nulls = nulls(alloc, usize::MAX);
    fixed(alloc, nulls, u32::MAX, (1 << 32) + 1, There::Always)
}

// Two lists of three numbers.
fn threes(alloc: Global, there: There) -> Made {
    fixed(alloc, bytes(alloc, &[1, 2, 3, 4, 5, 6]), 3, 2, there)
}

// Two extensions that are stored as those.
fn extended(alloc: Global, there: There) -> Made {
    extensions(alloc, threes(alloc, there), threes(alloc, there))
}

// The same in an extension.
fn extended_twice(alloc: Global) -> Made {
    let kind = extended(alloc, There::Always);
    extensions(alloc, kind, extended(alloc, There::Always))
}

// Three unions of a number under the tag 0 and a text under 255.
fn united(alloc: Global, tags: &[u8], there: There) -> Made {
    let tags = numbers(alloc, PType::U8, tags, there);
    unions(alloc, &[0, 255], columns(alloc), tags, columns(alloc))
}

// Three unions of a number under the tag 255 and a text under 0.
fn crossed(alloc: Global) -> Made {
    let tags = bytes(alloc, &[0, 255, 0]);
    unions(alloc, &[255, 0], columns(alloc), tags, columns(alloc))
}

// Structures, lists and unions.
fn three(alloc: Global) -> AllMade {
    let two = two(alloc, pairs(alloc, There::Bits(0b101)), pair_lists(alloc));
    and(two, united(alloc, &[0, 7, 255], There::Bits(0b101)))
}

// Three structures of all those.
fn all(alloc: Global) -> Made {
    structs(
        alloc,
        &["a", "b", "c"],
        three(alloc),
        three(alloc),
        3,
        There::Always,
    )
}
