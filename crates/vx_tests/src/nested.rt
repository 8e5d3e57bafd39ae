//! The program, run on lists, maps, structures, unions and dictionaries.

use crate::program::{Files, saves_the_same};
use std::alloc::{AllocError, Global};
use vx_arrays::Array;
use vx_buffer::ByteBuffer;
use vx_registry::{ArrayContext, ArraySession, VortexSession};
use vx_serde::{ArrayExt, SerializeOptions, WireError};
use vx_test_arrays::parts::{
    AllMade, Made, There, and, bytes, dicts, fixed, flags, lists, maps, none, nulls, numbers,
    structs, texts, two, unions, views,
};
use vx_type_wire::{DTypeExt, ExtSession};
use vx_types::{DType, Ids, PType};

// Arrays that are listed.
#[derive(Clone, Copy, Debug)]
enum Nested {
    // Two lists of numbers, with offsets and sizes of their own.
    Views,
    // The same, of which the first is null.
    SomeViews,
    // Three lists of numbers, split by offsets.
    Lists,
    // Five lists of no numbers.
    NoBytes,
    // A list of 10,000 nulls.
    Large,
    // A map from 1 to a.
    Map,
    // Seven structures without fields.
    Empty,
    // A list of two structures of a number and a text, of which the second is null.
    Pairs,
    // Four unions of a number, a text or a flag, of which the last is null.
    Unions,
    // Four texts by codes, of which the third is null.
    Letters,
    // Two lists of two such texts in structures.
    All,
}

// Three numbers of four bytes.
fn three(alloc: Global) -> Made {
    let bytes = b"\x01\0\0\0\x02\0\0\0\x03\0\0\0";
    numbers(alloc, PType::I32, bytes, There::Always)
}

// Lists of those: the second and the third, and the first.
fn viewed(alloc: Global, there: There) -> Made {
    let offsets = bytes(alloc, &[1, 0]);
    views(alloc, three(alloc), offsets, bytes(alloc, &[2, 1]), there)
}

// Three lists of numbers of two bytes.
fn parted(alloc: Global) -> Made {
    let words = numbers(alloc, PType::U16, &[4, 1, 5, 1, 6, 1], There::Always);
    let ends = b"\0\0\0\0\x02\0\0\0\x02\0\0\0\x03\0\0\0";
    let offsets = numbers(alloc, PType::I32, ends, There::Always);
    lists(alloc, words, offsets, There::Always)
}

// The key 1.
fn key(alloc: Global) -> Made {
    numbers(alloc, PType::I32, &[1, 0, 0, 0], There::Always)
}

// The value a.
fn value(alloc: Global) -> Made {
    texts(alloc, b"a", There::Always)
}

// The entry of both.
fn entry(alloc: Global) -> Made {
    let types = two(alloc, key(alloc), value(alloc));
    let columns = two(alloc, key(alloc), value(alloc));
    structs(alloc, &["key", "value"], types, columns, 1, There::Always)
}

/// The map of that entry.
pub fn mapped(alloc: Global) -> Made {
    let offsets = bytes(alloc, &[0]);
    let sizes = bytes(alloc, &[1]);
    let entries = views(alloc, entry(alloc), offsets, sizes, There::Always);
    maps(alloc, key(alloc), value(alloc), entries)
}

// Two numbers and two texts.
fn columns(alloc: Global) -> AllMade {
    two(
        alloc,
        bytes(alloc, &[1, 2]),
        texts(alloc, b"ab", There::Always),
    )
}

// A list of two structures of those, of which the second is null.
fn pairs(alloc: Global) -> Made {
    let names = ["a", "b"];
    let there = There::Bits(0b01);
    let pairs = structs(alloc, &names, columns(alloc), columns(alloc), 2, there);
    fixed(alloc, pairs, 2, 1, There::Always)
}

// Four numbers, four texts and four flags.
fn members(alloc: Global) -> AllMade {
    let bytes = b"\x01\0\0\0\x02\0\0\0\x03\0\0\0\x04\0\0\0";
    let numbers = numbers(alloc, PType::I32, bytes, There::Always);
    let two = two(alloc, numbers, texts(alloc, b"abcd", There::Always));
    and(two, flags(alloc, 0b0100, 4))
}

// Unions of those, of which the last is null.
fn united(alloc: Global) -> Made {
    let tags = numbers(alloc, PType::U8, &[0, 5, 255, 7], There::Bits(0b0111));
    unions(alloc, &[0, 5, 255], members(alloc), tags, members(alloc))
}

// The texts x, z, null and y by their codes.
fn letters(alloc: Global) -> Made {
    let codes = numbers(alloc, PType::U8, &[0, 2, 0, 1], There::Bits(0b1011));
    dicts(alloc, codes, texts(alloc, b"xyz", There::Always))
}

// Two lists of two of those texts, and a number for each.
fn both(alloc: Global) -> AllMade {
    let lists = fixed(alloc, letters(alloc), 2, 2, There::Always);
    two(alloc, lists, bytes(alloc, &[7, 8]))
}

// An array.
fn made(alloc: Global, which: Nested) -> Made {
    match which {
        Nested::Views => viewed(alloc, There::Always),
        Nested::SomeViews => viewed(alloc, There::Bits(0b10)),
        Nested::Lists => parted(alloc),
        Nested::NoBytes => fixed(alloc, bytes(alloc, &[]), 0, 5, There::Always),
        Nested::Large => fixed(alloc, nulls(alloc, 10_000), 10_000, 1, There::Always),
        Nested::Map => mapped(alloc),
        Nested::Empty => structs(alloc, &[], none(alloc), none(alloc), 7, There::Always),
        Nested::Pairs => pairs(alloc),
        Nested::Unions => united(alloc),
        Nested::Letters => letters(alloc),
        Nested::All => structs(
            alloc,
            &["a", "b"],
            both(alloc),
            both(alloc),
            2,
            There::Always,
        ),
    }
}

const VIEWS: &str = "vortex.listview len=2 buffers=[]
  vortex.primitive len=3 buffers=[12]
  vortex.primitive len=2 buffers=[2]
  vortex.primitive len=2 buffers=[2]
0: [2, 3]
1: [1]
";

const SOME_VIEWS: &str = "vortex.listview len=2 buffers=[]
  vortex.primitive len=3 buffers=[12]
  vortex.primitive len=2 buffers=[2]
  vortex.primitive len=2 buffers=[2]
  vortex.bool len=2 buffers=[1]
0: null
1: [1]
";

const LISTS: &str = "vortex.list len=3 buffers=[]
  vortex.primitive len=3 buffers=[6]
  vortex.primitive len=4 buffers=[16]
0: [260, 261]
1: []
2: [262]
";

const NO_BYTES: &str = "vortex.fixed_size_list len=5 buffers=[]
  vortex.primitive len=0 buffers=[0]
0: []
1: []
2: []
3: []
4: []
";

const LARGE: &str = "vortex.fixed_size_list len=1 buffers=[]
  vortex.null len=10000 buffers=[]
0: (large)
";

const MAP: &str = "vortex.map len=1 buffers=[]
  vortex.listview len=1 buffers=[]
    vortex.struct len=1 buffers=[]
      vortex.primitive len=1 buffers=[4]
      vortex.varbin len=1 buffers=[1]
        vortex.primitive len=2 buffers=[2]
    vortex.primitive len=1 buffers=[1]
    vortex.primitive len=1 buffers=[1]
0: {1=>x61}
";

const EMPTY: &str = "vortex.struct len=7 buffers=[]
0: {}
1: {}
2: {}
3: {}
4: {}
5: {}
6: {}
";

const PAIRS: &str = "vortex.fixed_size_list len=1 buffers=[]
  vortex.struct len=2 buffers=[]
    vortex.bool len=2 buffers=[1]
    vortex.primitive len=2 buffers=[2]
    vortex.varbin len=2 buffers=[2]
      vortex.primitive len=3 buffers=[3]
0: [{1, x61}, null]
";

const UNIONS: &str = "vortex.union len=4 buffers=[]
  vortex.primitive len=4 buffers=[4]
    vortex.bool len=4 buffers=[1]
  vortex.primitive len=4 buffers=[16]
  vortex.varbin len=4 buffers=[4]
    vortex.primitive len=5 buffers=[5]
  vortex.bool len=4 buffers=[1]
0: #0(1)
1: #5(x62)
2: #255(true)
3: null
";

const LETTERS: &str = "vortex.dict len=4 buffers=[]
  vortex.primitive len=4 buffers=[4]
    vortex.bool len=4 buffers=[1]
  vortex.varbin len=3 buffers=[3]
    vortex.primitive len=4 buffers=[4]
0: x78
1: x7a
2: null
3: x79
";

const ALL: &str = "vortex.struct len=2 buffers=[]
  vortex.fixed_size_list len=2 buffers=[]
    vortex.dict len=4 buffers=[]
      vortex.primitive len=4 buffers=[4]
        vortex.bool len=4 buffers=[1]
      vortex.varbin len=3 buffers=[3]
        vortex.primitive len=4 buffers=[4]
  vortex.primitive len=2 buffers=[2]
0: {[x78, x7a], 7}
1: {[null, x79], 8}
";

// A session of the shipped encodings, without readers of extensions.
fn shipped(alloc: Global) -> Result<VortexSession, WireError> {
    match ArraySession::default(alloc) {
        Ok(arrays) => Ok(VortexSession::new(arrays, ExtSession::new(alloc))),
        Err(_) => Err(WireError::OutOfMemory),
    }
}

// The same, in which nodes that nothing reads are written unchanged.
fn allowing(alloc: Global) -> Result<VortexSession, WireError> {
    let mut session = shipped(alloc)?;
    session.ext.allow_unknown();
    Ok(session)
}

/// The bytes of an array's blob, whose identifiers are taken into a context.
pub fn blob_of(
    alloc: Global,
    array: &Array,
    ctx: &mut ArrayContext,
) -> Result<ByteBuffer, WireError> {
    let session = allowing(alloc)?;
    let buffers = array.serialize(alloc, ctx, &session, &SerializeOptions::default())?;
    Ok(buffers.join(alloc)?)
}

/// A line for each identifier.
pub fn lines_of(alloc: Global, ids: &Ids) -> Result<String, AllocError> {
    let mut lines = String::new(alloc);
    for id in ids.as_slice() {
        lines.push_str(id.as_str())?;
        lines.push_str("\n")?;
    }
    Ok(lines)
}

// Whether the program writes a blob at a type and length again, under these identifiers and with this listing.
fn is_printed(alloc: Global, dtype: &DType, blob: &[u8], ids: &str, len: &str, text: &str) -> bool {
    let words = ["recode", "t", "b", len, "i", "o", "j"];
    match dtype.write_flatbuffer_bytes(alloc) {
        Ok(message) => {
            let dtype = message.as_slice();
            saves_the_same(alloc, &words, &Files { dtype, blob, ids }, text)
        }
        Err(_) => false,
    }
}

// The same under a list of identifiers.
fn is_printed_under(
    alloc: Global,
    dtype: &DType,
    blob: &[u8],
    ids: &Ids,
    len: &str,
    text: &str,
) -> bool {
    match lines_of(alloc, ids) {
        Ok(lines) => is_printed(alloc, dtype, blob, lines.as_str(), len, text),
        Err(_) => false,
    }
}

// The same under the identifiers of a context.
fn is_printed_by(
    alloc: Global,
    dtype: &DType,
    blob: &[u8],
    ctx: &ArrayContext,
    len: &str,
    text: &str,
) -> bool {
    match ctx.to_ids(alloc) {
        Ok(ids) => is_printed_under(alloc, dtype, blob, &ids, len, text),
        Err(_) => false,
    }
}

// Whether the program writes an array's blob again at this length, with this listing.
fn is_listed(alloc: Global, array: &Array, len: &str, text: &str) -> bool {
    let mut ctx = ArrayContext::empty(alloc);
    match blob_of(alloc, array, &mut ctx) {
        Ok(blob) => is_printed_by(alloc, array.dtype(), blob.as_slice(), &ctx, len, text),
        Err(_) => false,
    }
}

// The same for an array, if it was made.
fn are_listed(alloc: Global, which: Nested, len: &str, text: &str) -> bool {
    match made(alloc, which) {
        Ok(array) => is_listed(alloc, &array, len, text),
        Err(_) => false,
    }
}

// Arrays, the number of their rows, and their listing.
const LISTED: [(Nested, &str, &str); 11] = [
    (Nested::Views, "2", VIEWS),
    (Nested::SomeViews, "2", SOME_VIEWS),
    (Nested::Lists, "3", LISTS),
    (Nested::NoBytes, "5", NO_BYTES),
    (Nested::Large, "1", LARGE),
    (Nested::Map, "1", MAP),
    (Nested::Empty, "7", EMPTY),
    (Nested::Pairs, "1", PAIRS),
    (Nested::Unions, "4", UNIONS),
    (Nested::Letters, "4", LETTERS),
    (Nested::All, "2", ALL),
];

#[test]
fn rows_of_rows_are_listed(rt: HostRuntime) {
    for (which, len, text) in &LISTED {
        assert!(rt; are_listed(rt.alloc(), *which, len, text), "{which:?}");
    }
}
