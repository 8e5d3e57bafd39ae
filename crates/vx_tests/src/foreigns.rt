//! The program, run on nodes of identifiers that nothing reads, and on extensions without readers.

use crate::flag_files::{NULLABLE_BLOB, NULLABLE_TYPE};
use crate::integers::files;
use crate::nested::{blob_of, mapped};
use crate::program::{
    Files, WORDS, ends_on, refuses, refuses_changed, saves, saves_the_same, with_bytes,
};
use std::alloc::{AllocError, Global};
use vx_arrays::{Array, ArrayError, PrimitiveArray};
use vx_buffer::{BufferHandle, ByteBuffer};
use vx_registry::ArrayContext;
use vx_serde::{SerializedArray, WireError};
use vx_serde_tests::files::{
    BLOB, CHAIN_FRONT, CHAIN_LAST, CHAIN_LEVEL, EXTENSION_TYPE, IDS, NULL_TYPE, PADDED_BLOB, TYPE,
};
use vx_test_arrays::parts::{
    Made, There, both, bytes, dicts, extensions, flags, lists, nulls, structs, two, unions, views,
};
use vx_type_wire::DTypeExt;
use vx_types::{DType, Ids, Nullability, PType};

/// The words of `recode` at four rows, where what is unknown is allowed.
const ALLOWING: [&str; 8] = ["recode", "t", "b", "4", "i", "o", "j", "--unknown"];

// The blob of a node of the metadata aa, without buffers, over the node of 1, 2, 3, 4.
const ROOT_BLOB: [u8; 240] = [
    1, 0, 0, 0, 2, 0, 0, 0, 3, 0, 0, 0, 4, 0, 0, 0, 16, 0, 0, 0, 0, 0, 0, 0, 8, 0, 12, 0, 4, 0, 8,
    0, 8, 0, 0, 0, 28, 0, 0, 0, 184, 0, 0, 0, 0, 0, 0, 0, 14, 0, 20, 0, 0, 0, 4, 0, 8, 0, 12, 0,
    16, 0, 0, 0, 16, 0, 0, 0, 20, 0, 0, 0, 24, 0, 0, 0, 132, 0, 0, 0, 136, 0, 0, 0, 0, 0, 0, 0, 1,
    0, 0, 0, 170, 0, 0, 0, 1, 0, 0, 0, 20, 0, 0, 0, 14, 0, 24, 0, 4, 0, 8, 0, 12, 0, 16, 0, 20, 0,
    0, 0, 16, 0, 0, 0, 1, 0, 0, 0, 16, 0, 0, 0, 20, 0, 0, 0, 24, 0, 0, 0, 60, 0, 0, 0, 0, 0, 0, 0,
    0, 0, 0, 0, 0, 0, 0, 0, 0, 0, 0, 0, 1, 0, 0, 0, 0, 0, 0, 0, 26, 0, 4, 0, 0, 0, 0, 0, 0, 0, 0,
    0, 0, 0, 0, 0, 0, 0, 0, 0, 0, 0, 0, 0, 0, 0, 0, 0, 0, 0, 0, 0, 32, 0, 0, 0, 0, 0, 0, 0, 0, 0,
    0, 0, 0, 0, 0, 0, 48, 0, 0, 0, 0, 0, 0, 0, 1, 0, 0, 0, 0, 0, 2, 0, 16, 0, 0, 0, 220, 0, 0, 0,
];

// That blob at the type of the numbers.
fn rooted(ids: &str) -> Files<'_> {
    Files {
        dtype: &TYPE,
        blob: &ROOT_BLOB,
        ids,
    }
}

const OVER_NUMBERS: &str = "x.y len=4 buffers=[]
  vortex.primitive len=4 buffers=[16]
0: ?
1: ?
2: ?
3: ?
";

const OVER_NULLS: &str = "x.y len=4 buffers=[]
  vortex.null len=4 buffers=[16]
0: ?
1: ?
2: ?
3: ?
";

const OVER_UNKNOWN: &str = "x.y len=4 buffers=[]
  x.z len=4 buffers=[16]
0: ?
1: ?
2: ?
3: ?
";

// The identifiers of the root and of the node below it, and the listing: below a foreign node identifiers are free.
const ROOTS: [(&str, &str); 3] = [
    ("x.y\nvortex.primitive\n", OVER_NUMBERS),
    ("x.y\nvortex.null\n", OVER_NULLS),
    ("x.y\nx.z\n", OVER_UNKNOWN),
];

#[test]
fn an_unknown_root_is_kept_whole(rt: HostRuntime) {
    for (ids, text) in &ROOTS {
        assert!(rt;
            saves_the_same(rt.alloc(), &ALLOWING, &rooted(ids), text),
            "{ids}"
        );
        assert!(rt; refuses(rt.alloc(), &WORDS, &rooted(ids), 17), "{ids}");
    }
}

// Numbers that may be null, with a validity under an identifier that nothing reads.
fn with_unknown_validity() -> Files<'static> {
    Files {
        dtype: &NULLABLE_TYPE,
        blob: &NULLABLE_BLOB,
        ids: "vortex.primitive\nx.y\n",
    }
}

#[test]
fn an_unknown_validity_is_refused(rt: HostRuntime) {
    assert!(rt; refuses(rt.alloc(), &ALLOWING, &with_unknown_validity(), 21));
    assert!(rt; refuses(rt.alloc(), &WORDS, &with_unknown_validity(), 17));
}

const AMONG_OTHERS: [&str; 12] = [
    "recode",
    "t",
    "b",
    "4",
    "i",
    "o",
    "j",
    "--rows",
    "1",
    "--unknown",
    "--pad",
    "3",
];

const OF_THAT_NAME: [&str; 9] = [
    "recode",
    "t",
    "b",
    "4",
    "i",
    "o",
    "j",
    "--allow",
    "--unknown",
];

const FIRST_ROW: &str = "x.y len=4 buffers=[16]\n0: ?\n";

const FOUR_ROWS: &str = "x.y len=4 buffers=[16]\n0: ?\n1: ?\n2: ?\n3: ?\n";

// The option stands anywhere among the others, and after `--allow` it is the name of a file.
#[test]
fn the_option_stands_among_others(rt: HostRuntime) {
    let saved = (PADDED_BLOB.as_slice(), "x.y\n");
    assert!(rt; saves(rt.alloc(), &AMONG_OTHERS, &files("x.y"), saved, FIRST_ROW));
    assert!(rt; refuses(rt.alloc(), &OF_THAT_NAME, &files("x.y"), 3));
}

// The change that makes a least value of no bytes one of the statistics.
const ILL_FORMED: [(usize, u8); 1] = [(116, 4)];

// Whether the blob with these statistics is kept under an unknown identifier, and the statistics are dropped.
fn drops_statistics(alloc: Global) -> bool {
    match with_bytes(alloc, &BLOB, &ILL_FORMED) {
        Ok(blob) => {
            let files = Files {
                dtype: &TYPE,
                blob: blob.as_slice(),
                ids: "x.y\n",
            };
            saves(alloc, &ALLOWING, &files, (&BLOB, "x.y\n"), FOUR_ROWS)
        }
        Err(_) => false,
    }
}

#[test]
fn statistics_of_a_foreign_node_are_skipped(rt: HostRuntime) {
    assert!(rt; refuses_changed(rt.alloc(), &ALLOWING, &files(IDS), &ILL_FORMED, 22));
    assert!(rt; drops_statistics(rt.alloc()));
}

// The numbers at the type of an extension without a reader.
fn extended(ids: &str) -> Files<'_> {
    Files {
        dtype: &EXTENSION_TYPE,
        blob: &BLOB,
        ids,
    }
}

// The type is read: numbers have the wrong shape for it, and a foreign node may be of any type.
#[test]
fn an_unknown_extension_is_allowed(rt: HostRuntime) {
    assert!(rt; refuses(rt.alloc(), &WORDS, &extended("x.y\n"), 6));
    assert!(rt; refuses(rt.alloc(), &ALLOWING, &extended(IDS), 19));
    assert!(rt; saves_the_same(rt.alloc(), &ALLOWING, &extended("x.y\n"), FOUR_ROWS));
}

// The blob of a chain of `levels` nodes, without statistics, whose message has this length.
fn chain(alloc: Global, levels: usize, len: &[u8]) -> Result<Vec<u8>, AllocError> {
    let mut blob = Vec::from_slice(alloc, &CHAIN_FRONT)?;
    for _ in 1..levels {
        blob.extend_from_slice(&CHAIN_LEVEL)?;
    }
    blob.extend_from_slice(&CHAIN_LAST)?;
    blob.extend_from_slice(len)?;
    Ok(blob)
}

const NO_ROWS: [&str; 10] = [
    "recode",
    "t",
    "b",
    "4",
    "i",
    "o",
    "j",
    "--unknown",
    "--rows",
    "0",
];

// The same, where deep trees are allowed.
const NO_ROWS_DEEP: [&str; 11] = [
    "recode",
    "t",
    "b",
    "4",
    "i",
    "o",
    "j",
    "--unknown",
    "--rows",
    "0",
    "--deep",
];

// The refusal of opening the blob of a chain, deep or not, if it is refused.
fn unopened(
    alloc: Global,
    levels: usize,
    len: &[u8],
    deep: bool,
) -> Result<Option<WireError>, WireError> {
    let blob = ByteBuffer::from_vec(chain(alloc, levels, len)?)?;
    Ok(SerializedArray::try_from_buffer_to(alloc, blob, deep).err())
}

// Whether the program ends with this status on a chain of foreign nodes, deep or not.
fn ends_chain(alloc: Global, levels: usize, len: &[u8], deep: bool, status: u8) -> bool {
    let words: &[&str] = if deep { &NO_ROWS_DEEP } else { &NO_ROWS };
    match chain(alloc, levels, len) {
        Ok(blob) => {
            let files = Files {
                dtype: &NULL_TYPE,
                blob: blob.as_slice(),
                ids: "x.y\n",
            };
            ends_on(alloc, words, &files, status)
        }
        Err(_) => false,
    }
}

// The number of levels of a chain, the length of its message, whether deep trees are allowed, the refusal of opening
// its blob, and the status. With the message 64 or 128 tables may nest, and what is written has statistics, too.
const CHAINS: [(usize, [u8; 4], bool, Option<WireError>, u8); 7] = [
    (62, [82, 6, 0, 0], false, None, 0),
    (63, [108, 6, 0, 0], false, None, 24),
    (64, [134, 6, 0, 0], false, Some(WireError::TableLimit), 12),
    (63, [108, 6, 0, 0], true, None, 0),
    (126, [210, 12, 0, 0], true, None, 0),
    (127, [236, 12, 0, 0], true, None, 24),
    (128, [6, 13, 0, 0], true, Some(WireError::TableLimit), 12),
];

#[test]
fn chains_of_foreign_nodes_are_written_up_to_a_level(rt: HostRuntime) {
    let alloc = rt.alloc();
    for (levels, len, deep, refused, status) in &CHAINS {
        assert!(rt;
            unopened(alloc, *levels, len, *deep) == Ok(*refused),
            "{levels}"
        );
        assert!(rt; ends_chain(alloc, *levels, len, *deep, *status), "{levels}");
    }
}

// Arrays with one identifier that nothing reads.
#[derive(Clone, Copy, Debug)]
enum Outer {
    // Structures of a flag and a number.
    Struct,
    // Lists of a flag, split by offsets.
    Lists,
    // Lists of a boolean, with offsets, and with sizes by codes.
    Views,
    // Unions of a flag and a null.
    Unions,
    // Booleans by codes.
    Flags,
    // A map from 1 to a.
    Map,
    // Extensions that are stored as flags.
    Extensions,
    // Numbers under a validity by codes.
    Numbers,
}

// True and false.
fn pair(alloc: Global) -> Made {
    flags(alloc, 0b01, 2)
}

// The same by codes.
fn named(alloc: Global) -> Made {
    dicts(alloc, bytes(alloc, &[0, 1]), pair(alloc))
}

// Sizes of one, by codes.
fn sizes(alloc: Global) -> Made {
    dicts(alloc, bytes(alloc, &[0, 0]), bytes(alloc, &[1]))
}

// Structures of those flags and two numbers.
fn records(alloc: Global) -> Made {
    let types = two(alloc, pair(alloc), bytes(alloc, &[7, 8]));
    let columns = two(alloc, pair(alloc), bytes(alloc, &[7, 8]));
    structs(alloc, &["a", "b"], types, columns, 2, There::Always)
}

// Unions of a flag and a null.
fn united(alloc: Global) -> Made {
    let types = two(alloc, pair(alloc), nulls(alloc, 2));
    let members = two(alloc, pair(alloc), nulls(alloc, 2));
    unions(alloc, &[0, 5], types, bytes(alloc, &[0, 5]), members)
}

// Two bytes, as the values of numbers.
fn values(alloc: Global) -> Result<BufferHandle, ArrayError> {
    let buffer = ByteBuffer::copy_from(alloc, &[7, 8])?;
    Ok(BufferHandle::new_host(buffer))
}

// Numbers of which the first is there.
fn numbers(alloc: Global) -> Made {
    let (values, validity) = both(values(alloc), named(alloc))?;
    let there = Nullability::Nullable;
    PrimitiveArray::try_new(alloc, values, PType::U8, there, 2, Some(validity))
}

// An array.
fn made(alloc: Global, outer: Outer) -> Made {
    match outer {
        Outer::Struct => records(alloc),
        Outer::Lists => lists(alloc, pair(alloc), bytes(alloc, &[0, 1, 2]), There::Always),
        Outer::Views => views(
            alloc,
            pair(alloc),
            bytes(alloc, &[0, 1]),
            sizes(alloc),
            There::Always,
        ),
        Outer::Unions => united(alloc),
        Outer::Flags => named(alloc),
        Outer::Map => mapped(alloc),
        Outer::Extensions => extensions(alloc, pair(alloc), pair(alloc)),
        Outer::Numbers => numbers(alloc),
    }
}

const STRUCT: &str = "vortex.struct len=2 buffers=[]
  x.y len=2 buffers=[1]
  vortex.primitive len=2 buffers=[2]
0: {?, 7}
1: {?, 8}
";

const LISTS: &str = "vortex.list len=2 buffers=[]
  x.y len=2 buffers=[1]
  vortex.primitive len=3 buffers=[3]
0: [?]
1: [?]
";

const UNIONS: &str = "vortex.union len=2 buffers=[]
  vortex.primitive len=2 buffers=[2]
  x.y len=2 buffers=[1]
  vortex.null len=2 buffers=[]
0: #0(?)
1: #5(null)
";

const FLAGS: &str = "vortex.dict len=2 buffers=[]
  vortex.primitive len=2 buffers=[2]
  x.y len=2 buffers=[1]
0: ?
1: ?
";

// The nodes below a foreign one have its length.
const MAP: &str = "vortex.map len=1 buffers=[]
  vortex.listview len=1 buffers=[]
    x.y len=1 buffers=[]
      vortex.primitive len=1 buffers=[4]
      vortex.varbin len=1 buffers=[1]
        vortex.primitive len=1 buffers=[2]
    vortex.primitive len=1 buffers=[1]
    vortex.primitive len=1 buffers=[1]
0: {?}
";

const EXTENSIONS: &str = "vortex.ext len=2 buffers=[]
  x.y len=2 buffers=[1]
0: ?
1: ?
";

// An array, the identifier that is replaced by one that nothing reads, the number of rows, and their listing; none
// where the identifier is that of a node that says where the rows are.
const PLACES: [(Outer, &str, &str, Option<&str>); 14] = [
    (Outer::Struct, "vortex.bool", "2", Some(STRUCT)),
    (Outer::Lists, "vortex.bool", "2", Some(LISTS)),
    (Outer::Unions, "vortex.bool", "2", Some(UNIONS)),
    (Outer::Flags, "vortex.bool", "2", Some(FLAGS)),
    (Outer::Map, "vortex.struct", "1", Some(MAP)),
    (Outer::Extensions, "vortex.bool", "2", Some(EXTENSIONS)),
    (Outer::Lists, "vortex.primitive", "2", None),
    (Outer::Views, "vortex.primitive", "2", None),
    (Outer::Views, "vortex.dict", "2", None),
    (Outer::Unions, "vortex.primitive", "2", None),
    (Outer::Flags, "vortex.primitive", "2", None),
    (Outer::Map, "vortex.listview", "1", None),
    (Outer::Numbers, "vortex.dict", "2", None),
    (Outer::Numbers, "vortex.bool", "2", None),
];

// The identifier, or x.y in place of that one.
fn renamed<'a>(id: &'a str, unread: &str) -> &'a str {
    if id == unread { "x.y" } else { id }
}

// A line for each identifier, with x.y in place of one.
fn lines_without(alloc: Global, ids: &Ids, unread: &str) -> Result<String, AllocError> {
    let mut lines = String::new(alloc);
    for id in ids.as_slice() {
        lines.push_str(renamed(id.as_str(), unread))?;
        lines.push_str("\n")?;
    }
    Ok(lines)
}

// Whether the program keeps a blob at a type unchanged, under these identifiers and with this listing, or refuses it.
fn is_kept(
    alloc: Global,
    dtype: &DType,
    blob: &[u8],
    ids: &str,
    row: &(Outer, &str, &str, Option<&str>),
) -> bool {
    let words = ["recode", "t", "b", row.2, "i", "o", "j", "--unknown"];
    match dtype.write_flatbuffer_bytes(alloc) {
        Ok(message) => {
            let dtype = message.as_slice();
            let files = Files { dtype, blob, ids };
            match row.3 {
                Some(text) => saves_the_same(alloc, &words, &files, text),
                None => refuses(alloc, &words, &files, 21),
            }
        }
        Err(_) => false,
    }
}

// The same under a list of identifiers, one of which nothing reads.
fn is_kept_under(
    alloc: Global,
    dtype: &DType,
    blob: &[u8],
    ids: &Ids,
    row: &(Outer, &str, &str, Option<&str>),
) -> bool {
    match lines_without(alloc, ids, row.1) {
        Ok(lines) => is_kept(alloc, dtype, blob, lines.as_str(), row),
        Err(_) => false,
    }
}

// The same under the identifiers of a context.
fn is_kept_by(
    alloc: Global,
    dtype: &DType,
    blob: &[u8],
    ctx: &ArrayContext,
    row: &(Outer, &str, &str, Option<&str>),
) -> bool {
    match ctx.to_ids(alloc) {
        Ok(ids) => is_kept_under(alloc, dtype, blob, &ids, row),
        Err(_) => false,
    }
}

// The same for an array's blob.
fn is_kept_of(alloc: Global, array: &Array, row: &(Outer, &str, &str, Option<&str>)) -> bool {
    let mut ctx = ArrayContext::empty(alloc);
    match blob_of(alloc, array, &mut ctx) {
        Ok(blob) => is_kept_by(alloc, array.dtype(), blob.as_slice(), &ctx, row),
        Err(_) => false,
    }
}

// The same for an array, if it was made.
fn are_kept(alloc: Global, row: &(Outer, &str, &str, Option<&str>)) -> bool {
    match made(alloc, row.0) {
        Ok(array) => is_kept_of(alloc, &array, row),
        Err(_) => false,
    }
}

#[test]
fn foreign_nodes_stand_where_no_rows_go_by_them(rt: HostRuntime) {
    for row in &PLACES {
        assert!(rt; are_kept(rt.alloc(), row), "{row:?}");
    }
}
