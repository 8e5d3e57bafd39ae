//! The program, run on variants: a typed child over a core of which nothing is known.

use crate::nested::{blob_of, lines_of};
use crate::program::{Files, refuses, saves_the_same};
use std::alloc::Global;
use vx_arrays::Array;
use vx_registry::ArrayContext;
use vx_test_arrays::parts::{Made, There, extensions, lists, numbers, shredded, unknown_variants};
use vx_type_wire::DTypeExt;
use vx_types::{DType, Ids, PType};

// The words of `recode` at two rows.
const WORDS: [&str; 7] = ["recode", "t", "b", "2", "i", "o", "j"];

// The same, where what is unknown is allowed.
const ALLOWING: [&str; 8] = ["recode", "t", "b", "2", "i", "o", "j", "--unknown"];

// The numbers 1 and 2, of which the first is there.
fn counts(alloc: Global) -> Made {
    let bytes = [1, 0, 0, 0, 2, 0, 0, 0];
    numbers(alloc, PType::I32, &bytes, There::Bits(0b01))
}

// The lists of 1 and of a null.
fn parted(alloc: Global) -> Made {
    let offsets = numbers(alloc, PType::U8, &[0, 1, 2], There::Always);
    lists(alloc, counts(alloc), offsets, There::Always)
}

// The typed child.
#[derive(Clone, Copy, Debug)]
enum Typed {
    // There is none.
    None,
    Counts,
    Lists,
    // Extensions that no session knows.
    Extensions,
}

// Two variants of which nothing is known, under such a child.
fn made(alloc: Global, typed: Typed) -> Made {
    let over = match typed {
        Typed::None => None,
        Typed::Counts => Some(counts(alloc)),
        Typed::Lists => Some(parted(alloc)),
        Typed::Extensions => Some(extensions(alloc, counts(alloc), counts(alloc))),
    };
    shredded(alloc, unknown_variants(alloc, 2), over)
}

const BARE: &str = "vortex.variant len=2 buffers=[]
  x.core len=2 buffers=[]
0: ?
1: ?
";

const COUNTS: &str = "vortex.variant len=2 buffers=[]
  x.core len=2 buffers=[]
  vortex.primitive len=2 buffers=[8]
    vortex.bool len=2 buffers=[1]
0: v(1)
1: ?
";

const LISTS: &str = "vortex.variant len=2 buffers=[]
  x.core len=2 buffers=[]
  vortex.list len=2 buffers=[]
    vortex.primitive len=2 buffers=[8]
      vortex.bool len=2 buffers=[1]
    vortex.primitive len=3 buffers=[3]
0: v([v(1)])
1: v([v(null)])
";

const EXTENSIONS: &str = "vortex.variant len=2 buffers=[]
  x.core len=2 buffers=[]
  vortex.ext len=2 buffers=[]
    vortex.primitive len=2 buffers=[8]
      vortex.bool len=2 buffers=[1]
0: v(1)
1: ?
";

// A typed child, the listing of the variants, and the status where what is unknown is not allowed.
#[derive(Clone, Copy, Debug)]
struct Row {
    typed: Typed,
    text: &'static str,
    status: u8,
}

// The metadata is looked at before the identifier of the core.
const ROWS: [Row; 4] = [
    Row {
        typed: Typed::None,
        text: BARE,
        status: 17,
    },
    Row {
        typed: Typed::Counts,
        text: COUNTS,
        status: 17,
    },
    Row {
        typed: Typed::Lists,
        text: LISTS,
        status: 17,
    },
    Row {
        typed: Typed::Extensions,
        text: EXTENSIONS,
        status: 18,
    },
];

// Whether files are kept unchanged with this listing where what is unknown is allowed, and refused where it is not.
fn stay(alloc: Global, files: &Files<'_>, row: &Row) -> bool {
    saves_the_same(alloc, &ALLOWING, files, row.text) && refuses(alloc, &WORDS, files, row.status)
}

// The same for a blob at a type, under these identifiers.
fn is_kept(alloc: Global, dtype: &DType, blob: &[u8], ids: &str, row: &Row) -> bool {
    match dtype.write_flatbuffer_bytes(alloc) {
        Ok(message) => {
            let dtype = message.as_slice();
            stay(alloc, &Files { dtype, blob, ids }, row)
        }
        Err(_) => false,
    }
}

// The same under a list of identifiers.
fn is_kept_under(alloc: Global, dtype: &DType, blob: &[u8], ids: &Ids, row: &Row) -> bool {
    match lines_of(alloc, ids) {
        Ok(lines) => is_kept(alloc, dtype, blob, lines.as_str(), row),
        Err(_) => false,
    }
}

// The same under the identifiers of a context.
fn is_kept_by(alloc: Global, dtype: &DType, blob: &[u8], ctx: &ArrayContext, row: &Row) -> bool {
    match ctx.to_ids(alloc) {
        Ok(ids) => is_kept_under(alloc, dtype, blob, &ids, row),
        Err(_) => false,
    }
}

// The same for an array's blob.
fn is_kept_of(alloc: Global, array: &Array, row: &Row) -> bool {
    let mut ctx = ArrayContext::empty(alloc);
    match blob_of(alloc, array, &mut ctx) {
        Ok(blob) => is_kept_by(alloc, array.dtype(), blob.as_slice(), &ctx, row),
        Err(_) => false,
    }
}

// The same for an array, if it was made.
fn are_kept(alloc: Global, row: &Row) -> bool {
    match made(alloc, row.typed) {
        Ok(array) => is_kept_of(alloc, &array, row),
        Err(_) => false,
    }
}

#[test]
fn variants_over_an_unknown_core_are_kept(rt: HostRuntime) {
    for row in &ROWS {
        assert!(rt; are_kept(rt.alloc(), row), "{row:?}");
    }
}
