//! The command `make`: what it saves and prints, and how it ends.

use crate::program::{ends, holds, prints};
use std::alloc::Global;
use vxcat_store::{MemSink, MemStore, StoreError};

const ONE_ROW: [&str; 6] = ["make", "0", "1", "t", "b", "i"];

const ONE_LINE: &str = "rows=1 nodes=9 buffers=7 data=121\n";

const IDS: &str = "vortex.struct
vortex.primitive
vortex.bool
vortex.dict
vortex.varbinview
vortex.list
";

// The table of one row, as it is listed.
const LISTING: &str = "vortex.struct len=1 buffers=[]
  vortex.primitive len=1 buffers=[8]
    vortex.bool len=1 buffers=[1]
  vortex.dict len=1 buffers=[]
    vortex.primitive len=1 buffers=[1]
    vortex.varbinview len=5 buffers=[21, 80]
  vortex.list len=1 buffers=[]
    vortex.primitive len=1 buffers=[2]
    vortex.primitive len=2 buffers=[8]
0: {-905790017, x61206c6f6e67206e616d65206f6620612074726565, [3444]}
";

// Whether the same stands at two names.
fn are_same(store: &MemStore, other: &MemStore, name: &str, as_name: &str) -> bool {
    match store.get(name) {
        Some(bytes) => holds(other, as_name, bytes),
        None => false,
    }
}

// Whether a table of one row is made, and its blob is read and written again unchanged.
fn is_made(alloc: Global) -> bool {
    let mut store = MemStore::new(alloc);
    prints(alloc, &ONE_ROW, &mut store, 0, ONE_LINE)
        && holds(&store, "i", IDS.as_bytes())
        && prints(
            alloc,
            &["recode", "t", "b", "1", "i", "o", "j"],
            &mut store,
            0,
            LISTING,
        )
        && are_same(&store, &store, "b", "o")
        && are_same(&store, &store, "i", "j")
}

#[test]
fn a_table_is_made(rt: HostRuntime) {
    assert!(rt; is_made(rt.alloc()));
}

const MANY_ROWS: [&str; 6] = ["make", "7", "100000", "t", "b", "i"];

// Whether the program ends well on the words, over an empty store; its text and its store are left.
fn made(alloc: Global, store: &mut MemStore, out: &mut MemSink) -> bool {
    ends(alloc, &MANY_ROWS, store, out, 0)
}

// Whether the same words make the same files and print the same line.
fn is_the_same_again(alloc: Global) -> bool {
    let (mut first, mut second) = (MemStore::new(alloc), MemStore::new(alloc));
    let (mut line, mut other) = (MemSink::new(alloc), MemSink::new(alloc));
    made(alloc, &mut first, &mut line)
        && made(alloc, &mut second, &mut other)
        && line.text() == other.text()
        && are_same(&first, &second, "t", "t")
        && are_same(&first, &second, "b", "b")
        && are_same(&first, &second, "i", "i")
}

#[test]
fn the_same_words_make_the_same_files(rt: HostRuntime) {
    assert!(rt; is_the_same_again(rt.alloc()));
}

// Words, the status, and what is printed.
const WORDS: [(&[&str], u8, &str); 10] = [
    (
        &["make", "0", "0", "t", "b", "i"],
        0,
        "rows=0 nodes=9 buffers=7 data=105\n",
    ),
    (&["make", "0", "1000001", "t", "b", "i"], 2, ""),
    (&["make", "0", "1", "t", "t", "i"], 2, ""),
    (&["make", "0", "1", "t", "b", "t"], 2, ""),
    (&["make", "0", "1", "t", "b", "b"], 2, ""),
    (&["make", "00", "1", "t", "b", "i"], 2, ""),
    (&["make", "0", "01", "t", "b", "i"], 2, ""),
    (&["make", "18446744073709551616", "1", "t", "b", "i"], 2, ""),
    (&["make", "0", "1", "t", "b"], 2, ""),
    (&["make", "0", "1", "t", "b", "i", "j"], 2, ""),
];

// Whether the program prints this on the words, over an empty store.
fn are_judged(alloc: Global, words: &[&str], status: u8, text: &str) -> bool {
    let mut store = MemStore::new(alloc);
    prints(alloc, words, &mut store, status, text)
}

#[test]
fn words_of_make_are_judged(rt: HostRuntime) {
    for (words, status, text) in &WORDS {
        assert!(rt; are_judged(rt.alloc(), words, *status, text), "{words:?}");
    }
}

// The call of the store that fails, the status, and whether the type, the blob and the identifiers are saved.
const CALLS: [(u64, u8, bool, bool, bool); 4] = [
    (1, 4, false, false, false),
    (2, 4, true, false, false),
    (3, 4, true, true, false),
    (4, 0, true, true, true),
];

// Whether the program ends as the row says, and prints only at status 0.
fn fails(alloc: Global, row: &(u64, u8, bool, bool, bool)) -> Result<bool, StoreError> {
    let mut store = MemStore::new(alloc);
    store.fail_call(row.0)?;
    let text = if row.1 == 0 { ONE_LINE } else { "" };
    Ok(
        prints(alloc, &ONE_ROW, &mut store, row.1, text)
            && store.get("t").is_some() == row.2
            && store.get("b").is_some() == row.3
            && store.get("i").is_some() == row.4,
    )
}

// Whether all is saved where the line is cut after seven bytes.
fn is_cut(alloc: Global) -> bool {
    let mut store = MemStore::new(alloc);
    let mut out = MemSink::failing(alloc, 2).taking(7);
    ends(alloc, &ONE_ROW, &mut store, &mut out, 5)
        && out.text() == b"rows=1 ".as_slice()
        && store.get("t").is_some()
        && store.get("b").is_some()
        && holds(&store, "i", IDS.as_bytes())
}

#[test]
fn faults_of_make_have_their_status(rt: HostRuntime) {
    for row in &CALLS {
        assert!(rt; fails(rt.alloc(), row) == Ok(true), "call {row:?}");
    }
    assert!(rt; is_cut(rt.alloc()));
}
