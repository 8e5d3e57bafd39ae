//! The program over stores and outputs that fail, and over real files.

use crate::integers::{LISTING, files};
use crate::program::{WORDS, ends, holds, prints, refuses, store_of};
use std::alloc::Global;
use vx_serde_tests::files::{BLOB, IDS, TYPE};
use vx_types::Name;
use vxcat_store::{DirStore, MemSink, MemStore, Store, StoreError};

const ALLOWING: [&str; 11] = [
    "recode", "t", "b", "4", "i", "o", "j", "--allow", "f", "--rows", "0",
];

// The worked files, and a file of allowed identifiers.
fn store_that_allows(alloc: Global, allowed: &str) -> Result<MemStore, StoreError> {
    let mut store = store_of(alloc, &files(IDS))?;
    store.insert(alloc, "f", allowed.as_bytes())?;
    Ok(store)
}

// The files after `--allow`, and the status.
const ALLOWED: [(&str, u8); 4] = [
    ("a\nvortex.primitive\na\n", 0),
    ("vortex.bool\n", 23),
    ("", 23),
    ("a\n\n", 7),
];

// Whether the program ends with this status, and saves both files or neither.
fn saves_both(alloc: Global, store: &mut MemStore, status: u8) -> bool {
    let mut out = MemSink::new(alloc);
    ends(alloc, &ALLOWING, store, &mut out, status)
        && holds(store, "o", &BLOB) == (status == 0)
        && holds(store, "j", IDS.as_bytes()) == (status == 0)
}

// The same with a file of allowed identifiers.
fn are_allowed(alloc: Global, allowed: &str, status: u8) -> bool {
    match store_that_allows(alloc, allowed) {
        Ok(mut store) => saves_both(alloc, &mut store, status),
        Err(_) => false,
    }
}

// Only identifiers of the file after `--allow` are allowed; the file is judged as the other files are.
#[test]
fn identifiers_are_allowed(rt: HostRuntime) {
    for (allowed, status) in &ALLOWED {
        assert!(rt; are_allowed(rt.alloc(), allowed, *status), "{allowed}");
    }
    assert!(rt; refuses(rt.alloc(), &ALLOWING, &files(IDS), 3));
}

// The call of the store that fails, the status, and whether the blob and the identifiers are saved.
const CALLS: [(u64, u8, bool, bool); 6] = [
    (1, 3, false, false),
    (2, 3, false, false),
    (3, 3, false, false),
    (4, 4, false, false),
    (5, 4, true, false),
    (6, 0, true, true),
];

// The same where the file of allowed identifiers is loaded, too.
const CALLS_ALLOWING: [(u64, u8, bool, bool); 7] = [
    (1, 3, false, false),
    (2, 3, false, false),
    (3, 3, false, false),
    (4, 3, false, false),
    (5, 4, false, false),
    (6, 4, true, false),
    (7, 0, true, true),
];

// Whether the program ends with this status over this store, has saved what the row says, and prints only at status 0.
fn leaves(
    alloc: Global,
    words: &[&str],
    store: &mut MemStore,
    row: &(u64, u8, bool, bool),
) -> bool {
    let mut out = MemSink::new(alloc);
    ends(alloc, words, store, &mut out, row.1)
        && store.get("o").is_some() == row.2
        && store.get("j").is_some() == row.3
        && (row.1 == 0 || out.text().is_empty())
}

// Whether the program ends as the row says, where that call of the store fails.
fn fails(alloc: Global, words: &[&str], row: &(u64, u8, bool, bool)) -> Result<bool, StoreError> {
    let mut store = store_that_allows(alloc, "vortex.primitive")?;
    store.fail_call(row.0)?;
    Ok(leaves(alloc, words, &mut store, row))
}

#[test]
fn each_fault_of_the_store_has_its_status(rt: HostRuntime) {
    for row in &CALLS {
        assert!(rt; fails(rt.alloc(), &WORDS, row) == Ok(true), "call {row:?}");
    }
    for row in &CALLS_ALLOWING {
        assert!(rt;
            fails(rt.alloc(), &ALLOWING, row) == Ok(true),
            "call {row:?}"
        );
    }
}

// Whether the program saves both files, ends with a fault of the output, and leaves this prefix of the listing.
fn is_cut(alloc: Global, store: &mut MemStore, out: &mut MemSink, prefix: &str) -> bool {
    ends(alloc, &WORDS, store, out, 5)
        && holds(store, "o", &BLOB)
        && holds(store, "j", IDS.as_bytes())
        && out.text() == prefix.as_bytes()
}

// The same over the worked files, with an output that fails at a write and takes at most `most` bytes by one.
fn is_cut_at(alloc: Global, write: u64, most: usize, prefix: &str) -> bool {
    let mut out = MemSink::failing(alloc, write);
    if most > 0 {
        out = out.taking(most);
    }
    match store_of(alloc, &files(IDS)) {
        Ok(mut store) => is_cut(alloc, &mut store, &mut out, prefix),
        Err(_) => false,
    }
}

// A write that fails in the middle leaves a prefix.
#[test]
fn each_fault_of_the_output_leaves_a_prefix(rt: HostRuntime) {
    assert!(rt; is_cut_at(rt.alloc(), 1, 0, ""));
    assert!(rt; is_cut_at(rt.alloc(), 3, 3, "vortex"));
    assert!(rt; is_cut_at(rt.alloc(), 4, 7, "vortex.primitive len="));
}

const REAL: [&str; 7] = [
    "recode", "t.table", "b.blob", "4", "i.ids", "o.blob", "j.ids",
];

// Whether real files have these bytes when they are loaded.
fn has(alloc: Global, store: &mut DirStore<'_, HostRuntime>, name: &str, bytes: &[u8]) -> bool {
    match Name::new(alloc, name) {
        Ok(name) => match store.load(alloc, &name) {
            Ok(loaded) => loaded.as_slice() == bytes,
            Err(_) => false,
        },
        Err(_) => false,
    }
}

// Whether the program over real files that are missing ends with a fault.
fn misses(alloc: Global, store: &mut DirStore<'_, HostRuntime>) -> bool {
    let mut out = MemSink::new(alloc);
    ends(alloc, &REAL, store, &mut out, 3)
}

// Whether bytes are saved under a name.
fn keeps(alloc: Global, store: &mut DirStore<'_, HostRuntime>, name: &str, bytes: &[u8]) -> bool {
    match Name::new(alloc, name) {
        Ok(name) => store.save(alloc, &name, bytes).is_ok(),
        Err(_) => false,
    }
}

// Whether the worked blob in real files is written again, and listed.
fn writes(alloc: Global, store: &mut DirStore<'_, HostRuntime>) -> bool {
    prints(alloc, &REAL, store, 0, LISTING)
        && has(alloc, store, "o.blob", &BLOB)
        && has(alloc, store, "j.ids", IDS.as_bytes())
}

#[test]
fn real_files_are_written_again(rt: HostRuntime) {
    let alloc = rt.alloc();
    let mut store = DirStore::new(alloc, &rt);
    assert!(rt; misses(alloc, &mut store));
    assert!(rt; keeps(alloc, &mut store, "t.table", &TYPE));
    assert!(rt; keeps(alloc, &mut store, "b.blob", &BLOB));
    assert!(rt; keeps(alloc, &mut store, "i.ids", IDS.as_bytes()));
    assert!(rt; writes(alloc, &mut store));
}
