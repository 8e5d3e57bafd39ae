//! The program over a store in memory: how a test runs it, and what it expects of the end.

use std::alloc::Global;
use vx_types::{Name, TypeError};
use vxcat_core::run;
use vxcat_store::{MemSink, MemStore, Store, StoreError};

/// The words of `recode` on the three files, at four rows.
pub const WORDS: [&str; 7] = ["recode", "t", "b", "4", "i", "o", "j"];

/// A type file, a blob and a file of identifiers.
#[derive(Clone, Copy)]
pub struct Files<'a> {
    pub dtype: &'a [u8],
    pub blob: &'a [u8],
    pub ids: &'a str,
}

// The words as names of files.
fn names(alloc: Global, words: &[&str]) -> Result<Vec<Name>, TypeError> {
    let mut names = Vec::new(alloc);
    for word in words {
        names.push(Name::new(alloc, word)?)?;
    }
    Ok(names)
}

// Puts the type file and the blob into a store.
fn insert_two(alloc: Global, store: &mut MemStore, files: &Files<'_>) -> Result<(), StoreError> {
    store.insert(alloc, "t", files.dtype)?;
    store.insert(alloc, "b", files.blob)
}

/// A store of these files: the type `t`, the blob `b`, the identifiers `i`.
pub fn store_of(alloc: Global, files: &Files<'_>) -> Result<MemStore, StoreError> {
    let mut store = MemStore::new(alloc);
    insert_two(alloc, &mut store, files)?;
    store.insert(alloc, "i", files.ids.as_bytes())?;
    Ok(store)
}

/// A store of one file, `f`.
pub fn store_of_one(alloc: Global, bytes: &[u8]) -> Result<MemStore, StoreError> {
    let mut store = MemStore::new(alloc);
    store.insert(alloc, "f", bytes)?;
    Ok(store)
}

/// Whether these bytes stand at a name.
pub fn holds(store: &MemStore, name: &str, bytes: &[u8]) -> bool {
    match store.get(name) {
        Some(found) => found == bytes,
        None => false,
    }
}

/// Whether the program ends with this status on these words.
pub fn ends<S: Store>(
    alloc: Global,
    words: &[&str],
    store: &mut S,
    out: &mut MemSink,
    status: u8,
) -> bool {
    match names(alloc, words) {
        Ok(words) => run(alloc, &words, store, out) == status,
        Err(_) => false,
    }
}

/// Whether the program ends with this status on these words, and prints this.
pub fn prints<S: Store>(
    alloc: Global,
    words: &[&str],
    store: &mut S,
    status: u8,
    text: &str,
) -> bool {
    let mut out = MemSink::new(alloc);
    ends(alloc, words, store, &mut out, status) && out.text() == text.as_bytes()
}

/// Whether these words on these files save this blob with these identifiers, and print this.
pub fn saves(
    alloc: Global,
    words: &[&str],
    files: &Files<'_>,
    saved: (&[u8], &str),
    text: &str,
) -> bool {
    match store_of(alloc, files) {
        Ok(mut store) => {
            prints(alloc, words, &mut store, 0, text)
                && holds(&store, "o", saved.0)
                && holds(&store, "j", saved.1.as_bytes())
        }
        Err(_) => false,
    }
}

/// Whether these words on these files write the blob again unchanged, and print this.
pub fn saves_the_same(alloc: Global, words: &[&str], files: &Files<'_>, text: &str) -> bool {
    saves(alloc, words, files, (files.blob, files.ids), text)
}

/// Whether the program ends with this status on these words and files, whatever it prints.
pub fn ends_on(alloc: Global, words: &[&str], files: &Files<'_>, status: u8) -> bool {
    let mut out = MemSink::new(alloc);
    match store_of(alloc, files) {
        Ok(mut store) => ends(alloc, words, &mut store, &mut out, status),
        Err(_) => false,
    }
}

/// Whether the words have this status on these files, with nothing saved and nothing printed.
pub fn refuses(alloc: Global, words: &[&str], files: &Files<'_>, status: u8) -> bool {
    match store_of(alloc, files) {
        Ok(mut store) => {
            prints(alloc, words, &mut store, status, "")
                && store.get("o").is_none()
                && store.get("j").is_none()
        }
        Err(_) => false,
    }
}

/// A blob with other bytes at some places.
pub fn with_bytes(
    alloc: Global,
    blob: &[u8],
    changes: &[(usize, u8)],
) -> Result<Vec<u8>, std::alloc::AllocError> {
    let mut blob = Vec::from_slice(alloc, blob)?;
    for (place, byte) in changes {
        if let Some(old) = blob.get_mut(*place) {
            *old = *byte;
        }
    }
    Ok(blob)
}

/// The same refusal for a blob with other bytes at some places.
pub fn refuses_changed(
    alloc: Global,
    words: &[&str],
    files: &Files<'_>,
    changes: &[(usize, u8)],
    status: u8,
) -> bool {
    match with_bytes(alloc, files.blob, changes) {
        Ok(blob) => {
            let files = Files {
                dtype: files.dtype,
                blob: blob.as_slice(),
                ids: files.ids,
            };
            refuses(alloc, words, &files, status)
        }
        Err(_) => false,
    }
}
