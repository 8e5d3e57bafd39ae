//! The program over files in memory, and its commands.

use std::alloc::Global;
use vx_serde_tests::files::{BLOB, TYPE};
use vx_types::{Name, TypeError};
use vxcat_core::run;
use vxcat_store::{MemSink, MemStore, Store, StoreError};

/// The files of a store: the worked type, blob and identifiers, the allowed identifiers, and an expression.
pub(crate) const FILES: [(&str, &[u8]); 5] = [
    ("t", &TYPE),
    ("b", &BLOB),
    ("i", b"vortex.primitive\n"),
    ("f", b"vortex.primitive\n"),
    ("e", b"\x0a\x0bvortex.root\x1a\x00"),
];

/// A command: its words, the number of files that it loads, those that it saves, in order, and what it prints.
#[derive(Debug)]
pub(crate) struct Command<'a> {
    pub words: &'a [&'a str],
    pub loads: u64,
    pub saves: &'a [&'a str],
    pub text: &'a str,
}

const LISTING: &str = "vortex.primitive len=4 buffers=[16]\n0: 1\n1: 2\n2: 3\n3: 4\n";

/// The commands over those files.
pub(crate) const COMMANDS: [Command<'static>; 7] = [
    Command {
        words: &["recode", "t", "b", "4", "i", "o", "j"],
        loads: 3,
        saves: &["o", "j"],
        text: LISTING,
    },
    Command {
        words: &["recode", "t", "b", "4", "i", "o", "j", "--allow", "f"],
        loads: 4,
        saves: &["o", "j"],
        text: LISTING,
    },
    Command {
        words: &[
            "recode",
            "t",
            "b",
            "4",
            "i",
            "o",
            "j",
            "--unknown",
            "--pad",
            "3",
            "--rows",
            "0",
        ],
        loads: 3,
        saves: &["o", "j"],
        text: "vortex.primitive len=4 buffers=[16]\n",
    },
    Command {
        words: &["recode", "t", "b", "4", "i", "b", "t"],
        loads: 3,
        saves: &["b", "t"],
        text: LISTING,
    },
    Command {
        words: &["expr", "e"],
        loads: 1,
        saves: &[],
        text: "root\n0a0b766f727465782e726f6f741a00\n",
    },
    Command {
        words: &["make", "0", "0", "t", "b", "i"],
        loads: 0,
        saves: &["t", "b", "i"],
        text: "rows=0 nodes=9 buffers=7 data=105\n",
    },
    Command {
        words: &["make", "0", "1", "o", "j", "p"],
        loads: 0,
        saves: &["o", "j", "p"],
        text: "rows=1 nodes=9 buffers=7 data=121\n",
    },
];

/// A store of some files.
pub(crate) fn store_of(alloc: Global, files: &[(&str, &[u8])]) -> Result<MemStore, StoreError> {
    let mut store = MemStore::new(alloc);
    for (name, bytes) in files {
        store.insert(alloc, name, bytes)?;
    }
    Ok(store)
}

// Words as names of files.
fn names(alloc: Global, words: &[&str]) -> Result<Vec<Name>, TypeError> {
    let mut names = Vec::new(alloc);
    for word in words {
        names.push(Name::new(alloc, word)?)?;
    }
    Ok(names)
}

/// The status with which the program ends on these words; 1 where allocation fails for them.
pub(crate) fn status_of<S: Store>(
    alloc: Global,
    words: &[&str],
    store: &mut S,
    out: &mut MemSink,
) -> u8 {
    match names(alloc, words) {
        Ok(words) => run(alloc, &words, store, out),
        Err(_) => 1,
    }
}

// Whether a name is among others.
fn is_among(names: &[&str], name: &str) -> bool {
    for other in names {
        if *other == name {
            return true;
        }
    }
    false
}

const NAMES: [&str; 8] = ["t", "b", "i", "f", "e", "o", "j", "p"];

/// Whether two stores hold the same at each name but some.
pub(crate) fn are_same_but(store: &MemStore, other: &MemStore, names: &[&str]) -> bool {
    for name in &NAMES {
        if !is_among(names, name) && store.get(name) != other.get(name) {
            return false;
        }
    }
    true
}

/// Whether two stores hold the same at these names.
pub(crate) fn are_same_at(store: &MemStore, other: &MemStore, names: &[&str]) -> bool {
    for name in names {
        if store.get(name) != other.get(name) {
            return false;
        }
    }
    true
}
