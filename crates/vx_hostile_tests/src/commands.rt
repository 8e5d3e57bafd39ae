//! The commands of the program over stores and outputs of which one call fails, and over heavy blobs.

use crate::levels::levels;
use crate::program::{COMMANDS, Command, FILES, are_same_at, are_same_but, status_of, store_of};
use std::alloc::Global;
use vx_serde_tests::files::NULL_TYPE;
use vxcat_store::{MemSink, MemStore, StoreError};

// The status where this call of the store fails, counted from 1.
fn status_at(command: &Command<'_>, call: u64) -> u8 {
    let saves = command.saves.len() as u64;
    if call <= command.loads {
        3
    } else if call <= command.loads.saturating_add(saves) {
        4
    } else {
        0
    }
}

// The outputs that are saved by then.
fn saved_at<'a>(command: &Command<'a>, call: u64) -> &'a [&'a str] {
    let saved = call.saturating_sub(command.loads).saturating_sub(1) as usize;
    &command.saves[..saved.min(command.saves.len())]
}

// Whether the program saves and prints all over a store of which no call fails.
fn is_done(alloc: Global, command: &Command<'_>, store: &mut MemStore) -> bool {
    let mut out = MemSink::new(alloc);
    status_of(alloc, command.words, store, &mut out) == 0 && out.text() == command.text.as_bytes()
}

// Whether the program ends with this status over a store, and prints only at status 0.
fn ends(alloc: Global, command: &Command<'_>, store: &mut MemStore, status: u8) -> bool {
    let mut out = MemSink::new(alloc);
    let text = if status == 0 { command.text } else { "" };
    status_of(alloc, command.words, store, &mut out) == status && out.text() == text.as_bytes()
}

// Whether the program, where this call of the store fails, ends with its status, has saved the outputs before it in
// order, and leaves all else unchanged.
fn fails_at(alloc: Global, command: &Command<'_>, call: u64) -> Result<bool, StoreError> {
    let before = store_of(alloc, &FILES)?;
    let mut done = store_of(alloc, &FILES)?;
    let mut store = store_of(alloc, &FILES)?;
    store.fail_call(call)?;
    let saved = saved_at(command, call);
    Ok(
        is_done(alloc, command, &mut done)
            && ends(alloc, command, &mut store, status_at(command, call))
            && are_same_at(&store, &done, saved)
            && are_same_but(&store, &before, saved),
    )
}

// Whether that holds for each call, and for one past the last.
fn each_call_fails(alloc: Global, command: &Command<'_>) -> bool {
    let calls = command.loads.saturating_add(command.saves.len() as u64);
    for call in 1..=calls.saturating_add(1) {
        if fails_at(alloc, command, call) != Ok(true) {
            return false;
        }
    }
    true
}

#[test]
fn each_call_of_the_store_fails_in_turn(rt: HostRuntime) {
    for command in &COMMANDS {
        assert!(rt; each_call_fails(rt.alloc(), command), "{command:?}");
    }
}

// Whether the program, where the output fails after this many bytes, has saved its outputs, and has printed those
// bytes.
fn is_cut_at(
    alloc: Global,
    command: &Command<'_>,
    done: &MemStore,
    len: usize,
) -> Result<bool, StoreError> {
    let mut store = store_of(alloc, &FILES)?;
    let mut out = MemSink::failing(alloc, (len as u64).saturating_add(1)).taking(1);
    Ok(
        status_of(alloc, command.words, &mut store, &mut out) == 5
            && Some(out.text()) == command.text.as_bytes().get(..len)
            && are_same_but(&store, done, &[]),
    )
}

// Whether that holds after each fifth byte.
fn each_write_fails(alloc: Global, command: &Command<'_>) -> Result<bool, StoreError> {
    let mut done = store_of(alloc, &FILES)?;
    if !is_done(alloc, command, &mut done) {
        return Ok(false);
    }
    for fifth in 0..command.text.len() / 5 {
        if !is_cut_at(alloc, command, &done, fifth.saturating_mul(5))? {
            return Ok(false);
        }
    }
    Ok(true)
}

#[test]
fn the_output_fails_behind_each_fifth_byte(rt: HostRuntime) {
    for command in &COMMANDS {
        assert!(rt;
            each_write_fails(rt.alloc(), command) == Ok(true),
            "{command:?}"
        );
    }
}

const KEEPING: [&str; 10] = [
    "recode",
    "t",
    "b",
    "0",
    "i",
    "o",
    "j",
    "--unknown",
    "--rows",
    "0",
];

// Whether the program ends with this status on a blob of nodes that nothing reads, and saves only at status 0.
fn ends_on(alloc: Global, blob: &[u8], status: u8) -> Result<bool, StoreError> {
    let files: [(&str, &[u8]); 3] = [("t", &NULL_TYPE), ("b", blob), ("i", b"x.y\n")];
    let before = store_of(alloc, &files)?;
    let mut store = store_of(alloc, &files)?;
    let mut out = MemSink::new(alloc);
    let ended = status_of(alloc, &KEEPING, &mut store, &mut out) == status;
    if status == 0 {
        return Ok(ended && store.get("o").is_some() && store.get("j") == Some(b"x.y\n".as_slice()));
    }
    Ok(ended && out.text().is_empty() && are_same_but(&store, &before, &[]))
}

// The same for `count` levels of nodes that hold the next one twice.
fn ends_levels(alloc: Global, count: usize, len: u32, status: u8) -> Result<bool, StoreError> {
    let blob = levels(alloc, count, len)?;
    ends_on(alloc, blob.as_slice(), status)
}

// 2^18 - 1 nodes are written again.
#[test]
fn eighteen_levels_are_written(rt: HostRuntime) {
    assert!(rt; ends_levels(rt.alloc(), 18, 542, 0) == Ok(true));
}

// With 19 levels 1,048,575 tables would be written, and with 20 as many are read.
#[test]
fn nineteen_levels_are_not_written(rt: HostRuntime) {
    assert!(rt; ends_levels(rt.alloc(), 19, 572, 24) == Ok(true));
    assert!(rt; ends_levels(rt.alloc(), 20, 602, 12) == Ok(true));
}
