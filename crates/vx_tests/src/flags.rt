//! The program, run on booleans and on numbers of which some are null.

use crate::flag_files::{
    FLAG_BLOB, FLAG_TYPE, LAST_BITS_BLOB, NULLABLE_BLOB, NULLABLE_TYPE, PRESENT_FLAG_TYPE,
};
use crate::program::{Files, WORDS, refuses, refuses_changed, saves_the_same};
use std::alloc::Global;

const FLAG_IDS: &str = "vortex.bool\n";

const THREE_ROWS: [&str; 7] = ["recode", "t", "b", "3", "i", "o", "j"];

const FLAG_LISTING: &str =
    "vortex.bool len=4 buffers=[1]\n  vortex.bool len=4 buffers=[1]\n0: true\n1: null\n2: false\n3: null\n";

const NUMBER_LISTING: &str =
    "vortex.primitive len=4 buffers=[16]\n  vortex.bool len=4 buffers=[1]\n0: 1\n1: null\n2: 3\n3: null\n";

const LAST_BITS_LISTING: &str = "vortex.bool len=3 buffers=[1]\n0: true\n1: false\n2: true\n";

// A blob of booleans at a type.
fn flags<'a>(dtype: &'a [u8], blob: &'a [u8]) -> Files<'a> {
    Files {
        dtype,
        blob,
        ids: FLAG_IDS,
    }
}

// The blob of numbers of which some are null.
fn numbers() -> Files<'static> {
    Files {
        dtype: &NULLABLE_TYPE,
        blob: &NULLABLE_BLOB,
        ids: "vortex.primitive\nvortex.bool\n",
    }
}

// Whether four rows are written again, with this listing.
fn is_listed(alloc: Global, files: &Files<'_>, text: &str) -> bool {
    saves_the_same(alloc, &WORDS, files, text)
}

#[test]
fn rows_are_null_by_the_validity(rt: HostRuntime) {
    assert!(rt; is_listed(rt.alloc(), &flags(&FLAG_TYPE, &FLAG_BLOB), FLAG_LISTING));
    assert!(rt; is_listed(rt.alloc(), &numbers(), NUMBER_LISTING));
}

#[test]
fn bits_begin_at_the_offset(rt: HostRuntime) {
    let files = flags(&PRESENT_FLAG_TYPE, &LAST_BITS_BLOB);
    assert!(rt; saves_the_same(rt.alloc(), &THREE_ROWS, &files, LAST_BITS_LISTING));
}

#[test]
fn flags_are_judged(rt: HostRuntime) {
    let alloc = rt.alloc();
    assert!(rt;
        refuses(alloc, &WORDS, &flags(&PRESENT_FLAG_TYPE, &FLAG_BLOB), 19),
        "validity"
    );
    assert!(rt;
        refuses(alloc, &WORDS, &flags(&FLAG_TYPE, &LAST_BITS_BLOB), 19),
        "bits"
    );
    assert!(rt;
        refuses(alloc, &WORDS, &flags(&NULLABLE_TYPE, &FLAG_BLOB), 19),
        "kind"
    );
}

#[test]
fn an_offset_of_eight_is_refused(rt: HostRuntime) {
    let files = flags(&FLAG_TYPE, &LAST_BITS_BLOB);
    assert!(rt; refuses_changed(rt.alloc(), &THREE_ROWS, &files, &[(78, 8)], 18));
}
