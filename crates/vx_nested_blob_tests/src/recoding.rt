//! Extensions whose types no reader knows, recoded.

use crate::wire::recoded;
use std::alloc::Global;
use vx_arrays::Array;
use vx_registry::ArrayContext;
use vx_test_arrays::parts::{Made, There, extensions, numbers};
use vx_test_arrays::rows::begins_with;
use vx_types::{Ids, PType};

// The numbers 1 to 4.
fn four(alloc: Global) -> Made {
    let bytes = b"\x01\0\0\0\x02\0\0\0\x03\0\0\0\x04\0\0\0";
    numbers(alloc, PType::I32, bytes, There::Always)
}

// Whether these are the identifiers, in this order.
fn are_ids(ids: &Ids, texts: &[&str]) -> bool {
    for i in 0..texts.len() {
        match ids.as_slice().get(i) {
            Some(id) => {
                if id.as_str() != texts[i] {
                    return false;
                }
            }
            None => return false,
        }
    }
    ids.len() == texts.len()
}

/// Whether a context has these identifiers, in this order, and no other.
pub(crate) fn has_ids(alloc: Global, ctx: &ArrayContext, texts: &[&str]) -> bool {
    match ctx.to_ids(alloc) {
        Ok(ids) => {
            let same = are_ids(&ids, texts);
            drop(ids);
            same
        }
        Err(_) => false,
    }
}

// Whether what is recoded of an array has these rows; a context takes the identifiers.
fn has_rows(alloc: Global, array: &Array, ctx: &mut ArrayContext, texts: &[&str]) -> bool {
    match recoded(alloc, array, ctx) {
        Ok(recoded) => {
            let has = begins_with(alloc, &recoded.array, texts);
            drop(recoded);
            has
        }
        Err(_) => false,
    }
}

// Whether an array is recoded with these rows and identifiers.
fn is_recoded(alloc: Global, array: &Array, rows: &[&str], ids: &[&str]) -> bool {
    let mut ctx = ArrayContext::empty(alloc);
    let same = has_rows(alloc, array, &mut ctx, rows) && has_ids(alloc, &ctx, ids);
    drop(ctx);
    same
}

// The same for an array, if it was made.
fn are_recoded(alloc: Global, array: Made, rows: &[&str], ids: &[&str]) -> bool {
    match array {
        Ok(array) => {
            let same = is_recoded(alloc, &array, rows, ids);
            drop(array);
            same
        }
        Err(_) => false,
    }
}

const ROWS: [&str; 4] = ["1", "2", "3", "4"];

const IDS: [&str; 2] = ["vortex.ext", "vortex.primitive"];

#[test]
fn the_type_in_hand_is_not_judged_by_readers(rt: HostRuntime) {
    let alloc = rt.alloc();
    let stored = extensions(alloc, four(alloc), four(alloc));
    assert!(rt; are_recoded(alloc, stored, &ROWS, &IDS));
}
