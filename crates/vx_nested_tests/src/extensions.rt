//! Tests of extensions.

use std::alloc::Global;
use vx_arrays::ArrayError;
use vx_test_arrays::parts::{Made, There, bytes, extensions, fixed, texts};
use vx_test_arrays::rows::{has_rows, has_slots, takes};

// Two numbers.
fn numbers(alloc: Global) -> Made {
    bytes(alloc, &[7, 8])
}

// Two texts, of which the second is null.
fn letters(alloc: Global) -> Made {
    texts(alloc, b"ab", There::Bits(0b01))
}

// Extensions that are stored as numbers.
fn stored(alloc: Global) -> Made {
    extensions(alloc, numbers(alloc), numbers(alloc))
}

#[test]
fn rows_are_the_storages(rt: HostRuntime) {
    let alloc = rt.alloc();
    assert!(rt; has_rows(alloc, stored(alloc), &["7", "8"]));
    let some = extensions(alloc, letters(alloc), letters(alloc));
    assert!(rt; has_rows(alloc, some, &["a", "null"]));
    let twice = extensions(alloc, stored(alloc), stored(alloc));
    assert!(rt; has_rows(alloc, twice, &["7", "8"]));
    let listed = fixed(alloc, stored(alloc), 2, 1, There::Always);
    assert!(rt; has_rows(alloc, listed, &["[7, 8]"]));
}

const UNFIT: Option<ArrayError> = Some(ArrayError::BadShape);

#[test]
fn the_storage_is_of_its_type(rt: HostRuntime) {
    let alloc = rt.alloc();
    assert!(rt; extensions(alloc, numbers(alloc), letters(alloc)).err() == UNFIT);
    assert!(rt; extensions(alloc, numbers(alloc), stored(alloc)).err() == UNFIT);
}

#[test]
fn a_row_takes_its_storages_cells(rt: HostRuntime) {
    let alloc = rt.alloc();
    assert!(rt; takes(alloc, stored(alloc), 1));
    assert!(rt; has_slots(alloc, stored(alloc), &["storage"]));
}
