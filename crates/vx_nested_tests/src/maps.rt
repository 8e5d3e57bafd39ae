//! Tests of maps.

use std::alloc::Global;
use vx_arrays::ArrayError;
use vx_test_arrays::parts::{
    Made, There, bytes, dicts, fixed, lists, maps, one, structs, texts, two, views,
};
use vx_test_arrays::rows::{has_rows, has_slots, takes};

// Two keys.
fn keys(alloc: Global) -> Made {
    bytes(alloc, &[1, 2])
}

// Two values, of which the second is null.
fn values(alloc: Global) -> Made {
    texts(alloc, b"ab", There::Bits(0b01))
}

// Two structs of a key and a value, by these names.
fn entries(alloc: Global, names: &[&str], there: There) -> Made {
    let types = two(alloc, keys(alloc), values(alloc));
    let columns = two(alloc, keys(alloc), values(alloc));
    structs(alloc, names, types, columns, 2, there)
}

// Two entries.
fn pairs(alloc: Global) -> Made {
    entries(alloc, &["key", "value"], There::Always)
}

// Three lists of such structs.
fn viewed(alloc: Global, entries: Made, there: There) -> Made {
    let offsets = bytes(alloc, &[1, 0, 0]);
    views(alloc, entries, offsets, bytes(alloc, &[1, 2, 0]), there)
}

// Maps of keys to values, by their entries.
fn mapped(alloc: Global, entries: Made) -> Made {
    maps(alloc, keys(alloc), values(alloc), entries)
}

// Three maps.
fn three(alloc: Global, there: There) -> Made {
    mapped(alloc, viewed(alloc, pairs(alloc), there))
}

#[test]
fn rows_are_those_of_the_entries(rt: HostRuntime) {
    let alloc = rt.alloc();
    let always = three(alloc, There::Always);
    assert!(rt; has_rows(alloc, always, &["[[2, null]]", "[[1, a], [2, null]]", "[]"]));
    let some = three(alloc, There::Bits(0b110));
    assert!(rt; has_rows(alloc, some, &["null", "[[1, a], [2, null]]", "[]"]));
}

#[test]
fn maps_stand_in_lists(rt: HostRuntime) {
    let alloc = rt.alloc();
    let maps = fixed(alloc, three(alloc, There::Always), 3, 1, There::Always);
    assert!(rt; has_rows(alloc, maps, &["[[[2, null]], [[1, a], [2, null]], []]"]));
}

#[test]
fn a_row_takes_its_entries_cells_and_one(rt: HostRuntime) {
    let alloc = rt.alloc();
    assert!(rt; takes(alloc, three(alloc, There::Always), 4));
    assert!(rt; has_slots(alloc, three(alloc, There::Always), &["entries"]));
}

const UNFIT: Option<ArrayError> = Some(ArrayError::BadShape);

// Names of entries, and whether these may be null.
const OTHERS: [(&[&str], There); 3] = [
    (&["keys", "value"], There::Always),
    (&["value", "key"], There::Always),
    (&["key", "value"], There::All),
];

#[test]
fn entries_are_named_and_never_null(rt: HostRuntime) {
    let alloc = rt.alloc();
    for (names, there) in &OTHERS {
        let entries = viewed(alloc, entries(alloc, names, *there), There::Always);
        assert!(rt; mapped(alloc, entries).err() == UNFIT, "{names:?}");
    }
}

// Two structs of a key alone.
fn lone(alloc: Global) -> Made {
    let types = one(alloc, keys(alloc));
    structs(
        alloc,
        &["key"],
        types,
        one(alloc, keys(alloc)),
        2,
        There::Always,
    )
}

// Two structs of a value and a key.
fn crossed(alloc: Global) -> Made {
    let types = two(alloc, values(alloc), keys(alloc));
    let columns = two(alloc, values(alloc), keys(alloc));
    structs(alloc, &["key", "value"], types, columns, 2, There::Always)
}

#[test]
fn entries_are_structures_of_a_key_and_a_value(rt: HostRuntime) {
    let alloc = rt.alloc();
    let lone = viewed(alloc, lone(alloc), There::Always);
    assert!(rt; mapped(alloc, lone).err() == UNFIT);
    let crossed = viewed(alloc, crossed(alloc), There::Always);
    assert!(rt; mapped(alloc, crossed).err() == UNFIT);
}

#[test]
fn entries_are_lists_with_sizes_of_their_own(rt: HostRuntime) {
    let alloc = rt.alloc();
    let lists = lists(alloc, pairs(alloc), bytes(alloc, &[0, 1, 2]), There::Always);
    assert!(rt; mapped(alloc, lists).err() == UNFIT);
    let fixed = fixed(alloc, pairs(alloc), 1, 2, There::Always);
    assert!(rt; mapped(alloc, fixed).err() == UNFIT);
    let views = viewed(alloc, pairs(alloc), There::Always);
    let dict = dicts(alloc, keys(alloc), views);
    assert!(rt; mapped(alloc, dict).err() == UNFIT);
    assert!(rt; mapped(alloc, pairs(alloc)).err() == UNFIT);
}
