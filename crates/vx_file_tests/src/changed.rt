//! The worked file, changed in a byte, cut, or with bytes behind it.

use crate::bytes::WORKED;
use crate::reading::{Unknown, unloaded};
use std::alloc::{AllocError, Global};
use vx_file::FileError;

// The worked file with another byte at a place.
fn changed(alloc: Global, place: usize, new: u8) -> Result<Vec<u8>, AllocError> {
    let mut file = Vec::from_slice(alloc, &WORKED)?;
    if let Some(byte) = file.get_mut(place) {
        *byte = new;
    }
    Ok(file)
}

// Why it is not loaded, if it is not.
fn refused(alloc: Global, place: usize, new: u8) -> Option<FileError> {
    match changed(alloc, place, new) {
        Ok(file) => unloaded(alloc, file.as_slice(), Unknown::Refused),
        Err(_) => Some(FileError::OutOfMemory),
    }
}

const NO_FILE: Option<FileError> = Some(FileError::NotAFile);

const BAD_TYPE: Option<FileError> = Some(FileError::BadType);

// A place, another byte at it, and why the file is not loaded then, if it is not. The places are of the words (0, 356), of
// the footer's length (349, 352), of the rows (176), of the columns' number (184), of the range's start (188, 195) and length
// (196), of the identifiers' number (204), of the identifier's length (208) and first letter (212), of the message's length
// (228), its root (232), its kind (252) and its last byte (348).
const BYTES: [(usize, u8, Option<FileError>); 24] = [
    (0, b'W', NO_FILE),
    (356, b'G', NO_FILE),
    (349, 172, NO_FILE),
    (349, 174, NO_FILE),
    (352, 1, NO_FILE),
    (176, 5, None),
    (184, 0, NO_FILE),
    (184, 2, NO_FILE),
    (188, 3, NO_FILE),
    (188, 5, NO_FILE),
    (195, 1, NO_FILE),
    (196, 173, NO_FILE),
    (196, 171, None),
    (204, 0, NO_FILE),
    (204, 2, NO_FILE),
    (208, 15, NO_FILE),
    (212, 255, NO_FILE),
    (212, b'w', None),
    (228, 116, NO_FILE),
    (228, 118, NO_FILE),
    (232, 200, BAD_TYPE),
    (252, 1, BAD_TYPE),
    (252, 14, BAD_TYPE),
    (348, 99, BAD_TYPE),
];

#[test]
fn each_part_of_the_footer_is_judged(rt: HostRuntime) {
    for (place, new, error) in &BYTES {
        assert!(rt;
            refused(rt.alloc(), *place, *new) == *error,
            "{new} at {place}"
        );
    }
}

// The worked file up to a place.
fn cut(place: usize) -> &'static [u8] {
    &WORKED[..place.min(357)]
}

// How many bytes of the worked file are no file.
const CUT: [usize; 7] = [0, 4, 11, 12, 176, 349, 356];

// Files of two words: with nothing between them, with a part of one for both, with a footer of no bytes, and with a footer
// that would have more bytes than there are.
const WORDS: [&[u8]; 4] = [
    b"VXCFVXCF",
    b"VXCF\0\0\0VXCF",
    b"VXCF\0\0\0\0VXCF",
    b"VXCF\x01\0\0\0VXCF",
];

#[test]
fn what_is_cut_is_no_file(rt: HostRuntime) {
    let alloc = rt.alloc();
    for place in &CUT {
        assert!(rt;
            unloaded(alloc, cut(*place), Unknown::Refused) == NO_FILE,
            "{place}"
        );
    }
    for word in &WORDS {
        assert!(rt;
            unloaded(alloc, word, Unknown::Refused) == NO_FILE,
            "{word:?}"
        );
    }
}

// The worked file with one byte more.
fn longer(alloc: Global) -> Result<Vec<u8>, AllocError> {
    let mut file = Vec::from_slice(alloc, &WORKED)?;
    file.push(0)?;
    Ok(file)
}

#[test]
fn nothing_stands_behind_the_word(rt: HostRuntime) {
    match longer(rt.alloc()) {
        Ok(file) => assert!(rt; unloaded(rt.alloc(), file.as_slice(), Unknown::Refused) == NO_FILE),
        Err(_) => assert!(rt; false),
    }
}
