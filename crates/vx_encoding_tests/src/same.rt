//! Tests of which arrays are equal, of their hashes, and of arrays with other buffers.

use crate::decimals::decimals;
use crate::statistics::{answered, told_of};
use crate::varbins::one_text;
use std::alloc::Global;
use std::hash::{FoldHasher, Hasher};
use vx_array_tests::parts::{Made, aligned_to, buffer_of, flags, numbers, some};
use vx_arrays::{Array, ArrayError, NullArray, PrimitiveArray, VarBinViewArray};
use vx_buffer::{BufferHandle, BufferHandles};
use vx_scalars::Stat;
use vx_test_arrays::parts::both;
use vx_types::{DType, DecimalType, Nullability, PType, PValue};

// The words 1, 2, 3, 4, of four bytes each.
const WORDS: [u8; 16] = [1, 0, 0, 0, 2, 0, 0, 0, 3, 0, 0, 0, 4, 0, 0, 0];

// The words 1, 2, 3, 5.
const OTHERS: [u8; 16] = [1, 0, 0, 0, 2, 0, 0, 0, 3, 0, 0, 0, 5, 0, 0, 0];

// The view of one letter.
const LETTER: [u8; 16] = [1, 0, 0, 0, b'a', 0, 0, 0, 0, 0, 0, 0, 0, 0, 0, 0];

// The view of 13 bytes of a first buffer.
const LONG: [u8; 16] = [13, 0, 0, 0, b'a', 0, 0, 0, 0, 0, 0, 0, 0, 0, 0, 0];

// Arrays that are compared.
#[derive(Clone, Copy, Debug)]
enum Sample {
    Words,
    AlignedWords,
    ToldWords,
    UnsignedWords,
    OtherWords,
    NullableWords(u8),
    Nulls(usize),
    Flags(usize),
    Decimals(DecimalType),
    Text,
    Views(usize),
}

// Four words that may be null, with the validity of these bits.
fn nullable_words(alloc: Global, bits: u8) -> Made {
    let values = buffer_of(alloc, &WORDS, aligned_to(2));
    let (values, validity) = both(values, some(flags(alloc, &[bits], 0, 4)))?;
    PrimitiveArray::try_new(
        alloc,
        values,
        PType::I32,
        Nullability::Nullable,
        4,
        validity,
    )
}

// Four words in a buffer of a greater alignment than they need.
fn aligned_words(alloc: Global) -> Made {
    let values = buffer_of(alloc, &WORDS, aligned_to(4))?;
    PrimitiveArray::try_new(alloc, values, PType::I32, Nullability::NonNullable, 4, None)
}

// Four words.
fn words(alloc: Global, bytes: &[u8], kind: PType) -> Made {
    numbers(alloc, bytes, kind, 4)
}

// Four words with a least value among their statistics.
fn told_words(alloc: Global) -> Made {
    let made = words(alloc, &WORDS, PType::I32);
    answered(alloc, made, Stat::Min, PValue::I32(1), Ok(()))
}

// `count` empty buffers.
fn empty_buffers(alloc: Global, count: usize) -> Result<Vec<BufferHandle>, ArrayError> {
    let mut buffers = Vec::new(alloc);
    for _ in 0..count {
        buffers.push(buffer_of(alloc, &[], aligned_to(0))?)?;
    }
    Ok(buffers)
}

// A text by a view, over `count` empty buffers that it does not name.
fn views(alloc: Global, count: usize) -> Made {
    let views = buffer_of(alloc, &LETTER, aligned_to(4));
    let (buffers, views) = both(empty_buffers(alloc, count), views)?;
    let dtype = DType::Utf8(Nullability::Nullable);
    VarBinViewArray::try_new(alloc, dtype, 1, buffers, views, None)
}

fn made(alloc: Global, sample: Sample) -> Made {
    match sample {
        Sample::Words => words(alloc, &WORDS, PType::I32),
        Sample::AlignedWords => aligned_words(alloc),
        Sample::ToldWords => told_words(alloc),
        Sample::UnsignedWords => words(alloc, &WORDS, PType::U32),
        Sample::OtherWords => words(alloc, &OTHERS, PType::I32),
        Sample::NullableWords(bits) => nullable_words(alloc, bits),
        Sample::Nulls(len) => NullArray::new(alloc, len),
        Sample::Flags(offset) => flags(alloc, &[0], offset, 4),
        Sample::Decimals(width) => decimals(alloc, &[], width, aligned_to(4), 0),
        Sample::Text => one_text(alloc),
        Sample::Views(count) => views(alloc, count),
    }
}

fn hash_of(array: &Array) -> u64 {
    let mut state = FoldHasher::default();
    array.array_hash(&mut state);
    state.finish()
}

// Whether two arrays are equal, both ways, and whether their hashes are.
fn are_alike(one: &Array, other: &Array) -> (bool, bool) {
    let equal = one.array_eq(other) && other.array_eq(one);
    (equal, hash_of(one) == hash_of(other))
}

// The same for an array and another one, if that was made.
fn alike(one: &Array, other: Made) -> Result<(bool, bool), ArrayError> {
    let other = other?;
    let alike = are_alike(one, &other);
    drop(other);
    Ok(alike)
}

// The same for two arrays, if they were made.
fn compared(alloc: Global, one: Made, other: Sample) -> Result<(bool, bool), ArrayError> {
    let one = one?;
    let alike = alike(&one, made(alloc, other));
    drop(one);
    alike
}

// Arrays, and whether they are equal: each of the others differs in one part.
const PAIRS: [(Sample, Sample, bool); 17] = [
    (Sample::Words, Sample::Words, true),
    (Sample::Words, Sample::AlignedWords, true),
    (Sample::Words, Sample::ToldWords, true),
    (Sample::Words, Sample::UnsignedWords, false),
    (Sample::Words, Sample::OtherWords, false),
    (Sample::NullableWords(5), Sample::NullableWords(5), true),
    (Sample::NullableWords(5), Sample::NullableWords(7), false),
    (Sample::NullableWords(5), Sample::Words, false),
    (Sample::Nulls(3), Sample::Nulls(3), true),
    (Sample::Nulls(3), Sample::Nulls(4), false),
    (Sample::Flags(1), Sample::Flags(1), true),
    (Sample::Flags(1), Sample::Flags(2), false),
    (
        Sample::Decimals(DecimalType::I8),
        Sample::Decimals(DecimalType::I8),
        true,
    ),
    (
        Sample::Decimals(DecimalType::I8),
        Sample::Decimals(DecimalType::I16),
        false,
    ),
    (Sample::Text, Sample::Views(0), false),
    (Sample::Views(1), Sample::Views(1), true),
    (Sample::Views(1), Sample::Views(2), false),
];

#[test]
fn arrays_are_equal_by_what_is_compared(rt: HostRuntime) {
    for (one, other, equal) in &PAIRS {
        let alike = compared(rt.alloc(), made(rt.alloc(), *one), *other);
        let (same, hashed) = alike.unwrap_or((!*equal, false));
        assert!(rt; same == *equal && (hashed || !*equal), "{one:?} {other:?}");
    }
}

// `count` buffers of these bytes.
fn buffers_of(alloc: Global, bytes: &[u8], count: usize) -> Result<BufferHandles, ArrayError> {
    let mut buffers = BufferHandles::new(alloc);
    for _ in 0..count {
        buffers.push(buffer_of(alloc, bytes, aligned_to(4))?)?;
    }
    Ok(buffers)
}

// The array with `count` buffers of these bytes in place of its own.
fn replaced(alloc: Global, sample: Sample, bytes: &[u8], count: usize) -> Made {
    let buffers = buffers_of(alloc, bytes, count);
    let (array, buffers) = both(made(alloc, sample), buffers)?;
    let other = array.with_buffers(alloc, buffers);
    drop(array);
    other
}

// Whether the array is equal to another one afterwards, or why it was refused.
fn answer(
    alloc: Global,
    sample: Sample,
    bytes: &[u8],
    count: usize,
    other: Sample,
) -> Result<bool, ArrayError> {
    let (equal, _) = compared(alloc, replaced(alloc, sample, bytes, count), other)?;
    Ok(equal)
}

// Arrays, and the number and bytes of the buffers that replace theirs; the array that is equal afterwards, or the
// refusal.
const REPLACED: [(Sample, &[u8], usize, Sample, Option<ArrayError>); 16] = [
    (Sample::Words, &WORDS, 1, Sample::Words, None),
    (Sample::Words, &OTHERS, 1, Sample::OtherWords, None),
    (
        Sample::Words,
        &[1, 0, 0, 0, 2, 0, 0, 0, 3, 0, 0, 0],
        1,
        Sample::Words,
        Some(ArrayError::BadShape),
    ),
    (
        Sample::Words,
        &WORDS,
        0,
        Sample::Words,
        Some(ArrayError::BadShape),
    ),
    (
        Sample::Words,
        &WORDS,
        2,
        Sample::Words,
        Some(ArrayError::BadShape),
    ),
    (
        Sample::NullableWords(5),
        &WORDS,
        1,
        Sample::NullableWords(5),
        None,
    ),
    (Sample::Nulls(3), &[], 0, Sample::Nulls(3), None),
    (
        Sample::Nulls(3),
        &[],
        1,
        Sample::Nulls(3),
        Some(ArrayError::BadShape),
    ),
    (Sample::Flags(1), &[0], 1, Sample::Flags(1), None),
    (
        Sample::Flags(5),
        &[0],
        1,
        Sample::Flags(5),
        Some(ArrayError::BadShape),
    ),
    (
        Sample::Decimals(DecimalType::I16),
        &[],
        1,
        Sample::Decimals(DecimalType::I16),
        None,
    ),
    (Sample::Text, b"a", 1, Sample::Text, None),
    (
        Sample::Text,
        b"\xff",
        1,
        Sample::Text,
        Some(ArrayError::BadContent),
    ),
    (
        Sample::Text,
        b"",
        1,
        Sample::Text,
        Some(ArrayError::BadContent),
    ),
    (Sample::Views(2), &LETTER, 1, Sample::Views(0), None),
    (
        Sample::Views(0),
        &LONG,
        2,
        Sample::Views(0),
        Some(ArrayError::BadContent),
    ),
];

#[test]
fn other_buffers_are_judged_as_by_a_constructor(rt: HostRuntime) {
    for (sample, bytes, count, other, error) in &REPLACED {
        let wanted = match error {
            None => Ok(true),
            Some(error) => Err(*error),
        };
        let answer = answer(rt.alloc(), *sample, *bytes, *count, *other);
        assert!(rt; answer == wanted, "{sample:?} {bytes:?} {count}");
    }
}

#[test]
fn statistics_stay_with_other_buffers(rt: HostRuntime) {
    let replaced = replaced(rt.alloc(), Sample::ToldWords, &OTHERS, 1);
    assert!(rt; told_of(replaced, Stat::Min) == Ok(Some(PValue::I32(1))));
}
