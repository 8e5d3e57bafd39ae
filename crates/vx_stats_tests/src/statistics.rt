//! Statistics of arrays in blobs: written, read, named and refused.

use std::alloc::Global;
use vx_arrays::{Array, ArrayError, PrimitiveArray};
use vx_buffer::{Alignment, BufferHandle, ByteBuffer, ByteBuffers};
use vx_registry::{ArrayContext, ArraySession, ReadContext, VortexSession};
use vx_scalars::{Precision, ScalarValue, Stat, StatsSet};
use vx_serde::{ArrayExt, Recoded, SerializeOptions, SerializedArray, WireError, recode};
use vx_type_wire::ExtSession;
use vx_types::{DType, Id, Ids, Names, Nullability, PType, PValue, TypeError};

// A session of the shipped encodings, without readers of extensions.
fn shipped(alloc: Global) -> Result<VortexSession, WireError> {
    match ArraySession::default(alloc) {
        Ok(arrays) => Ok(VortexSession::new(arrays, ExtSession::new(alloc))),
        Err(_) => Err(WireError::OutOfMemory),
    }
}

// What a set holds of a statistic.
#[derive(Clone, Copy)]
enum Told {
    Nothing,
    Exactly(PValue),
    Loosely(PValue),
}

fn precision_of(told: Told) -> Precision<ScalarValue> {
    match told {
        Told::Nothing => Precision::Absent,
        Told::Exactly(value) => Precision::Exact(ScalarValue::Primitive(value)),
        Told::Loosely(value) => Precision::Inexact(ScalarValue::Primitive(value)),
    }
}

// A set of one statistic.
fn set_of(alloc: Global, stat: Stat, told: Told) -> Result<StatsSet, TypeError> {
    let mut set = StatsSet::new(alloc);
    set.set(stat, precision_of(told))?;
    Ok(set)
}

// Gives an array a set of one statistic.
fn tell(alloc: Global, array: &mut Array, stat: Stat, told: Told) -> Result<(), TypeError> {
    let set = set_of(alloc, stat, told)?;
    array.set_all(set)
}

// The bits of one number.
const NUMBER: [u8; 8] = [0; 8];

// The alignment of numbers of 64 bits.
fn alignment() -> Alignment {
    match Alignment::new(8) {
        Some(alignment) => alignment,
        None => Alignment::none(),
    }
}

// An array of one number of 64 bits, of this kind.
fn one_number(alloc: Global, kind: PType) -> Result<Array, ArrayError> {
    let buffer = ByteBuffer::copy_from(alloc, &NUMBER)?.aligned(alignment());
    let values = BufferHandle::new_host(buffer);
    PrimitiveArray::try_new(alloc, values, kind, Nullability::NonNullable, 1, None)
}

// The array with this one statistic.
fn told_array(alloc: Global, kind: PType, stat: Stat, told: Told) -> Result<Array, ArrayError> {
    let mut array = one_number(alloc, kind)?;
    match tell(alloc, &mut array, stat, told) {
        Ok(()) => Ok(array),
        Err(_) => Err(ArrayError::BadShape),
    }
}

// Buffers, one after the other.
fn joined(alloc: Global, buffers: &ByteBuffers) -> Result<ByteBuffer, WireError> {
    Ok(buffers.join(alloc)?)
}

// The buffers of an array's blob.
fn written(
    alloc: Global,
    array: &Array,
    session: &VortexSession,
) -> Result<ByteBuffers, WireError> {
    let mut ctx = ArrayContext::empty(alloc);
    let options = SerializeOptions::default();
    array.serialize(alloc, &mut ctx, session, &options)
}

// The same as one buffer.
fn blob_by(alloc: Global, array: &Array, session: &VortexSession) -> Result<ByteBuffer, WireError> {
    let buffers = written(alloc, array, session)?;
    joined(alloc, &buffers)
}

// The blob of an array, by the shipped encodings.
fn blob_of(alloc: Global, array: &Array) -> Result<ByteBuffer, WireError> {
    let session = shipped(alloc)?;
    blob_by(alloc, array, &session)
}

// The identifier of numbers alone.
fn numbers_alone(alloc: Global) -> Result<ReadContext, TypeError> {
    let mut ids = Ids::new(alloc);
    ids.push(Id::new(alloc, "vortex.primitive")?)?;
    Ok(ReadContext::new(ids))
}

// The blob of one number, recoded at its type.
fn recoded_at(
    alloc: Global,
    blob: ByteBuffer,
    dtype: &DType,
    ids: &ReadContext,
    session: &VortexSession,
) -> Result<Recoded, WireError> {
    let mut ctx = ArrayContext::empty(alloc);
    let options = SerializeOptions::default();
    recode(alloc, blob, dtype, 1, ids, &mut ctx, session, &options)
}

// The same for the blob's bytes.
fn recoded_under(
    alloc: Global,
    blob: &[u8],
    dtype: &DType,
    session: &VortexSession,
) -> Result<Recoded, WireError> {
    let blob = ByteBuffer::copy_from(alloc, blob)?;
    match numbers_alone(alloc) {
        Ok(ids) => recoded_at(alloc, blob, dtype, &ids, session),
        Err(_) => Err(WireError::OutOfMemory),
    }
}

// The same for numbers of this kind.
fn recoded_by(
    alloc: Global,
    blob: &[u8],
    kind: PType,
    session: &VortexSession,
) -> Result<Recoded, WireError> {
    let dtype = DType::Primitive(kind, Nullability::NonNullable);
    recoded_under(alloc, blob, &dtype, session)
}

// The same with the shipped encodings.
fn recoded(alloc: Global, blob: &[u8], kind: PType) -> Result<Recoded, WireError> {
    let session = shipped(alloc)?;
    recoded_by(alloc, blob, kind, &session)
}

// The bytes that a blob is recoded to.
fn again(alloc: Global, blob: &[u8], kind: PType) -> Result<ByteBuffer, WireError> {
    let read = recoded(alloc, blob, kind)?;
    joined(alloc, &read.buffers)
}

// Whether bytes are recoded to a blob.
fn gives(alloc: Global, bytes: &[u8], kind: PType, blob: &[u8]) -> bool {
    match again(alloc, bytes, kind) {
        Ok(given) => given.as_slice() == blob,
        Err(_) => false,
    }
}

// Whether a blob is recoded to its own bytes, and once more to these.
fn is_kept(alloc: Global, blob: &[u8], kind: PType) -> bool {
    match again(alloc, blob, kind) {
        Ok(once) => once.as_slice() == blob && gives(alloc, once.as_slice(), kind, blob),
        Err(_) => false,
    }
}

// Whether bytes from a place on begin with others.
fn begins_at(bytes: &[u8], place: usize, part: &[u8]) -> bool {
    if place > bytes.len() {
        return false;
    }
    bytes[place..].starts_with(part)
}

// The place of some bytes in others.
fn find(bytes: &[u8], part: &[u8]) -> Option<usize> {
    for place in 0..bytes.len() {
        if begins_at(bytes, place, part) {
            return Some(place);
        }
    }
    None
}

// Whether a blob has a message in it, and is recoded to itself.
fn has_kept(alloc: Global, blob: &[u8], message: &[u8], kind: PType) -> bool {
    find(blob, message).is_some() && is_kept(alloc, blob, kind)
}

// Whether an array is written with that message, and recoded to itself.
fn is_written(alloc: Global, array: &Array, message: &[u8], kind: PType) -> bool {
    match blob_of(alloc, array) {
        Ok(blob) => has_kept(alloc, blob.as_slice(), message, kind),
        Err(_) => false,
    }
}

// Whether a sum of these bits is written with that message, and recoded to itself.
fn is_summed(alloc: Global, bits: u64, message: &[u8]) -> bool {
    let sum = Told::Exactly(PValue::F64(bits));
    match told_array(alloc, PType::F64, Stat::Sum, sum) {
        Ok(array) => is_written(alloc, &array, message, PType::F64),
        Err(_) => false,
    }
}

// The bits of sums, and their messages: two that are no number, 3, and the negative infinity.
const SUMS: [(u64, &[u8]); 4] = [
    (0xfff8_0000_0000_0000, &[0x31, 0, 0, 0, 0, 0, 0, 0xf8, 0x7f]),
    (0x7ff8_0000_dead_beef, &[0x31, 0, 0, 0, 0, 0, 0, 0xf8, 0x7f]),
    (0x4008_0000_0000_0000, &[0x31, 0, 0, 0, 0, 0, 0, 0x08, 0x40]),
    (0xfff0_0000_0000_0000, &[0x31, 0, 0, 0, 0, 0, 0, 0xf0, 0xff]),
];

#[test]
fn a_sum_that_is_no_number_is_made_one(rt: HostRuntime) {
    for (bits, message) in &SUMS {
        assert!(rt; is_summed(rt.alloc(), *bits, message));
    }
}

// A least value of 5, of signed numbers: exact, and as a bound.
const LEAST: Told = Told::Exactly(PValue::I64(5));

const BOUND: Told = Told::Loosely(PValue::I64(5));

// The bytes of a message whose least value is 5: the byte 0x18 that begins it is followed by 10.
const MESSAGE: [u8; 2] = [0x18, 10];

// The blob of an array with this least value.
fn blob_of_least(alloc: Global, told: Told) -> Result<ByteBuffer, WireError> {
    match told_array(alloc, PType::I64, Stat::Min, told) {
        Ok(array) => blob_of(alloc, &array),
        Err(_) => Err(WireError::OutOfMemory),
    }
}

// Whether a least value, exact or not, is written and recoded to itself.
fn is_bound_kept(alloc: Global, told: Told) -> bool {
    match blob_of_least(alloc, told) {
        Ok(blob) => has_kept(alloc, blob.as_slice(), &MESSAGE, PType::I64),
        Err(_) => false,
    }
}

#[test]
fn a_least_value_is_kept(rt: HostRuntime) {
    assert!(rt; is_bound_kept(rt.alloc(), LEAST));
    assert!(rt; is_bound_kept(rt.alloc(), BOUND));
}

// The least value after a blob was read, where it is exact.
fn exact_least(array: &Array) -> Option<i64> {
    match array.statistics().get(Stat::Min) {
        Precision::Exact(ScalarValue::Primitive(PValue::I64(value))) => Some(*value),
        _ => None,
    }
}

// The least value that is read from a blob.
fn least_read(alloc: Global, blob: &[u8]) -> Result<Option<i64>, WireError> {
    let read = recoded(alloc, blob, PType::I64)?;
    Ok(exact_least(&read.array))
}

// The least value that is read where this one was written.
fn least_of(alloc: Global, told: Told) -> Result<Option<i64>, WireError> {
    let blob = blob_of_least(alloc, told)?;
    least_read(alloc, blob.as_slice())
}

#[test]
fn statistics_are_read(rt: HostRuntime) {
    let alloc = rt.alloc();
    assert!(rt; least_of(alloc, LEAST) == Ok(Some(5)));
    assert!(rt; least_of(alloc, BOUND) == Ok(None));
    assert!(rt; least_of(alloc, Told::Nothing) == Ok(None));
}

// Whether there are this many names, and the first is this one.
fn are_names(names: &Names, count: usize, name: &str) -> bool {
    let first = match names.get(0) {
        Some(first) => first.as_str() == name,
        None => count == 0,
    };
    names.len() == count && first
}

// Whether a blob's root has this many names, and the first is this one.
fn tells_names(array: &SerializedArray, alloc: Global, count: usize, name: &str) -> bool {
    match array.stat_names(alloc) {
        Ok(names) => are_names(&names, count, name),
        Err(_) => false,
    }
}

// The array of the blob of this least value.
fn array_of_least(alloc: Global, told: Told) -> Result<SerializedArray, WireError> {
    let blob = blob_of_least(alloc, told)?;
    SerializedArray::try_from_buffer(alloc, blob)
}

// Whether its root has this many names, and the first is this one.
fn is_named(alloc: Global, told: Told, count: usize, name: &str) -> bool {
    match array_of_least(alloc, told) {
        Ok(array) => tells_names(&array, alloc, count, name),
        Err(_) => false,
    }
}

#[test]
fn statistics_that_stand_are_named(rt: HostRuntime) {
    assert!(rt; is_named(rt.alloc(), LEAST, 1, "min"));
    assert!(rt; is_named(rt.alloc(), Told::Nothing, 0, ""));
}

// Puts a byte at a place, where there is such a place.
fn put(bytes: &mut Vec<u8>, place: usize, byte: u8) {
    if let Some(old) = bytes.get_mut(place) {
        *old = byte;
    }
}

// The bytes of the blob of an exact least value of 5.
fn least_bytes(alloc: Global) -> Result<Vec<u8>, WireError> {
    let blob = blob_of_least(alloc, LEAST)?;
    Ok(Vec::from_slice(alloc, blob.as_slice())?)
}

// The same with another byte this far from its message.
fn bytes_with(alloc: Global, from: usize, byte: u8) -> Result<Vec<u8>, WireError> {
    let mut bytes = least_bytes(alloc)?;
    match find(bytes.as_slice(), &MESSAGE) {
        Some(place) => put(&mut bytes, place.saturating_sub(from), byte),
        None => return Err(WireError::BadTable),
    }
    Ok(bytes)
}

// The least value that is read from such a blob.
fn read_with(alloc: Global, from: usize, byte: u8) -> Result<Option<i64>, WireError> {
    let bytes = bytes_with(alloc, from, byte)?;
    least_read(alloc, bytes.as_slice())
}

// The message stands at the end of its block: its length is four bytes before it, and the precision twelve.
#[test]
fn broken_statistics(rt: HostRuntime) {
    let alloc = rt.alloc();
    assert!(rt; read_with(alloc, 12, 2) == Err(WireError::BadStats));
    assert!(rt; read_with(alloc, 0, 0x10) == Err(WireError::BadStats));
    assert!(rt; read_with(alloc, 0, 0x1b) == Err(WireError::BadStats));
    assert!(rt; read_with(alloc, 12, 0) == Ok(None));
}

// The start of the field table of a set with a least value alone: its own length and that of the table, then the
// entries of the value and of its precision.
const ENTRIES: [u8; 8] = [26, 0, 9, 0, 4, 0, 8, 0];

// The same blob with a precision of 2, and without the entry of the least value.
fn lone_precision(alloc: Global) -> Result<Vec<u8>, WireError> {
    let mut bytes = bytes_with(alloc, 12, 2)?;
    match find(bytes.as_slice(), &ENTRIES) {
        Some(place) => put(&mut bytes, place.saturating_add(4), 0),
        None => return Err(WireError::BadTable),
    }
    Ok(bytes)
}

// The least value that is read from it.
fn lone_precision_read(alloc: Global) -> Result<Option<i64>, WireError> {
    let bytes = lone_precision(alloc)?;
    least_read(alloc, bytes.as_slice())
}

#[test]
fn a_precision_without_a_value_is_not_looked_at(rt: HostRuntime) {
    assert!(rt; lone_precision_read(rt.alloc()) == Ok(None));
}
