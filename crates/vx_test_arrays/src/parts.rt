//! The parts of which tests make nested arrays.

use std::alloc::Global;
use vx_arrays::{
    Array, ArrayError, Arrays, BoolArray, DictArray, ExtensionArray, FixedSizeListArray, ListArray,
    ListViewArray, MapArray, NullArray, PrimitiveArray, StructArray, UnionArray, VarBinArray,
    VariantArray, new_foreign_array,
};
use vx_buffer::{Alignment, BufferHandle, BufferHandles, ByteBuffer};
use vx_types::{
    Blob, DType, DTypes, ExtDType, Id, MapDType, Name, Names, Nullability, PType, StructFields,
    TypeError, TypeIds, UnionVariants,
};

/// Which of at most eight rows are valid.
#[derive(Clone, Copy, Debug)]
pub enum There {
    /// All rows, since the type lets none be null.
    Always,
    /// All rows, though the type lets rows be null.
    All,
    /// The rows whose bit is set, from the lowest bit on.
    Bits(u8),
    /// The same, though the type lets no row be null: such arrays are refused.
    Unasked(u8),
}

/// An array, or why it is not made.
pub type Made = Result<Array, ArrayError>;

/// Arrays, or why one of them is not made.
pub type AllMade = Result<Arrays, ArrayError>;

// The result of a call of types; each refusal becomes `OutOfMemory`, as tests write no types that are refused.
fn typed<T: Drop>(made: Result<T, TypeError>) -> Result<T, ArrayError> {
    match made {
        Ok(value) => Ok(value),
        Err(_) => Err(ArrayError::OutOfMemory),
    }
}

/// Two values, or why one of them is not made.
pub fn both<A: Drop, B: Drop, E: Drop>(
    first: Result<A, E>,
    second: Result<B, E>,
) -> Result<(A, B), E> {
    let first = first?;
    let second = second?;
    Ok((first, second))
}

/// The nullability that goes with it.
pub fn nullability(there: There) -> Nullability {
    match there {
        There::Always | There::Unasked(_) => Nullability::NonNullable,
        There::All | There::Bits(_) => Nullability::Nullable,
    }
}

// The validity of `len` rows, if there is one.
fn validity(alloc: Global, there: There, len: usize) -> Result<Option<Array>, ArrayError> {
    match there {
        There::Always | There::All => Ok(None),
        There::Bits(bits) | There::Unasked(bits) => Ok(Some(flags(alloc, bits, len)?)),
    }
}

/// `len` nulls.
pub fn nulls(alloc: Global, len: usize) -> Made {
    NullArray::new(alloc, len)
}

/// Unsigned numbers of one byte, none of them null.
pub fn bytes(alloc: Global, bytes: &[u8]) -> Made {
    numbers(alloc, PType::U8, bytes, There::Always)
}

/// No array.
pub fn none(alloc: Global) -> AllMade {
    Ok(Arrays::new(alloc))
}

/// One array.
pub fn one(alloc: Global, array: Made) -> AllMade {
    and(none(alloc), array)
}

/// Two arrays.
pub fn two(alloc: Global, first: Made, second: Made) -> AllMade {
    and(one(alloc, first), second)
}

// A buffer of these bytes.
fn buffer(alloc: Global, bytes: &[u8], alignment: Alignment) -> Result<BufferHandle, ArrayError> {
    let buffer = ByteBuffer::copy_from(alloc, bytes)?;
    Ok(BufferHandle::new_host(buffer.aligned(alignment)))
}

/// `len` booleans, none of them null, by their bits.
pub fn flags(alloc: Global, bits: u8, len: usize) -> Made {
    let bits = buffer(alloc, &[bits], Alignment::none())?;
    BoolArray::try_new(alloc, bits, 0, len, Nullability::NonNullable, None)
}

// The alignment of the numbers of a kind.
fn alignment_of(kind: PType) -> Alignment {
    match Alignment::new(kind.byte_width()) {
        Some(alignment) => alignment,
        None => Alignment::none(),
    }
}

// The number of numbers of a kind in this many bytes.
fn count_of(kind: PType, bytes: usize) -> usize {
    match bytes.checked_div(kind.byte_width()) {
        Some(count) => count,
        None => 0,
    }
}

/// Numbers of a kind, by their bytes.
pub fn numbers(alloc: Global, kind: PType, bytes: &[u8], there: There) -> Made {
    let len = count_of(kind, bytes.len());
    let values = buffer(alloc, bytes, alignment_of(kind));
    let (values, validity) = both(values, validity(alloc, there, len))?;
    PrimitiveArray::try_new(alloc, values, kind, nullability(there), len, validity)
}

// The numbers from 0 up to this one.
fn counting(alloc: Global, last: usize) -> Made {
    let mut bytes = Vec::new(alloc);
    for i in 0..=last.min(255) {
        bytes.push(i as u8)?;
    }
    numbers(alloc, PType::U8, bytes.as_slice(), There::Always)
}

/// A text for each letter.
pub fn texts(alloc: Global, letters: &[u8], there: There) -> Made {
    let offsets = counting(alloc, letters.len());
    let bytes = buffer(alloc, letters, Alignment::none());
    let parts = both(offsets, bytes);
    let ((offsets, bytes), validity) = both(parts, validity(alloc, there, letters.len()))?;
    VarBinArray::try_new(
        alloc,
        DType::Utf8(nullability(there)),
        offsets,
        bytes,
        validity,
    )
}

/// Lists of elements, split by offsets.
pub fn lists(alloc: Global, elements: Made, offsets: Made, there: There) -> Made {
    let len = len_of(&offsets).saturating_sub(1);
    let parts = both(elements, offsets);
    let ((elements, offsets), validity) = both(parts, validity(alloc, there, len))?;
    ListArray::try_new(alloc, elements, offsets, nullability(there), validity)
}

// The number of an array's rows, if it was made.
fn len_of(array: &Made) -> usize {
    match array {
        Ok(array) => array.len(),
        Err(_) => 0,
    }
}

/// Appends an array.
pub fn and(arrays: AllMade, array: Made) -> AllMade {
    let (mut arrays, array) = both(arrays, array)?;
    match arrays.push(array) {
        Ok(()) => Ok(arrays),
        Err(e) => Err(e),
    }
}

/// Lists of elements with offsets and sizes of their own.
pub fn views(alloc: Global, elements: Made, offsets: Made, sizes: Made, there: There) -> Made {
    let validity = validity(alloc, there, len_of(&offsets));
    let parts = both(both(elements, offsets), both(sizes, validity));
    let ((elements, offsets), (sizes, validity)) = parts?;
    let nullability = nullability(there);
    ListViewArray::try_new(
        alloc,
        elements,
        offsets,
        sizes,
        nullability,
        validity,
        false,
    )
}

/// `len` fixed-size lists.
pub fn fixed(alloc: Global, elements: Made, size: u32, len: usize, there: There) -> Made {
    let (elements, validity) = both(elements, validity(alloc, there, len))?;
    FixedSizeListArray::try_new(alloc, elements, size, nullability(there), len, validity)
}

// The types of arrays.
fn types_of(alloc: Global, arrays: &[Array]) -> Result<DTypes, TypeError> {
    let mut types = DTypes::new(alloc);
    for array in arrays {
        types.push(array.dtype().clone(alloc)?)?;
    }
    Ok(types)
}

// These names.
fn names_of(alloc: Global, texts: &[&str]) -> Result<Names, TypeError> {
    let mut names = Names::new(alloc);
    for text in texts {
        names.push(Name::new(alloc, text)?)?;
    }
    Ok(names)
}

// The fields of these names and of the types of these arrays.
fn fields_of(alloc: Global, names: &[&str], arrays: &[Array]) -> Result<StructFields, TypeError> {
    let names = names_of(alloc, names)?;
    StructFields::try_new(names, types_of(alloc, arrays)?)
}

// The same, if the arrays were made.
fn fields(alloc: Global, names: &[&str], arrays: AllMade) -> Result<StructFields, ArrayError> {
    match arrays {
        Ok(arrays) => typed(fields_of(alloc, names, arrays.as_slice())),
        Err(e) => Err(e),
    }
}

// `len` structs of these columns, some of which may be null.
fn structs_of(
    alloc: Global,
    fields: Result<StructFields, ArrayError>,
    columns: AllMade,
    len: usize,
    there: There,
    validity: Result<Option<Array>, ArrayError>,
) -> Made {
    let ((fields, columns), validity) = both(both(fields, columns), validity)?;
    StructArray::try_new(alloc, fields, nullability(there), columns, len, validity)
}

/// `len` structs: the fields' names, arrays of their types, and the columns.
pub fn structs(
    alloc: Global,
    names: &[&str],
    types: AllMade,
    columns: AllMade,
    len: usize,
    there: There,
) -> Made {
    let fields = fields(alloc, names, types);
    structs_of(
        alloc,
        fields,
        columns,
        len,
        there,
        validity(alloc, there, len),
    )
}

// The type of maps from keys to values of the types of these arrays.
fn map_type_of(alloc: Global, keys: &Array, values: &Array) -> Result<MapDType, TypeError> {
    let key = keys.dtype().clone(alloc)?;
    MapDType::new(alloc, key, values.dtype().clone(alloc)?, false)
}

// The same, if the arrays were made.
fn map_type(alloc: Global, keys: Made, values: Made) -> Result<MapDType, ArrayError> {
    let (keys, values) = both(keys, values)?;
    typed(map_type_of(alloc, &keys, &values))
}

// Maps of a type, by their entries.
fn maps_of(alloc: Global, map: Result<MapDType, ArrayError>, entries: Made) -> Made {
    let (map, entries) = both(map, entries)?;
    MapArray::try_new(alloc, map, entries)
}

/// Maps: arrays of the types of keys and of values, and the entries.
pub fn maps(alloc: Global, keys: Made, values: Made, entries: Made) -> Made {
    let map = map_type(alloc, keys, values);
    maps_of(alloc, map, entries)
}

// Members of these tags and of the types of these arrays, named by letters.
fn variants_of(alloc: Global, ids: &[u8], arrays: &[Array]) -> Result<UnionVariants, TypeError> {
    let letters = ["a", "b", "c"];
    let names = names_of(alloc, &letters[..ids.len().min(3)])?;
    let types = types_of(alloc, arrays)?;
    UnionVariants::try_new(names, types, TypeIds::copy_from(alloc, ids)?)
}

// The same, if the arrays were made.
fn variants(alloc: Global, ids: &[u8], arrays: AllMade) -> Result<UnionVariants, ArrayError> {
    match arrays {
        Ok(arrays) => typed(variants_of(alloc, ids, arrays.as_slice())),
        Err(e) => Err(e),
    }
}

// Unions of these members, by their tags.
fn unions_of(
    alloc: Global,
    variants: Result<UnionVariants, ArrayError>,
    tags: Made,
    members: AllMade,
) -> Made {
    let ((variants, tags), members) = both(both(variants, tags), members)?;
    UnionArray::try_new(alloc, variants, tags, members)
}

/// Unions: the members' tags, arrays of their types, the tags of the rows, and the members.
pub fn unions(alloc: Global, ids: &[u8], types: AllMade, tags: Made, members: AllMade) -> Made {
    let variants = variants(alloc, ids, types);
    unions_of(alloc, variants, tags, members)
}

// The extension whose storage has the type of this array.
fn extension_of(alloc: Global, kind: &Array) -> Result<ExtDType, TypeError> {
    let id = Id::new(alloc, "test.ext")?;
    let metadata = Blob::copy_from(alloc, &[1])?;
    ExtDType::new(alloc, id, metadata, kind.dtype().clone(alloc)?)
}

// The same, if it was made.
fn stored_as(alloc: Global, kind: Made) -> Result<ExtDType, ArrayError> {
    match kind {
        Ok(kind) => typed(extension_of(alloc, &kind)),
        Err(e) => Err(e),
    }
}

// Extensions of a type, by their storage.
fn extensions_of(alloc: Global, ext: Result<ExtDType, ArrayError>, storage: Made) -> Made {
    let (ext, storage) = both(ext, storage)?;
    ExtensionArray::try_new(alloc, ext, storage)
}

/// Extensions: an array of the type of the storage, and the storage.
pub fn extensions(alloc: Global, kind: Made, storage: Made) -> Made {
    let ext = stored_as(alloc, kind);
    extensions_of(alloc, ext, storage)
}

// A foreign node of this identifier and type.
fn unknown_of(alloc: Global, id: Result<Id, TypeError>, dtype: DType, len: usize) -> Made {
    let id = typed(id)?;
    let metadata = Blob::new(Vec::new(alloc));
    let buffers = BufferHandles::new(alloc);
    new_foreign_array(alloc, id, dtype, len, metadata, buffers, Arrays::new(alloc))
}

/// `len` opaque variants, which may be null.
pub fn unknown_variants(alloc: Global, len: usize) -> Made {
    let dtype = DType::Variant(Nullability::Nullable);
    unknown_of(alloc, Id::new(alloc, "x.core"), dtype, len)
}

/// `len` unsigned numbers of an opaque byte, none of them null.
pub fn unknown_bytes(alloc: Global, len: usize) -> Made {
    let dtype = DType::Primitive(PType::U8, Nullability::NonNullable);
    unknown_of(alloc, Id::new(alloc, "x.bytes"), dtype, len)
}

/// Variants by their core and, where one is given, a typed child over it.
pub fn shredded(alloc: Global, core: Made, over: Option<Made>) -> Made {
    match over {
        Some(over) => {
            let (core, over) = both(core, over)?;
            VariantArray::try_new(alloc, core, Some(over))
        }
        None => VariantArray::try_new(alloc, core?, None),
    }
}

/// Dictionaries by their codes and values.
pub fn dicts(alloc: Global, codes: Made, values: Made) -> Made {
    let (codes, values) = both(codes, values)?;
    DictArray::try_new(alloc, codes, values, false)
}
