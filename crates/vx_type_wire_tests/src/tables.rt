//! Table messages of each kind of type, and the refusals.

mod messages;
mod writing;

use messages::{
    BINARY, BOOL, DECIMAL, EXTENSION, FIXED_SIZE_LIST, LIST, MAP, NULL, PRIMITIVE, STRUCT,
    THREE_WITHOUT_NAMES, UNION, UTF8, VARIANT,
};
use std::alloc::{AllocError, Global};
use vx_type_wire::{DTypeExt, ExtPlugin, ExtSession, TypeWireError};
use vx_types::{
    Blob, DType, DTypes, DecimalDType, ExtDType, Id, MapDType, Name, Names, Nullability, PType,
    StructFields, TypeError, TypeIds, TypeRef, UnionVariants,
};

// The same message with other bytes at some places.
fn changed(alloc: Global, message: &[u8], bytes: &[(usize, u8)]) -> Result<Vec<u8>, AllocError> {
    let mut message = Vec::from_slice(alloc, message)?;
    for (place, byte) in bytes {
        if *place < message.len() {
            message[*place] = *byte;
        }
    }
    Ok(message)
}

// What a message is read as, where extensions are allowed.
pub fn read(alloc: Global, message: &[u8]) -> Result<DType, TypeWireError> {
    let mut readers = ExtSession::new(alloc);
    readers.allow_unknown();
    DType::from_flatbuffer(alloc, message, &readers)
}

// Whether the message is read as this type.
fn is_read(alloc: Global, message: &[u8], expected: &DType) -> bool {
    match read(alloc, message) {
        Ok(dtype) => dtype == *expected,
        Err(_) => false,
    }
}

// The refusal of a message, where no extension is known.
fn refusal(alloc: Global, message: &[u8]) -> Option<TypeWireError> {
    DType::from_flatbuffer(alloc, message, &ExtSession::new(alloc)).err()
}

// The names `a` and `b`.
fn names(alloc: Global) -> Result<Names, TypeError> {
    let mut names = Names::new(alloc);
    names.push(Name::new(alloc, "a")?)?;
    names.push(Name::new(alloc, "b")?)?;
    Ok(names)
}

// This type, and Bool that is not nullable.
fn types(alloc: Global, first: DType) -> Result<DTypes, TypeError> {
    let mut types = DTypes::new(alloc);
    types.push(first)?;
    types.push(DType::Bool(Nullability::NonNullable))?;
    Ok(types)
}

fn fields(alloc: Global) -> Result<StructFields, TypeError> {
    let types = types(alloc, DType::Primitive(PType::U8, Nullability::Nullable))?;
    StructFields::try_new(names(alloc)?, types)
}

fn structure(alloc: Global) -> Result<DType, TypeError> {
    Ok(DType::Struct(fields(alloc)?, Nullability::Nullable))
}

// The tags 5 and 200 over two types.
fn variants_of(alloc: Global, names: Names) -> Result<UnionVariants, TypeError> {
    let types = types(alloc, DType::Null)?;
    UnionVariants::try_new(names, types, TypeIds::copy_from(alloc, &[5, 200])?)
}

fn union(alloc: Global) -> Result<DType, TypeError> {
    let names = names(alloc)?;
    Ok(DType::Union(variants_of(alloc, names)?, Nullability::Nullable))
}

fn extension_of(alloc: Global, id: Id) -> Result<ExtDType, TypeError> {
    let storage = DType::Primitive(PType::I32, Nullability::Nullable);
    ExtDType::new(alloc, id, Blob::copy_from(alloc, &[7])?, storage)
}

fn extension(alloc: Global) -> Result<DType, TypeError> {
    let id = Id::new(alloc, "x.day")?;
    Ok(DType::Extension(extension_of(alloc, id)?))
}

// Texts that are not null, as a list has them.
fn text(alloc: Global) -> Result<TypeRef, TypeError> {
    TypeRef::new(alloc, DType::Utf8(Nullability::NonNullable))
}

// Truths that are not null, as a list of fixed size has them.
fn truth(alloc: Global) -> Result<TypeRef, TypeError> {
    TypeRef::new(alloc, DType::Bool(Nullability::NonNullable))
}

fn map(alloc: Global) -> Result<MapDType, TypeError> {
    let key = DType::Utf8(Nullability::NonNullable);
    MapDType::new(alloc, key, DType::Bool(Nullability::Nullable), true)
}

// The type that a message shows, by number from 0, each nullable where its kind says so.
fn expected(alloc: Global, which: usize) -> Result<DType, TypeError> {
    let n = Nullability::Nullable;
    match which {
        0 => Ok(DType::Null),
        1 => Ok(DType::Bool(n)),
        2 => Ok(DType::Primitive(PType::I32, n)),
        3 => Ok(DType::Decimal(DecimalDType::try_new(10, -2)?, n)),
        4 => Ok(DType::Utf8(n)),
        5 => Ok(DType::Binary(n)),
        6 => structure(alloc),
        7 => Ok(DType::List(text(alloc)?, n)),
        8 => extension(alloc),
        9 => Ok(DType::FixedSizeList(truth(alloc)?, 3, n)),
        10 => union(alloc),
        11 => Ok(DType::Map(map(alloc)?, n)),
        _ => Ok(DType::Variant(n)),
    }
}

// The message of the type of this number.
fn message(which: usize) -> &'static [u8] {
    match which {
        0 => &NULL,
        1 => &BOOL,
        2 => &PRIMITIVE,
        3 => &DECIMAL,
        4 => &UTF8,
        5 => &BINARY,
        6 => &STRUCT,
        7 => &LIST,
        8 => &EXTENSION,
        9 => &FIXED_SIZE_LIST,
        10 => &UNION,
        11 => &MAP,
        _ => &VARIANT,
    }
}

// Whether the message of this number is read as its type.
fn is_read_as(alloc: Global, which: usize) -> Result<bool, TypeError> {
    let dtype = expected(alloc, which)?;
    Ok(is_read(alloc, message(which), &dtype))
}

#[test]
fn each_kind_is_read(rt: HostRuntime) {
    for which in 0..13 {
        assert!(rt; is_read_as(rt.alloc(), which) == Ok(true), "kind {which}");
    }
}

// Whether the message of this number is read as a type that is not nullable, where a byte is 0.
fn is_flag(alloc: Global, which: usize, place: usize) -> Result<bool, TypeWireError> {
    let message = changed(alloc, message(which), &[(place, 0)])?;
    let readers = ExtSession::new(alloc);
    let dtype = DType::from_flatbuffer(alloc, message.as_slice(), &readers)?;
    Ok(dtype.nullability() == Nullability::NonNullable)
}

#[test]
fn a_flag_of_0_is_not_nullable(rt: HostRuntime) {
    for (which, place) in [
        (1, 44),
        (2, 45),
        (3, 54),
        (4, 44),
        (5, 44),
        (6, 60),
        (7, 48),
        (9, 60),
        (12, 44),
        (10, 64),
        (11, 61),
    ] {
        assert!(rt;
            is_flag(rt.alloc(), which, place) == Ok(true),
            "kind {which}"
        );
    }
}

// Why a message with other bytes at some places is no type, where no extension is known.
fn refusal_with(alloc: Global, message: &[u8], bytes: &[(usize, u8)]) -> Option<TypeWireError> {
    match changed(alloc, message, bytes) {
        Ok(message) => refusal(alloc, message.as_slice()),
        Err(_) => None,
    }
}

// Messages, by number, and the bytes with which they are no types.
const NO_TYPES: [(usize, &[(usize, u8)]); 13] = [
    // A member that is not known, a union without member, and a code that is no kind's.
    (4, &[(20, 14)]),
    (4, &[(12, 0), (14, 0)]),
    (2, &[(44, 11)]),
    // No digit, and 77 digits.
    (3, &[(36, 0)]),
    (3, &[(52, 77)]),
    // No element, no names, and no types.
    (7, &[(36, 0)]),
    (6, &[(36, 0)]),
    (6, &[(38, 0)]),
    // A tag twice, two types and one tag, and no value.
    (10, &[(205, 5)]),
    (10, &[(200, 1)]),
    (11, &[(38, 0)]),
    // No identifier, and no metadata.
    (8, &[(36, 0)]),
    (8, &[(40, 0)]),
];

#[test]
fn tables_that_are_no_types(rt: HostRuntime) {
    for (which, bytes) in &NO_TYPES {
        let refusal = refusal_with(rt.alloc(), message(*which), bytes);
        assert!(rt;
            refusal == Some(TypeWireError::BadType),
            "kind {which}, {bytes:?}"
        );
    }
}

#[test]
fn three_types_without_names(rt: HostRuntime) {
    assert!(rt; refusal(rt.alloc(), &THREE_WITHOUT_NAMES) == Some(TypeWireError::BadType));
}

// The bytes with which the message of texts shows no table.
const NO_TABLES: [&[(usize, u8)]; 6] = [
    // No root, a field table of odd length, and one past the end.
    &[(0, 200)],
    &[(8, 7)],
    &[(8, 200)],
    // An offset without a tag, a tag without an offset, and an offset past the end.
    &[(20, 0)],
    &[(14, 0)],
    &[(24, 200)],
];

#[test]
fn messages_that_show_no_table(rt: HostRuntime) {
    for bytes in &NO_TABLES {
        let refusal = refusal_with(rt.alloc(), message(4), bytes);
        assert!(rt; refusal == Some(TypeWireError::BadTable), "{bytes:?}");
    }
    assert!(rt; refusal(rt.alloc(), &[0x10, 0, 0]) == Some(TypeWireError::BadTable));
}

// Accepts all extensions of one identifier, or none.
#[derive(Drop)]
pub struct Days {
    id: Id,
    accepts: bool,
}

impl ExtPlugin for Days {
    ghost its_id = { λ p. p.id };

    ghost accepted = { λ p metadata storage. p.accepts };

    fn id(&self) -> &Id {
        &self.id
    }

    fn accepts(&self, _metadata: &[u8], _storage: &DType) -> bool {
        self.accepts
    }
}

// A reader of this identifier that accepts all extensions or none.
fn reader_of(alloc: Global, id: &str, accepts: bool) -> Result<Box<Days>, TypeError> {
    let id = Id::new(alloc, id)?;
    Ok(Box::new(alloc, Days { id, accepts })?)
}

// Readers of these identifiers that accept all extensions or none, one after the other.
pub fn readers_of(alloc: Global, rows: &[(&str, bool)]) -> Result<ExtSession, TypeWireError> {
    let mut readers = ExtSession::new(alloc);
    for (id, accepts) in rows {
        readers.register(reader_of(alloc, id, *accepts)?)?;
    }
    Ok(readers)
}

// Why the extension is refused under these readers, if it is.
fn judgement(alloc: Global, rows: &[(&str, bool)]) -> Result<Option<TypeWireError>, TypeWireError> {
    let readers = readers_of(alloc, rows)?;
    Ok(DType::from_flatbuffer(alloc, message(8), &readers).err())
}

#[test]
fn extensions_are_judged_by_their_readers(rt: HostRuntime) {
    let alloc = rt.alloc();
    let unread = Ok(Some(TypeWireError::UnknownExtension));
    let refused = Ok(Some(TypeWireError::ExtensionRefused));
    assert!(rt; judgement(alloc, &[("x.night", true)]) == unread);
    assert!(rt; judgement(alloc, &[("x.night", true), ("x.day", false)]) == refused);
    let rows = [("x.night", true), ("x.day", false), ("x.day", true)];
    assert!(rt; judgement(alloc, &rows) == Ok(None));
}

// The same where extensions without a reader are allowed.
fn open_judgement(
    alloc: Global,
    rows: &[(&str, bool)],
) -> Result<Option<TypeWireError>, TypeWireError> {
    let mut readers = readers_of(alloc, rows)?;
    readers.allow_unknown();
    Ok(DType::from_flatbuffer(alloc, message(8), &readers).err())
}

#[test]
fn extensions_without_a_reader_may_be_allowed(rt: HostRuntime) {
    let alloc = rt.alloc();
    let refused = Ok(Some(TypeWireError::ExtensionRefused));
    assert!(rt; open_judgement(alloc, &[]) == Ok(None));
    assert!(rt; open_judgement(alloc, &[("x.day", false)]) == refused);
}

// Whether the readers that a session of these rows lends accept a day.
fn borrowed_judgement(
    alloc: Global,
    rows: &[(&str, bool)],
    unknown: bool,
) -> Result<bool, TypeWireError> {
    let mut readers = readers_of(alloc, rows)?;
    if unknown {
        readers.allow_unknown();
    }
    let Ok(borrowed) = readers.lend(alloc) else {
        return Err(TypeWireError::OutOfMemory);
    };
    let day = Id::new(alloc, "x.day")?;
    Ok(borrowed.accepts(&day, &[], &DType::Null) && borrowed.allows_unknown() == unknown)
}

#[test]
fn borrowed_readers_accept_what_the_session_accepts(rt: HostRuntime) {
    let alloc = rt.alloc();
    let rows = [("x.night", true), ("x.day", false), ("x.day", true)];
    assert!(rt; borrowed_judgement(alloc, &rows, false) == Ok(true));
    assert!(rt; borrowed_judgement(alloc, &[("x.day", false)], true) == Ok(false));
    assert!(rt; borrowed_judgement(alloc, &[("x.night", true)], false) == Ok(false));
    assert!(rt; borrowed_judgement(alloc, &[("x.night", true)], true) == Ok(true));
}

#[test]
fn nothing_unknown_is_allowed_at_first(rt: HostRuntime) {
    let mut readers = ExtSession::new(rt.alloc());
    assert!(rt; !readers.allows_unknown());
    readers.allow_unknown();
    assert!(rt; readers.allows_unknown());
}

const FRONT: [u8; 32] = [
    32, 0, 0, 0, 0, 0, 0, 0, 8, 0, 12, 0, 4, 0, 8, 0, 6, 0, 8, 0, 4, 0, 0, 0, 4, 0, 4, 0, 0, 0, 0,
    0,
];

// The type and the list of a level, the type at 32 + 24 * level, whose list stands 12 bytes on.
fn level_of(level: u8) -> [u8; 24] {
    let [a, b] = (24 + 24 * u16::from(level % 64)).to_le_bytes();
    let [c, d] = (28 + 24 * u16::from(level % 64)).to_le_bytes();
    [
        a, b, 0, 0, 8, 0, 0, 0, 4, 0, 0, 0, c, d, 0, 0, 8, 0, 0, 0, 0, 0, 0, 0,
    ]
}

// The type of nulls below this number of lists, and its table without fields.
fn nulls_below(lists: u8) -> [u8; 16] {
    let [a, b] = (24 + 24 * u16::from(lists % 64)).to_le_bytes();
    let [c, d] = (20 + 24 * u16::from(lists % 64)).to_le_bytes();
    [a, b, 0, 0, 1, 0, 0, 0, 4, 0, 0, 0, c, d, 0, 0]
}

// A table that has no member, below this number of lists.
fn bare_below(lists: u8) -> [u8; 4] {
    let [a, b] = (8 + 24 * u16::from(lists % 64)).to_le_bytes();
    [a, b, 0, 0]
}

// Nested lists around what these bytes show: each table stands in the one before it.
fn nested(alloc: Global, lists: u8, below: &[u8]) -> Result<Vec<u8>, AllocError> {
    let mut message = Vec::from_slice(alloc, &FRONT)?;
    for level in 0..lists {
        message.extend_from_slice(&level_of(level))?;
    }
    message.extend_from_slice(below)?;
    Ok(message)
}

// The refusal of nested lists around what these bytes show, if any.
fn nested_refusal(
    alloc: Global,
    lists: u8,
    below: &[u8],
) -> Result<Option<TypeWireError>, AllocError> {
    let message = nested(alloc, lists, below)?;
    Ok(refusal(alloc, message.as_slice()))
}

#[test]
fn types_nest_as_far_as_the_limit(rt: HostRuntime) {
    let alloc = rt.alloc();
    // 64 tables, and 65
    assert!(rt; nested_refusal(alloc, 31, &nulls_below(31)) == Ok(None));
    let past = nested_refusal(alloc, 32, &bare_below(32));
    assert!(rt; past == Ok(Some(TypeWireError::TableLimit)));
    let bare = nested_refusal(alloc, 31, &bare_below(31));
    assert!(rt; bare == Ok(Some(TypeWireError::BadType)));
}

// Whether a refusal has this text.
fn is_text(alloc: Global, error: TypeWireError, text: &str) -> bool {
    match format!(in alloc; "{error}") {
        Ok(printed) => printed.as_str() == text,
        Err(_) => false,
    }
}

const TEXTS: [(TypeWireError, &str); 9] = [
    (TypeWireError::OutOfMemory, "out of memory"),
    (TypeWireError::BadTable, "the message is no table of a type"),
    (
        TypeWireError::TableLimit,
        "the message nests too deep or unfolds to too many tables or bytes",
    ),
    (
        TypeWireError::BadMessage,
        "the bytes are no message of a type",
    ),
    (TypeWireError::TooDeep, "over 100 messages nest"),
    (TypeWireError::BadType, "the table or message is no type's"),
    (
        TypeWireError::UnknownExtension,
        "an extension's identifier has no reader",
    ),
    (
        TypeWireError::ExtensionRefused,
        "an extension's reader does not accept it",
    ),
    (
        TypeWireError::WireLimit,
        "the type is too deep or too large to be written",
    ),
];

#[test]
fn texts_of_refusals(rt: HostRuntime) {
    for (error, text) in &TEXTS {
        assert!(rt; is_text(rt.alloc(), *error, text), "{text}");
    }
}
