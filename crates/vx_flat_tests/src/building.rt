//! Messages that are written by a builder.

ghost use Rattle.std.specs.Prelude.{◌≡◌, ◌∷◌, [], OnOk};
ghost use Rattle.vx_flat.specs.Building.{Takes, with_pieces};
ghost use Rattle.vx_flat.specs.Pieces.{table_piece, links_piece, text_piece};

use crate::kinds::{ArrayKind, EveryKind, TypeKind};
use crate::messages::{ARRAY, TYPE};
use std::alloc::Global;
use std::test::Fail;
use vx_flat::{
    BlockField, BlockVector, Builder, FlatBuffer, FlatError, LinkKind, TableKind, read_value,
    write_value,
};

/// An absent entry.
const ABSENT: BlockField = BlockField::Absent;

const TABLE: BlockField = BlockField::Link(LinkKind::Table);

const VECTOR: BlockField = BlockField::Link(LinkKind::Vector);

const TEXT: BlockField = BlockField::Link(LinkKind::Text);

/// The array of one node, with a buffer of 16 bytes that is aligned to 4.
fn array(alloc: Global) -> Result<FlatBuffer, FlatError> {
    let mut builder = Builder::new(alloc);
    let array = builder.table(&[TABLE, VECTOR])?;
    builder.link(array, 0);
    let node = builder.table(&[ABSENT, VECTOR, VECTOR, VECTOR, TABLE])?;
    builder.link(node, 1);
    builder.vector(BlockVector::Numbers {
        width: 1,
        bytes: &[],
    })?;
    builder.link(node, 2);
    builder.vector(BlockVector::Links {
        kind: LinkKind::Table,
        count: 0,
    })?;
    builder.link(node, 3);
    builder.vector(BlockVector::Numbers {
        width: 2,
        bytes: &[0, 0],
    })?;
    builder.link(node, 4);
    builder.table(&[ABSENT; 11])?;
    builder.link(array, 1);
    builder.vector(BlockVector::Numbers {
        width: 8,
        bytes: &[0, 0, 2, 0, 16, 0, 0, 0],
    })?;
    builder.finish(alloc)
}

/// The type of 32-bit signed integers, not nullable.
fn integers(alloc: Global) -> Result<FlatBuffer, FlatError> {
    let mut builder = Builder::new(alloc);
    let dtype = builder.table(&[BlockField::Number { width: 1, bits: 3 }, TABLE])?;
    builder.link(dtype, 1);
    builder.table(&[BlockField::Number { width: 1, bits: 6 }, ABSENT])?;
    builder.finish(alloc)
}

/// The entries of a table with a field of every kind but a vector of structs.
const EVERY: [BlockField; 22] = [
    ABSENT,
    BlockField::Number {
        width: 2,
        bits: 300,
    },
    BlockField::Number {
        width: 4,
        bits: 70_000,
    },
    BlockField::Number {
        width: 8,
        bits: 1_099_511_627_781,
    },
    BlockField::Number { width: 2, bits: 0 },
    ABSENT,
    BlockField::Number { width: 1, bits: 1 },
    ABSENT,
    BlockField::Number { width: 1, bits: 0 },
    ABSENT,
    VECTOR,
    ABSENT,
    TEXT,
    VECTOR,
    TABLE,
    VECTOR,
    BlockField::Number { width: 1, bits: 2 },
    TABLE,
    BlockField::Number { width: 1, bits: 9 },
    BlockField::UnknownMember,
    ABSENT,
    ABSENT,
];

/// A vector of two strings, and the strings.
fn two_texts(first: &str, second: &str, builder: &mut Builder) -> Result<(), FlatError>
    requires { Takes LinkKind.Vector builder.old }
    ensures { OnOk result (builder.new ≡ with_pieces builder.old
        (links_piece LinkKind.Text 2 ∷ text_piece first.now ∷ text_piece second.now ∷ [])) }
{
    let texts = builder.vector(BlockVector::Links {
        kind: LinkKind::Text,
        count: 2,
    })?;
    builder.link(texts, 0);
    builder.string(first)?;
    builder.link(texts, 1);
    builder.string(second)?;
    Ok(())
}

/// A vector of two tables of a number, and the tables.
fn two_tables(builder: &mut Builder) -> Result<(), FlatError>
    requires { Takes LinkKind.Vector builder.old }
    ensures { OnOk result (builder.new ≡ with_pieces builder.old
        (links_piece LinkKind.Table 2 ∷ table_piece (BlockField.Absent ∷ [])
        ∷ table_piece (BlockField.Number 1 8 ∷ []) ∷ [])) }
{
    let tables = builder.vector(BlockVector::Links {
        kind: LinkKind::Table,
        count: 2,
    })?;
    builder.link(tables, 0);
    builder.table(&[ABSENT])?;
    builder.link(tables, 1);
    builder.table(&[BlockField::Number { width: 1, bits: 8 }])?;
    Ok(())
}

/// A table with a field of every kind but a vector of structs.
fn every(alloc: Global) -> Result<FlatBuffer, FlatError> {
    let mut builder = Builder::new(alloc);
    let every = builder.table(&EVERY)?;
    builder.link(every, 10);
    builder.vector(BlockVector::Numbers {
        width: 2,
        bytes: &[1, 0, 2, 0],
    })?;
    builder.link(every, 12);
    builder.string("ab")?;
    builder.link(every, 13);
    two_texts("", "é", &mut builder)?;
    builder.link(every, 14);
    builder.table(&[BlockField::Number { width: 1, bits: 7 }])?;
    builder.link(every, 15);
    two_tables(&mut builder)?;
    builder.link(every, 17);
    let member = builder.table(&[TEXT])?;
    builder.link(member, 0);
    builder.string("c")?;
    builder.finish(alloc)
}

/// Whether a message is written again as the same bytes after it was read.
fn is_read_back<K: TableKind>(
    alloc: Global,
    kind: &K,
    message: &FlatBuffer,
) -> Result<bool, FlatError> {
    let value = read_value(alloc, message.as_slice(), kind)?;
    let written = write_value(alloc, kind, &value)?;
    Ok(written.as_slice() == message.as_slice())
}

#[test]
fn worked_messages_by_blocks(rt: HostRuntime) -> Result<(), Fail> {
    let array = array(rt.alloc())?;
    assert_eq!(rt; array.as_slice(), ARRAY.as_slice());
    let integers = integers(rt.alloc())?;
    assert_eq!(rt; integers.as_slice(), TYPE.as_slice());
    assert!(rt; is_read_back(rt.alloc(), &ArrayKind, &array)?);
    assert!(rt; is_read_back(rt.alloc(), &TypeKind, &integers)?);
    Ok(())
}

#[test]
fn every_kind_of_block(rt: HostRuntime) -> Result<(), Fail> {
    let every = every(rt.alloc())?;
    assert!(rt; is_read_back(rt.alloc(), &EveryKind, &every)?);
    let value = read_value(rt.alloc(), every.as_slice(), &EveryKind)?;
    assert_eq!(rt;
        format!(in rt.alloc(); "{value:?}")?.as_str(),
        "TableValue { fields: [Number(0), Number(300), Number(70000), Number(1099511627781), Number(0), Absent, Number(1), Number(0), Number(0), Absent, Elements([1, 0, 2, 0]), Absent, Text(\"ab\"), Texts([\"\", \"é\"]), Table([Number(7)]), Tables([[Number(0)], [Number(8)]]), Member(2, [Text(\"c\")]), Unknown(9), Absent] }"
    );
    Ok(())
}
