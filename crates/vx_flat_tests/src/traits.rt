//! A type that is written and read by the traits of tables.

ghost use Rattle.std.specs.Prelude.{◌≡◌, ◌<◌};
ghost use Rattle.vx_flat.specs.declared.error.FlatError.TheVariants.{BadTable};
ghost use Rattle.vx_flat.specs.Building.{RefusesPieces, Built};
ghost use Rattle.vx_flat.specs.Pieces.{pieces, default_entry};
ghost use Rattle.vx_flat.specs.Value.{Fields, number, member, field, no_fields};
ghost use Rattle.vx_flat_tests.specs.Worked.{primitive_schema};

use crate::kinds::TypeKind;
use std::alloc::Global;
use vx_flat::{
    BlockField, Builder, FlatBufferRoot, FlatError, LinkKind, ReadFlatBuffer, UnionPart, View,
    WriteFlatBuffer,
};

/// A primitive type by its code, not nullable.
#[derive(Drop)]
pub struct Primitive {
    /// Its code.
    pub code: u8,
}

/// The entry of a byte, which is left out where it is 0.
fn byte_entry(byte: u8) -> BlockField
    ensures { result ≡ default_entry 1 byte }
{
    if byte == 0 {
        return BlockField::Absent;
    }
    BlockField::Number {
        width: 1,
        bits: byte as u64,
    }
}

impl FlatBufferRoot for Primitive {}

impl WriteFlatBuffer for Primitive {
    type Kind = TypeKind;

    const KIND: TypeKind = TypeKind;

    type Error = FlatError;

    ghost table = { λ p. field (member 3 (field (number p.code) (field (number 0) no_fields))) no_fields };

    ghost unwritten = { λ p b e. (c : Built) × RefusesPieces b (pieces primitive_schema
        (field (member 3 (field (number p.code) (field (number 0) no_fields))) no_fields)) e c };

    fn write_flatbuffer(&self, _alloc: Global, builder: &mut Builder) -> Result<(), FlatError> {
        let tag = BlockField::Number { width: 1, bits: 3 };
        let dtype = builder.table(&[tag, BlockField::Link(LinkKind::Table)])?;
        builder.link(dtype, 1);
        builder.table(&[byte_entry(self.code), BlockField::Absent])?;
        Ok(())
    }
}

/// The tag of a type.
#[derive(Drop)]
pub struct Tag {
    /// The tag.
    pub tag: u8,
}

impl ReadFlatBuffer for Tag {
    type Kind = TypeKind;

    const KIND: TypeKind = TypeKind;

    type Error = FlatError;

    ghost reads = { λ v t. (vs : Fields) × (v ≡ field (member t.tag vs) no_fields) };

    ghost unread = { λ v e. e ≡ BadTable };

    fn read_flatbuffer(_alloc: Global, view: &View<'_>) -> Result<Tag, FlatError> {
        match view.union_part(0) {
            UnionPart::Known(tag, _member) => Ok(Tag { tag }),
            _ => Err(FlatError::BadTable),
        }
    }
}

#[cfg(test)]
mod tests {
    use super::*;
    use crate::messages::TYPE;
    use std::test::Fail;
    use vx_flat::WriteFlatBufferExt;

    #[test]
    fn read_by_trait(rt: HostRuntime) -> Result<(), Fail> {
        let tag = Tag::read_flatbuffer_bytes(rt.alloc(), &TYPE)?;
        assert_eq!(rt; tag.tag, 3);
        let refused = Tag::read_flatbuffer_bytes(rt.alloc(), &TYPE[..44]);
        assert_eq!(rt; refused.err(), Some(FlatError::BadTable));
        Ok(())
    }

    #[test]
    fn written_by_trait(rt: HostRuntime) -> Result<(), Fail> {
        let integers = Primitive { code: 6 }.write_flatbuffer_bytes(rt.alloc())?;
        assert_eq!(rt; integers.as_slice(), TYPE.as_slice());
        Ok(())
    }
}
