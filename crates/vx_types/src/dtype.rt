//! Logical types.

ghost use Rattle.std.specs.Prelude.{◌≡◌, ◌↔◌, ◌≤◌, ◌-◌, ◌^◌, IfOk, IfSome, IfNone, IsOkUnless, IsTrue, min};
ghost use Rattle.vx_trees.specs.Walks.{levels};
ghost use Rattle.vx_types.specs.Seen.{IsStruct, typ};
ghost use Rattle.vx_types.specs.Typ.{IsType};
ghost use Rattle.vx_types.specs.Words.{nullability, with_nullability};

use crate::decimal::DecimalDType;
use crate::error::TypeError;
use crate::ext::ExtDType;
use crate::map::MapDType;
use crate::nullability::Nullability;
use crate::same::is_same;
use crate::struct_fields::StructFields;
use crate::type_ref::TypeRef;
use crate::union_variants::UnionVariants;
use std::alloc::Global;
use vx_numbers::PType;

/// A logical type: the values that an array's rows may have, whatever its encoding.
#[cycle(dtype)]
#[derive(Debug)]
pub enum DType {
    /// Each row is null.
    Null,
    /// True or false.
    Bool(Nullability),
    /// A number of one kind.
    Primitive(PType, Nullability),
    /// A decimal number of a fixed number of digits.
    Decimal(DecimalDType, Nullability),
    /// UTF-8 text.
    Utf8(Nullability),
    /// Bytes.
    Binary(Nullability),
    /// Lists of any length; the type of the elements.
    List(TypeRef, Nullability),
    /// Lists of one length; the type of the elements, and the length.
    FixedSizeList(TypeRef, u32, Nullability),
    /// A value for each of the fields.
    Struct(StructFields, Nullability),
    /// A value of one of the members.
    Union(UnionVariants, Nullability),
    /// Entries, each a key and a value.
    Map(MapDType, Nullability),
    /// A value with a type of its own.
    Variant(Nullability),
    /// A type that is stored as another, under an identifier. It has the nullability
    /// of its storage.
    Extension(ExtDType),
}

// By hand, so that code that drops a type calls this and does not repeat the drops
// of its parts.
impl Drop for DType {
    #[cycle(dropping)]
    fn drop(self) {
        match self {
            DType::Null => {}
            DType::Bool(_) => {}
            DType::Primitive(_, _) => {}
            DType::Decimal(_, _) => {}
            DType::Utf8(_) => {}
            DType::Binary(_) => {}
            DType::List(_, _) => {}
            DType::FixedSizeList(_, _, _) => {}
            DType::Struct(_, _) => {}
            DType::Union(_, _) => {}
            DType::Map(_, _) => {}
            DType::Variant(_) => {}
            DType::Extension(_) => {}
        }
    }
}

impl DType {
    /// The fields and the nullability of a structure; `None` for any other type. It takes
    /// the type by value, so that a large list of fields is moved and not copied.
    pub fn into_struct(self) -> Option<(StructFields, Nullability)>
        ensures some { IfSome result (λ parts. self ≡ DType.Struct parts.0 parts.1) }
        ensures none { IfNone result (IsStruct self → ⊥) }
    {
        match self {
            DType::Struct(fields, nullability) => Some((fields, nullability)),
            _ => None,
        }
    }

    /// Whether rows may be null. `Null` is nullable, and an extension has the
    /// nullability of its storage.
    pub fn nullability(&self) -> Nullability
        ensures { result ≡ nullability (typ self.now) }
    {
        match self {
            DType::Null => Nullability::Nullable,
            DType::Bool(n)
            | DType::Primitive(_, n)
            | DType::Decimal(_, n)
            | DType::Utf8(n)
            | DType::Binary(n)
            | DType::List(_, n)
            | DType::FixedSizeList(_, _, n)
            | DType::Struct(_, n)
            | DType::Union(_, n)
            | DType::Map(_, n)
            | DType::Variant(n) => *n,
            DType::Extension(ext) => ext.storage_dtype().nullability(),
        }
    }

    /// The same type with this nullability. `Null` stays as it is; for an extension
    /// the nullability of its storage changes, as it has none of its own.
    #[cycle(nullable)]
    pub fn with_nullability(
        &self,
        alloc: Global,
        nullability: Nullability,
    ) -> Result<DType, TypeError>
        ensures ok { IfOk result (λ d. typ d ≡ with_nullability nullability (typ self.now)) }
        ensures err { IsOkUnless result TypeError.OutOfMemory }
    {
        match self {
            DType::Null => Ok(DType::Null),
            DType::Bool(_) => Ok(DType::Bool(nullability)),
            DType::Primitive(kind, _) => Ok(DType::Primitive(*kind, nullability)),
            DType::Decimal(digits, _) => Ok(DType::Decimal(*digits, nullability)),
            DType::Utf8(_) => Ok(DType::Utf8(nullability)),
            DType::Binary(_) => Ok(DType::Binary(nullability)),
            DType::List(part, _) => Ok(DType::List(part.clone(alloc)?, nullability)),
            DType::FixedSizeList(part, size, _) => {
                Ok(DType::FixedSizeList(part.clone(alloc)?, *size, nullability))
            }
            DType::Struct(fields, _) => Ok(DType::Struct(fields.clone(alloc)?, nullability)),
            DType::Union(members, _) => Ok(DType::Union(members.clone(alloc)?, nullability)),
            DType::Map(map, _) => Ok(DType::Map(map.clone(alloc)?, nullability)),
            DType::Variant(_) => Ok(DType::Variant(nullability)),
            DType::Extension(ext) => {
                Ok(DType::Extension(ext.with_nullability(alloc, nullability)?))
            }
        }
    }

    /// An equal type.
    #[cycle(copy)]
    pub fn clone(&self, alloc: Global) -> Result<DType, TypeError>
        ensures ok { IfOk result (λ d. d ≡ self.now) }
        ensures err { IsOkUnless result TypeError.OutOfMemory }
    {
        match self {
            DType::Null => Ok(DType::Null),
            DType::Bool(n) => Ok(DType::Bool(*n)),
            DType::Primitive(kind, n) => Ok(DType::Primitive(*kind, *n)),
            DType::Decimal(digits, n) => Ok(DType::Decimal(*digits, *n)),
            DType::Utf8(n) => Ok(DType::Utf8(*n)),
            DType::Binary(n) => Ok(DType::Binary(*n)),
            DType::List(part, n) => Ok(DType::List(part.clone(alloc)?, *n)),
            DType::FixedSizeList(part, size, n) => {
                Ok(DType::FixedSizeList(part.clone(alloc)?, *size, *n))
            }
            DType::Struct(fields, n) => Ok(DType::Struct(fields.clone(alloc)?, *n)),
            DType::Union(members, n) => Ok(DType::Union(members.clone(alloc)?, *n)),
            DType::Map(map, n) => Ok(DType::Map(map.clone(alloc)?, *n)),
            DType::Variant(n) => Ok(DType::Variant(*n)),
            DType::Extension(ext) => Ok(DType::Extension(ext.clone(alloc)?)),
        }
    }

    /// Whether the type has at most `limit` levels: a type without types within it
    /// has one level, and any other has one more than the deepest type within it. It takes
    /// no recursion, so it also answers for a type that is too deep to go into.
    pub fn is_within(&self, limit: u32) -> bool
        ensures within { IsTrue result ↔ (levels (typ self.now) ≤ limit) }
        ensures is_type { IsType (typ self.now) }
    {
        self.levels() <= limit as u64
    }

    // The number of levels, capped at the largest `u64`. Each part that holds types
    // stores theirs, so that this takes no recursion.
    pub(crate) fn levels(&self) -> u64
        ensures levels { result ≡ min (levels (typ self.now)) (2 ^ 64 - 1) }
        ensures is_type { IsType (typ self.now) }
    {
        match self {
            DType::Null
            | DType::Bool(_)
            | DType::Primitive(_, _)
            | DType::Utf8(_)
            | DType::Binary(_)
            | DType::Variant(_) => 1,
            DType::Decimal(digits, _) => {
                // Reads a field, so that the proof has the invariant of the digits.
                let _scale = digits.scale;
                1
            }
            DType::List(part, _) => part.levels().saturating_add(1),
            DType::FixedSizeList(part, size, _) => {
                // Reads the number, so that the proof has its range.
                let _size = *size;
                part.levels().saturating_add(1)
            }
            DType::Struct(fields, _) => fields.levels().saturating_add(1),
            DType::Union(members, _) => members.levels().saturating_add(1),
            DType::Map(map, _) => map.levels().saturating_add(1),
            DType::Extension(ext) => ext.levels().saturating_add(1),
        }
    }
}

impl PartialEq for DType {
    ghost use Rattle.vx_trees.specs.Same.{same};
    ghost use Rattle.vx_trees.proofs.Sameness.{same-partial_equivalence};
    ghost use Rattle.std.specs.Cmp.{on_per};
    ghost use Rattle.vx_types.specs.Typ.{typ_code};
    ghost use Rattle.vx_types.specs.Seen.{typ};

    ghost eq = { λ a b. same typ_code (typ a) (typ b) };

    ghost laws = { on_per typ (same-partial_equivalence typ_code) };

    #[tactic(auto, using(vx_trees::proofs::Sameness::sameness))]
    fn eq(&self, other: &DType) -> bool {
        is_same(self, other)
    }
}

impl Eq for DType {
    ghost use Rattle.vx_trees.proofs.Sameness.{same-equivalence};
    ghost use Rattle.std.specs.Cmp.{on_equiv};
    ghost use Rattle.vx_types.specs.Typ.{typ_code};
    ghost use Rattle.vx_types.specs.Seen.{typ};

    ghost laws = { on_equiv typ (same-equivalence typ_code) };
}
