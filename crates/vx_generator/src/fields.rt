//! The fields of a table's type.

ghost use Rattle.std.specs.Prelude.{◌≡◌, ◌∷◌, [], codes, IfOk, IsOkUnless};
ghost use Rattle.vx_types.specs.Seen.{typ};
ghost use Rattle.vx_generator.specs.Made.{lists_type, made_fields, numbers_type, texts_type};

use std::alloc::Global;
use vx_types::{DType, DTypes, Name, Names, Nullability, PType, StructFields, TypeError, TypeRef};

/// The names and the types of the three fields.
pub(crate) fn fields_of(alloc: Global) -> Result<StructFields, TypeError>
    ensures ok { IfOk result (λ fields. fields ≡ made_fields) }
    ensures err { IsOkUnless result TypeError.OutOfMemory }
{
    let names = names_of(alloc)?;
    let types = types_of(alloc)?;
    StructFields::try_new(names, types)
}

// The names of the fields.
fn names_of(alloc: Global) -> Result<Names, TypeError>
    ensures ok { IfOk result (λ names. names ≡ codes "a" ∷ codes "b" ∷ codes "c" ∷ []) }
    ensures err { IsOkUnless result TypeError.OutOfMemory }
{
    let mut names = Names::new(alloc);
    names.push(Name::new(alloc, "a")?)?;
    names.push(Name::new(alloc, "b")?)?;
    names.push(Name::new(alloc, "c")?)?;
    Ok(names)
}

// Their types.
fn types_of(alloc: Global) -> Result<DTypes, TypeError>
    ensures ok { IfOk result (λ types. types ≡ numbers_type ∷ texts_type ∷ lists_type ∷ []) }
    ensures err { IsOkUnless result TypeError.OutOfMemory }
{
    let mut types = DTypes::new(alloc);
    types.push(DType::Primitive(PType::I64, Nullability::Nullable))?;
    types.push(DType::Utf8(Nullability::NonNullable))?;
    types.push(lists_type(alloc)?)?;
    Ok(types)
}

// The type of lists of numbers.
fn lists_type(alloc: Global) -> Result<DType, TypeError>
    ensures ok { IfOk result (λ dtype. typ dtype ≡ lists_type) }
    ensures err { IsOkUnless result TypeError.OutOfMemory }
{
    let element = DType::Primitive(PType::U16, Nullability::NonNullable);
    let element = TypeRef::new(alloc, element)?;
    Ok(DType::List(element, Nullability::NonNullable))
}
