//! Dictionary arrays, whose codes are indices into their values.

ghost use Rattle.std.specs.Prelude.{◌≡◌, ◌<◌, ◌≤◌, ◌↔◌, ◌∷◌, [], IfOk, IfErr, IfSome, IfNone, IsOkUnless, IsTrue};
ghost use Rattle.vx_trees.specs.Rose.{count, end, label, more, node, roses_of};
ghost use Rattle.vx_trees.specs.Walks.{nodes_of};
ghost use Rattle.vx_types.specs.Seen.{typ};
ghost use Rattle.vx_array_tree.specs.Body as B;
ghost use Rattle.vx_array_tree.specs.Encodings.Dicts.{Content, IsCode, raised, rows as rows_of_dicts};
ghost use Rattle.vx_array_tree.specs.Refused.{IsWellShaped};
ghost use Rattle.vx_array_tree.specs.Rows.{IsThere};
ghost use Rattle.vx_array_tree.specs.Sound.{IsSound, IsSoundNode};
ghost use Rattle.vx_array_tree.specs.Tree.{rows_below, rows_of, untold};
ghost use Rattle.vx_arrays.specs.Compared.{compared_body};
ghost use Rattle.vx_arrays.specs.Dicts.{AreDictChildren, IsOfCodes, dict_head, dict_tree};
ghost use Rattle.vx_arrays.specs.Parts.{AreThere, parts_cells, parts_nodes, parts_value};
ghost use Rattle.vx_arrays.specs.Refused.{RefusesMaking, IsOkOrMemory};

use crate::array::Array;
use crate::body::Body;
use crate::construction::over_children;
use crate::control::is_controlled;
use crate::list::Arrays;
use crate::parts::RowParts;
use crate::validity::listed;
use std::alloc::Global;
use std::marker::Model;
use vx_rows::{ArrayError, LoneRow};
use vx_types::{DType, Nullability, or_memory};

/// What a dictionary node holds beside its codes and its values: a flag, kept as given.
#[derive(Drop)]
pub struct DictData {
    all_values_referenced: bool,
}

impl Model for DictData {
    ghost use Rattle.vx_array_tree.specs.Encodings.Dicts.{Data, data_code};

    ghost Value = { Data };

    ghost coded = { data_code };

    ghost view = { λ x. record { all_values_referenced = x.all_values_referenced } };
}

impl DictData {
    /// Whether the flag says that each value is referenced by some code. It is not checked.
    pub fn all_values_referenced(&self) -> bool
        ensures { result ≡ self.now.all_values_referenced }
    {
        self.all_values_referenced
    }

    // Two flags always compare as equal.
    pub(crate) fn array_eq(&self, other: &DictData) -> bool
        ensures { IsTrue result ↔ (compared_body (B.dict self.now) ≡ compared_body (B.dict other.now)) }
    {
        let _flags = (self.all_values_referenced, other.all_values_referenced);
        true
    }

    // A copy.
    pub(crate) fn clone(&self) -> DictData
        ensures { result ≡ self.now }
    {
        DictData {
            all_values_referenced: self.all_values_referenced,
        }
    }

    // The codes and the values among the children of a node of this type and length.
    #[tactic(auto, using(crate::proofs::Dictionaries::pairs))]
    pub(crate) fn pair_in<'a>(
        &self,
        dtype: &DType,
        len: usize,
        children: &'a [Array],
    ) -> (&'a Array, &'a Array)
        requires { IsSoundNode (untold (typ dtype.now) len (B.dict self.now)) (roses_of children.now) }
        ensures pair { roses_of children.now ≡ more result.0.now (more result.1.now end) }
        ensures rows { (label result.0.now).len ≡ len }
    {
        let _flag = self.all_values_referenced;
        let _type = dtype;
        let _len = len;
        match pair_of(children) {
            Some(pair) => pair,
            None => unreachable!(),
        }
    }

    // The parts of a row of a node of this type, length and children.
    #[tactic(auto, using(crate::proofs::Dictionaries::dict_parts))]
    pub(crate) fn parts_at<'a>(
        &self,
        dtype: &DType,
        len: usize,
        children: &'a [Array],
        index: usize,
    ) -> RowParts<'a>
        requires sound { IsSoundNode (untold (typ dtype.now) len (B.dict self.now)) (roses_of children.now) }
        requires inside { index < len }
        ensures value { let rows = rows_of_dicts len (rows_below (roses_of children.now)) in
            parts_value result ≡ rows.row index }
        ensures cells { let rows = rows_of_dicts len (rows_below (roses_of children.now)) in
            parts_cells result ≡ rows.cells index }
        ensures there { AreThere result }
        ensures smaller { parts_nodes result ≤ nodes_of (roses_of children.now) }
    {
        let (codes, array) = self.pair_in(dtype, len, children);
        match codes.natural_at(index) {
            Some(code) => {
                let index = code as usize;
                RowParts::At { array, index }
            }
            None => match codes.is_valid(index) {
                Some(_) => RowParts::Lone(LoneRow::Null),
                None => RowParts::Lone(LoneRow::Opaque),
            },
        }
    }
}

/// Dictionary arrays, whose codes are indices into their values.
pub struct DictArray {}

impl DictArray {
    /// The identifier of the encoding.
    pub const ID: &'static str = "vortex.dict";

    /// The array whose row is the value at the row's code. A row is null where its code or that value is. The flag
    /// says that each value is referenced by some code; it is kept as given and not checked.
    ///
    /// `BadShape` where the codes are not integers. `ForeignControl` where they hold a foreign node. `BadContent`
    /// where a code that is not null is below 0, or not below the number of values.
    pub fn try_new(
        alloc: Global,
        codes: Array,
        values: Array,
        all_values_referenced: bool,
    ) -> Result<Array, ArrayError>
        ensures ok { IfOk result (λ a. a ≡ dict_tree codes values all_values_referenced) }
        ensures sound { IfOk result IsSound }
        ensures err { IfErr result (λ e. RefusesMaking e (dict_tree codes values all_values_referenced)) }
        ensures complete { IsSound (dict_tree codes values all_values_referenced) → IsOkOrMemory result }
    {
        let len = codes.len();
        let dtype = raised_type(alloc, codes.dtype().nullability(), values.dtype());
        let children = listed(alloc, codes, values, None);
        match (dtype, children) {
            (Ok(dtype), Ok(children)) => {
                DictArray::of_children(alloc, dtype, len, children, all_values_referenced)
            }
            _ => Err(ArrayError::OutOfMemory),
        }
    }

    /// The array of a node of this type and length over these children, which holds this flag.
    ///
    /// Refused as by [`DictArray::try_new`], and as `BadShape` where they are not codes of this length and values of
    /// the type, which may lack the nullability of the codes.
    pub fn of_children(
        alloc: Global,
        dtype: DType,
        len: usize,
        children: Arrays,
        all_values_referenced: bool,
    ) -> Result<Array, ArrayError>
        ensures ok { IfOk result (λ a. a ≡ node (dict_head (typ dtype) len all_values_referenced) children) }
        ensures sound { IfOk result IsSound }
        ensures err { IfErr result (λ e. RefusesMaking e (node (dict_head (typ dtype) len all_values_referenced) children)) }
        ensures complete { IsSound (node (dict_head (typ dtype) len all_values_referenced) children) → IsOkOrMemory result }
    {
        let flag = all_values_referenced;
        match is_shaped(alloc, &dtype, len, flag, children.as_slice()) {
            Ok(shaped) => {
                let body = Body::Dict(DictData {
                    all_values_referenced,
                });
                let right = shaped
                    && is_controlled(&dtype, len, &body, children.as_slice())
                    && has_content(&dtype, len, flag, children.as_slice());
                over_children(dtype, len, body, children.into_vec(), shaped, right)
            }
            Err(error) => Err(error),
        }
    }
}

// The two arrays, if there are exactly two.
fn pair_of(children: &[Array]) -> Option<(&Array, &Array)>
    ensures some { IfSome result (λ pair. roses_of children.now ≡ more pair.0.now (more pair.1.now end)) }
    ensures none { IfNone result (count (roses_of children.now) ≡ 2 → ⊥) }
{
    if children.len() != 2 {
        return None;
    }
    Some((&children[0], &children[1]))
}

// Whether a type is one of codes.
fn is_of_codes(dtype: &DType) -> bool
    ensures { IsTrue result ↔ IsOfCodes (typ dtype.now) }
{
    match dtype {
        DType::Primitive(kind, _) => kind.is_int(),
        _ => false,
    }
}

// A type that is also nullable where the given nullability is.
fn raised_type(alloc: Global, nullability: Nullability, dtype: &DType) -> Result<DType, ArrayError>
    ensures ok { IfOk result (λ d. typ d ≡ raised nullability (typ dtype.now)) }
    ensures err { IsOkUnless result ArrayError.OutOfMemory }
{
    let raised = match nullability {
        Nullability::Nullable => dtype.with_nullability(alloc, Nullability::Nullable),
        Nullability::NonNullable => dtype.clone(alloc),
    };
    Ok(or_memory(raised)?)
}

// Whether the values' type, nullable also where the codes are, is the dictionary's. It allocates only where the codes
// are nullable and the values are not.
fn is_raised(
    alloc: Global,
    nullability: Nullability,
    values: &DType,
    dtype: &DType,
) -> Result<bool, ArrayError>
    ensures ok { IfOk result (λ b. IsTrue b ↔ (raised nullability (typ values.now) ≡ typ dtype.now)) }
    ensures err { IsOkUnless result ArrayError.OutOfMemory }
{
    match values.nullability() {
        Nullability::Nullable => Ok(*values == *dtype),
        Nullability::NonNullable => {
            let raised = raised_type(alloc, nullability, values)?;
            Ok(raised == *dtype)
        }
    }
}

// Whether arrays are the codes and the values of a dictionary of this type and length.
fn are_paired(
    alloc: Global,
    dtype: &DType,
    len: usize,
    codes: &Array,
    values: &Array,
) -> Result<bool, ArrayError>
    ensures ok { IfOk result (λ b. IsTrue b ↔ AreDictChildren (typ dtype.now) len codes.now values.now) }
    ensures err { IsOkUnless result ArrayError.OutOfMemory }
{
    if codes.len() != len || !is_of_codes(codes.dtype()) {
        return Ok(false);
    }
    is_raised(alloc, codes.dtype().nullability(), values.dtype(), dtype)
}

// Whether arrays are the children of a dictionary: codes and values.
#[tactic(auto, using(crate::proofs::Dictionaries::shapes))]
fn is_shaped(
    alloc: Global,
    dtype: &DType,
    len: usize,
    flag: bool,
    children: &[Array],
) -> Result<bool, ArrayError>
    ensures ok { IfOk result (λ b. IsTrue b ↔ IsWellShaped (dict_head (typ dtype.now) len flag) (roses_of children.now)) }
    ensures err { IsOkUnless result ArrayError.OutOfMemory }
{
    let _flag = flag;
    match pair_of(children) {
        Some((codes, values)) => are_paired(alloc, dtype, len, codes, values),
        None => Ok(false),
    }
}

// Whether the content of codes and values is right: each code that is not null is an index into the values.
#[tactic(auto, using(crate::proofs::Dictionaries::contents))]
fn has_content(dtype: &DType, len: usize, flag: bool, children: &[Array]) -> bool
    requires { IsWellShaped (dict_head (typ dtype.now) len flag) (roses_of children.now) }
    ensures { IsTrue result ↔ Content len (rows_below (roses_of children.now)) }
{
    let _type = dtype;
    let _flag = flag;
    match pair_of(children) {
        Some((codes, values)) => are_codes(codes, values, len),
        None => unreachable!(),
    }
}

// The same of the two.
fn are_codes(codes: &Array, values: &Array, len: usize) -> bool
    requires counted { (label codes.now).len ≡ len }
    ensures { IsTrue result ↔ Content len (rows_of codes.now ∷ rows_of values.now ∷ []) }
{
    for i in 0..len {
        if !is_code(codes, values, i) {
            return false;
        }
    }
    true
}

// Whether a row's code, where it is not null, is an index into the values.
#[tactic(auto, using(crate::proofs::Dictionaries::code_steps))]
fn is_code(codes: &Array, values: &Array, index: usize) -> bool
    requires inside { index < (label codes.now).len }
    ensures { IsTrue result ↔ (IsThere (rows_of codes.now).valid index → IsCode (rows_of codes.now ∷ rows_of values.now ∷ []) index) }
{
    match codes.natural_at(index) {
        Some(code) => code < values.len() as u64,
        None => match codes.is_valid(index) {
            Some(valid) => !valid,
            None => true,
        },
    }
}
