// SPDX-License-Identifier: Apache-2.0
// SPDX-FileCopyrightText: Copyright the Vortex contributors

ghost use Rattle.std.specs.Prelude.{◌≡◌, ◌≢◌, ℕ, List, ◌∷◌, [], ◌++◌, ◌≤◌, IfNone, IfOk, IfSome, IsOk, MatchBool, MatchResult, Some, length, map, nat_lt};
ghost use Rattle.std.specs.List.{insert};
ghost use Rattle.dtype_base.specs.Distinct.{Distinct};
ghost use Rattle.dtype_base.specs.Errors.{Makes};
ghost use Rattle.dtype_base.specs.declared.vortex_error.VortexError.TheVariants.{IndexOutOfBounds, OutOfMemory};
ghost use Rattle.dtype_types.specs.parts.Lookups.{field_names, first_named};
ghost use Rattle.dtype_types.specs.tree.TreeOf.{children, fields_of, tree};
ghost use Rattle.dtype_types.specs.tree.Valid.{Valid, ValidItems};
ghost use Rattle.dtype_edits.specs.EditedFields.{IsFirstRepeat, new_name, renamed, with_named};

use crate::replace::{copied_types, with_dtype};
use dtype_base::{FieldName, FieldNames, IndexedNames, VortexError, VortexResult};
use dtype_types::{DType, StructFields};
use std::alloc::Global;

/// Returns the fields with one more at the end. For example, `a=i32` with the field `b` of type `utf8` are
/// `a=i32, b=utf8`. A field of this name that is there already stays, so the name may repeat.
///
/// vortex-array has no such call.
///
/// The call copies the names and the types, which share their contents with the originals, and makes an index of the names.
///
/// # Errors
///
/// - `OutOfMemory` (0): an allocation fails, or a reference count is at its maximum.
#[tactic(auto, using(crate::proofs::lemmas::EditingFields::field_pushed, crate::proofs::lemmas::EditingFields::insertion_valid))]
pub fn push_field(
    alloc: Global,
    fields: &StructFields,
    name: FieldName,
    dtype: DType,
) -> VortexResult<StructFields>
    ensures ok { Makes result (λ s. children s ≡ children fields.now ++ (name, tree dtype) ∷ []) }
    ensures valid { ValidItems (fields_of fields.now) → Valid (tree dtype) → IfOk result (λ s. ValidItems (fields_of s)) }
{
    let index = fields.nfields();
    Ok(inserted(alloc, fields, index, name, dtype)?)
}

/// Returns the fields with one more at this position, counted from 0. The fields from that position on come after it. For
/// example, `a=i32, b=utf8` with the field `c` of type `u8` at position 1 are `a=i32, c=u8, b=utf8`. If the position is
/// the number of fields, the field is the last, as by `push_field`. A field of this name that is there already stays, so
/// the name may repeat.
///
/// vortex-array has no such call.
///
/// The call copies the names and the types, which share their contents with the originals, and makes an index of the names.
///
/// # Errors
///
/// - `IndexOutOfBounds` (17): the position is above the number of fields. The error contains both.
/// - `OutOfMemory` (0): an allocation fails, or a reference count is at its maximum.
#[tactic(auto, using(crate::proofs::lemmas::EditingFields::insertion_valid))]
pub fn with_field_at(
    alloc: Global,
    fields: &StructFields,
    index: usize,
    name: FieldName,
    dtype: DType,
) -> VortexResult<StructFields>
    ensures ok { MatchResult result
        (λ s. children s ≡ insert (children fields.now) index (name, tree dtype))
        (λ e. MatchBool (nat_lt (length (children fields.now)) index)
        (e ≡ IndexOutOfBounds index (length (children fields.now))) (e ≡ OutOfMemory)) }
    ensures within { IsOk result → index ≤ length (children fields.now) }
    ensures valid { ValidItems (fields_of fields.now) → Valid (tree dtype) → IfOk result (λ s. ValidItems (fields_of s)) }
{
    let count = fields.nfields();
    if index > count {
        return Err(VortexError::IndexOutOfBounds {
            index,
            fields: count,
        });
    }
    Ok(inserted(alloc, fields, index, name, dtype)?)
}

/// Returns the fields with a field of this name and this type. If a field has the name, the type of the first such field is
/// replaced, and the field stays where it is. Otherwise the new field is added at the end. For example, `a=i32, b=utf8`
/// with the field `a` of type `u8` are `a=u8, b=utf8`, and with the field `c` of type `u8` they are
/// `a=i32, b=utf8, c=u8`.
///
/// vortex-array has no such call. For a field inside of a nested type there is `with_type_at`.
///
/// The call looks the name up, copies the names and the types, which share their contents with the originals, and makes an
/// index of the names.
///
/// # Errors
///
/// - `OutOfMemory` (0): an allocation fails, or a reference count is at its maximum.
pub fn with_field(
    alloc: Global,
    fields: &StructFields,
    name: FieldName,
    dtype: DType,
) -> VortexResult<StructFields>
    ensures ok { Makes result (λ s. children s ≡ with_named (children fields.now) name (tree dtype)) }
    ensures there { IfOk result (λ s. first_named (children s) name ≡ Some (tree dtype)) }
    ensures others { IfOk result (λ s. (n : List ℕ) → n ≢ name → first_named (children s) n ≡ first_named (children fields.now) n) }
    ensures valid { ValidItems (fields_of fields.now) → Valid (tree dtype) → IfOk result (λ s. ValidItems (fields_of s)) }
{
    match fields.find(name.as_str()) {
        Some(position) => Ok(with_dtype(alloc, fields, position, dtype)?),
        None => Ok(push_field(alloc, fields, name, dtype)?),
    }
}

/// Returns the fields with other names. The table `renames` has pairs of an old name and a new name, and each field whose
/// name is an old name gets the new one. All other fields keep their names, and an old name that no field has changes
/// nothing. For example, `a=i32, b=utf8` renamed by `a` to `b` and `b` to `a` are `b=i32, a=utf8`. If an old name is in the
/// table twice, the first pair counts. The types stay, and so does the order.
///
/// If a name would then occur twice, the call returns the first name that repeats as `Err` in place of the fields. That
/// also happens if it is a name that repeated before. With `with_fields_renamed_allowing_repeats` names may repeat.
///
/// vortex-array has no such call.
///
/// The call makes an index of the old names and one of the new names, looks the name of each field up in both, and copies
/// the types, which share their contents with the originals.
///
/// # Errors
///
/// - `OutOfMemory` (0): an allocation fails, or a reference count is at its maximum.
#[tactic(auto, using(crate::proofs::lemmas::EditingFields::renamed_names, crate::proofs::lemmas::EditingFields::renaming_valid))]
pub fn with_fields_renamed(
    alloc: Global,
    fields: &StructFields,
    renames: &[(FieldName, FieldName)],
) -> VortexResult<Result<StructFields, FieldName>>
    ensures ok { Makes result (λ r. MatchResult r
        (λ s. children s ≡ renamed renames.now (children fields.now))
        (λ n. IsFirstRepeat (map (new_name renames.now) (field_names (children fields.now))) n)) }
    ensures distinct { IfOk result (λ r. IfOk r (λ s. Distinct (field_names (children s)))) }
    ensures valid { ValidItems (fields_of fields.now) → IfOk result (λ r. IfOk r (λ s. ValidItems (fields_of s))) }
{
    let renamed = with_fields_renamed_allowing_repeats(alloc, fields, renames)?;
    match first_repeat(&renamed) {
        Some(name) => Ok(Err(name.try_clone(alloc)?)),
        None => Ok(Ok(renamed)),
    }
}

/// Returns the fields with other names, as `with_fields_renamed`, even if a name then occurs twice. For example,
/// `a=i32, b=utf8` renamed by `a` to `b` are `b=i32, b=utf8`.
///
/// vortex-array has no such call.
///
/// # Errors
///
/// - `OutOfMemory` (0): an allocation fails, or a reference count is at its maximum.
pub fn with_fields_renamed_allowing_repeats(
    alloc: Global,
    fields: &StructFields,
    renames: &[(FieldName, FieldName)],
) -> VortexResult<StructFields>
    ensures ok { Makes result (λ s. children s ≡ renamed renames.now (children fields.now)) }
    ensures valid { ValidItems (fields_of fields.now) → IfOk result (λ s. ValidItems (fields_of s)) }
{
    let old = old_names(alloc, renames)?;
    let mut names = Vec::with_capacity(alloc, fields.nfields())?;
    for name in fields.names().as_slice() {
        names.push(name_after(alloc, &old, renames, name)?)?;
    }
    let dtypes = copied_types(alloc, fields)?;
    Ok(StructFields::new(alloc, FieldNames::from_vec(names), dtypes)?)
}

// Returns the old names of the table, in order.
fn old_names(alloc: Global, renames: &[(FieldName, FieldName)]) -> VortexResult<IndexedNames>
    ensures { Makes result (λ names. names ≡ map (λ r. r.0) renames.now) }
{
    let mut names = Vec::with_capacity(alloc, renames.len())?;
    for rename in renames {
        names.push(rename.0.try_clone(alloc)?)?;
    }
    Ok(IndexedNames::new(alloc, FieldNames::from_vec(names))?)
}

// Returns the new name that the table has for this one. The names `old` are its old names.
#[tactic(auto, using(crate::proofs::lemmas::EditingFields::name_missing))]
fn name_after(
    alloc: Global,
    old: &IndexedNames,
    renames: &[(FieldName, FieldName)],
    name: &FieldName,
) -> VortexResult<FieldName>
    requires { old.now ≡ map (λ r. r.0) renames.now }
    ensures { Makes result (λ n. n ≡ new_name renames.now name.now) }
{
    match old.find_counted(name.as_str()).0 {
        Some(position) => Ok(renames[position].1.try_clone(alloc)?),
        None => Ok(name.try_clone(alloc)?),
    }
}

// Returns the first name that an earlier field has too.
#[tactic(auto, using(crate::proofs::lemmas::EditingFields::first_more, crate::proofs::lemmas::EditingFields::repeat_found, std::proofs::lemmas::Option::slice_get_read))]
fn first_repeat(fields: &StructFields) -> Option<&FieldName>
    ensures some { IfSome result (λ n. IsFirstRepeat (field_names (children fields.now)) n.now) }
    ensures none { IfNone result (Distinct (field_names (children fields.now))) }
{
    for (position, name) in fields.names().as_slice().iter().enumerate() {
        if fields.find(name.as_str()) != Some(position) {
            return Some(name);
        }
    }
    None
}

// Returns the fields with one more at this position.
fn inserted(
    alloc: Global,
    fields: &StructFields,
    index: usize,
    name: FieldName,
    dtype: DType,
) -> VortexResult<StructFields>
    requires { index ≤ length (children fields.now) }
    ensures { Makes result (λ s. children s ≡ insert (children fields.now) index (name, tree dtype)) }
{
    let mut names = copied_names(alloc, fields)?;
    names.insert(index, name)?;
    let mut dtypes = copied_types(alloc, fields)?;
    dtypes.insert(index, dtype)?;
    Ok(StructFields::new(alloc, FieldNames::from_vec(names), dtypes)?)
}

// Returns copies of the names of the fields, in order.
fn copied_names(alloc: Global, fields: &StructFields) -> VortexResult<Vec<FieldName>>
    ensures { Makes result (λ names. names.items ≡ field_names (children fields.now)) }
{
    let mut names = Vec::with_capacity(alloc, fields.nfields())?;
    for name in fields.names().as_slice() {
        names.push(name.try_clone(alloc)?)?;
    }
    Ok(names)
}
