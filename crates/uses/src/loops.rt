// SPDX-License-Identifier: Apache-2.0
// SPDX-FileCopyrightText: Copyright the Vortex contributors

//! Loops to copy, each with its invariant in `proofs/loops`: a search, names that are changed, structs of which the names
//! or the types are changed, columns that are bound, and a walk down a type. `over_fields` has a count and a test of all.
ghost use Rattle.std.specs.Prelude.{◌≡◌, Any, IfNone, IfOk, IfSome, None, Some, find, map};
ghost use Rattle.dtype_types.specs.parts.Lookups.{field_names, field_types};
ghost use Rattle.dtype_types.specs.nullability.Nullable.{set_null};
ghost use Rattle.dtype_types.specs.tree.Kinds.{is_nested};
ghost use Rattle.dtype_types.specs.tree.TreeOf.{children, tree};
ghost use Rattle.vortex_dtype.specs.Along.{along};
ghost use Rattle.vortex_dtype.specs.Types.Nullability.TheVariants.{Nullable};
ghost use Rattle.uses.specs.Loops.{innermost_type, renamed_fields, renaming};

use std::alloc::Global;
use vortex_dtype::{
    DType, FieldDType, FieldName, FieldNames, FieldPath, StructFields, VortexResult,
};

/// The first column that holds others.
pub fn first_nested(table: &StructFields) -> Option<&DType>
    ensures first { IfSome result (λ d. find is_nested (field_types (children table.now)) ≡ Some (tree d.now)) }
    ensures none { IfNone result (find is_nested (field_types (children table.now)) ≡ None) }
{
    for dtype in table.fields() {
        if dtype.is_nested() {
            return Some(dtype);
        }
    }
    None
}

/// The names, with each that is `from` changed to `to`.
pub fn renamed(
    alloc: Global,
    names: &FieldNames,
    from: &FieldName,
    to: &FieldName,
) -> VortexResult<Vec<FieldName>>
    ensures { IfOk result (λ list. list.items ≡ map (renaming from.now to.now) names.now) }
{
    let mut list = Vec::new(alloc);
    for name in names.iter() {
        let kept = if *name == *from { to } else { name };
        list.push(kept.try_clone(alloc)?)?;
    }
    Ok(list)
}

/// Returns the table in which each column `from` is called `to`. The types and their order are as before.
pub fn rename_column(
    alloc: Global,
    table: &StructFields,
    from: &FieldName,
    to: &FieldName,
) -> VortexResult<StructFields>
    ensures { IfOk result (λ s. children s ≡ renamed_fields from.now to.now (children table.now)) }
{
    let mut fields = Vec::new(alloc);
    for (name, dtype) in table.pairs() {
        let kept = if *name == *from { to } else { name };
        let column = FieldDType::from(dtype.try_clone(alloc)?);
        fields.push((kept.try_clone(alloc)?, column))?;
    }
    Ok(StructFields::from_iter(alloc, fields)?)
}

/// Returns the table in which each column is nullable. The names and the types are otherwise as before.
pub fn nullable_columns(alloc: Global, table: &StructFields) -> VortexResult<StructFields>
    ensures names { IfOk result (λ s. field_names (children s) ≡ field_names (children table.now)) }
    ensures types { IfOk result (λ s. map (λ t. Some t) (field_types (children s))
        ≡ map (λ t. set_null t Nullable) (field_types (children table.now))) }
{
    let mut fields = Vec::new(alloc);
    for (name, dtype) in table.pairs() {
        let column = FieldDType::from(dtype.as_nullable(alloc)?);
        fields.push((name.try_clone(alloc)?, column))?;
    }
    Ok(StructFields::from_iter(alloc, fields)?)
}

/// The types of some columns, or `None` exactly where the table lacks one.
pub fn bind_all<'a>(
    alloc: Global,
    columns: &[FieldPath],
    table: &'a DType,
) -> VortexResult<Option<Vec<&'a DType>>>
    ensures bound { IfOk result (λ found. IfSome found (λ types.
        map (λ d. Some (tree d.now)) types.items ≡ map (along (tree table.now)) columns.now)) }
    ensures unbound { IfOk result (λ found. IfNone found (Any (λ p. along (tree table.now) p ≡ None) columns.now)) }
{
    let mut types = Vec::new(alloc);
    for column in columns {
        match column.resolve(table) {
            Some(dtype) => types.push(dtype)?,
            None => return Ok(None),
        }
    }
    Ok(Some(types))
}

/// Returns the element type of the innermost list, or the type itself if it is no list.
#[tactic(auto, using(vortex_dtype::proofs::rulesets::smaller_parts))]
pub fn innermost(dtype: &DType) -> &DType
    ensures { tree result.now ≡ innermost_type (tree dtype.now) }
{
    let mut here = dtype;
    while let Some(element) = here.as_any_size_list_element_opt() {
        here = element;
    }
    here
}
