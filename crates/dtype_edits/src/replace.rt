// SPDX-License-Identifier: Apache-2.0
// SPDX-FileCopyrightText: Copyright the Vortex contributors

ghost use Rattle.std.specs.Prelude.{◌≡◌, ◌↔◌, ◌<◌, IfOk, IfSome, IsSome, List, length, map, set};
ghost use Rattle.std.specs.List.{zip};
ghost use Rattle.std.specs.Option.{option_map};
ghost use Rattle.dtype_base.specs.Errors.{Makes};
ghost use Rattle.dtype_types.specs.parts.Lookups.{field_names, field_types};
ghost use Rattle.dtype_types.specs.tree.TreeOf.{tree, children};
ghost use Rattle.dtype_types.specs.tree.Valid.{Valid};
ghost use Rattle.dtype_paths.specs.Along.{along};
ghost use Rattle.dtype_paths.specs.At.{At, ExistsIn};
ghost use Rattle.dtype_paths.specs.Overlaps.{Overlaps};
ghost use Rattle.dtype_paths.specs.declared.field.Field.{Field};
ghost use Rattle.dtype_edits.specs.Replaced.{replaced};

use dtype_base::VortexResult;
use dtype_paths::{Field, FieldPath};
use dtype_types::{DType, StructFields};
use std::alloc::Global;

/// Returns `dtype` with the part at `path` replaced by `new`. Returns `None` if there is no part at the path, which means
/// that `path.resolve(dtype)` returns `None`.
///
/// For example, replacing the part of `{a=list(i32)?, b=u8}` at `a.[]` by `utf8` returns `{a=list(utf8)?, b=u8}`. At the
/// root it returns a copy of `new`. If several fields of a struct have the same name, a path leads to the first of them, so
/// only the first is replaced. The new type has its own nullability, and every other part keeps its own.
///
/// vortex-array has no such call.
///
/// For each struct on the path the call looks a name up, copies the fields and makes an index of their names. Each part that
/// the path doesn't go through is copied by `try_clone`, which shares the contents of structs, unions and maps.
///
/// # Errors
///
/// - `OutOfMemory` (0): an allocation fails, or a reference count is at its maximum.
pub fn with_type_at(
    alloc: Global,
    dtype: &DType,
    path: &FieldPath,
    new: &DType,
) -> VortexResult<Option<DType>>
    ensures ok { Makes result (λ r. option_map tree r ≡ replaced (tree dtype.now) path.now (tree new.now)) }
    ensures some { IfOk result (λ r. IsSome r ↔ ExistsIn (tree dtype.now) path.now) }
    ensures there { IfOk result (λ r. IfSome r (λ u. At (tree u) path.now (tree new.now))) }
    ensures others { IfOk result (λ r. IfSome r (λ u. (q : List Field) → ¬ (Overlaps path.now q)
        → along (tree u) q ≡ along (tree dtype.now) q)) }
    ensures valid { Valid (tree dtype.now) → Valid (tree new.now) → IfOk result (λ r. IfSome r (λ u. Valid (tree u))) }
{
    replace(alloc, dtype, path.parts(), new)
}

// Returns the type with the part at the path of these steps replaced.
fn replace(
    alloc: Global,
    dtype: &DType,
    steps: &[Field],
    new: &DType,
) -> VortexResult<Option<DType>>
    ensures { Makes result (λ r. option_map tree r ≡ replaced (tree dtype.now) steps.now (tree new.now)) }
{
    let Some((first, rest)) = steps.split_first() else {
        return Ok(Some(new.try_clone(alloc)?));
    };
    match (dtype, first) {
        (DType::List(element, n), Field::ElementType) => match replace(alloc, element, rest, new)? {
            Some(element) => Ok(Some(DType::list(alloc, element, *n)?)),
            None => Ok(None),
        },
        (DType::FixedSizeList(element, size, n), Field::ElementType) => match replace(
            alloc, element, rest, new,
        )? {
            Some(element) => Ok(Some(DType::fixed_size_list(alloc, element, *size, *n)?)),
            None => Ok(None),
        },
        (DType::Struct(fields, n), Field::Name(name)) => {
            let Some(position) = fields.find(name.as_str()) else {
                return Ok(None);
            };
            let Some(field) = fields.field_by_index(position) else {
                return Ok(None);
            };
            match replace(alloc, field, rest, new)? {
                Some(dtype) => Ok(Some(DType::Struct(
                    with_dtype(alloc, fields, position, dtype)?,
                    *n,
                ))),
                None => Ok(None),
            }
        }
        _ => Ok(None),
    }
}

// Returns the fields with the type of the field at this position replaced.
pub(crate) fn with_dtype(
    alloc: Global,
    fields: &StructFields,
    position: usize,
    dtype: DType,
) -> VortexResult<StructFields>
    requires { position < length (field_types (children fields.now)) }
    ensures { Makes result (λ s. children s
        ≡ zip (field_names (children fields.now)) (set (field_types (children fields.now)) position (tree dtype))) }
{
    let dtypes = replaced_types(alloc, fields, position, dtype)?;
    let names = fields.names().try_clone(alloc)?;
    Ok(StructFields::new(alloc, names, dtypes)?)
}

// Returns copies of the types of the fields, with the one at this position replaced.
#[tactic(auto, using(crate::proofs::PlacedFields::set_mapped))]
fn replaced_types(
    alloc: Global,
    fields: &StructFields,
    position: usize,
    dtype: DType,
) -> VortexResult<Vec<DType>>
    requires { position < length (field_types (children fields.now)) }
    ensures { Makes result (λ dtypes. map tree dtypes.items ≡ set (field_types (children fields.now)) position (tree dtype)) }
{
    let mut dtypes = copied_types(alloc, fields)?;
    dtypes[position] = dtype;
    Ok(dtypes)
}

// Returns copies of the types of the fields, in order.
pub(crate) fn copied_types(alloc: Global, fields: &StructFields) -> VortexResult<Vec<DType>>
    ensures { Makes result (λ dtypes. map tree dtypes.items ≡ field_types (children fields.now)) }
{
    let mut dtypes = Vec::with_capacity(alloc, fields.nfields())?;
    for dtype in fields.fields() {
        dtypes.push(dtype.try_clone(alloc)?)?;
    }
    Ok(dtypes)
}
