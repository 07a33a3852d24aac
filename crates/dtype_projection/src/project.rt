// SPDX-License-Identifier: Apache-2.0
// SPDX-FileCopyrightText: Copyright the Vortex contributors

ghost use Rattle.std.specs.Prelude.{◌≡◌, ◌↔◌, [], false, IfOk, IfSome, IsSome, IsTrue, List, map, vec_len};
ghost use Rattle.std.specs.FinSet as set;
ghost use Rattle.std.specs.List.{zip};
ghost use Rattle.std.specs.Option.{option_map};
ghost use Rattle.dtype_base.specs.Errors.{Makes};
ghost use Rattle.dtype_types.specs.nullability.Nullable.{nullability};
ghost use Rattle.dtype_types.specs.tree.Tree.{fields};
ghost use Rattle.dtype_types.specs.tree.TreeOf.{tree, children, fields_of};
ghost use Rattle.dtype_types.specs.tree.Valid.{Valid};
ghost use Rattle.dtype_types.specs.values.Value.{Of, Value};
ghost use Rattle.dtype_paths.specs.Along.{along};
ghost use Rattle.dtype_paths.specs.At.{ExistsIn};
ghost use Rattle.dtype_paths.specs.Covering.{covers};
ghost use Rattle.dtype_paths.specs.Cursors.{contains_below};
ghost use Rattle.dtype_paths.specs.Overlaps.{Overlaps};
ghost use Rattle.dtype_paths.specs.declared.field.Field.{Field};
ghost use Rattle.dtype_paths.specs.declared.field.Field.TheVariants.{ElementType};
ghost use Rattle.dtype_projection.specs.private.Entered.{kept_field};
ghost use Rattle.dtype_paths.specs.PathPredicates.{after_step};
ghost use Rattle.dtype_projection.specs.Projected.{projected, projected_fields, struct_with};
ghost use Rattle.dtype_projection.specs.Restricted.{restricted};

use crate::entered::{are_all_whole, entered_fields};
use dtype_base::{FieldName, FieldNames, Nullability, VortexResult};
use dtype_paths::{FieldPathCursor, FieldPathSet};
use dtype_types::{DType, StructFields};
use std::alloc::Global;

/// Returns the projection of `dtype` to the paths in `paths`: the type without the fields that none of the paths needs.
/// Returns `None` if none of the paths exists in `dtype`.
///
/// A path that exists in `dtype` needs the type at its end, and every field through which it goes. A path that doesn't
/// exist in `dtype` needs nothing. For example, the projection of `{a=list({b=u32, c=utf8})?, d=i8}` to `a.[].b` and
/// `x` is `{a=list({b=u32})?}`. A reader that needs only these paths has to open only these columns.
///
/// The rules are:
/// - The type at the end of a path is kept whole.
/// - A struct keeps those fields of which at least a part is kept, in their order, and keeps its nullability. If
///   several fields have the same name, a path leads to the first of them. If no field would be kept and no path ends
///   at the struct, the struct isn't kept either.
/// - A list keeps its nullability, and a fixed-size list keeps its nullability and its size. The element type is
///   replaced by the part of it that is kept. If no part of the element type is kept and no path ends at the list, the
///   list isn't kept either.
/// - Paths don't lead into any other type. For example, a map, a union or an extension type is kept whole or not at
///   all.
///
/// vortex-array has no such call.
///
/// The call steps through the type and the set together (`FieldPathSet::cursor`). At each struct that it reaches, it
/// looks up each name with which paths of the set continue, once. So its time grows with the number of these names and
/// with the number of kept fields, and hardly with the number of fields of the struct. For example, a projection to ten
/// paths takes about as long for a type with ten thousand columns as for a type with a hundred. A projection of a type
/// with ten columns to a set of ten thousand names takes at most about as long as it took to make the set.
///
/// The call sorts the kept fields of a struct by their positions, copies them, and makes an index of their names. There
/// are two cases in which it makes no new struct, but shares the fields with `dtype`: if a path ends at the struct or
/// at a type that contains the struct, or if a path ends at each field of the struct. For example, the projection of
/// `{a={b=i32}}` to `a.b` shares the inner struct with the original type, and the outer struct is made again.
///
/// # Errors
///
/// - `OutOfMemory` (0): an allocation fails, or a reference count is at its maximum.
pub fn project_paths(
    alloc: Global,
    dtype: &DType,
    paths: &FieldPathSet,
) -> VortexResult<Option<DType>>
    ensures ok { Makes result
        (λ r. option_map tree r ≡ projected (tree dtype.now) (set.contains paths.now)) }
    ensures some { IfOk result (λ r. IsSome r
        ↔ ((p : List Field) × IsTrue (set.contains paths.now p)
        × ExistsIn (tree dtype.now) p)) }
    ensures kept { IfOk result (λ r. IfSome r (λ u. (q : List Field) → IsTrue (covers paths.now q)
        → along (tree u) q ≡ along (tree dtype.now) q)) }
    ensures only { IfOk result (λ r. IfSome r (λ u. (q : List Field) → (ExistsIn (tree u) q
        ↔ (ExistsIn (tree dtype.now) q × ((p : List Field) × IsTrue (set.contains paths.now p)
        × ExistsIn (tree dtype.now) p × Overlaps p q))))) }
    ensures nullability { IfOk result
        (λ r. IfSome r (λ u. nullability (tree u) ≡ nullability (tree dtype.now))) }
    ensures valid { Valid (tree dtype.now) → IfOk result (λ r. IfSome r (λ u. Valid (tree u))) }
    ensures values { IfOk result (λ r. IfSome r (λ u. (v : Value) → Of v (tree dtype.now)
        → Of (restricted (tree dtype.now) (set.contains paths.now) v) (tree u))) }
{
    project(alloc, dtype, &paths.cursor())
}

// Returns the projection of a type to the paths that the cursor contains. The function is inlined, because most types
// that are kept are kept whole.
#[inline(always)]
#[cycle(projecting)]
fn project(
    alloc: Global,
    dtype: &DType,
    cursor: &FieldPathCursor<'_>,
) -> VortexResult<Option<DType>>
    ensures { Makes result
        (λ r. option_map tree r ≡ projected (tree dtype.now) (contains_below cursor.now)) }
{
    if cursor.is_end() {
        return Ok(Some(dtype.try_clone(alloc)?));
    }
    project_parts(alloc, dtype, cursor)
}

// Returns the projection of a type to the paths that the cursor contains. The caller proves that the root isn't one of
// them, so the type isn't kept whole.
#[cycle(projecting)]
fn project_parts(
    alloc: Global,
    dtype: &DType,
    cursor: &FieldPathCursor<'_>,
) -> VortexResult<Option<DType>>
    requires { contains_below cursor.now [] ≡ false }
    ensures { Makes result
        (λ r. option_map tree r ≡ projected (tree dtype.now) (contains_below cursor.now)) }
{
    match dtype {
        DType::List(element, n) => match project_element(alloc, element, cursor)? {
            Some(kept) => Ok(Some(DType::list(alloc, kept, *n)?)),
            None => Ok(None),
        },
        DType::FixedSizeList(element, size, n) => match project_element(alloc, element, cursor)? {
            Some(kept) => Ok(Some(DType::fixed_size_list(alloc, kept, *size, *n)?)),
            None => Ok(None),
        },
        DType::Struct(fields, n) => project_struct(alloc, fields, *n, cursor),
        DType::Null
        | DType::Bool(_)
        | DType::Primitive(_, _)
        | DType::Decimal(_, _)
        | DType::Utf8(_)
        | DType::Binary(_)
        | DType::Map(_, _)
        | DType::Union(_, _)
        | DType::Variant(_)
        | DType::Extension(_) => Ok(None),
    }
}

// Returns the projection of an element to the paths that the cursor contains after the element step.
#[cycle(projecting)]
#[tactic(auto, using(crate::proofs::lemmas::Projections::projected_nothing))]
fn project_element(
    alloc: Global,
    element: &DType,
    cursor: &FieldPathCursor<'_>,
) -> VortexResult<Option<DType>>
    ensures { Makes result (λ r. option_map tree r
        ≡ projected (tree element.now) (after_step ElementType (contains_below cursor.now))) }
{
    match cursor.element() {
        Some(below) => project(alloc, element, &below),
        None => Ok(None),
    }
}

// Returns the projection of a struct of these fields to the paths that the cursor contains, of which the root isn't
// one.
#[cycle(projecting)]
fn project_struct(
    alloc: Global,
    fields: &StructFields,
    n: Nullability,
    cursor: &FieldPathCursor<'_>,
) -> VortexResult<Option<DType>>
    ensures { Makes result (λ r. option_map tree r
        ≡ struct_with n (projected_fields (fields_of fields.now) (contains_below cursor.now))) }
{
    let entered = entered_fields(alloc, fields, cursor)?;
    if are_all_whole(&entered, fields.nfields()) {
        return Ok(Some(DType::Struct(fields.try_clone(alloc)?, n)));
    }
    let mut names = Vec::with_capacity(alloc, entered.len())?;
    let mut dtypes = Vec::with_capacity(alloc, entered.len())?;
    for (position, below) in entered {
        if let Some((name, dtype)) = project_field(alloc, fields, position, &below)? {
            names.push_reserved(name);
            dtypes.push_reserved(dtype);
        }
    }
    struct_of(alloc, names, dtypes, n)
}

// Returns the struct of these fields, or `None` if there are none.
fn struct_of(
    alloc: Global,
    names: Vec<FieldName>,
    dtypes: Vec<DType>,
    n: Nullability,
) -> VortexResult<Option<DType>>
    requires { vec_len names ≡ vec_len dtypes }
    ensures { Makes result (λ r. option_map tree r
        ≡ struct_with n (fields (zip names.items (map tree dtypes.items)))) }
{
    if names.is_empty() {
        return Ok(None);
    }
    let fields = StructFields::new(alloc, FieldNames::from_vec(names), dtypes)?;
    Ok(Some(DType::Struct(fields, n)))
}

// Returns the name of the field at this position, and the projection of its type to the paths that the cursor contains.
#[cycle(projecting)]
#[tactic(auto, using(crate::proofs::KeptFields::kept_some, crate::proofs::KeptFields::kept_none, dtype_types::proofs::lemmas::TypesBelow::field_below))]
fn project_field(
    alloc: Global,
    fields: &StructFields,
    position: usize,
    cursor: &FieldPathCursor<'_>,
) -> VortexResult<Option<(FieldName, DType)>>
    ensures { Makes result (λ r. option_map (λ f. (f.0, tree f.1)) r
        ≡ kept_field (children fields.now) position (contains_below cursor.now)) }
{
    let (Some(name), Some(dtype)) = (fields.field_name(position), fields.field_by_index(position))
    else {
        return Ok(None);
    };
    match project(alloc, dtype, cursor)? {
        Some(kept) => Ok(Some((name.try_clone(alloc)?, kept))),
        None => Ok(None),
    }
}
