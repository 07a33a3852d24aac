// SPDX-License-Identifier: Apache-2.0
// SPDX-FileCopyrightText: Copyright the Vortex contributors

ghost use Rattle.std.specs.Prelude.{◌≡◌, ◌↔◌, ℕ, IfOk, IfSome, IsSome, IsTrue, List};
ghost use Rattle.std.specs.FinSet as set;
ghost use Rattle.std.specs.Option.{option_map};
ghost use Rattle.dtype_base.specs.Errors.{Makes};
ghost use Rattle.dtype_types.specs.nullability.Nullable.{nullability};
ghost use Rattle.dtype_types.specs.tree.TreeOf.{tree, fields_of};
ghost use Rattle.dtype_types.specs.tree.Valid.{Valid};
ghost use Rattle.dtype_paths.specs.Along.{along};
ghost use Rattle.dtype_paths.specs.At.{ExistsIn};
ghost use Rattle.dtype_paths.specs.Covering.{covers};
ghost use Rattle.dtype_paths.specs.Cursors.{contains_below};
ghost use Rattle.dtype_paths.specs.Overlaps.{Overlaps};
ghost use Rattle.dtype_paths.specs.PathPredicates.{after_step};
ghost use Rattle.dtype_paths.specs.declared.field.Field.{Field};
ghost use Rattle.dtype_edits.specs.Without.{elements, fields_without, without};

use dtype_base::VortexResult;
use dtype_paths::{Field, FieldPathCursor, FieldPathSet};
use dtype_types::{DType, FieldDType, StructFields};
use std::alloc::Global;

/// Returns `dtype` without the parts to which the paths in `paths` lead. Returns `None` if nothing is left. A path of the
/// set that doesn't exist in `dtype` changes nothing.
///
/// For example, `{a={b=i32, c=u8}, d=utf8}` without `a.b` and `d` is `{a={c=u8}}`. The call is the complement of
/// `project_paths`, which keeps only the parts to which the paths lead.
///
/// The rules are:
/// - A field of a struct is left out if a path of the set leads to it, or if nothing is left of its type. The other fields
///   keep their order, and the struct keeps its nullability. If several fields have the same name, each of them is treated
///   in the same way. For example, `{a=i32, b=u8, a=utf8}` without `a` is `{b=u8}`. If only the first of them goes, then
///   its name leads to the next: `{a=list(i32), a={b=u8}}` without `a.[]` is `{a={b=u8}}`.
/// - A struct that loses all its fields stays, without fields. Its rows can still be null, and a reader of other columns
///   needs to know how many rows there are. For example, `{a={b=i32}?}` without `a.b` is `{a={}?}`.
/// - A list without its element isn't a type. So if the element of a list is left out, the list is left out too. For
///   example, `{a=list(i32), b=u8}` without `a.[]` is `{b=u8}`, and nothing is left of `list(i32)` without `[]`.
/// - Paths don't lead into any other type. For example, a map, a union or an extension type is kept whole or left out.
///
/// So nothing is left exactly if the set contains a path of element steps alone that exists in `dtype`, such as the root.
///
/// vortex-array has no such call.
///
/// The call steps through the type and the set together (`FieldPathSet::cursor`). For each struct on the paths it looks up
/// the name of every field in the set, copies the fields that are kept, and makes an index of their names. Each part into
/// which no path of the set leads is copied by `try_clone`, which shares the contents of structs, unions and maps.
///
/// # Errors
///
/// - `OutOfMemory` (0): an allocation fails, or a reference count is at its maximum.
pub fn without_paths(
    alloc: Global,
    dtype: &DType,
    paths: &FieldPathSet,
) -> VortexResult<Option<DType>>
    ensures ok { Makes result (λ r. option_map tree r ≡ without (tree dtype.now) (set.contains paths.now)) }
    ensures some { IfOk result (λ r. IsSome r ↔ ((k : ℕ) → IsTrue (set.contains paths.now (elements k))
        → ¬ (ExistsIn (tree dtype.now) (elements k)))) }
    ensures gone { IfOk result (λ r. IfSome r (λ u. (q : List Field) → IsTrue (covers paths.now q) → ¬ (ExistsIn (tree u) q))) }
    ensures others { IfOk result (λ r. IfSome r (λ u. (q : List Field) → ExistsIn (tree dtype.now) q
        → ((p : List Field) → IsTrue (set.contains paths.now p) → ¬ (Overlaps p q)) → along (tree u) q ≡ along (tree dtype.now) q)) }
    ensures nullability { IfOk result (λ r. IfSome r (λ u. nullability (tree u) ≡ nullability (tree dtype.now))) }
    ensures valid { Valid (tree dtype.now) → IfOk result (λ r. IfSome r (λ u. Valid (tree u))) }
{
    remove(alloc, dtype, &paths.cursor())
}

// Returns what is left of a type without the paths that the cursor contains.
#[cycle(removing)]
fn remove(alloc: Global, dtype: &DType, cursor: &FieldPathCursor<'_>) -> VortexResult<Option<DType>>
    ensures { Makes result (λ r. option_map tree r ≡ without (tree dtype.now) (contains_below cursor.now)) }
{
    if cursor.is_end() {
        return Ok(None);
    }
    match dtype {
        DType::List(element, n) => {
            match remove_below(alloc, element, &Field::ElementType, cursor)? {
                Some(left) => Ok(Some(DType::list(alloc, left, *n)?)),
                None => Ok(None),
            }
        }
        DType::FixedSizeList(element, size, n) => {
            match remove_below(alloc, element, &Field::ElementType, cursor)? {
                Some(left) => Ok(Some(DType::fixed_size_list(alloc, left, *size, *n)?)),
                None => Ok(None),
            }
        }
        DType::Struct(fields, n) => Ok(Some(DType::Struct(
            remove_fields(alloc, fields, cursor)?,
            *n,
        ))),
        DType::Null
        | DType::Bool(_)
        | DType::Primitive(_, _)
        | DType::Decimal(_, _)
        | DType::Utf8(_)
        | DType::Binary(_)
        | DType::Map(_, _)
        | DType::Union(_, _)
        | DType::Variant(_)
        | DType::Extension(_) => Ok(Some(dtype.try_clone(alloc)?)),
    }
}

// Returns what is left of the type to which this step leads, without the paths that the cursor contains after the step.
#[cycle(removing)]
#[tactic(auto, using(crate::proofs::lemmas::Leaving::without_nothing))]
fn remove_below(
    alloc: Global,
    dtype: &DType,
    step: &Field,
    cursor: &FieldPathCursor<'_>,
) -> VortexResult<Option<DType>>
    ensures { Makes result (λ r. option_map tree r ≡ without (tree dtype.now) (after_step step.now (contains_below cursor.now))) }
{
    match cursor.step(step) {
        Some(below) => remove(alloc, dtype, &below),
        None => Ok(Some(dtype.try_clone(alloc)?)),
    }
}

// Returns the fields that are left without the paths that the cursor contains.
#[cycle(removing)]
fn remove_fields(
    alloc: Global,
    fields: &StructFields,
    cursor: &FieldPathCursor<'_>,
) -> VortexResult<StructFields>
    ensures { Makes result (λ s. fields_of s ≡ fields_without (fields_of fields.now) (contains_below cursor.now)) }
{
    let mut kept = Vec::with_capacity(alloc, fields.nfields())?;
    for (name, dtype) in fields.pairs() {
        let step = Field::Name(name.try_clone(alloc)?);
        if let Some(left) = remove_below(alloc, dtype, &step, cursor)? {
            kept.push((name.try_clone(alloc)?, FieldDType::from(left)))?;
        }
    }
    Ok(StructFields::from_iter(alloc, kept)?)
}
