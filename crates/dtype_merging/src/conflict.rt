// SPDX-License-Identifier: Apache-2.0
// SPDX-FileCopyrightText: Copyright the Vortex contributors

ghost use Rattle.std.specs.Prelude.{◌≡◌, ◌∷◌, IfNone, IfOk, IfSome, IsSome, None, Some, reverse};
ghost use Rattle.std.specs.Option.{option_map};
ghost use Rattle.dtype_base.specs.Errors.{Makes};
ghost use Rattle.dtype_types.specs.tree.TreeOf.{fields_of, tree};
ghost use Rattle.dtype_paths.specs.Along.{along};
ghost use Rattle.dtype_paths.specs.declared.field.Field.TheVariants.{ElementType};
ghost use Rattle.dtype_merging.specs.Conflicts.{ConflictsAt, fields_conflict, first_conflict, root_unless};
ghost use Rattle.dtype_merging.specs.MergedColumns.{columns_merged};

use crate::merge::{have_no_repeats, merge_columns};
use crate::widening::Widening;
use dtype_base::VortexResult;
use dtype_paths::{Field, FieldPath};
use dtype_types::{DType, StructFields};
use std::alloc::Global;

/// A place at which two types can't be merged: a path that leads to a type in both, and these two types.
///
/// For example, the conflict of `{customer={id=u64}}` and `{customer={id=utf8}}` is at the path `customer.id`, where the
/// types are `u64` and `utf8`.
#[derive(Debug, Drop)]
pub struct MergeConflict<'a> {
    /// The path from both types to the place.
    pub path: FieldPath,
    /// The type at the path in the first type.
    pub left: &'a DType,
    /// The type at the path in the second type.
    pub right: &'a DType,
}

/// Returns the first place at which `merge_columns` can't merge the two types, with the same choice which numbers may be
/// read as wider ones, or `None` if it can merge them. So a
/// program can report that `customer.id` is `u64` in one file and `utf8` in another.
///
/// The fields are visited in the order of the first type, and a field is visited with everything in it before the next.
/// For example, the conflict of `{a=list(i32), b=i32}` and `{b=utf8, a=list(utf8)}` is at `a.[]`. The conflict of
/// `{a=i32}` and `{a=i64}` is at `a` with `Widening::None`, and there is none with `Widening::Integers`. The path leads only
/// into structs, lists and fixed-size lists. If two maps, two unions, two extensions, or two structs in which a name
/// repeats can't be merged, the path ends there.
///
/// vortex-array has no such call.
///
/// The call takes about as long as `merge_columns`. It allocates the path, and the merged types of maps, unions,
/// extensions, and structs in which a name repeats, which it drops.
///
/// # Errors
///
/// - `OutOfMemory` (0): an allocation fails, or a reference count is at its maximum.
#[tactic(auto, using(crate::proofs::lemmas::Conflicting::conflicting))]
pub fn merge_conflict<'a>(
    alloc: Global,
    a: &'a DType,
    b: &'a DType,
    widening: Widening,
) -> VortexResult<Option<MergeConflict<'a>>>
    ensures ok { Makes result (λ r. option_map (λ c. c.path) r ≡ first_conflict widening (tree a.now) (tree b.now)) }
    ensures none { IfOk result (λ r. IfNone r (IsSome (columns_merged widening (tree a.now) (tree b.now)))) }
    ensures some { IfOk result (λ r. IfSome r (λ c. columns_merged widening (tree a.now) (tree b.now) ≡ None)) }
    ensures at { IfOk result (λ r. IfSome r (λ c.
        ConflictsAt widening (tree a.now) (tree b.now) c.path (tree c.left.now) (tree c.right.now))) }
{
    let Some(mut steps) = conflict_steps(alloc, a, b, widening)? else {
        return Ok(None);
    };
    steps.reverse();
    let path = FieldPath::from_vec(steps);
    let left = resolved(&path, a);
    let right = resolved(&path, b);
    Ok(Some(MergeConflict { path, left, right }))
}

// Returns the type at the path. The caller proves that there is one.
fn resolved<'a>(path: &FieldPath, dtype: &'a DType) -> &'a DType
    requires { IsSome (along (tree dtype.now) path.now) }
    ensures { Some (tree result.now) ≡ along (tree dtype.now) path.now }
{
    match path.resolve(dtype) {
        Some(found) => found,
        None => unreachable!(),
    }
}

// Returns the steps of the path to the first conflict, the last step first, or `None` if there is no conflict.
#[cycle(conflicting)]
fn conflict_steps(
    alloc: Global,
    a: &DType,
    b: &DType,
    widening: Widening,
) -> VortexResult<Option<Vec<Field>>>
    ensures { Makes result (λ r. option_map (λ v. reverse v.items) r ≡ first_conflict widening (tree a.now) (tree b.now)) }
{
    match (a, b) {
        (DType::List(t, _), DType::List(u, _)) => in_element(conflict_steps(
            alloc, t, u, widening,
        )?),
        (DType::FixedSizeList(t, j, _), DType::FixedSizeList(u, k, _)) => {
            if *j != *k {
                return Ok(Some(Vec::new(alloc)));
            }
            in_element(conflict_steps(alloc, t, u, widening)?)
        }
        (DType::Struct(fields, _), DType::Struct(others, _)) => {
            if have_no_repeats(fields, others) {
                field_conflict(alloc, fields, others, widening)
            } else {
                whole_conflict(alloc, a, b, widening)
            }
        }
        _ => whole_conflict(alloc, a, b, widening),
    }
}

// Returns no steps if the two types can't be merged, and `None` if they can.
fn whole_conflict(
    alloc: Global,
    a: &DType,
    b: &DType,
    widening: Widening,
) -> VortexResult<Option<Vec<Field>>>
    ensures { Makes result (λ r. option_map (λ v. reverse v.items) r ≡ root_unless (columns_merged widening (tree a.now) (tree b.now))) }
{
    match merge_columns(alloc, a, b, widening)? {
        Some(_) => Ok(None),
        None => Ok(Some(Vec::new(alloc))),
    }
}

// Returns the steps to a conflict in an element, of which the first is the step to the element.
fn in_element(steps: Option<Vec<Field>>) -> VortexResult<Option<Vec<Field>>>
    ensures { Makes result (λ r. option_map (λ v. reverse v.items) r
        ≡ option_map (λ p. ElementType ∷ p) (option_map (λ v. reverse v.items) steps)) }
{
    match steps {
        Some(steps) => Ok(Some(with_step(steps, Field::ElementType)?)),
        None => Ok(None),
    }
}

// Returns the steps with one more at their end, which is the first step of the path.
fn with_step(steps: Vec<Field>, step: Field) -> VortexResult<Vec<Field>>
    ensures { Makes result (λ v. reverse v.items ≡ step ∷ reverse steps.items) }
{
    let mut steps = steps;
    steps.push(step)?;
    Ok(steps)
}

// Returns the steps of the path to the first conflict of the fields of two structs in which no name repeats.
#[cycle(conflicting)]
fn field_conflict(
    alloc: Global,
    a: &StructFields,
    b: &StructFields,
    widening: Widening,
) -> VortexResult<Option<Vec<Field>>>
    ensures { Makes result (λ r. option_map (λ v. reverse v.items) r ≡ fields_conflict widening (fields_of a.now) (fields_of b.now)) }
{
    for (name, dtype) in a.pairs() {
        if let Some(other) = b.field(name.as_str()) {
            if let Some(steps) = conflict_steps(alloc, dtype, other, widening)? {
                return Ok(Some(with_step(steps, Field::Name(name.try_clone(alloc)?))?));
            }
        }
    }
    Ok(None)
}
