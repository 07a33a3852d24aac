// SPDX-License-Identifier: Apache-2.0
// SPDX-FileCopyrightText: Copyright the Vortex contributors

ghost use Rattle.std.specs.Prelude.{◌≡◌, ◌++◌, ◌∷◌, ◌&&◌, [], IsOkUnless, None, OnOk, Option, Some};
ghost use Rattle.dtype_base.specs.Errors.{Makes};
ghost use Rattle.dtype_base.specs.declared.vortex_error.VortexError.TheVariants.{OutOfMemory};
ghost use Rattle.dtype_types.specs.equality.Equality.{same_by};
ghost use Rattle.dtype_types.specs.tree.TreeOf.{children, fields_of, shown, tree};
ghost use Rattle.dtype_paths.specs.declared.field.Field.TheVariants.{Name};
ghost use Rattle.dtype_edits.specs.Differences.{added, allowed, by_name, common_names as common_names_spec, differences as differences_spec, each_below, in_field, in_fields, no_repeats, nothing_ignored, seen, whole};
ghost use Rattle.dtype_edits.specs.ShownDifferences.{all_shown};
ghost use Rattle.dtype_edits.specs.private.Behind.{behind};

use dtype_base::{FieldName, FieldNames, Nullability, VortexResult};
use dtype_paths::{Field, FieldPath};
use dtype_types::{DType, StructFields};
use std::alloc::Global;

/// A part in which two types differ: a path, and the types at the path before and after.
///
/// For example, if the field `a` of type `i32` is removed, the path is `a`, the type before is `i32`, and there is no type
/// after.
#[derive(Debug, Drop)]
pub struct Difference<'a> {
    /// The path to the part.
    pub path: FieldPath,
    /// The type at the path before, or `None` if the part is added.
    pub before: Option<&'a DType>,
    /// The type at the path after, or `None` if the part is removed.
    pub after: Option<&'a DType>,
}

/// What [`differences_ignoring`] doesn't count as a difference. For example, with `nullability` alone `list(i32?)` and
/// `list(i32)?` don't differ, and `{a=i32, b=u8}` and `{b=u8, a=i32}` do.
#[derive(Clone, Copy, Debug, PartialEq, Eq)]
pub struct Ignoring {
    /// Whether nullabilities are ignored.
    pub nullability: bool,
    /// Whether the order of the fields of a struct is ignored, if no name repeats in it.
    pub order: bool,
}

/// Returns what differs between two types: the parts that are changed, removed and added, each with its path and its types
/// before and after.
///
/// For example, from `{a=i32, b={x=u8}}` to `{b={x=i8, y=u8}}` the part at `a` is removed, the part at `b.x` is changed, and
/// the part at `b.y` is added. A part below a listed part isn't listed. So if a list becomes nullable, the list is changed,
/// and its element isn't listed.
///
/// There is no difference exactly if the two types are equal. A type is changed as a whole if no path leads to what differs
/// in it. These are maps, unions and extensions, and two structs if a name repeats in one of them, because a path leads
/// only to the first field of that name, or if the fields that both have are in another order.
///
/// The differences are in the order of the fields before, and in each struct those that are added come last, in their order
/// after. The list doesn't tell where they stand between the others. No two differences have the same path, and no path is
/// a prefix of another.
///
/// vortex-array has no such call.
///
/// The call visits each part of the two types a fixed number of times, looks up the name of each field, and allocates the
/// paths.
///
/// # Errors
///
/// - `OutOfMemory` (0): an allocation fails, or the reference count of a text is at its maximum.
pub fn differences<'a>(
    alloc: Global,
    before: &'a DType,
    after: &'a DType,
) -> VortexResult<Vec<Difference<'a>>>
    ensures ok { Makes result (λ v. all_shown v.items
        ≡ differences_spec nothing_ignored (tree before.now) (tree after.now)) }
{
    let ignoring = Ignoring {
        nullability: false,
        order: false,
    };
    Ok(differences_ignoring(alloc, before, after, ignoring)?)
}

/// Returns what differs between two types, as [`differences`] does, but ignores what `ignoring` says. The types in the list
/// are those of the two types, with their nullabilities and in their order.
///
/// For example, if the order is ignored, `{a=i32, b=u8}` and `{b=u16, a=i32}` differ at `b` alone. Otherwise they differ as
/// a whole.
///
/// If nullabilities alone are ignored, there is no difference exactly if the two types are equal except for nullabilities.
///
/// vortex-array has no such call.
///
/// The call takes about as long as [`differences`].
///
/// # Errors
///
/// - `OutOfMemory` (0): an allocation fails, or the reference count of a text is at its maximum.
pub fn differences_ignoring<'a>(
    alloc: Global,
    before: &'a DType,
    after: &'a DType,
    ignoring: Ignoring,
) -> VortexResult<Vec<Difference<'a>>>
    ensures ok { Makes result (λ v. all_shown v.items
        ≡ differences_spec ignoring (tree before.now) (tree after.now)) }
{
    let mut above = Vec::new(alloc);
    let mut found = Vec::new(alloc);
    push_differences(alloc, ignoring, before, after, &mut above, &mut found)?;
    Ok(found)
}

// Appends the differences of the two types, each with the steps `above` before it. The steps are the same afterwards,
// unless there is an error.
#[cycle(differing)]
fn push_differences<'a>(
    alloc: Global,
    ignoring: Ignoring,
    before: &'a DType,
    after: &'a DType,
    above: &mut Vec<Field>,
    found: &mut Vec<Difference<'a>>,
) -> VortexResult<()>
    ensures found { OnOk result (all_shown found.new.items ≡ all_shown found.old.items
        ++ behind above.old.items (differences_spec ignoring (tree before.now) (tree after.now))) }
    ensures above { OnOk result (above.new.items ≡ above.old.items) }
    ensures errors { IsOkUnless result OutOfMemory }
{
    match (before, after) {
        (DType::List(t, m), DType::List(u, n)) => {
            if are_allowed(ignoring, *m, *n) {
                push_below(alloc, ignoring, Field::ElementType, t, u, above, found)
            } else {
                push_whole(alloc, ignoring, before, after, above, found)
            }
        }
        (DType::FixedSizeList(t, j, m), DType::FixedSizeList(u, k, n)) => {
            if are_allowed(ignoring, *m, *n) && *j == *k {
                push_below(alloc, ignoring, Field::ElementType, t, u, above, found)
            } else {
                push_whole(alloc, ignoring, before, after, above, found)
            }
        }
        (DType::Struct(fields, m), DType::Struct(others, n)) => {
            let by_field = are_by_field(alloc, ignoring, fields, *m, others, *n)?;
            if by_field {
                push_fields(alloc, ignoring, fields, others, above, found)?;
                push_added(alloc, fields, others, above, found)
            } else {
                push_whole(alloc, ignoring, before, after, above, found)
            }
        }
        _ => push_whole(alloc, ignoring, before, after, above, found),
    }
}

// Appends the differences of the two types, each with the steps `above` and then `step` before it.
#[cycle(differing)]
fn push_below<'a>(
    alloc: Global,
    ignoring: Ignoring,
    step: Field,
    before: &'a DType,
    after: &'a DType,
    above: &mut Vec<Field>,
    found: &mut Vec<Difference<'a>>,
) -> VortexResult<()>
    ensures found { OnOk result (all_shown found.new.items ≡ all_shown found.old.items
        ++ behind above.old.items
        (each_below step (differences_spec ignoring (tree before.now) (tree after.now)))) }
    ensures above { OnOk result (above.new.items ≡ above.old.items) }
    ensures errors { IsOkUnless result OutOfMemory }
{
    above.push(step)?;
    push_differences(alloc, ignoring, before, after, above, found)?;
    let _ = above.pop();
    Ok(())
}

// Appends the differences of the fields of a struct, each beside the field of its name in the other.
#[cycle(differing)]
fn push_fields<'a>(
    alloc: Global,
    ignoring: Ignoring,
    before: &'a StructFields,
    after: &'a StructFields,
    above: &mut Vec<Field>,
    found: &mut Vec<Difference<'a>>,
) -> VortexResult<()>
    ensures found { OnOk result (all_shown found.new.items ≡ all_shown found.old.items
        ++ behind above.old.items
        (in_fields ignoring (fields_of before.now) (fields_of after.now))) }
    ensures above { OnOk result (above.new.items ≡ above.old.items) }
    ensures errors { IsOkUnless result OutOfMemory }
{
    for (name, dtype) in before.pairs() {
        let other = after.field(name.as_str());
        push_field_differences(alloc, ignoring, name, dtype, other, above, found)?;
    }
    Ok(())
}

// Appends the differences of a field, whose type after is `after`, or which isn't there after.
#[cycle(differing)]
fn push_field_differences<'a>(
    alloc: Global,
    ignoring: Ignoring,
    name: &FieldName,
    before: &'a DType,
    after: Option<&'a DType>,
    above: &mut Vec<Field>,
    found: &mut Vec<Difference<'a>>,
) -> VortexResult<()>
    ensures found { OnOk result (all_shown found.new.items ≡ all_shown found.old.items
        ++ behind above.old.items (in_field name.now (tree before.now)
        (λ u. differences_spec ignoring (tree before.now) u) (shown tree after.entry))) }
    ensures above { OnOk result (above.new.items ≡ above.old.items) }
    ensures errors { IsOkUnless result OutOfMemory }
{
    match after {
        Some(after) => {
            let step = Field::Name(name.try_clone(alloc)?);
            push_below(alloc, ignoring, step, before, after, above, found)
        }
        None => push_part(alloc, name, Some(before), None, above, found),
    }
}

// Appends the fields that are only after.
fn push_added<'a>(
    alloc: Global,
    before: &StructFields,
    after: &'a StructFields,
    above: &mut Vec<Field>,
    found: &mut Vec<Difference<'a>>,
) -> VortexResult<()>
    ensures found { OnOk result (all_shown found.new.items ≡ all_shown found.old.items
        ++ behind above.old.items (added (children before.now) (children after.now))) }
    ensures above { OnOk result (above.new.items ≡ above.old.items) }
    ensures errors { IsOkUnless result OutOfMemory }
{
    for (name, dtype) in after.pairs() {
        if before.field(name.as_str()).is_none() {
            push_part(alloc, name, None, Some(dtype), above, found)?;
        }
    }
    Ok(())
}

// Appends the difference that a field is there only before or only after.
fn push_part<'a>(
    alloc: Global,
    name: &FieldName,
    before: Option<&'a DType>,
    after: Option<&'a DType>,
    above: &mut Vec<Field>,
    found: &mut Vec<Difference<'a>>,
) -> VortexResult<()>
    ensures found { OnOk result (all_shown found.new.items ≡ all_shown found.old.items
        ++ behind above.old.items
        ((Name name.now ∷ [], (shown tree before.entry, shown tree after.entry)) ∷ [])) }
    ensures above { OnOk result (above.new.items ≡ above.old.items) }
    ensures errors { IsOkUnless result OutOfMemory }
{
    above.push(Field::Name(name.try_clone(alloc)?))?;
    push_difference(alloc, above, before, after, found)?;
    let _ = above.pop();
    Ok(())
}

// Appends the difference of the two types as a whole, unless they are equal.
fn push_whole<'a>(
    alloc: Global,
    ignoring: Ignoring,
    before: &'a DType,
    after: &'a DType,
    above: &[Field],
    found: &mut Vec<Difference<'a>>,
) -> VortexResult<()>
    ensures found { OnOk result (all_shown found.new.items ≡ all_shown found.old.items
        ++ behind above.now (whole ignoring (tree before.now) (tree after.now))) }
    ensures errors { IsOkUnless result OutOfMemory }
{
    if are_equal(ignoring, before, after) {
        return Ok(());
    }
    push_difference(alloc, above, Some(before), Some(after), found)
}

// Appends the difference at the path of these steps.
fn push_difference<'a>(
    alloc: Global,
    steps: &[Field],
    before: Option<&'a DType>,
    after: Option<&'a DType>,
    found: &mut Vec<Difference<'a>>,
) -> VortexResult<()>
    ensures found { OnOk result (all_shown found.new.items ≡ all_shown found.old.items
        ++ (steps.now, (shown tree before.entry, shown tree after.entry)) ∷ []) }
    ensures errors { IsOkUnless result OutOfMemory }
{
    let path = copied_path(alloc, steps)?;
    Ok(found.push(Difference {
        path,
        before,
        after,
    })?)
}

// Returns the path of these steps.
fn copied_path(alloc: Global, steps: &[Field]) -> VortexResult<FieldPath>
    ensures { Makes result (λ p. p ≡ steps.now) }
{
    let mut copied = Vec::with_capacity(alloc, steps.len())?;
    for step in steps {
        copied.push(step.try_clone(alloc)?)?;
    }
    Ok(FieldPath::from_vec(copied))
}

// Returns whether the two types are equal, if what is ignored is.
#[tactic(auto, using(crate::proofs::DifferenceTests::whole_tests))]
fn are_equal(ignoring: Ignoring, before: &DType, after: &DType) -> bool
    ensures { result ≡ same_by (seen ignoring) (tree before.now) (tree after.now) }
{
    if ignoring.nullability {
        before.eq_ignore_nullability(after)
    } else {
        before == after
    }
}

// Returns whether the two nullabilities are no difference.
#[tactic(auto, using(crate::proofs::DifferenceTests::mark_tests))]
fn are_allowed(ignoring: Ignoring, before: Nullability, after: Nullability) -> bool
    ensures { result ≡ allowed ignoring before after }
{
    ignoring.nullability || before == after
}

// Returns whether two structs of these fields and nullabilities are compared field by field.
fn are_by_field(
    alloc: Global,
    ignoring: Ignoring,
    before: &StructFields,
    m: Nullability,
    after: &StructFields,
    n: Nullability,
) -> VortexResult<bool>
    ensures { Makes result (λ b. b
        ≡ (allowed ignoring m n && by_name ignoring (children before.now) (children after.now))) }
{
    if !are_allowed(ignoring, m, n) {
        return Ok(false);
    }
    Ok(are_by_name(alloc, ignoring, before, after)?)
}

// Returns whether the fields can be compared by their names.
fn are_by_name(
    alloc: Global,
    ignoring: Ignoring,
    before: &StructFields,
    after: &StructFields,
) -> VortexResult<bool>
    ensures { Makes result (λ b. b ≡ by_name ignoring (children before.now) (children after.now)) }
{
    if !has_no_repeats(before) || !has_no_repeats(after) {
        return Ok(false);
    }
    if ignoring.order {
        return Ok(true);
    }
    let names = common_names(alloc, before, after)?;
    let others = common_names(alloc, after, before)?;
    Ok(names == others)
}

// Returns the names of the fields that the other struct has as well.
fn common_names(
    alloc: Global,
    fields: &StructFields,
    others: &StructFields,
) -> VortexResult<FieldNames>
    ensures { Makes result (λ names. names
        ≡ common_names_spec (children fields.now) (children others.now)) }
{
    let mut common = Vec::new(alloc);
    for (name, _) in fields.pairs() {
        if others.field(name.as_str()).is_some() {
            push_copy(alloc, name, &mut common)?;
        }
    }
    Ok(FieldNames::from_vec(common))
}

// Appends a copy of the name.
fn push_copy(alloc: Global, name: &FieldName, names: &mut Vec<FieldName>) -> VortexResult<()>
    ensures names { OnOk result (names.new.items ≡ names.old.items ++ name.now ∷ []) }
    ensures errors { IsOkUnless result OutOfMemory }
{
    Ok(names.push(name.try_clone(alloc)?)?)
}

// Returns whether no two of the fields have the same name.
#[tactic(auto, using(crate::proofs::DifferenceSteps::first_more, crate::proofs::DifferenceSteps::all_are_first, crate::proofs::DifferenceSteps::not_first, std::proofs::lemmas::Option::slice_get_read))]
fn has_no_repeats(fields: &StructFields) -> bool
    ensures { result ≡ no_repeats (children fields.now) }
{
    for (i, name) in fields.names().as_slice().iter().enumerate() {
        let Some(first) = fields.find(name.as_str()) else {
            return false;
        };
        if first != i {
            return false;
        }
    }
    true
}
