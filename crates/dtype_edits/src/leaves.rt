// SPDX-License-Identifier: Apache-2.0
// SPDX-FileCopyrightText: Copyright the Vortex contributors

ghost use Rattle.std.specs.Prelude.{◌≡◌, ◌↔◌, ◌<◌, ◌++◌, [], ◌∷◌, IfOk, IsOkUnless, IsTrue, List, OnOk, if◌then◌else◌, None, map, slice_get, take};
ghost use Rattle.std.specs.FinSet as set;
ghost use Rattle.std.specs.List.{list_any};
ghost use Rattle.std.specs.Str.{bytes_eq};
ghost use Rattle.dtype_base.specs.Errors.{Makes};
ghost use Rattle.dtype_base.specs.declared.vortex_error.VortexError.TheVariants.{OutOfMemory};
ghost use Rattle.dtype_types.specs.parts.Lookups.{field_names, field_types};
ghost use Rattle.dtype_types.specs.tree.TreeOf.{tree, children, fields_of, shown};
ghost use Rattle.dtype_paths.specs.PathOrder.{set_of};
ghost use Rattle.dtype_paths.specs.declared.field.Field.{Field};
ghost use Rattle.dtype_edits.specs.Leaves.{IsLeaf, each_after, field_leaves, leaves, root_or};

use dtype_base::{FieldName, VortexResult};
use dtype_paths::{Field, FieldPath, FieldPathSet};
use dtype_types::{DType, StructFields};
use std::alloc::Global;

/// Returns the leaves of `dtype`, which are the paths to the parts into which no step leads further.
///
/// For example, the leaves of `{a=list(i32), b={}, c=map(utf8, u8)}` are `a.[]`, `b` and `c`: a step leads into a list, and
/// none leads into a struct without fields, a map, a union or an extension. The only leaf of a type into which no step
/// leads is the root. If several fields of a struct have the same name, a path leads to the first of them, so the others
/// have no leaves.
///
/// A path exists in the type exactly if it is a prefix of a leaf. No leaf is a prefix of another.
///
/// vortex-array has no such call.
///
/// The call visits each part of the type once, and looks up the name of each field. It allocates a path for each leaf.
///
/// # Errors
///
/// - `OutOfMemory` (0): an allocation fails, or the reference count of a text is at its maximum.
pub fn leaf_paths(alloc: Global, dtype: &DType) -> VortexResult<FieldPathSet>
    ensures ok { Makes result (λ s. s ≡ set_of (leaves (tree dtype.now))) }
    ensures each { IfOk result (λ s. (p : List Field) → IsTrue (set.contains s p) ↔ IsLeaf (tree dtype.now) p) }
{
    let found = listed_leaves(alloc, dtype)?;
    Ok(FieldPathSet::from_iter(alloc, found)?)
}

// Returns the leaves of the type, in order.
fn listed_leaves(alloc: Global, dtype: &DType) -> VortexResult<Vec<FieldPath>>
    ensures { Makes result (λ found. found.items ≡ leaves (tree dtype.now)) }
{
    let mut above = Vec::new(alloc);
    let mut found = Vec::new(alloc);
    push_leaves(alloc, dtype, &mut above, &mut found)?;
    Ok(found)
}

// Appends the leaves of the type, each with the steps `above` before it. The steps are the same afterwards, unless there
// is an error.
#[cycle(leaves)]
fn push_leaves(
    alloc: Global,
    dtype: &DType,
    above: &mut Vec<Field>,
    found: &mut Vec<FieldPath>,
) -> VortexResult<()>
    ensures found { OnOk result (found.new.items ≡ found.old.items ++ map (λ p. above.old.items ++ p) (leaves (tree dtype.now))) }
    ensures above { OnOk result (above.new.items ≡ above.old.items) }
    ensures errors { IsOkUnless result OutOfMemory }
{
    match dtype {
        DType::List(element, _) => push_after(alloc, Field::ElementType, element, above, found),
        DType::FixedSizeList(element, _, _) => {
            push_after(alloc, Field::ElementType, element, above, found)
        }
        DType::Struct(fields, _) => push_struct(alloc, fields, above, found),
        DType::Null
        | DType::Bool(_)
        | DType::Primitive(_, _)
        | DType::Decimal(_, _)
        | DType::Utf8(_)
        | DType::Binary(_)
        | DType::Map(_, _)
        | DType::Union(_, _)
        | DType::Variant(_)
        | DType::Extension(_) => push_path(alloc, above, found),
    }
}

// Appends the leaves of the type, each with the steps `above` and then `step` before it.
#[cycle(leaves)]
fn push_after(
    alloc: Global,
    step: Field,
    dtype: &DType,
    above: &mut Vec<Field>,
    found: &mut Vec<FieldPath>,
) -> VortexResult<()>
    ensures found { OnOk result (found.new.items
        ≡ found.old.items ++ map (λ p. above.old.items ++ p) (each_after step (leaves (tree dtype.now)))) }
    ensures above { OnOk result (above.new.items ≡ above.old.items) }
    ensures errors { IsOkUnless result OutOfMemory }
{
    above.push(step)?;
    push_leaves(alloc, dtype, above, found)?;
    let _ = above.pop();
    Ok(())
}

// Appends the leaves of a struct of these fields, each with the steps `above` before it.
#[cycle(leaves)]
#[tactic(auto, using(crate::proofs::LeafSteps::no_fields_leaf, std::proofs::lemmas::Option::slice_get_read))]
fn push_struct(
    alloc: Global,
    fields: &StructFields,
    above: &mut Vec<Field>,
    found: &mut Vec<FieldPath>,
) -> VortexResult<()>
    ensures found { OnOk result (found.new.items
        ≡ found.old.items ++ map (λ p. above.old.items ++ p) (root_or (fields_of fields.now) (field_leaves [] (fields_of fields.now)))) }
    ensures above { OnOk result (above.new.items ≡ above.old.items) }
    ensures errors { IsOkUnless result OutOfMemory }
{
    if fields.nfields() == 0 {
        return push_path(alloc, above, found);
    }
    for (position, name) in fields.names().as_slice().iter().enumerate() {
        if let Some(dtype) = first_of_its_name(fields, position, name) {
            let step = Field::Name(name.try_clone(alloc)?);
            push_after(alloc, step, dtype, above, found)?;
        }
    }
    Ok(())
}

// Returns the type of the field at this position, which has this name, or `None` if a field before it has the same name.
fn first_of_its_name<'a>(
    fields: &'a StructFields,
    position: usize,
    name: &FieldName,
) -> Option<&'a DType>
    requires { slice_get (field_names (children fields.now)) position ≡ Some name.now }
    ensures { shown tree result ≡ (if list_any (λ m. bytes_eq m name.now) (take position (field_names (children fields.now)))
        then None else slice_get (field_types (children fields.now)) position) }
{
    if fields.find(name.as_str()) == Some(position) {
        fields.field_by_index(position)
    } else {
        None
    }
}

// Appends the path of these steps.
fn push_path(alloc: Global, steps: &[Field], found: &mut Vec<FieldPath>) -> VortexResult<()>
    ensures found { OnOk result (found.new.items ≡ found.old.items ++ steps.now ∷ []) }
    ensures errors { IsOkUnless result OutOfMemory }
{
    let mut copied = Vec::with_capacity(alloc, steps.len())?;
    for step in steps {
        copied.push(step.try_clone(alloc)?)?;
    }
    Ok(found.push(FieldPath::from_vec(copied))?)
}
