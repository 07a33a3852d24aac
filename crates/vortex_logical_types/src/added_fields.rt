// SPDX-License-Identifier: Apache-2.0
// SPDX-FileCopyrightText: Copyright the Vortex contributors

// Structs: one more field, and another type of a field.
ghost use Rattle.std.specs.Prelude.{◌≡◌, ◌⊎◌, ◌+◌, ◌<◌, ◌≤◌, MatchResult, length};
ghost use Rattle.std.specs.List.{insert};
ghost use Rattle.dtype_base.specs.Errors.{Makes};
ghost use Rattle.dtype_base.specs.declared.vortex_error.VortexError.TheVariants.{IndexOutOfBounds, OutOfMemory};
ghost use Rattle.dtype_edits.specs.EditedFields.{with_named};
ghost use Rattle.dtype_types.specs.nullability.Nullable.{nullability};
ghost use Rattle.dtype_types.specs.tree.Kinds.{struct_fields};
ghost use Rattle.dtype_types.specs.tree.Tree.{fields as fields_of, struct};
ghost use Rattle.dtype_types.specs.tree.TreeOf.{children, tree};
ghost use Rattle.vortex_logical_types.specs.Levels.{levels};
ghost use Rattle.vortex_logical_types.specs.Slots.{type_in};
ghost use Rattle.vortex_logical_types.specs.Types.{inserts_field, with_last};
ghost use Rattle.vortex_logical_types.specs.Vocabulary.{Puts, PutsOr, gives, if_utf8, on_both, unless_deep, unless_memory, within};

use crate::changes::put_struct;
use crate::errors::{CONDITION, KIND, NOT_UTF8, TOO_DEEP, of_library};
use crate::failures::fail_with;
use crate::levels::{MAX_LEVELS, fits};
use crate::views::as_dtype;
use c_objects::Slot;
use dtype_base::{FieldName, VortexResult};
use dtype_edits::{push_field, with_field, with_field_at};
use dtype_types::{DType, StructFields};
use std::alloc::Global;
use std::str;

/// Stores in `out` the struct with one more field at the end, which has this name and the type in `part`. It is nullable
/// if the struct in `dtype` is. A field of this name that is there already stays, so the name may repeat. For example,
/// it is `{a=i32, b=utf8}` for `{a=i32}`, the name `b` and `utf8`. Returns 3 if the name isn't UTF-8, 5 if the type in
/// `dtype` isn't a struct, and 6 if the type in `part` has 128 levels.
#[unsafe(no_mangle)]
pub extern "C" fn vlt_core_struct_push_field(
    alloc: Global,
    dtype: &mut Slot,
    name: &[u8],
    part: &mut Slot,
    out: &mut Slot,
) -> u32
    ensures puts { Puts type_in
        (if_utf8 name.now (on_both (type_in dtype.old.value) (type_in part.old.value)
        (λ t u. within (struct_fields t) (λ fs. unless_deep (1 + levels u) (unless_memory
        (gives (struct (fields_of (with_last fs (name.now, u))) (nullability t))))))))
        result out.old.value out.new.value }
    ensures kept { (dtype.new.value ≡ dtype.old.value) × (part.new.value ≡ part.old.value) }
{
    let Ok(name) = str::from_utf8(name) else {
        return NOT_UTF8;
    };
    let (Some(dtype), Some(part)) = (as_dtype(dtype), as_dtype(part)) else {
        return KIND;
    };
    let Some(fields) = dtype.as_struct_fields_opt() else {
        return CONDITION;
    };
    if !fits(part, MAX_LEVELS - 1) {
        return TOO_DEEP;
    }
    match pushed(alloc, fields, name, part) {
        Ok(made) => put_struct(alloc, out, made, dtype.nullability()),
        Err(error) => of_library(error),
    }
}

#[tactic(auto, unfolding(crate::specs::Types::with_last))]
fn pushed(
    alloc: Global,
    fields: &StructFields,
    name: &str,
    part: &DType,
) -> VortexResult<StructFields>
    ensures { Makes result
        (λ s. children s ≡ with_last (children fields.now) (name.now, tree part.now)) }
{
    let name = FieldName::new(alloc, name)?;
    Ok(push_field(alloc, fields, name, part.try_clone(alloc)?)?)
}

/// Stores in `out` the struct with a field that has this name and the type in `part`. If a field has the name, the type
/// of the first such field is replaced, and the field stays where it is. Otherwise the new field is the last. The struct
/// is nullable if the struct in `dtype` is. For example, for `{a=i32}` and `utf8` it is `{a=utf8}` with the name `a`, and
/// `{a=i32, b=utf8}` with the name `b`. Returns 3 if the name isn't UTF-8, 5 if the type in `dtype` isn't a struct, and
/// 6 if the type in `part` has 128 levels.
#[unsafe(no_mangle)]
pub extern "C" fn vlt_core_struct_with_field(
    alloc: Global,
    dtype: &mut Slot,
    name: &[u8],
    part: &mut Slot,
    out: &mut Slot,
) -> u32
    ensures puts { Puts type_in
        (if_utf8 name.now (on_both (type_in dtype.old.value) (type_in part.old.value)
        (λ t u. within (struct_fields t) (λ fs. unless_deep (1 + levels u) (unless_memory
        (gives (struct (fields_of (with_named fs name.now u)) (nullability t))))))))
        result out.old.value out.new.value }
    ensures kept { (dtype.new.value ≡ dtype.old.value) × (part.new.value ≡ part.old.value) }
{
    let Ok(name) = str::from_utf8(name) else {
        return NOT_UTF8;
    };
    let (Some(dtype), Some(part)) = (as_dtype(dtype), as_dtype(part)) else {
        return KIND;
    };
    let Some(fields) = dtype.as_struct_fields_opt() else {
        return CONDITION;
    };
    if !fits(part, MAX_LEVELS - 1) {
        return TOO_DEEP;
    }
    match named(alloc, fields, name, part) {
        Ok(made) => put_struct(alloc, out, made, dtype.nullability()),
        Err(error) => of_library(error),
    }
}

fn named(
    alloc: Global,
    fields: &StructFields,
    name: &str,
    part: &DType,
) -> VortexResult<StructFields>
    ensures { Makes result
        (λ s. children s ≡ with_named (children fields.now) name.now (tree part.now)) }
{
    let name = FieldName::new(alloc, name)?;
    Ok(with_field(alloc, fields, name, part.try_clone(alloc)?)?)
}

/// Stores in `out` the struct with one more field at this index, which is counted from 0. The field has this name and
/// the type in `part`. The fields from that index on come after it, and if the index is the number of fields, it is the
/// last. A field of this name that is there already stays, so the name may repeat. The struct is nullable if the struct
/// in `dtype` is. Returns 3 if the name isn't UTF-8, 5 if the type in `dtype` isn't a struct, 6 if the type in `part`
/// has 128 levels, and 117 if the index is above the number of fields. Then `error` contains the error with the index
/// and the number of fields.
#[unsafe(no_mangle)]
pub extern "C" fn vlt_core_struct_with_field_at(
    alloc: Global,
    dtype: &mut Slot,
    index: usize,
    name: &[u8],
    part: &mut Slot,
    out: &mut Slot,
    error: &mut Slot,
) -> u32
    ensures puts { PutsOr type_in
        (if_utf8 name.now (on_both (type_in dtype.old.value) (type_in part.old.value)
        (λ t u. within (struct_fields t) (λ fs. unless_deep (1 + levels u)
        (unless_memory (inserts_field fs (nullability t) index (name.now, u)))))))
        result out.old.value out.new.value error.old.value error.new.value }
    ensures kept { (dtype.new.value ≡ dtype.old.value) × (part.new.value ≡ part.old.value) }
{
    let Ok(name) = str::from_utf8(name) else {
        return NOT_UTF8;
    };
    let (Some(dtype), Some(part)) = (as_dtype(dtype), as_dtype(part)) else {
        return KIND;
    };
    let Some(fields) = dtype.as_struct_fields_opt() else {
        return CONDITION;
    };
    if !fits(part, MAX_LEVELS - 1) {
        return TOO_DEEP;
    }
    match inserted(alloc, fields, index, name, part) {
        Ok(made) => put_struct(alloc, out, made, dtype.nullability()),
        Err(why) => fail_with(alloc, error, why),
    }
}

fn inserted(
    alloc: Global,
    fields: &StructFields,
    index: usize,
    name: &str,
    part: &DType,
) -> VortexResult<StructFields>
    ensures { MatchResult result
        (λ s. (index ≤ length (children fields.now))
        × (children s ≡ insert (children fields.now) index (name.now, tree part.now)))
        (λ e. (e ≡ OutOfMemory) ⊎ ((length (children fields.now) < index)
        × (e ≡ IndexOutOfBounds index (length (children fields.now))))) }
{
    let name = FieldName::new(alloc, name)?;
    let made = with_field_at(alloc, fields, index, name, part.try_clone(alloc)?)?;
    Ok(made)
}
