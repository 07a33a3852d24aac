// SPDX-License-Identifier: Apache-2.0
// SPDX-FileCopyrightText: Copyright the Vortex contributors

// All names, and all types, of a struct or of a union, each in one call.
ghost use Rattle.std.specs.Prelude.{◌≡◌, map};
ghost use Rattle.std.specs.declared.option.Option.TheVariants.{Some};
ghost use Rattle.dtype_base.specs.Errors.{Makes};
ghost use Rattle.dtype_types.specs.parts.Lookups.{field_names, field_types, variant_names, variant_types};
ghost use Rattle.dtype_types.specs.tree.Kinds.{struct_fields, union_variants};
ghost use Rattle.dtype_types.specs.tree.TreeOf.{tree};
ghost use Rattle.vortex_logical_types.specs.AtOnce.{FillsBoth, Moves, PutsAll, PutsTypes, boxed_type, joined};
ghost use Rattle.vortex_logical_types.specs.Several.{objects_in};
ghost use Rattle.vortex_logical_types.specs.Slots.{type_in};
ghost use Rattle.vortex_logical_types.specs.Vocabulary.{gives, on, unless_memory, within};

use crate::buffers::copy_both;
use crate::errors::{CONDITION, KIND, OK, TOO_SMALL, of_library};
use crate::views::as_dtype;
use c_objects::{Object, Slot};
use dtype_base::{FieldNames, VortexResult};
use dtype_types::DTypeIter;
use std::alloc::Global;

/// Writes the names of all fields of the struct. The bytes of the names go to the front of `buffer`, one name directly
/// after the other, and the number of bytes of each name goes to the front of `name_lengths`. The numbers of both go to
/// `length` and `count`. For example, for `{id=u64, city=utf8}` the call writes `idcity` and 6, and the lengths 2 and 4
/// and their number 2. If one of the two buffers is too small, the call returns 7 and writes only the two numbers.
/// Returns 5 if the type isn't a struct.
#[unsafe(no_mangle)]
pub extern "C" fn vlt_core_struct_names(
    alloc: Global,
    dtype: &mut Slot,
    buffer: &mut [u8],
    length: &mut usize,
    name_lengths: &mut [usize],
    count: &mut usize,
) -> u32
    ensures fills { FillsBoth
        (on (type_in dtype.old.value) (λ t. within (struct_fields t) (λ fs. unless_memory (gives (joined (field_names fs))))))
        result ((buffer.old, length.old), (name_lengths.old, count.old)) ((buffer.new, length.new), (name_lengths.new, count.new)) }
    ensures kept { dtype.new.value ≡ dtype.old.value }
{
    let Some(dtype) = as_dtype(dtype) else {
        return KIND;
    };
    let Some(fields) = dtype.as_struct_fields_opt() else {
        return CONDITION;
    };
    write_names(alloc, fields.names(), buffer, length, name_lengths, count)
}

/// Writes the names of all variants of the union. The bytes of the names go to the front of `buffer`, one name directly
/// after the other, and the number of bytes of each name goes to the front of `name_lengths`. The numbers of both go to
/// `length` and `count`. If one of the two buffers is too small, the call returns 7 and writes only the two numbers.
/// Returns 5 if the type isn't a union.
#[unsafe(no_mangle)]
pub extern "C" fn vlt_core_union_names(
    alloc: Global,
    dtype: &mut Slot,
    buffer: &mut [u8],
    length: &mut usize,
    name_lengths: &mut [usize],
    count: &mut usize,
) -> u32
    ensures fills { FillsBoth
        (on (type_in dtype.old.value) (λ t. within (union_variants t) (λ vs. unless_memory (gives (joined (variant_names vs))))))
        result ((buffer.old, length.old), (name_lengths.old, count.old)) ((buffer.new, length.new), (name_lengths.new, count.new)) }
    ensures kept { dtype.new.value ≡ dtype.old.value }
{
    let Some(dtype) = as_dtype(dtype) else {
        return KIND;
    };
    let Some(variants) = dtype.as_union_variants_opt() else {
        return CONDITION;
    };
    write_names(alloc, variants.names(), buffer, length, name_lengths, count)
}

fn write_names(
    alloc: Global,
    wanted: &FieldNames,
    buffer: &mut [u8],
    length: &mut usize,
    name_lengths: &mut [usize],
    count: &mut usize,
) -> u32
    ensures { FillsBoth (unless_memory (gives (joined wanted.now))) result
        ((buffer.old, length.old), (name_lengths.old, count.old))
        ((buffer.new, length.new), (name_lengths.new, count.new)) }
{
    match together(alloc, wanted) {
        Ok((bytes, lengths)) => {
            *length = bytes.len();
            *count = lengths.len();
            copy_both(&bytes, &lengths, buffer, name_lengths)
        }
        Err(error) => of_library(error),
    }
}

// Returns the bytes of all names, one name directly after the other, and the number of bytes of each name.
fn together(alloc: Global, wanted: &FieldNames) -> VortexResult<(Vec<u8>, Vec<usize>)>
    ensures { Makes result (λ r. (r.0.items, r.1.items) ≡ joined wanted.now) }
{
    let mut bytes = Vec::new(alloc);
    let mut lengths = Vec::with_capacity(alloc, wanted.len())?;
    for name in wanted.as_slice() {
        let text = name.as_str().as_bytes();
        bytes.extend_from_slice(text)?;
        lengths.push(text.len())?;
    }
    Ok((bytes, lengths))
}

/// Stores the types of all fields of the struct in the first slots of `types`, in order, and writes their number to
/// `count`. The other slots keep their objects. If there are fewer slots than fields, the call returns 7 and writes
/// only the number. If the call returns another number than 0, each slot is as it was before. Returns 2 if `dtype`
/// contains no type, and 5 if the type isn't a struct.
#[unsafe(no_mangle)]
pub extern "C" fn vlt_core_struct_types(
    alloc: Global,
    dtype: &mut Slot,
    types: &mut [Slot],
    count: &mut usize,
) -> u32
    ensures puts { PutsAll type_in
        (on (type_in dtype.old.value) (λ t. within (struct_fields t) (λ fs. unless_memory (gives (field_types fs)))))
        result (objects_in types.old, count.old) (objects_in types.new, count.new) }
    ensures kept { dtype.new.value ≡ dtype.old.value }
{
    let Some(dtype) = as_dtype(dtype) else {
        return KIND;
    };
    let Some(fields) = dtype.as_struct_fields_opt() else {
        return CONDITION;
    };
    put_types(alloc, fields.fields(), types, count)
}

/// Stores the types of all variants of the union in the first slots of `types`, in order, and writes their number to
/// `count`. The other slots keep their objects. If there are fewer slots than variants, the call returns 7 and writes
/// only the number. If the call returns another number than 0, each slot is as it was before. Returns 2 if `dtype`
/// contains no type, and 5 if the type isn't a union.
#[unsafe(no_mangle)]
pub extern "C" fn vlt_core_union_types(
    alloc: Global,
    dtype: &mut Slot,
    types: &mut [Slot],
    count: &mut usize,
) -> u32
    ensures puts { PutsAll type_in
        (on (type_in dtype.old.value) (λ t. within (union_variants t) (λ vs. unless_memory (gives (variant_types vs)))))
        result (objects_in types.old, count.old) (objects_in types.new, count.new) }
    ensures kept { dtype.new.value ≡ dtype.old.value }
{
    let Some(dtype) = as_dtype(dtype) else {
        return KIND;
    };
    let Some(variants) = dtype.as_union_variants_opt() else {
        return CONDITION;
    };
    put_types(alloc, variants.variants(), types, count)
}

fn put_types(alloc: Global, dtypes: DTypeIter<'_>, types: &mut [Slot], count: &mut usize) -> u32
    ensures { PutsTypes (map tree dtypes.entry) result (objects_in types.old, count.old) (objects_in types.new, count.new) }
{
    match copies_of(alloc, dtypes) {
        Ok(copies) => {
            *count = copies.len();
            put_each(types, copies)
        }
        Err(error) => of_library(error),
    }
}

// Copies the types, each into a box of its own. So nothing is left that can fail when they are stored in slots.
fn copies_of(alloc: Global, dtypes: DTypeIter<'_>) -> VortexResult<Vec<Box<Object>>>
    ensures { Makes result (λ v. map boxed_type v.items ≡ map Some (map tree dtypes.entry)) }
{
    let mut copies = Vec::with_capacity(alloc, dtypes.len())?;
    for dtype in dtypes {
        copies.push(Box::new(alloc, Object::DType(dtype.try_clone(alloc)?))?)?;
    }
    Ok(copies)
}

// Stores the objects in the first slots, if there are enough.
fn put_each(slots: &mut [Slot], objects: Vec<Box<Object>>) -> u32
    ensures { Moves objects.items result (objects_in slots.old) (objects_in slots.new) }
{
    if objects.len() > slots.len() {
        return TOO_SMALL;
    }
    let mut left = objects.into_iter();
    for slot in slots.iter_mut() {
        let Some(object) = left.next() else {
            return OK;
        };
        slot.put(object);
    }
    OK
}
