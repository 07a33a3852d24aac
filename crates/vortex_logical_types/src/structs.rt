// SPDX-License-Identifier: Apache-2.0
// SPDX-FileCopyrightText: Copyright the Vortex contributors

// Structs: the fields of a type.
ghost use Rattle.std.specs.Prelude.{◌≡◌, length, option_copied, slice_get};
ghost use Rattle.dtype_base.specs.FieldNames.{first_place};
ghost use Rattle.dtype_types.specs.parts.Lookups.{field_names, field_types, first_named};
ghost use Rattle.dtype_types.specs.tree.Kinds.{struct_fields};
ghost use Rattle.vortex_logical_types.specs.Slots.{type_in};
ghost use Rattle.vortex_logical_types.specs.Vocabulary.{Fills, Puts, Writes, found, gives, if_utf8, on, unless_memory, within};

use crate::buffers::write_bytes;
use crate::errors::{CONDITION, KIND, NONE, NOT_UTF8, OK};
use crate::objects::put_copy;
use crate::views::as_dtype;
use c_objects::Slot;
use dtype_base::FieldName;
use std::alloc::Global;
use std::str;

/// Writes the number of fields of the struct to `count`. Returns 5 if the type isn't a struct.
#[unsafe(no_mangle)]
pub extern "C" fn vlt_core_struct_nfields(dtype: &mut Slot, count: &mut usize) -> u32
    ensures writes { Writes
        (on (type_in dtype.old.value) (λ t. within (struct_fields t) (λ fs. gives (length fs))))
        result count.old count.new }
    ensures kept { dtype.new.value ≡ dtype.old.value }
{
    let Some(dtype) = as_dtype(dtype) else {
        return KIND;
    };
    let Some(fields) = dtype.as_struct_fields_opt() else {
        return CONDITION;
    };
    *count = fields.nfields();
    OK
}

/// Stores in `out` the type of the field with this index, which is counted from 0. Returns 1 if the index isn't below
/// the number of fields, and 5 if the type isn't a struct.
#[unsafe(no_mangle)]
pub extern "C" fn vlt_core_struct_field_by_index(
    alloc: Global,
    dtype: &mut Slot,
    index: usize,
    out: &mut Slot,
) -> u32
    ensures puts { Puts type_in
        (on (type_in dtype.old.value)
        (λ t. within (struct_fields t) (λ fs. found (slice_get (field_types fs) index) (λ u. unless_memory (gives u)))))
        result out.old.value out.new.value }
    ensures kept { dtype.new.value ≡ dtype.old.value }
{
    let Some(dtype) = as_dtype(dtype) else {
        return KIND;
    };
    let Some(fields) = dtype.as_struct_fields_opt() else {
        return CONDITION;
    };
    put_copy(alloc, out, fields.field_by_index(index))
}

/// Writes the index of the first field with this name, counted from 0, to `index`. Returns 1 if no field has the
/// name, 3 if the name isn't UTF-8, and 5 if the type isn't a struct.
#[unsafe(no_mangle)]
pub extern "C" fn vlt_core_struct_find(dtype: &mut Slot, name: &[u8], index: &mut usize) -> u32
    ensures writes { Writes
        (if_utf8 name.now (on (type_in dtype.old.value)
        (λ t. within (struct_fields t) (λ fs. found (first_place (field_names fs) name.now) gives))))
        result index.old index.new }
    ensures kept { dtype.new.value ≡ dtype.old.value }
{
    let Ok(name) = str::from_utf8(name) else {
        return NOT_UTF8;
    };
    let Some(dtype) = as_dtype(dtype) else {
        return KIND;
    };
    let Some(fields) = dtype.as_struct_fields_opt() else {
        return CONDITION;
    };
    write_place(fields.find(name), index)
}

/// Stores in `out` the type of the first field with this name. Returns 1 if no field has the name, 3 if the name isn't
/// UTF-8, and 5 if the type isn't a struct.
#[unsafe(no_mangle)]
pub extern "C" fn vlt_core_struct_field(
    alloc: Global,
    dtype: &mut Slot,
    name: &[u8],
    out: &mut Slot,
) -> u32
    ensures puts { Puts type_in
        (if_utf8 name.now (on (type_in dtype.old.value)
        (λ t. within (struct_fields t) (λ fs. found (first_named fs name.now) (λ u. unless_memory (gives u))))))
        result out.old.value out.new.value }
    ensures kept { dtype.new.value ≡ dtype.old.value }
{
    let Ok(name) = str::from_utf8(name) else {
        return NOT_UTF8;
    };
    let Some(dtype) = as_dtype(dtype) else {
        return KIND;
    };
    let Some(fields) = dtype.as_struct_fields_opt() else {
        return CONDITION;
    };
    put_copy(alloc, out, fields.field(name))
}

/// Writes the name of the field with this index, which is counted from 0, to `buffer`. Returns 1 if the index isn't
/// below the number of fields, and 5 if the type isn't a struct.
#[unsafe(no_mangle)]
pub extern "C" fn vlt_core_struct_field_name(
    dtype: &mut Slot,
    index: usize,
    buffer: &mut [u8],
    length: &mut usize,
) -> u32
    ensures fills { Fills
        (on (type_in dtype.old.value) (λ t. within (struct_fields t) (λ fs. found (slice_get (field_names fs) index) gives)))
        result (buffer.old, length.old) (buffer.new, length.new) }
    ensures kept { dtype.new.value ≡ dtype.old.value }
{
    let Some(dtype) = as_dtype(dtype) else {
        return KIND;
    };
    let Some(fields) = dtype.as_struct_fields_opt() else {
        return CONDITION;
    };
    write_name(fields.field_name(index), buffer, length)
}

/// Writes the name to `buffer`, or returns 1 if there is no name.
pub fn write_name(name: Option<&FieldName>, buffer: &mut [u8], length: &mut usize) -> u32
    ensures { Fills (found (option_copied name.entry) gives) result (buffer.old, length.old) (buffer.new, length.new) }
{
    match name {
        Some(name) => write_bytes(name.as_str().as_bytes(), buffer, length),
        None => NONE,
    }
}

/// Writes this place to `index`, or returns 1 if there is none.
pub fn write_place(place: Option<usize>, index: &mut usize) -> u32
    ensures { Writes (found place gives) result index.old index.new }
{
    match place {
        Some(place) => {
            *index = place;
            OK
        }
        None => NONE,
    }
}
