// SPDX-License-Identifier: Apache-2.0
// SPDX-FileCopyrightText: Copyright the Vortex contributors

// Types: what they hold.
ghost use Rattle.std.specs.Prelude.{◌≡◌, IsTrue};
ghost use Rattle.dtype_base.specs.Primitives.{ptype_row};
ghost use Rattle.dtype_types.specs.tree.Kinds.{any_size_list_element, decimal_of, extension_parts, map_parts, primitive_name};
ghost use Rattle.vortex_logical_types.specs.Slots.{type_in};
ghost use Rattle.vortex_logical_types.specs.Types.{digits_of, fixed_size_of};
ghost use Rattle.vortex_logical_types.specs.Vocabulary.{Answers, Fills, Puts, Writes, found, gives, on, tells, unless_memory, within};

use crate::buffers::write_bytes;
use crate::errors::{CONDITION, KIND, NONE, OK};
use crate::objects::{put_copy, put_made};
use crate::views::as_dtype;
use c_objects::Slot;
use dtype_base::PType;
use dtype_types::DType;
use std::alloc::Global;

/// Stores in `out` the element type of a list or of a fixed-size list. Returns 1 if the type is of another kind.
#[unsafe(no_mangle)]
pub extern "C" fn vlt_core_dtype_element(alloc: Global, dtype: &mut Slot, out: &mut Slot) -> u32
    ensures puts { Puts type_in
        (on (type_in dtype.old.value) (λ t. found (any_size_list_element t) (λ e. unless_memory (gives e))))
        result out.old.value out.new.value }
    ensures kept { dtype.new.value ≡ dtype.old.value }
{
    let Some(dtype) = as_dtype(dtype) else {
        return KIND;
    };
    put_copy(alloc, out, dtype.as_any_size_list_element_opt())
}

/// Stores in `out` the key type of a map. Returns 1 if the type isn't a map.
#[unsafe(no_mangle)]
pub extern "C" fn vlt_core_dtype_key(alloc: Global, dtype: &mut Slot, out: &mut Slot) -> u32
    ensures puts { Puts type_in
        (on (type_in dtype.old.value) (λ t. found (map_parts t) (λ m. unless_memory (gives m.0))))
        result out.old.value out.new.value }
    ensures kept { dtype.new.value ≡ dtype.old.value }
{
    let Some(dtype) = as_dtype(dtype) else {
        return KIND;
    };
    let Some(map) = dtype.as_map_opt() else {
        return NONE;
    };
    put_made(alloc, out, map.key_dtype().try_clone(alloc))
}

/// Stores in `out` the value type of a map. Returns 1 if the type isn't a map.
#[unsafe(no_mangle)]
pub extern "C" fn vlt_core_dtype_value(alloc: Global, dtype: &mut Slot, out: &mut Slot) -> u32
    ensures puts { Puts type_in
        (on (type_in dtype.old.value) (λ t. found (map_parts t) (λ m. unless_memory (gives m.1))))
        result out.old.value out.new.value }
    ensures kept { dtype.new.value ≡ dtype.old.value }
{
    let Some(dtype) = as_dtype(dtype) else {
        return KIND;
    };
    let Some(map) = dtype.as_map_opt() else {
        return NONE;
    };
    put_made(alloc, out, map.value_dtype().try_clone(alloc))
}

/// Stores in `out` the storage type of an extension. Returns 1 if the type isn't an extension.
#[unsafe(no_mangle)]
pub extern "C" fn vlt_core_dtype_storage(alloc: Global, dtype: &mut Slot, out: &mut Slot) -> u32
    ensures puts { Puts type_in
        (on (type_in dtype.old.value) (λ t. found (extension_parts t) (λ e. unless_memory (gives e.2))))
        result out.old.value out.new.value }
    ensures kept { dtype.new.value ≡ dtype.old.value }
{
    let Some(dtype) = as_dtype(dtype) else {
        return KIND;
    };
    let Some(extension) = dtype.as_extension_opt() else {
        return NONE;
    };
    put_made(alloc, out, extension.storage_dtype().try_clone(alloc))
}

/// Writes the number of a primitive type to `number`: 0 u8, 1 u16, 2 u32, 3 u64, 4 i8, 5 i16, 6 i32, 7 i64, 8 f16, 9
/// f32, 10 f64. Returns 1 if the type isn't primitive.
#[unsafe(no_mangle)]
pub extern "C" fn vlt_core_dtype_ptype(dtype: &mut Slot, number: &mut u32) -> u32
    ensures writes { Writes
        (on (type_in dtype.old.value) (λ t. found (primitive_name t) (λ p. gives (ptype_row p).number)))
        result number.old number.new }
    ensures kept { dtype.new.value ≡ dtype.old.value }
{
    let Some(dtype) = as_dtype(dtype) else {
        return KIND;
    };
    let Ok(ptype) = PType::try_from(dtype) else {
        return NONE;
    };
    *number = number_of_ptype(ptype);
    OK
}

fn number_of_ptype(ptype: PType) -> u32
    ensures { result ≡ (ptype_row ptype).number }
{
    match ptype {
        PType::U8 => 0,
        PType::U16 => 1,
        PType::U32 => 2,
        PType::U64 => 3,
        PType::I8 => 4,
        PType::I16 => 5,
        PType::I32 => 6,
        PType::I64 => 7,
        PType::F16 => 8,
        PType::F32 => 9,
        PType::F64 => 10,
    }
}

/// Writes the id of an extension to `buffer`. Returns 1 if the type isn't an extension.
#[unsafe(no_mangle)]
pub extern "C" fn vlt_core_dtype_id(dtype: &mut Slot, buffer: &mut [u8], length: &mut usize) -> u32
    ensures fills { Fills
        (on (type_in dtype.old.value) (λ t. found (extension_parts t) (λ e. gives e.0)))
        result (buffer.old, length.old) (buffer.new, length.new) }
    ensures kept { dtype.new.value ≡ dtype.old.value }
{
    let Some(dtype) = as_dtype(dtype) else {
        return KIND;
    };
    let Some(extension) = dtype.as_extension_opt() else {
        return NONE;
    };
    write_bytes(extension.id().as_str().as_bytes(), buffer, length)
}

/// Writes the metadata of an extension to `buffer`. Returns 1 if the type isn't an extension.
#[unsafe(no_mangle)]
pub extern "C" fn vlt_core_dtype_metadata(
    dtype: &mut Slot,
    buffer: &mut [u8],
    length: &mut usize,
) -> u32
    ensures fills { Fills
        (on (type_in dtype.old.value) (λ t. found (extension_parts t) (λ e. gives e.1)))
        result (buffer.old, length.old) (buffer.new, length.new) }
    ensures kept { dtype.new.value ≡ dtype.old.value }
{
    let Some(dtype) = as_dtype(dtype) else {
        return KIND;
    };
    let Some(extension) = dtype.as_extension_opt() else {
        return NONE;
    };
    write_bytes(extension.metadata_bytes(), buffer, length)
}

/// Writes the size of a fixed-size list to `size`. Returns 1 if the type isn't a fixed-size list.
#[unsafe(no_mangle)]
pub extern "C" fn vlt_core_dtype_fixed_size(dtype: &mut Slot, size: &mut u32) -> u32
    ensures writes { Writes (on (type_in dtype.old.value) (λ t. found (fixed_size_of t) gives)) result size.old size.new }
    ensures kept { dtype.new.value ≡ dtype.old.value }
{
    let Some(dtype) = as_dtype(dtype) else {
        return KIND;
    };
    let DType::FixedSizeList(_, of, _) = dtype else {
        return NONE;
    };
    *size = *of;
    OK
}

/// Writes the precision and the scale of a decimal to `precision` and `scale`. The precision is from 1 to 76. The
/// scale isn't above the precision, and it may be negative. Returns 1 if the type isn't a decimal.
#[unsafe(no_mangle)]
pub extern "C" fn vlt_core_dtype_decimal_parts(
    dtype: &mut Slot,
    precision: &mut u8,
    scale: &mut i8,
) -> u32
    ensures writes { Writes
        (on (type_in dtype.old.value) (λ t. found (decimal_of t) (λ d. gives (digits_of d))))
        result (precision.old, scale.old) (precision.new, scale.new) }
    ensures kept { dtype.new.value ≡ dtype.old.value }
{
    let Some(dtype) = as_dtype(dtype) else {
        return KIND;
    };
    let Some(decimal) = dtype.as_decimal_opt() else {
        return NONE;
    };
    *precision = decimal.precision();
    *scale = decimal.scale();
    OK
}

/// Returns 0 if the keys of the map are declared to be sorted, 1 if they aren't, and 5 if the type isn't a map.
#[unsafe(no_mangle)]
pub extern "C" fn vlt_core_dtype_keys_sorted(dtype: &mut Slot) -> u32
    ensures answer { Answers (on (type_in dtype.old.value) (λ t. within (map_parts t) (λ m. tells (IsTrue m.2)))) result }
    ensures kept { dtype.new.value ≡ dtype.old.value }
{
    let Some(dtype) = as_dtype(dtype) else {
        return KIND;
    };
    let Some(map) = dtype.as_map_opt() else {
        return CONDITION;
    };
    if map.keys_sorted() { OK } else { NONE }
}
