// SPDX-License-Identifier: Apache-2.0
// SPDX-FileCopyrightText: Copyright the Vortex contributors

// Unions: the variants of a type.
ghost use Rattle.std.specs.Prelude.{◌≡◌, ◌==◌, length, position, slice_get};
ghost use Rattle.dtype_base.specs.FieldNames.{first_place};
ghost use Rattle.dtype_types.specs.parts.Lookups.{variant_named, variant_names, variant_tags, variant_types};
ghost use Rattle.dtype_types.specs.parts.Unions.{AreConsecutive};
ghost use Rattle.dtype_types.specs.tree.Kinds.{union_variants};
ghost use Rattle.vortex_logical_types.specs.Slots.{type_in};
ghost use Rattle.vortex_logical_types.specs.Vocabulary.{Answers, Fills, Puts, Writes, found, gives, if_utf8, on, tells, unless_memory, within};

use crate::errors::{CONDITION, KIND, NONE, NOT_UTF8, OK};
use crate::objects::put_copy;
use crate::structs::{write_name, write_place};
use crate::views::as_dtype;
use c_objects::Slot;
use std::alloc::Global;
use std::str;

/// Writes the number of variants of the union, which is from 1 to 256, to `count`. Returns 5 if the type isn't a
/// union.
#[unsafe(no_mangle)]
pub extern "C" fn vlt_core_union_len(dtype: &mut Slot, count: &mut usize) -> u32
    ensures writes { Writes
        (on (type_in dtype.old.value) (λ t. within (union_variants t) (λ vs. gives (length vs))))
        result count.old count.new }
    ensures kept { dtype.new.value ≡ dtype.old.value }
{
    let Some(dtype) = as_dtype(dtype) else {
        return KIND;
    };
    let Some(variants) = dtype.as_union_variants_opt() else {
        return CONDITION;
    };
    *count = variants.len();
    OK
}

/// Stores in `out` the type of the variant with this index, which is counted from 0. Returns 1 if the index isn't
/// below the number of variants, and 5 if the type isn't a union.
#[unsafe(no_mangle)]
pub extern "C" fn vlt_core_union_variant_by_index(
    alloc: Global,
    dtype: &mut Slot,
    index: usize,
    out: &mut Slot,
) -> u32
    ensures puts { Puts type_in
        (on (type_in dtype.old.value)
        (λ t. within (union_variants t) (λ vs. found (slice_get (variant_types vs) index) (λ u. unless_memory (gives u)))))
        result out.old.value out.new.value }
    ensures kept { dtype.new.value ≡ dtype.old.value }
{
    let Some(dtype) = as_dtype(dtype) else {
        return KIND;
    };
    let Some(variants) = dtype.as_union_variants_opt() else {
        return CONDITION;
    };
    put_copy(alloc, out, variants.variant_by_index(index))
}

/// Writes the index of the variant with this name, counted from 0, to `index`. Returns 1 if no variant has the name,
/// 3 if the name isn't UTF-8, and 5 if the type isn't a union.
#[unsafe(no_mangle)]
pub extern "C" fn vlt_core_union_find(dtype: &mut Slot, name: &[u8], index: &mut usize) -> u32
    ensures writes { Writes
        (if_utf8 name.now (on (type_in dtype.old.value)
        (λ t. within (union_variants t) (λ vs. found (first_place (variant_names vs) name.now) gives))))
        result index.old index.new }
    ensures kept { dtype.new.value ≡ dtype.old.value }
{
    let Ok(name) = str::from_utf8(name) else {
        return NOT_UTF8;
    };
    let Some(dtype) = as_dtype(dtype) else {
        return KIND;
    };
    let Some(variants) = dtype.as_union_variants_opt() else {
        return CONDITION;
    };
    write_place(variants.find(name), index)
}

/// Stores in `out` the type of the variant with this name. Returns 1 if no variant has the name, 3 if the name isn't
/// UTF-8, and 5 if the type isn't a union.
#[unsafe(no_mangle)]
pub extern "C" fn vlt_core_union_variant(
    alloc: Global,
    dtype: &mut Slot,
    name: &[u8],
    out: &mut Slot,
) -> u32
    ensures puts { Puts type_in
        (if_utf8 name.now (on (type_in dtype.old.value)
        (λ t. within (union_variants t) (λ vs. found (variant_named vs name.now) (λ u. unless_memory (gives u))))))
        result out.old.value out.new.value }
    ensures kept { dtype.new.value ≡ dtype.old.value }
{
    let Ok(name) = str::from_utf8(name) else {
        return NOT_UTF8;
    };
    let Some(dtype) = as_dtype(dtype) else {
        return KIND;
    };
    let Some(variants) = dtype.as_union_variants_opt() else {
        return CONDITION;
    };
    put_copy(alloc, out, variants.variant(name))
}

/// Writes the index of the variant with this tag, counted from 0, to `index`. Returns 1 if no variant has the tag,
/// and 5 if the type isn't a union.
#[unsafe(no_mangle)]
pub extern "C" fn vlt_core_union_tag_to_child_index(
    dtype: &mut Slot,
    tag: u8,
    index: &mut usize,
) -> u32
    ensures writes { Writes
        (on (type_in dtype.old.value) (λ t. within (union_variants t) (λ vs. found (position (λ g. g == tag) (variant_tags vs)) gives)))
        result index.old index.new }
    ensures kept { dtype.new.value ≡ dtype.old.value }
{
    let Some(dtype) = as_dtype(dtype) else {
        return KIND;
    };
    let Some(variants) = dtype.as_union_variants_opt() else {
        return CONDITION;
    };
    write_place(variants.tag_to_child_index(tag), index)
}

/// Writes the tag of the variant with this index, which is counted from 0, to `tag`. Returns 1 if the index isn't
/// below the number of variants, and 5 if the type isn't a union.
#[unsafe(no_mangle)]
pub extern "C" fn vlt_core_union_child_index_to_tag(
    dtype: &mut Slot,
    index: usize,
    tag: &mut u8,
) -> u32
    ensures writes { Writes
        (on (type_in dtype.old.value) (λ t. within (union_variants t) (λ vs. found (slice_get (variant_tags vs) index) gives)))
        result tag.old tag.new }
    ensures kept { dtype.new.value ≡ dtype.old.value }
{
    let Some(dtype) = as_dtype(dtype) else {
        return KIND;
    };
    let Some(variants) = dtype.as_union_variants_opt() else {
        return CONDITION;
    };
    let Some(found) = variants.type_ids().get(index) else {
        return NONE;
    };
    *tag = *found;
    OK
}

/// Writes the name of the variant with this index, which is counted from 0, to `buffer`. Returns 1 if the index isn't
/// below the number of variants, and 5 if the type isn't a union.
#[unsafe(no_mangle)]
pub extern "C" fn vlt_core_union_variant_name(
    dtype: &mut Slot,
    index: usize,
    buffer: &mut [u8],
    length: &mut usize,
) -> u32
    ensures fills { Fills
        (on (type_in dtype.old.value) (λ t. within (union_variants t) (λ vs. found (slice_get (variant_names vs) index) gives)))
        result (buffer.old, length.old) (buffer.new, length.new) }
    ensures kept { dtype.new.value ≡ dtype.old.value }
{
    let Some(dtype) = as_dtype(dtype) else {
        return KIND;
    };
    let Some(variants) = dtype.as_union_variants_opt() else {
        return CONDITION;
    };
    write_name(variants.names().get(index), buffer, length)
}

/// Returns 0 if the tags are 0, 1, 2 and so on in the order of the variants, 1 if they aren't, and 5 if the type isn't
/// a union.
#[unsafe(no_mangle)]
pub extern "C" fn vlt_core_union_is_consecutive(dtype: &mut Slot) -> u32
    ensures answer { Answers
        (on (type_in dtype.old.value) (λ t. within (union_variants t) (λ vs. tells (AreConsecutive (variant_tags vs)))))
        result }
    ensures kept { dtype.new.value ≡ dtype.old.value }
{
    let Some(dtype) = as_dtype(dtype) else {
        return KIND;
    };
    let Some(variants) = dtype.as_union_variants_opt() else {
        return CONDITION;
    };
    if variants.is_consecutive() { OK } else { NONE }
}
