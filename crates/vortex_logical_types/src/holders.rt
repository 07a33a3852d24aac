// SPDX-License-Identifier: Apache-2.0
// SPDX-FileCopyrightText: Copyright the Vortex contributors

// Types: constructors of what is made of fields.
ghost use Rattle.std.specs.Prelude.{◌≡◌, length, map, vec_len};
ghost use Rattle.std.specs.List.{zip};
ghost use Rattle.dtype_base.specs.Nullability.{nullability_of};
ghost use Rattle.dtype_types.specs.parts.Lookups.{field_names, field_types};
ghost use Rattle.dtype_types.specs.tree.Tree as t;
ghost use Rattle.dtype_types.specs.tree.TreeOf.{tree};
ghost use Rattle.vortex_logical_types.specs.Levels.{levels_over};
ghost use Rattle.vortex_logical_types.specs.Slots.{fields_in, pairs_of, type_in};
ghost use Rattle.vortex_logical_types.specs.Types.{makes_consecutive, makes_union};
ghost use Rattle.vortex_logical_types.specs.Vocabulary.{Puts, PutsOr, gives, on, unless_deep, unless_memory};

use crate::errors::{KIND, LIBRARY};
use crate::failures::fail_with;
use crate::fields::parts_of;
use crate::objects::put;
use crate::views::as_fields;
use c_objects::{Object, Slot};
use dtype_base::{FieldName, FieldNames, Nullability};
use dtype_types::{DType, StructFields, UnionVariants};
use std::alloc::Global;

/// Stores in `out` the struct type of these fields, in order. The struct type is nullable if `nullable` is true.
/// Returns 6 if the type of a field has 128 levels.
#[unsafe(no_mangle)]
pub extern "C" fn vlt_core_dtype_struct(
    alloc: Global,
    fields: &mut Slot,
    nullable: bool,
    out: &mut Slot,
) -> u32
    ensures puts { Puts type_in
        (on (fields_in fields.old.value) (λ fs. unless_memory (unless_deep (levels_over (field_types fs))
        (gives (t.struct (t.fields fs) (nullability_of nullable))))))
        result out.old.value out.new.value }
    ensures kept { fields.new.value ≡ fields.old.value }
{
    let Some(fields) = as_fields(fields) else {
        return KIND;
    };
    make_struct(alloc, fields, Nullability::from(nullable), out)
}

#[tactic(auto, using(crate::proofs::FieldPairs::parts_fit))]
fn make_struct(alloc: Global, all: &Vec<(FieldName, DType)>, n: Nullability, out: &mut Slot) -> u32
    ensures { Puts type_in
        (unless_memory (unless_deep (levels_over (field_types (pairs_of all.now.items)))
        (gives (t.struct (t.fields (pairs_of all.now.items)) n))))
        result out.old.value out.new.value }
{
    match parts_of(alloc, all) {
        Ok((names, dtypes)) => put_struct(alloc, names, dtypes, n, out),
        Err(code) => code,
    }
}

#[tactic(auto, using(dtype_types::proofs::lemmas::TreeLaws::tree_struct))]
fn put_struct(
    alloc: Global,
    names: FieldNames,
    dtypes: Vec<DType>,
    n: Nullability,
    out: &mut Slot,
) -> u32
    requires { length names ≡ vec_len dtypes }
    ensures { Puts type_in
        (unless_memory (gives (t.struct (t.fields (zip names (map tree dtypes.items))) n)))
        result out.old.value out.new.value }
{
    match StructFields::new(alloc, names, dtypes) {
        Ok(fields) => put(alloc, out, Object::DType(DType::Struct(fields, n))),
        Err(_) => LIBRARY,
    }
}

/// Stores in `out` the union type whose variants are these fields, in order, with these tags. The union type is
/// nullable if `nullable` is true.
///
/// Returns 6 if the type of a field has 128 levels. Otherwise it returns the first of these numbers that applies, with
/// the error in `error`: 111 if there are more or fewer tags than fields, 112 if there are no fields, 113 if a tag
/// occurs twice, and 115 if a name occurs twice.
#[unsafe(no_mangle)]
pub extern "C" fn vlt_core_dtype_union(
    alloc: Global,
    fields: &mut Slot,
    tags: &[u8],
    nullable: bool,
    out: &mut Slot,
    error: &mut Slot,
) -> u32
    ensures puts { PutsOr type_in
        (on (fields_in fields.old.value) (λ fs. unless_memory (unless_deep (levels_over (field_types fs))
        (makes_union tags.now (nullability_of nullable) (field_names fs) (field_types fs)))))
        result out.old.value out.new.value error.old.value error.new.value }
    ensures kept { fields.new.value ≡ fields.old.value }
{
    let Some(fields) = as_fields(fields) else {
        return KIND;
    };
    make_union(alloc, fields, tags, Nullability::from(nullable), out, error)
}

fn make_union(
    alloc: Global,
    all: &Vec<(FieldName, DType)>,
    tags: &[u8],
    n: Nullability,
    out: &mut Slot,
    error: &mut Slot,
) -> u32
    ensures { PutsOr type_in
        (unless_memory (unless_deep (levels_over (field_types (pairs_of all.now.items)))
        (makes_union tags.now n (field_names (pairs_of all.now.items)) (field_types (pairs_of all.now.items)))))
        result out.old.value out.new.value error.old.value error.new.value }
{
    match parts_of(alloc, all) {
        Ok((names, dtypes)) => put_union(alloc, names, dtypes, tags, n, out, error),
        Err(code) => code,
    }
}

fn put_union(
    alloc: Global,
    names: FieldNames,
    dtypes: Vec<DType>,
    tags: &[u8],
    n: Nullability,
    out: &mut Slot,
    error: &mut Slot,
) -> u32
    ensures { PutsOr type_in (unless_memory (makes_union tags.now n names (map tree dtypes.items)))
        result out.old.value out.new.value error.old.value error.new.value }
{
    match Vec::from_slice(alloc, tags) {
        Ok(type_ids) => put_variants(alloc, names, dtypes, type_ids, n, out, error),
        Err(_) => LIBRARY,
    }
}

#[tactic(auto, using(dtype_types::proofs::lemmas::TreeLaws::tree_union))]
fn put_variants(
    alloc: Global,
    names: FieldNames,
    dtypes: Vec<DType>,
    type_ids: Vec<u8>,
    n: Nullability,
    out: &mut Slot,
    error: &mut Slot,
) -> u32
    ensures { PutsOr type_in (unless_memory (makes_union type_ids.items n names (map tree dtypes.items)))
        result out.old.value out.new.value error.old.value error.new.value }
{
    match UnionVariants::try_new(alloc, names, dtypes, type_ids) {
        Ok(variants) => put(alloc, out, Object::DType(DType::Union(variants, n))),
        Err(why) => fail_with(alloc, error, why),
    }
}

/// Stores in `out` the union type whose variants are these fields, in order, with the tags 0, 1, 2 and so on. The union
/// type is nullable if `nullable` is true.
///
/// Returns 6 if the type of a field has 128 levels. Otherwise it returns the first of these numbers that applies, with
/// the error in `error`: 114 if there are more than 256 fields, 112 if there are no fields, and 115 if a name occurs
/// twice.
#[unsafe(no_mangle)]
pub extern "C" fn vlt_core_dtype_union_consecutive(
    alloc: Global,
    fields: &mut Slot,
    nullable: bool,
    out: &mut Slot,
    error: &mut Slot,
) -> u32
    ensures puts { PutsOr type_in
        (on (fields_in fields.old.value) (λ fs. unless_memory (unless_deep (levels_over (field_types fs))
        (makes_consecutive (nullability_of nullable) (field_names fs) (field_types fs)))))
        result out.old.value out.new.value error.old.value error.new.value }
    ensures kept { fields.new.value ≡ fields.old.value }
{
    let Some(fields) = as_fields(fields) else {
        return KIND;
    };
    make_consecutive(alloc, fields, Nullability::from(nullable), out, error)
}

fn make_consecutive(
    alloc: Global,
    all: &Vec<(FieldName, DType)>,
    n: Nullability,
    out: &mut Slot,
    error: &mut Slot,
) -> u32
    ensures { PutsOr type_in
        (unless_memory (unless_deep (levels_over (field_types (pairs_of all.now.items)))
        (makes_consecutive n (field_names (pairs_of all.now.items)) (field_types (pairs_of all.now.items)))))
        result out.old.value out.new.value error.old.value error.new.value }
{
    match parts_of(alloc, all) {
        Ok((names, dtypes)) => put_consecutive(alloc, names, dtypes, n, out, error),
        Err(code) => code,
    }
}

#[tactic(auto, using(dtype_types::proofs::lemmas::TreeLaws::tree_union))]
fn put_consecutive(
    alloc: Global,
    names: FieldNames,
    dtypes: Vec<DType>,
    n: Nullability,
    out: &mut Slot,
    error: &mut Slot,
) -> u32
    ensures { PutsOr type_in (unless_memory (makes_consecutive n names (map tree dtypes.items)))
        result out.old.value out.new.value error.old.value error.new.value }
{
    match UnionVariants::new(alloc, names, dtypes) {
        Ok(variants) => put(alloc, out, Object::DType(DType::Union(variants, n))),
        Err(why) => fail_with(alloc, error, why),
    }
}
