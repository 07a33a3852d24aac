// SPDX-License-Identifier: Apache-2.0
// SPDX-FileCopyrightText: Copyright the Vortex contributors

// Paths.
ghost use Rattle.std.specs.Prelude.{◌≡◌, ◌++◌, ◌∷◌, [], length, slice_get, string_bytes};
ghost use Rattle.dtype_base.specs.Errors.{Makes};
ghost use Rattle.dtype_paths.specs.Along.{along};
ghost use Rattle.dtype_paths.specs.At.{ExistsIn};
ghost use Rattle.dtype_paths.specs.Overlaps.{Overlaps};
ghost use Rattle.dtype_paths.specs.Texts.{path_text};
ghost use Rattle.dtype_paths.specs.declared.field.Field.TheVariants.{ElementType, Name};
ghost use Rattle.c_objects.specs.declared.object.Object.TheVariants.{Path};
ghost use Rattle.vortex_logical_types.specs.Paths.{FillsStep, FillsWithStep, hash_of_path, starts_with, tail_of};
ghost use Rattle.vortex_logical_types.specs.Slots.{path_in, type_in};
ghost use Rattle.vortex_logical_types.specs.Vocabulary.{Answers, Fills, Puts, PutsReturned, Writes, found, gives, if_utf8, on, on_both, tells, unless_memory};

use crate::buffers::write_bytes;
use crate::errors::{CONDITION, KIND, NONE, NOT_UTF8, OK, of_library};
use crate::objects::{put, put_copy};
use crate::views::{as_dtype, as_path};
use c_objects::{Object, Slot};
use dtype_base::{FieldName, VortexResult};
use dtype_paths::{Field, FieldPath};
use std::alloc::Global;
use std::hash::{DefaultHasher, Hash, Hasher};
use std::str;

/// The length that stands for the step to the element, in place of the length of a name.
pub const ELEMENT: usize = usize::MAX;

/// Stores in `out` the root, which is the path without steps.
#[unsafe(no_mangle)]
pub extern "C" fn vlt_core_path_root(alloc: Global, out: &mut Slot) -> u32
    ensures { Puts path_in (unless_memory (gives [])) result out.old.value out.new.value }
{
    put(alloc, out, Object::Path(FieldPath::root(alloc)))
}

/// Stores in the slot the path that a call of the library returned, or returns the number of its error.
pub fn put_path(alloc: Global, out: &mut Slot, made: VortexResult<FieldPath>) -> u32
    ensures { PutsReturned (λ p. Path p) made result out.old.value out.new.value }
{
    match made {
        Ok(path) => put(alloc, out, Object::Path(path)),
        Err(error) => of_library(error),
    }
}

/// Writes the number of steps of the path to `count`.
#[unsafe(no_mangle)]
pub extern "C" fn vlt_core_path_len(path: &mut Slot, count: &mut usize) -> u32
    ensures writes { Writes (on (path_in path.old.value) (λ p. gives (length p))) result count.old count.new }
    ensures kept { path.new.value ≡ path.old.value }
{
    let Some(path) = as_path(path) else {
        return KIND;
    };
    *count = path.parts().len();
    OK
}

/// Writes the step with this index, which is counted from 0. For a step to a field, it writes the bytes of the name
/// to `buffer` and their number to `length`. For the step to the element, it writes only a length, which is 2^64 - 1
/// (`VLT_ELEMENT` in C). Returns 1 if the index isn't below the number of steps.
#[unsafe(no_mangle)]
pub extern "C" fn vlt_core_path_step(
    path: &mut Slot,
    index: usize,
    buffer: &mut [u8],
    length: &mut usize,
) -> u32
    ensures fills { FillsStep
        (on (path_in path.old.value) (λ p. found (slice_get p index) gives))
        result (buffer.old, length.old) (buffer.new, length.new) }
    ensures kept { path.new.value ≡ path.old.value }
{
    let Some(path) = as_path(path) else {
        return KIND;
    };
    let Some(step) = path.parts().get(index) else {
        return NONE;
    };
    write_step(step, buffer, length)
}

/// Writes the step: the bytes of a name to `buffer` and their number to `length`, or only the length `ELEMENT` for the
/// step to the element.
pub fn write_step(step: &Field, buffer: &mut [u8], length: &mut usize) -> u32
    ensures { FillsWithStep step.now result (buffer.old, length.old) (buffer.new, length.new) }
{
    match step {
        Field::Name(name) => write_bytes(name.as_str().as_bytes(), buffer, length),
        Field::ElementType => {
            *length = ELEMENT;
            OK
        }
    }
}

/// Stores in `out` the path with one more step at its end: the step to the field with this name. Returns 3 if the name
/// isn't UTF-8.
#[unsafe(no_mangle)]
pub extern "C" fn vlt_core_path_push_name(
    alloc: Global,
    path: &mut Slot,
    name: &[u8],
    out: &mut Slot,
) -> u32
    ensures puts { Puts path_in
        (on (path_in path.old.value) (λ p. if_utf8 name.now (unless_memory (gives (p ++ (Name name.now ∷ []))))))
        result out.old.value out.new.value }
    ensures kept { path.new.value ≡ path.old.value }
{
    let Some(path) = as_path(path) else {
        return KIND;
    };
    let Ok(name) = str::from_utf8(name) else {
        return NOT_UTF8;
    };
    put_path(alloc, out, with_name(alloc, path, name))
}

fn with_name(alloc: Global, path: &FieldPath, name: &str) -> VortexResult<FieldPath>
    ensures { Makes result (λ p. p ≡ path.now ++ (Name name.now ∷ [])) }
{
    path.try_clone()?
        .push(Field::Name(FieldName::new(alloc, name)?))
}

/// Stores in `out` the path with one more step at its end: the step to the element of a list.
#[unsafe(no_mangle)]
pub extern "C" fn vlt_core_path_push_element(alloc: Global, path: &mut Slot, out: &mut Slot) -> u32
    ensures puts { Puts path_in
        (on (path_in path.old.value) (λ p. unless_memory (gives (p ++ (ElementType ∷ [])))))
        result out.old.value out.new.value }
    ensures kept { path.new.value ≡ path.old.value }
{
    let Some(path) = as_path(path) else {
        return KIND;
    };
    put_path(alloc, out, with_element(path))
}

fn with_element(path: &FieldPath) -> VortexResult<FieldPath>
    ensures { Makes result (λ p. p ≡ path.now ++ (ElementType ∷ [])) }
{
    path.try_clone()?.push(Field::ElementType)
}

/// Stores in `out` the path without its first step. Returns 1 if the path is the root, which has no steps.
#[unsafe(no_mangle)]
pub extern "C" fn vlt_core_path_step_into(alloc: Global, path: &mut Slot, out: &mut Slot) -> u32
    ensures puts { Puts path_in
        (on (path_in path.old.value) (λ p. unless_memory (found (tail_of p) gives)))
        result out.old.value out.new.value }
    ensures kept { path.new.value ≡ path.old.value }
{
    let Some(path) = as_path(path) else {
        return KIND;
    };
    match path.try_clone() {
        Ok(path) => put_tail(alloc, path, out),
        Err(error) => of_library(error),
    }
}

fn put_tail(alloc: Global, path: FieldPath, out: &mut Slot) -> u32
    ensures { Puts path_in (unless_memory (found (tail_of path) gives)) result out.old.value out.new.value }
{
    match path.step_into() {
        Some(rest) => put(alloc, out, Object::Path(rest)),
        None => NONE,
    }
}

/// Stores in `out` a copy of the path.
#[unsafe(no_mangle)]
pub extern "C" fn vlt_core_path_copy(alloc: Global, path: &mut Slot, out: &mut Slot) -> u32
    ensures puts { Puts path_in (on (path_in path.old.value) (λ p. unless_memory (gives p))) result out.old.value out.new.value }
    ensures kept { path.new.value ≡ path.old.value }
{
    let Some(path) = as_path(path) else {
        return KIND;
    };
    put_path(alloc, out, path.try_clone())
}

/// Returns 0 if the two paths are equal, and 1 if they aren't.
#[unsafe(no_mangle)]
pub extern "C" fn vlt_core_path_eq(one: &mut Slot, other: &mut Slot) -> u32
    ensures answer { Answers (on_both (path_in one.old.value) (path_in other.old.value) (λ p q. tells (p ≡ q))) result }
    ensures kept { (one.new.value ≡ one.old.value) × (other.new.value ≡ other.old.value) }
{
    let (Some(one), Some(other)) = (as_path(one), as_path(other)) else {
        return KIND;
    };
    if one.eq(other) { OK } else { NONE }
}

/// Returns 0 if one of the two paths is a prefix of the other, and 1 if none is. For example, it returns 0 for `a` and
/// `a.b`, and for equal paths.
#[unsafe(no_mangle)]
pub extern "C" fn vlt_core_path_overlap(one: &mut Slot, other: &mut Slot) -> u32
    ensures answer { Answers (on_both (path_in one.old.value) (path_in other.old.value) (λ p q. tells (Overlaps p q))) result }
    ensures kept { (one.new.value ≡ one.old.value) × (other.new.value ≡ other.old.value) }
{
    let (Some(one), Some(other)) = (as_path(one), as_path(other)) else {
        return KIND;
    };
    if one.overlap(other) { OK } else { NONE }
}

/// Stores in `out` the type at the path in the type `dtype`. The root leads to the whole type, a name to the first
/// field with this name in a struct, and the element to the element type of a list or of a fixed-size list. No step
/// leads into a type of another kind. The nullability of the types on the way doesn't matter. For example, the type at
/// `a.[]` in `{a=list(i32)?}` is `i32`. Returns 1 if there is no type at the path.
#[unsafe(no_mangle)]
pub extern "C" fn vlt_core_path_resolve(
    alloc: Global,
    dtype: &mut Slot,
    path: &mut Slot,
    out: &mut Slot,
) -> u32
    ensures puts { Puts type_in
        (on_both (type_in dtype.old.value) (path_in path.old.value) (λ t p. found (along t p) (λ u. unless_memory (gives u))))
        result out.old.value out.new.value }
    ensures kept { (dtype.new.value ≡ dtype.old.value) × (path.new.value ≡ path.old.value) }
{
    let (Some(dtype), Some(path)) = (as_dtype(dtype), as_path(path)) else {
        return KIND;
    };
    put_copy(alloc, out, path.resolve(dtype))
}

/// Returns 0 if there is a type at the path in the type `dtype`, and 1 if there is none. The comment of
/// `vlt_path_resolve` explains where a path leads.
#[unsafe(no_mangle)]
pub extern "C" fn vlt_core_path_exists_in(dtype: &mut Slot, path: &mut Slot) -> u32
    ensures answer { Answers (on_both (type_in dtype.old.value) (path_in path.old.value) (λ t p. tells (ExistsIn t p))) result }
    ensures kept { (dtype.new.value ≡ dtype.old.value) × (path.new.value ≡ path.old.value) }
{
    let (Some(dtype), Some(path)) = (as_dtype(dtype), as_path(path)) else {
        return KIND;
    };
    if path.exists_in(dtype) { OK } else { NONE }
}

/// Writes the path to `buffer` as the library displays it, for example `$a.[].$b`. The text of the root is empty. This
/// isn't the form that `vlt_path_from_text` reads, which `vlt_path_to_text` writes.
#[unsafe(no_mangle)]
pub extern "C" fn vlt_core_path_display(
    alloc: Global,
    path: &mut Slot,
    buffer: &mut [u8],
    length: &mut usize,
) -> u32
    ensures fills { Fills
        (on (path_in path.old.value) (λ p. unless_memory (gives (path_text p))))
        result (buffer.old, length.old) (buffer.new, length.new) }
    ensures kept { path.new.value ≡ path.old.value }
{
    let Some(path) = as_path(path) else {
        return KIND;
    };
    match displayed(alloc, path) {
        Ok(text) => write_bytes(text.as_bytes(), buffer, length),
        Err(error) => of_library(error),
    }
}

fn displayed(alloc: Global, path: &FieldPath) -> VortexResult<String>
    ensures { Makes result (λ s. string_bytes s ≡ path_text path.now) }
{
    let mut text = String::new(alloc);
    write!(text, "{path}")?;
    Ok(text)
}

/// Returns 0 if the first step of the path is the step to the field with this name. Returns 1 if it is the step to
/// another field, or if the path is the root. Returns 5 if it is the step to the element. The call doesn't test
/// whether the name is UTF-8, and no field has a name that isn't.
#[unsafe(no_mangle)]
pub extern "C" fn vlt_core_path_starts_with_name(path: &mut Slot, name: &[u8]) -> u32
    ensures answer { Answers (on (path_in path.old.value) (λ p. starts_with (slice_get p 0) name.now)) result }
    ensures kept { path.new.value ≡ path.old.value }
{
    let Some(path) = as_path(path) else {
        return KIND;
    };
    match path.parts().first() {
        Some(Field::Name(first)) => same_bytes(first.as_str().as_bytes(), name),
        Some(Field::ElementType) => CONDITION,
        None => NONE,
    }
}

fn same_bytes(one: &[u8], other: &[u8]) -> u32
    ensures { Answers (tells (one.now ≡ other.now)) result }
{
    if one == other { OK } else { NONE }
}

/// Writes a hash of the path to `hash`. Equal paths have the same hash. The hash of a path may differ between versions
/// of the library.
#[unsafe(no_mangle)]
pub extern "C" fn vlt_core_path_hash(path: &mut Slot, hash: &mut u64) -> u32
    ensures writes { Writes (on (path_in path.old.value) (λ p. gives (hash_of_path p))) result hash.old hash.new }
    ensures kept { path.new.value ≡ path.old.value }
{
    let Some(path) = as_path(path) else {
        return KIND;
    };
    let mut state = DefaultHasher::new();
    path.hash(&mut state);
    *hash = state.finish();
    OK
}
