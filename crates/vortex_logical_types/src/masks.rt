// SPDX-License-Identifier: Apache-2.0
// SPDX-FileCopyrightText: Copyright the Vortex contributors

// Masks over paths.
ghost use Rattle.std.specs.Prelude.{◌≡◌, [], List};
ghost use Rattle.dtype_paths.specs.In.{In, mask_tail};
ghost use Rattle.dtype_paths.specs.declared.field.Field.{Field};
ghost use Rattle.dtype_paths.specs.declared.field_mask.FieldMask.TheVariants.{All, Exact, Prefix};
ghost use Rattle.vortex_logical_types.specs.Paths.{FillsStepOr, first_step, mask_number, mask_path, stepped};
ghost use Rattle.vortex_logical_types.specs.Slots.{mask_in, path_in};
ghost use Rattle.vortex_logical_types.specs.Vocabulary.{Answers, Puts, PutsOr, Writes, found, gives, on, on_both, tells, unless_memory};

use crate::errors::{KIND, LIBRARY, NONE, OK, of_library};
use crate::failures::fail_with;
use crate::objects::put;
use crate::paths::{put_path, write_step};
use crate::views::{as_mask, as_path};
use c_objects::{Object, Slot};
use dtype_paths::FieldMask;
use std::alloc::Global;

/// Stores in `out` the mask that selects every path.
#[unsafe(no_mangle)]
pub extern "C" fn vlt_core_mask_all(alloc: Global, out: &mut Slot) -> u32
    ensures { Puts mask_in (unless_memory (gives All)) result out.old.value out.new.value }
{
    put(alloc, out, Object::Mask(FieldMask::All))
}

/// Stores in `out` the mask that selects the path and every path that begins with it.
#[unsafe(no_mangle)]
pub extern "C" fn vlt_core_mask_prefix(alloc: Global, path: &mut Slot, out: &mut Slot) -> u32
    ensures puts { Puts mask_in (on (path_in path.old.value) (λ p. unless_memory (gives (Prefix p)))) result out.old.value out.new.value }
    ensures kept { path.new.value ≡ path.old.value }
{
    let Some(path) = as_path(path) else {
        return KIND;
    };
    match path.try_clone() {
        Ok(path) => put(alloc, out, Object::Mask(FieldMask::Prefix(path))),
        Err(error) => of_library(error),
    }
}

/// Stores in `out` the mask that selects only the path.
#[unsafe(no_mangle)]
pub extern "C" fn vlt_core_mask_exact(alloc: Global, path: &mut Slot, out: &mut Slot) -> u32
    ensures puts { Puts mask_in (on (path_in path.old.value) (λ p. unless_memory (gives (Exact p)))) result out.old.value out.new.value }
    ensures kept { path.new.value ≡ path.old.value }
{
    let Some(path) = as_path(path) else {
        return KIND;
    };
    match path.try_clone() {
        Ok(path) => put(alloc, out, Object::Mask(FieldMask::Exact(path))),
        Err(error) => of_library(error),
    }
}

/// Writes the kind of the mask to `kind`: 0 for the mask of `vlt_mask_all`, which selects every path; 1 for a mask of
/// `vlt_mask_prefix`, which selects a path and every path that begins with it; and 2 for a mask of `vlt_mask_exact`,
/// which selects only one path.
#[unsafe(no_mangle)]
pub extern "C" fn vlt_core_mask_kind(mask: &mut Slot, kind: &mut u32) -> u32
    ensures writes { Writes (on (mask_in mask.old.value) (λ m. gives (mask_number m))) result kind.old kind.new }
    ensures kept { mask.new.value ≡ mask.old.value }
{
    let Some(mask) = as_mask(mask) else {
        return KIND;
    };
    *kind = number_of(mask);
    OK
}

fn number_of(mask: &FieldMask) -> u32
    ensures { result ≡ mask_number mask.now }
{
    match mask {
        FieldMask::All => 0,
        FieldMask::Prefix(_) => 1,
        FieldMask::Exact(_) => 2,
    }
}

/// Stores in `out` the path of the mask. Returns 1 if the mask is the one of `vlt_mask_all`, which has no path. The
/// path of the mask that `vlt_mask_prefix` makes of the root is the root, although this mask also selects every path.
#[unsafe(no_mangle)]
pub extern "C" fn vlt_core_mask_path(alloc: Global, mask: &mut Slot, out: &mut Slot) -> u32
    ensures puts { Puts path_in
        (on (mask_in mask.old.value) (λ m. found (mask_path m) (λ p. unless_memory (gives p))))
        result out.old.value out.new.value }
    ensures kept { mask.new.value ≡ mask.old.value }
{
    let Some(mask) = as_mask(mask) else {
        return KIND;
    };
    match mask {
        FieldMask::All => NONE,
        FieldMask::Prefix(path) | FieldMask::Exact(path) => put_path(alloc, out, path.try_clone()),
    }
}

/// Stores in `out` a copy of the mask.
#[unsafe(no_mangle)]
pub extern "C" fn vlt_core_mask_copy(alloc: Global, mask: &mut Slot, out: &mut Slot) -> u32
    ensures puts { Puts mask_in (on (mask_in mask.old.value) (λ m. unless_memory (gives m))) result out.old.value out.new.value }
    ensures kept { mask.new.value ≡ mask.old.value }
{
    let Some(mask) = as_mask(mask) else {
        return KIND;
    };
    match mask.try_clone(alloc) {
        Ok(copied) => put(alloc, out, Object::Mask(copied)),
        Err(error) => of_library(error),
    }
}

/// Stores in `out` the mask of what this mask selects below the first step of its path:
///
/// - For the mask of `vlt_mask_all`, it is the mask of `vlt_mask_all`.
/// - For a mask of `vlt_mask_prefix`, it is the mask that `vlt_mask_prefix` makes of the path without its first step.
///   If the path has at most one step, it is the mask of `vlt_mask_all`.
/// - For a mask of `vlt_mask_exact`, it is the mask that `vlt_mask_exact` makes of the path without its first step.
///
/// For example, for the mask that `vlt_mask_prefix` makes of `a.b`, it is the mask that `vlt_mask_prefix` makes of
/// `b`. Returns 120, with the error in `error`, if the mask selects only the root.
#[unsafe(no_mangle)]
pub extern "C" fn vlt_core_mask_step_into(
    alloc: Global,
    mask: &mut Slot,
    out: &mut Slot,
    error: &mut Slot,
) -> u32
    ensures puts { PutsOr mask_in (on (mask_in mask.old.value) (λ m. unless_memory (stepped (mask_tail m))))
        result out.old.value out.new.value error.old.value error.new.value }
    ensures kept { mask.new.value ≡ mask.old.value }
{
    let Some(mask) = as_mask(mask) else {
        return KIND;
    };
    match mask.try_clone(alloc) {
        Ok(copied) => put_stepped(alloc, copied, out, error),
        Err(_) => LIBRARY,
    }
}

fn put_stepped(alloc: Global, mask: FieldMask, out: &mut Slot, error: &mut Slot) -> u32
    ensures { PutsOr mask_in (unless_memory (stepped (mask_tail mask)))
        result out.old.value out.new.value error.old.value error.new.value }
{
    match mask.step_into() {
        Ok(stepped) => put(alloc, out, Object::Mask(stepped)),
        Err(why) => fail_with(alloc, error, why),
    }
}

/// Writes the first step of the path of the mask, in the same way as `vlt_path_step` writes a step. Returns 1 if the
/// path is the root, and 121, with the error in `error`, if the mask is the one of `vlt_mask_all`, which has no path.
#[unsafe(no_mangle)]
pub extern "C" fn vlt_core_mask_starting_field(
    alloc: Global,
    mask: &mut Slot,
    buffer: &mut [u8],
    length: &mut usize,
    error: &mut Slot,
) -> u32
    ensures fills { FillsStepOr (on (mask_in mask.old.value) (λ m. unless_memory (first_step m)))
        result (buffer.old, length.old) (buffer.new, length.new) error.old.value error.new.value }
    ensures kept { mask.new.value ≡ mask.old.value }
{
    let Some(mask) = as_mask(mask) else {
        return KIND;
    };
    starting_field(alloc, mask, buffer, length, error)
}

#[tactic(auto, using(crate::proofs::FirstSteps::written_of_all, crate::proofs::FirstSteps::written_of_step, crate::proofs::FirstSteps::written_of_root))]
fn starting_field(
    alloc: Global,
    mask: &FieldMask,
    buffer: &mut [u8],
    length: &mut usize,
    error: &mut Slot,
) -> u32
    ensures { FillsStepOr (unless_memory (first_step mask.now))
        result (buffer.old, length.old) (buffer.new, length.new) error.old.value error.new.value }
{
    match mask.starting_field() {
        Ok(Some(step)) => write_step(step, buffer, length),
        Ok(None) => NONE,
        Err(why) => fail_with(alloc, error, why),
    }
}

/// Returns 0 if the mask selects every path, and 1 if it doesn't. The mask of `vlt_mask_all` and the mask that
/// `vlt_mask_prefix` makes of the root select every path.
#[unsafe(no_mangle)]
pub extern "C" fn vlt_core_mask_matches_all(mask: &mut Slot) -> u32
    ensures answer { Answers (on (mask_in mask.old.value) (λ m. tells ((q : List Field) → In m q))) result }
    ensures kept { mask.new.value ≡ mask.old.value }
{
    let Some(mask) = as_mask(mask) else {
        return KIND;
    };
    if mask.matches_all() { OK } else { NONE }
}

/// Returns 0 if the mask selects the root, and 1 if it doesn't. The mask of `vlt_mask_all` and the masks whose path is
/// the root select the root.
#[unsafe(no_mangle)]
pub extern "C" fn vlt_core_mask_matches_root(mask: &mut Slot) -> u32
    ensures answer { Answers (on (mask_in mask.old.value) (λ m. tells (In m []))) result }
    ensures kept { mask.new.value ≡ mask.old.value }
{
    let Some(mask) = as_mask(mask) else {
        return KIND;
    };
    matches_root(mask)
}

fn matches_root(mask: &FieldMask) -> u32
    ensures { Answers (tells (In mask.now [])) result }
{
    if mask.matches_root() { OK } else { NONE }
}

/// Returns 0 if the two masks are equal, and 1 if they aren't. They are equal if they have the same kind and the same
/// path. So the mask of `vlt_mask_all` isn't equal to the mask that `vlt_mask_prefix` makes of the root, although both
/// select every path.
#[unsafe(no_mangle)]
pub extern "C" fn vlt_core_mask_eq(one: &mut Slot, other: &mut Slot) -> u32
    ensures answer { Answers (on_both (mask_in one.old.value) (mask_in other.old.value) (λ m n. tells (m ≡ n))) result }
    ensures kept { (one.new.value ≡ one.old.value) × (other.new.value ≡ other.old.value) }
{
    let (Some(one), Some(other)) = (as_mask(one), as_mask(other)) else {
        return KIND;
    };
    if one.eq(other) { OK } else { NONE }
}
