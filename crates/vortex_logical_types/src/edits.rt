// SPDX-License-Identifier: Apache-2.0
// SPDX-FileCopyrightText: Copyright the Vortex contributors

// The leaves of a type, and a type without some of its parts or with one replaced.
ghost use Rattle.std.specs.Prelude.{◌≡◌};
ghost use Rattle.std.specs.FinSet as finset;
ghost use Rattle.dtype_edits.specs.Leaves.{leaves};
ghost use Rattle.dtype_edits.specs.Replaced.{replaced};
ghost use Rattle.dtype_edits.specs.Without.{without};
ghost use Rattle.dtype_paths.specs.PathOrder.{set_of};
ghost use Rattle.vortex_logical_types.specs.Levels.{levels};
ghost use Rattle.vortex_logical_types.specs.Slots.{path_in, set_in, type_in};
ghost use Rattle.vortex_logical_types.specs.Vocabulary.{Puts, found, gives, on, on_both, unless_deep, unless_memory};

use crate::errors::{KIND, NONE, TOO_DEEP, of_library};
use crate::levels::{MAX_LEVELS, fits};
use crate::objects::put;
use crate::views::{as_dtype, as_path, as_set};
use c_objects::{Object, Slot};
use dtype_edits::{leaf_paths, with_type_at, without_paths};
use std::alloc::Global;

/// Stores in `out` the set of the paths to the parts of the type into which no step leads further. They are the columns
/// of the type: a step leads into a list, and none leads into a struct without fields, a map, a union or an extension.
/// If several fields of a struct have the same name, a path leads to the first of them, so the others have no paths.
/// For example, the paths of `{a=list(i32), b={}}` are `a.[]` and `b`.
#[unsafe(no_mangle)]
pub extern "C" fn vlt_core_leaf_paths(alloc: Global, dtype: &mut Slot, out: &mut Slot) -> u32
    ensures puts { Puts set_in (on (type_in dtype.old.value) (λ t. unless_memory (gives (set_of (leaves t)))))
        result out.old.value out.new.value }
    ensures kept { dtype.new.value ≡ dtype.old.value }
{
    let Some(dtype) = as_dtype(dtype) else {
        return KIND;
    };
    match leaf_paths(alloc, dtype) {
        Ok(made) => put(alloc, out, Object::Set(made)),
        Err(error) => of_library(error),
    }
}

/// Stores in `out` the type without the parts to which the paths of the set lead. A path that doesn't exist in the type
/// changes nothing. A struct that loses all its fields stays, without fields, and a list is left out with its element.
/// If several fields of a struct have the same name, each of them is treated in the same way. For example,
/// `{a=i32, b={c=u8, d=u8}}` without `a` and `b.c` is `{b={d=u8}}`. Returns 1 if nothing is left.
#[unsafe(no_mangle)]
pub extern "C" fn vlt_core_without_paths(
    alloc: Global,
    dtype: &mut Slot,
    set: &mut Slot,
    out: &mut Slot,
) -> u32
    ensures puts { Puts type_in
        (on_both (type_in dtype.old.value) (set_in set.old.value) (λ t s. unless_memory (found (without t (finset.contains s)) gives)))
        result out.old.value out.new.value }
    ensures kept { (dtype.new.value ≡ dtype.old.value) × (set.new.value ≡ set.old.value) }
{
    let (Some(dtype), Some(paths)) = (as_dtype(dtype), as_set(set)) else {
        return KIND;
    };
    match without_paths(alloc, dtype, paths) {
        Ok(Some(made)) => put(alloc, out, Object::DType(made)),
        Ok(None) => NONE,
        Err(error) => of_library(error),
    }
}

/// Stores in `out` the type with the part at the path replaced by the type in `part`. Every other part stays as it is,
/// with its nullability. If several fields of a struct have the same name, a path leads to the first of them. For
/// example, it is `{a=list(utf8)?}` for `{a=list(i32)?}`, the path `a.[]` and `utf8`. Returns 1 if the path doesn't
/// exist in the type, and 6 if the result would have more than 128 levels.
#[unsafe(no_mangle)]
pub extern "C" fn vlt_core_with_type_at(
    alloc: Global,
    dtype: &mut Slot,
    path: &mut Slot,
    part: &mut Slot,
    out: &mut Slot,
) -> u32
    ensures puts { Puts type_in
        (on_both (type_in dtype.old.value) (path_in path.old.value) (λ t p. on (type_in part.old.value)
        (λ u. unless_memory (found (replaced t p u) (λ r. unless_deep (levels r) (unless_memory (gives r)))))))
        result out.old.value out.new.value }
    ensures kept { (dtype.new.value ≡ dtype.old.value) × (path.new.value ≡ path.old.value) × (part.new.value ≡ part.old.value) }
{
    let (Some(dtype), Some(path), Some(part)) = (as_dtype(dtype), as_path(path), as_dtype(part))
    else {
        return KIND;
    };
    match with_type_at(alloc, dtype, path, part) {
        Ok(Some(made)) if fits(&made, MAX_LEVELS) => put(alloc, out, Object::DType(made)),
        Ok(Some(_)) => TOO_DEEP,
        Ok(None) => NONE,
        Err(error) => of_library(error),
    }
}
