// SPDX-License-Identifier: Apache-2.0
// SPDX-FileCopyrightText: Copyright the Vortex contributors

// Sets of paths and lists of paths.
ghost use Rattle.std.specs.Prelude.{◌≡◌, IsErr, IsTrue, length, map, slice_get, take};
ghost use Rattle.std.specs.FinSet as finset;
ghost use Rattle.std.specs.Vec.Iter.{into_iter_items};
ghost use Rattle.c_objects.specs.declared.object.Object.TheVariants.{Paths};
ghost use Rattle.dtype_base.specs.Distinct.{Distinct};
ghost use Rattle.dtype_base.specs.Errors.{Makes};
ghost use Rattle.dtype_paths.specs.Covering.{least};
ghost use Rattle.dtype_paths.specs.PathOrder.{set_of};
ghost use Rattle.dtype_paths.specs.Unresolved.{unresolved};
ghost use Rattle.dtype_types.specs.tree.TreeOf.{tree};
ghost use Rattle.vortex_logical_types.specs.Paths.{Gains, GainsList, GainsListIn, GainsPath};
ghost use Rattle.vortex_logical_types.specs.Several.{EndsAt, GainsFirst, GainsSlots, each_in, objects_in};
ghost use Rattle.vortex_logical_types.specs.Slots.{path_in, paths_in, set_in, type_in};
ghost use Rattle.vortex_logical_types.specs.Vocabulary.{Answers, Changes, Puts, PutsReturned, Writes, found, gives, gives_some, on, on_both, tells, unless_memory};

use crate::errors::{KIND, NONE, OK, of_library};
use crate::objects::put;
use crate::paths::put_path;
use crate::views::{as_dtype, as_path, as_paths, as_set};
use c_objects::{Object, Slot};
use dtype_base::VortexResult;
use dtype_paths::{FieldPath, FieldPathSet};
use dtype_types::DType;
use std::alloc::Global;
use std::vec;

/// Stores in `out` the empty set.
#[unsafe(no_mangle)]
pub extern "C" fn vlt_core_set_new(alloc: Global, out: &mut Slot) -> u32
    ensures { Puts set_in (unless_memory (gives finset.empty)) result out.old.value out.new.value }
{
    put(alloc, out, Object::Set(FieldPathSet::new(alloc)))
}

/// Inserts a copy of the path into the set. If the set contains the path already, nothing changes, and the call
/// returns 0. If it doesn't return 0, the set is unchanged.
#[unsafe(no_mangle)]
pub extern "C" fn vlt_core_set_insert(paths: &mut Slot, path: &mut Slot) -> u32
    ensures changes { Changes set_in
        (on_both (set_in paths.old.value) (path_in path.old.value) (λ s p. unless_memory (gives (finset.insert s p))))
        result paths.old.value paths.new.value }
    ensures kept { path.new.value ≡ path.old.value }
{
    let (Some(object), Some(path)) = (paths.get_mut(), as_path(path)) else {
        return KIND;
    };
    let Object::Set(paths) = object else {
        return KIND;
    };
    insert(paths, path)
}

fn insert(paths: &mut FieldPathSet, path: &FieldPath) -> u32
    ensures { Gains result paths.old (finset.insert paths.old path.now) paths.new }
{
    match inserted(paths, path) {
        Ok(()) => OK,
        Err(error) => of_library(error),
    }
}

fn inserted(paths: &mut FieldPathSet, path: &FieldPath) -> VortexResult<()>
    ensures ok { Makes result (λ _. paths.new ≡ finset.insert paths.old path.now) }
    ensures err { IsErr result → paths.new ≡ paths.old }
{
    paths.insert(path.try_clone()?)
}

/// Returns 0 if the path is in the set, and 1 if it isn't.
#[unsafe(no_mangle)]
pub extern "C" fn vlt_core_set_contains(paths: &mut Slot, path: &mut Slot) -> u32
    ensures answer { Answers
        (on_both (set_in paths.old.value) (path_in path.old.value) (λ s p. tells (IsTrue (finset.contains s p))))
        result }
    ensures kept { (paths.new.value ≡ paths.old.value) × (path.new.value ≡ path.old.value) }
{
    let (Some(paths), Some(path)) = (as_set(paths), as_path(path)) else {
        return KIND;
    };
    if paths.contains(path) { OK } else { NONE }
}

/// Stores in `out` a copy of the set.
#[unsafe(no_mangle)]
pub extern "C" fn vlt_core_set_copy(alloc: Global, paths: &mut Slot, out: &mut Slot) -> u32
    ensures puts { Puts set_in (on (set_in paths.old.value) (λ s. unless_memory (gives s))) result out.old.value out.new.value }
    ensures kept { paths.new.value ≡ paths.old.value }
{
    let Some(paths) = as_set(paths) else {
        return KIND;
    };
    match paths.try_clone() {
        Ok(copied) => put(alloc, out, Object::Set(copied)),
        Err(error) => of_library(error),
    }
}

// Puts a list of paths that was made, or returns the error.
fn put_list(alloc: Global, out: &mut Slot, made: VortexResult<Vec<FieldPath>>) -> u32
    ensures { PutsReturned (λ ps. Paths ps) made result out.old.value out.new.value }
{
    match made {
        Ok(paths) => put(alloc, out, Object::Paths(paths)),
        Err(error) => of_library(error),
    }
}

/// Stores in `out` the cover of the set, as a list. The cover contains those paths of the set of which no other path
/// of the set is a prefix. For example, the cover of `a.b`, `x` and `a` contains `a` and `x`. Each path is in the list
/// once, in no particular order.
#[unsafe(no_mangle)]
pub extern "C" fn vlt_core_set_cover(alloc: Global, paths: &mut Slot, out: &mut Slot) -> u32
    ensures puts { Puts paths_in
        (on (set_in paths.old.value) (λ s. unless_memory (gives_some (λ ps. (set_of ps ≡ least s) × Distinct ps))))
        result out.old.value out.new.value }
    ensures kept { paths.new.value ≡ paths.old.value }
{
    let Some(paths) = as_set(paths) else {
        return KIND;
    };
    put_list(alloc, out, cover_of(alloc, paths))
}

fn cover_of(alloc: Global, paths: &FieldPathSet) -> VortexResult<Vec<FieldPath>>
    ensures { Makes result (λ ps. (set_of ps.items ≡ least paths.now) × Distinct ps.items) }
{
    Ok(paths.try_clone()?.into_iter()?.collect(alloc)?)
}

/// Stores in `out` the list of the paths of the set. Each path is in the list once, in no particular order.
#[unsafe(no_mangle)]
pub extern "C" fn vlt_core_set_members(alloc: Global, paths: &mut Slot, out: &mut Slot) -> u32
    ensures puts { Puts paths_in
        (on (set_in paths.old.value) (λ s. unless_memory (gives_some (λ ps. (set_of ps ≡ s) × Distinct ps))))
        result out.old.value out.new.value }
    ensures kept { paths.new.value ≡ paths.old.value }
{
    let Some(paths) = as_set(paths) else {
        return KIND;
    };
    put_list(alloc, out, members_of(alloc, paths))
}

fn members_of(alloc: Global, paths: &FieldPathSet) -> VortexResult<Vec<FieldPath>>
    ensures { Makes result (λ ps. (set_of ps.items ≡ paths.now) × Distinct ps.items) }
{
    copies_of(alloc, paths.iter()?)
}

/// Stores in `out` the list of those paths of the set that don't exist in the type `dtype`. Each path is in the list
/// once, in no particular order.
#[unsafe(no_mangle)]
pub extern "C" fn vlt_core_set_unresolved(
    alloc: Global,
    paths: &mut Slot,
    dtype: &mut Slot,
    out: &mut Slot,
) -> u32
    ensures puts { Puts paths_in
        (on_both (set_in paths.old.value) (type_in dtype.old.value)
        (λ s t. unless_memory (gives_some (λ ps. (set_of ps ≡ unresolved s t) × Distinct ps))))
        result out.old.value out.new.value }
    ensures kept { (paths.new.value ≡ paths.old.value) × (dtype.new.value ≡ dtype.old.value) }
{
    let (Some(paths), Some(dtype)) = (as_set(paths), as_dtype(dtype)) else {
        return KIND;
    };
    put_list(alloc, out, unresolved_in(alloc, paths, dtype))
}

fn unresolved_in(alloc: Global, paths: &FieldPathSet, dtype: &DType) -> VortexResult<Vec<FieldPath>>
    ensures { Makes result (λ ps. (set_of ps.items ≡ unresolved paths.now (tree dtype.now)) × Distinct ps.items) }
{
    copies_of(alloc, paths.unresolved(dtype)?.into_iter())
}

// Copies paths, in their order.
fn copies_of(alloc: Global, paths: vec::IntoIter<&FieldPath>) -> VortexResult<Vec<FieldPath>>
    ensures { Makes result (λ ps. ps.items ≡ map (λ x. x.now) (into_iter_items paths.entry)) }
{
    let mut copies = Vec::new(alloc);
    for path in paths {
        copies.push(path.try_clone()?)?;
    }
    Ok(copies)
}

/// Writes the number of paths of the set to `count`.
#[unsafe(no_mangle)]
pub extern "C" fn vlt_core_set_len(paths: &mut Slot, count: &mut usize) -> u32
    ensures writes { Writes (on (set_in paths.old.value) (λ s. gives (finset.len s))) result count.old count.new }
    ensures kept { paths.new.value ≡ paths.old.value }
{
    let Some(members) = as_set(paths) else {
        return KIND;
    };
    *count = members.len();
    OK
}

/// Writes the number of paths of the list to `count`.
#[unsafe(no_mangle)]
pub extern "C" fn vlt_core_paths_len(paths: &mut Slot, count: &mut usize) -> u32
    ensures writes { Writes (on (paths_in paths.old.value) (λ ps. gives (length ps))) result count.old count.new }
    ensures kept { paths.new.value ≡ paths.old.value }
{
    let Some(paths) = as_paths(paths) else {
        return KIND;
    };
    *count = paths.len();
    OK
}

/// Stores in `out` a copy of the path with this index in the list, counted from 0. Returns 1 if the index isn't below
/// the length of the list.
#[unsafe(no_mangle)]
pub extern "C" fn vlt_core_paths_get(
    alloc: Global,
    paths: &mut Slot,
    index: usize,
    out: &mut Slot,
) -> u32
    ensures puts { Puts path_in
        (on (paths_in paths.old.value) (λ ps. found (slice_get ps index) (λ p. unless_memory (gives p))))
        result out.old.value out.new.value }
    ensures kept { paths.new.value ≡ paths.old.value }
{
    let Some(paths) = as_paths(paths) else {
        return KIND;
    };
    let Some(path) = paths.get(index) else {
        return NONE;
    };
    put_path(alloc, out, path.try_clone())
}

/// Inserts copies of the paths in these slots into the set, in order, and writes to `inserted` how many were inserted.
/// A path that the set contains already is counted too. If a slot contains no path, the call stops there and
/// returns 2. If memory runs out, it stops there and returns 100. In both cases the paths before it stay inserted, and
/// `inserted` is their number. If `set` contains no set, the call returns 2 and writes nothing.
#[unsafe(no_mangle)]
pub extern "C" fn vlt_core_set_extend(
    set: &mut Slot,
    paths: &mut [Slot],
    inserted: &mut usize,
) -> u32
    ensures gains { GainsSlots (set_in set.old.value) (objects_in paths.old) result inserted.old inserted.new set.old.value set.new.value }
    ensures kept { objects_in paths.new ≡ objects_in paths.old }
{
    let Some(object) = set.get_mut() else {
        return KIND;
    };
    let Object::Set(members) = object else {
        return KIND;
    };
    insert_all(members, paths, inserted)
}

fn insert_all(members: &mut FieldPathSet, paths: &mut [Slot], inserted: &mut usize) -> u32
    ensures gains { GainsFirst (each_in path_in (take inserted.new (objects_in paths.old))) members.old members.new }
    ensures ended { EndsAt (objects_in paths.old) result inserted.new }
    ensures kept { objects_in paths.new ≡ objects_in paths.old }
{
    *inserted = 0;
    for slot in paths.iter_mut() {
        let answer = insert_slot(members, slot);
        if answer != OK {
            return answer;
        }
        *inserted = inserted.saturating_add(1);
    }
    OK
}

fn insert_slot(members: &mut FieldPathSet, slot: &mut Slot) -> u32
    ensures gains { GainsPath (path_in slot.old.value) result members.old members.new }
    ensures kept { slot.new.value ≡ slot.old.value }
{
    let Some(path) = as_path(slot) else {
        return KIND;
    };
    insert(members, path)
}

/// Inserts copies of the paths of the list into the set, in order. If memory runs out, the call stops there and
/// returns 100. In this case the paths that it inserted before stay in the set.
#[unsafe(no_mangle)]
pub extern "C" fn vlt_core_set_extend_from_list(paths: &mut Slot, list: &mut Slot) -> u32
    ensures gains { GainsListIn (set_in paths.old.value) (paths_in list.old.value) result paths.old.value paths.new.value }
    ensures kept { list.new.value ≡ list.old.value }
{
    let (Some(object), Some(list)) = (paths.get_mut(), as_paths(list)) else {
        return KIND;
    };
    let Object::Set(paths) = object else {
        return KIND;
    };
    extend(paths, list)
}

fn extend(paths: &mut FieldPathSet, list: &[FieldPath]) -> u32
    ensures { GainsList list.now result paths.old paths.new }
{
    for path in list {
        let answer = insert(paths, path);
        if answer != OK {
            return answer;
        }
    }
    OK
}
