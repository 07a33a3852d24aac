// SPDX-License-Identifier: Apache-2.0
// SPDX-FileCopyrightText: Copyright the Vortex contributors

// Paths that are taken out of lists.
ghost use Rattle.std.specs.Prelude.{[], set, slice_get};
ghost use Rattle.vortex_logical_types.specs.PathLists.{Exchanges, TakesAt};
ghost use Rattle.vortex_logical_types.specs.Slots.{path_in, paths_in};
ghost use Rattle.vortex_logical_types.specs.Vocabulary.{Changes, Puts, found, gives, on, unless_memory};

use crate::errors::{KIND, NONE, OK};
use crate::objects::put;
use c_objects::{Object, Slot};
use dtype_paths::FieldPath;
use std::alloc::Global;
use std::mem;

/// Takes the path with this index, which is counted from 0, out of the list, and stores it in `out`. The list has the
/// root in its place afterwards. So a program that goes through a list can own each path without copying it. Returns
/// 1 if the index isn't below the length of the list. If the call doesn't return 0, the list is unchanged.
#[unsafe(no_mangle)]
pub extern "C" fn vlt_core_paths_take(
    alloc: Global,
    paths: &mut Slot,
    index: usize,
    out: &mut Slot,
) -> u32
    ensures changes { Changes paths_in
        (on (paths_in paths.old.value) (λ ps. found (slice_get ps index) (λ p. unless_memory (gives (set ps index [])))))
        result paths.old.value paths.new.value }
    ensures puts { Puts path_in
        (on (paths_in paths.old.value) (λ ps. found (slice_get ps index) (λ p. unless_memory (gives p))))
        result out.old.value out.new.value }
{
    let Some(object) = paths.get_mut() else {
        return KIND;
    };
    let Object::Paths(list) = object else {
        return KIND;
    };
    take(alloc, list, index, out)
}

fn take(alloc: Global, list: &mut Vec<FieldPath>, index: usize, out: &mut Slot) -> u32
    ensures { TakesAt (slice_get list.old.items index) index result list.old list.new out.old.value out.new.value }
{
    if index >= list.len() {
        return NONE;
    }
    let code = put(alloc, out, Object::Path(FieldPath::root(alloc)));
    if code == OK {
        exchange(out, &mut list[index]);
    }
    code
}

// Exchanges the path that the slot contains for another.
fn exchange(slot: &mut Slot, path: &mut FieldPath)
    ensures { Exchanges (path_in slot.old.value) path.old path.new (path_in slot.new.value) }
{
    let Some(object) = slot.get_mut() else {
        return;
    };
    let Object::Path(there) = object else {
        return;
    };
    mem::swap(there, path);
}
