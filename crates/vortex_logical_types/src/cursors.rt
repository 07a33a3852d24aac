// SPDX-License-Identifier: Apache-2.0
// SPDX-FileCopyrightText: Copyright the Vortex contributors

// Which paths of a set continue after a path.
ghost use Rattle.std.specs.Prelude.{◌≡◌};
ghost use Rattle.std.specs.FinSet as finset;
ghost use Rattle.dtype_base.specs.Errors.{Makes};
ghost use Rattle.dtype_paths.specs.Cursors.{contains_below, contains_below_if};
ghost use Rattle.dtype_paths.specs.PathPredicates.{after_steps};
ghost use Rattle.vortex_logical_types.specs.Paths.{AreFirstSteps, describes_below, lists_names};
ghost use Rattle.vortex_logical_types.specs.Slots.{path_in, paths_in, set_in};
ghost use Rattle.vortex_logical_types.specs.Vocabulary.{Puts, Writes, on_both, unless_memory};

use crate::errors::{KIND, NONE, OK, of_library};
use crate::objects::put;
use crate::views::{as_path, as_set};
use c_objects::{Object, Slot};
use dtype_base::VortexResult;
use dtype_paths::{Field, FieldPath, FieldPathCursor, FieldPathSet};
use std::alloc::Global;

// Returns the cursor of the set at the path, or `None` if no path of the set begins with the path.
#[tactic(auto, using(std::proofs::lemmas::Grind::common_steps, crate::proofs::Below::below_none))]
fn cursor_at<'a>(paths: &'a FieldPathSet, path: &FieldPath) -> Option<FieldPathCursor<'a>>
    ensures { contains_below_if result ≡ after_steps path.now (finset.contains paths.now) }
{
    let mut here = paths.cursor();
    for step in path.parts() {
        here = here.step(step)?;
    }
    Some(here)
}

/// Writes how paths of the set continue after the path `path`. `is_end` is true if the path itself is in the set.
/// `has_element` is true if some path of the set continues with the step to the element. `name_count` is the number of
/// different names with which paths of the set continue. For example, for the set of `a`, `a.b` and `a.c` and the path
/// `a` the call writes true, false and 2. Returns 1 if no path of the set begins with the path.
#[unsafe(no_mangle)]
pub extern "C" fn vlt_core_set_below(
    paths: &mut Slot,
    path: &mut Slot,
    is_end: &mut bool,
    has_element: &mut bool,
    name_count: &mut usize,
) -> u32
    ensures writes { Writes
        (on_both (set_in paths.old.value) (path_in path.old.value) (λ s p. describes_below (after_steps p (finset.contains s))))
        result (is_end.old, has_element.old, name_count.old) (is_end.new, has_element.new, name_count.new) }
    ensures kept { (paths.new.value ≡ paths.old.value) × (path.new.value ≡ path.old.value) }
{
    let (Some(paths), Some(path)) = (as_set(paths), as_path(path)) else {
        return KIND;
    };
    below(paths, path, is_end, has_element, name_count)
}

fn below(
    paths: &FieldPathSet,
    path: &FieldPath,
    is_end: &mut bool,
    has_element: &mut bool,
    name_count: &mut usize,
) -> u32
    ensures { Writes
        (describes_below (after_steps path.now (finset.contains paths.now)))
        result (is_end.old, has_element.old, name_count.old) (is_end.new, has_element.new, name_count.new) }
{
    let Some(cursor) = cursor_at(paths, path) else {
        return NONE;
    };
    if cursor.is_empty() {
        return NONE;
    }
    *is_end = cursor.is_end();
    *has_element = cursor.element().is_some();
    *name_count = cursor.names().len();
    OK
}

/// Stores in `out` the list of the names with which paths of the set continue after the path `path`. The list contains
/// a path of one step for each name. Each name is in it once, in no particular order. For example, for the set of
/// `a.b` and `a.c` and the path `a` the list contains the paths `b` and `c`. Returns 1 if no path of the set begins
/// with the path.
#[unsafe(no_mangle)]
pub extern "C" fn vlt_core_set_names_below(
    alloc: Global,
    paths: &mut Slot,
    path: &mut Slot,
    out: &mut Slot,
) -> u32
    ensures puts { Puts paths_in
        (on_both (set_in paths.old.value) (path_in path.old.value) (λ s p. unless_memory (lists_names (after_steps p (finset.contains s)))))
        result out.old.value out.new.value }
    ensures kept { (paths.new.value ≡ paths.old.value) × (path.new.value ≡ path.old.value) }
{
    let (Some(paths), Some(path)) = (as_set(paths), as_path(path)) else {
        return KIND;
    };
    names(alloc, paths, path, out)
}

fn names(alloc: Global, paths: &FieldPathSet, path: &FieldPath, out: &mut Slot) -> u32
    ensures { Puts paths_in
        (unless_memory (lists_names (after_steps path.now (finset.contains paths.now))))
        result out.old.value out.new.value }
{
    let Some(cursor) = cursor_at(paths, path) else {
        return NONE;
    };
    if cursor.is_empty() {
        return NONE;
    }
    match names_at(alloc, cursor) {
        Ok(names) => put(alloc, out, Object::Paths(names)),
        Err(error) => of_library(error),
    }
}

// Returns a path of one step for each name with which paths of the cursor begin.
fn names_at(alloc: Global, cursor: FieldPathCursor<'_>) -> VortexResult<Vec<FieldPath>>
    ensures { Makes result (λ ps. AreFirstSteps (contains_below cursor.entry) ps.items) }
{
    let names = cursor.names();
    let mut paths = Vec::with_capacity(alloc, names.len())?;
    for (name, _below) in names {
        let step = Field::Name(name.try_clone(alloc)?);
        paths.push(FieldPath::from_field(alloc, step)?)?;
    }
    Ok(paths)
}
