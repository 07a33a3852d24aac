// SPDX-License-Identifier: Apache-2.0
// SPDX-FileCopyrightText: Copyright the Vortex contributors

// The part of a type that paths lead to.
ghost use Rattle.std.specs.Prelude.{◌≡◌};
ghost use Rattle.std.specs.FinSet as finset;
ghost use Rattle.dtype_projection.specs.Projected.{projected};
ghost use Rattle.vortex_logical_types.specs.Slots.{set_in, type_in};
ghost use Rattle.vortex_logical_types.specs.Vocabulary.{Puts, found, gives, on_both, unless_memory};

use crate::errors::{KIND, NONE, of_library};
use crate::objects::put;
use crate::views::{as_dtype, as_set};
use c_objects::{Object, Slot};
use dtype_projection::project_paths;
use std::alloc::Global;

/// Stores in `out` the part of the type to which the paths of the set lead. It is the schema of the columns that a
/// reader of these paths has to open. The type at the end of a path is kept whole. A struct on the way keeps only the
/// fields to which a path leads, in its own order. For example, the part of `{a=i32, b={c=u8, d=u8}}` for the path
/// `b.c` is `{b={c=u8}}`. Returns 1 if no path of the set exists in the type.
#[unsafe(no_mangle)]
pub extern "C" fn vlt_core_project_paths(
    alloc: Global,
    dtype: &mut Slot,
    set: &mut Slot,
    out: &mut Slot,
) -> u32
    ensures puts { Puts type_in
        (on_both (type_in dtype.old.value) (set_in set.old.value) (λ t s. unless_memory (found (projected t (finset.contains s)) gives)))
        result out.old.value out.new.value }
    ensures kept { (dtype.new.value ≡ dtype.old.value) × (set.new.value ≡ set.old.value) }
{
    let (Some(dtype), Some(paths)) = (as_dtype(dtype), as_set(set)) else {
        return KIND;
    };
    match project_paths(alloc, dtype, paths) {
        Ok(Some(made)) => put(alloc, out, Object::DType(made)),
        Ok(None) => NONE,
        Err(error) => of_library(error),
    }
}
