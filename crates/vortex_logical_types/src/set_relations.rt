// SPDX-License-Identifier: Apache-2.0
// SPDX-FileCopyrightText: Copyright the Vortex contributors

// Two sets of paths: how they are related, and their union.
ghost use Rattle.std.specs.Prelude.{◌≡◌, IsTrue};
ghost use Rattle.std.specs.FinSet as finset;
ghost use Rattle.vortex_logical_types.specs.Slots.{set_in};
ghost use Rattle.vortex_logical_types.specs.Vocabulary.{Answers, Puts, gives, on_both, tells, unless_memory};

use crate::errors::{KIND, NONE, OK, of_library};
use crate::objects::put;
use crate::views::as_set;
use c_objects::{Object, Slot};
use std::alloc::Global;

/// Returns 0 if the two sets contain the same paths, and 1 if they don't.
#[unsafe(no_mangle)]
pub extern "C" fn vlt_core_set_eq(one: &mut Slot, other: &mut Slot) -> u32
    ensures answer { Answers (on_both (set_in one.old.value) (set_in other.old.value)
        (λ s t. tells (s ≡ t))) result }
    ensures kept { (one.new.value ≡ one.old.value) × (other.new.value ≡ other.old.value) }
{
    let (Some(one), Some(other)) = (as_set(one), as_set(other)) else {
        return KIND;
    };
    if *one == *other { OK } else { NONE }
}

/// Returns 0 if each path of the first set is in the other one too, and 1 if one isn't. The paths themselves are
/// compared, and not what they select. For example, the set of `a.b` isn't a subset of the set of `a`.
#[unsafe(no_mangle)]
pub extern "C" fn vlt_core_set_is_subset(one: &mut Slot, other: &mut Slot) -> u32
    ensures answer { Answers (on_both (set_in one.old.value) (set_in other.old.value)
        (λ s t. tells (IsTrue (finset.is_subset s t)))) result }
    ensures kept { (one.new.value ≡ one.old.value) × (other.new.value ≡ other.old.value) }
{
    let (Some(one), Some(other)) = (as_set(one), as_set(other)) else {
        return KIND;
    };
    if one.is_subset(other) { OK } else { NONE }
}

/// Returns 0 if no path is in both sets, and 1 if one is. The paths themselves are compared, and not what they select.
/// For example, the sets of `a` and of `a.b` are disjoint.
#[unsafe(no_mangle)]
pub extern "C" fn vlt_core_set_is_disjoint(one: &mut Slot, other: &mut Slot) -> u32
    ensures answer { Answers (on_both (set_in one.old.value) (set_in other.old.value)
        (λ s t. tells (finset.intersection s t ≡ finset.empty))) result }
    ensures kept { (one.new.value ≡ one.old.value) × (other.new.value ≡ other.old.value) }
{
    let (Some(one), Some(other)) = (as_set(one), as_set(other)) else {
        return KIND;
    };
    if one.is_disjoint(other) { OK } else { NONE }
}

/// Stores in `out` the set of the paths that are in one of the two sets or in both.
#[unsafe(no_mangle)]
pub extern "C" fn vlt_core_set_union(
    alloc: Global,
    one: &mut Slot,
    other: &mut Slot,
    out: &mut Slot,
) -> u32
    ensures puts { Puts set_in (on_both (set_in one.old.value) (set_in other.old.value)
        (λ s t. unless_memory (gives (finset.union s t)))) result out.old.value out.new.value }
    ensures kept { (one.new.value ≡ one.old.value) × (other.new.value ≡ other.old.value) }
{
    let (Some(one), Some(other)) = (as_set(one), as_set(other)) else {
        return KIND;
    };
    match one.union(other) {
        Ok(joined) => put(alloc, out, Object::Set(joined)),
        Err(error) => of_library(error),
    }
}
