// SPDX-License-Identifier: Apache-2.0
// SPDX-FileCopyrightText: Copyright the Vortex contributors

//! The paths that a query needs.
ghost use Rattle.std.specs.Prelude.{◌≡◌, ◌↔◌, ◌⊎◌, Contains, IfOk, IsOkUnless, IsTrue, List};
ghost use Rattle.std.specs.FinSet as set;
ghost use Rattle.vortex_dtype.specs.PathOrder.{set_of};
ghost use Rattle.vortex_dtype.specs.Types.Field.{Field};
ghost use Rattle.vortex_dtype.specs.Types.VortexError.TheVariants.{OutOfMemory};
ghost use Rattle.scan_planner.specs.Needs.{needed};

use std::alloc::Global;
use vortex_dtype::{Field, FieldPath, FieldPathSet, VortexResult};

/// Returns the paths that a query needs: those of its select list and those of its filter.
///
/// # Errors
///
/// - `OutOfMemory`: an allocation fails.
#[tactic(auto, using(vortex_dtype::proofs::rulesets::has_members))]
pub fn needed_paths(
    alloc: Global,
    select: &[FieldPath],
    filter: &[FieldPath],
) -> VortexResult<FieldPathSet>
    ensures paths { IfOk result (λ s. s ≡ needed select.now filter.now) }
    ensures each { IfOk result (λ s. (p : List Field) → IsTrue (set.contains s p)
        ↔ (Contains select.now p ⊎ Contains filter.now p)) }
    ensures errors { IsOkUnless result OutOfMemory }
{
    let selected = set_of_paths(alloc, select)?;
    let filtered = set_of_paths(alloc, filter)?;
    Ok(selected.union(&filtered)?)
}

// Returns the set of the paths of a list.
#[tactic(auto, using(vortex_dtype::proofs::rulesets::covering))]
fn set_of_paths(alloc: Global, paths: &[FieldPath]) -> VortexResult<FieldPathSet>
    ensures ok { IfOk result (λ s. s ≡ set_of paths.now) }
    ensures errors { IsOkUnless result OutOfMemory }
{
    let copied = copied_paths(alloc, paths)?;
    Ok(FieldPathSet::from_iter(alloc, copied)?)
}

// Returns copies of the paths.
fn copied_paths(alloc: Global, paths: &[FieldPath]) -> VortexResult<Vec<FieldPath>>
    ensures ok { IfOk result (λ v. v.items ≡ paths.now) }
    ensures errors { IsOkUnless result OutOfMemory }
{
    let mut copied = Vec::new(alloc);
    for path in paths {
        copied.push(path.try_clone()?)?;
    }
    Ok(copied)
}
