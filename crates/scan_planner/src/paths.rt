// SPDX-License-Identifier: Apache-2.0
// SPDX-FileCopyrightText: Copyright the Vortex contributors

//! Paths, looked up in the type of a table and in that of a file.
ghost use Rattle.std.specs.Prelude.{◌≡◌, Contains, IfNone, IfOk, IfSome, IsErrOf, IsOkUnless, IsTrue, List, OnOk, Some, map};
ghost use Rattle.std.specs.FinSet as set;
ghost use Rattle.dtype_types.specs.tree.TreeOf.{tree};
ghost use Rattle.vortex_dtype.specs.Along.{along};
ghost use Rattle.vortex_dtype.specs.At.{ExistsIn};
ghost use Rattle.vortex_dtype.specs.Distinct.{Distinct};
ghost use Rattle.vortex_dtype.specs.PathOrder.{set_of};
ghost use Rattle.vortex_dtype.specs.Types.Field.{Field};
ghost use Rattle.vortex_dtype.specs.Types.VortexError.{VortexError};
ghost use Rattle.vortex_dtype.specs.Types.VortexError.TheVariants.{OutOfMemory};
ghost use Rattle.vortex_dtype.specs.Unresolved.{unresolved};
ghost use Rattle.scan_planner.specs.declared.errors.FileConflict.{FileConflict};
ghost use Rattle.scan_planner.specs.declared.errors.PlanError.TheVariants.{Library, Missing, NoCommonType, NoFiles};

use crate::errors::PlanError;
use std::alloc::Global;
use vortex_dtype::{DType, Field, FieldPath, FieldPathSet, VortexResult};

/// Refuses a query that needs a path which the table lacks.
///
/// # Errors
///
/// - `Missing`: the table lacks a path of the set. The error contains one such path.
/// - `Library(OutOfMemory)`: an allocation fails.
#[tactic(auto, using(vortex_dtype::proofs::rulesets::unresolved_paths))]
pub fn check_paths(needed: &FieldPathSet, table: &DType) -> Result<(), PlanError>
    ensures there { OnOk result ((p : List Field) → IsTrue (set.contains needed.now p)
        → ExistsIn (tree table.now) p) }
    ensures asked { (p : List Field) → IsErrOf result (Missing p) → IsTrue (set.contains needed.now p) }
    ensures not_files { IsErrOf result NoFiles → ⊥ }
    ensures not_type { (c : FileConflict) → IsErrOf result (NoCommonType c) → ⊥ }
    ensures missing { (p : List Field) → IsErrOf result (Missing p) → ExistsIn (tree table.now) p → ⊥ }
    ensures library { (e : VortexError) → IsErrOf result (Library e) → e ≡ OutOfMemory }
{
    match first_missing(needed, table)? {
        Some(path) => Err(PlanError::Missing(path.try_clone()?)),
        None => Ok(()),
    }
}

// Returns a path that the table lacks, or None if it has all.
#[tactic(auto, using(vortex_dtype::proofs::rulesets::unresolved_paths))]
fn first_missing<'a>(needed: &'a FieldPathSet, table: &DType) -> VortexResult<Option<&'a FieldPath>>
    ensures some { IfOk result (λ r. IfSome r (λ p. IsTrue (set.contains needed.now p.now)
        × ¬ (ExistsIn (tree table.now) p.now))) }
    ensures none { IfOk result (λ r. IfNone r ((p : List Field) → IsTrue (set.contains needed.now p)
        → ExistsIn (tree table.now) p)) }
    ensures errors { IsOkUnless result OutOfMemory }
{
    let missing = needed.unresolved(table)?;
    match missing.first() {
        Some(path) => Ok(Some(*path)),
        None => Ok(None),
    }
}

/// Returns the types at these paths in the table, in order.
///
/// # Errors
///
/// - `Missing`: the table lacks a path of the list. The error contains the first one.
/// - `Library(OutOfMemory)`: an allocation fails.
pub fn types_at(alloc: Global, paths: &[FieldPath], table: &DType) -> Result<Vec<DType>, PlanError>
    ensures selected { IfOk result (λ types. map (λ d. Some (tree d)) types.items
        ≡ map (along (tree table.now)) paths.now) }
    ensures asked { (p : List Field) → IsErrOf result (Missing p) → Contains paths.now p }
    ensures not_files { IsErrOf result NoFiles → ⊥ }
    ensures not_type { (c : FileConflict) → IsErrOf result (NoCommonType c) → ⊥ }
    ensures missing { (p : List Field) → IsErrOf result (Missing p) → ExistsIn (tree table.now) p → ⊥ }
    ensures library { (e : VortexError) → IsErrOf result (Library e) → e ≡ OutOfMemory }
{
    let mut types = Vec::new(alloc);
    for path in paths {
        match path.resolve(table) {
            Some(dtype) => types.push(dtype.try_clone(alloc)?)?,
            None => return Err(PlanError::Missing(path.try_clone()?)),
        }
    }
    Ok(types)
}

/// Returns the paths of the set that a file lacks.
///
/// # Errors
///
/// - `OutOfMemory`: an allocation fails.
pub fn missing_paths(
    alloc: Global,
    needed: &FieldPathSet,
    file: &DType,
) -> VortexResult<Vec<FieldPath>>
    ensures all { IfOk result (λ v. set_of v.items ≡ unresolved needed.now (tree file.now)) }
    ensures once { IfOk result (λ v. Distinct v.items) }
    ensures errors { IsOkUnless result OutOfMemory }
{
    Ok(copies(alloc, &needed.unresolved(file)?)?)
}

// Returns copies of the paths.
fn copies(alloc: Global, paths: &[&FieldPath]) -> VortexResult<Vec<FieldPath>>
    ensures all { IfOk result (λ v. v.items ≡ map (λ x. x.now) paths.now) }
    ensures errors { IsOkUnless result OutOfMemory }
{
    let mut copies = Vec::new(alloc);
    for path in paths {
        copies.push(path.try_clone()?)?;
    }
    Ok(copies)
}
