// SPDX-License-Identifier: Apache-2.0
// SPDX-FileCopyrightText: Copyright the Vortex contributors

//! The type of the table that several files are.
ghost use Rattle.std.specs.Prelude.{◌≡◌, ◌∷◌, [], IfNone, IfOk, IfSome, IsErrOf, IsOkUnless, List, None, Some, map};
ghost use Rattle.std.specs.Option.{option_map};
ghost use Rattle.dtype_types.specs.tree.Tree.{Tree};
ghost use Rattle.dtype_types.specs.tree.TreeOf.{tree};
ghost use Rattle.dtype_types.specs.tree.Valid.{Valid};
ghost use Rattle.vortex_dtype.specs.AllMerged.{AllFilledIn, HaveNoReaderOfAll, IsLeastReaderOfAll, all_columns_merged};
ghost use Rattle.vortex_dtype.specs.At.{ExistsIn};
ghost use Rattle.vortex_dtype.specs.Conflicts.{ConflictsAt};
ghost use Rattle.vortex_dtype.specs.InOne.{ExistsInOne};
ghost use Rattle.vortex_dtype.specs.MergedColumns.{columns_merged};
ghost use Rattle.vortex_dtype.specs.Types.Field.{Field};
ghost use Rattle.vortex_dtype.specs.Types.VortexError.{VortexError};
ghost use Rattle.vortex_dtype.specs.Types.VortexError.TheVariants.{OutOfMemory};
ghost use Rattle.scan_planner.specs.Tables.{AllLackPath, ConflictsFirst, FillsAll, IsLeast, ReadsAll, table_of};
ghost use Rattle.scan_planner.specs.declared.errors.FileConflict.{FileConflict};
ghost use Rattle.scan_planner.specs.declared.errors.PlanError.TheVariants.{Library, Missing, NoCommonType, NoFiles};

use crate::errors::{FileConflict, PlanError};
use std::alloc::Global;
use vortex_dtype::{
    DType, Field, VortexError, VortexResult, Widening, merge_all, merge_columns, merge_conflict,
};

/// Returns the type of the table that the files are: the least type as which each of them can be read.
///
/// # Errors
///
/// - `NoFiles`: there is no file.
/// - `NoCommonType`: there is no valid type as which all files can be read. The error contains the first file that
///   doesn't fit the files before it, and where it doesn't.
/// - `Library(OutOfMemory)`: an allocation fails.
pub fn table_type(alloc: Global, files: &[DType]) -> Result<DType, PlanError>
    ensures merged { IfOk result (λ t. table_of (map tree files.now) ≡ Some (tree t)) }
    ensures reads { IfOk result (λ t. ReadsAll (map tree files.now) (tree t)) }
    ensures least { IfOk result (λ t. IsLeast (map tree files.now) (tree t)) }
    ensures values { IfOk result (λ t. FillsAll (map tree files.now) (tree t)) }
    ensures lacks { IfOk result (λ t. (p : List Field) → (ExistsIn (tree t) p → ⊥) → AllLackPath (map tree files.now) p) }
    ensures has { IfOk result (λ t. (p : List Field) → ExistsIn (tree t) p → ExistsInOne (map tree files.now) p) }
    ensures no_files { IsErrOf result NoFiles → files.now ≡ [] }
    ensures no_type { (c : FileConflict) → IsErrOf result (NoCommonType c)
        → (d : Tree) → Valid d → ReadsAll (map tree files.now) d → ⊥ }
    ensures conflict { (c : FileConflict) → IsErrOf result (NoCommonType c)
        → ConflictsFirst (map tree files.now) c.file c.path (tree c.table) (tree c.here) }
    ensures unmerged { (c : FileConflict) → IsErrOf result (NoCommonType c) → table_of (map tree files.now) ≡ None }
    ensures not_missing { (p : List Field) → IsErrOf result (Missing p) → ⊥ }
    ensures library { (e : VortexError) → IsErrOf result (Library e) → e ≡ OutOfMemory }
{
    let Some((first, others)) = files.split_first() else {
        return Err(PlanError::NoFiles);
    };
    if let Some(table) = merged_files(alloc, first, others)? {
        return Ok(table);
    }
    let conflict = first_conflict(alloc, first, others)?;
    Err(PlanError::NoCommonType(conflict))
}

// Returns what the files are merged to, as `merge_all` does, and says which paths exist in it.
#[tactic(auto, using(vortex_dtype::proofs::rulesets::merged_paths), unfolding(crate::specs::Tables::AllLackPath))]
fn merged_files(alloc: Global, first: &DType, others: &[DType]) -> VortexResult<Option<DType>>
    ensures ok { IfOk result (λ r. option_map tree r
        ≡ all_columns_merged Widening.None (tree first.now) (map tree others.now)) }
    ensures least { IfOk result (λ r. IfSome r (λ c.
        IsLeastReaderOfAll Widening.None (tree first.now) (map tree others.now) (tree c))) }
    ensures none { IfOk result (λ r. IfNone r (HaveNoReaderOfAll Widening.None (tree first.now) (map tree others.now))) }
    ensures values { IfOk result (λ r. IfSome r (λ c. AllFilledIn (tree first.now) (map tree others.now) (tree c))) }
    ensures lacks { IfOk result (λ r. IfSome r (λ c. (p : List Field)
        → (ExistsIn (tree c) p → ⊥) → AllLackPath (tree first.now ∷ map tree others.now) p)) }
    ensures has { IfOk result (λ r. IfSome r (λ c. (p : List Field)
        → ExistsIn (tree c) p → ExistsInOne (tree first.now ∷ map tree others.now) p)) }
    ensures errors { IsOkUnless result OutOfMemory }
{
    Ok(merge_all(alloc, first, others, Widening::None)?)
}

// Returns the first file that can't be merged with those before it. The caller proves that there is one.
#[tactic(auto, using(vortex_dtype::proofs::rulesets::merged_so_far), unfolding(crate::specs::Tables::ConflictsFirst))]
fn first_conflict(alloc: Global, first: &DType, others: &[DType]) -> VortexResult<FileConflict>
    requires { all_columns_merged Widening.None (tree first.now) (map tree others.now) ≡ None }
    ensures first { IfOk result (λ c. ConflictsFirst (tree first.now ∷ map tree others.now)
        c.file c.path (tree c.table) (tree c.here)) }
    ensures errors { IsOkUnless result OutOfMemory }
{
    let mut table = first.try_clone(alloc)?;
    for (i, file) in others.iter().enumerate() {
        match merge_columns(alloc, &table, file, Widening::None)? {
            Some(both) => table = both,
            None => return Ok(conflict_with(alloc, &table, file, i + 1)?),
        }
    }
    unreachable!()
}

// Returns where a file, which has the position `position`, can't be merged with the table that the files before it are. The
// caller proves that it can't be.
fn conflict_with(
    alloc: Global,
    table: &DType,
    here: &DType,
    position: usize,
) -> VortexResult<FileConflict>
    requires { columns_merged Widening.None (tree table.now) (tree here.now) ≡ None }
    ensures at { IfOk result (λ c. ConflictsAt Widening.None (tree table.now) (tree here.now)
        c.path (tree c.table) (tree c.here)) }
    ensures position { IfOk result (λ c. c.file ≡ position) }
    ensures errors { IsOkUnless result OutOfMemory }
{
    match merge_conflict(alloc, table, here, Widening::None)? {
        Some(conflict) => {
            let table = conflict.left.try_clone(alloc)?;
            let here = conflict.right.try_clone(alloc)?;
            Ok(FileConflict {
                file: position,
                path: conflict.path,
                table,
                here,
            })
        }
        None => unreachable!(),
    }
}
