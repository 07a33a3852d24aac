// SPDX-License-Identifier: Apache-2.0
// SPDX-FileCopyrightText: Copyright the Vortex contributors

//! The plan of a scan over the files of a table.
ghost use Rattle.std.specs.Prelude.{◌≡◌, [], IfOk, IsErrOf, IsOkUnless, IsTrue, List, Some, map};
ghost use Rattle.std.specs.FinSet as set;
ghost use Rattle.dtype_types.specs.tree.Tree.{Tree};
ghost use Rattle.dtype_types.specs.tree.TreeOf.{tree};
ghost use Rattle.dtype_types.specs.tree.Valid.{Valid};
ghost use Rattle.vortex_dtype.specs.Along.{along};
ghost use Rattle.vortex_dtype.specs.At.{ExistsIn};
ghost use Rattle.vortex_dtype.specs.InOne.{ExistsInOne};
ghost use Rattle.vortex_dtype.specs.Types.Field.{Field};
ghost use Rattle.vortex_dtype.specs.Types.VortexError.{VortexError};
ghost use Rattle.vortex_dtype.specs.Types.VortexError.TheVariants.{OutOfMemory};
ghost use Rattle.scan_planner.specs.Needs.{needed};
ghost use Rattle.scan_planner.specs.Plans.{AllHow, AllLack, AllOpen, AllOpenOnce, AllRead};
ghost use Rattle.scan_planner.specs.Tables.{AllLackPath, ConflictsFirst, FillsAll, IsLeast, ReadsAll};
ghost use Rattle.scan_planner.specs.declared.errors.FileConflict.{FileConflict};
ghost use Rattle.scan_planner.specs.declared.errors.PlanError.TheVariants.{Library, Missing, NoCommonType, NoFiles};

use crate::errors::PlanError;
use crate::files::{FilePlan, plan_file};
use crate::needs::needed_paths;
use crate::paths::{check_paths, types_at};
use crate::table::table_type;
use std::alloc::Global;
use vortex_dtype::{DType, Field, FieldPath, FieldPathSet, VortexResult};

/// The plan of a scan.
#[derive(Debug, Drop)]
pub struct ScanPlan<'a> {
    /// The type of the table: the least type as which each file can be read.
    pub table: DType,
    /// The types of the selected paths in the table, in the order of the select list.
    pub types: Vec<DType>,
    /// What is read of each file, in the order of the files.
    pub files: Vec<FilePlan<'a>>,
}

/// Returns the plan of a scan over these files: the type of their table, the types of the selected paths, and for each
/// file what is read of it, and how.
///
/// # Errors
///
/// - `NoFiles`: there is no file.
/// - `NoCommonType`: there is no valid type as which all files can be read. The error contains the first file that
///   doesn't fit the files before it, and where it doesn't.
/// - `Missing`: no file has a path of the select list or of the filter. The error contains one such path.
/// - `Library(OutOfMemory)`: an allocation fails.
pub fn plan_scan<'a>(
    alloc: Global,
    files: &'a [DType],
    select: &[FieldPath],
    filter: &[FieldPath],
) -> Result<ScanPlan<'a>, PlanError>
    ensures reads { IfOk result (λ s. ReadsAll (map tree files.now) (tree s.table)) }
    ensures least { IfOk result (λ s. IsLeast (map tree files.now) (tree s.table)) }
    ensures values { IfOk result (λ s. FillsAll (map tree files.now) (tree s.table)) }
    ensures selected { IfOk result (λ s. map (λ d. Some (tree d)) s.types.items
        ≡ map (along (tree s.table)) select.now) }
    ensures there { IfOk result (λ s. (p : List Field) → IsTrue (set.contains (needed select.now filter.now) p)
        → ExistsIn (tree s.table) p) }
    ensures has { IfOk result (λ s. (p : List Field) → ExistsIn (tree s.table) p
        → ExistsInOne (map tree files.now) p) }
    ensures of_files { IfOk result (λ s. map (λ f. tree f.file.now) s.files.items ≡ map tree files.now) }
    ensures readable { IfOk result (λ s. ReadsAll (map (λ f. tree f.file.now) s.files.items) (tree s.table)) }
    ensures how { IfOk result (λ s. AllHow (tree s.table) s.files.items) }
    ensures opened { IfOk result (λ s. AllOpen (needed select.now filter.now) s.files.items) }
    ensures opened_once { IfOk result (λ s. AllOpenOnce (needed select.now filter.now) s.files.items) }
    ensures projections { IfOk result (λ s. AllRead (needed select.now filter.now) s.files.items) }
    ensures lacks { IfOk result (λ s. AllLack (needed select.now filter.now) s.files.items) }
    ensures no_files { IsErrOf result NoFiles → files.now ≡ [] }
    ensures no_type { (c : FileConflict) → IsErrOf result (NoCommonType c)
        → (d : Tree) → Valid d → ReadsAll (map tree files.now) d → ⊥ }
    ensures conflict { (c : FileConflict) → IsErrOf result (NoCommonType c)
        → ConflictsFirst (map tree files.now) c.file c.path (tree c.table) (tree c.here) }
    ensures asked { (p : List Field) → IsErrOf result (Missing p)
        → IsTrue (set.contains (needed select.now filter.now) p) }
    ensures missing { (p : List Field) → IsErrOf result (Missing p) → AllLackPath (map tree files.now) p }
    ensures library { (e : VortexError) → IsErrOf result (Library e) → e ≡ OutOfMemory }
{
    let table = table_type(alloc, files)?;
    let needed_set = needed_paths(alloc, select, filter)?;
    check_paths(&needed_set, &table)?;
    let types = types_at(alloc, select, &table)?;
    let files = plan_files(alloc, files, &table, &needed_set)?;
    Ok(ScanPlan {
        table,
        types,
        files,
    })
}

// Returns what a scan of the needed paths reads of each file.
#[tactic(auto, using(vortex_dtype::proofs::rulesets::collected), unfolding(crate::specs::Plans::AllHow, crate::specs::Plans::AllOpen, crate::specs::Plans::AllOpenOnce, crate::specs::Plans::AllRead, crate::specs::Plans::AllLack))]
fn plan_files<'a>(
    alloc: Global,
    files: &'a [DType],
    table: &DType,
    needed: &FieldPathSet,
) -> VortexResult<Vec<FilePlan<'a>>>
    ensures of_files { IfOk result (λ v. map (λ f. tree f.file.now) v.items ≡ map tree files.now) }
    ensures how { IfOk result (λ v. AllHow (tree table.now) v.items) }
    ensures opened { IfOk result (λ v. AllOpen needed.now v.items) }
    ensures opened_once { IfOk result (λ v. AllOpenOnce needed.now v.items) }
    ensures projections { IfOk result (λ v. AllRead needed.now v.items) }
    ensures lacks { IfOk result (λ v. AllLack needed.now v.items) }
    ensures errors { IsOkUnless result OutOfMemory }
{
    let mut plans = Vec::with_capacity(alloc, files.len())?;
    for file in files {
        plans.push(plan_file(alloc, file, table, needed)?)?;
    }
    Ok(plans)
}
