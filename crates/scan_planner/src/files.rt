// SPDX-License-Identifier: Apache-2.0
// SPDX-FileCopyrightText: Copyright the Vortex contributors

//! What a scan reads of one file.
ghost use Rattle.std.specs.Prelude.{◌≡◌, ◌↔◌, IfOk, IsOkUnless, IsTrue, List};
ghost use Rattle.std.specs.FinSet as set;
ghost use Rattle.std.specs.Option.{option_map};
ghost use Rattle.dtype_types.specs.tree.TreeOf.{tree};
ghost use Rattle.vortex_dtype.specs.At.{ExistsIn};
ghost use Rattle.vortex_dtype.specs.Distinct.{Distinct};
ghost use Rattle.vortex_dtype.specs.Names.{column_names};
ghost use Rattle.vortex_dtype.specs.Overlaps.{Overlaps};
ghost use Rattle.vortex_dtype.specs.PathOrder.{set_of};
ghost use Rattle.vortex_dtype.specs.Projected.{projected};
ghost use Rattle.vortex_dtype.specs.Types.Field.{Field};
ghost use Rattle.vortex_dtype.specs.Types.VortexError.TheVariants.{OutOfMemory};
ghost use Rattle.vortex_dtype.specs.Unresolved.{unresolved};
ghost use Rattle.scan_planner.specs.Needs.{Opens, OpensOnce};

use crate::columns::column_names;
use crate::paths::missing_paths;
use std::alloc::Global;
use vortex_dtype::{
    DType, Field, FieldNames, FieldPath, FieldPathSet, VortexResult, project_paths,
};

/// How a file is read as the table.
#[derive(Clone, Copy, Debug, PartialEq, Eq)]
pub enum HowToRead {
    /// As it is: the type of the file is the type of the table.
    AsItIs,
    /// With the columns in the order of the table, and with null for each column that the file lacks. If the two types
    /// differ only in nullability, then this leaves each row as it is.
    Adapted,
}

/// What a scan reads of one file.
#[derive(Debug, Drop)]
pub struct FilePlan<'a> {
    /// The type of the file.
    pub file: &'a DType,
    /// How the file is read as the table.
    pub how: HowToRead,
    /// The names of the columns to open, in the order of the file.
    pub columns: FieldNames,
    /// The part of the file's type that is read, or `None` if the query needs nothing of this file.
    pub read: Option<DType>,
    /// The paths that the query needs and the file lacks.
    pub missing: Vec<FieldPath>,
}

/// Returns what a scan of the needed paths reads of this file, as a file of this table.
///
/// # Errors
///
/// - `OutOfMemory`: an allocation fails.
#[tactic(auto, using(vortex_dtype::proofs::rulesets::column_paths), unfolding(crate::specs::Needs::OpensOnce))]
pub fn plan_file<'a>(
    alloc: Global,
    file: &'a DType,
    table: &DType,
    needed: &FieldPathSet,
) -> VortexResult<FilePlan<'a>>
    ensures of_file { IfOk result (λ f. tree f.file.now ≡ tree file.now) }
    ensures how { IfOk result (λ f. f.how ≡ HowToRead.AsItIs ↔ tree f.file.now ≡ tree table.now) }
    ensures opened { IfOk result (λ f. Opens needed.now (tree f.file.now) f.columns) }
    ensures opened_once { IfOk result (λ f. OpensOnce needed.now (tree f.file.now) f.columns) }
    ensures projection { IfOk result (λ f. option_map tree f.read ≡ projected (tree f.file.now) (set.contains needed.now)) }
    ensures lacks { IfOk result (λ f. set_of f.missing.items ≡ unresolved needed.now (tree f.file.now)) }
    ensures once { IfOk result (λ f. Distinct f.missing.items) }
    ensures errors { IsOkUnless result OutOfMemory }
{
    let missing = missing_paths(alloc, needed, file)?;
    let how = how_to_read(file, table);
    match project_paths(alloc, file, needed)? {
        Some(read) => {
            let columns = kept_columns(alloc, file, &read, needed)?;
            Ok(FilePlan {
                file,
                how,
                columns,
                read: Some(read),
                missing,
            })
        }
        None => {
            let columns = FieldNames::empty(alloc);
            Ok(FilePlan {
                file,
                how,
                columns,
                read: None,
                missing,
            })
        }
    }
}

// Returns how a file is read as a table as which it can be read.
#[tactic(auto, using(vortex_dtype::proofs::rulesets::equal_types))]
fn how_to_read(file: &DType, table: &DType) -> HowToRead
    ensures { result ≡ HowToRead.AsItIs ↔ tree file.now ≡ tree table.now }
{
    if *file == *table {
        HowToRead::AsItIs
    } else {
        HowToRead::Adapted
    }
}

// Returns the names of the columns that a projection keeps. The caller proves that `read` is the projection of the file.
fn kept_columns(
    alloc: Global,
    file: &DType,
    read: &DType,
    needed: &FieldPathSet,
) -> VortexResult<FieldNames>
    requires { (q : List Field) → (ExistsIn (tree read.now) q ↔ (ExistsIn (tree file.now) q
        × ((p : List Field) × IsTrue (set.contains needed.now p) × ExistsIn (tree file.now) p × Overlaps p q))) }
    ensures opened { IfOk result (λ ns. Opens needed.now (tree file.now) ns) }
    ensures names { IfOk result (λ ns. ns ≡ column_names (tree read.now)) }
    ensures errors { IsOkUnless result OutOfMemory }
{
    Ok(column_names(alloc, read)?)
}
