// SPDX-License-Identifier: Apache-2.0
// SPDX-FileCopyrightText: Copyright the Vortex contributors

//! Why a scan isn't planned.
ghost use Rattle.std.specs.Prelude.{◌≡◌};
ghost use Rattle.vortex_dtype.specs.Types.VortexError.TheVariants.{OutOfMemory};
ghost use Rattle.scan_planner.specs.declared.errors.PlanError.TheVariants.{Library};

use std::alloc::AllocFailed;
use vortex_dtype::{DType, FieldPath, VortexError};

/// The first file that can't be read as one table with the files before it, and the first place at which it can't be.
///
/// For example, of the files `{id=u64}`, `{id=u64, note=utf8}` and `{note=binary}` it is the third, with the path `note`,
/// the type `utf8?` for the table, and `binary` for the file.
#[derive(Debug, Drop)]
pub struct FileConflict {
    /// The number of files before this one.
    pub file: usize,
    /// The path to the place.
    pub path: FieldPath,
    /// The type at the path in the table that the files before this one are.
    pub table: DType,
    /// The type at the path in this file.
    pub here: DType,
}

/// Why a scan isn't planned.
#[derive(Debug, Drop)]
pub enum PlanError {
    /// There is no file, so the table has no type.
    NoFiles,
    /// There is no type as which all files can be read.
    NoCommonType(FileConflict),
    /// No file has this path, which the query needs.
    Missing(FieldPath),
    /// A call of the library failed.
    Library(VortexError),
}

impl From<VortexError> for PlanError {
    ghost from_gives = { λ source error. error ≡ Library source };

    fn from(source: VortexError) -> PlanError {
        PlanError::Library(source)
    }
}

impl<T: Drop> From<AllocFailed<T>> for PlanError {
    ghost from_gives = { λ _ error. error ≡ Library OutOfMemory };

    fn from(_source: AllocFailed<T>) -> PlanError {
        PlanError::Library(VortexError::OutOfMemory)
    }
}
