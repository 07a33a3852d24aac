// SPDX-License-Identifier: Apache-2.0
// SPDX-FileCopyrightText: Copyright the Vortex contributors

//! A binder: it refuses a query by the path of a column that the table lacks.
#![tactic(auto, using(vortex_dtype::proofs::rulesets::unresolved_paths))]

ghost use Rattle.std.specs.Prelude.{◌≡◌, IfNone, IfOk, IfSome, IsErrOf, IsTrue, List, OnOk};
ghost use Rattle.std.specs.FinSet as set;
ghost use Rattle.vortex_dtype.specs.At.{ExistsIn};
ghost use Rattle.vortex_dtype.specs.TreeOf.{tree};
ghost use Rattle.vortex_dtype.specs.Types.Field.{Field};
ghost use Rattle.uses.specs.declared.binding.BindError.TheVariants.{Library, Missing};

use vortex_dtype::{DType, FieldPath, FieldPathSet, VortexError, VortexResult};

/// Why a query isn't bound to a table.
#[derive(Debug, Drop)]
pub enum BindError {
    /// The table lacks this column.
    Missing(FieldPath),
    /// A call of the library failed.
    Library(VortexError),
}

impl From<VortexError> for BindError {
    ghost from_gives = { λ source error. error ≡ Library source };

    fn from(source: VortexError) -> BindError {
        BindError::Library(source)
    }
}

/// The first column of a query that a table lacks, or `None` where it has all.
pub fn first_missing<'a>(
    asked: &'a FieldPathSet,
    table: &DType,
) -> VortexResult<Option<&'a FieldPath>>
    ensures some { IfOk result (λ r. IfSome r (λ p. IsTrue (set.contains asked.now p.now)
        × ¬ (ExistsIn (tree table.now) p.now))) }
    ensures none { IfOk result (λ r. IfNone r ((p : List Field) → IsTrue (set.contains asked.now p)
        → ExistsIn (tree table.now) p)) }
{
    let missing = asked.unresolved(table)?;
    match missing.first() {
        Some(path) => Ok(Some(*path)),
        None => Ok(None),
    }
}

/// Binds a query to a table that has all of its columns, and else refuses it by the path of one that it lacks.
pub fn bind(asked: &FieldPathSet, table: &DType) -> Result<(), BindError>
    ensures bound { OnOk result ((p : List Field) → IsTrue (set.contains asked.now p)
        → ExistsIn (tree table.now) p) }
    ensures missing { (p : List Field) → IsErrOf result (Missing p)
        → IsTrue (set.contains asked.now p) × ¬ (ExistsIn (tree table.now) p) }
{
    match first_missing(asked, table)? {
        Some(path) => Err(BindError::Missing(path.try_clone()?)),
        None => Ok(()),
    }
}
