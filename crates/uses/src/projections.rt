// SPDX-License-Identifier: Apache-2.0
// SPDX-FileCopyrightText: Copyright the Vortex contributors

//! A reader that opens a table's schema for a query: the columns that the query asks for, and no others.
#![tactic(auto, using(vortex_dtype::proofs::rulesets::covering))]

ghost use Rattle.std.specs.Prelude.{◌≡◌, ◌↔◌, IfNone, IfOk, IfSome, IsSome, IsTrue, List};
ghost use Rattle.std.specs.FinSet as set;
ghost use Rattle.dtype_types.specs.tree.TreeOf.{tree};
ghost use Rattle.dtype_types.specs.tree.Valid.{Valid};
ghost use Rattle.vortex_dtype.specs.Along.{along};
ghost use Rattle.vortex_dtype.specs.At.{ExistsIn};
ghost use Rattle.vortex_dtype.specs.Types.Field.{Field};

use std::alloc::Global;
use vortex_dtype::{DType, FieldPath, FieldPathSet, VortexResult, project_paths};

/// The schema with these columns alone: each of them has the type that it had.
pub fn pruned(alloc: Global, schema: &DType, columns: &FieldPathSet) -> VortexResult<Option<DType>>
    ensures same { IfOk result (λ r. IfSome r (λ u. (p : List Field) → IsTrue (set.contains columns.now p)
        → along (tree u) p ≡ along (tree schema.now) p)) }
    ensures valid { Valid (tree schema.now) → IfOk result (λ r. IfSome r (λ u. Valid (tree u))) }
    ensures none { IfOk result (λ r. IfNone r ((p : List Field) → IsTrue (set.contains columns.now p)
        → ¬ (ExistsIn (tree schema.now) p))) }
{
    project_paths(alloc, schema, columns)
}

/// Whether a pruned schema still has columns when it is pruned to the same ones again: it always does.
#[tactic(auto, using(vortex_dtype::proofs::rulesets::projecting))]
pub fn is_kept_when_pruned_again(
    alloc: Global,
    schema: &DType,
    columns: &FieldPathSet,
) -> VortexResult<bool>
    ensures { IfOk result (λ kept. IsTrue kept) }
{
    match project_paths(alloc, schema, columns)? {
        Some(pruned) => Ok(project_paths(alloc, &pruned, columns)?.is_some()),
        None => Ok(true),
    }
}

/// The table pruned to one column: something is left where the column is there.
#[tactic(auto, using(vortex_dtype::proofs::rulesets::projecting_one))]
pub fn pruned_to_one(
    alloc: Global,
    schema: &DType,
    column: FieldPath,
) -> VortexResult<Option<DType>>
    ensures { IfOk result (λ r. IsSome r ↔ ExistsIn (tree schema.now) column) }
{
    let one = set_of_one(alloc, column)?;
    Ok(project_paths(alloc, schema, &one)?)
}

// The set of one column.
#[tactic(auto, using(vortex_dtype::proofs::rulesets::inserted_paths))]
fn set_of_one(alloc: Global, column: FieldPath) -> VortexResult<FieldPathSet>
    ensures { IfOk result (λ s. s ≡ set.insert set.empty column) }
{
    let mut one = FieldPathSet::new(alloc);
    one.insert(column)?;
    Ok(one)
}
