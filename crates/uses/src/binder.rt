// SPDX-License-Identifier: Apache-2.0
// SPDX-FileCopyrightText: Copyright the Vortex contributors

//! A binder of expressions: the types of column references and of joins.
#![tactic(auto, using(vortex_dtype::proofs::rulesets::null_values))]

ghost use Rattle.std.specs.Prelude.{IfNone, IfOk, IfSome};
ghost use Rattle.dtype_types.specs.tree.Tree.{Tree};
ghost use Rattle.dtype_types.specs.tree.TreeOf.{tree};
ghost use Rattle.dtype_types.specs.values.Value.{AddsNull, Of, Value};
ghost use Rattle.vortex_dtype.specs.At.{At};
ghost use Rattle.vortex_dtype.specs.Found.{FoundIn};

use std::alloc::Global;
use vortex_dtype::laws::paths::resolution_is_exact_for_values;
use vortex_dtype::{DType, FieldPath, VortexResult};

/// Returns the type at the path of a column in a table, or `None` if there is none. Each value that is read at that
/// path is a value of that type.
pub fn bind_column<'a>(column: &FieldPath, table: &'a DType) -> Option<&'a DType>
    ensures bound { IfSome result (λ u. At (tree table.now) column.now (tree u.now)) }
    ensures unbound { IfNone result ((u : Tree) → At (tree table.now) column.now u → ⊥) }
    ensures values { IfSome result (λ u. (v : Value)
        → FoundIn (tree table.now) column.now v → Of v (tree u.now)) }
{
    resolution_is_exact_for_values();
    column.resolve(table)
}

/// The type of a column in an outer join: its values, and null.
pub fn nullable_column(alloc: Global, column: &DType) -> VortexResult<DType>
    ensures { IfOk result (λ d. AddsNull (tree column.now) (tree d)) }
{
    column.as_nullable(alloc)
}
