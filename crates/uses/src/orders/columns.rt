// SPDX-License-Identifier: Apache-2.0
// SPDX-FileCopyrightText: Copyright the Vortex contributors

//! Columns, looked up by name.
ghost use Rattle.std.specs.Prelude.{[], ◌∷◌, IfOk, IfNone, IfSome, codes};
ghost use Rattle.vortex_dtype.specs.At.{At};
ghost use Rattle.vortex_dtype.specs.Tree.{Tree};
ghost use Rattle.vortex_dtype.specs.TreeOf.{tree};

use std::alloc::Global;
use vortex_dtype::{DType, Field, VortexResult, field_path};

/// Returns the type of a column of the customer, or `None` if the customer has no such column.
pub fn customer_column<'a>(
    alloc: Global,
    orders: &'a DType,
    column: &str,
) -> VortexResult<Option<&'a DType>>
    ensures found { IfOk result (λ found. IfSome found (λ u.
        At (tree orders.now) (Field.Name (codes "customer") ∷ Field.Name column.now ∷ []) (tree u.now))) }
    ensures none { IfOk result (λ found. IfNone found ((u : Tree)
        → At (tree orders.now) (Field.Name (codes "customer") ∷ Field.Name column.now ∷ []) u → ⊥)) }
{
    Ok(field_path!(alloc, "customer", column)?.resolve(orders))
}
