// SPDX-License-Identifier: Apache-2.0
// SPDX-FileCopyrightText: Copyright the Vortex contributors

//! What a query opens.
ghost use Rattle.std.specs.Prelude.{◌≡◌, IfOk, IsOkUnless};
ghost use Rattle.std.specs.Vec.Iter.{into_iter_items};
ghost use Rattle.vortex_dtype.specs.Covering.{least};
ghost use Rattle.vortex_dtype.specs.PathOrder.{set_of};
ghost use Rattle.vortex_dtype.specs.Types.VortexError.TheVariants.{OutOfMemory};

use std::alloc::Global;
use std::vec;
use vortex_dtype::{FieldPath, FieldPathSet, VortexResult, field_path};

/// Returns the paths of `select customer.name, customer from orders`.
pub fn asked(alloc: Global) -> VortexResult<FieldPathSet>
    ensures { IsOkUnless result OutOfMemory }
{
    let mut asked = FieldPathSet::new(alloc);
    asked.insert(field_path!(alloc, "customer", "name")?)?;
    asked.insert(field_path!(alloc, "customer")?)?;
    Ok(asked)
}

/// Returns the columns to open for these paths: the least paths that cover them.
pub fn columns_to_open(asked: FieldPathSet) -> VortexResult<vec::IntoIter<FieldPath>>
    ensures { IfOk result (λ r. set_of (into_iter_items r) ≡ least asked) }
{
    asked.into_iter()
}
