// SPDX-License-Identifier: Apache-2.0
// SPDX-FileCopyrightText: Copyright the Vortex contributors

//! The top-level columns of a type.
ghost use Rattle.std.specs.Prelude.{◌≡◌, ℕ, IfOk, IsOkUnless, List};
ghost use Rattle.dtype_types.specs.tree.TreeOf.{tree};
ghost use Rattle.vortex_dtype.specs.Names.{IsAmong, column_names};
ghost use Rattle.vortex_dtype.specs.Types.VortexError.TheVariants.{OutOfMemory};
ghost use Rattle.scan_planner.specs.Needs.{HasColumn};

use std::alloc::Global;
use vortex_dtype::{DType, FieldNames, VortexResult};

/// Returns the names of the columns of a type: the fields of a struct in their order, and none of any other type.
///
/// # Errors
///
/// - `OutOfMemory`: an allocation fails.
#[tactic(auto, using(vortex_dtype::proofs::rulesets::column_paths))]
pub fn column_names(alloc: Global, dtype: &DType) -> VortexResult<FieldNames>
    ensures names { IfOk result (λ ns. ns ≡ column_names (tree dtype.now)) }
    ensures there { IfOk result (λ ns. (n : List ℕ) → IsAmong ns n → HasColumn (tree dtype.now) n) }
    ensures all { IfOk result (λ ns. (n : List ℕ) → HasColumn (tree dtype.now) n → IsAmong ns n) }
    ensures errors { IsOkUnless result OutOfMemory }
{
    match dtype.as_struct_fields_opt() {
        Some(fields) => Ok(fields.names().try_clone(alloc)?),
        None => Ok(FieldNames::empty(alloc)),
    }
}
