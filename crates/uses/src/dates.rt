// SPDX-License-Identifier: Apache-2.0
// SPDX-FileCopyrightText: Copyright the Vortex contributors

//! An extension without metadata, made by a session.
ghost use Rattle.std.specs.Prelude.{◌≡◌, IfOk, Some, [], codes};
ghost use Rattle.vortex_dtype.specs.Meaning.{keeps};
ghost use Rattle.vortex_dtype.specs.Session.{meaning};
ghost use Rattle.vortex_dtype.specs.TreeOf.{extension_metadata, extension_tree, tree};
ghost use Rattle.vortex_dtype.specs.Valid.{Valid};

use vortex_dtype::{DType, DTypeSession, ExtDTypePlugin, ExtDTypeRef, VortexResult};

/// Returns the extension `x.date` over days, without metadata, as the session keeps it.
pub fn date(session: &DTypeSession, days: DType) -> VortexResult<ExtDTypeRef>
    ensures kept { Valid (tree days) → IfOk result (λ e.
        keeps (meaning (λ b. rewrites (b.vtable, b.value)) session.now) (codes "x.date") [] (tree days) ≡ Some (extension_metadata e)) }
    ensures valid { Valid (tree days) → IfOk result (λ e. Valid (extension_tree e)) }
{
    session.deserialize("x.date", &[], days)
}
