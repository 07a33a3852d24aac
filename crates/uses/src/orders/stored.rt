// SPDX-License-Identifier: Apache-2.0
// SPDX-FileCopyrightText: Copyright the Vortex contributors

//! A schema that was stored.
ghost use Rattle.std.specs.Prelude.{IfOk};
ghost use Rattle.vortex_dtype.specs.Accepts.{Accepts};
ghost use Rattle.vortex_dtype.specs.MessageOf.{message};
ghost use Rattle.vortex_dtype.specs.Session.{meaning};
ghost use Rattle.vortex_dtype.specs.TreeOf.{tree};

use std::alloc::Global;
use vortex_dtype::{DType, DTypeProto, DTypeSession, ExtDTypePlugin, VortexResult, pb};

/// Reads a stored schema under a session. Returns the type that the message describes, with the metadata of each
/// extension as the session keeps it.
pub fn read_schema(alloc: Global, stored: &pb::DType, session: &DTypeSession) -> VortexResult<DType>
    ensures { IfOk result (λ d.
        Accepts (meaning (λ b. rewrites (b.vtable, b.value)) session.now) (message stored.now) (tree d)) }
{
    DType::from_proto(alloc, stored, session)
}
