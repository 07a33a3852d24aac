// SPDX-License-Identifier: Apache-2.0
// SPDX-FileCopyrightText: Copyright the Vortex contributors

//! Schemas stored and read back.
#![tactic(auto, using(vortex_dtype::proofs::rulesets::messages, vortex_dtype::proofs::rulesets::sessions, vortex_dtype::proofs::rulesets::equality))]

ghost use Rattle.std.specs.Prelude.{◌≡◌, ◌≢◌, IfErr, IfOk, IsOkUnless};
ghost use Rattle.std.specs.Option.{option_map};
ghost use Rattle.vortex_dtype.specs.Lookups.{first_named};
ghost use Rattle.vortex_dtype.specs.Types.MessageFault.TheVariants.{ExtensionUnregistered};
ghost use Rattle.vortex_dtype.specs.Types.VortexError.TheVariants.{Message, OutOfMemory};
ghost use Rattle.vortex_dtype.specs.Valid.{Valid, ValidItems};
ghost use Rattle.vortex_dtype.specs.TreeOf.{tree, fields_of, children};
ghost use Rattle.vortex_dtype.specs.Meaning.{Admits, AdmitsItems};
ghost use Rattle.vortex_dtype.specs.Session.{meaning};

use std::alloc::Global;
use vortex_dtype::{
    DType, DTypeProto, DTypeSession, ExtDTypePlugin, StructFields, VortexResult, pb,
};

/// A type stored as a message and read back: the same type, where the session admits it. Refuses
/// 0 (OutOfMemory) alone there.
pub fn stored_and_read_back(
    alloc: Global,
    dtype: &DType,
    session: &DTypeSession,
) -> VortexResult<DType>
    ensures same { Valid (tree dtype.now) → Admits (meaning (λ b. rewrites (b.vtable, b.value)) session.now) (tree dtype.now)
        → IfOk result (λ t. tree t ≡ tree dtype.now) }
    ensures errors { Valid (tree dtype.now) → Admits (meaning (λ b. rewrites (b.vtable, b.value)) session.now) (tree dtype.now)
        → IsOkUnless result OutOfMemory }
{
    let stored = dtype.to_proto(alloc)?;
    DType::from_proto(alloc, &stored, session)
}

/// The type of a column as a receiver reads it, or `None` where there is no such column: the column's type, where the
/// session admits the columns.
#[tactic(auto, using(vortex_dtype::proofs::rulesets::admitting, vortex_dtype::proofs::rulesets::written_messages, vortex_dtype::proofs::rulesets::valid_columns))]
pub fn column_through_message(
    alloc: Global,
    session: &DTypeSession,
    columns: &StructFields,
    name: &str,
) -> VortexResult<Option<DType>>
    ensures { ValidItems (fields_of columns.now)
        → AdmitsItems (meaning (λ b. rewrites (b.vtable, b.value)) session.now) (fields_of columns.now)
        → IfOk result (λ r. option_map tree r ≡ first_named (children columns.now) name.now) }
{
    let Some(dtype) = columns.field(name) else {
        return Ok(None);
    };
    let sent = dtype.to_proto(alloc)?;
    let received = DType::from_proto(alloc, &sent, session)?;
    Ok(Some(received))
}

/// The type of a stored message, read by a session without plugins that keeps unknown ids: no id is refused as unknown.
pub fn read_keeping_unknown_ids(alloc: Global, stored: &pb::DType) -> VortexResult<DType>
    ensures { IfErr result (λ e. e ≢ Message ExtensionUnregistered) }
{
    let mut session = DTypeSession::new(alloc);
    session.allow_unknown();
    DType::from_proto(alloc, stored, &session)
}
