// SPDX-License-Identifier: Apache-2.0
// SPDX-FileCopyrightText: Copyright the Vortex contributors

//! Sessions that a contract gives by what is registered: what they keep of an extension's metadata.
#![tactic(auto, using(vortex_dtype::proofs::rulesets::registrations, vortex_dtype::proofs::rulesets::keeping))]

ghost use Rattle.std.specs.Prelude.{◌≡◌, IfOk, IsErr, Some, codes};
ghost use Rattle.vortex_dtype.specs.Meaning.{Rewrites, empty_meaning, register_in};
ghost use Rattle.vortex_dtype.specs.Session.{meaning};
ghost use Rattle.vortex_dtype.specs.TreeOf.{extension_metadata, tree};
ghost use Rattle.vortex_dtype.specs.Valid.{Valid};

use vortex_dtype::{DType, DTypeSession, ExtDTypePlugin, ExtDTypeRef, VortexResult};

/// An amount of money, in a session that knows money alone: its metadata is what the plugin writes back.
pub fn amount(session: &DTypeSession, metadata: &[u8], storage: DType) -> VortexResult<ExtDTypeRef>
    ensures { (r : Rewrites)
        → meaning (λ b. rewrites (b.vtable, b.value)) session.now ≡ register_in (codes "shop.money") r empty_meaning
        → Valid (tree storage) → IfOk result (λ e. r metadata.now (tree storage) ≡ Some (extension_metadata e)) }
{
    Ok(session.deserialize("shop.money", metadata, storage)?)
}

/// A date, in a session that knows money alone: an error.
pub fn date_where_money_is_known(
    session: &DTypeSession,
    metadata: &[u8],
    storage: DType,
) -> VortexResult<ExtDTypeRef>
    ensures { (r : Rewrites)
        → meaning (λ b. rewrites (b.vtable, b.value)) session.now ≡ register_in (codes "shop.money") r empty_meaning
        → Valid (tree storage) → IsErr result }
{
    Ok(session.deserialize("shop.date", metadata, storage)?)
}
