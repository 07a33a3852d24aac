// SPDX-License-Identifier: Apache-2.0
// SPDX-FileCopyrightText: Copyright the Vortex contributors

//! Sessions: what is known after registrations, of which ids it is known, what is kept of metadata, and which errors come.
#![tactic(auto, using(vortex_dtype::proofs::rulesets::sessions, vortex_dtype::proofs::rulesets::messages))]

ghost use Rattle.std.specs.Prelude.{◌≡◌, ◌↔◌, ℕ, List, [], All, Contains, IfNone, IfOk, IfSome, IsSome, IsTrue, Some, codes, map};
ghost use Rattle.vortex_dtype.specs.Meaning.{empty_meaning, keeps, register_in};
ghost use Rattle.vortex_dtype.specs.Names.{IsAmong};
ghost use Rattle.vortex_dtype.specs.Registered.{IsRegistered};
ghost use Rattle.vortex_dtype.specs.Session.{meaning};
ghost use Rattle.vortex_dtype.specs.TreeOf.{extension_metadata, tree};
ghost use Rattle.vortex_dtype.specs.Valid.{Valid};
ghost use Rattle.uses.specs.Plugins.{over_lists};

use std::alloc::Global;
use vortex_dtype::laws::base::slices_hold_bytes;
use vortex_dtype::laws::session_laws;
use vortex_dtype::{DType, DTypeSession, ExtDTypePlugin, ExtDTypeRef, VortexResult};

/// Returns the ids that a session knows, for the text of an error. Each id with a plugin is among them.
pub fn known_ids(session: &DTypeSession) -> VortexResult<Vec<&str>>
    ensures { (id : List ℕ)
        → IsSome ((meaning (λ b. rewrites (b.vtable, b.value)) session.now).registered id)
        → IfOk result (λ ids. Contains (map (λ i. i.now) ids.items) id) }
{
    Ok(session.registered()?)
}

/// Returns whether the session has a plugin for each of the ids.
#[tactic(auto, using(vortex_dtype::proofs::rulesets::each_registered))]
pub fn knows_all(session: &DTypeSession, ids: &[&str]) -> VortexResult<bool>
    ensures { IfOk result (λ all. IsTrue all ↔ All (λ id. IsRegistered
        (meaning (λ b. rewrites (b.vtable, b.value)) session.now) id.now) ids.now) }
{
    let known = session.registered()?;
    Ok(ids.iter().all(|id| is_listed(&known, *id)))
}

/// Returns the first id for which the session has no plugin, or `None` if it has one for each.
#[tactic(auto, using(vortex_dtype::proofs::rulesets::each_registered))]
pub fn unknown_id<'a>(session: &DTypeSession, ids: &[&'a str]) -> VortexResult<Option<&'a str>>
    ensures unknown { IfOk result (λ r. IfSome r (λ id. ¬ (IsRegistered
        (meaning (λ b. rewrites (b.vtable, b.value)) session.now) id.now))) }
    ensures all { IfOk result (λ r. IfNone r (All (λ id. IsRegistered
        (meaning (λ b. rewrites (b.vtable, b.value)) session.now) id.now) ids.now)) }
{
    let known = session.registered()?;
    match ids.iter().find(|id| !is_listed(&known, **id)) {
        Some(id) => Ok(Some(*id)),
        None => Ok(None),
    }
}

// Returns whether the list has the id.
#[tactic(auto, using(vortex_dtype::proofs::rulesets::each_registered))]
fn is_listed(known: &[&str], id: &str) -> bool
    ensures { IsTrue result ↔ IsAmong (map (λ k. k.now) known.now) id.now }
{
    known.contains(&id)
}

/// An extension read by the second of two plugins of one id: as the second writes it back.
pub fn read_by_last_plugin(
    session: &mut DTypeSession,
    first: Box<dyn ExtDTypePlugin>,
    second: Box<dyn ExtDTypePlugin>,
    id: &str,
    metadata: &[u8],
    storage: DType,
) -> VortexResult<ExtDTypeRef>
    requires { id_text second ≡ id.now }
    ensures { Valid (tree storage) → IfOk result
        (λ e. rewrites second metadata.now (tree storage) ≡ Some (extension_metadata e)) }
{
    session.register(first)?;
    session.register(second)?;
    session.deserialize(id, metadata, storage)
}

/// Returns the extension `x.tags` over a storage type, in a session that knows the plugin `Tags` alone.
#[tactic(auto, using(vortex_dtype::proofs::rulesets::sessions))]
pub fn tags(session: &DTypeSession, storage: DType) -> VortexResult<ExtDTypeRef>
    requires valid { Valid (tree storage) }
    requires plugin { meaning (λ b. rewrites (b.vtable, b.value)) session.now
        ≡ register_in (codes "x.tags") over_lists empty_meaning }
    ensures { IfOk result (λ e. over_lists [] (tree storage) ≡ Some (extension_metadata e)) }
{
    session.deserialize("x.tags", &[], storage)
}

/// An extension over a storage made nullable: its metadata is what the session keeps over the storage.
#[tactic(auto, using(vortex_dtype::proofs::rulesets::sessions, vortex_dtype::proofs::rulesets::messages, vortex_dtype::proofs::rulesets::validity))]
pub fn keep_over_nullable(
    alloc: Global,
    session: &DTypeSession,
    id: &str,
    metadata: &[u8],
    storage: &DType,
) -> VortexResult<ExtDTypeRef>
    ensures { Valid (tree storage.now) → IfOk result (λ e. keeps
        (meaning (λ b. rewrites (b.vtable, b.value)) session.now) id.now metadata.now (tree storage.now)
        ≡ Some (extension_metadata e)) }
{
    session_laws(session);
    slices_hold_bytes(metadata);
    let nullable = storage.as_nullable(alloc)?;
    session.deserialize(id, metadata, nullable)
}
