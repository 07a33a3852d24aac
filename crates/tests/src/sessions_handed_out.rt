// SPDX-License-Identifier: Apache-2.0
// SPDX-FileCopyrightText: Copyright the Vortex contributors

// Functions that make a session and return it, as users would write them, with contracts on what the session means.
// They are among the tests, since the gate accepts functions that return trait objects nowhere else.
#![tactic(auto, using(vortex_dtype::proofs::rulesets::sessions))]

ghost use Rattle.std.specs.Prelude.{◌≡◌, IfOk, IsOkUnless, Some, codes};
ghost use Rattle.dtype_base.specs.declared.vortex_error.VortexError.TheVariants.{OutOfMemory};
ghost use Rattle.vortex_dtype.specs.Meaning.{allow_unknown_in, empty_meaning, register_in};
ghost use Rattle.vortex_dtype.specs.Session.{meaning};
ghost use Rattle.tests.specs.TextPlugin.{text_only};

use crate::plugins::{Tag, TextAlone};
use std::alloc::Global;
use std::test::Fail;
use vortex_dtype::{DTypeSession, ExtDTypePlugin, PluginOf, VortexResult};

/// A session for files of anyone: it keeps extensions of unknown ids.
pub fn for_any_file(alloc: Global) -> DTypeSession
    ensures { meaning (λ b. rewrites (b.vtable, b.value)) result ≡ allow_unknown_in empty_meaning }
{
    let mut session = DTypeSession::new(alloc);
    session.allow_unknown();
    session
}

/// A session with two plugins that keeps extensions of unknown ids.
pub fn with_two(
    alloc: Global,
    first: Box<dyn ExtDTypePlugin>,
    second: Box<dyn ExtDTypePlugin>,
) -> VortexResult<DTypeSession>
    ensures knows { IfOk result (λ s. meaning rewrites s
        ≡ register_in (id_text second) (rewrites second) (register_in (id_text first) (rewrites first) (allow_unknown_in empty_meaning))) }
    ensures errors { IsOkUnless result OutOfMemory }
{
    let mut session = DTypeSession::new(alloc);
    session.allow_unknown();
    session.register(first)?;
    session.register(second)?;
    Ok(session)
}

/// A session that knows one plugin and no other id.
pub fn with_one(alloc: Global, plugin: Box<dyn ExtDTypePlugin>) -> VortexResult<DTypeSession>
    ensures { IfOk result (λ s. (meaning rewrites s).registered (id_text plugin) ≡ Some (rewrites plugin)) }
{
    let mut session = DTypeSession::new(alloc);
    session.register(plugin)?;
    Ok(session)
}

/// Returns a session that knows `x.text` and no other id.
pub fn for_texts(alloc: Global) -> VortexResult<DTypeSession>
    ensures { IfOk result (λ s. meaning (λ b. rewrites (b.vtable, b.value)) s
        ≡ register_in (codes "x.text") text_only empty_meaning) }
{
    let mut session = DTypeSession::new(alloc);
    session.register(text_plugin(alloc)?)?;
    Ok(session)
}

// Returns the plugin of `x.text`.
fn text_plugin(alloc: Global) -> VortexResult<Box<dyn ExtDTypePlugin>>
    ensures id { IfOk result (λ b. id_text b ≡ codes "x.text") }
    ensures bytes { IfOk result (λ b. rewrites b ≡ text_only) }
{
    Ok(Box::new(alloc, TextAlone)?)
}

fn two(alloc: Global) -> VortexResult<DTypeSession> {
    let tag = Box::new(alloc, PluginOf::new(Tag))?;
    let text = Box::new(alloc, TextAlone)?;
    with_two(alloc, tag, text)
}

#[test]
fn sessions_that_are_handed_out_know_their_plugins(rt: HostRuntime) -> Result<(), Fail> {
    let alloc = rt.alloc();
    let session = two(alloc)?;
    assert!(rt; session.registry("x.tag") && session.registry("x.text"));
    assert!(rt; session.allows_unknown() && !session.registry("x.other"));
    assert!(rt; for_any_file(alloc).allows_unknown());
    let one = with_one(alloc, Box::new(alloc, TextAlone)?)?;
    assert!(rt; one.registry("x.text") && !one.allows_unknown());
    Ok(())
}
