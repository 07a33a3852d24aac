// SPDX-License-Identifier: Apache-2.0
// SPDX-FileCopyrightText: Copyright the Vortex contributors

// Calls of a session and of a typed extension: after an error the session is as it was, and `try_downcast` hands back an
// equal extension. The console can't show this: each of its commands makes its session again.
use crate::marks::{begin, end};
use crate::plugins::{AllKept, Tag, TextAlone};
use anyhow::Result;
use std::alloc::Global;
use vortex_dtype::{
    DType, DTypeSession, ExtDType, ExtDTypeRef, Nullability, PluginOf, VortexError, VortexResult,
};

const TEXT: DType = DType::Utf8(Nullability::NonNullable);

const DONE: &str = "done";

const AS_BEFORE: &str = "out of memory, and all is as before";

const OTHERWISE: &str = "failed, and not all is as before";

pub fn tell(rt: &(impl Print + Eprint), alloc: Global) -> Result<()> {
    let told = first_plugin(rt, alloc)?;
    println!(rt; "register the first plugin: {told}")?;
    let told = second_id(rt, alloc)?;
    println!(rt; "register a second id: {told}")?;
    let told = same_id(rt, alloc)?;
    println!(rt; "register another plugin under an id: {told}")?;
    let told = downcast(rt, alloc)?;
    println!(rt; "downcast: {told}")?;
    Ok(())
}

// What a caller sees of a session: the ids that it knows, whether it keeps unknown ones, and what it makes of metadata.
#[derive(Drop, PartialEq, Eq)]
struct View {
    knows_tag: bool,
    knows_text: bool,
    keeps_unknown: bool,
    tag: VortexResult<ExtDTypeRef>,
    text: VortexResult<ExtDTypeRef>,
}

fn view_of(session: &DTypeSession) -> View {
    View {
        knows_tag: session.registry("x.tag"),
        knows_text: session.registry("x.text"),
        keeps_unknown: session.allows_unknown(),
        tag: session.deserialize("x.tag", b"AB", TEXT),
        text: session.deserialize("x.text", b"", TEXT),
    }
}

// The outcome of a registration: done, or failed with the session as before, or a fault. `register` is called where the
// plugin is built: the gate doesn't accept a function that borrows a session and takes a plugin, since its contract would
// hide what the plugin means.
fn outcome(registered: VortexResult<()>, is_as_before: bool) -> &'static str {
    match registered {
        Ok(()) => DONE,
        Err(error) => judge(error, is_as_before),
    }
}

fn judge(error: VortexError, is_as_before: bool) -> &'static str {
    if error == VortexError::OutOfMemory && is_as_before {
        AS_BEFORE
    } else {
        OTHERWISE
    }
}

fn first_plugin(rt: &impl Eprint, alloc: Global) -> VortexResult<&'static str> {
    let mut session = DTypeSession::new(alloc);
    let plugin = Box::new(alloc, PluginOf::new(Tag))?;
    let before = view_of(&session);
    begin(rt);
    let result = session.register(plugin);
    end(rt);
    Ok(outcome(result, view_of(&session) == before))
}

fn second_id(rt: &impl Eprint, alloc: Global) -> VortexResult<&'static str> {
    let mut session = DTypeSession::new(alloc);
    session.register(Box::new(alloc, PluginOf::new(Tag))?)?;
    let plugin = Box::new(alloc, TextAlone)?;
    let before = view_of(&session);
    begin(rt);
    let result = session.register(plugin);
    end(rt);
    Ok(outcome(result, view_of(&session) == before))
}

// The second plugin of `x.tag` keeps the capitals that the first lowers.
fn same_id(rt: &impl Eprint, alloc: Global) -> VortexResult<&'static str> {
    let mut session = DTypeSession::new(alloc);
    session.allow_unknown();
    session.register(Box::new(alloc, PluginOf::new(Tag))?)?;
    let plugin = Box::new(alloc, AllKept)?;
    let before = view_of(&session);
    begin(rt);
    let result = session.register(plugin);
    end(rt);
    Ok(outcome(result, view_of(&session) == before))
}

fn tag_over_text(alloc: Global) -> VortexResult<ExtDTypeRef> {
    let mut session = DTypeSession::new(alloc);
    session.allow_unknown();
    session.deserialize("x.tag", b"ab", TEXT)
}

fn downcast(rt: &impl Eprint, alloc: Global) -> VortexResult<&'static str> {
    let given = tag_over_text(alloc)?;
    let erased = given.try_clone(alloc)?;
    begin(rt);
    let result = ExtDType::try_downcast(alloc, erased, Tag);
    end(rt);
    match result {
        Ok(_) => Ok(DONE),
        Err((back, error)) => Ok(judge(error, back == given)),
    }
}
