// SPDX-License-Identifier: Apache-2.0
// SPDX-FileCopyrightText: Copyright the Vortex contributors

// Sessions, plugins and typed extensions.
use crate::plugins::{Tag, TagName, TextAlone};
use std::alloc::Global;
use std::fmt::{Debug, Display};
use std::test::Fail;
use vortex_dtype::{
    DType, DTypeSession, ExtDType, ExtDTypePlugin, ExtDTypeRef, ExtId, ExtVTable, ForeignExtDType,
    ForeignExtMetadata, Nullability, PluginOf, VortexError, VortexResult,
};

const TEXT: DType = DType::Utf8(Nullability::NonNullable);

// A session with `x.tag` as a vtable and `x.text`.
fn tagging(alloc: Global) -> VortexResult<DTypeSession> {
    let mut session = DTypeSession::new(alloc);
    session.register(Box::new(alloc, PluginOf::new(Tag))?)?;
    session.register(Box::new(alloc, TextAlone)?)?;
    Ok(session)
}

// An erased extension.
fn erased(alloc: Global, id: &str, metadata: &[u8], storage: DType) -> VortexResult<ExtDTypeRef> {
    let metadata = Vec::from_slice(alloc, metadata)?;
    ExtDTypeRef::from_parts(alloc, ExtId::new(alloc, id)?, metadata, storage)
}

// Whether the downcast is refused with the error of this number, and hands back an extension that is equal.
fn is_handed_back(alloc: Global, erased: &ExtDTypeRef, number: u8) -> VortexResult<bool> {
    match ExtDType::try_downcast(alloc, erased.try_clone(alloc)?, Tag) {
        Ok(_) => Ok(false),
        Err((back, error)) => Ok(back == *erased && error.number() == number),
    }
}

#[test]
fn a_refused_downcast_hands_back_an_equal_extension(rt: HostRuntime) -> Result<(), Fail> {
    for (id, metadata, number) in [("y", b"AB", 23), ("x.tag", b"a!", 22)] {
        let erased = erased(rt.alloc(), id, metadata, TEXT)?;
        assert!(rt; is_handed_back(rt.alloc(), &erased, number)?, "{id}");
    }
    Ok(())
}

#[test]
fn registered_ids_are_sorted(rt: HostRuntime) -> Result<(), Fail> {
    let alloc = rt.alloc();
    let mut session = DTypeSession::new(alloc);
    assert!(rt; session.registered()?.is_empty());
    session.register(Box::new(alloc, TextAlone)?)?;
    session.register(Box::new(alloc, PluginOf::new(Tag))?)?;
    session.register(Box::new(alloc, TextAlone)?)?;
    let ids = session.registered()?;
    assert!(rt; ids.len() == 2);
    for (id, wanted) in ids.iter().zip(&["x.tag", "x.text"]) {
        assert!(rt; *id == *wanted);
    }
    Ok(())
}

fn tag(alloc: Global, bytes: &[u8]) -> VortexResult<ExtDType<Tag>> {
    let metadata = TagName(Vec::from_slice(alloc, bytes)?);
    ExtDType::try_new(alloc, metadata, DType::Null)
}

// Whether this is the text.
fn is_printed<T: Display>(alloc: Global, value: &T, text: &str) -> VortexResult<bool> {
    Ok(value.to_string(alloc)?.as_str() == text)
}

// Whether this is the `Debug` text.
fn is_shown<T: Debug>(alloc: Global, value: &T, text: &str) -> VortexResult<bool> {
    Ok(format!(in alloc; "{value:?}")?.as_str() == text)
}

#[test]
fn sessions_and_typed_extensions_have_debug_texts(rt: HostRuntime) -> Result<(), Fail> {
    let alloc = rt.alloc();
    let text = "DTypeSession { plugins: 2, allow_unknown: false }";
    assert!(rt; is_shown(alloc, &tagging(alloc)?, text)?);
    let text = "ExtDType { vtable: Tag, metadata: TagName([97, 98]), storage: Null }";
    assert!(rt; is_shown(alloc, &tag(alloc, b"ab")?, text)?);
    Ok(())
}

#[test]
fn typed_extensions_have_their_id(rt: HostRuntime) -> Result<(), Fail> {
    let typed = tag(rt.alloc(), b"ab")?;
    assert!(rt; typed.id() == "x.tag" && typed.vtable().id() == "x.tag");
    Ok(())
}

#[test]
fn metadata_that_cannot_be_written_is_refused(rt: HostRuntime) -> Result<(), Fail> {
    let capitals = tag(rt.alloc(), b"AB")?;
    let written = capitals.serialize_metadata(rt.alloc());
    assert!(rt; written.is_err_and(|error| error == VortexError::MetadataRefused));
    let erased = capitals.erased(rt.alloc());
    assert!(rt; erased.is_err_and(|error| error == VortexError::MetadataRefused));
    Ok(())
}

fn foreign(alloc: Global) -> VortexResult<ForeignExtDType> {
    Ok(ForeignExtDType::new(ExtId::new(alloc, "y")?))
}

fn foreign_bytes(alloc: Global) -> VortexResult<ForeignExtMetadata> {
    Ok(ForeignExtMetadata(Vec::from_slice(alloc, b"a!B")?))
}

#[test]
fn foreign_extensions_are_copied_compared_and_printed(rt: HostRuntime) -> Result<(), Fail> {
    let alloc = rt.alloc();
    let vtable = foreign(alloc)?;
    assert!(rt; vtable.try_clone(alloc)? == vtable);
    assert!(rt; vtable != ForeignExtDType::new(ExtId::new(alloc, "z")?));
    let metadata = foreign_bytes(alloc)?;
    assert!(rt; metadata.try_clone(alloc)? == metadata);
    assert!(rt; metadata != ForeignExtMetadata(Vec::from_slice(alloc, b"a!C")?));
    assert!(rt; is_printed(alloc, &metadata, "3B")?);
    Ok(())
}

// Whether these bytes are the metadata that a downcast keeps.
fn keeps(alloc: Global, bytes: &[u8]) -> VortexResult<bool> {
    let bare = erased(alloc, "y", bytes, TEXT)?;
    match ExtDType::try_downcast(alloc, bare, foreign(alloc)?) {
        Ok(typed) => Ok(typed.metadata().0.as_slice() == bytes),
        Err(_) => Ok(false),
    }
}

fn erased_again(alloc: Global) -> VortexResult<ExtDTypeRef> {
    ExtDType::try_with_vtable(alloc, foreign(alloc)?, foreign_bytes(alloc)?, TEXT)?.erased(alloc)
}

#[test]
fn foreign_extensions_keep_all_bytes(rt: HostRuntime) -> Result<(), Fail> {
    let alloc = rt.alloc();
    assert!(rt; keeps(alloc, b"a!B")?);
    assert!(rt; is_printed(alloc, &erased_again(alloc)?, "y[3B](utf8)")?);
    Ok(())
}

fn written_back<P: ExtDTypePlugin>(
    alloc: Global,
    plugin: &P,
    metadata: &[u8],
) -> VortexResult<Vec<u8>> {
    plugin.deserialize(alloc, metadata, &TEXT)
}

#[test]
fn a_plugin_of_a_vtable_works_through_its_bound(rt: HostRuntime) -> Result<(), Fail> {
    let alloc = rt.alloc();
    let plugin = PluginOf::new(foreign(alloc)?);
    assert!(rt; plugin.id() == "y");
    assert!(rt; written_back(alloc, &plugin, b"A!")?.as_slice() == b"A!".as_slice());
    Ok(())
}
