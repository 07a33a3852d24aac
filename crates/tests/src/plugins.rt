// SPDX-License-Identifier: Apache-2.0
// SPDX-FileCopyrightText: Copyright the Vortex contributors

// Extension types as a user would write them: `x.tag` as a vtable that lowers ASCII letters and doesn't accept an
// exclamation mark, a second plugin under its id that keeps all bytes, and `x.text` as a plugin that accepts UTF-8 strings
// without metadata.
ghost use Rattle.std.specs.List.{list_any};
ghost use Rattle.std.specs.Prelude.{◌≡◌, ◌⊎◌, IfErr, IfOk, None, Some, map, nat_eq};
ghost use Rattle.dtype_base.specs.declared.vortex_error.VortexError.TheVariants.{OutOfMemory, MetadataRefused};
ghost use Rattle.tests.specs.Tag.{if_unchanged, is_changed, low, lowered};

use std::alloc::{AllocError, Global};
use vortex_dtype::{DType, ExtDTypePlugin, ExtVTable, VortexError, VortexResult};

/// The metadata of `x.tag`: bytes without capital letters or exclamation marks.
#[derive(Debug, Drop, PartialEq, Eq)]
pub struct TagName(pub Vec<u8>);

/// The vtable of `x.tag`, which accepts every storage.
#[derive(Debug, Default, Drop)]
pub struct Tag;

impl ExtVTable for Tag {
    ghost use Rattle.std.specs.Prelude.{ℕ, List, codes, true};
    ghost use Rattle.tests.specs.Tag.{lowered, if_unchanged, tag_typed};

    type Metadata = TagName;

    ghost id_text = { λ _. codes "x.tag" };

    ghost Meant = { List ℕ };

    ghost meant = { λ m. m.0.items };

    ghost reads = { λ _ b. lowered b };

    ghost writes = { λ _ m. if_unchanged m };

    ghost fits = { λ _ m s. true };

    fn id(&self) -> &str {
        "x.tag"
    }

    fn serialize_metadata(&self, alloc: Global, metadata: &TagName) -> VortexResult<Vec<u8>> {
        unchanged(alloc, &metadata.0)
    }

    fn deserialize_metadata(&self, alloc: Global, bytes: &[u8]) -> VortexResult<TagName> {
        Ok(TagName(all_lowered(alloc, bytes)?))
    }

    fn validate_dtype(
        &self,
        _alloc: Global,
        _metadata: &TagName,
        _storage: &DType,
    ) -> VortexResult<()> {
        Ok(())
    }

    ghost typed = { λ _. tag_typed };
}

/// A second plugin of `x.tag`, which keeps all bytes.
#[derive(Debug, Drop)]
pub struct AllKept;

impl ExtDTypePlugin for AllKept {
    ghost use Rattle.std.specs.Prelude.{Some, codes};
    ghost use Rattle.tests.specs.Tag.{all_kept_laws};

    ghost id_text = { λ _. codes "x.tag" };

    ghost rewrites = { λ _ b s. Some b };

    fn id(&self) -> &str {
        "x.tag"
    }

    fn deserialize(
        &self,
        alloc: Global,
        metadata: &[u8],
        _storage: &DType,
    ) -> VortexResult<Vec<u8>> {
        Ok(Vec::from_slice(alloc, metadata)?)
    }

    ghost lawful = { λ _. all_kept_laws };
}

/// The plugin of `x.text`, which accepts `utf8` of either nullability without metadata.
#[derive(Debug, Drop)]
pub struct TextAlone;

impl ExtDTypePlugin for TextAlone {
    ghost use Rattle.std.specs.Prelude.{codes};
    ghost use Rattle.tests.specs.TextPlugin.{text_laws, text_only};

    ghost id_text = { λ _. codes "x.text" };

    ghost rewrites = { λ _. text_only };

    fn id(&self) -> &str {
        "x.text"
    }

    fn deserialize(
        &self,
        alloc: Global,
        metadata: &[u8],
        storage: &DType,
    ) -> VortexResult<Vec<u8>> {
        if metadata.is_empty() && storage.is_utf8() {
            Ok(Vec::new(alloc))
        } else {
            Err(VortexError::MetadataRefused)
        }
    }

    ghost lawful = { λ _. text_laws };
}

fn lower_byte(byte: u8) -> u8
    ensures { result ≡ low byte }
{
    if 65 <= byte && byte <= 90 {
        byte + 32
    } else {
        byte
    }
}

fn changes(byte: u8) -> bool
    ensures { result ≡ is_changed byte }
{
    byte == 33 || (65 <= byte && byte <= 90)
}

fn has_exclamation_mark(bytes: &[u8]) -> bool
    ensures { result ≡ list_any (λ x. nat_eq x 33) bytes.now }
{
    bytes.iter().any(|b| *b == 33)
}

fn any_changes(bytes: &[u8]) -> bool
    ensures { result ≡ list_any is_changed bytes.now }
{
    bytes.iter().any(|b| changes(*b))
}

fn each_lowered(alloc: Global, bytes: &[u8]) -> Result<Vec<u8>, AllocError>
    ensures { IfOk result (λ v. v.items ≡ map low bytes.now) }
{
    bytes.iter().map(|b| lower_byte(*b)).collect(alloc)
}

// The bytes are copied first, so that the error leaves a copy to be dropped.
fn all_lowered(alloc: Global, bytes: &[u8]) -> VortexResult<Vec<u8>>
    ensures ok { IfOk result (λ v. lowered bytes.now ≡ Some v.items) }
    ensures errors { IfErr result (λ e. (e ≡ OutOfMemory)
        ⊎ ((e ≡ MetadataRefused) × (lowered bytes.now ≡ None))) }
{
    let copy = Vec::from_slice(alloc, bytes)?;
    if has_exclamation_mark(bytes) {
        return Err(VortexError::MetadataRefused);
    }
    Ok(each_lowered(alloc, &copy)?)
}

fn unchanged(alloc: Global, bytes: &[u8]) -> VortexResult<Vec<u8>>
    ensures ok { IfOk result (λ v. if_unchanged bytes.now ≡ Some v.items) }
    ensures errors { IfErr result (λ e. (e ≡ OutOfMemory)
        ⊎ ((e ≡ MetadataRefused) × (if_unchanged bytes.now ≡ None))) }
{
    if any_changes(bytes) {
        return Err(VortexError::MetadataRefused);
    }
    Ok(Vec::from_slice(alloc, bytes)?)
}
