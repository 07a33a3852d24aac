// SPDX-License-Identifier: Apache-2.0
// SPDX-FileCopyrightText: Copyright the Vortex contributors

// The metadata of a field: a count of pairs, and of each pair the key and the value, each with its length before it. The
// count and the lengths are signed numbers of 32 bits in the order of bytes of the machine, which is the lower first on each
// machine for which this library is built.
ghost use Rattle.std.specs.Prelude.{◌≡◌, ◌++◌, IfOk};
ghost use Rattle.dtype_text.specs.Read.{shown};
ghost use Rattle.c_arrow.specs.Keys.{count_at, extension_metadata as metadata_spec, once as once_spec, said_in, is_tensor as is_tensor_spec, said_with, short_text, text_at, with_pair};
ghost use Rattle.c_arrow.specs.Views.{said};

use std::alloc::{AllocError, Global};

// The key of the name of an extension.
pub(crate) const NAME_KEY: &[u8] = b"ARROW:extension:name";
// The key of the metadata of an extension.
pub(crate) const METADATA_KEY: &[u8] = b"ARROW:extension:metadata";
// The extension whose storage type is a fixed-size list in Arrow, also if its elements are bytes.
const TENSOR: &[u8] = b"arrow.fixed_shape_tensor";

/// What the metadata of a field says of an extension.
#[derive(Clone, Copy)]
pub(crate) struct Keys<'a> {
    /// The value of `ARROW:extension:name`, if it is there.
    pub(crate) name: Option<&'a [u8]>,
    /// The value of `ARROW:extension:metadata`, if it is there.
    pub(crate) metadata: Option<&'a [u8]>,
}

impl<'a> Keys<'a> {
    /// Returns what the metadata says, or `None` if it isn't in Arrow's form, or has one of the two keys twice.
    #[tactic(auto, unfolding(crate::specs::Keys::said_in))]
    pub(crate) fn of(metadata: &'a [u8]) -> Option<Keys<'a>>
        ensures { shown said result ≡ said_in metadata.now }
    {
        let keys = Keys {
            name: None,
            metadata: None,
        };
        if metadata.is_empty() {
            return Some(keys);
        }
        let (count, rest) = count(metadata)?;
        keys.with_pairs(count, rest)
    }

    // Returns what is said with so many pairs, which are all that is there.
    fn with_pairs(self, count: u32, bytes: &'a [u8]) -> Option<Keys<'a>>
        ensures { shown said result ≡ said_with (said self.entry) count bytes.now }
    {
        let mut keys = self;
        let mut rest = bytes;
        for _at in 0..count {
            let (key, behind) = text(rest)?;
            let (value, behind) = text(behind)?;
            keys = keys.with(key, value)?;
            rest = behind;
        }
        if rest.is_empty() { Some(keys) } else { None }
    }

    // Returns what is said with one more pair.
    #[tactic(auto, unfolding(crate::specs::Keys::with_pair))]
    fn with(self, key: &[u8], value: &'a [u8]) -> Option<Keys<'a>>
        ensures { shown said result ≡ with_pair (said self.entry) key.now value.now }
    {
        if key == NAME_KEY {
            let name = Some(once(self.name, value)?);
            Some(Keys { name, ..self })
        } else if key == METADATA_KEY {
            let metadata = Some(once(self.metadata, value)?);
            Some(Keys { metadata, ..self })
        } else {
            Some(self)
        }
    }
}

/// Returns whether metadata names the extension of tensors.
#[tactic(auto, unfolding(crate::specs::Keys::is_tensor))]
pub(crate) fn is_tensor(metadata: &[u8]) -> bool
    ensures { result ≡ is_tensor_spec metadata.now }
{
    let Some(keys) = Keys::of(metadata) else {
        return false;
    };
    match keys.name {
        Some(id) => id == TENSOR,
        None => false,
    }
}

// Returns the value, if its key wasn't there before.
fn once<'a>(before: Option<&[u8]>, value: &'a [u8]) -> Option<&'a [u8]>
    ensures { shown (λ v. v.now) result ≡ once_spec (shown (λ v. v.now) before.entry) value.now }
{
    match before {
        Some(_) => None,
        None => Some(value),
    }
}

// Takes a count or a length, which is a signed number of 32 bits and not negative.
#[tactic(auto, unfolding(crate::specs::Keys::count_at))]
fn count(bytes: &[u8]) -> Option<(u32, &[u8])>
    ensures { shown (λ r. (r.0, r.1.now)) result ≡ count_at bytes.now }
{
    match bytes {
        [a, b, c, d, rest @ ..] if *d < 128 => Some((u32::from_le_bytes([*a, *b, *c, *d]), rest)),
        _ => None,
    }
}

// Takes a text with its length before it.
#[tactic(auto, unfolding(crate::specs::Keys::text_at))]
fn text(bytes: &[u8]) -> Option<(&[u8], &[u8])>
    ensures { shown (λ r. (r.0.now, r.1.now)) result ≡ text_at bytes.now }
{
    let (length, rest) = count(bytes)?;
    let length = length as usize;
    if length > rest.len() {
        return None;
    }
    Some(rest.split_at(length))
}

/// Returns the metadata of a field with both keys of an extension, or `None` if the id or the bytes are longer than
/// 2^31 - 1.
#[tactic(auto, unfolding(crate::specs::Keys::extension_metadata))]
pub(crate) fn extension_metadata(
    alloc: Global,
    id: &[u8],
    bytes: &[u8],
) -> Result<Option<Vec<u8>>, AllocError>
    ensures { IfOk result (λ o. shown (λ v. v.items) o ≡ metadata_spec id.now bytes.now) }
{
    let (Some(id_length), Some(length)) = (length_of(id), length_of(bytes)) else {
        return Ok(None);
    };
    let mut out = Vec::new(alloc);
    out.extend_from_slice(&[2, 0, 0, 0])?;
    push_text(&mut out, [20, 0, 0, 0], NAME_KEY)?;
    push_text(&mut out, id_length, id)?;
    push_text(&mut out, [24, 0, 0, 0], METADATA_KEY)?;
    push_text(&mut out, length, bytes)?;
    Ok(Some(out))
}

// Appends a text with its length before it.
fn push_text(out: &mut Vec<u8>, length: [u8; 4], text: &[u8]) -> Result<(), AllocError>
    ensures { IfOk result (λ _. out.new.items ≡ out.old.items ++ (length ++ text.now)) }
{
    out.extend_from_slice(&length)?;
    out.extend_from_slice(text)?;
    Ok(())
}

// Returns the length of a text as Arrow writes it, or `None` if it is above 2^31 - 1.
#[tactic(auto, unfolding(crate::specs::Keys::short_text), using(std::proofs::lemmas::Bool::Decides::nat_tests))]
fn length_of(text: &[u8]) -> Option<[u8; 4]>
    ensures { shown (λ b. b ++ text.now) result ≡ short_text text.now }
{
    match i32::try_from(text.len()) {
        Ok(length) => Some(i32::to_le_bytes(length)),
        Err(_) => None,
    }
}
