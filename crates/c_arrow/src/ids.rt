// SPDX-License-Identifier: Apache-2.0
// SPDX-FileCopyrightText: Copyright the Vortex contributors

// The type ids of a union.
ghost use Rattle.std.specs.Prelude.{◌≡◌, IfOk, None};
ghost use Rattle.dtype_text.specs.Read.{shown};
ghost use Rattle.c_arrow.specs.Ids.{id_with as with_spec, ids_after, ids_of as ids_spec};

use std::alloc::{AllocError, Global};

// Returns the id with one more digit, if it is at most 127.
#[tactic(auto, using(std::proofs::lemmas::Bool::Decides::nat_tests))]
fn id_with(id: Option<u8>, digit: u8) -> Option<u8>
    ensures { result ≡ with_spec id digit }
{
    if !digit.is_ascii_digit() {
        return None;
    }
    let value = 10 * u32::from(id.unwrap_or(0)) + u32::from(digit - b'0');
    if value > 127 {
        return None;
    }
    Some(value as u8)
}

/// Returns the type ids with commas between them, or `None` if one isn't a number from 0 to 127. No bytes are no ids.
#[tactic(auto, unfolding(crate::specs::Ids::ids_of))]
pub(crate) fn ids_of(alloc: Global, bytes: &[u8]) -> Result<Option<Vec<u8>>, AllocError>
    ensures { IfOk result (λ o. shown (λ v. v.items) o ≡ ids_spec bytes.now) }
{
    match bytes {
        [] => Ok(Some(Vec::new(alloc))),
        [_, ..] => Ok(ids_in(alloc, bytes)?),
    }
}

// Returns the type ids, of which there is at least one.
#[tactic(auto, using(crate::proofs::IdLists::ids))]
fn ids_in(alloc: Global, bytes: &[u8]) -> Result<Option<Vec<u8>>, AllocError>
    ensures { IfOk result (λ o. shown (λ v. v.items) o ≡ ids_after None bytes.now) }
{
    let mut ids = Vec::new(alloc);
    let mut id = None;
    for byte in bytes {
        if *byte == b',' {
            match id {
                Some(whole) => ids.push(whole)?,
                None => return Ok(None),
            }
            id = None;
        } else {
            match id_with(id, *byte) {
                Some(longer) => id = Some(longer),
                None => return Ok(None),
            }
        }
    }
    match id {
        Some(whole) => ids.push(whole)?,
        None => return Ok(None),
    }
    Ok(Some(ids))
}
