// SPDX-License-Identifier: Apache-2.0
// SPDX-FileCopyrightText: Copyright the Vortex contributors

// Several names of one call.
ghost use Rattle.std.specs.Prelude.{◌≡◌, ◌⊎◌, ◌++◌, ◌∷◌, ◌<◌, ◌≤◌, [], drop, length, take, IsUtf8, MatchResult, Some};
ghost use Rattle.std.specs.List.{AllByRecursion};
ghost use Rattle.vortex_logical_types.specs.Several.{NamesFault, names_cut, whole};

use crate::errors::{LIBRARY, NOT_UTF8, RANGE};
use dtype_base::{FieldName, FieldNames};
use std::alloc::Global;
use std::str;

/// Returns the names with these lengths, whose bytes are directly one after the other in `names`. If they can't be
/// read, it returns the number that the export returns.
pub fn names_of(alloc: Global, names: &[u8], lengths: &[usize]) -> Result<FieldNames, u32>
    ensures { MatchResult result
        (λ ns. (names_cut names.now lengths.now ≡ Some ns) × AllByRecursion IsUtf8 ns)
        (λ code. NamesFault whole names.now lengths.now code ⊎ (code ≡ 100)) }
{
    let mut all = Vec::new(alloc);
    let mut rest = names;
    for length in lengths {
        let (name, others) = split(rest, *length)?;
        push_name(alloc, &mut all, name)?;
        rest = others;
    }
    if rest.is_empty() {
        Ok(FieldNames::from_vec(all))
    } else {
        Err(RANGE)
    }
}

// Returns the text of this length at the front, and what follows it.
fn split(bytes: &[u8], wanted: usize) -> Result<(&str, &[u8]), u32>
    ensures { MatchResult result
        (λ r. (wanted ≤ length bytes.now) × IsUtf8 (take wanted bytes.now) × (r.0.now ≡ take wanted bytes.now) × (r.1.now ≡ drop wanted bytes.now))
        (λ code. ((code ≡ 3) × (wanted ≤ length bytes.now) × (IsUtf8 (take wanted bytes.now) → ⊥)) ⊎ ((code ≡ 9) × (length bytes.now < wanted))) }
{
    let Some((name, others)) = bytes.split_at_checked(wanted) else {
        return Err(RANGE);
    };
    match str::from_utf8(name) {
        Ok(name) => Ok((name, others)),
        Err(_) => Err(NOT_UTF8),
    }
}

// Adds a name.
fn push_name(alloc: Global, all: &mut Vec<FieldName>, name: &str) -> Result<(), u32>
    ensures { MatchResult result
        (λ _. (all.new.items ≡ all.old.items ++ (name.now ∷ [])) × IsUtf8 name.now)
        (λ code. code ≡ 100) }
{
    let Ok(name) = FieldName::new(alloc, name) else {
        return Err(LIBRARY);
    };
    match all.push(name) {
        Ok(()) => Ok(()),
        Err(_) => Err(LIBRARY),
    }
}
