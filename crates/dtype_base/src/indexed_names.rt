// SPDX-License-Identifier: Apache-2.0
// SPDX-FileCopyrightText: Copyright the Vortex contributors

ghost use Rattle.std.specs.Prelude.{◌≡◌, ◌⊎◌, ◌↔◌, ◌+◌, ◌≤◌, IsSome, IsTrue, Some, length, map, MatchResult};
ghost use Rattle.dtype_base.specs.Errors.{Makes};
ghost use Rattle.dtype_base.specs.BinaryDigits.{binary_digits};
ghost use Rattle.dtype_base.specs.Distinct.{Distinct};
ghost use Rattle.dtype_base.specs.FieldNames.{SelectionError, first_place};
ghost use Rattle.dtype_base.specs.Comparisons.{comparisons, longest_bucket};
ghost use Rattle.dtype_base.specs.private.NameOrder.{IsIndexOf};
ghost use Rattle.dtype_base.specs.declared.vortex_error.VortexError.TheVariants.{OutOfMemory};

use crate::counted_names::CountedNames;
use crate::field_names::copied;
use crate::name_order::{NameIndex, are_distinct, build_index};
use crate::name_search::search;
use crate::{FieldName, FieldNames, VortexError, VortexResult};
use std::alloc::Global;
use std::marker::Model;

/// A list of names with an index. Because of the index, a lookup compares only a few of the names, for example at most
/// 11 of 1000. A name may occur more than once. In contracts the value is the list of its names.
#[derive(Debug, Drop)]
pub struct IndexedNames {
    index: NameIndex,
    // The names are the last field, so that in a struct they lie beside the types: `==` of two types reads the names
    // and the types, and not the index.
    names: FieldNames,
}

impl Model for IndexedNames {
    ghost use Rattle.std.specs.Prelude.{ℕ, List};
    ghost use Rattle.dtype_base.specs.private.NameOrder.{IsIndexOf};

    ghost Value = { List (List ℕ) };

    ghost view = { λ n. n.names };

    ghost invariant = { λ n. IsIndexOf n.names n.index };
}

impl IndexedNames {
    /// Returns the list of these names, in the same order, with a new index. A name may occur more than once.
    ///
    /// # Errors
    ///
    /// - `OutOfMemory` (0): an allocation fails.
    pub fn new(alloc: Global, names: FieldNames) -> VortexResult<Self>
        ensures { Makes result (λ n. n ≡ names) }
    {
        let index = build_index(alloc, names.as_slice())?;
        Ok(IndexedNames { names, index })
    }

    /// Returns the names, in order.
    pub fn names(&self) -> &FieldNames
        ensures { result.now ≡ self.now }
    {
        &self.names
    }

    /// Returns two values: the first position of `name`, or `None` if `name` isn't in the list, and the number of names
    /// that the lookup compared with `name`.
    ///
    /// The index distributes the names by their hashes among as many buckets as there are names. The lookup makes a
    /// binary search in the bucket of `name`. Its range is always extended to the length of the longest bucket, so the
    /// number of compared names is the same for every `name`, whether it is in the list or not. It is 0 if the list is
    /// empty. Otherwise it is 1 plus the logarithm to base 2 of the length of the longest bucket, rounded up. For
    /// example, it is 3 if the longest bucket contains three or four names.
    ///
    /// The number is at most 1 plus the number of binary digits of the length of the list, even if all names are in one
    /// bucket. For example, it is at most 11 in a list of 1000 names, because 1000 has 10 binary digits.
    ///
    /// Doesn't allocate.
    #[tactic(auto, using(crate::proofs::lemmas::Lookups::most_compared, crate::proofs::lemmas::Lookups::found_compared))]
    pub fn find_counted(&self, name: &str) -> (Option<usize>, u64)
        ensures first { result.0 ≡ first_place self.now name.now }
        ensures count { result.1 ≡ comparisons (longest_bucket self.now) }
        ensures at_most { result.1 ≤ binary_digits (length self.now) + 1 }
        ensures at_least { IsSome result.0 → 1 ≤ result.1 }
    {
        let (names, compared) = CountedNames::new(self.names.as_slice());
        search(names, compared, &self.index, name)
    }

    /// Returns two lists: the names in `asked`, in the same order and with an index of their own, and for each of these
    /// names its first position in `self`. A name may occur more than once in `asked`. For example, if `self` is
    /// `["a", "b"]` and `asked` is `["b", "a", "b"]`, then the call returns the names `["b", "a", "b"]` and the
    /// positions `[1, 0, 1]`. The returned names share their texts with the names in `asked`.
    ///
    /// # Errors
    ///
    /// - `FieldNotFound` (16): a name in `asked` isn't in `self`. The error contains the position in `asked` of the
    ///   first such name.
    /// - `OutOfMemory` (0): an allocation fails, or the reference count of a text is at its maximum.
    pub fn select(&self, alloc: Global, asked: &[FieldName]) -> VortexResult<(Self, Vec<usize>)>
        ensures { MatchResult result
            (λ s. (s.0 ≡ asked.now) × (map Some s.1.items ≡ map (first_place self.now) asked.now))
            (λ e. (e ≡ OutOfMemory) ⊎ SelectionError self.now asked.now e) }
    {
        let first_positions = look_up(alloc, self.names.as_slice(), &self.index, asked)?;
        let index = build_index(alloc, asked)?;
        let names = copied(alloc, asked)?;
        Ok((IndexedNames { names, index }, first_positions))
    }

    /// Returns a copy of the list. The copied names share their texts with the originals.
    ///
    /// The call copies the index, and doesn't build it again.
    ///
    /// # Errors
    ///
    /// - `OutOfMemory` (0): an allocation fails, or the reference count of a text is at its maximum.
    pub fn try_clone(&self, alloc: Global) -> VortexResult<Self>
        ensures { Makes result (λ n. n ≡ self.now) }
    {
        let names = self.names.try_clone(alloc)?;
        let index = NameIndex {
            bits: self.index.bits,
            entries: Vec::from_slice(alloc, &self.index.entries)?,
            starts: Vec::from_slice(alloc, &self.index.starts)?,
            longest: self.index.longest,
            discriminator: self.index.discriminator,
        };
        Ok(IndexedNames { names, index })
    }

    /// Returns whether all names are different, which means that no name occurs more than once.
    ///
    /// Doesn't allocate.
    pub fn are_distinct(&self) -> bool
        ensures { IsTrue result ↔ Distinct self.now }
    {
        are_distinct(self.names.as_slice(), self.index.bits, &self.index.entries)
    }
}

// The first position of each name asked.
fn look_up(
    alloc: Global,
    names: &[FieldName],
    index: &NameIndex,
    asked: &[FieldName],
) -> VortexResult<Vec<usize>>
    requires index { IsIndexOf names.now index.now }
    ensures { MatchResult result
        (λ found. map Some found.items ≡ map (first_place names.now) asked.now)
        (λ e. (e ≡ OutOfMemory) ⊎ SelectionError names.now asked.now e) }
{
    let mut found = Vec::with_capacity(alloc, asked.len())?;
    for position in 0..asked.len() {
        let (counted, compared) = CountedNames::new(names);
        match search(counted, compared, index, asked[position].as_str()).0 {
            Some(first) => found.push_reserved(first),
            None => return Err(VortexError::FieldNotFound { position }),
        }
    }
    Ok(found)
}
