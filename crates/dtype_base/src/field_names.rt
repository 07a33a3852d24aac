// SPDX-License-Identifier: Apache-2.0
// SPDX-FileCopyrightText: Copyright the Vortex contributors

ghost use Rattle.std.specs.Prelude.{◌≡◌, ◌↔◌, ℕ, IsTrue, List, [], ◌<◌, length, slice_get, map, Some, nat_eq};
ghost use Rattle.std.specs.Option.{option_copied};
ghost use Rattle.std.specs.Iterator.{IsFiniteIterable};
ghost use Rattle.dtype_base.specs.Errors.{Makes};
ghost use Rattle.dtype_base.specs.MadeFrom.{MadeFrom};
ghost use Rattle.dtype_base.specs.FieldNames.{first_place};

use crate::{FieldName, FieldNamesIntoIter, FieldNamesIter, VortexResult};
use std::alloc::{AllocError, Global};
use std::fmt;
use std::hash::{Hash, Hasher};
use std::marker::Model;
use std::ops::Index;

/// A list of field names, for example `["a", "b"]`. A name may occur more than once. In contracts it is a list of
/// names, and each name is the list of its bytes.
#[derive(Debug, Drop)]
pub struct FieldNames {
    items: Vec<FieldName>,
}

impl Model for FieldNames {
    ghost Value = { List (List ℕ) };

    ghost view = { λ n. n.items.items };
}

impl FieldNames {
    /// Returns the empty list.
    ///
    /// Doesn't allocate.
    pub fn empty(alloc: Global) -> Self
        ensures { result ≡ [] }
    {
        FieldNames {
            items: Vec::new(alloc),
        }
    }

    /// Returns the list of these names, in the same order.
    ///
    /// Doesn't allocate.
    pub fn from_vec(names: Vec<FieldName>) -> Self
        ensures { result ≡ names.items }
    {
        FieldNames { items: names }
    }

    /// Returns the list of the names with these texts, in the same order. The texts are copied.
    ///
    /// # Errors
    ///
    /// - `OutOfMemory` (0): an allocation fails.
    pub fn from_texts(alloc: Global, texts: &[&str]) -> VortexResult<Self>
        ensures { Makes result (λ n. n ≡ map (λ t. t.now) texts.now) }
    {
        let mut items = Vec::with_capacity(alloc, texts.len())?;
        for text in texts {
            items.push(FieldName::new(alloc, text)?)?;
        }
        Ok(FieldNames { items })
    }

    /// Returns the list of the names that an iterator yields, in order. The caller must prove that the iterator ends.
    ///
    /// # Errors
    ///
    /// - `OutOfMemory` (0): an allocation fails.
    pub fn from_iter<I: IntoIterator<Item = FieldName>>(
        alloc: Global,
        names: I,
    ) -> VortexResult<Self>
        requires { IsFiniteIterable I.into_iter_gives I.IntoIter.can_next I.IntoIter.remaining names }
        ensures { Makes result (λ n. MadeFrom (I.into_iter_gives names) I.IntoIter.next_gives (λ given. n ≡ given)) }
    {
        Ok(FieldNames {
            items: names.into_iter().collect(alloc)?,
        })
    }

    /// Returns the number of names.
    pub fn len(&self) -> usize
        ensures { result ≡ length self.now }
    {
        self.items.len()
    }

    /// Returns whether the list is empty.
    pub fn is_empty(&self) -> bool
        ensures { IsTrue result ↔ (self.now ≡ []) }
    {
        self.items.is_empty()
    }

    /// Returns the name at this position, counted from 0, or `None` if the position isn't below the number of names.
    pub fn get(&self, index: usize) -> Option<&FieldName>
        ensures { option_copied result ≡ slice_get self.now index }
    {
        self.items.get(index)
    }

    /// Returns an iterator over references to the names, in order.
    pub fn iter(&self) -> FieldNamesIter<'_>
        ensures { result ≡ self.now }
    {
        FieldNamesIter::new(self.items.as_slice())
    }

    /// Consumes the list and returns an iterator over the names, in order.
    pub fn into_iter(self) -> FieldNamesIntoIter
        ensures { result ≡ self }
    {
        FieldNamesIntoIter::new(self.items)
    }

    /// Returns whether the texts of the names are exactly these texts, in this order.
    pub fn eq_texts(&self, texts: &[&str]) -> bool
        ensures { IsTrue result ↔ (self.now ≡ map (λ t. t.now) texts.now) }
    {
        let items = self.items.as_slice();
        if items.len() != texts.len() {
            return false;
        }
        for (i, text) in texts.iter().enumerate() {
            if !items[i].eq_str(text) {
                return false;
            }
        }
        true
    }

    /// Returns the first position of the name, counted from 0, or `None` if the name isn't in the list.
    ///
    /// The call compares the names of the list with `name` one after another, until one is equal. For lookups in a long
    /// list, use `IndexedNames`. Its `find_counted` compares at most 11 names in a list of 1000, for example.
    pub fn find(&self, name: &str) -> Option<usize>
        ensures { result ≡ first_place self.now name.now }
    {
        self.items.iter().position(|item| item.eq_str(name))
    }

    /// Returns the names as a slice, in order.
    pub fn as_slice(&self) -> &[FieldName]
        ensures { result.now ≡ self.now }
    {
        self.items.as_slice()
    }

    /// Returns a copy of the list. The copied names share their texts with the originals.
    ///
    /// # Errors
    ///
    /// - `OutOfMemory` (0): an allocation fails, or the reference count of a text is at its maximum.
    pub fn try_clone(&self, alloc: Global) -> VortexResult<Self>
        ensures { Makes result (λ n. n ≡ self.now) }
    {
        copied(alloc, self.items.as_slice())
    }
}

// Returns a list of copies of these names, which share their texts with the originals.
pub(crate) fn copied(alloc: Global, names: &[FieldName]) -> VortexResult<FieldNames>
    ensures { Makes result (λ n. n ≡ names.now) }
{
    let mut items = Vec::with_capacity(alloc, names.len())?;
    for name in names {
        items.push_reserved(name.try_clone(alloc)?);
    }
    Ok(FieldNames { items })
}

impl PartialEq for FieldNames {
    ghost use Rattle.std.specs.Cmp.Lexicographic.{pointwise, nat_list_eq_equiv, lists_equiv};
    ghost use Rattle.std.specs.Cmp.{partial_equiv_from_equiv};

    ghost eq = { pointwise (pointwise nat_eq) };

    ghost laws = { partial_equiv_from_equiv (lists_equiv nat_list_eq_equiv) };

    fn eq(&self, other: &FieldNames) -> bool {
        self.items.as_slice() == other.items.as_slice()
    }
}

impl Eq for FieldNames {
    ghost use Rattle.std.specs.Cmp.Lexicographic.{nat_list_eq_equiv, lists_equiv};

    ghost laws = { lists_equiv nat_list_eq_equiv };
}

impl Hash for FieldNames {
    ghost use Rattle.std.specs.Hash as fed;
    ghost use Rattle.std.specs.Hash.{items_Alike, same_Alike};
    ghost use Rattle.std.specs.Cmp.Lexicographic.{bytes_decides};

    ghost hash_input = { fed.slice fed.str };

    ghost respects_eq = { (items_Alike (same_Alike fed.str bytes_decides)).fed };

    fn hash<H: Hasher>(&self, state: &mut H) {
        self.items.as_slice().hash(state);
    }
}

/// Returns the name at a position, counted from 0. The caller must prove that the position is below the number of
/// names.
impl Index<usize> for FieldNames {
    type Output = FieldName;

    ghost can_index = { λ names i. i < length names };

    ghost index_gives = { λ names i n. slice_get names i ≡ Some n };

    fn index(&self, index: usize) -> &FieldName {
        &self.items[index]
    }
}

impl IntoIterator for FieldNames {
    type Item = FieldName;

    type IntoIter = FieldNamesIntoIter;

    ghost into_iter_gives = { λ names it. it ≡ names };

    fn into_iter(self) -> FieldNamesIntoIter {
        FieldNames::into_iter(self)
    }
}

impl<'a> IntoIterator for &'a FieldNames {
    type Item = &'a FieldName;

    type IntoIter = FieldNamesIter<'a>;

    ghost into_iter_gives = { λ names it. it ≡ names.now };

    fn into_iter(self) -> FieldNamesIter<'a> {
        self.iter()
    }
}

/// Returns the list of the names that an iterator yields, in order.
impl FromIterator<FieldName> for FieldNames {
    type Alloc = Global;

    ghost from_iter_gives = { λ names n. n ≡ names };

    fn from_iter<I: IntoIterator<Item = FieldName>>(
        alloc: Global,
        names: I,
    ) -> Result<FieldNames, AllocError> {
        Ok(FieldNames::from_vec(names.into_iter().collect(alloc)?))
    }
}

/// Prints the names in brackets and separated by commas, for example `["a", "b"]`. Each name is in double quotes, and
/// is escaped as by its own `Display`.
impl fmt::Display for FieldNames {
    ghost use Rattle.dtype_base.specs.FieldNames.{names_text};

    ghost output = { λ names. Some (names_text names) };

    fn fmt<W: fmt::Write>(&self, f: &mut fmt::Formatter<W>) -> fmt::Result {
        f.write_str("[")?;
        for (i, name) in self.items.as_slice().iter().enumerate() {
            if i > 0 {
                f.write_str(", ")?;
            }
            write!(f, "\"{name}\"")?;
        }
        f.write_str("]")
    }
}
