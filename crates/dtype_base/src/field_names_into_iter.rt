// SPDX-License-Identifier: Apache-2.0
// SPDX-FileCopyrightText: Copyright the Vortex contributors

ghost use Rattle.std.specs.Prelude.{◌≡◌, IfSome, Some, length};
ghost use Rattle.std.specs.Iterator.{YieldsFirst, UpTo, item_count};
ghost use Rattle.std.specs.Iterator.SizeHint.{IsWithinCount};

use crate::FieldName;
use std::iter::FusedIterator;
use std::marker::Model;
use std::vec;

/// An iterator over the names of a consumed list, in order. In contracts it is the list of the names that it hasn't
/// yielded yet.
#[derive(Debug, Drop)]
pub struct FieldNamesIntoIter {
    inner: vec::IntoIter<FieldName>,
}

impl Model for FieldNamesIntoIter {
    ghost use Rattle.std.specs.Prelude.{◌≡◌, ℕ, List, length};
    ghost use Rattle.std.specs.Vec.Iter.{into_iter_items, into_iter_len};

    ghost Value = { List (List ℕ) };

    ghost view = { λ it. into_iter_items it.inner };

    ghost invariant = { λ it. into_iter_len it.inner ≡ length (into_iter_items it.inner) };
}

impl FieldNamesIntoIter {
    pub(crate) fn new(names: Vec<FieldName>) -> Self
        ensures { result ≡ names.items }
    {
        FieldNamesIntoIter {
            inner: names.into_iter(),
        }
    }
}

impl Iterator for FieldNamesIntoIter {
    type Item = FieldName;

    ghost next_gives = { YieldsFirst (λ left. left) };

    ghost remaining = { item_count (λ left. left) };

    fn next(&mut self) -> Option<FieldName> {
        self.inner.next()
    }

    fn size_hint(&self) -> (usize, Option<usize>)
        ensures lower { IsWithinCount result.0 (item_count (λ left. left) self.now) }
        ensures upper { IfSome result.1 (UpTo (item_count (λ left. left) self.now)) }
        ensures exact { result ≡ (length self.now, Some (length self.now)) }
    {
        let left = self.len();
        (left, Some(left))
    }
}

impl ExactSizeIterator for FieldNamesIntoIter {
    fn len(&self) -> usize {
        self.inner.len()
    }
}

impl FusedIterator for FieldNamesIntoIter {}
