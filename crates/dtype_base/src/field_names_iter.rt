// SPDX-License-Identifier: Apache-2.0
// SPDX-FileCopyrightText: Copyright the Vortex contributors

ghost use Rattle.std.specs.Prelude.{◌≡◌, IfSome, Some, length};
ghost use Rattle.std.specs.Iterator.{YieldsFirstRef, UpTo, item_count};
ghost use Rattle.std.specs.Iterator.SizeHint.{IsWithinCount};

use crate::FieldName;
use std::iter::FusedIterator;
use std::marker::Model;
use std::slice;

/// An iterator over references to the names of a list, in order. In contracts it is the list of the names that it
/// hasn't yielded yet.
#[derive(Debug, Drop)]
pub struct FieldNamesIter<'a> {
    inner: slice::Iter<'a, FieldName>,
}

impl<'a> Model for FieldNamesIter<'a> {
    ghost use Rattle.std.specs.Prelude.{ℕ, List};
    ghost use Rattle.std.specs.Slice.Iter.{iter_rest};

    ghost Value = { List (List ℕ) };

    ghost view = { λ it. iter_rest it.inner };
}

impl<'a> FieldNamesIter<'a> {
    pub(crate) fn new(names: &'a [FieldName]) -> Self
        ensures { result ≡ names.now }
    {
        FieldNamesIter {
            inner: names.iter(),
        }
    }
}

impl<'a> Iterator for FieldNamesIter<'a> {
    type Item = &'a FieldName;

    ghost next_gives = { YieldsFirstRef (λ left. left) };

    ghost remaining = { item_count (λ left. left) };

    fn next(&mut self) -> Option<&'a FieldName> {
        self.inner.next()
    }

    fn size_hint(&self) -> (usize, Option<usize>)
        ensures lower { IsWithinCount result.0 (item_count (λ left. left) self.now) }
        ensures upper { IfSome result.1 (UpTo (item_count (λ left. left) self.now)) }
        ensures exact { result ≡ (length self.now, Some (length self.now)) }
    {
        let left = self.len();
        (left, Some(left))
    }
}

impl<'a> ExactSizeIterator for FieldNamesIter<'a> {
    fn len(&self) -> usize {
        self.inner.len()
    }
}

impl<'a> FusedIterator for FieldNamesIter<'a> {}
