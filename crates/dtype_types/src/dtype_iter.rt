// SPDX-License-Identifier: Apache-2.0
// SPDX-FileCopyrightText: Copyright the Vortex contributors

ghost use Rattle.std.specs.Prelude.{◌≡◌, IfSome, Some, length, map};
ghost use Rattle.std.specs.Iterator.{YieldsFirstBy, UpTo, item_count};
ghost use Rattle.std.specs.Iterator.SizeHint.{IsWithinCount};
ghost use Rattle.dtype_types.specs.tree.TreeOf.{tree};

use crate::DType;
use std::iter::FusedIterator;
use std::marker::Model;
use std::slice;

/// An iterator over the types of the fields of a struct, or of the variants of a union, in order. It returns a
/// reference to each type. In contracts it is the list of the types that it hasn't returned yet, and each type is
/// described by its tree.
#[derive(Debug, Drop)]
pub struct DTypeIter<'a> {
    inner: slice::Iter<'a, DType>,
}

impl<'a> Model for DTypeIter<'a> {
    ghost use Rattle.std.specs.Prelude.{List};
    ghost use Rattle.std.specs.Coded.{codes};
    ghost use Rattle.std.specs.Slice.Iter.{iter_rest};
    ghost use Rattle.dtype_types.specs.contracts.dtype.DType as dtype;
    ghost use Rattle.dtype_types.specs.declared.dtype.DType.{DType};

    ghost Value = { List DType };

    ghost coded = { Prim.hlevel (codes, dtype.the_row.coded) };

    ghost view = { λ it. iter_rest it.inner };
}

impl<'a> DTypeIter<'a> {
    pub(crate) fn new(dtypes: &'a [DType]) -> Self
        ensures { result ≡ dtypes.now }
    {
        DTypeIter {
            inner: dtypes.iter(),
        }
    }
}

impl<'a> Iterator for DTypeIter<'a> {
    type Item = &'a DType;

    ghost next_gives = { YieldsFirstBy (λ d. tree d.now) (map tree) };

    ghost remaining = { item_count (map tree) };

    fn next(&mut self) -> Option<&'a DType> {
        self.inner.next()
    }

    fn size_hint(&self) -> (usize, Option<usize>)
        ensures lower { IsWithinCount result.0 (item_count (map tree) self.now) }
        ensures upper { IfSome result.1 (UpTo (item_count (map tree) self.now)) }
        ensures exact { result ≡ (length (map tree self.now), Some (length (map tree self.now))) }
    {
        let left = self.len();
        (left, Some(left))
    }
}

impl<'a> ExactSizeIterator for DTypeIter<'a> {
    fn len(&self) -> usize {
        self.inner.len()
    }
}

impl<'a> FusedIterator for DTypeIter<'a> {}
