// SPDX-License-Identifier: Apache-2.0
// SPDX-FileCopyrightText: Copyright the Vortex contributors

ghost use Rattle.std.specs.Prelude.{◌≡◌, IfSome, Some, length};
ghost use Rattle.std.specs.Iterator.{YieldsFirstBy, UpTo, item_count};
ghost use Rattle.std.specs.Iterator.SizeHint.{IsWithinCount};
ghost use Rattle.std.specs.List.{zip};
ghost use Rattle.dtype_types.specs.parts.Lists.{borrowed_triple};

use crate::DType;
use dtype_base::FieldName;
use std::iter::FusedIterator;
use std::marker::Model;
use std::slice;

/// An iterator over the variants of a union, in order. For each variant it returns a reference to the name, the tag,
/// and a reference to the type. In contracts it is the list of the variants that it hasn't returned yet.
#[derive(Debug, Drop)]
pub struct VariantIter<'a> {
    names: slice::Iter<'a, FieldName>,
    dtypes: slice::Iter<'a, DType>,
    tags: slice::Iter<'a, u8>,
}

impl<'a> Model for VariantIter<'a> {
    ghost use Rattle.std.specs.Prelude.{◌≡◌, ℕ, List, length};
    ghost use Rattle.std.specs.Coded.{coded_list, coded×, coded_ℕ};
    ghost use Rattle.std.specs.List.{zip};
    ghost use Rattle.std.specs.Slice.Iter.{iter_rest};
    ghost use Rattle.dtype_types.specs.contracts.dtype.DType as dtype;
    ghost use Rattle.dtype_types.specs.declared.dtype.DType.{DType};

    ghost Value = { List (List ℕ × (DType × ℕ)) };

    ghost coded = { coded_list (coded× (coded_list coded_ℕ) (coded× dtype.the_row.coded coded_ℕ)) };

    ghost view = { λ it. zip (iter_rest it.names) (zip (iter_rest it.dtypes) (iter_rest it.tags)) };

    ghost invariant = { λ it. (length (iter_rest it.dtypes) ≡ length (iter_rest it.names))
        × (length (iter_rest it.tags) ≡ length (iter_rest it.names)) };
}

impl<'a> VariantIter<'a> {
    // The caller proves that there are as many names as types, and as many names as tags.
    pub(crate) fn new(names: &'a [FieldName], dtypes: &'a [DType], tags: &'a [u8]) -> Self
        requires dtypes { length dtypes.now ≡ length names.now }
        requires tags { length tags.now ≡ length names.now }
        ensures { result ≡ zip names.now (zip dtypes.now tags.now) }
    {
        VariantIter {
            names: names.iter(),
            dtypes: dtypes.iter(),
            tags: tags.iter(),
        }
    }
}

impl<'a> Iterator for VariantIter<'a> {
    type Item = (&'a FieldName, u8, &'a DType);

    ghost next_gives = { YieldsFirstBy borrowed_triple (λ left. left) };

    ghost remaining = { item_count (λ left. left) };

    fn next(&mut self) -> Option<(&'a FieldName, u8, &'a DType)> {
        let name = self.names.next()?;
        let tag = self.tags.next()?;
        let dtype = self.dtypes.next()?;
        Some((name, *tag, dtype))
    }

    fn size_hint(&self) -> (usize, Option<usize>)
        ensures lower { IsWithinCount result.0 (item_count (λ left. left) self.now) }
        ensures upper { IfSome result.1 (UpTo (item_count (λ left. left) self.now)) }
        ensures exact { result ≡ (length self.now, Some (length self.now)) }
    {
        let left = self.len();
        (left, Some(left))
    }
}

#[tactic(auto, using(crate::proofs::Sides::triples))]
impl<'a> ExactSizeIterator for VariantIter<'a> {
    fn len(&self) -> usize {
        self.names.len()
    }
}

impl<'a> FusedIterator for VariantIter<'a> {}
