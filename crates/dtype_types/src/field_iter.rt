// SPDX-License-Identifier: Apache-2.0
// SPDX-FileCopyrightText: Copyright the Vortex contributors

ghost use Rattle.std.specs.Prelude.{◌≡◌, IfSome, Some, length};
ghost use Rattle.std.specs.List.{zip};
ghost use Rattle.std.specs.Iterator.{YieldsFirstBy, UpTo, item_count};
ghost use Rattle.std.specs.Iterator.SizeHint.{IsWithinCount};
ghost use Rattle.dtype_types.specs.parts.Lists.{borrowed_pair};

use crate::DType;
use dtype_base::FieldName;
use std::iter::FusedIterator;
use std::marker::Model;
use std::slice;

/// An iterator over the fields of a struct, in order. For each field it returns a reference to the name and a reference
/// to the type. In contracts it is the list of the fields that it hasn't returned yet.
#[derive(Debug, Drop)]
pub struct FieldIter<'a> {
    names: slice::Iter<'a, FieldName>,
    dtypes: slice::Iter<'a, DType>,
}

impl<'a> Model for FieldIter<'a> {
    ghost use Rattle.std.specs.Prelude.{◌≡◌, ℕ, List, length};
    ghost use Rattle.std.specs.List.{zip};
    ghost use Rattle.std.specs.Coded.{coded_list, coded×, coded_ℕ};
    ghost use Rattle.std.specs.Slice.Iter.{iter_rest};
    ghost use Rattle.dtype_types.specs.contracts.dtype.DType as dtype;
    ghost use Rattle.dtype_types.specs.declared.dtype.DType.{DType};

    ghost Value = { List (List ℕ × DType) };

    ghost coded = { coded_list (coded× (coded_list coded_ℕ) dtype.the_row.coded) };

    ghost view = { λ it. zip (iter_rest it.names) (iter_rest it.dtypes) };

    ghost invariant = { λ it. length (iter_rest it.dtypes) ≡ length (iter_rest it.names) };
}

impl<'a> FieldIter<'a> {
    // The caller proves that there are as many names as types.
    pub(crate) fn new(names: &'a [FieldName], dtypes: &'a [DType]) -> Self
        requires { length dtypes.now ≡ length names.now }
        ensures { result ≡ zip names.now dtypes.now }
    {
        FieldIter {
            names: names.iter(),
            dtypes: dtypes.iter(),
        }
    }
}

// `VariantIter` and `DTypeIter` write out the same methods again. Forwarding to a shared wrapper would be as long, an
// alias of std's `Zip` isn't a list in contracts, and the gate rejects impls that are written by a macro of this
// repository.
impl<'a> Iterator for FieldIter<'a> {
    type Item = (&'a FieldName, &'a DType);

    ghost next_gives = { YieldsFirstBy borrowed_pair (λ left. left) };

    ghost remaining = { item_count (λ left. left) };

    fn next(&mut self) -> Option<(&'a FieldName, &'a DType)> {
        let name = self.names.next()?;
        let dtype = self.dtypes.next()?;
        Some((name, dtype))
    }

    fn size_hint(&self) -> (usize, Option<usize>)
        ensures lower { IsWithinCount result.0 (item_count (λ left. left) self.now) }
        ensures upper { IfSome result.1 (UpTo (item_count (λ left. left) self.now)) }
        ensures exact { result ≡ (length self.now, Some (length self.now)) }
    {
        let left = self.len();
        (left, Some(left))
    }
}

#[tactic(auto, using(crate::proofs::Sides::pairs))]
impl<'a> ExactSizeIterator for FieldIter<'a> {
    fn len(&self) -> usize {
        self.names.len()
    }
}

impl<'a> FusedIterator for FieldIter<'a> {}
