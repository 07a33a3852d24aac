// SPDX-License-Identifier: Apache-2.0
// SPDX-FileCopyrightText: Copyright the Vortex contributors

ghost use Rattle.std.specs.Prelude.{◌≡◌, length};
ghost use Rattle.std.specs.List.{zip};
ghost use Rattle.std.specs.Map.{keys_of};
ghost use Rattle.dtype_base.specs.Errors.{Makes};
ghost use Rattle.dtype_types.specs.parts.Lists.{types_of, tags_of};

use dtype_base::{FieldNames, VortexResult};
use std::alloc::Global;
use std::marker::Model;

// Names, types and tags, of which there are equally many. In contracts it is a list of triples. A union contains its
// variants in a `Tagged`, because a type that is part of a recursive group of types can have no invariant of its own.
// The file `specs/formers/tagged/Tagged` defines how a `Tagged` contains the types.
#[derive(Debug, Drop)]
pub(crate) struct Tagged<T> {
    names: FieldNames,
    dtypes: Vec<T>,
    tags: Vec<u8>,
}

impl<T> Model for Tagged<T> {
    ghost use Rattle.std.specs.Prelude.{◌≡◌, ℕ, List, length};
    ghost use Rattle.std.specs.Coded.{coded_list, coded×, coded_ℕ};
    ghost use Rattle.std.specs.List.{zip};

    ghost Value = { List (List ℕ × (T × ℕ)) };

    ghost coded = { coded_list (coded× (coded_list coded_ℕ) (coded× T.code coded_ℕ)) };

    ghost view = { λ n. zip n.names (zip n.dtypes.items n.tags.items) };

    ghost invariant = { λ n. (length n.dtypes.items ≡ length n.names) × (length n.tags.items ≡ length n.names) };
}

#[tactic(auto, using(crate::proofs::Sides::triples))]
impl<T> Tagged<T> {
    // Makes the list of these names, types and tags, which are equally many.
    pub(crate) fn new(names: FieldNames, dtypes: Vec<T>, tags: Vec<u8>) -> Self
        requires dtypes { length dtypes.items ≡ length names }
        requires tags { length tags.items ≡ length names }
        ensures { result ≡ zip names (zip dtypes.items tags.items) }
    {
        Tagged {
            names,
            dtypes,
            tags,
        }
    }

    // The names, in order.
    pub(crate) fn names(&self) -> &FieldNames
        ensures { result.now ≡ keys_of self.now }
    {
        &self.names
    }

    // The types, in order.
    pub(crate) fn dtypes(&self) -> &[T]
        ensures { result.now ≡ types_of self.now }
    {
        &self.dtypes
    }

    // The tags, in order.
    pub(crate) fn tags(&self) -> &[u8]
        ensures { result.now ≡ tags_of self.now }
    {
        &self.tags
    }

    // Makes the list of these names and tags, and other types, which are equally many.
    pub(crate) fn with_dtypes(&self, alloc: Global, dtypes: Vec<T>) -> VortexResult<Tagged<T>>
    where
        T: Drop,
        requires { length dtypes.items ≡ length self.now }
        ensures { Makes result (λ n. n ≡ zip (keys_of self.now) (zip dtypes.items (tags_of self.now))) }
    {
        let names = self.names.try_clone(alloc)?;
        let tags = Vec::from_slice(alloc, &self.tags)?;
        Ok(Tagged {
            names,
            dtypes,
            tags,
        })
    }

    // The number of names.
    pub(crate) fn len(&self) -> usize
        ensures { result ≡ length self.now }
    {
        self.dtypes.len()
    }
}
