// SPDX-License-Identifier: Apache-2.0
// SPDX-FileCopyrightText: Copyright the Vortex contributors

ghost use Rattle.std.specs.Prelude.{◌≡◌, ◌⊎◌, ◌↔◌, length, map, IsTrue, Some, MatchResult};
ghost use Rattle.std.specs.List.{zip};
ghost use Rattle.std.specs.Map.{keys_of, values_of};
ghost use Rattle.dtype_base.specs.Errors.{Makes};
ghost use Rattle.dtype_base.specs.FieldNames.{SelectionError, first_place};
ghost use Rattle.dtype_base.specs.Comparisons.{comparisons, longest_bucket};
ghost use Rattle.dtype_base.specs.declared.vortex_error.VortexError.TheVariants.{OutOfMemory};
ghost use Rattle.dtype_base.specs.Distinct.{Distinct};

use dtype_base::{FieldName, FieldNames, IndexedNames, VortexResult};
use std::alloc::Global;
use std::marker::Model;

// Names and types, of which there are equally many. In contracts it is a list of pairs. A struct contains its fields in
// a `Named`, because a type that is part of a recursive group of types can have no invariant of its own. The file
// `specs/formers/named/Named` defines how a `Named` contains the types.
#[derive(Debug, Drop)]
pub(crate) struct Named<T> {
    names: IndexedNames,
    dtypes: Vec<T>,
}

impl<T> Model for Named<T> {
    ghost use Rattle.std.specs.Prelude.{◌≡◌, ℕ, List, length};
    ghost use Rattle.std.specs.List.{zip};
    ghost use Rattle.std.specs.Coded.{coded_list, coded×, coded_ℕ};

    ghost Value = { List (List ℕ × T) };

    ghost coded = { coded_list (coded× (coded_list coded_ℕ) T.code) };

    ghost view = { λ n. zip n.names n.dtypes.items };

    ghost invariant = { λ n. length n.dtypes.items ≡ length n.names };
}

#[tactic(auto, using(crate::proofs::Sides::pairs))]
impl<T> Named<T> {
    // Makes the list of these names and types, which are equally many.
    pub(crate) fn new(names: IndexedNames, dtypes: Vec<T>) -> Self
        requires { length dtypes.items ≡ length names }
        ensures { result ≡ zip names dtypes.items }
    {
        Named { names, dtypes }
    }

    // The names, in order.
    pub(crate) fn names(&self) -> &FieldNames
        ensures { result.now ≡ keys_of self.now }
    {
        self.names.names()
    }

    // The types, in order.
    pub(crate) fn dtypes(&self) -> &[T]
        ensures { result.now ≡ values_of self.now }
    {
        &self.dtypes
    }

    // The number of names.
    pub(crate) fn len(&self) -> usize
        ensures { result ≡ length self.now }
    {
        self.dtypes.len()
    }

    // The position of the first name that is equal to this one, and the number of names that were compared.
    pub(crate) fn find_counted(&self, name: &str) -> (Option<usize>, u64)
        ensures { result ≡ (first_place (keys_of self.now) name.now, comparisons (longest_bucket (keys_of self.now))) }
    {
        self.names.find_counted(name)
    }

    // Returns the names in `asked` with an index, and the first position of each in this list. It fails if one of them
    // isn't in this list.
    pub(crate) fn select(
        &self,
        alloc: Global,
        asked: &[FieldName],
    ) -> VortexResult<(IndexedNames, Vec<usize>)>
        ensures { MatchResult result
            (λ s. (s.0 ≡ asked.now) × (map Some s.1.items ≡ map (first_place (keys_of self.now)) asked.now))
            (λ e. (e ≡ OutOfMemory) ⊎ SelectionError (keys_of self.now) asked.now e) }
    {
        self.names.select(alloc, asked)
    }

    // Makes the list of these names, with their index, and other types, which are equally many.
    pub(crate) fn with_dtypes(&self, alloc: Global, dtypes: Vec<T>) -> VortexResult<Named<T>>
    where
        T: Drop,
        requires { length dtypes.items ≡ length self.now }
        ensures { Makes result (λ n. n ≡ zip (keys_of self.now) dtypes.items) }
    {
        let names = self.names.try_clone(alloc)?;
        Ok(Named { names, dtypes })
    }

    // Whether the names are distinct.
    pub(crate) fn are_distinct(&self) -> bool
        ensures { IsTrue result ↔ Distinct (keys_of self.now) }
    {
        self.names.are_distinct()
    }
}
