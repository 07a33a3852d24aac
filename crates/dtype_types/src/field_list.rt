// SPDX-License-Identifier: Apache-2.0
// SPDX-FileCopyrightText: Copyright the Vortex contributors

ghost use Rattle.std.specs.Prelude.{◌≡◌, ◌++◌, ◌∷◌, []};
ghost use Rattle.dtype_base.specs.Errors.{Makes};
ghost use Rattle.dtype_types.specs.tree.TreeOf.{children, with_trees};

use crate::{DType, FieldIter, StructFields};
use dtype_base::{FieldName, FieldNames, VortexResult};
use std::alloc::Global;
use std::marker::Model;

// A list of fields to which one field after another is added, and of which a struct is made at the end. In contracts it
// is a list of pairs.
#[derive(Drop)]
pub(crate) struct FieldList {
    names: Vec<FieldName>,
    dtypes: Vec<DType>,
}

impl Model for FieldList {
    ghost use Rattle.std.specs.Prelude.{◌≡◌, ℕ, List, length};
    ghost use Rattle.std.specs.List.{zip};
    ghost use Rattle.std.specs.Coded.{coded_list, coded×, coded_ℕ};
    ghost use Rattle.dtype_types.specs.contracts.dtype.DType as dtype;
    ghost use Rattle.dtype_types.specs.declared.dtype.DType.{DType};

    ghost Value = { List (List ℕ × DType) };

    ghost coded = { coded_list (coded× (coded_list coded_ℕ) dtype.the_row.coded) };

    ghost view = { λ l. zip l.names.items l.dtypes.items };

    ghost invariant = { λ l. length l.names.items ≡ length l.dtypes.items };
}

impl FieldList {
    // Returns a list without fields that has room for `room` of them.
    pub(crate) fn with_capacity(alloc: Global, room: usize) -> VortexResult<Self>
        ensures { Makes result (λ l. l ≡ []) }
    {
        let names = Vec::with_capacity(alloc, room)?;
        let dtypes = Vec::with_capacity(alloc, room)?;
        Ok(FieldList { names, dtypes })
    }

    // Returns these fields followed by one more.
    #[tactic(auto, using(crate::proofs::PutTogether::zip_more))]
    pub(crate) fn with(self, name: FieldName, dtype: DType) -> VortexResult<Self>
        ensures { Makes result (λ l. l ≡ self ++ (name, dtype) ∷ []) }
    {
        let FieldList {
            mut names,
            mut dtypes,
        } = self;
        names.push(name)?;
        dtypes.push(dtype)?;
        Ok(FieldList { names, dtypes })
    }

    // Returns these fields followed by copies of the fields `more`. The copied names share their texts with the
    // originals.
    #[tactic(auto, using(crate::proofs::PutTogether::copied_more))]
    pub(crate) fn with_copies(self, alloc: Global, more: FieldIter<'_>) -> VortexResult<Self>
        ensures { Makes result (λ l. with_trees l ≡ with_trees self ++ with_trees more.entry) }
    {
        let mut fields = self;
        for (name, dtype) in more {
            fields = fields.with(name.try_clone(alloc)?, dtype.try_clone(alloc)?)?;
        }
        Ok(fields)
    }

    // Returns the struct of these fields.
    #[tactic(auto, using(crate::proofs::Parts::fields))]
    pub(crate) fn into_struct(self, alloc: Global) -> VortexResult<StructFields>
        ensures { Makes result (λ s. children s ≡ with_trees self) }
    {
        let names = FieldNames::from_vec(self.names);
        Ok(StructFields::new(alloc, names, self.dtypes)?)
    }
}
