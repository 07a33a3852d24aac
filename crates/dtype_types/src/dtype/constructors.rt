// SPDX-License-Identifier: Apache-2.0
// SPDX-FileCopyrightText: Copyright the Vortex contributors

// Constructors of types that contain other types.
ghost use Rattle.std.specs.Prelude.{◌≡◌, ◌⊎◌, OnOk, MatchResult};
ghost use Rattle.std.specs.Iterator.{IsFiniteIterable};
ghost use Rattle.dtype_base.specs.Errors.{Makes};
ghost use Rattle.dtype_base.specs.MadeFrom.{MadeFrom};
ghost use Rattle.dtype_base.specs.declared.nullability.Nullability.TheVariants.{NonNullable};
ghost use Rattle.dtype_base.specs.declared.vortex_error.VortexError.TheVariants.{OutOfMemory, MapKeyNullable};
ghost use Rattle.dtype_types.specs.parts.FieldTypes.{IsStructOf};
ghost use Rattle.dtype_types.specs.nullability.Nullable.{nullability, IsNullable};
ghost use Rattle.dtype_types.specs.tree.Tree.{list, fixed_size_list, map_of};
ghost use Rattle.dtype_types.specs.tree.TreeOf.{tree};

use crate::{DType, FieldDType, MapDType, StructFields};
use dtype_base::{FieldName, Nullability, VortexResult};
use std::alloc::Global;

impl DType {
    /// Returns the type of lists of any length whose elements are of the type `element`. Its outer nullability is `n`.
    ///
    /// # Errors
    ///
    /// - `OutOfMemory` (0): an allocation fails.
    pub fn list(alloc: Global, element: DType, n: Nullability) -> VortexResult<DType>
        ensures { Makes result (λ d. tree d ≡ list (tree element) n) }
    {
        Ok(DType::List(Box::new(alloc, element)?, n))
    }

    /// Returns the type of lists of exactly `size` elements of the type `element`. Its outer nullability is `n`.
    ///
    /// # Errors
    ///
    /// - `OutOfMemory` (0): an allocation fails.
    pub fn fixed_size_list(
        alloc: Global,
        element: DType,
        size: u32,
        n: Nullability,
    ) -> VortexResult<DType>
        ensures { Makes result (λ d. tree d ≡ fixed_size_list (tree element) size n) }
    {
        Ok(DType::FixedSizeList(Box::new(alloc, element)?, size, n))
    }

    /// Returns the type of maps with this key type and this value type. Its outer nullability is `n`. The flag
    /// `keys_sorted` declares that the keys of each map are sorted. The call stores the flag in the type, and nothing
    /// checks that it is so.
    ///
    /// # Errors
    ///
    /// - `MapKeyNullable` (9): the key type is nullable.
    /// - `OutOfMemory` (0): an allocation fails.
    pub fn map(
        alloc: Global,
        key: DType,
        value: DType,
        keys_sorted: bool,
        n: Nullability,
    ) -> VortexResult<DType>
        ensures ok { MatchResult result
            (λ d. tree d ≡ map_of (tree key) (tree value) keys_sorted n)
            (λ e.
            ((e ≡ OutOfMemory) × (nullability (tree key) ≡ NonNullable))
            ⊎ ((e ≡ MapKeyNullable) × IsNullable (tree key))) }
        ensures accepted { OnOk result (nullability (tree key) ≡ NonNullable) }
    {
        let map = MapDType::try_new(alloc, key, value, keys_sorted)?;
        Ok(DType::Map(map, n))
    }

    /// Returns the struct type of the fields that an iterator yields, in order. Its outer nullability is `n`. The
    /// caller must prove that the iterator ends.
    ///
    /// # Errors
    ///
    /// - `OutOfMemory` (0): an allocation fails.
    pub fn struct_<I: IntoIterator<Item = (FieldName, FieldDType)>>(
        alloc: Global,
        fields: I,
        n: Nullability,
    ) -> VortexResult<DType>
        requires { IsFiniteIterable I.into_iter_gives I.IntoIter.can_next I.IntoIter.remaining fields }
        ensures { Makes result (λ d. MadeFrom (I.into_iter_gives fields) I.IntoIter.next_gives (IsStructOf n d)) }
    {
        Ok(DType::Struct(StructFields::from_iter(alloc, fields)?, n))
    }
}
