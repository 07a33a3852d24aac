// SPDX-License-Identifier: Apache-2.0
// SPDX-FileCopyrightText: Copyright the Vortex contributors

ghost use Rattle.std.specs.Prelude.{◌≡◌, ◌↔◌, IsTrue, map};
ghost use Rattle.dtype_base.specs.Errors.{Makes};
ghost use Rattle.dtype_base.specs.declared.nullability.Nullability.TheVariants.{NonNullable};
ghost use Rattle.dtype_types.specs.parts.FieldTypes.{field_tree};
ghost use Rattle.dtype_types.specs.tree.Valid.{Valid};
ghost use Rattle.dtype_types.specs.tree.TreeOf.{tree};
ghost use Rattle.dtype_types.specs.tree.Tree.{primitive};

use crate::DType;
use dtype_base::{PType, VortexResult};
use std::alloc::Global;
use std::hash::{Hash, Hasher};

/// The type of a field of a struct. For example, `StructFields::from_iter` takes pairs of a name and a `FieldDType`.
/// `FieldDType::from` converts a `DType` or a `PType` to a `FieldDType`.
#[derive(Debug, Drop)]
pub struct FieldDType {
    dtype: DType,
}

impl FieldDType {
    /// Returns the type of the field.
    pub fn value(&self) -> &DType
        ensures { tree result.now ≡ field_tree self.now }
    {
        &self.dtype
    }

    // Consumes the field and returns its type.
    pub(crate) fn into_dtype(self) -> DType
        ensures { result ≡ self.dtype }
    {
        self.dtype
    }

    /// Returns a copy of the field type, which is equal to it.
    ///
    /// # Errors
    ///
    /// - `OutOfMemory` (0): an allocation fails, or a reference count is at its maximum.
    pub fn try_clone(&self, alloc: Global) -> VortexResult<Self>
        ensures { Makes result (λ f. field_tree f ≡ field_tree self.now) }
    {
        Ok(FieldDType {
            dtype: self.dtype.try_clone(alloc)?,
        })
    }
}

// The types of these fields, in order.
pub(crate) fn into_dtypes(alloc: Global, fields: Vec<FieldDType>) -> VortexResult<Vec<DType>>
    ensures { Makes result (λ v. v.items ≡ map (λ f. f.dtype) fields.items) }
{
    Ok(fields.into_iter().map(|f| f.into_dtype()).collect(alloc)?)
}

impl From<DType> for FieldDType {
    ghost from_gives = { λ d f. (field_tree f ≡ tree d) × (Valid (tree d) → Valid (field_tree f)) };

    fn from(dtype: DType) -> FieldDType {
        FieldDType { dtype }
    }
}

/// Returns the non-nullable field type of a primitive type. For example, `PType::I32` is converted to `i32`.
impl From<PType> for FieldDType {
    ghost from_gives = { λ ptype f. (field_tree f ≡ primitive ptype NonNullable) × Valid (field_tree f) };

    fn from(ptype: PType) -> FieldDType {
        FieldDType {
            dtype: DType::from(ptype),
        }
    }
}

#[tactic(auto, using(crate::proofs::lemmas::Equality::equality))]
impl PartialEq for FieldDType {
    ghost use Rattle.dtype_types.specs.equality.Equality.{same_by};
    ghost use Rattle.dtype_types.specs.equality.EqualityLaws.{same_by_equiv};
    ghost use Rattle.std.specs.Cmp.{partial_equiv_from_equiv};

    ghost eq = { same_by field_tree };

    ghost laws = { partial_equiv_from_equiv (same_by_equiv field_tree) };

    fn eq(&self, other: &FieldDType) -> bool
        ensures { IsTrue result ↔ (field_tree self.now ≡ field_tree other.now) }
    {
        self.dtype == other.dtype
    }
}

impl Eq for FieldDType {
    ghost use Rattle.dtype_types.specs.equality.EqualityLaws.{same_by_equiv};

    ghost laws = { same_by_equiv field_tree };
}

impl Hash for FieldDType {
    ghost use Rattle.dtype_types.specs.equality.HashLaws.{equal_types_hash_alike};
    ghost use Rattle.dtype_types.specs.equality.Hashes.{hash_writes};

    ghost hash_input = { λ f. hash_writes (field_tree f) };

    ghost respects_eq = { λ f g. equal_types_hash_alike f.dtype g.dtype };

    fn hash<H: Hasher>(&self, state: &mut H) {
        self.dtype.hash(state);
    }
}
