// SPDX-License-Identifier: Apache-2.0
// SPDX-FileCopyrightText: Copyright the Vortex contributors

// Copies of types. A copy allocates its boxes, and shares its structs, unions and maps (reference counted).
#![tactic(auto, using(crate::proofs::SameParts::same_parts))]

ghost use Rattle.std.specs.Prelude.{◌≡◌};
ghost use Rattle.dtype_base.specs.Errors.{Makes};
ghost use Rattle.dtype_types.specs.tree.TreeOf.{tree};

use crate::DType;
use dtype_base::VortexResult;
use std::alloc::Global;

impl DType {
    /// Returns a copy of the type, which is equal to it.
    ///
    /// The two types share the fields of a struct, the variants of a union and the parts of a map: the call doesn't
    /// copy these but raises a reference count. It allocates for lists, fixed-size lists and extensions.
    ///
    /// # Errors
    ///
    /// - `OutOfMemory` (0): an allocation fails, or a reference count is at its maximum.
    #[cycle(copy)]
    pub fn try_clone(&self, alloc: Global) -> VortexResult<DType>
        ensures { Makes result (λ d. tree d ≡ tree self.now) }
    {
        match self {
            DType::Null => Ok(DType::Null),
            DType::Bool(n) => Ok(DType::Bool(*n)),
            DType::Primitive(ptype, n) => Ok(DType::Primitive(*ptype, *n)),
            DType::Decimal(decimal, n) => Ok(DType::Decimal(*decimal, *n)),
            DType::Utf8(n) => Ok(DType::Utf8(*n)),
            DType::Binary(n) => Ok(DType::Binary(*n)),
            DType::List(element, n) => Ok(DType::List(boxed_copy(alloc, element)?, *n)),
            DType::FixedSizeList(element, size, n) => Ok(DType::FixedSizeList(
                boxed_copy(alloc, element)?,
                *size,
                *n,
            )),
            DType::Map(map, n) => Ok(DType::Map(map.try_clone(alloc)?, *n)),
            DType::Struct(fields, n) => Ok(DType::Struct(fields.try_clone(alloc)?, *n)),
            DType::Union(variants, n) => Ok(DType::Union(variants.try_clone(alloc)?, *n)),
            DType::Variant(n) => Ok(DType::Variant(*n)),
            DType::Extension(extension) => Ok(DType::Extension(extension.try_clone(alloc)?)),
        }
    }
}

// Returns a copy of the type in a box.
#[cycle(copy)]
pub(crate) fn boxed_copy(alloc: Global, dtype: &DType) -> VortexResult<Box<DType>>
    ensures { Makes result (λ b. tree b.value ≡ tree dtype.now) }
{
    let copy = dtype.try_clone(alloc)?;
    Ok(Box::new(alloc, copy)?)
}
