// SPDX-License-Identifier: Apache-2.0
// SPDX-FileCopyrightText: Copyright the Vortex contributors

// Types of the parts that were read, or the error with which the library refuses the parts.
ghost use Rattle.std.specs.Prelude.{◌≡◌, IfOk, length, map, vec_len};
ghost use Rattle.std.specs.List.{All, zip};
ghost use Rattle.dtype_base.specs.Errors.{Makes};
ghost use Rattle.dtype_types.specs.tree.Tree as of;
ghost use Rattle.dtype_types.specs.tree.Tree.{fields, variants};
ghost use Rattle.dtype_types.specs.tree.TreeOf.{tree};
ghost use Rattle.dtype_types.specs.tree.Valid.{Valid};
ghost use Rattle.dtype_text.specs.TypeParts.{a_decimal};
ghost use Rattle.c_arrow.specs.Faults.{Gives};
ghost use Rattle.c_arrow.specs.Read.{decimal_of, map_of, union_of};

use crate::fault::ArrowFault;
use dtype_base::{DecimalDType, FieldName, FieldNames, Nullability, VortexResult};
use dtype_types::{DType, StructFields, UnionVariants};
use std::alloc::Global;

/// Returns the decimal type of a precision and a scale.
#[tactic(auto, using(crate::proofs::Made::decimals))]
pub(crate) fn decimal_type(precision: u8, scale: i8, n: Nullability) -> Result<DType, ArrowFault>
    ensures read { Gives tree result (decimal_of precision scale n) }
    ensures made { IfOk result (λ d. tree d ≡ of.decimal (a_decimal precision scale) n) }
    ensures valid { IfOk result (λ d. Valid (tree d)) }
{
    Ok(DType::Decimal(DecimalDType::try_new(precision, scale)?, n))
}

/// Returns the map type of a key type and a value type.
#[tactic(auto, unfolding(crate::specs::Read::map_of), using(crate::proofs::Made::maps))]
pub(crate) fn map_type(
    alloc: Global,
    entries: (DType, DType),
    sorted: bool,
    n: Nullability,
) -> Result<DType, ArrowFault>
    ensures read { Gives tree result (map_of (tree entries.0) (tree entries.1) sorted n) }
    ensures made { IfOk result (λ d. tree d ≡ of.map_of (tree entries.0) (tree entries.1) sorted n) }
    ensures valid { Valid (tree entries.0) → Valid (tree entries.1) → IfOk result (λ d. Valid (tree d)) }
{
    let (key, value) = entries;
    Ok(DType::map(alloc, key, value, sorted, n)?)
}

/// Returns the struct type of these names and types.
#[tactic(auto, using(crate::proofs::Made::structs))]
pub(crate) fn struct_type(
    alloc: Global,
    names: Vec<FieldName>,
    dtypes: Vec<DType>,
    n: Nullability,
) -> VortexResult<DType>
    requires { length names.items ≡ vec_len dtypes }
    ensures made { Makes result (λ d. tree d ≡ of.struct (fields (zip names.items (map tree dtypes.items))) n) }
    ensures valid { All (λ d. Valid (tree d)) dtypes.items → IfOk result (λ d. Valid (tree d)) }
{
    let fields = StructFields::new(alloc, FieldNames::from_vec(names), dtypes)?;
    Ok(DType::Struct(fields, n))
}

/// Returns the union type of these names, types and tags.
#[tactic(auto, using(crate::proofs::Made::unions))]
pub(crate) fn union_type(
    alloc: Global,
    names: Vec<FieldName>,
    dtypes: Vec<DType>,
    tags: Vec<u8>,
    n: Nullability,
) -> Result<DType, ArrowFault>
    requires { length names.items ≡ vec_len dtypes }
    ensures read { Gives tree result (union_of (zip names.items (map tree dtypes.items)) tags.items n) }
    ensures made { IfOk result (λ d. tree d ≡ of.union (variants (zip names.items (zip (map tree dtypes.items) tags.items))) n) }
    ensures valid { All (λ d. Valid (tree d)) dtypes.items → IfOk result (λ d. Valid (tree d)) }
{
    let variants = UnionVariants::try_new(alloc, FieldNames::from_vec(names), dtypes, tags)?;
    Ok(DType::Union(variants, n))
}
