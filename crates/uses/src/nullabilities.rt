// SPDX-License-Identifier: Apache-2.0
// SPDX-FileCopyrightText: Copyright the Vortex contributors

//! Nullability set, and set again; and types that are subsets of others.
#![tactic(auto, using(vortex_dtype::proofs::rulesets::nullabilities, vortex_dtype::proofs::rulesets::order))]

ghost use Rattle.std.specs.Prelude.{◌≡◌, ◌↔◌, ◌⊎◌, IfOk, IsTrue};
ghost use Rattle.vortex_dtype.specs.Types.Nullability.TheVariants.{NonNullable};
ghost use Rattle.dtype_types.specs.nullability.Nullable.{IsNullable, nullability};
ghost use Rattle.dtype_types.specs.nullability.Sub.{Sub};
ghost use Rattle.dtype_types.specs.tree.TreeOf.{tree};
ghost use Rattle.dtype_types.specs.values.Value.{IncludedIn, Of, null_value};

use std::alloc::Global;
use vortex_dtype::{DType, VortexResult};

/// A non-nullable type made nullable, and back, is what it was.
pub fn nullable_and_back(dtype: &DType, alloc: Global) -> VortexResult<DType>
    requires { nullability (tree dtype.now) ≡ NonNullable }
    ensures { IfOk result (λ d. tree d ≡ tree dtype.now) }
{
    let nullable = dtype.as_nullable(alloc)?;
    nullable.as_nonnullable(alloc)
}

/// The type of a sum of two columns: it has null where one of them has.
#[tactic(auto, using(vortex_dtype::proofs::rulesets::nullabilities, vortex_dtype::proofs::rulesets::null_values))]
pub fn null_where_either(a: &DType, b: &DType, alloc: Global) -> VortexResult<DType>
    ensures { IfOk result (λ d. Of null_value (tree d) ↔ (IsNullable (tree a.now) ⊎ IsNullable (tree b.now))) }
{
    Ok(a.union_nullability(alloc, b.nullability())?)
}

/// Whether an array of type `more` may be appended to one of type `dtype`. Then each of its values is a
/// value of `dtype`.
#[tactic(auto, using(vortex_dtype::proofs::rulesets::order))]
pub fn can_append(dtype: &DType, more: &DType) -> bool
    ensures exact { IsTrue result ↔ Sub (tree more.now) (tree dtype.now) }
    ensures included { IsTrue result → IncludedIn (tree more.now) (tree dtype.now) }
{
    more.eq_with_nullability_subset(dtype)
}

/// Whether each of two arrays may be appended to the other. Then their types are equal.
#[tactic(auto, using(vortex_dtype::proofs::rulesets::sub_antisymmetric))]
pub fn can_append_both_ways(first: &DType, second: &DType) -> bool
    ensures exact { IsTrue result ↔ (Sub (tree first.now) (tree second.now) × Sub (tree second.now) (tree first.now)) }
    ensures equal { IsTrue result → tree first.now ≡ tree second.now }
{
    first.eq_with_nullability_subset(second) && second.eq_with_nullability_subset(first)
}
