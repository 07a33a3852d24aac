// SPDX-License-Identifier: Apache-2.0
// SPDX-FileCopyrightText: Copyright the Vortex contributors

//! A builder of arrays: how wide its rows and its decimals are.
#![tactic(auto, using(vortex_dtype::proofs::rulesets::primitives))]

ghost use Rattle.std.specs.Prelude.{◌≡◌, ◌-◌, ◌*◌, ◌^◌, ◌≤◌, IfNone, IfSome};
ghost use Rattle.dtype_types.specs.tree.TreeOf.{tree};
ghost use Rattle.dtype_types.specs.tree.Width.{Fixed, HasWidePart, width};

use vortex_dtype::{DType, DecimalDType, DecimalType};

/// How many bytes a row of the type takes, where every row takes as many and no part of it is too wide to count.
pub fn row_bytes(dtype: &DType) -> Option<usize>
    ensures fixed { IfSome result (λ _. Fixed (tree dtype.now)) }
    ensures width { IfSome result (λ bytes. bytes ≡ width (tree dtype.now)) }
    ensures none { IfNone result (Fixed (tree dtype.now) → HasWidePart (tree dtype.now)) }
{
    match dtype.element_size() {
        Ok(bytes) => bytes,
        Err(_) => None,
    }
}

/// How many bytes each value of a decimal type fits.
#[tactic(auto, using(vortex_dtype::proofs::rulesets::decimals))]
pub fn decimal_bytes(decimal: &DecimalDType) -> usize
    ensures { 10 ^ decimal.now.precision ≤ 2 ^ (8 * result - 1) }
{
    DecimalType::smallest_decimal_value_type(decimal).byte_width()
}
