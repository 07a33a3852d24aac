// SPDX-License-Identifier: Apache-2.0
// SPDX-FileCopyrightText: Copyright the Vortex contributors

// Conversions between types and the primitive types and decimals that they contain.
ghost use Rattle.std.specs.Prelude.{◌≡◌};
ghost use Rattle.std.specs.Option.{ok_or};
ghost use Rattle.dtype_base.specs.declared.nullability.Nullability.TheVariants.{NonNullable};
ghost use Rattle.dtype_base.specs.declared.vortex_error.VortexError.TheVariants.{NotDecimal, NotPrimitive};
ghost use Rattle.dtype_types.specs.tree.Valid.{Valid};
ghost use Rattle.dtype_types.specs.tree.TreeOf.{tree};
ghost use Rattle.dtype_types.specs.tree.Kinds.{decimal_of, primitive_name};
ghost use Rattle.dtype_types.specs.tree.Tree.{primitive};

use crate::DType;
use dtype_base::{DecimalDType, Nullability, PType, VortexError, VortexResult};

impl DType {
    /// The type of a byte: the non-nullable `u8`.
    pub const BYTES: DType = DType::Primitive(PType::U8, Nullability::NonNullable);
}

/// Returns the non-nullable type of a primitive type. For example, `PType::I32` is converted to `i32`.
impl From<PType> for DType {
    ghost from_gives = { λ ptype d. (tree d ≡ primitive ptype NonNullable) × Valid (tree d) };

    fn from(ptype: PType) -> DType {
        DType::Primitive(ptype, Nullability::NonNullable)
    }
}

/// Returns the primitive type of a `Primitive`. For example, it returns `PType::I32` for `i32?`.
///
/// # Errors
///
/// - `NotPrimitive` (6): the type isn't a `Primitive`.
impl TryFrom<&DType> for PType {
    type Error = VortexError;

    ghost try_from_gives = { λ d r. r ≡ ok_or (primitive_name (tree d.now)) NotPrimitive };

    fn try_from(dtype: &DType) -> VortexResult<PType> {
        dtype.ptype().ok_or(VortexError::NotPrimitive)
    }
}

/// Returns the precision and the scale of a `Decimal`. For example, it returns those of `decimal(10,2)` for
/// `decimal(10,2)?`.
///
/// # Errors
///
/// - `NotDecimal` (5): the type isn't a `Decimal`.
impl TryFrom<&DType> for DecimalDType {
    type Error = VortexError;

    ghost try_from_gives = { λ d r. r ≡ ok_or (decimal_of (tree d.now)) NotDecimal };

    fn try_from(dtype: &DType) -> VortexResult<DecimalDType> {
        dtype
            .as_decimal_opt()
            .copied()
            .ok_or(VortexError::NotDecimal)
    }
}

/// Returns the precision and the scale of a `Decimal`. For example, it returns those of `decimal(10,2)` for
/// `decimal(10,2)?`.
///
/// # Errors
///
/// - `NotDecimal` (5): the type isn't a `Decimal`.
impl TryFrom<DType> for DecimalDType {
    type Error = VortexError;

    ghost try_from_gives = { λ d r. r ≡ ok_or (decimal_of (tree d)) NotDecimal };

    fn try_from(dtype: DType) -> VortexResult<DecimalDType> {
        DecimalDType::try_from(&dtype)
    }
}
