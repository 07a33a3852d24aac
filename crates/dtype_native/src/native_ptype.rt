// SPDX-License-Identifier: Apache-2.0
// SPDX-FileCopyrightText: Copyright the Vortex contributors

ghost use Rattle.std.specs.Prelude.{◌≡◌, ◌↔◌, ◌≤ℤ◌, ◌<ℤ◌, ℤ, IsTrue, IsFalse};
ghost use Rattle.std.specs.Int.{w8, w16, w32, w64};
ghost use Rattle.std.specs.Ordering.{int_cmp};
ghost use Rattle.std.proofs.Common.{refl};
ghost use Rattle.dtype_base.specs.declared.ptype.PType.{PType};
ghost use Rattle.dtype_base.specs.declared.ptype.PType.TheVariants.{U8, U16, U32, U64, I8, I16, I32, I64};
ghost use Rattle.dtype_base.specs.Primitives.{ptype_row};
ghost use Rattle.dtype_types.specs.values.Value.{IntegerOf};
ghost use Rattle.dtype_native.specs.NumberLaws.{same_natural, signed_range, unsigned_range};

use crate::{ToBytes, TryFromBytes};
use dtype_base::PType;
use num_traits::{Num, NumCast};
use std::cmp::Ordering;
use std::fmt::Display;

/// The native type of a primitive type. For example, `i32` is the native type of `PType::I32`. Eight types implement
/// the trait: the integer types `u8` to `u64` and `i8` to `i64`. The floating-point types have no native type here.
pub trait NativePType: Copy + Default + Display + Ord + Num + NumCast + ToBytes + TryFromBytes {
    /// The primitive type for which the native type stands, for example `PType::I32` for `i32`.
    const PTYPE: PType;

    ghost PTYPE: { PType };

    /// Returns `false`, because every integer is a number.
    final fn is_nan(self) -> bool
        ensures { IsFalse result }
    {
        false
    }

    /// Returns `false`, because no integer is infinite.
    final fn is_infinite(self) -> bool
        ensures { IsFalse result }
    {
        false
    }

    /// Returns how `self` compares to `other`. For example, it returns `Less` if `self` is 1 and `other` is 2.
    final fn total_compare(self, other: Self) -> Ordering
        ensures { result ≡ int_cmp (Self.value self) (Self.value other) }
    {
        self.cmp(&other)
    }

    /// Returns whether `self <= other`.
    final fn is_le(self, other: Self) -> bool
        ensures { IsTrue result ↔ (Self.value self ≤ℤ Self.value other) }
    {
        self.total_compare(other).is_le()
    }

    /// Returns whether `self < other`.
    final fn is_lt(self, other: Self) -> bool
        ensures { IsTrue result ↔ (Self.value self <ℤ Self.value other) }
    {
        self.total_compare(other).is_lt()
    }

    /// Returns whether `self >= other`.
    final fn is_ge(self, other: Self) -> bool
        ensures { IsTrue result ↔ (Self.value other ≤ℤ Self.value self) }
    {
        self.total_compare(other).is_ge()
    }

    /// Returns whether `self > other`.
    final fn is_gt(self, other: Self) -> bool
        ensures { IsTrue result ↔ (Self.value other <ℤ Self.value self) }
    {
        self.total_compare(other).is_gt()
    }

    /// Returns whether `self == other`.
    final fn is_eq(self, other: Self) -> bool
        ensures { IsTrue result ↔ (Self.value self ≡ Self.value other) }
    {
        self == other
    }

    // Each value is a whole number, and different values are different numbers.
    ghost whole_law: { Self.exact };

    ghost value_law: { (x y : Self) → Self.value x ≡ Self.value y → x ≡ y };

    // The range and the width are those of the primitive type.
    ghost range_law: { (z : ℤ) → Self.fits z ↔ IntegerOf PTYPE z };

    ghost width_law: { Self.byte_width ≡ (ptype_row PTYPE).bytes };
}

impl NativePType for u8 {
    const PTYPE: PType = PType::U8;

    ghost PTYPE = { U8 };

    ghost whole_law = { tt };

    ghost value_law = { same_natural };

    ghost range_law = { unsigned_range U8 };

    ghost width_law = { refl };
}

impl NativePType for u16 {
    const PTYPE: PType = PType::U16;

    ghost PTYPE = { U16 };

    ghost whole_law = { tt };

    ghost value_law = { same_natural };

    ghost range_law = { unsigned_range U16 };

    ghost width_law = { refl };
}

impl NativePType for u32 {
    const PTYPE: PType = PType::U32;

    ghost PTYPE = { U32 };

    ghost whole_law = { tt };

    ghost value_law = { same_natural };

    ghost range_law = { unsigned_range U32 };

    ghost width_law = { refl };
}

impl NativePType for u64 {
    const PTYPE: PType = PType::U64;

    ghost PTYPE = { U64 };

    ghost whole_law = { tt };

    ghost value_law = { same_natural };

    ghost range_law = { unsigned_range U64 };

    ghost width_law = { refl };
}

impl NativePType for i8 {
    const PTYPE: PType = PType::I8;

    ghost PTYPE = { I8 };

    ghost whole_law = { tt };

    ghost value_law = { λ _ _ same. same };

    ghost range_law = { signed_range w8 };

    ghost width_law = { refl };
}

impl NativePType for i16 {
    const PTYPE: PType = PType::I16;

    ghost PTYPE = { I16 };

    ghost whole_law = { tt };

    ghost value_law = { λ _ _ same. same };

    ghost range_law = { signed_range w16 };

    ghost width_law = { refl };
}

impl NativePType for i32 {
    const PTYPE: PType = PType::I32;

    ghost PTYPE = { I32 };

    ghost whole_law = { tt };

    ghost value_law = { λ _ _ same. same };

    ghost range_law = { signed_range w32 };

    ghost width_law = { refl };
}

impl NativePType for i64 {
    const PTYPE: PType = PType::I64;

    ghost PTYPE = { I64 };

    ghost whole_law = { tt };

    ghost value_law = { λ _ _ same. same };

    ghost range_law = { signed_range w64 };

    ghost width_law = { refl };
}
