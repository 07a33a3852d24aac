// SPDX-License-Identifier: Apache-2.0
// SPDX-FileCopyrightText: Copyright the Vortex contributors

ghost use Rattle.std.specs.Prelude.{◌≡◌, ◌^◌, ◌-◌, ◌-ℤ◌, ◌≤◌, ℕ, ℤ, neg_ℤ, pos, unsigned_abs};
ghost use Rattle.std.specs.Int.{byte_len, w8, w16, w32, w64, w128};
ghost use Rattle.std.proofs.Common.{refl, lit<, lit≤};
ghost use Rattle.dtype_base.specs.declared.decimal.DecimalType.{DecimalType};
ghost use Rattle.dtype_base.specs.declared.decimal.DecimalType.TheVariants.{I8, I16, I32, I64, I128};
ghost use Rattle.dtype_base.specs.Decimals.{greatest_precision, storage};
ghost use Rattle.dtype_native.specs.NumberLaws.{digits_fit};

use dtype_base::DecimalType;
use num_traits::{PrimInt, Signed, cast};

/// A native integer type in which decimal values are stored: `i8`, `i16`, `i32`, `i64` or `i128`. A value is stored as
/// an integer, without the decimal point. For example, 12.34 of the type `decimal(4,2)` is stored as 1234.
pub trait NativeDecimalType: PrimInt + Signed {
    /// The storage type for which this native type stands, for example `DecimalType::I32` for `i32`.
    const DECIMAL_TYPE: DecimalType;

    ghost DECIMAL_TYPE: { DecimalType };

    /// The greatest precision of the decimals that the type can store. For example, it is 9 for `i32`, because every
    /// number with 9 decimal digits fits an `i32`, and 9,999,999,999 with 10 digits doesn't.
    const MAX_PRECISION: u8;

    ghost MAX_PRECISION: { ℕ };

    /// The greatest scale of the decimals that the type can store. It is equal to `MAX_PRECISION`, because a scale is
    /// at most the precision.
    const MAX_SCALE: i8;

    ghost MAX_SCALE: { ℤ };

    /// The text of the storage type, for example `i32`.
    const NAME: &'static str;

    /// Returns the greatest number with `precision` decimal digits, which is `10^precision - 1`. For example, it
    /// returns 999 for a precision of 3, and 0 for a precision of 0. The caller must prove that `precision` is at most
    /// `MAX_PRECISION`.
    #[tactic(auto, using(crate::proofs::Powers::power_below, crate::proofs::Powers::below_power))]
    final fn max_by_precision(precision: u8) -> Self
        requires { precision ≤ MAX_PRECISION }
        ensures { Self.value result ≡ pos (10 ^ precision - 1) }
    {
        one_below(power_of_ten::<Self>(u32::from(precision)))
    }

    /// Returns the least number with `precision` decimal digits, which is `-(10^precision - 1)`. For example, it
    /// returns -999 for a precision of 3, and 0 for a precision of 0. The caller must prove that `precision` is at most
    /// `MAX_PRECISION`.
    #[tactic(auto, using(crate::proofs::Powers::above_opposite))]
    final fn min_by_precision(precision: u8) -> Self
        requires { precision ≤ MAX_PRECISION }
        ensures { Self.value result ≡ neg_ℤ (pos (10 ^ precision - 1)) }
    {
        opposite(Self::max_by_precision(precision))
    }

    // The storage type is as wide as this type.
    ghost bytes_law: { byte_len Self.width ≡ (storage DECIMAL_TYPE).bytes };

    // The greatest precision is that of the storage type, and at most that of any decimal.
    ghost digits_law: { MAX_PRECISION ≡ (storage DECIMAL_TYPE).digits };

    ghost scale_law: { MAX_SCALE ≡ pos MAX_PRECISION };

    ghost most_law: { MAX_PRECISION ≤ greatest_precision };

    // Every number of MAX_PRECISION digits fits the type, and so does 10^MAX_PRECISION, from which `max_by_precision`
    // subtracts 1.
    ghost fits_law: { (z : ℤ) → unsigned_abs z ≤ 10 ^ MAX_PRECISION → Self.fits z };
}

// Returns ten to the power of `exponent`.
fn power_of_ten<T: PrimInt>(exponent: u32) -> T
    requires { T.fits (pos (10 ^ exponent)) }
    ensures { T.value result ≡ pos (10 ^ exponent) }
{
    let ten: T = cast(10u8).unwrap();
    ten.pow(exponent)
}

// Returns the integer one below this one.
fn one_below<T: PrimInt>(number: T) -> T
    requires { T.fits (T.value number -ℤ pos 1) }
    ensures { T.value result ≡ T.value number -ℤ pos 1 }
{
    number - T::one()
}

// Returns this integer with the other sign.
fn opposite<T: PrimInt + Signed>(number: T) -> T
    requires { T.fits (neg_ℤ (T.value number)) }
    ensures { T.value result ≡ neg_ℤ (T.value number) }
{
    -number
}

impl NativeDecimalType for i8 {
    const DECIMAL_TYPE: DecimalType = DecimalType::I8;

    ghost DECIMAL_TYPE = { I8 };

    const MAX_PRECISION: u8 = 2;

    ghost MAX_PRECISION = { 2 };

    const MAX_SCALE: i8 = 2;

    ghost MAX_SCALE = { pos 2 };

    const NAME: &'static str = "i8";

    ghost bytes_law = { refl };

    ghost digits_law = { refl };

    ghost scale_law = { refl };

    ghost most_law = { lit≤ tt };

    ghost fits_law = { digits_fit w8 2 (lit< tt) };
}

impl NativeDecimalType for i16 {
    const DECIMAL_TYPE: DecimalType = DecimalType::I16;

    ghost DECIMAL_TYPE = { I16 };

    const MAX_PRECISION: u8 = 4;

    ghost MAX_PRECISION = { 4 };

    const MAX_SCALE: i8 = 4;

    ghost MAX_SCALE = { pos 4 };

    const NAME: &'static str = "i16";

    ghost bytes_law = { refl };

    ghost digits_law = { refl };

    ghost scale_law = { refl };

    ghost most_law = { lit≤ tt };

    ghost fits_law = { digits_fit w16 4 (lit< tt) };
}

impl NativeDecimalType for i32 {
    const DECIMAL_TYPE: DecimalType = DecimalType::I32;

    ghost DECIMAL_TYPE = { I32 };

    const MAX_PRECISION: u8 = 9;

    ghost MAX_PRECISION = { 9 };

    const MAX_SCALE: i8 = 9;

    ghost MAX_SCALE = { pos 9 };

    const NAME: &'static str = "i32";

    ghost bytes_law = { refl };

    ghost digits_law = { refl };

    ghost scale_law = { refl };

    ghost most_law = { lit≤ tt };

    ghost fits_law = { digits_fit w32 9 (lit< tt) };
}

impl NativeDecimalType for i64 {
    const DECIMAL_TYPE: DecimalType = DecimalType::I64;

    ghost DECIMAL_TYPE = { I64 };

    const MAX_PRECISION: u8 = 18;

    ghost MAX_PRECISION = { 18 };

    const MAX_SCALE: i8 = 18;

    ghost MAX_SCALE = { pos 18 };

    const NAME: &'static str = "i64";

    ghost bytes_law = { refl };

    ghost digits_law = { refl };

    ghost scale_law = { refl };

    ghost most_law = { lit≤ tt };

    ghost fits_law = { digits_fit w64 18 (lit< tt) };
}

impl NativeDecimalType for i128 {
    const DECIMAL_TYPE: DecimalType = DecimalType::I128;

    ghost DECIMAL_TYPE = { I128 };

    const MAX_PRECISION: u8 = 38;

    ghost MAX_PRECISION = { 38 };

    const MAX_SCALE: i8 = 38;

    ghost MAX_SCALE = { pos 38 };

    const NAME: &'static str = "i128";

    ghost bytes_law = { refl };

    ghost digits_law = { refl };

    ghost scale_law = { refl };

    ghost most_law = { lit≤ tt };

    ghost fits_law = { digits_fit w128 38 (lit< tt) };
}
