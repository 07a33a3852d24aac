// SPDX-License-Identifier: Apache-2.0
// SPDX-FileCopyrightText: Copyright the Vortex contributors

ghost use Rattle.std.specs.Prelude.{◌≡◌, ◌↔◌, IsOk, IsTrue, Some, MatchResult};
ghost use Rattle.std.specs.Ordering.{int_cmp};
ghost use Rattle.dtype_base.specs.Decimals.{Decimal, IsDecimalWithin, DecimalError, storage};
ghost use Rattle.dtype_native.specs.Digits.{HasDigits, KeepsDecimal, precision_scale_text};

use crate::NativeDecimalType;
use dtype_base::{DecimalDType, VortexError, VortexResult, check_precision_and_scale};
use std::cmp::Ordering;
use std::fmt;
use std::marker::{Model, PhantomData};

/// A decimal type whose values fit the native type `D`. Its precision is from 1 to `D::MAX_PRECISION`, and its scale is
/// from -128 to the precision. For example, the precision of a `PrecisionScale<i32>` is from 1 to 9.
#[derive_where(Clone, Copy, Debug, PartialEq, Eq, Hash)]
pub struct PrecisionScale<D: NativeDecimalType> {
    precision: u8,
    scale: i8,
    native: PhantomData<D>,
}

impl<D: NativeDecimalType> Model for PrecisionScale<D> {
    ghost Value = { Decimal };

    ghost view = { λ p. record { precision = p.precision; scale = p.scale } };

    ghost invariant = { λ p. IsDecimalWithin D.MAX_PRECISION p.precision p.scale };

    ghost inverse = { λ d. record { precision = d.precision; scale = d.scale; native = record {} } };
}

impl<D: NativeDecimalType> PrecisionScale<D> {
    /// Returns the decimal type with this precision and this scale. Every negative scale, down to -128, is accepted.
    ///
    /// # Errors
    ///
    /// The first that applies:
    ///
    /// - `PrecisionZero` (1): the precision is 0.
    /// - `PrecisionTooLarge` (2): the precision is above `D::MAX_PRECISION`.
    /// - `ScaleTooLarge` (3): the scale is above `D::MAX_PRECISION`.
    /// - `ScaleAbovePrecision` (4): the scale is above the precision.
    pub fn try_new(precision: u8, scale: i8) -> VortexResult<Self>
        ensures ok { MatchResult result
            (λ d. (d.precision ≡ precision) × (d.scale ≡ scale))
            (DecimalError D.MAX_PRECISION precision scale) }
        ensures accepted { IsOk result ↔ IsDecimalWithin D.MAX_PRECISION precision scale }
    {
        check_precision_and_scale(precision, scale, D::MAX_PRECISION)?;
        Ok(Self::new_unchecked(precision, scale))
    }

    /// Returns the decimal type with this precision and this scale. The caller must prove that the precision is from 1
    /// to `D::MAX_PRECISION`, and that the scale is at most the precision.
    pub fn new(precision: u8, scale: i8) -> Self
        requires { IsDecimalWithin D.MAX_PRECISION precision scale }
        ensures { result ≡ record { precision = precision; scale = scale } }
    {
        Self::new_unchecked(precision, scale)
    }

    /// Returns the same as `new`: the decimal type with this precision and this scale. The caller must prove that the
    /// precision is from 1 to `D::MAX_PRECISION`, and that the scale is at most the precision.
    pub fn new_unchecked(precision: u8, scale: i8) -> Self
        requires { IsDecimalWithin D.MAX_PRECISION precision scale }
        ensures { result ≡ record { precision = precision; scale = scale } }
    {
        PrecisionScale {
            precision,
            scale,
            native: PhantomData,
        }
    }

    /// Returns the greatest number of decimal digits of a value, from 1 to `D::MAX_PRECISION`.
    pub fn precision(&self) -> u8
        ensures value { result ≡ self.now.precision }
        ensures within { IsDecimalWithin D.MAX_PRECISION self.now.precision self.now.scale }
    {
        self.precision
    }

    /// Returns the scale: the number of digits after the decimal point. It is from -128 to the precision. A negative
    /// scale -k means that each value is a multiple of 10^k.
    pub fn scale(&self) -> i8
        ensures value { result ≡ self.now.scale }
        ensures within { IsDecimalWithin D.MAX_PRECISION self.now.precision self.now.scale }
    {
        self.scale
    }

    /// Returns whether the number of decimal digits of the value is at most the precision. The sign isn't counted. For
    /// example, if the precision is 3, the call returns `true` for -999 and `false` for 1000.
    pub fn is_valid(&self, value: D) -> bool
        ensures { IsTrue result ↔ HasDigits self.now.precision (D.value value) }
    {
        compared(D::min_by_precision(self.precision), value).is_le()
            && compared(value, D::max_by_precision(self.precision)).is_le()
    }
}

// Returns how the two numbers compare.
fn compared<D: NativeDecimalType>(a: D, b: D) -> Ordering
    ensures { result ≡ int_cmp (D.value a) (D.value b) }
{
    a.cmp(&b)
}

/// Prints the native type, the precision and the scale, for example `decimal(i8, p=2, s=1)`.
impl<D: NativeDecimalType> fmt::Display for PrecisionScale<D> {
    ghost output = { λ d. Some (precision_scale_text (storage D.DECIMAL_TYPE).text d) };

    fn fmt<W: fmt::Write>(&self, f: &mut fmt::Formatter<W>) -> fmt::Result {
        write!(
            f,
            "decimal({}, p={}, s={})",
            D::DECIMAL_TYPE,
            self.precision,
            self.scale
        )
    }
}

/// Returns the `DecimalDType` with the same precision and the same scale.
impl<D: NativeDecimalType> From<PrecisionScale<D>> for DecimalDType {
    ghost from_gives = { λ p d. d ≡ p };

    fn from(kept: PrecisionScale<D>) -> DecimalDType {
        DecimalDType::new(kept.precision, kept.scale)
    }
}

/// Returns the `PrecisionScale<D>` with the same precision and the same scale as this decimal type.
///
/// # Errors
///
/// - `PrecisionTooLarge` (2): the precision is above `D::MAX_PRECISION`.
impl<D: NativeDecimalType> TryFrom<&DecimalDType> for PrecisionScale<D> {
    type Error = VortexError;

    ghost try_from_gives = { λ d r. KeepsDecimal D.MAX_PRECISION d.now r };

    fn try_from(decimal: &DecimalDType) -> VortexResult<PrecisionScale<D>> {
        PrecisionScale::try_new(decimal.precision(), decimal.scale())
    }
}
