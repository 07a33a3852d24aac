// SPDX-License-Identifier: Apache-2.0
// SPDX-FileCopyrightText: Copyright the Vortex contributors

ghost use Rattle.std.specs.Prelude.{◌≡◌, ◌↔◌, ◌<◌, ◌≤◌, IfErr, IsOk, IsTrue, Some, MatchResult};
ghost use Rattle.std.specs.Option.{ok_or};
ghost use Rattle.dtype_base.specs.declared.vortex_error.VortexError.TheVariants.{NotDecimalPType};
ghost use Rattle.dtype_base.specs.Decimals.{greatest_precision, IsValidDecimal, IsDecimalWithin, DecimalError, IsBitWidth, IsCompatible, storage, smallest_storage, decimal_type_of};

use crate::{PType, VortexError, VortexResult};
use std::fmt;
use std::marker::Model;

/// The greatest precision of a decimal type, 76. Every number of 76 decimal digits fits a signed 256-bit integer, and
/// not every number of 77 decimal digits does.
pub const MAX_PRECISION: u8 = 76;
/// The greatest scale of a decimal type, 76. It is equal to the greatest precision, because the scale of a decimal type
/// is at most its precision.
pub const MAX_SCALE: i8 = MAX_PRECISION as i8;

const _: () = prove!(MAX_PRECISION == 76 && MAX_SCALE == 76);

/// A decimal type, for example `decimal(10,2)`: numbers of at most 10 decimal digits, 2 of them after the decimal
/// point, such as 12345678.90.
///
/// The precision is the greatest number of decimal digits of a value. It is from 1 to 76.
///
/// The scale is the number of those digits that are after the decimal point. It is from -128 to 76, and at most the
/// precision. A negative scale -k means that the digits of each value are followed by k zeros, so that each value is a
/// multiple of 10^k. For example, the values of `decimal(3,-2)` are the multiples of 100 from -99900 to 99900.
#[derive(Clone, Copy, Debug, PartialEq, Eq, Hash)]
pub struct DecimalDType {
    precision: u8,
    scale: i8,
}

impl Model for DecimalDType {
    ghost use Rattle.dtype_base.specs.Decimals.{Decimal, IsDecimalWithin, greatest_precision};

    ghost Value = { Decimal };

    ghost view = { λ d. record { precision = d.precision; scale = d.scale } };

    ghost invariant = { λ d. IsDecimalWithin greatest_precision d.precision d.scale };

    ghost inverse = { λ d. record { precision = d.precision; scale = d.scale } };
}

impl DecimalDType {
    /// Returns the decimal type with this precision and this scale. Every negative scale, down to -128, is accepted.
    ///
    /// # Errors
    ///
    /// The first that applies:
    /// - `PrecisionZero` (1): the precision is 0.
    /// - `PrecisionTooLarge` (2): the precision is above 76.
    /// - `ScaleTooLarge` (3): the scale is above 76.
    /// - `ScaleAbovePrecision` (4): the scale is above the precision.
    pub fn try_new(precision: u8, scale: i8) -> VortexResult<Self>
        ensures ok { MatchResult result
            (λ d. (d.precision ≡ precision) × (d.scale ≡ scale))
            (DecimalError greatest_precision precision scale) }
        ensures accepted { IsOk result ↔ IsDecimalWithin greatest_precision precision scale }
    {
        check_precision_and_scale(precision, scale, MAX_PRECISION)?;
        Ok(DecimalDType { precision, scale })
    }

    /// Returns the decimal type with this precision and this scale. The caller must prove that the precision is from 1
    /// to 76, and that the scale is at most the precision. A caller that can't prove this calls `try_new`, which tests
    /// it.
    pub fn new(precision: u8, scale: i8) -> Self
        requires { IsDecimalWithin greatest_precision precision scale }
        ensures { result ≡ record { precision = precision; scale = scale } }
    {
        Self { precision, scale }
    }

    /// Returns the greatest number of decimal digits of a value, from 1 to 76.
    pub fn precision(&self) -> u8
        ensures value { result ≡ self.now.precision }
        ensures valid { IsValidDecimal self.now }
    {
        self.precision
    }

    /// Returns the scale: the number of digits after the decimal point. It is from -128 to 76, and at most the
    /// precision. A negative scale -k means that each value is a multiple of 10^k.
    pub fn scale(&self) -> i8
        ensures value { result ≡ self.now.scale }
        ensures valid { IsValidDecimal self.now }
    {
        self.scale
    }

    /// Returns the least number of bits that can hold every unsigned number with as many decimal digits as the
    /// precision. For example, it returns 4 for a precision of 1, because 9 takes 4 bits, and 253 for a precision of
    /// 76. A sign bit isn't counted.
    pub fn required_bit_width(&self) -> usize
        ensures { IsBitWidth self.now.precision result }
    {
        usize::from(BIT_WIDTHS[usize::from(self.precision) - 1])
    }
}

// The bit widths of the precisions from 1.
const BIT_WIDTHS: [u8; MAX_PRECISION as usize] = [
    4, 7, 10, 14, 17, 20, 24, 27, 30, 34, 37, 40, 44, 47, 50, 54, 57, 60, 64, 67, 70, 74, 77, 80,
    84, 87, 90, 94, 97, 100, 103, 107, 110, 113, 117, 120, 123, 127, 130, 133, 137, 140, 143, 147,
    150, 153, 157, 160, 163, 167, 170, 173, 177, 180, 183, 187, 190, 193, 196, 200, 203, 206, 210,
    213, 216, 220, 223, 226, 230, 233, 236, 240, 243, 246, 250, 253,
];

/// Prints the precision and the scale, for example `decimal(10,2)`.
impl fmt::Display for DecimalDType {
    ghost use Rattle.dtype_base.specs.Decimals.{decimal_text};

    ghost output = { λ d. Some (decimal_text d) };

    fn fmt<W: fmt::Write>(&self, f: &mut fmt::Formatter<W>) -> fmt::Result {
        write!(f, "decimal({},{})", self.precision, self.scale)
    }
}

/// Returns `Ok(())` if the precision is from 1 to `max` and the scale is at most the precision. If `max` is 76, it
/// accepts the same precisions and scales as `DecimalDType::try_new`. The caller must prove that `max` is at most 127,
/// the greatest value of an `i8`.
///
/// # Errors
///
/// The first that applies:
/// - `PrecisionZero` (1): the precision is 0.
/// - `PrecisionTooLarge` (2): the precision is above `max`.
/// - `ScaleTooLarge` (3): the scale is above `max`.
/// - `ScaleAbovePrecision` (4): the scale is above the precision.
pub fn check_precision_and_scale(precision: u8, scale: i8, max: u8) -> VortexResult<()>
    requires { max < 128 }
    ensures accepted { IsOk result ↔ IsDecimalWithin max precision scale }
    ensures errors { IfErr result (DecimalError max precision scale) }
{
    let max_scale = max as i8;
    if precision == 0 {
        return Err(VortexError::PrecisionZero { max });
    }
    if precision > max {
        return Err(VortexError::PrecisionTooLarge { precision, max });
    }
    if scale > max_scale {
        return Err(VortexError::ScaleTooLarge {
            scale,
            max: max_scale,
        });
    }
    if scale > 0 && scale as u8 > precision {
        return Err(VortexError::ScaleAbovePrecision { scale, precision });
    }
    Ok(())
}

/// A storage type of decimals: a signed integer type in which their values are stored. A value is stored as the integer
/// that its digits make without the decimal point. For example, the value 12.34 of the type `decimal(4,2)` is stored as
/// 1234, which fits `I16`.
///
/// Each storage type has a number, from 0 for `I8` to 5 for `I256`, which is the one that Vortex messages use. Storage
/// types are ordered by their numbers, so that a narrower type is less than a wider one.
#[derive(Clone, Copy, Debug, PartialEq, Eq, Hash, PartialOrd, Ord)]
pub enum DecimalType {
    /// An 8-bit signed integer.
    I8,
    /// A 16-bit signed integer.
    I16,
    /// A 32-bit signed integer.
    I32,
    /// A 64-bit signed integer.
    I64,
    /// A 128-bit signed integer.
    I128,
    /// A 256-bit signed integer.
    I256,
}

impl DecimalType {
    /// Returns the narrowest storage type that can hold every value of the decimal type. The result depends only on the
    /// precision:
    /// - `I8` for a precision of 1 or 2
    /// - `I16` for a precision of 3 or 4
    /// - `I32` for a precision from 5 to 9
    /// - `I64` for a precision from 10 to 18
    /// - `I128` for a precision from 19 to 38
    /// - `I256` for a precision from 39 to 76
    pub fn smallest_decimal_value_type(decimal: &DecimalDType) -> DecimalType
        ensures { smallest_storage decimal.now.precision ≡ Some result }
    {
        match decimal.precision() {
            ..=2 => DecimalType::I8,
            3..=4 => DecimalType::I16,
            5..=9 => DecimalType::I32,
            10..=18 => DecimalType::I64,
            19..=38 => DecimalType::I128,
            39.. => DecimalType::I256,
        }
    }

    /// Returns the width of a value in bytes: 1, 2, 4, 8, 16 or 32.
    pub fn byte_width(&self) -> usize
        ensures { result ≡ (storage self.now).bytes }
    {
        match self {
            DecimalType::I8 => 1,
            DecimalType::I16 => 2,
            DecimalType::I32 => 4,
            DecimalType::I64 => 8,
            DecimalType::I128 => 16,
            DecimalType::I256 => 32,
        }
    }

    /// Returns whether this storage type can hold every value of the decimal type. It can exactly if it is at least as
    /// wide as the type that `smallest_decimal_value_type` returns. For example, `I16` and `I32` can hold every value
    /// of `decimal(4,2)`, and `I8` can't.
    pub fn is_compatible_decimal_value_type(self, decimal: DecimalDType) -> bool
        ensures digits { IsTrue result ↔ (decimal.precision ≤ (storage self).digits) }
        ensures number { IsTrue result ↔ IsCompatible self decimal.precision }
    {
        self >= DecimalType::smallest_decimal_value_type(&decimal)
    }
}

/// Prints the storage type in lower case, for example `i128`.
impl fmt::Display for DecimalType {
    ghost output = { λ t. Some (storage t).text };

    fn fmt<W: fmt::Write>(&self, f: &mut fmt::Formatter<W>) -> fmt::Result {
        match self {
            DecimalType::I8 => write!(f, "i8"),
            DecimalType::I16 => write!(f, "i16"),
            DecimalType::I32 => write!(f, "i32"),
            DecimalType::I64 => write!(f, "i64"),
            DecimalType::I128 => write!(f, "i128"),
            DecimalType::I256 => write!(f, "i256"),
        }
    }
}

/// Returns the storage type of the same width as this signed integer type. For example, `PType::I32` is converted to
/// `DecimalType::I32`.
///
/// # Errors
///
/// - `NotDecimalPType` (7): the primitive type isn't `i8`, `i16`, `i32` or `i64`.
impl TryFrom<PType> for DecimalType {
    type Error = VortexError;

    ghost try_from_gives = { λ p r. r ≡ ok_or (decimal_type_of p) (NotDecimalPType p) };

    fn try_from(ptype: PType) -> VortexResult<DecimalType> {
        match ptype {
            PType::I8 => Ok(DecimalType::I8),
            PType::I16 => Ok(DecimalType::I16),
            PType::I32 => Ok(DecimalType::I32),
            PType::I64 => Ok(DecimalType::I64),
            _ => Err(VortexError::NotDecimalPType { ptype }),
        }
    }
}
