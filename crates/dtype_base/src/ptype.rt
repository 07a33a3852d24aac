// SPDX-License-Identifier: Apache-2.0
// SPDX-FileCopyrightText: Copyright the Vortex contributors

ghost use Rattle.std.specs.Prelude.{◌≡◌, ◌↔◌, ◌*◌, IsTrue, Some};

use std::fmt;

/// A primitive type: an integer type or a floating-point type of a fixed width. For example, `I32` is the type of
/// 32-bit signed integers.
///
/// Each primitive type has a number, from 0 for `U8` to 10 for `F64`, which is the one that Vortex messages use.
/// Primitive types are ordered by their numbers.
#[derive(Clone, Copy, Debug, PartialEq, Eq, Hash, PartialOrd, Ord)]
pub enum PType {
    /// An 8-bit unsigned integer.
    U8,
    /// A 16-bit unsigned integer.
    U16,
    /// A 32-bit unsigned integer.
    U32,
    /// A 64-bit unsigned integer.
    U64,
    /// An 8-bit signed integer.
    I8,
    /// A 16-bit signed integer.
    I16,
    /// A 32-bit signed integer.
    I32,
    /// A 64-bit signed integer.
    I64,
    /// A 16-bit float.
    F16,
    /// A 32-bit float.
    F32,
    /// A 64-bit float.
    F64,
}

// The greatest finite value of a 16-bit float.
const F16_MAX: u64 = 65504;

impl PType {
    ghost use Rattle.dtype_base.specs.Primitives.{ptype_row, IsUnsigned, IsSigned, IsInteger, IsFloat, narrowest_signed, narrowest_unsigned, wider};

    /// Returns whether this is an unsigned integer type.
    pub fn is_unsigned_int(self) -> bool
        ensures { IsTrue result ↔ IsUnsigned self }
    {
        matches!(self, PType::U8 | PType::U16 | PType::U32 | PType::U64)
    }

    /// Returns whether this is a signed integer type.
    pub fn is_signed_int(self) -> bool
        ensures { IsTrue result ↔ IsSigned self }
    {
        matches!(self, PType::I8 | PType::I16 | PType::I32 | PType::I64)
    }

    /// Returns whether this is an integer type, signed or unsigned.
    pub fn is_int(self) -> bool
        ensures { IsTrue result ↔ IsInteger self }
    {
        self.is_unsigned_int() || self.is_signed_int()
    }

    /// Returns whether this is a floating-point type.
    pub fn is_float(self) -> bool
        ensures { IsTrue result ↔ IsFloat self }
    {
        matches!(self, PType::F16 | PType::F32 | PType::F64)
    }

    /// Returns the width of a value in bytes: 1, 2, 4 or 8.
    pub fn byte_width(&self) -> usize
        ensures { result ≡ (ptype_row self.now).bytes }
    {
        match self {
            PType::U8 | PType::I8 => 1,
            PType::U16 | PType::I16 | PType::F16 => 2,
            PType::U32 | PType::I32 | PType::F32 => 4,
            PType::U64 | PType::I64 | PType::F64 => 8,
        }
    }

    /// Returns the width of a value in bits: 8, 16, 32 or 64.
    pub fn bit_width(&self) -> usize
        ensures { result ≡ 8 * (ptype_row self.now).bytes }
    {
        8 * self.byte_width()
    }

    /// Returns the greatest finite value of the type as a `u64`, or `u64::MAX` if that value is above `u64::MAX`. For
    /// example, it returns 127 for `i8`, 65504 for `f16`, and `u64::MAX` for `f32` and for `f64`.
    pub fn max_value_as_u64(&self) -> u64
        ensures { result ≡ (ptype_row self.now).greatest }
    {
        match self {
            PType::U8 => u64::from(u8::MAX),
            PType::U16 => u64::from(u16::MAX),
            PType::U32 => u64::from(u32::MAX),
            PType::U64 => u64::MAX,
            PType::I8 => i8::MAX as u64,
            PType::I16 => i16::MAX as u64,
            PType::I32 => i32::MAX as u64,
            PType::I64 => i64::MAX as u64,
            PType::F16 => F16_MAX,
            PType::F32 | PType::F64 => u64::MAX,
        }
    }

    /// Returns the signed integer type of the same width, for example `i32` for `u32`. A floating-point type is
    /// returned unchanged.
    pub fn to_signed(self) -> PType
        ensures { result ≡ (ptype_row self).signed }
    {
        match self {
            PType::U8 => PType::I8,
            PType::U16 => PType::I16,
            PType::U32 => PType::I32,
            PType::U64 => PType::I64,
            PType::I8 | PType::I16 | PType::I32 | PType::I64 => self,
            PType::F16 | PType::F32 | PType::F64 => self,
        }
    }

    /// Returns the unsigned integer type of the same width, for example `u32` for `i32`. A floating-point type is
    /// returned unchanged.
    pub fn to_unsigned(self) -> PType
        ensures { result ≡ (ptype_row self).unsigned }
    {
        match self {
            PType::I8 => PType::U8,
            PType::I16 => PType::U16,
            PType::I32 => PType::U32,
            PType::I64 => PType::U64,
            PType::U8 | PType::U16 | PType::U32 | PType::U64 => self,
            PType::F16 | PType::F32 | PType::F64 => self,
        }
    }

    /// Returns the narrowest unsigned integer type that can hold the value. For example, it returns `u8` for 255 and
    /// `u16` for 256.
    pub fn min_unsigned_ptype_for_value(value: u64) -> PType
        ensures { Some result ≡ narrowest_unsigned value }
    {
        if value <= u64::from(u8::MAX) {
            PType::U8
        } else if value <= u64::from(u16::MAX) {
            PType::U16
        } else if value <= u64::from(u32::MAX) {
            PType::U32
        } else {
            PType::U64
        }
    }

    /// Returns the narrowest signed integer type that can hold the value. For example, it returns `i8` for -128 and
    /// `i16` for -129.
    pub fn min_signed_ptype_for_value(value: i64) -> PType
        ensures { Some result ≡ narrowest_signed value }
    {
        if i64::from(i8::MIN) <= value && value <= i64::from(i8::MAX) {
            PType::I8
        } else if i64::from(i16::MIN) <= value && value <= i64::from(i16::MAX) {
            PType::I16
        } else if i64::from(i32::MIN) <= value && value <= i64::from(i32::MAX) {
            PType::I32
        } else {
            PType::I64
        }
    }

    /// Returns the wider of `self` and `other`, or `self` if both have the same width. The caller must prove that both
    /// are unsigned integer types.
    pub fn max_unsigned_ptype(self, other: PType) -> PType
        requires self_kind { IsUnsigned self }
        requires other_kind { IsUnsigned other }
        ensures { result ≡ wider self other }
    {
        self.wider_of(other)
    }

    /// Returns the wider of `self` and `other`, or `self` if both have the same width. The caller must prove that both
    /// are signed integer types.
    pub fn max_signed_ptype(self, other: PType) -> PType
        requires self_kind { IsSigned self }
        requires other_kind { IsSigned other }
        ensures { result ≡ wider self other }
    {
        self.wider_of(other)
    }

    fn wider_of(self, other: PType) -> PType
        ensures { result ≡ wider self other }
    {
        if self.byte_width() >= other.byte_width() {
            self
        } else {
            other
        }
    }
}

/// Prints the primitive type in lower case, for example `u8`.
impl fmt::Display for PType {
    ghost use Rattle.dtype_base.specs.Primitives.{ptype_row};

    ghost output = { λ p. Some (ptype_row p).text };

    fn fmt<W: fmt::Write>(&self, f: &mut fmt::Formatter<W>) -> fmt::Result {
        match self {
            PType::U8 => write!(f, "u8"),
            PType::U16 => write!(f, "u16"),
            PType::U32 => write!(f, "u32"),
            PType::U64 => write!(f, "u64"),
            PType::I8 => write!(f, "i8"),
            PType::I16 => write!(f, "i16"),
            PType::I32 => write!(f, "i32"),
            PType::I64 => write!(f, "i64"),
            PType::F16 => write!(f, "f16"),
            PType::F32 => write!(f, "f32"),
            PType::F64 => write!(f, "f64"),
        }
    }
}
