// SPDX-License-Identifier: Apache-2.0
// SPDX-FileCopyrightText: Copyright the Vortex contributors

ghost use Rattle.std.specs.Prelude.{◌≡◌, ◌≤◌, pos};
ghost use Rattle.std.proofs.Common.{refl, lit≤};
ghost use Rattle.dtype_base.specs.Primitives.{ptype_row, IsUnsigned};

use crate::NativePType;
use num_traits::PrimInt;

/// A native integer type: `u8`, `u16`, `u32`, `u64`, `i8`, `i16`, `i32` or `i64`.
pub trait IntegerPType: NativePType + PrimInt {
    /// Returns the greatest value of the type as a `u64`, for example 255 for `u8` and 127 for `i8`.
    final fn max_value_as_u64() -> u64
        ensures value { result ≡ (ptype_row Self.PTYPE).greatest }
        ensures greatest { pos result ≡ Self.high }
    {
        Self::PTYPE.max_value_as_u64()
    }

    // The greatest value is that of the primitive type.
    ghost greatest_law: { Self.high ≡ pos (ptype_row Self.PTYPE).greatest };
}

/// A native unsigned integer type: `u8`, `u16`, `u32` or `u64`.
pub trait UnsignedPType: IntegerPType {
    ghost unsigned_law: { IsUnsigned Self.PTYPE };
}

/// A native integer type in which the offsets of a list are stored while the list is built: `u32`, `i32`, `u64` or
/// `i64`.
pub trait OffsetBuilderPType: IntegerPType {
    ghost wide_law: { 4 ≤ (ptype_row Self.PTYPE).bytes };
}

/// A native type that has an unsigned type of the same width, in which its bits can be stored. For example, the bits of
/// an `i32` can be stored in a `u32`.
pub trait PhysicalPType: NativePType {
    /// The unsigned type of the same width, for example `u32` for `i32` and for `u32`.
    type Physical: UnsignedPType;

    ghost physical_law: { Self.Physical.PTYPE ≡ (ptype_row Self.PTYPE).unsigned };
}

impl IntegerPType for u8 {
    ghost greatest_law = { refl };
}

impl IntegerPType for u16 {
    ghost greatest_law = { refl };
}

impl IntegerPType for u32 {
    ghost greatest_law = { refl };
}

impl IntegerPType for u64 {
    ghost greatest_law = { refl };
}

impl IntegerPType for i8 {
    ghost greatest_law = { refl };
}

impl IntegerPType for i16 {
    ghost greatest_law = { refl };
}

impl IntegerPType for i32 {
    ghost greatest_law = { refl };
}

impl IntegerPType for i64 {
    ghost greatest_law = { refl };
}

impl UnsignedPType for u8 {
    ghost unsigned_law = { refl };
}

impl UnsignedPType for u16 {
    ghost unsigned_law = { refl };
}

impl UnsignedPType for u32 {
    ghost unsigned_law = { refl };
}

impl UnsignedPType for u64 {
    ghost unsigned_law = { refl };
}

impl OffsetBuilderPType for u32 {
    ghost wide_law = { lit≤ tt };
}

impl OffsetBuilderPType for u64 {
    ghost wide_law = { lit≤ tt };
}

impl OffsetBuilderPType for i32 {
    ghost wide_law = { lit≤ tt };
}

impl OffsetBuilderPType for i64 {
    ghost wide_law = { lit≤ tt };
}

impl PhysicalPType for u8 {
    type Physical = u8;

    ghost physical_law = { refl };
}

impl PhysicalPType for u16 {
    type Physical = u16;

    ghost physical_law = { refl };
}

impl PhysicalPType for u32 {
    type Physical = u32;

    ghost physical_law = { refl };
}

impl PhysicalPType for u64 {
    type Physical = u64;

    ghost physical_law = { refl };
}

impl PhysicalPType for i8 {
    type Physical = u8;

    ghost physical_law = { refl };
}

impl PhysicalPType for i16 {
    type Physical = u16;

    ghost physical_law = { refl };
}

impl PhysicalPType for i32 {
    type Physical = u32;

    ghost physical_law = { refl };
}

impl PhysicalPType for i64 {
    type Physical = u64;

    ghost physical_law = { refl };
}
