// SPDX-License-Identifier: Apache-2.0
// SPDX-FileCopyrightText: Copyright the Vortex contributors

#![tactic(auto, using(crate::proofs::Bytes::written, crate::proofs::Bytes::length_little_endian))]

ghost use Rattle.std.specs.Prelude.{◌≡◌, ℕ, List, length};
ghost use Rattle.std.specs.Int.{w8, w16, w32, w64};
ghost use Rattle.dtype_native.specs.LittleEndian.{little_endian};
ghost use Rattle.dtype_native.specs.NumberLaws.{injective, signed_injective};

use num_traits::Number;

/// A number that is written as a fixed number of bytes, the least significant byte first. For example, the `u16` 258 is
/// written as the two bytes 2, 1.
pub trait ToBytes: Number {
    /// The array that `to_le_bytes` returns. It has as many bytes as the type is wide. For example, it is `[u8; 4]` for
    /// `i32`.
    type Bytes: Copy;

    // The width in bytes.
    ghost byte_width: { ℕ };

    // The items of an array, in order.
    ghost bytes_in: { Self.Bytes → List ℕ };

    /// Returns the bytes of the number, the least significant byte first. A negative number is written in two's
    /// complement. For example, the call returns the bytes 254, 255 for the `i16` -2.
    fn to_le_bytes(&self) -> Self::Bytes
        ensures written { bytes_in result ≡ little_endian byte_width (Self.value self.now) }
        ensures count { length (bytes_in result) ≡ byte_width }
        ensures in_range { Self.fits (Self.value self.now) };

    /// Returns the bytes of the array as a slice, in order.
    fn bytes_of(bytes: &Self::Bytes) -> &[u8]
        ensures { result.now ≡ bytes_in bytes.now };

    // Different numbers have different bytes.
    ghost distinct_law: { (x y : Self) → Self.fits (Self.value x) → Self.fits (Self.value y)
        → little_endian byte_width (Self.value x) ≡ little_endian byte_width (Self.value y)
        → x ≡ y };
}

impl ToBytes for u8 {
    type Bytes = [u8; 1];

    ghost byte_width = { 1 };

    ghost bytes_in = { λ bytes. bytes };

    fn to_le_bytes(&self) -> [u8; 1] {
        u8::to_le_bytes(*self)
    }

    fn bytes_of(bytes: &[u8; 1]) -> &[u8] {
        bytes
    }

    ghost distinct_law = { injective 1 };
}

impl ToBytes for u16 {
    type Bytes = [u8; 2];

    ghost byte_width = { 2 };

    ghost bytes_in = { λ bytes. bytes };

    fn to_le_bytes(&self) -> [u8; 2] {
        u16::to_le_bytes(*self)
    }

    fn bytes_of(bytes: &[u8; 2]) -> &[u8] {
        bytes
    }

    ghost distinct_law = { injective 2 };
}

impl ToBytes for u32 {
    type Bytes = [u8; 4];

    ghost byte_width = { 4 };

    ghost bytes_in = { λ bytes. bytes };

    fn to_le_bytes(&self) -> [u8; 4] {
        u32::to_le_bytes(*self)
    }

    fn bytes_of(bytes: &[u8; 4]) -> &[u8] {
        bytes
    }

    ghost distinct_law = { injective 4 };
}

impl ToBytes for u64 {
    type Bytes = [u8; 8];

    ghost byte_width = { 8 };

    ghost bytes_in = { λ bytes. bytes };

    fn to_le_bytes(&self) -> [u8; 8] {
        u64::to_le_bytes(*self)
    }

    fn bytes_of(bytes: &[u8; 8]) -> &[u8] {
        bytes
    }

    ghost distinct_law = { injective 8 };
}

impl ToBytes for i8 {
    type Bytes = [u8; 1];

    ghost byte_width = { 1 };

    ghost bytes_in = { λ bytes. bytes };

    fn to_le_bytes(&self) -> [u8; 1] {
        i8::to_le_bytes(*self)
    }

    fn bytes_of(bytes: &[u8; 1]) -> &[u8] {
        bytes
    }

    ghost distinct_law = { signed_injective w8 };
}

impl ToBytes for i16 {
    type Bytes = [u8; 2];

    ghost byte_width = { 2 };

    ghost bytes_in = { λ bytes. bytes };

    fn to_le_bytes(&self) -> [u8; 2] {
        i16::to_le_bytes(*self)
    }

    fn bytes_of(bytes: &[u8; 2]) -> &[u8] {
        bytes
    }

    ghost distinct_law = { signed_injective w16 };
}

impl ToBytes for i32 {
    type Bytes = [u8; 4];

    ghost byte_width = { 4 };

    ghost bytes_in = { λ bytes. bytes };

    fn to_le_bytes(&self) -> [u8; 4] {
        i32::to_le_bytes(*self)
    }

    fn bytes_of(bytes: &[u8; 4]) -> &[u8] {
        bytes
    }

    ghost distinct_law = { signed_injective w32 };
}

impl ToBytes for i64 {
    type Bytes = [u8; 8];

    ghost byte_width = { 8 };

    ghost bytes_in = { λ bytes. bytes };

    fn to_le_bytes(&self) -> [u8; 8] {
        i64::to_le_bytes(*self)
    }

    fn bytes_of(bytes: &[u8; 8]) -> &[u8] {
        bytes
    }

    ghost distinct_law = { signed_injective w64 };
}
