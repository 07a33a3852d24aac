// SPDX-License-Identifier: Apache-2.0
// SPDX-FileCopyrightText: Copyright the Vortex contributors

#![tactic(auto, using(crate::proofs::Bytes::read))]

ghost use Rattle.std.specs.Prelude.{◌≡◌, ◌↔◌, length, Ok, IsOk, MatchResult};
ghost use Rattle.dtype_base.specs.declared.vortex_error.VortexError.TheVariants.{BytesLength};
ghost use Rattle.dtype_native.specs.LittleEndian.{ReadsBytes};

use crate::ToBytes;
use dtype_base::{VortexError, VortexResult};

/// A number that is read from its bytes, the least significant byte first. For example, the bytes 2, 1 are read as the
/// `u16` 258.
pub trait TryFromBytes: ToBytes {
    /// Returns the number that `to_le_bytes` writes as these bytes. The least significant byte is first, and a negative
    /// number is in two's complement. For example, the call returns the `i16` -2 for the bytes 254, 255.
    ///
    /// # Errors
    ///
    /// - `BytesLength` (8): there are more or fewer bytes than the type is wide.
    fn try_from_le_bytes(bytes: &[u8]) -> VortexResult<Self>
        ensures { ReadsBytes Self.byte_width Self.value Self.fits bytes.now result };
}

// Returns the bytes as an array.
fn array_of<const N: usize>(bytes: &[u8]) -> VortexResult<[u8; N]>
    ensures accepted { IsOk result ↔ (length bytes.now ≡ N) }
    ensures ok { MatchResult result (λ array. array ≡ bytes.now) (λ e. e ≡ BytesLength) }
{
    <[u8; N]>::try_from(bytes).map_err(|_| VortexError::BytesLength)
}

impl TryFromBytes for u8 {
    fn try_from_le_bytes(bytes: &[u8]) -> VortexResult<u8> {
        Ok(u8::from_le_bytes(array_of(bytes)?))
    }
}

impl TryFromBytes for u16 {
    fn try_from_le_bytes(bytes: &[u8]) -> VortexResult<u16> {
        Ok(u16::from_le_bytes(array_of(bytes)?))
    }
}

impl TryFromBytes for u32 {
    fn try_from_le_bytes(bytes: &[u8]) -> VortexResult<u32> {
        Ok(u32::from_le_bytes(array_of(bytes)?))
    }
}

impl TryFromBytes for u64 {
    fn try_from_le_bytes(bytes: &[u8]) -> VortexResult<u64> {
        Ok(u64::from_le_bytes(array_of(bytes)?))
    }
}

impl TryFromBytes for i8 {
    fn try_from_le_bytes(bytes: &[u8]) -> VortexResult<i8> {
        Ok(i8::from_le_bytes(array_of(bytes)?))
    }
}

impl TryFromBytes for i16 {
    fn try_from_le_bytes(bytes: &[u8]) -> VortexResult<i16> {
        Ok(i16::from_le_bytes(array_of(bytes)?))
    }
}

impl TryFromBytes for i32 {
    fn try_from_le_bytes(bytes: &[u8]) -> VortexResult<i32> {
        Ok(i32::from_le_bytes(array_of(bytes)?))
    }
}

impl TryFromBytes for i64 {
    fn try_from_le_bytes(bytes: &[u8]) -> VortexResult<i64> {
        Ok(i64::from_le_bytes(array_of(bytes)?))
    }
}
