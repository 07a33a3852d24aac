// SPDX-License-Identifier: Apache-2.0
// SPDX-FileCopyrightText: Copyright the Vortex contributors

//! Traits of the native Rust types that stand for primitive types and for decimals: how their values are written as
//! bytes and compared, which bounds they have, and for which logical types they stand.
//!
//! The following is proved:
//! - The primitive type, the width and the range of each native integer type are those in the table of primitive types.
//! - The values of each native integer type are written as little-endian bytes, and read back from them. They are
//!   compared as whole numbers.
//! - `max_by_precision` and `min_by_precision` of each native decimal type return the greatest and the least number
//!   with a given number of digits.
//! - Each `match_each_..` function returns an answer that the visitor allows for the primitive type that was passed.
//!
//! Begin with `NativePType`, `ToBytes` and `PTypeVisitor`. Then read `NativeDecimalType`, `PrecisionScale` and
//! `NativeDType`.
//!
//! The definitions are in `specs/`:
//! - `LittleEndian`: the bytes of a number.
//! - `Offsets`: the narrowest type for an offset.
//! - `Digits`: the numbers with a given number of digits.
//! - `NativeTypes`: the logical type for which a native type stands.
//! - `NumberLaws`: the proofs of the laws of the traits, which the impls cite.
#![tactic(auto)]

mod integer_ptype;
pub mod laws;
mod native_decimal_type;
mod native_dtype;
mod native_ptype;
mod precision_scale;
mod ptype_visitor;
mod to_bytes;
mod try_from_bytes;

pub use integer_ptype::{IntegerPType, OffsetBuilderPType, PhysicalPType, UnsignedPType};
pub use native_decimal_type::NativeDecimalType;
pub use native_dtype::NativeDType;
pub use native_ptype::NativePType;
pub use precision_scale::PrecisionScale;
pub use ptype_visitor::{
    PTypeVisitor, match_each_float_ptype, match_each_integer_ptype, match_each_native_ptype,
    match_each_native_simd_ptype, match_each_signed_integer_ptype,
    match_each_unsigned_integer_ptype, match_smallest_list_offset_type, match_smallest_offset_type,
};
pub use to_bytes::ToBytes;
pub use try_from_bytes::TryFromBytes;
