// SPDX-License-Identifier: Apache-2.0
// SPDX-FileCopyrightText: Copyright the Vortex contributors

// Theorems about the numeric traits, for every type that implements them, and about their constants. Each function's
// contract is the theorem.
#![tactic(auto, using(crate::proofs::Bytes::length_little_endian))]

ghost use Rattle.std.specs.Prelude.{◌≡◌, Ok, Result, codes};
ghost use Rattle.std.specs.Bool.{Decides};
ghost use Rattle.dtype_base.specs.Decimals.{Decimal};
ghost use Rattle.dtype_base.specs.declared.vortex_error.VortexError.{VortexError};
ghost use Rattle.dtype_native.specs.LittleEndian.{ReadsBytes, little_endian};

use crate::{NativeDecimalType, PrecisionScale, TryFromBytes};

/// For each native integer type `T` and each value `x` of `T`, `try_from_le_bytes` returns `Ok(x)` for the bytes that
/// `to_le_bytes` returns for `x`. For example, the `u16` 258 is written as the bytes 2, 1, and these bytes are read as
/// 258. With this law a caller can conclude that a number that was stored by `to_le_bytes` is loaded unchanged by
/// `try_from_le_bytes`.
///
/// About [`TryFromBytes::try_from_le_bytes`] and [`ToBytes::to_le_bytes`].
pub fn written_bytes_read_back<T: TryFromBytes>()
    ensures { (x : T) (r : Result T VortexError) → T.fits (T.value x)
        → ReadsBytes T.byte_width T.value T.fits (little_endian T.byte_width (T.value x)) r
        → r ≡ Ok x }
{}

/// For each native decimal type `D` and all `a` and `b` of type `PrecisionScale<D>`, `a == b` is true exactly if `a`
/// and `b` have the same precision and the same scale. For example, if both have the precision 4, but `a` has the scale
/// 2 and `b` has the scale 1, then they aren't equal. With this law a caller can conclude from a test by `==` that two
/// values are the same in contracts.
///
/// About [`PrecisionScale`].
pub fn precision_scales_are_equal_where_they_are<D: NativeDecimalType>()
    ensures { (a b : Decimal) → Decides (⟦<PrecisionScale<D> as PartialEq>⟧.eq a b) (a ≡ b) }
{}

/// For each native decimal type `D` and all `a` and `b` of type `PrecisionScale<D>`: if `a.clone()` returns `b`, then
/// `b` is the same value as `a`. For example, if `a` has the precision 4 and the scale 2, then so has its clone. A
/// caller needs this law to conclude that what it has proved about a value is also true of its clone.
///
/// About [`PrecisionScale`].
pub fn clones_of_precision_scales_are_the_same<D: NativeDecimalType>()
    ensures { (a b : Decimal) → ⟦<PrecisionScale<D> as Clone>⟧.is_clone a b → b ≡ a }
{}

/// The constant `NAME` of each native decimal type is the text of its storage type. For example,
/// `<i32 as NativeDecimalType>::NAME` is the text `i32`. If a program prints such a constant, a caller needs this law
/// to prove what is printed.
///
/// The function returns the five constants, because its contract specifies them as parts of its result. They are in the
/// order `i8`, `i16`, `i32`, `i64`, `i128`.
///
/// About [`NativeDecimalType`].
pub fn names_of_native_decimals_are_their_texts() -> (
    &'static str,
    &'static str,
    &'static str,
    &'static str,
    &'static str,
)
    ensures of_i8 { result.0.now ≡ codes "i8" }
    ensures of_i16 { result.1.now ≡ codes "i16" }
    ensures of_i32 { result.2.now ≡ codes "i32" }
    ensures of_i64 { result.3.now ≡ codes "i64" }
    ensures of_i128 { result.4.now ≡ codes "i128" }
{
    (
        <i8 as NativeDecimalType>::NAME,
        <i16 as NativeDecimalType>::NAME,
        <i32 as NativeDecimalType>::NAME,
        <i64 as NativeDecimalType>::NAME,
        <i128 as NativeDecimalType>::NAME,
    )
}
