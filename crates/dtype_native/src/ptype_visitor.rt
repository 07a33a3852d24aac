// SPDX-License-Identifier: Apache-2.0
// SPDX-FileCopyrightText: Copyright the Vortex contributors

ghost use Rattle.std.specs.Prelude.{◌≢◌, [], ◌∷◌, ⊤};
ghost use Rattle.dtype_base.specs.declared.ptype.PType.{PType};
ghost use Rattle.dtype_base.specs.declared.ptype.PType.TheVariants.{U8, U16, U32, U64, I8, I16, I32, I64, F16};
ghost use Rattle.dtype_base.specs.Primitives.{IsFloat, IsInteger, IsSigned, IsUnsigned};
ghost use Rattle.dtype_native.specs.Offsets.{AnswersLeast};

use dtype_base::PType;

/// A visitor of primitive types. It has one method for each native integer type, and a method `visit_float` that takes
/// one of the three floating-point types.
///
/// A caller implements the trait and passes a primitive type and a visitor to a `match_each_..` function. The function
/// calls the method for that primitive type and returns what the method returns. In vortex-array, `match_each_..` are
/// macros, and their body is generic over the native type.
pub trait PTypeVisitor: Sized {
    /// The type of the value that each method returns.
    type Answer;

    // Whether an answer is right for this visitor and this primitive type. The `match_each_..` functions ensure it of
    // what they return.
    ghost answers: { Self → PType → Self.Answer → Type 0 } = { λ _ _ _. ⊤ };

    /// Returns the visitor's answer for `u8`.
    fn visit_u8(self) -> Self::Answer
        ensures { answers self U8 result };

    /// Returns the visitor's answer for `u16`.
    fn visit_u16(self) -> Self::Answer
        ensures { answers self U16 result };

    /// Returns the visitor's answer for `u32`.
    fn visit_u32(self) -> Self::Answer
        ensures { answers self U32 result };

    /// Returns the visitor's answer for `u64`.
    fn visit_u64(self) -> Self::Answer
        ensures { answers self U64 result };

    /// Returns the visitor's answer for `i8`.
    fn visit_i8(self) -> Self::Answer
        ensures { answers self I8 result };

    /// Returns the visitor's answer for `i16`.
    fn visit_i16(self) -> Self::Answer
        ensures { answers self I16 result };

    /// Returns the visitor's answer for `i32`.
    fn visit_i32(self) -> Self::Answer
        ensures { answers self I32 result };

    /// Returns the visitor's answer for `i64`.
    fn visit_i64(self) -> Self::Answer
        ensures { answers self I64 result };

    /// Returns the visitor's answer for the floating-point type `ptype`: `F16`, `F32` or `F64`. If `ptype` is another
    /// type, the contract doesn't specify the result.
    fn visit_float(self, ptype: PType) -> Self::Answer
        ensures { IsFloat ptype → answers self ptype result };
}

/// Calls the visitor's method for this primitive type and returns its answer. For example, it calls `visit_u8` for
/// `U8`, and `visit_float` for `F64`.
pub fn match_each_native_ptype<V: PTypeVisitor>(ptype: PType, visitor: V) -> V::Answer
    ensures { V.answers visitor ptype result }
{
    match ptype {
        PType::U8 | PType::U16 | PType::U32 | PType::U64 => {
            match_each_unsigned_integer_ptype(ptype, visitor)
        }
        PType::I8 | PType::I16 | PType::I32 | PType::I64 => {
            match_each_signed_integer_ptype(ptype, visitor)
        }
        PType::F16 | PType::F32 | PType::F64 => match_each_float_ptype(ptype, visitor),
    }
}

/// Calls the visitor's method for this integer type and returns its answer. The caller must prove that `ptype` is an
/// integer type.
pub fn match_each_integer_ptype<V: PTypeVisitor>(ptype: PType, visitor: V) -> V::Answer
    requires { IsInteger ptype }
    ensures { V.answers visitor ptype result }
{
    if ptype.is_signed_int() {
        match_each_signed_integer_ptype(ptype, visitor)
    } else {
        match_each_unsigned_integer_ptype(ptype, visitor)
    }
}

/// Calls the visitor's method for this unsigned integer type and returns its answer. The caller must prove that `ptype`
/// is an unsigned integer type.
pub fn match_each_unsigned_integer_ptype<V: PTypeVisitor>(ptype: PType, visitor: V) -> V::Answer
    requires { IsUnsigned ptype }
    ensures { V.answers visitor ptype result }
{
    match ptype {
        PType::U8 => visitor.visit_u8(),
        PType::U16 => visitor.visit_u16(),
        PType::U32 => visitor.visit_u32(),
        PType::U64 => visitor.visit_u64(),
        _ => unreachable!(),
    }
}

/// Calls the visitor's method for this signed integer type and returns its answer. The caller must prove that `ptype`
/// is a signed integer type.
pub fn match_each_signed_integer_ptype<V: PTypeVisitor>(ptype: PType, visitor: V) -> V::Answer
    requires { IsSigned ptype }
    ensures { V.answers visitor ptype result }
{
    match ptype {
        PType::I8 => visitor.visit_i8(),
        PType::I16 => visitor.visit_i16(),
        PType::I32 => visitor.visit_i32(),
        PType::I64 => visitor.visit_i64(),
        _ => unreachable!(),
    }
}

/// Calls the visitor's `visit_float` with this floating-point type and returns its answer. The caller must prove that
/// `ptype` is a floating-point type.
pub fn match_each_float_ptype<V: PTypeVisitor>(ptype: PType, visitor: V) -> V::Answer
    requires { IsFloat ptype }
    ensures { V.answers visitor ptype result }
{
    visitor.visit_float(ptype)
}

/// Calls the visitor's method for this primitive type and returns its answer. The caller must prove that `ptype` isn't
/// `F16`, because `F16` is the only primitive type without SIMD lanes.
pub fn match_each_native_simd_ptype<V: PTypeVisitor>(ptype: PType, visitor: V) -> V::Answer
    requires { ptype ≢ F16 }
    ensures { V.answers visitor ptype result }
{
    match_each_native_ptype(ptype, visitor)
}

/// Calls the visitor's method for the narrowest of `u8`, `u16`, `u32` and `u64` that can hold the offset `n`, and
/// returns its answer. For example, it calls `visit_u8` for 255 and `visit_u16` for 256.
pub fn match_smallest_offset_type<V: PTypeVisitor>(n: usize, visitor: V) -> V::Answer
    ensures { AnswersLeast (V.answers visitor) (U8 ∷ U16 ∷ U32 ∷ U64 ∷ []) n result }
{
    if n <= usize::from(u8::MAX) {
        visitor.visit_u8()
    } else if n <= usize::from(u16::MAX) {
        visitor.visit_u16()
    } else if n <= u32::MAX as usize {
        visitor.visit_u32()
    } else {
        visitor.visit_u64()
    }
}

/// Calls `visit_u32` if the offset `n` is at most `u32::MAX`, and otherwise `visit_u64`, and returns the answer of that
/// method. The offsets of a list are stored in one of these two types.
pub fn match_smallest_list_offset_type<V: PTypeVisitor>(n: usize, visitor: V) -> V::Answer
    ensures { AnswersLeast (V.answers visitor) (U32 ∷ U64 ∷ []) n result }
{
    if n <= u32::MAX as usize {
        visitor.visit_u32()
    } else {
        visitor.visit_u64()
    }
}
