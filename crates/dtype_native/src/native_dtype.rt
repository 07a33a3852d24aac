// SPDX-License-Identifier: Apache-2.0
// SPDX-FileCopyrightText: Copyright the Vortex contributors

ghost use Rattle.std.specs.Prelude.{◌≡◌, IfOk};
ghost use Rattle.dtype_base.specs.Errors.{Makes};
ghost use Rattle.dtype_base.specs.declared.nullability.Nullability.TheVariants.{NonNullable};
ghost use Rattle.dtype_base.specs.declared.ptype.PType.TheVariants.{U8, U16, U32, U64, I8, I16, I32, I64};
ghost use Rattle.dtype_native.specs.NativeTypes.{nullable_form};
ghost use Rattle.dtype_types.specs.tree.Valid.{Valid};
ghost use Rattle.dtype_types.specs.tree.TreeOf.{tree};
ghost use Rattle.dtype_types.specs.tree.Tree.{Tree, binary, bool, list, primitive, utf8};

use crate::NativePType;
use dtype_base::{Nullability, VortexResult};
use dtype_types::DType;
use std::alloc::Global;

/// A native type that stands for one logical type. For example, `Vec<Option<i32>>` stands for `list(i32?)`.
pub trait NativeDType {
    // The tree of the logical type.
    ghost native_tree: { Tree };

    /// Returns the logical type for which the native type stands. The logical type is nullable exactly if the native
    /// type is an `Option`.
    ///
    /// # Errors
    ///
    /// - `OutOfMemory` (0): an allocation fails.
    fn dtype(alloc: Global) -> VortexResult<DType>
        ensures ok { Makes result (λ d. tree d ≡ native_tree) }
        ensures valid { IfOk result (λ d. Valid (tree d)) };
}

impl NativeDType for u8 {
    ghost native_tree = { primitive U8 NonNullable };

    fn dtype(_alloc: Global) -> VortexResult<DType> {
        Ok(DType::from(u8::PTYPE))
    }
}

impl NativeDType for u16 {
    ghost native_tree = { primitive U16 NonNullable };

    fn dtype(_alloc: Global) -> VortexResult<DType> {
        Ok(DType::from(u16::PTYPE))
    }
}

impl NativeDType for u32 {
    ghost native_tree = { primitive U32 NonNullable };

    fn dtype(_alloc: Global) -> VortexResult<DType> {
        Ok(DType::from(u32::PTYPE))
    }
}

impl NativeDType for u64 {
    ghost native_tree = { primitive U64 NonNullable };

    fn dtype(_alloc: Global) -> VortexResult<DType> {
        Ok(DType::from(u64::PTYPE))
    }
}

impl NativeDType for i8 {
    ghost native_tree = { primitive I8 NonNullable };

    fn dtype(_alloc: Global) -> VortexResult<DType> {
        Ok(DType::from(i8::PTYPE))
    }
}

impl NativeDType for i16 {
    ghost native_tree = { primitive I16 NonNullable };

    fn dtype(_alloc: Global) -> VortexResult<DType> {
        Ok(DType::from(i16::PTYPE))
    }
}

impl NativeDType for i32 {
    ghost native_tree = { primitive I32 NonNullable };

    fn dtype(_alloc: Global) -> VortexResult<DType> {
        Ok(DType::from(i32::PTYPE))
    }
}

impl NativeDType for i64 {
    ghost native_tree = { primitive I64 NonNullable };

    fn dtype(_alloc: Global) -> VortexResult<DType> {
        Ok(DType::from(i64::PTYPE))
    }
}

impl NativeDType for bool {
    ghost native_tree = { bool NonNullable };

    fn dtype(_alloc: Global) -> VortexResult<DType> {
        Ok(DType::Bool(Nullability::NonNullable))
    }
}

impl NativeDType for String {
    ghost native_tree = { utf8 NonNullable };

    fn dtype(_alloc: Global) -> VortexResult<DType> {
        Ok(DType::Utf8(Nullability::NonNullable))
    }
}

impl NativeDType for &str {
    ghost native_tree = { utf8 NonNullable };

    fn dtype(_alloc: Global) -> VortexResult<DType>
        ensures ok { Makes result (λ d. tree d ≡ utf8 NonNullable) }
        ensures valid { IfOk result (λ d. Valid (tree d)) }
    {
        Ok(DType::Utf8(Nullability::NonNullable))
    }
}

impl NativeDType for &[u8] {
    ghost native_tree = { binary NonNullable };

    fn dtype(_alloc: Global) -> VortexResult<DType>
        ensures ok { Makes result (λ d. tree d ≡ binary NonNullable) }
        ensures valid { IfOk result (λ d. Valid (tree d)) }
    {
        Ok(DType::Binary(Nullability::NonNullable))
    }
}

/// `Option<T>` stands for the nullable form of the type for which `T` stands. For example, `Option<i32>` stands for
/// `i32?`.
impl<T: NativeDType> NativeDType for Option<T> {
    ghost native_tree = { nullable_form T.native_tree };

    #[tactic(auto, using(dtype_types::proofs::lemmas::Validity::validity))]
    fn dtype(alloc: Global) -> VortexResult<DType> {
        T::dtype(alloc)?.as_nullable(alloc)
    }
}

/// `Vec<T>` stands for a non-nullable list type. Its element type is the type for which `T` stands. For example,
/// `Vec<i32>` stands for `list(i32)`.
impl<T: NativeDType> NativeDType for Vec<T> {
    ghost native_tree = { list T.native_tree NonNullable };

    fn dtype(alloc: Global) -> VortexResult<DType> {
        let element = T::dtype(alloc)?;
        Ok(DType::List(Box::new(alloc, element)?, Nullability::NonNullable))
    }
}
