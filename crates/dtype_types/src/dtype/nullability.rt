// SPDX-License-Identifier: Apache-2.0
// SPDX-FileCopyrightText: Copyright the Vortex contributors

// The outer nullability of a type, and the calls that return the type with another outer nullability.
#![tactic(auto, using(crate::proofs::SameParts::set_parts, crate::proofs::SameParts::nonnullable_can))]

ghost use Rattle.std.specs.Prelude.{◌≡◌, ◌↔◌, IfOk, IsTrue};
ghost use Rattle.dtype_base.specs.Errors.{Makes};
ghost use Rattle.dtype_base.specs.Nullability.{either};
ghost use Rattle.dtype_types.specs.nullability.Nullable.{nullability, CanBeNonNullable, SetNull, IsNullable};
ghost use Rattle.dtype_types.specs.tree.TreeOf.{tree};
ghost use Rattle.dtype_types.specs.values.Value.{AddsNull};

use crate::DType;
use crate::dtype::copies::boxed_copy;
use dtype_base::{Nullability, VortexResult};
use std::alloc::Global;

impl DType {
    /// Returns the outer nullability of the type. For example, it returns `NonNullable` for `list(i32?)`, because only
    /// the elements are nullable. `Null` is nullable, and an extension has the outer nullability of its storage type.
    #[cycle(nullability)]
    pub fn nullability(&self) -> Nullability
        ensures { result ≡ nullability (tree self.now) }
    {
        match self {
            DType::Null => Nullability::Nullable,
            DType::Bool(n)
            | DType::Primitive(_, n)
            | DType::Decimal(_, n)
            | DType::Utf8(n)
            | DType::Binary(n)
            | DType::List(_, n)
            | DType::FixedSizeList(_, _, n)
            | DType::Map(_, n)
            | DType::Struct(_, n)
            | DType::Union(_, n)
            | DType::Variant(n) => *n,
            DType::Extension(extension) => extension.nullability(),
        }
    }

    /// Returns whether the outer nullability is `Nullable`. A value of the type can be null exactly if it is. For
    /// example, it returns `true` for `list(i32)?` and `false` for `list(i32?)`.
    pub fn is_nullable(&self) -> bool
        ensures { IsTrue result ↔ IsNullable (tree self.now) }
    {
        self.nullability().is_nullable()
    }

    /// Returns whether the type can be made non-nullable. `Null` can't be made non-nullable, and an extension can
    /// exactly if its storage type can. Every other type can.
    #[cycle(can_be_nonnullable)]
    pub fn can_be_nonnullable(&self) -> bool
        ensures { IsTrue result ↔ CanBeNonNullable (tree self.now) }
    {
        match self {
            DType::Null => false,
            DType::Bool(_)
            | DType::Primitive(_, _)
            | DType::Decimal(_, _)
            | DType::Utf8(_)
            | DType::Binary(_)
            | DType::List(_, _)
            | DType::FixedSizeList(_, _, _)
            | DType::Map(_, _)
            | DType::Struct(_, _)
            | DType::Union(_, _)
            | DType::Variant(_) => true,
            DType::Extension(extension) => extension.can_be_nonnullable(),
        }
    }

    /// Returns the type with its outer nullability set to `NonNullable`. For example, it returns `list(i32?)` for
    /// `list(i32?)?`. The caller must prove that the type can be made non-nullable, which `can_be_nonnullable` tests.
    ///
    /// # Errors
    ///
    /// - `OutOfMemory` (0): an allocation fails, or a reference count is at its maximum.
    pub fn as_nonnullable(&self, alloc: Global) -> VortexResult<DType>
        requires { CanBeNonNullable (tree self.now) }
        ensures { Makes result (λ d. SetNull (tree self.now) Nullability.NonNullable (tree d)) }
    {
        self.with_nullability(alloc, Nullability::NonNullable)
    }

    /// Returns the type with its outer nullability set to `Nullable`. The values of the returned type are the values of
    /// this type and null.
    ///
    /// # Errors
    ///
    /// - `OutOfMemory` (0): an allocation fails, or a reference count is at its maximum.
    #[tactic(auto, using(crate::proofs::lemmas::NullValues::made_nullable))]
    pub fn as_nullable(&self, alloc: Global) -> VortexResult<DType>
        ensures ok { Makes result (λ d. SetNull (tree self.now) Nullability.Nullable (tree d)) }
        ensures values { IfOk result (λ d. AddsNull (tree self.now) (tree d)) }
    {
        self.with_nullability(alloc, Nullability::Nullable)
    }

    /// Returns the type with its outer nullability set to `n`. For an extension, the outer nullability of its storage
    /// type is set. `Null` stays `Null`. If `n` is `NonNullable`, the caller must prove that the type can be made
    /// non-nullable, which `can_be_nonnullable` tests.
    ///
    /// # Errors
    ///
    /// - `OutOfMemory` (0): an allocation fails, or a reference count is at its maximum.
    #[cycle(with_nullability)]
    pub fn with_nullability(&self, alloc: Global, n: Nullability) -> VortexResult<DType>
        requires { n ≡ Nullability.NonNullable → CanBeNonNullable (tree self.now) }
        ensures { Makes result (λ d. SetNull (tree self.now) n (tree d)) }
    {
        match self {
            DType::Null => Ok(DType::Null),
            DType::Bool(_) => Ok(DType::Bool(n)),
            DType::Primitive(ptype, _) => Ok(DType::Primitive(*ptype, n)),
            DType::Decimal(decimal, _) => Ok(DType::Decimal(*decimal, n)),
            DType::Utf8(_) => Ok(DType::Utf8(n)),
            DType::Binary(_) => Ok(DType::Binary(n)),
            DType::List(element, _) => Ok(DType::List(boxed_copy(alloc, element)?, n)),
            DType::FixedSizeList(element, size, _) => {
                Ok(DType::FixedSizeList(boxed_copy(alloc, element)?, *size, n))
            }
            DType::Map(map, _) => Ok(DType::Map(map.try_clone(alloc)?, n)),
            DType::Struct(fields, _) => Ok(DType::Struct(fields.try_clone(alloc)?, n)),
            DType::Union(variants, _) => Ok(DType::Union(variants.try_clone(alloc)?, n)),
            DType::Variant(_) => Ok(DType::Variant(n)),
            DType::Extension(extension) => {
                Ok(DType::Extension(extension.with_nullability(alloc, n)?))
            }
        }
    }

    /// Returns the type with its outer nullability set to `Nullable` if the type is nullable or `n` is `Nullable`, and
    /// to `NonNullable` otherwise. For example, it returns `i32?` for `i32?` and `NonNullable`.
    ///
    /// # Errors
    ///
    /// - `OutOfMemory` (0): an allocation fails, or a reference count is at its maximum.
    pub fn union_nullability(&self, alloc: Global, n: Nullability) -> VortexResult<DType>
        ensures { Makes result (λ d. SetNull (tree self.now) (either (nullability (tree self.now)) n) (tree d)) }
    {
        self.with_nullability(alloc, self.nullability() | n)
    }
}
