// SPDX-License-Identifier: Apache-2.0
// SPDX-FileCopyrightText: Copyright the Vortex contributors

// Theorems about the definitions: each function's contract is the theorem, and its body is empty.
ghost use Rattle.std.specs.Prelude.{◌≡◌, ◌↔◌, ℕ, List, None, Some, codes, length};
ghost use Rattle.std.specs.Bool.{Decides};
ghost use Rattle.std.specs.Iterator.{UpTo};
ghost use Rattle.std.specs.Iterator.Runs.{YieldsInOrder, YieldsRefsInOrder};
ghost use Rattle.std.specs.Ordering.{nat_cmp};
ghost use Rattle.dtype_base.specs.Bytes.{Bytes};
ghost use Rattle.dtype_base.specs.Primitives.{ptype_row};
ghost use Rattle.dtype_base.specs.Decimals.{Decimal, storage};
ghost use Rattle.dtype_base.specs.FieldNames.{FirstAt, IsAbsent, first_place};
ghost use Rattle.dtype_base.specs.declared.nullability.Nullability.{Nullability};
ghost use Rattle.dtype_base.specs.declared.nullability.Nullability.TheVariants.{NonNullable};
ghost use Rattle.dtype_base.specs.declared.ptype.PType.{PType};
ghost use Rattle.dtype_base.specs.declared.decimal.DecimalType.{DecimalType};
ghost use Rattle.dtype_base.specs.declared.vortex_error.VortexError.{VortexError};
ghost use Rattle.dtype_base.specs.declared.vortex_error.MessageFault.{MessageFault};

use crate::{
    DecimalDType, DecimalType, FieldName, FieldNames, FieldNamesIntoIter, FieldNamesIter,
    MessageFault, Nullability, PType, RESERVED_VALIDITY_FIELD_NAME, VortexError,
};

/// For all primitive types `p` and `q`, `cmp` orders `p` and `q` in the same way as it orders their numbers. For
/// example, `u8` (number 0) is less than `i8` (number 4), and `i64` (number 7) is less than `f16` (number 8). With this
/// law a caller can sort primitive types and know the resulting order.
///
/// About [`PType`].
pub fn primitive_names_are_ordered_by_number()
    ensures { (p q : PType) → ⟦<PType as Ord>⟧.cmp p q
        ≡ nat_cmp (ptype_row p).number (ptype_row q).number }
{}

/// For all storage types `s` and `t` of decimals, `cmp` orders `s` and `t` in the same way as it orders their numbers.
/// So a narrower storage type is less than a wider one. For example, `i64` (number 3) is less than `i128` (number 4). A
/// caller needs this law to conclude from `s <= t` that `t` is at least as wide as `s`.
///
/// About [`DecimalType`].
pub fn storage_types_are_ordered_by_number()
    ensures { (s t : DecimalType) → ⟦<DecimalType as Ord>⟧.cmp s t
        ≡ nat_cmp (storage s).number (storage t).number }
{}

/// For all `a` and `b` that are two nullabilities, two primitive types, two storage types or two decimal types,
/// `a == b` is true exactly if `a` and `b` are the same value. For example, two decimal types are equal exactly if they
/// have the same precision and the same scale. With this law a caller can conclude from a test by `==` that two values
/// are the same in contracts.
///
/// About [`Nullability`], [`PType`], [`DecimalType`] and [`DecimalDType`].
pub fn equal_where_the_same()
    ensures nullabilities { (a b : Nullability)
        → Decides (⟦<Nullability as PartialEq>⟧.eq a b) (a ≡ b) }
    ensures primitive_types { (a b : PType)
        → Decides (⟦<PType as PartialEq>⟧.eq a b) (a ≡ b) }
    ensures storage_types { (a b : DecimalType)
        → Decides (⟦<DecimalType as PartialEq>⟧.eq a b) (a ≡ b) }
    ensures decimals { (a b : Decimal)
        → Decides (⟦<DecimalDType as PartialEq>⟧.eq a b) (a ≡ b) }
{}

/// For all `a` and `b` that are two nullabilities, two primitive types, two storage types or two decimal types: if
/// `a.clone()` returns `b`, then `b` is the same value as `a`. For example, a clone of `decimal(10,2)` is
/// `decimal(10,2)`. A caller needs this law to conclude that what it has proved about a value is also true of its
/// clone.
///
/// About [`Nullability`], [`PType`], [`DecimalType`] and [`DecimalDType`].
pub fn clones_are_the_same()
    ensures nullabilities { (a b : Nullability)
        → ⟦<Nullability as Clone>⟧.is_clone a b → b ≡ a }
    ensures primitive_types { (a b : PType)
        → ⟦<PType as Clone>⟧.is_clone a b → b ≡ a }
    ensures storage_types { (a b : DecimalType)
        → ⟦<DecimalType as Clone>⟧.is_clone a b → b ≡ a }
    ensures decimals { (a b : Decimal)
        → ⟦<DecimalDType as Clone>⟧.is_clone a b → b ≡ a }
{}

/// For all names `a` and `b`, `a == b` is true exactly if their texts have the same bytes. For all lists of names `a`
/// and `b`, `a == b` is true exactly if they contain the same names in the same order. For example, `["x", "y"]` isn't
/// equal to `["y", "x"]`. With this law a caller can conclude from a test by `==` that two names or two lists of names
/// are the same in contracts.
///
/// About [`FieldName`] and [`FieldNames`].
pub fn names_are_equal_where_their_bytes_are()
    ensures names { (a b : List ℕ) → Decides (⟦<FieldName as PartialEq>⟧.eq a b) (a ≡ b) }
    ensures lists { (a b : List (List ℕ)) → Decides (⟦<FieldNames as PartialEq>⟧.eq a b) (a ≡ b) }
{}

/// For all `a` and `b` that are two errors or two message faults, `a == b` is true exactly if `a` and `b` are the same
/// variant with the same values. For example, `FieldNotFound { position: 0 }` isn't equal to
/// `FieldNotFound { position: 1 }`. With this law a caller can test by `==` which error a call returned, and then use
/// what the contract of the call specifies for that error.
///
/// About [`VortexError`] and [`MessageFault`].
pub fn errors_are_equal_where_the_same()
    ensures kinds { (a b : VortexError) → Decides (⟦<VortexError as PartialEq>⟧.eq a b) (a ≡ b) }
    ensures faults { (a b : MessageFault)
        → Decides (⟦<MessageFault as PartialEq>⟧.eq a b) (a ≡ b) }
{}

/// For each slice `bytes` of `u8`, the list of numbers that stands for the slice in contracts is a list of bytes
/// (`Bytes`), which means that each number is below 256. For example, the bytes of the text `a` are the list with the
/// single number 97. A caller calls this law if a definition requires `Bytes`. For example, `Valid` requires it of the
/// metadata of an extension type.
///
/// About [`FieldName::as_str`].
pub fn slices_hold_bytes(bytes: &[u8])
    ensures { Bytes bytes.now }
{
    let _ = bytes;
}

/// For each iterator over names whose remaining names are the list `left`, the calls of `next` return the names in
/// `left`, in order, and then `None`. This is so for both iterators, the one over references and the one over the names
/// themselves. For example, the calls of `next` on an iterator over `["x", "y"]` return `x`, then `y`, then `None`. A
/// caller needs this law to know which names a `for` loop visits, and that the loop ends.
///
/// About [`FieldNames::iter`] and [`FieldNames::into_iter`].
pub fn names_are_given_in_order()
    ensures lent { YieldsRefsInOrder ⟦<FieldNamesIter<'static> as Iterator>⟧.next_gives (λ left. left) }
    ensures borrowed_end { (left : List (List ℕ))
        → UpTo (⟦<FieldNamesIter<'static> as Iterator>⟧.remaining left) (length left) }
    ensures given_up { YieldsInOrder ⟦<FieldNamesIntoIter as Iterator>⟧.next_gives (λ left. left) }
    ensures given_up_end { (left : List (List ℕ))
        → UpTo (⟦<FieldNamesIntoIter as Iterator>⟧.remaining left) (length left) }
{}

/// For each list `names`, each name `name` and each position `i`, `first_place names name` is `Some i` exactly if `i`
/// is the first position of `name` in `names`. It is `None` exactly if `name` isn't in `names`. For example, the first
/// position of `a` in `["b", "a", "a"]` is 1. The contracts of the lookups by name specify their results by
/// `first_place`, so a caller needs this law to know what a lookup returns.
///
/// About [`FieldNames::find`] and [`IndexedNames::find_counted`].
pub fn lookups_give_the_first_position()
    ensures position { (names : List (List ℕ)) (name : List ℕ) (i : ℕ)
        → (first_place names name ≡ Some i) ↔ FirstAt names name i }
    ensures none { (names : List (List ℕ)) (name : List ℕ)
        → (first_place names name ≡ None) ↔ IsAbsent names name }
{}

/// For each nullability `n`, if `Nullability::default()` returns `n`, then `n` is `NonNullable`. For example,
/// `DType::Bool(Nullability::default())` is `bool` and not `bool?`. A caller needs this law to know the nullability of
/// a type that is made with the default.
///
/// About [`Nullability`].
pub fn default_nullability_is_non_nullable()
    ensures { (n : Nullability) → ⟦<Nullability as Default>⟧.is_default n → n ≡ NonNullable }
{}

/// The constant `RESERVED_VALIDITY_FIELD_NAME` is the text `$__vortex_validity`. For example, if a caller has tested
/// that a name is equal to the constant, it can conclude by this law which bytes the name has.
///
/// About [`RESERVED_VALIDITY_FIELD_NAME`].
pub fn reserved_field_name_is_its_text()
    ensures { RESERVED_VALIDITY_FIELD_NAME.now ≡ codes "$__vortex_validity" }
{}
