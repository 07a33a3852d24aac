// SPDX-License-Identifier: Apache-2.0
// SPDX-FileCopyrightText: Copyright the Vortex contributors

//! The laws of `==` on messages, which state when two messages are equal. Each law is the contract of a function whose
//! body is empty.
#![tactic(auto, using(crate::proofs::lemmas::Equality::equality))]

ghost use Rattle.std.specs.Prelude.{◌≡◌};
ghost use Rattle.std.specs.Bool.{Decides};
ghost use Rattle.dtype_messages.specs.MessageOf.{message, kind_message, list_content, fixed_content, map_content, struct_content, union_content, extension_content};
ghost use Rattle.dtype_messages.specs.PathNames.{name_of, part_name, part_names};

use crate::pb::{
    Binary, Bool, DType, Decimal, DtypeType, Extension, Field, FieldPath, FieldType, FixedSizeList,
    List, Map, Null, PType, Primitive, Struct, Union, Utf8, Variant,
};

/// For all `a` and `b` that are two messages of types (`pb::DType`) or two kinds (`pb::DtypeType`), `a == b` is true
/// exactly if `a` and `b` have the same tree. The tree of a message consists of its kind, its fields and the trees of
/// the messages inside it. For example, the messages of `list(i32)` and `list(i32?)` aren't equal, because the trees of
/// their element types differ. Contracts specify by the tree how a message is read, so with this law a caller can
/// conclude from a test by `==` that two messages are read as the same type.
///
/// About [`pb::DType`].
pub fn equal_where_trees_are()
    ensures types { (a b : DType) → Decides (⟦<DType as PartialEq>⟧.eq a b) (message a ≡ message b) }
    ensures kinds { (a b : DtypeType)
        → Decides (⟦<DtypeType as PartialEq>⟧.eq a b) (kind_message a ≡ kind_message b) }
{}

/// For all `a` and `b` that are two `pb::List`, two `pb::FixedSizeList`, two `pb::Map`, two `pb::Struct`, two
/// `pb::Union` or two `pb::Extension`, `a == b` is true exactly if all fields of `a` and `b` are equal. A message
/// inside a field is compared by its tree. For example, two list messages are equal exactly if the trees of their
/// element types are equal and their flags `nullable` are equal. With this law a caller can compare two `pb::List`
/// without putting each into a `pb::DType`.
///
/// About [`pb::DtypeType`], [`pb::List`], [`pb::FixedSizeList`], [`pb::Map`], [`pb::Struct`], [`pb::Union`] and
/// [`pb::Extension`].
pub fn equal_where_contents_are()
    ensures lists { (a b : List)
        → Decides (⟦<List as PartialEq>⟧.eq a b) (list_content a ≡ list_content b) }
    ensures fixed_size_lists { (a b : FixedSizeList)
        → Decides (⟦<FixedSizeList as PartialEq>⟧.eq a b) (fixed_content a ≡ fixed_content b) }
    ensures maps { (a b : Map)
        → Decides (⟦<Map as PartialEq>⟧.eq a b) (map_content a ≡ map_content b) }
    ensures structs { (a b : Struct)
        → Decides (⟦<Struct as PartialEq>⟧.eq a b) (struct_content a ≡ struct_content b) }
    ensures unions { (a b : Union)
        → Decides (⟦<Union as PartialEq>⟧.eq a b) (union_content a ≡ union_content b) }
    ensures extensions { (a b : Extension)
        → Decides (⟦<Extension as PartialEq>⟧.eq a b) (extension_content a ≡ extension_content b) }
{}

/// For all `a` and `b` that are two `pb::Null`, two `pb::Bool`, two `pb::Primitive`, two `pb::Decimal`, two `pb::Utf8`,
/// two `pb::Binary`, two `pb::Variant` or two `pb::PType`, `a == b` is true exactly if `a` and `b` are the same value.
/// For example, two decimal messages are equal exactly if their precisions, their scales and their flags `nullable` are
/// equal. With this law a caller can conclude from a test by `==` that two such messages are the same in contracts.
///
/// About [`pb::Null`], [`pb::Bool`], [`pb::Primitive`], [`pb::Decimal`], [`pb::Utf8`], [`pb::Binary`], [`pb::Variant`]
/// and [`pb::PType`].
pub fn equal_where_fields_are()
    ensures nulls { (a b : Null) → Decides (⟦<Null as PartialEq>⟧.eq a b) (a ≡ b) }
    ensures bools { (a b : Bool) → Decides (⟦<Bool as PartialEq>⟧.eq a b) (a ≡ b) }
    ensures primitives { (a b : Primitive)
        → Decides (⟦<Primitive as PartialEq>⟧.eq a b) (a ≡ b) }
    ensures decimals { (a b : Decimal)
        → Decides (⟦<Decimal as PartialEq>⟧.eq a b) (a ≡ b) }
    ensures utf8s { (a b : Utf8) → Decides (⟦<Utf8 as PartialEq>⟧.eq a b) (a ≡ b) }
    ensures binaries { (a b : Binary) → Decides (⟦<Binary as PartialEq>⟧.eq a b) (a ≡ b) }
    ensures variants { (a b : Variant)
        → Decides (⟦<Variant as PartialEq>⟧.eq a b) (a ≡ b) }
    ensures numbers { (a b : PType) → Decides (⟦<PType as PartialEq>⟧.eq a b) (a ≡ b) }
{}

/// For all path messages `a` and `b`, `a == b` is true exactly if their parts contain the same names in the same order.
/// Two parts are equal exactly if they contain the same name, or if neither of them contains a name. For example, the
/// messages of the paths `a.b` and `b.a` aren't equal. With this law a caller can conclude from a test by `==` that two
/// messages are read as the same path.
///
/// About [`pb::FieldPath`].
pub fn paths_equal_where_names_are()
    ensures paths { (a b : FieldPath)
        → Decides (⟦<FieldPath as PartialEq>⟧.eq a b) (part_names a ≡ part_names b) }
    ensures parts { (a b : Field)
        → Decides (⟦<Field as PartialEq>⟧.eq a b) (part_name a ≡ part_name b) }
    ensures names { (a b : FieldType)
        → Decides (⟦<FieldType as PartialEq>⟧.eq a b) (name_of a ≡ name_of b) }
{}
