// SPDX-License-Identifier: Apache-2.0
// SPDX-FileCopyrightText: Copyright the Vortex contributors

// The tests of a type's kind, and the parts of each kind. They look only at the outermost variant, and not at the
// storage type of an extension.

ghost use Rattle.std.specs.Prelude.{◌≡◌, ◌↔◌, IsTrue, IsSomeAnd, Some};
ghost use Rattle.std.specs.Option.{option_copied, option_map};
ghost use Rattle.dtype_base.specs.Primitives.{IsUnsigned, IsSigned, IsInteger, IsFloat};
ghost use Rattle.dtype_types.specs.tree.Kinds.{kind, kind_number, primitive_name, decimal_of, struct_fields, union_variants, map_parts, extension_parts, list_element, fixed_size_list_element, any_size_list_element, is_nested};
ghost use Rattle.dtype_types.specs.tree.TreeOf.{tree, children, variant_list, map_shown, shown, extension_tree};
ghost use Rattle.dtype_types.specs.parts.Extensions.{extension_shown};

use crate::{DType, ExtDTypeRef, MapDType, StructFields, UnionVariants};
use dtype_base::{DecimalDType, PType};

/// The kind of a type. There is one kind for each variant of `DType`. For example, the kind of `list(u8)?` is
/// `Kind::List`. If a call accepts types of one kind only, its contract requires that kind. For example,
/// `as_struct_fields` requires `Kind::Struct`.
#[derive(Clone, Copy, Debug, PartialEq, Eq)]
pub enum Kind {
    Null,
    Bool,
    Primitive,
    Decimal,
    Utf8,
    Binary,
    List,
    FixedSizeList,
    Map,
    Struct,
    Union,
    Variant,
    Extension,
}

impl Kind {
    // The number of the kind: 0 to 12.
    pub(crate) fn number(self) -> u8
        ensures { result ≡ kind_number self }
    {
        self as u8
    }
}

impl DType {
    /// Returns the kind of the type, for example `Kind::List` for `list(u8)?`.
    pub fn kind(&self) -> Kind
        ensures { result ≡ kind (tree self.now) }
    {
        match self {
            DType::Null => Kind::Null,
            DType::Bool(_) => Kind::Bool,
            DType::Primitive(_, _) => Kind::Primitive,
            DType::Decimal(_, _) => Kind::Decimal,
            DType::Utf8(_) => Kind::Utf8,
            DType::Binary(_) => Kind::Binary,
            DType::List(_, _) => Kind::List,
            DType::FixedSizeList(_, _, _) => Kind::FixedSizeList,
            DType::Map(_, _) => Kind::Map,
            DType::Struct(_, _) => Kind::Struct,
            DType::Union(_, _) => Kind::Union,
            DType::Variant(_) => Kind::Variant,
            DType::Extension(_) => Kind::Extension,
        }
    }

    /// Returns whether the type is a `Bool`.
    pub fn is_boolean(&self) -> bool
        ensures { IsTrue result ↔ (kind (tree self.now) ≡ Kind.Bool) }
    {
        self.kind() == Kind::Bool
    }

    /// Returns whether the type is a `Primitive`.
    pub fn is_primitive(&self) -> bool
        ensures { IsTrue result ↔ (kind (tree self.now) ≡ Kind.Primitive) }
    {
        self.kind() == Kind::Primitive
    }

    /// Returns whether the type is a `Decimal`.
    pub fn is_decimal(&self) -> bool
        ensures { IsTrue result ↔ (kind (tree self.now) ≡ Kind.Decimal) }
    {
        self.kind() == Kind::Decimal
    }

    /// Returns whether the type is a `Utf8`.
    pub fn is_utf8(&self) -> bool
        ensures { IsTrue result ↔ (kind (tree self.now) ≡ Kind.Utf8) }
    {
        self.kind() == Kind::Utf8
    }

    /// Returns whether the type is a `Binary`.
    pub fn is_binary(&self) -> bool
        ensures { IsTrue result ↔ (kind (tree self.now) ≡ Kind.Binary) }
    {
        self.kind() == Kind::Binary
    }

    /// Returns whether the type is a `List`. A `FixedSizeList` isn't one.
    pub fn is_list(&self) -> bool
        ensures { IsTrue result ↔ (kind (tree self.now) ≡ Kind.List) }
    {
        self.kind() == Kind::List
    }

    /// Returns whether the type is a `FixedSizeList`.
    pub fn is_fixed_size_list(&self) -> bool
        ensures { IsTrue result ↔ (kind (tree self.now) ≡ Kind.FixedSizeList) }
    {
        self.kind() == Kind::FixedSizeList
    }

    /// Returns whether the type is a `Map`.
    pub fn is_map(&self) -> bool
        ensures { IsTrue result ↔ (kind (tree self.now) ≡ Kind.Map) }
    {
        self.kind() == Kind::Map
    }

    /// Returns whether the type is a `Struct`.
    pub fn is_struct(&self) -> bool
        ensures { IsTrue result ↔ (kind (tree self.now) ≡ Kind.Struct) }
    {
        self.kind() == Kind::Struct
    }

    /// Returns whether the type is a `Union`.
    pub fn is_union(&self) -> bool
        ensures { IsTrue result ↔ (kind (tree self.now) ≡ Kind.Union) }
    {
        self.kind() == Kind::Union
    }

    /// Returns whether the type is a `Variant`.
    pub fn is_variant(&self) -> bool
        ensures { IsTrue result ↔ (kind (tree self.now) ≡ Kind.Variant) }
    {
        self.kind() == Kind::Variant
    }

    /// Returns whether the type is an `Extension`, whatever its storage type is.
    pub fn is_extension(&self) -> bool
        ensures { IsTrue result ↔ (kind (tree self.now) ≡ Kind.Extension) }
    {
        self.kind() == Kind::Extension
    }

    /// Returns whether the type is a `Primitive` of an unsigned integer type, for example `u8`.
    pub fn is_unsigned_int(&self) -> bool
        ensures { IsTrue result ↔ IsSomeAnd (primitive_name (tree self.now)) IsUnsigned }
    {
        self.ptype().is_some_and(|ptype| ptype.is_unsigned_int())
    }

    /// Returns whether the type is a `Primitive` of a signed integer type, for example `i8`.
    pub fn is_signed_int(&self) -> bool
        ensures { IsTrue result ↔ IsSomeAnd (primitive_name (tree self.now)) IsSigned }
    {
        self.ptype().is_some_and(|ptype| ptype.is_signed_int())
    }

    /// Returns whether the type is a `Primitive` of an integer type, signed or unsigned.
    pub fn is_int(&self) -> bool
        ensures { IsTrue result ↔ IsSomeAnd (primitive_name (tree self.now)) IsInteger }
    {
        self.ptype().is_some_and(|ptype| ptype.is_int())
    }

    /// Returns whether the type is a `Primitive` of a floating-point type, for example `f16`.
    pub fn is_float(&self) -> bool
        ensures { IsTrue result ↔ IsSomeAnd (primitive_name (tree self.now)) IsFloat }
    {
        self.ptype().is_some_and(|ptype| ptype.is_float())
    }

    /// Returns whether the type is a `List`, a `FixedSizeList`, a `Map`, a `Struct`, a `Union` or a `Variant`, or an
    /// extension over such a type. For an extension, the call returns what it returns for the storage type.
    #[cycle(nested)]
    pub fn is_nested(&self) -> bool
        ensures { result ≡ is_nested (tree self.now) }
    {
        match self {
            DType::Null
            | DType::Bool(_)
            | DType::Primitive(_, _)
            | DType::Decimal(_, _)
            | DType::Utf8(_)
            | DType::Binary(_) => false,
            DType::List(_, _)
            | DType::FixedSizeList(_, _, _)
            | DType::Map(_, _)
            | DType::Struct(_, _)
            | DType::Union(_, _)
            | DType::Variant(_) => true,
            DType::Extension(extension) => extension.is_nested(),
        }
    }

    // Returns the primitive type of a `Primitive`, or `None` if the type is of another kind.
    pub(crate) fn ptype(&self) -> Option<PType>
        ensures { result ≡ primitive_name (tree self.now) }
    {
        match self {
            DType::Primitive(ptype, _) => Some(*ptype),
            _ => None,
        }
    }

    /// Returns the primitive type of a `Primitive`, for example `PType::I32` for `i32?`. The caller must prove that the
    /// type is a `Primitive`.
    pub fn as_ptype(&self) -> PType
        requires { kind (tree self.now) ≡ Kind.Primitive }
        ensures { primitive_name (tree self.now) ≡ Some result }
    {
        match self {
            DType::Primitive(ptype, _) => *ptype,
            _ => unreachable!(),
        }
    }

    /// Returns the precision and scale of a `Decimal`, or `None` if the type is of another kind.
    pub fn as_decimal_opt(&self) -> Option<&DecimalDType>
        ensures { option_copied result ≡ decimal_of (tree self.now) }
    {
        match self {
            DType::Decimal(decimal, _) => Some(decimal),
            _ => None,
        }
    }

    /// Returns the element type of a `List`, or `None` if the type is of another kind.
    pub fn as_list_element_opt(&self) -> Option<&DType>
        ensures { shown tree result ≡ list_element (tree self.now) }
    {
        match self {
            DType::List(element, _) => Some(element),
            _ => None,
        }
    }

    /// Returns the element type of a `FixedSizeList`, or `None` if the type is of another kind.
    pub fn as_fixed_size_list_element_opt(&self) -> Option<&DType>
        ensures { shown tree result ≡ fixed_size_list_element (tree self.now) }
    {
        match self {
            DType::FixedSizeList(element, _, _) => Some(element),
            _ => None,
        }
    }

    /// Returns the element type of a `List` or of a `FixedSizeList`, or `None` if the type is of another kind.
    pub fn as_any_size_list_element_opt(&self) -> Option<&DType>
        ensures { shown tree result ≡ any_size_list_element (tree self.now) }
    {
        match self {
            DType::List(element, _) | DType::FixedSizeList(element, _, _) => Some(element),
            _ => None,
        }
    }

    /// Returns the parts of a `Map` (the key type, the value type and the flag `keys_sorted`), or `None` if the type is
    /// of another kind.
    pub fn as_map_opt(&self) -> Option<&MapDType>
        ensures { shown map_shown result ≡ map_parts (tree self.now) }
    {
        match self {
            DType::Map(map, _) => Some(map),
            _ => None,
        }
    }

    /// Returns the fields of a `Struct`, or `None` if the type is of another kind.
    #[tactic(auto, using(crate::proofs::KindLaws::kind_laws))]
    pub fn as_struct_fields_opt(&self) -> Option<&StructFields>
        ensures { shown children result ≡ struct_fields (tree self.now) }
    {
        match self {
            DType::Struct(fields, _) => Some(fields),
            _ => None,
        }
    }

    /// Returns the variants of a `Union`, or `None` if the type is of another kind.
    #[tactic(auto, using(crate::proofs::KindLaws::kind_laws))]
    pub fn as_union_variants_opt(&self) -> Option<&UnionVariants>
        ensures { shown variant_list result ≡ union_variants (tree self.now) }
    {
        match self {
            DType::Union(variants, _) => Some(variants),
            _ => None,
        }
    }

    /// Returns the parts of an `Extension` (the id, the metadata and the storage type), or `None` if the type is of
    /// another kind.
    pub fn as_extension_opt(&self) -> Option<&ExtDTypeRef>
        ensures { shown extension_shown result ≡ extension_parts (tree self.now) }
    {
        match self {
            DType::Extension(extension) => Some(extension),
            _ => None,
        }
    }

    /// Consumes the type and returns the precision and scale of a `Decimal`, or `None` if the type is of another kind.
    pub fn into_decimal_opt(self) -> Option<DecimalDType>
        ensures { result ≡ decimal_of (tree self) }
    {
        match self {
            DType::Decimal(decimal, _) => Some(decimal),
            _ => None,
        }
    }

    /// Consumes the type and returns the element type of a `List`, or `None` if the type is of another kind.
    pub fn into_list_element_opt(self) -> Option<Box<DType>>
        ensures { option_map (λ b. tree b.value) result ≡ list_element (tree self) }
    {
        match self {
            DType::List(element, _) => Some(element),
            _ => None,
        }
    }

    /// Consumes the type and returns the element type of a `FixedSizeList`, or `None` if the type is of another kind.
    pub fn into_fixed_size_list_element_opt(self) -> Option<Box<DType>>
        ensures { option_map (λ b. tree b.value) result ≡ fixed_size_list_element (tree self) }
    {
        match self {
            DType::FixedSizeList(element, _, _) => Some(element),
            _ => None,
        }
    }

    /// Consumes the type and returns the element type of a `List` or of a `FixedSizeList`, or `None` if the type is of
    /// another kind.
    pub fn into_any_size_list_element_opt(self) -> Option<Box<DType>>
        ensures { option_map (λ b. tree b.value) result ≡ any_size_list_element (tree self) }
    {
        match self {
            DType::List(element, _) | DType::FixedSizeList(element, _, _) => Some(element),
            _ => None,
        }
    }

    /// Consumes the type and returns the parts of a `Map` (the key type, the value type and the flag `keys_sorted`), or
    /// `None` if the type is of another kind.
    pub fn into_map_opt(self) -> Option<MapDType>
        ensures { option_map map_shown result ≡ map_parts (tree self) }
    {
        match self {
            DType::Map(map, _) => Some(map),
            _ => None,
        }
    }

    /// Consumes the type and returns the fields of a `Struct`, or `None` if the type is of another kind.
    #[tactic(auto, using(crate::proofs::KindLaws::struct_fields_some))]
    pub fn into_struct_fields_opt(self) -> Option<StructFields>
        ensures { option_map children result ≡ struct_fields (tree self) }
    {
        match self {
            DType::Struct(fields, _) => Some(fields),
            _ => None,
        }
    }

    /// Consumes the type and returns the variants of a `Union`, or `None` if the type is of another kind.
    #[tactic(auto, using(crate::proofs::KindLaws::union_variants_some))]
    pub fn into_union_variants_opt(self) -> Option<UnionVariants>
        ensures { option_map variant_list result ≡ union_variants (tree self) }
    {
        match self {
            DType::Union(variants, _) => Some(variants),
            _ => None,
        }
    }

    /// Returns the fields of a `Struct`. The caller must prove that the type is a `Struct`.
    #[tactic(auto, using(crate::proofs::KindLaws::kind_laws))]
    pub fn as_struct_fields(&self) -> &StructFields
        requires { kind (tree self.now) ≡ Kind.Struct }
        ensures { struct_fields (tree self.now) ≡ Some (children result.now) }
    {
        match self {
            DType::Struct(fields, _) => fields,
            _ => unreachable!(),
        }
    }

    /// Consumes a `Struct` and returns its fields. The caller must prove that the type is a `Struct`.
    #[tactic(auto, using(crate::proofs::KindLaws::struct_fields_some))]
    pub fn into_struct_fields(self) -> StructFields
        requires { kind (tree self) ≡ Kind.Struct }
        ensures { struct_fields (tree self) ≡ Some (children result) }
    {
        match self {
            DType::Struct(fields, _) => fields,
            _ => unreachable!(),
        }
    }

    /// Returns the parts of an `Extension`: the id, the metadata and the storage type. The caller must prove that the
    /// type is an `Extension`.
    pub fn as_extension(&self) -> &ExtDTypeRef
        requires { kind (tree self.now) ≡ Kind.Extension }
        ensures { tree self.now ≡ extension_tree result.now }
    {
        match self {
            DType::Extension(extension) => extension,
            _ => unreachable!(),
        }
    }
}
