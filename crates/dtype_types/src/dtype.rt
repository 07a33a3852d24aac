// SPDX-License-Identifier: Apache-2.0
// SPDX-FileCopyrightText: Copyright the Vortex contributors

// `DType` and its methods, one file for each topic.
mod comparison;
mod constructors;
mod conversions;
pub(crate) mod copies;
pub(crate) mod equality;
pub(crate) mod hash;
pub(crate) mod indented_text;
mod kinds;
mod nullability;
pub(crate) mod nullability_bounds;
mod text;
pub(crate) mod width;

use crate::{ExtDTypeRef, MapDType, StructFields, UnionVariants};
use dtype_base::{DecimalDType, Nullability, PType};
pub use kinds::Kind;
pub use nullability_bounds::{intersect_nullability, merge_nullability};

/// A logical type: it describes which values a column may contain, and not how they are stored.
///
/// For example, `{id=u64, tags=list(utf8)?}` is a non-nullable struct of two fields. The field `id` is a `u64`, and the
/// field `tags` is a nullable list of texts. The type is printed as it is written here, with a `?` after each nullable
/// type. To build it, call `DType::struct_` with `DType::from(PType::U64)` for `id` and with the type that
/// `DType::list` returns for `tags`.
#[derive(Debug, Drop)]
#[cycle(dtype)]
pub enum DType {
    /// The type whose only value is null. It is always nullable.
    Null,
    /// Booleans.
    Bool(Nullability),
    /// Integers or floating-point numbers of a primitive type.
    Primitive(PType, Nullability),
    /// Decimal numbers with this precision and this scale.
    Decimal(DecimalDType, Nullability),
    /// Texts in UTF-8.
    Utf8(Nullability),
    /// Sequences of bytes, of any length.
    Binary(Nullability),
    /// Lists of any length whose elements are of one type.
    List(Box<DType>, Nullability),
    /// Lists of one fixed length whose elements are of one type.
    FixedSizeList(Box<DType>, u32, Nullability),
    /// Maps: lists of entries, each with a key and a value.
    Map(MapDType, Nullability),
    /// Structs: fields in order, each with a name and a type.
    Struct(StructFields, Nullability),
    /// Unions: each value belongs to one of several variants and has the tag of that variant.
    Union(UnionVariants, Nullability),
    /// Values that each carry their own type.
    Variant(Nullability),
    /// An extension type, such as a date: an id, metadata and a storage type. It is nullable exactly if its storage
    /// type is nullable.
    Extension(ExtDTypeRef),
}

// Vectors contain types by value, so the size matters. A type is a discriminant and a pointer, with what fits beside
// them.
const _: () = prove!(size_of::<DType>() == 24);
