// SPDX-License-Identifier: Apache-2.0
// SPDX-FileCopyrightText: Copyright the Vortex contributors

//! Logical types: `DType`, the structs, unions and maps that it contains, and extension types.
//!
//! For example, `DType::list(alloc, DType::Utf8(Nullability::NonNullable), Nullability::Nullable)` returns the type
//! that is printed as `list(utf8)?`. Begin with `DType` in `dtype.rt`. Its methods are in the folder `dtype/`, one file
//! for each topic. Then read `StructFields`. An extension type is stored as its id, its metadata and its storage type,
//! so the program needn't know the library that defines it.
//!
//! The contracts describe a type `d` by its tree, which is written `tree d` and defined in `specs/tree/TreeOf`. A tree
//! has one constructor for each variant of `DType`. For example, the tree of the type above is
//! `list (utf8 NonNullable) Nullable`. The contracts describe the fields of a struct as a list of pairs of a name and a
//! tree, and the variants of a union as a list of triples of a name, a tree and a tag. What a call does is specified by
//! a definition on trees, for example the outer nullability of a type, the field that a name finds, whether two types
//! are equal, or the text of a type.
//!
//! A type is valid if every node of its tree meets the rules of the constructors (`Valid` in `specs/tree/Valid`). For
//! example, one rule is that the key type of a map is non-nullable. If the types that a call takes are valid, then the
//! types that it returns are valid too. `laws` contains the theorems about this.
//!
//! The definitions are in the folders of `specs/`:
//! - `tree`: the tree of a type, its kind, its width, and when it is valid.
//! - `parts`: structs, unions, maps and extensions, and which field or variant a name finds.
//! - `nullability`: the outer nullability, the order of types by nullability (`Sub`), and merging.
//! - `values`: values, and which are values of which type.
//! - `texts`: what is printed.
//! - `equality`: when types are equal, and what they write to a hasher.
//! - `formers`: which values the lists of the fields of a struct and of the variants of a union contain. A `DType`
//!   contains other types through these lists, so the checker needs this to see a type as a tree.
//!
//! `laws` and `nullability_laws` state theorems about these definitions. `docs/TRUST.md` lists what is proved and what
//! is only tested.
#![tactic(auto)]

mod dtype;
mod dtype_iter;
mod extension;
mod field_dtype;
mod field_iter;
mod field_list;
pub mod laws;
mod map;
mod named;
pub mod nullability_laws;
mod struct_fields;
mod tagged;
mod union_variants;
mod variant_iter;

pub use dtype::{DType, Kind, intersect_nullability, merge_nullability};
pub use dtype_iter::DTypeIter;
pub use extension::{ExtDTypeRef, ExtId, MetadataDisplay};
pub use field_dtype::FieldDType;
pub use field_iter::FieldIter;
pub use map::MapDType;
pub use struct_fields::StructFields;
pub use union_variants::UnionVariants;
pub use variant_iter::VariantIter;
