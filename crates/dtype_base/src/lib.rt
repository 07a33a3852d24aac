// SPDX-License-Identifier: Apache-2.0
// SPDX-FileCopyrightText: Copyright the Vortex contributors

//! The basic types on which the other crates build: errors, nullability, primitive types, decimal types and field
//! names.
//!
//! The contracts specify the following:
//! - A name is a text, and a list of names is a list of texts.
//! - The properties of primitive types and of decimal types, such as their widths, are those in two tables.
//! - A lookup of a name returns its first position.
//! - A call returns an error other than `OutOfMemory` only in the cases that its documentation lists.
//!
//! Begin with `VortexError` (all errors of the workspace), then read `Nullability`, `PType`, `DecimalDType`,
//! `DecimalType`, `FieldName`, `FieldNames` and `IndexedNames`.
//!
//! The definitions that the contracts cite are in `specs/`:
//! - `Errors`: the number of each error.
//! - `Nullability`: the texts of a nullability, and how two are combined.
//! - `Primitives` and `Decimals`: the two tables.
//! - `Bytes`: which lists of numbers are bytes.
//! - `FieldNames`: `first_place`, the first position of a name.
//! - `MadeFrom`: what a call such as `FieldNames::from_iter` makes of the items that an iterator yields.
//! - `Distinct`: whether a list has no repeated element.
//! - `Comparisons`, `NameHashes` and `BinaryDigits`: how many names a lookup in an index compares with the name that it
//!   looks for.
//! - `Escapes`: how a name is printed.
//!
//! `specs/private/` contains the definitions about the index of names. No other crate cites them. `laws` states the
//! theorems about these definitions. `docs/TRUST.md` lists what is proved and what is only tested.
#![tactic(auto)]

mod counted_names;
mod decimal;
mod field_name;
mod field_names;
mod field_names_into_iter;
mod field_names_iter;
mod indexed_names;
pub mod laws;
mod name_key;
mod name_order;
mod name_search;
mod nullability;
mod ptype;
mod vortex_error;

pub use decimal::{DecimalDType, DecimalType, MAX_PRECISION, MAX_SCALE, check_precision_and_scale};
pub use field_name::FieldName;
pub use field_names::FieldNames;
pub use field_names_into_iter::FieldNamesIntoIter;
pub use field_names_iter::FieldNamesIter;
pub use indexed_names::IndexedNames;
pub use name_key::bucket_of_name;
pub use nullability::Nullability;
pub use ptype::PType;
pub use vortex_error::{MessageFault, VortexError, VortexResult};

/// The field name `$__vortex_validity`, which Vortex reserves for the field that records which values of a struct are
/// null. This library doesn't treat it differently from other names.
pub const RESERVED_VALIDITY_FIELD_NAME: &str = "$__vortex_validity";
