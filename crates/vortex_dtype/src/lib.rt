// SPDX-License-Identifier: Apache-2.0
// SPDX-FileCopyrightText: Copyright the Vortex contributors

//! The logical types of Vortex. This library re-exports all libraries below it, and adds typed extensions, plugins,
//! sessions, and the conversion of types to and from protobuf messages.
//!
//! The following is proved:
//! - A typed extension type contains the metadata and the storage type with which it was made.
//! - A session uses the plugin that was registered last under an id.
//! - Types are read from messages and written as messages exactly as the definitions in `specs/` specify.
//!
//! Begin with `ExtVTable` and `ExtDType` (typed extensions), then read `ExtDTypePlugin` and `PluginOf` (plugins), then
//! `DTypeSession`, and then `pb` and `DTypeProto` (messages).
//!
//! The definitions are in `specs/`:
//! - `Typed`: what a vtable does.
//! - `Meaning`: what a plugin and a session do with metadata (`keeps`), and which types a session admits (`Admits`):
//!   those whose metadata it keeps unchanged.
//! - `Errors`: which errors plugins and sessions return.
//! - `Calls`: a session after a list of calls.
//! - `Reads`: the type that a message describes, and the faults of a message.
//! - `ReadInOrder`: which of several faults is returned.
//! - `Written`: the message of a type.
//!
//! The definitions about messages are about the trees of messages that `dtype_messages` defines. `laws` states theorems
//! about these definitions. `proofs/rulesets` contains the lemmas that the proofs of callers name, by topic.
#![tactic(auto)]

mod ext_dtype;
mod ext_vtable;
mod foreign;
pub mod laws;
mod plugin;
mod proto;
mod session;

pub use dtype_base::{
    DecimalDType, DecimalType, FieldName, FieldNames, FieldNamesIntoIter, FieldNamesIter,
    IndexedNames, MAX_PRECISION, MAX_SCALE, MessageFault, Nullability, PType,
    RESERVED_VALIDITY_FIELD_NAME, VortexError, VortexResult, check_precision_and_scale,
};
pub use dtype_edits::{
    Difference, Ignoring, differences, differences_ignoring, leaf_paths, push_field, with_field,
    with_field_at, with_fields_renamed, with_fields_renamed_allowing_repeats, with_type_at,
    without_paths,
};
pub use dtype_merging::{
    MergeConflict, Widening, merge_all, merge_columns, merge_conflict, reads_as,
};
pub use dtype_messages::pb;
pub use dtype_native::{
    IntegerPType, NativeDType, NativeDecimalType, NativePType, OffsetBuilderPType, PTypeVisitor,
    PhysicalPType, PrecisionScale, ToBytes, TryFromBytes, UnsignedPType, match_each_float_ptype,
    match_each_integer_ptype, match_each_native_ptype, match_each_native_simd_ptype,
    match_each_signed_integer_ptype, match_each_unsigned_integer_ptype,
    match_smallest_list_offset_type, match_smallest_offset_type,
};
pub use dtype_paths::{
    CursorNames, Field, FieldMask, FieldPath, FieldPathCursor, FieldPathSet, along_joined,
    beginnings_exist,
};
pub use dtype_projection::project_paths;
pub use dtype_types::{
    DType, DTypeIter, ExtDTypeRef, ExtId, FieldDType, FieldIter, Kind, MapDType, MetadataDisplay,
    StructFields, UnionVariants, VariantIter, intersect_nullability, merge_nullability,
};
pub use ext_dtype::ExtDType;
pub use ext_vtable::ExtVTable;
pub use foreign::{ForeignExtDType, ForeignExtMetadata};
pub use plugin::{ExtDTypePlugin, PluginOf};
pub use proto::{DTypeProto, FieldPathProto};
pub use session::DTypeSession;

/// Returns a `VortexResult` with the path of these names, of which the first is the outermost. For example,
/// `field_path!(alloc, "a", "b")` returns the path `a.b`.
///
/// # Errors
///
/// - `OutOfMemory` (0): an allocation fails.
#[macro_export]
macro_rules! field_path {
    ($alloc:expr, $($name:expr),+ $(,)?) => {
        $crate::FieldPath::from_texts($alloc, &[$($name),+])
    };
}
