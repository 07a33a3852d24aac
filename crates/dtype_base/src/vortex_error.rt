// SPDX-License-Identifier: Apache-2.0
// SPDX-FileCopyrightText: Copyright the Vortex contributors

ghost use Rattle.std.specs.Prelude.{◌≡◌};
ghost use Rattle.dtype_base.specs.Errors.{number_of, fault_number};
ghost use Rattle.dtype_base.specs.declared.vortex_error.VortexError.TheVariants.{OutOfMemory};

use crate::PType;
use std::alloc::{AllocError, AllocFailed};
use thiserror::Error;

/// The result of a call that can fail: the value that the call returns if it succeeds, or a `VortexError`.
pub type VortexResult<T> = Result<T, VortexError>;

/// An error of this workspace. Each error has a number from 0 to 36, which the documentation cites and which `number`
/// returns. An error contains the values that its text shows. For example, the error
/// `IndexOutOfBounds { index: 9, fields: 2 }` has the number 17 and prints
/// `index 9 out of bounds for struct with 2 fields`.
#[derive(Debug, Drop, PartialEq, Eq, Error)]
pub enum VortexError {
    /// 0: an allocation failed, or a reference count is at its maximum.
    #[error("out of memory")]
    OutOfMemory,
    /// 1: the precision of a decimal is 0.
    #[error("decimal precision must be between 1 and {max} (inclusive)")]
    PrecisionZero { max: u8 },
    /// 2: the precision of a decimal is above `max`, the greatest precision that is allowed.
    #[error("decimal precision {precision} exceeds MAX_PRECISION {max}")]
    PrecisionTooLarge { precision: u8, max: u8 },
    /// 3: the scale of a decimal is above `max`, the greatest scale that is allowed.
    #[error("decimal scale {scale} exceeds MAX_SCALE {max}")]
    ScaleTooLarge { scale: i8, max: i8 },
    /// 4: the scale of a decimal is above its precision.
    #[error("decimal scale {scale} is greater than precision {precision}")]
    ScaleAbovePrecision { scale: i8, precision: u8 },
    /// 5: the type isn't a decimal type.
    #[error("Cannot convert DType into DecimalType")]
    NotDecimal,
    /// 6: the type isn't a primitive type.
    #[error("Cannot convert DType into PType")]
    NotPrimitive,
    /// 7: the primitive type isn't a storage type of decimals, because it isn't `i8`, `i16`, `i32` or `i64`.
    #[error("cannot convert ptype {ptype} to DecimalType")]
    NotDecimalPType { ptype: PType },
    /// 8: the number of bytes isn't the width in bytes of the integer that is read from them.
    #[error("bytes have another length")]
    BytesLength,
    /// 9: the key type of a map is nullable.
    #[error("map key dtype must be non-nullable")]
    MapKeyNullable,
    /// 10: a union has more or fewer types than names.
    #[error("union names and dtypes length mismatch")]
    UnionTypesLength,
    /// 11: a union has more or fewer tags than names.
    #[error("union names and type_ids length mismatch")]
    UnionTagsLength,
    /// 12: a union has no variants.
    #[error("union must have at least one variant")]
    UnionEmpty,
    /// 13: two variants of a union have the same tag.
    #[error("type_ids must be distinct")]
    UnionTagsRepeat,
    /// 14: a union has more than 256 variants.
    #[error("union supports at most 256 consecutive variants")]
    UnionTooMany,
    /// 15: two variants of a union have the same name.
    #[error("union variant names must be distinct")]
    UnionNamesRepeat,
    /// 16: a selected name isn't the name of a field. `position` is its place in the selection, counted from 0.
    #[error("field {position} of the projection not found")]
    FieldNotFound { position: usize },
    /// 17: the index of a field isn't below the number of fields.
    #[error("index {index} out of bounds for struct with {fields} fields")]
    IndexOutOfBounds { index: usize, fields: usize },
    /// 18: two structs can't be merged, because a name occurs in both of them, or twice in one of them.
    #[error("Can't merge struct fields with duplicate names")]
    DuplicateNames,
    /// 19: the width of a value in bytes is above `usize::MAX`.
    #[error("element size is bigger than usize")]
    WidthOverflow,
    /// 20: a field mask that selects only the root can't be stepped into.
    #[error("Cannot step into exact root field path")]
    ExactRoot,
    /// 21: the field mask that selects all paths has no starting field.
    #[error("Cannot get starting field from All mask")]
    AllMask,
    /// 22: the plugin or vtable of an extension type doesn't accept the metadata or the storage type, or the vtable can't
    /// write the metadata.
    #[error("extension metadata or storage refused")]
    MetadataRefused,
    /// 23: an extension type can't be downcast with a vtable whose id isn't the id of the extension type.
    #[error("extension id differs")]
    ExtensionIdDiffers,
    /// 24 to 36: a protobuf message doesn't describe a type or a path. The `MessageFault` tells what is wrong.
    #[error("{0}")]
    Message(MessageFault),
}

/// What is wrong with the protobuf message of a type or of a path. For example, `ListElementMissing` (28) means that
/// the message of a list has no element type. The numbers of the variants are 24 to 36, in their order.
#[derive(Debug, Drop, PartialEq, Eq, Error)]
pub enum MessageFault {
    /// 24: the message of a type has no kind.
    #[error("Unrecognized DType")]
    TypeMissing,
    /// 25: the number of a primitive type isn't from 0 to 10.
    #[error("unknown primitive number")]
    PrimitiveNumber,
    /// 26: the precision of a decimal is above 255.
    #[error("precision does not fit in u8")]
    PrecisionRange,
    /// 27: the scale of a decimal isn't from -128 to 127.
    #[error("scale does not fit in i8")]
    ScaleRange,
    /// 28: a list has no element type.
    #[error("Invalid list element type")]
    ListElementMissing,
    /// 29: a fixed-size list has no element type.
    #[error("Invalid fixed-size list element type")]
    FixedElementMissing,
    /// 30: a map has no key type.
    #[error("Invalid map key type")]
    MapKeyMissing,
    /// 31: a map has no value type.
    #[error("Invalid map value type")]
    MapValueMissing,
    /// 32: a struct has more or fewer types than names.
    #[error("struct names and dtypes length mismatch")]
    StructLengths,
    /// 33: a tag of a union isn't from 0 to 255.
    #[error("type_id does not fit in u8")]
    TypeIdRange,
    /// 34: an extension has no storage type.
    #[error("Extension DType missing storage proto")]
    StorageMissing,
    /// 35: no plugin is registered under the id of an extension, and the session doesn't keep unknown ids.
    #[error("Unregistered extension type ID")]
    ExtensionUnregistered,
    /// 36: a part of a path has no kind.
    #[error("FieldPath part missing type")]
    PathPartMissing,
}

impl MessageFault {
    /// Returns the number of the fault, from 24 to 36.
    pub fn number(&self) -> u8
        ensures { result ≡ fault_number self.now }
    {
        match self {
            MessageFault::TypeMissing => 24,
            MessageFault::PrimitiveNumber => 25,
            MessageFault::PrecisionRange => 26,
            MessageFault::ScaleRange => 27,
            MessageFault::ListElementMissing => 28,
            MessageFault::FixedElementMissing => 29,
            MessageFault::MapKeyMissing => 30,
            MessageFault::MapValueMissing => 31,
            MessageFault::StructLengths => 32,
            MessageFault::TypeIdRange => 33,
            MessageFault::StorageMissing => 34,
            MessageFault::ExtensionUnregistered => 35,
            MessageFault::PathPartMissing => 36,
        }
    }
}

impl VortexError {
    /// Returns the number of the error, from 0 to 36.
    pub fn number(&self) -> u8
        ensures { result ≡ number_of self.now }
    {
        match self {
            VortexError::OutOfMemory => 0,
            VortexError::PrecisionZero { .. } => 1,
            VortexError::PrecisionTooLarge { .. } => 2,
            VortexError::ScaleTooLarge { .. } => 3,
            VortexError::ScaleAbovePrecision { .. } => 4,
            VortexError::NotDecimal => 5,
            VortexError::NotPrimitive => 6,
            VortexError::NotDecimalPType { .. } => 7,
            VortexError::BytesLength => 8,
            VortexError::MapKeyNullable => 9,
            VortexError::UnionTypesLength => 10,
            VortexError::UnionTagsLength => 11,
            VortexError::UnionEmpty => 12,
            VortexError::UnionTagsRepeat => 13,
            VortexError::UnionTooMany => 14,
            VortexError::UnionNamesRepeat => 15,
            VortexError::FieldNotFound { .. } => 16,
            VortexError::IndexOutOfBounds { .. } => 17,
            VortexError::DuplicateNames => 18,
            VortexError::WidthOverflow => 19,
            VortexError::ExactRoot => 20,
            VortexError::AllMask => 21,
            VortexError::MetadataRefused => 22,
            VortexError::ExtensionIdDiffers => 23,
            VortexError::Message(fault) => fault.number(),
        }
    }
}

/// Returns `OutOfMemory` (0) for a failed allocation.
impl From<AllocError> for VortexError {
    ghost from_gives = { λ _ e. e ≡ OutOfMemory };

    fn from(_error: AllocError) -> VortexError {
        VortexError::OutOfMemory
    }
}

/// Returns `OutOfMemory` (0) for a failed allocation.
impl<T: Drop> From<AllocFailed<T>> for VortexError {
    ghost from_gives = { λ _ e. e ≡ OutOfMemory };

    fn from(_error: AllocFailed<T>) -> VortexError {
        VortexError::OutOfMemory
    }
}
