// SPDX-License-Identifier: Apache-2.0
// SPDX-FileCopyrightText: Copyright the Vortex contributors

// The values that a slot may have.
use crate::failure::Failure;
use dtype_base::FieldName;
use dtype_messages::pb;
use dtype_paths::{FieldMask, FieldPath, FieldPathSet};
use dtype_types::DType;

/// A value that a [`Slot`](crate::Slot) can contain, for example `Object::Path` of the path `a.[]`.
#[derive(Drop)]
pub enum Object {
    /// A logical type.
    DType(DType),
    /// A field path.
    Path(FieldPath),
    /// A set of field paths.
    Set(FieldPathSet),
    /// A list of field paths.
    Paths(Vec<FieldPath>),
    /// A mask over field paths.
    Mask(FieldMask),
    /// The protobuf message that describes a logical type.
    Message(pb::DType),
    /// Names with types, from which a struct or a union is made.
    Fields(Vec<(FieldName, DType)>),
    /// The reason for which a call failed.
    Error(Failure),
}
