// SPDX-License-Identifier: Apache-2.0
// SPDX-FileCopyrightText: Copyright the Vortex contributors

// The reasons for which a call fails, with their data.
use dtype_base::VortexError;

/// The reason for which a call failed, for example `Failure::Library` of `FieldNotFound` with the position of the name.
#[derive(Drop)]
pub enum Failure {
    /// The library returned this error.
    Library(VortexError),
    /// A text can't be read any further from the byte at `position` on, which is counted from 1. The position is one more
    /// than the length if the text ends too early. `message` says what was expected there, for example
    /// `expected a type, not "int32"; nearest: i32`.
    Text {
        position: usize,
        message: String,
    },
    /// A text contains a type that is inside more than 128 others. `position` is that of its first byte, counted from 1.
    Deep {
        position: usize,
    },
    /// A schema of Arrow has no type of this library, or a type no schema. `message` says which field it is and why, for
    /// example `column "a.item": the Arrow format "tdX" has no type here`.
    Arrow {
        reason: ArrowReason,
        message: String,
    },
}

/// The reason for which a schema of Arrow has no type of this library, or a type no schema.
#[derive(Drop)]
pub enum ArrowReason {
    /// A field has no type here, or a part of the type has no Arrow type.
    Refused,
    /// The type of a field is inside more than 128 others.
    TooDeep,
    /// The library refuses the type of a field with this error.
    Library(VortexError),
}
