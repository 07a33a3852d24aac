// SPDX-License-Identifier: Apache-2.0
// SPDX-FileCopyrightText: Copyright the Vortex contributors

// What an export returns: 0 to 10 as below, or 100 and the number of the library's error.
ghost use Rattle.std.specs.Prelude.{◌≡◌, ◌+◌};
ghost use Rattle.dtype_base.specs.Errors.{number_of};

use dtype_base::VortexError;

/// The call has succeeded, or the answer is yes.
pub const OK: u32 = 0;
/// There is no result, or the answer is no.
pub const NONE: u32 = 1;
/// A slot is empty or contains an object of another kind than the call takes.
pub const KIND: u32 = 2;
/// A text isn't UTF-8.
pub const NOT_UTF8: u32 = 3;
/// A text can't be read.
pub const UNREADABLE: u32 = 4;
/// The call has a precondition, and the arguments don't meet it.
pub const CONDITION: u32 = 5;
/// A type or a message would be nested more than 128 levels deep.
pub const TOO_DEEP: u32 = 6;
/// A buffer is too small.
pub const TOO_SMALL: u32 = 7;
/// Two slots of one call are the same slot, or have the same object. No proved function returns this number, but the
/// code that calls these functions does, for example the layer of C.
pub const SAME_SLOT: u32 = 8;
/// An argument is out of its range.
pub const RANGE: u32 = 9;
/// A schema of Arrow has no type of this library, or a type no schema.
pub const ARROW: u32 = 10;
/// An allocation failed. This is also the number to which the number of an error of the library is added.
pub const LIBRARY: u32 = 100;

/// Returns the number that an export returns for this error: 100 plus the number of the error.
pub fn of_library(error: VortexError) -> u32
    ensures { result ≡ 100 + number_of error }
{
    LIBRARY + u32::from(error.number())
}
