// SPDX-License-Identifier: Apache-2.0
// SPDX-FileCopyrightText: Copyright the Vortex contributors

// Error objects: how an export stores the reason for which it fails, and what can be read from it.
ghost use Rattle.std.specs.Prelude.{◌≡◌};
ghost use Rattle.c_objects.specs.declared.failure.Failure.TheVariants.{Library};
ghost use Rattle.vortex_logical_types.specs.Failures.{failure_number, failure_position, message_of};
ghost use Rattle.vortex_logical_types.specs.Slots.{error_in};
ghost use Rattle.vortex_logical_types.specs.Vocabulary.{Fills, Stores, Writes, found, gives, on, reason_code, unless_memory};

use crate::buffers::write_bytes;
use crate::errors::{ARROW, KIND, LIBRARY, NONE, OK, TOO_DEEP, UNREADABLE};
use crate::views::as_error;
use c_objects::{ArrowReason, Failure, Object, Slot};
use dtype_base::VortexError;
use std::alloc::Global;

/// Stores the failure in the slot `error` and returns the number of the failure. If an allocation fails, the slot is
/// unchanged, and the call returns 100. It does the same if the failure itself is that an allocation failed.
pub fn fail(alloc: Global, error: &mut Slot, failure: Failure) -> u32
    ensures { Stores failure result error.old.value error.new.value }
{
    let code = match &failure {
        Failure::Library(VortexError::OutOfMemory) => return LIBRARY,
        Failure::Library(why) => LIBRARY + u32::from(why.number()),
        Failure::Text { .. } => UNREADABLE,
        Failure::Deep { .. } => TOO_DEEP,
        Failure::Arrow { reason, .. } => code_of(reason),
    };
    match Box::new(alloc, Object::Error(failure)) {
        Ok(object) => {
            error.put(object);
            code
        }
        Err(_) => LIBRARY,
    }
}

// Returns the number of a reason for which a schema of Arrow has no type here, or a type no schema.
fn code_of(reason: &ArrowReason) -> u32
    ensures { result ≡ reason_code reason.now }
{
    match reason {
        ArrowReason::Refused => ARROW,
        ArrowReason::TooDeep => TOO_DEEP,
        ArrowReason::Library(why) => LIBRARY + u32::from(why.number()),
    }
}

/// Stores an error of the library in the slot `error`, and returns its number, as `fail` does.
pub fn fail_with(alloc: Global, error: &mut Slot, why: VortexError) -> u32
    ensures { Stores (Library why) result error.old.value error.new.value }
{
    fail(alloc, error, Failure::Library(why))
}

/// Writes the number of the library's error to `number`. It is from 0 to 36, and 100 less than the result of the call
/// that stored the error. For example, it is 9 if the key type of a map is nullable. Returns 1 if the error is that a
/// text can't be read, that a type is nested too deeply, or that a type isn't one of Arrow's or the reverse, which are
/// no errors of the library, and 2 if the slot contains no error.
#[unsafe(no_mangle)]
pub extern "C" fn vlt_core_error_number(error: &mut Slot, number: &mut u32) -> u32
    ensures writes { Writes (on (error_in error.old.value) (λ e. found (failure_number e) gives)) result number.old number.new }
    ensures kept { error.new.value ≡ error.old.value }
{
    let Some(failure) = as_error(error) else {
        return KIND;
    };
    match failure {
        Failure::Library(why)
        | Failure::Arrow {
            reason: ArrowReason::Library(why),
            ..
        } => {
            *number = u32::from(why.number());
            OK
        }
        Failure::Text { .. } | Failure::Deep { .. } | Failure::Arrow { .. } => NONE,
    }
}

/// Writes to `position` at which byte of a text the error is, counted from 1. The position is one more than the length
/// of the text if the text ends too early. Returns 1 if the error isn't about a place in a text, because it is one of
/// the library or is about a schema of Arrow, and 2 if the slot contains no error.
#[unsafe(no_mangle)]
pub extern "C" fn vlt_core_error_position(error: &mut Slot, position: &mut usize) -> u32
    ensures writes { Writes (on (error_in error.old.value) (λ e. found (failure_position e) gives)) result position.old position.new }
    ensures kept { error.new.value ≡ error.old.value }
{
    let Some(failure) = as_error(error) else {
        return KIND;
    };
    match failure {
        Failure::Library(_) | Failure::Arrow { .. } => NONE,
        Failure::Text { position: at, .. } | Failure::Deep { position: at } => {
            *position = *at;
            OK
        }
    }
}

/// Writes the message of the error to `buffer`. For an error of the library it is the library's own text, for example
/// `index 9 out of bounds for struct with 2 fields`. If a text can't be read, it states what was expected at the
/// position of the error, for example `expected a type, not "int32"; nearest: i32`. For a schema of Arrow it names the
/// field, for example `column "a": the Arrow format "tdX" has no type here`, and if the library refuses the type of the
/// field, the library's own text follows. Returns 2 if the slot contains no error.
#[unsafe(no_mangle)]
pub extern "C" fn vlt_core_error_message(
    alloc: Global,
    error: &mut Slot,
    buffer: &mut [u8],
    length: &mut usize,
) -> u32
    ensures fills { Fills
        (on (error_in error.old.value) (λ e. unless_memory (message_of e)))
        result (buffer.old, length.old) (buffer.new, length.new) }
    ensures kept { error.new.value ≡ error.old.value }
{
    let Some(failure) = as_error(error) else {
        return KIND;
    };
    match failure {
        Failure::Text { message, .. } | Failure::Arrow { message, .. } => {
            write_bytes(message.as_bytes(), buffer, length)
        }
        Failure::Deep { .. } => write_bytes(b"expected at most 128 levels", buffer, length),
        Failure::Library(why) => match why.to_string(alloc) {
            Ok(text) => write_bytes(text.as_bytes(), buffer, length),
            Err(_) => LIBRARY,
        },
    }
}
