// SPDX-License-Identifier: Apache-2.0
// SPDX-FileCopyrightText: Copyright the Vortex contributors

// Types in the text form that can be read back.
ghost use Rattle.std.specs.Prelude.{◌≡◌, IfSome, OnOk, string_bytes};
ghost use Rattle.dtype_base.specs.Errors.{Makes};
ghost use Rattle.dtype_text.specs.Grammar.{AreTexts};
ghost use Rattle.dtype_text.specs.Source.{source};
ghost use Rattle.dtype_types.specs.tree.TreeOf.{tree};
ghost use Rattle.vortex_logical_types.specs.Slots.{type_in};
ghost use Rattle.vortex_logical_types.specs.Texts.{StoresUnread, reads_type};
ghost use Rattle.vortex_logical_types.specs.Vocabulary.{Fills, PutsOr, gives, if_utf8, on, unless_memory};

use crate::buffers::write_bytes;
use crate::errors::{KIND, LIBRARY, NOT_UTF8};
use crate::failures::{fail, fail_with};
use crate::objects::put;
use crate::views::as_dtype;
use c_objects::{Failure, Object, Slot};
use dtype_base::VortexResult;
use dtype_text::{TextError, read_dtype, write_dtype};
use dtype_types::DType;
use std::alloc::{AllocError, Global};
use std::str;
use text_hints::{TextHint, hint_of};

/// Reads a type from its text, for example `{a=i32, b=list(utf8)?}`, and stores it in `out`. The text is written in the
/// form of `vlt_dtype_to_text`, and may contain blanks, ends of lines and comments.
///
/// Returns 3 if the text isn't UTF-8. The other failures store an error in `error`:
///
/// - 4 if the text isn't spelled like a type. `vlt_error_position` returns at which byte, counted from 1, something
///   else was expected, and `vlt_error_message` what.
/// - 6 if types are nested more than 128 levels deep in the text, with the position of the first that is too deep.
/// - the number of the library's error if the text spells a type that can't be made: for a decimal 101 to 104, as
///   `vlt_dtype_decimal` returns them; for a map 109 if its key type is nullable; and for a union 112 if it has no
///   variants, 113 if a tag occurs twice, 114 if it has more than 256 variants without tags, and 115 if a name occurs
///   twice. For example, it is 101 for `{a=decimal(0,0)}`.
#[unsafe(no_mangle)]
pub extern "C" fn vlt_core_dtype_from_text(
    alloc: Global,
    text: &[u8],
    out: &mut Slot,
    error: &mut Slot,
) -> u32
    ensures { PutsOr type_in (if_utf8 text.now (unless_memory (reads_type text.now)))
        result out.old.value out.new.value error.old.value error.new.value }
{
    match str::from_utf8(text) {
        Ok(text) => put_read(alloc, text, out, error),
        Err(_) => NOT_UTF8,
    }
}

fn put_read(alloc: Global, text: &str, out: &mut Slot, error: &mut Slot) -> u32
    ensures { PutsOr type_in (unless_memory (reads_type text.now))
        result out.old.value out.new.value error.old.value error.new.value }
{
    match read_dtype(alloc, text) {
        Ok(dtype) => put(alloc, out, Object::DType(dtype)),
        Err(why) => {
            let hint = hint_of(alloc, &why, text);
            fail_to_read(alloc, error, why, hint)
        }
    }
}

/// Stores in the slot `error` the reason for which a text can't be read, with the message of the hint, and returns its
/// number. If memory runs out, for the hint or here, the slot is unchanged, and the call returns 100.
pub fn fail_to_read(
    alloc: Global,
    error: &mut Slot,
    why: TextError,
    hint: Result<Option<TextHint>, AllocError>,
) -> u32
    ensures { StoresUnread why hint result error.old.value error.new.value }
{
    let message = match hint {
        Ok(Some(TextHint { message, .. })) => message,
        Ok(None) => String::new(alloc),
        Err(_) => return LIBRARY,
    };
    match why {
        TextError::OutOfMemory => LIBRARY,
        TextError::Refused(why) => fail_with(alloc, error, why),
        TextError::TooDeep { position } => fail(alloc, error, Failure::Deep { position }),
        TextError::Misread { position, .. } => {
            fail(alloc, error, Failure::Text { position, message })
        }
    }
}

/// Writes the type to `buffer` in the form from which `vlt_dtype_from_text` reads the same type back. Nothing is
/// abbreviated. Names and ids stand in double quotes unless they consist of ASCII letters and digits, `_` and visible
/// characters beyond ASCII; and the metadata of extensions is in hexadecimal digits, for example
/// `vortex.date[0x00](i32?)`.
#[unsafe(no_mangle)]
pub extern "C" fn vlt_core_dtype_to_text(
    alloc: Global,
    dtype: &mut Slot,
    buffer: &mut [u8],
    length: &mut usize,
) -> u32
    ensures fills { Fills
        (on (type_in dtype.old.value) (λ t. unless_memory (gives (source t))))
        result (buffer.old, length.old) (buffer.new, length.new) }
    // The names and the ids in the type are UTF-8, so that the text stands for it if it is valid and has at most 128 levels.
    ensures texts { result ≡ 0 → IfSome (type_in dtype.old.value) AreTexts }
    ensures kept { dtype.new.value ≡ dtype.old.value }
{
    let Some(dtype) = as_dtype(dtype) else {
        return KIND;
    };
    match written(alloc, dtype) {
        Ok(text) => write_bytes(text.as_bytes(), buffer, length),
        Err(_) => LIBRARY,
    }
}

fn written(alloc: Global, dtype: &DType) -> VortexResult<String>
    ensures written { Makes result (λ s. string_bytes s ≡ source (tree dtype.now)) }
    ensures texts { OnOk result (AreTexts (tree dtype.now)) }
{
    let mut text = String::new(alloc);
    write_dtype(alloc, &mut text, dtype)?;
    Ok(text)
}
