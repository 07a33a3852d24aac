// SPDX-License-Identifier: Apache-2.0
// SPDX-FileCopyrightText: Copyright the Vortex contributors

// Paths in the text form that can be read back.
ghost use Rattle.std.specs.Prelude.{◌≡◌, IfSome, OnOk, string_bytes};
ghost use Rattle.dtype_base.specs.Errors.{Makes};
ghost use Rattle.dtype_text.specs.PathGrammar.{StandsForPath};
ghost use Rattle.dtype_text.specs.PathSource.{path_source};
ghost use Rattle.vortex_logical_types.specs.Slots.{path_in};
ghost use Rattle.vortex_logical_types.specs.Texts.{reads_path};
ghost use Rattle.vortex_logical_types.specs.Vocabulary.{Fills, PutsOr, gives, if_utf8, on, unless_memory};

use crate::buffers::write_bytes;
use crate::errors::{KIND, LIBRARY, NOT_UTF8};
use crate::objects::put;
use crate::source_texts::fail_to_read;
use crate::views::as_path;
use c_objects::{Object, Slot};
use dtype_base::VortexResult;
use dtype_paths::FieldPath;
use dtype_text::{read_path, write_path};
use std::alloc::Global;
use std::str;
use text_hints::hint_of_path;

/// Reads a path from its text and stores it in `out`. For example, `a.[].b` is a path of three steps, and `.` is the
/// root. The text is written in the form of `vlt_path_to_text`, and blanks and comments may stand around it.
///
/// Returns 3 if the text isn't UTF-8, and 4 if it isn't spelled like a path. Then `error` contains an error:
/// `vlt_error_position` returns at which byte, counted from 1, something else was expected, and `vlt_error_message`
/// what. For example, the message for `a[0]` ends with `[] is a step of its own, for example in a.[].b`.
#[unsafe(no_mangle)]
pub extern "C" fn vlt_core_path_from_text(
    alloc: Global,
    text: &[u8],
    out: &mut Slot,
    error: &mut Slot,
) -> u32
    ensures { PutsOr path_in (if_utf8 text.now (unless_memory (reads_path text.now)))
        result out.old.value out.new.value error.old.value error.new.value }
{
    match str::from_utf8(text) {
        Ok(text) => put_read(alloc, text, out, error),
        Err(_) => NOT_UTF8,
    }
}

fn put_read(alloc: Global, text: &str, out: &mut Slot, error: &mut Slot) -> u32
    ensures { PutsOr path_in (unless_memory (reads_path text.now))
        result out.old.value out.new.value error.old.value error.new.value }
{
    match read_path(alloc, text) {
        Ok(path) => put(alloc, out, Object::Path(path)),
        Err(why) => {
            let hint = hint_of_path(alloc, &why, text);
            fail_to_read(alloc, error, why, hint)
        }
    }
}

/// Writes the path to `buffer` in the form from which `vlt_path_from_text` reads the same path back, for example
/// `a.[].b`. A name stands in double quotes unless it consists of ASCII letters and digits, `_` and visible characters
/// beyond ASCII.
#[unsafe(no_mangle)]
pub extern "C" fn vlt_core_path_to_text(
    alloc: Global,
    path: &mut Slot,
    buffer: &mut [u8],
    length: &mut usize,
) -> u32
    ensures fills { Fills
        (on (path_in path.old.value) (λ p. unless_memory (gives (path_source p))))
        result (buffer.old, length.old) (buffer.new, length.new) }
    // The text stands for the path.
    ensures again { result ≡ 0 → IfSome (path_in path.old.value) (λ p. StandsForPath p (path_source p)) }
    ensures kept { path.new.value ≡ path.old.value }
{
    let Some(path) = as_path(path) else {
        return KIND;
    };
    match written(alloc, path) {
        Ok(text) => write_bytes(text.as_bytes(), buffer, length),
        Err(_) => LIBRARY,
    }
}

fn written(alloc: Global, path: &FieldPath) -> VortexResult<String>
    ensures written { Makes result (λ s. string_bytes s ≡ path_source path.now) }
    ensures again { OnOk result (StandsForPath path.now (path_source path.now)) }
{
    let mut text = String::new(alloc);
    write_path(&mut text, path)?;
    Ok(text)
}
