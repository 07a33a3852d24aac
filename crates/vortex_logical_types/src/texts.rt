// SPDX-License-Identifier: Apache-2.0
// SPDX-FileCopyrightText: Copyright the Vortex contributors

// Types as texts.
ghost use Rattle.std.specs.Prelude.{◌≡◌, string_bytes};
ghost use Rattle.dtype_base.specs.Errors.{Makes};
ghost use Rattle.dtype_types.specs.texts.IndentedText.{indented_text};
ghost use Rattle.dtype_types.specs.texts.Text.{text};
ghost use Rattle.dtype_types.specs.tree.Kinds.{struct_fields};
ghost use Rattle.dtype_types.specs.tree.Tree.{fields as fields_of_pairs};
ghost use Rattle.dtype_types.specs.tree.TreeOf.{tree};
ghost use Rattle.vortex_logical_types.specs.Slots.{type_in};
ghost use Rattle.vortex_logical_types.specs.Vocabulary.{Fills, gives, on, unless_memory, within};

use crate::buffers::write_bytes;
use crate::errors::{CONDITION, KIND, of_library};
use crate::views::as_dtype;
use c_objects::Slot;
use dtype_base::VortexResult;
use dtype_types::DType;
use std::alloc::Global;

/// Writes the type to `buffer` as the library displays it, for example `{a=i32, b=list(utf8)?}`. `vlt_dtype_from_text`
/// may not read it back. For example, a name that contains a comma is written without quotes.
#[unsafe(no_mangle)]
pub extern "C" fn vlt_core_dtype_display(
    alloc: Global,
    dtype: &mut Slot,
    buffer: &mut [u8],
    length: &mut usize,
) -> u32
    ensures fills { Fills
        (on (type_in dtype.old.value) (λ t. unless_memory (gives (text t))))
        result (buffer.old, length.old) (buffer.new, length.new) }
    ensures kept { dtype.new.value ≡ dtype.old.value }
{
    let Some(dtype) = as_dtype(dtype) else {
        return KIND;
    };
    match displayed(alloc, dtype) {
        Ok(text) => write_bytes(text.as_bytes(), buffer, length),
        Err(error) => of_library(error),
    }
}

fn displayed(alloc: Global, dtype: &DType) -> VortexResult<String>
    ensures { Makes result (λ s. string_bytes s ≡ text (tree dtype.now)) }
{
    let mut text = String::new(alloc);
    write!(text, "{dtype}")?;
    Ok(text)
}

/// Writes the fields of a struct to `buffer` as text over several lines. The first line is an opening brace, then each
/// field has a line that begins with two spaces, and the last line is a closing brace. For example, the text of
/// `{a=i32, b=utf8}` has the four lines `{`, `  a=i32,`, `  b=utf8` and `}`. A struct that is the type of a field, or
/// the element type of a list, is written over several lines too, with two more spaces. Returns 5 if the type isn't a
/// struct.
#[unsafe(no_mangle)]
pub extern "C" fn vlt_core_struct_indented(
    alloc: Global,
    dtype: &mut Slot,
    buffer: &mut [u8],
    length: &mut usize,
) -> u32
    ensures fills { Fills
        (on (type_in dtype.old.value) (λ t. within (struct_fields t) (λ fs. unless_memory (gives (indented_text (fields_of_pairs fs))))))
        result (buffer.old, length.old) (buffer.new, length.new) }
    ensures kept { dtype.new.value ≡ dtype.old.value }
{
    let Some(dtype) = as_dtype(dtype) else {
        return KIND;
    };
    let Some(fields) = dtype.as_struct_fields_opt() else {
        return CONDITION;
    };
    match fields.indented(alloc) {
        Ok(text) => write_bytes(text.as_bytes(), buffer, length),
        Err(error) => of_library(error),
    }
}
