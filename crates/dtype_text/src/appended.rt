// SPDX-License-Identifier: Apache-2.0
// SPDX-FileCopyrightText: Copyright the Vortex contributors

// The calls that append texts. Each writes a new text first, and appends it whole.
ghost use Rattle.std.specs.Prelude.{◌≡◌, ◌++◌, IsOkUnless, OnErr, OnOk, string_bytes};
ghost use Rattle.dtype_base.specs.declared.vortex_error.VortexError.TheVariants.{OutOfMemory};
ghost use Rattle.dtype_types.specs.tree.TreeOf.{tree, fields_of, variants_of, extension_tree, map_shown};
ghost use Rattle.dtype_text.specs.Grammar.{AreTexts, ItemsAreTexts};
ghost use Rattle.dtype_text.specs.Source.{source, fields_source, variants_source, hex_source, map_source};

use crate::writer;
use dtype_base::VortexResult;
use dtype_types::{DType, ExtDTypeRef, MapDType, StructFields, UnionVariants};
use std::alloc::Global;

/// Appends the text of a type to `out`, from which `read_dtype` reads the type back. Nothing is abbreviated. After an error
/// `out` is as it was.
///
/// For example, `{a=i32, "b c"=list(utf8?)}` is appended for a struct with two fields. The text is what `Display` prints,
/// except that the metadata of extensions is in hexadecimal digits, and that names and ids stand in quotes unless they
/// consist of ASCII letters and digits, `_` and visible characters beyond ASCII; ids may have dots too.
///
/// # Errors
///
/// - `OutOfMemory` (0): an allocation fails.
pub fn write_dtype(alloc: Global, out: &mut String, dtype: &DType) -> VortexResult<()>
    ensures written { OnOk result (string_bytes out.new ≡ string_bytes out.old ++ source (tree dtype.now)) }
    ensures texts { OnOk result (AreTexts (tree dtype.now)) }
    ensures kept { OnErr result (string_bytes out.new ≡ string_bytes out.old) }
    ensures errors { IsOkUnless result OutOfMemory }
{
    let mut text = String::new(alloc);
    writer::write_dtype(alloc, &mut text, dtype)?;
    Ok(out.push_str(text.as_str())?)
}

/// Appends the key type of a map, its value type and whether its keys are sorted, for example
/// `map(utf8, i32, keys_sorted=false)`. After an error `out` is as it was.
///
/// # Errors
///
/// - `OutOfMemory` (0): an allocation fails.
pub fn write_map(alloc: Global, out: &mut String, map: &MapDType) -> VortexResult<()>
    ensures written { OnOk result (string_bytes out.new ≡ string_bytes out.old ++ map_source (map_shown map.now)) }
    ensures texts { OnOk result (AreTexts (map_shown map.now).0 × AreTexts (map_shown map.now).1) }
    ensures kept { OnErr result (string_bytes out.new ≡ string_bytes out.old) }
    ensures errors { IsOkUnless result OutOfMemory }
{
    let mut text = String::new(alloc);
    writer::write_map(alloc, &mut text, map)?;
    Ok(out.push_str(text.as_str())?)
}

/// Appends the fields of a struct in braces, for example `{a=i32}`. After an error `out` is as it was.
///
/// # Errors
///
/// - `OutOfMemory` (0): an allocation fails.
pub fn write_fields(alloc: Global, out: &mut String, fields: &StructFields) -> VortexResult<()>
    ensures written { OnOk result (string_bytes out.new ≡ string_bytes out.old ++ fields_source (fields_of fields.now)) }
    ensures texts { OnOk result (ItemsAreTexts (fields_of fields.now)) }
    ensures kept { OnErr result (string_bytes out.new ≡ string_bytes out.old) }
    ensures errors { IsOkUnless result OutOfMemory }
{
    let mut text = String::new(alloc);
    writer::write_fields(alloc, &mut text, fields)?;
    Ok(out.push_str(text.as_str())?)
}

/// Appends the variants of a union, for example `union(a=i32)`. After an error `out` is as it was.
///
/// # Errors
///
/// - `OutOfMemory` (0): an allocation fails.
pub fn write_union(alloc: Global, out: &mut String, variants: &UnionVariants) -> VortexResult<()>
    ensures written { OnOk result (string_bytes out.new ≡ string_bytes out.old ++ variants_source (variants_of variants.now)) }
    ensures texts { OnOk result (ItemsAreTexts (variants_of variants.now)) }
    ensures kept { OnErr result (string_bytes out.new ≡ string_bytes out.old) }
    ensures errors { IsOkUnless result OutOfMemory }
{
    let mut text = String::new(alloc);
    writer::write_union(alloc, &mut text, variants)?;
    Ok(out.push_str(text.as_str())?)
}

/// Appends an extension, for example `vortex.date[0x00](i32)`. After an error `out` is as it was.
///
/// # Errors
///
/// - `OutOfMemory` (0): an allocation fails.
pub fn write_extension(alloc: Global, out: &mut String, extension: &ExtDTypeRef) -> VortexResult<()>
    ensures written { OnOk result (string_bytes out.new ≡ string_bytes out.old ++ source (extension_tree extension.now)) }
    ensures texts { OnOk result (AreTexts (extension_tree extension.now)) }
    ensures kept { OnErr result (string_bytes out.new ≡ string_bytes out.old) }
    ensures errors { IsOkUnless result OutOfMemory }
{
    let mut text = String::new(alloc);
    writer::write_extension(alloc, &mut text, extension)?;
    Ok(out.push_str(text.as_str())?)
}

/// Appends `0x` and two hexadecimal digits for each byte, for example `0x00ff`. After an error `out` is as it was.
///
/// # Errors
///
/// - `OutOfMemory` (0): an allocation fails.
pub fn write_hex(out: &mut String, bytes: &[u8]) -> VortexResult<()>
    ensures written { OnOk result (string_bytes out.new ≡ string_bytes out.old ++ hex_source bytes.now) }
    ensures kept { OnErr result (string_bytes out.new ≡ string_bytes out.old) }
    ensures errors { IsOkUnless result OutOfMemory }
{
    let mut text = String::new(*out.allocator());
    writer::write_hex(&mut text, bytes)?;
    Ok(out.push_str(text.as_str())?)
}
