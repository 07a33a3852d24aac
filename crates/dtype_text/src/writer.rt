// SPDX-License-Identifier: Apache-2.0
// SPDX-FileCopyrightText: Copyright the Vortex contributors

// The writer of types. A call that fails may have appended a part; `appended` has the calls after which the text is as it was.
ghost use Rattle.std.specs.Prelude.{◌≡◌, ◌<◌, ◌++◌, OnErr, OnOk, true, IsOkUnless, string_bytes};
ghost use Rattle.std.specs.Str.{is_utf8};
ghost use Rattle.dtype_base.specs.declared.vortex_error.VortexError.TheVariants.{OutOfMemory};
ghost use Rattle.dtype_types.specs.tree.TreeOf.{tree, fields_of, variants_of, extension_tree, map_shown};
ghost use Rattle.dtype_types.specs.tree.Tree.{fields, variants};
ghost use Rattle.dtype_text.specs.Grammar.{AreTexts, ItemsAreTexts};
ghost use Rattle.dtype_text.specs.Source.{source, name_source, id_source, fields_source, variants_source, hex_source, tag_source, map_source, byte_source};

use crate::bare::{is_bare_id, is_bare_name};
use dtype_base::{FieldName, VortexResult};
use dtype_types::{DType, ExtDTypeRef, ExtId, MapDType, StructFields, UnionVariants};
use std::alloc::Global;

// Appends a type.
#[cycle(written)]
#[tactic(auto, using(crate::proofs::Parts::source_parts, crate::proofs::Parts::text_parts, std::proofs::lemmas::Grind::common_steps))]
pub fn write_dtype(alloc: Global, out: &mut String, dtype: &DType) -> VortexResult<()>
    ensures written { OnOk result (string_bytes out.new ≡ string_bytes out.old ++ source (tree dtype.now)) }
    ensures texts { OnOk result (AreTexts (tree dtype.now)) }
    ensures errors { IsOkUnless result OutOfMemory }
{
    match dtype {
        DType::List(element, n) => {
            out.push_str("list(")?;
            write_dtype(alloc, out, element)?;
            write!(out, "){n}")?;
        }
        DType::FixedSizeList(element, size, n) => {
            out.push_str("fixed_size_list(")?;
            write_dtype(alloc, out, element)?;
            write!(out, ")[{size}]{n}")?;
        }
        DType::Map(map, n) => {
            write_map(alloc, out, map)?;
            write!(out, "{n}")?;
        }
        DType::Struct(fields, n) => {
            write_fields(alloc, out, fields)?;
            write!(out, "{n}")?;
        }
        DType::Union(variants, n) => {
            write_union(alloc, out, variants)?;
            write!(out, "{n}")?;
        }
        DType::Extension(extension) => write_extension(alloc, out, extension)?,
        plain => write!(out, "{plain}")?,
    }
    Ok(())
}

// Appends a map.
#[cycle(written)]
#[tactic(auto, using(std::proofs::lemmas::Grind::common_steps), unfolding(crate::specs::Source::map_source))]
pub fn write_map(alloc: Global, out: &mut String, map: &MapDType) -> VortexResult<()>
    ensures written { OnOk result (string_bytes out.new ≡ string_bytes out.old ++ map_source (map_shown map.now)) }
    ensures texts { OnOk result (AreTexts (map_shown map.now).0 × AreTexts (map_shown map.now).1) }
    ensures errors { IsOkUnless result OutOfMemory }
{
    let keys_sorted = map.keys_sorted();
    out.push_str("map(")?;
    write_dtype(alloc, out, map.key_dtype())?;
    out.push_str(", ")?;
    write_dtype(alloc, out, map.value_dtype())?;
    write!(out, ", keys_sorted={keys_sorted})")?;
    Ok(())
}

// Appends the fields of a struct in braces.
#[cycle(written)]
pub fn write_fields(alloc: Global, out: &mut String, fields: &StructFields) -> VortexResult<()>
    ensures written { OnOk result (string_bytes out.new ≡ string_bytes out.old ++ fields_source (fields_of fields.now)) }
    ensures texts { OnOk result (ItemsAreTexts (fields_of fields.now)) }
    ensures errors { IsOkUnless result OutOfMemory }
{
    out.push_str("{")?;
    let mut separator = "";
    for (name, dtype) in fields.pairs() {
        out.push_str(separator)?;
        write_name(out, name)?;
        out.push_str("=")?;
        write_dtype(alloc, out, dtype)?;
        separator = ", ";
    }
    out.push_str("}")?;
    Ok(())
}

// Appends the variants of a union in parentheses.
#[cycle(written)]
pub fn write_union(alloc: Global, out: &mut String, variants: &UnionVariants) -> VortexResult<()>
    ensures written { OnOk result (string_bytes out.new ≡ string_bytes out.old ++ variants_source (variants_of variants.now)) }
    ensures texts { OnOk result (ItemsAreTexts (variants_of variants.now)) }
    ensures errors { IsOkUnless result OutOfMemory }
{
    let is_consecutive = variants.is_consecutive();
    out.push_str("union(")?;
    let mut separator = "";
    for (name, tag, dtype) in variants.triples() {
        out.push_str(separator)?;
        write_name(out, name)?;
        write_tag(out, is_consecutive, tag)?;
        write_dtype(alloc, out, dtype)?;
        separator = ", ";
    }
    out.push_str(")")?;
    Ok(())
}

// Appends an extension.
#[cycle(written)]
pub fn write_extension(alloc: Global, out: &mut String, extension: &ExtDTypeRef) -> VortexResult<()>
    ensures written { OnOk result (string_bytes out.new ≡ string_bytes out.old ++ source (extension_tree extension.now)) }
    ensures texts { OnOk result (AreTexts (extension_tree extension.now)) }
    ensures errors { IsOkUnless result OutOfMemory }
{
    write_id(alloc, out, extension.id())?;
    out.push_str("[")?;
    write_hex(out, extension.metadata_bytes())?;
    out.push_str("](")?;
    write_dtype(alloc, out, extension.storage_dtype())?;
    out.push_str(")")?;
    Ok(())
}

// Appends a tag unless the tags are consecutive, and an equals sign.
fn write_tag(out: &mut String, is_consecutive: bool, tag: u8) -> VortexResult<()>
    ensures written { OnOk result (string_bytes out.new ≡ string_bytes out.old ++ tag_source is_consecutive tag) }
    ensures errors { IsOkUnless result OutOfMemory }
{
    if !is_consecutive {
        write!(out, "@{tag}")?;
    }
    out.push_str("=")?;
    Ok(())
}

/// Appends a name: bare if it can be, else in quotes. After an error `out` is as it was.
///
/// # Errors
///
/// - `OutOfMemory` (0): an allocation fails.
#[tactic(auto, using(crate::proofs::LeafFacts::utf8))]
pub fn write_name(out: &mut String, name: &FieldName) -> VortexResult<()>
    ensures utf8 { OnOk result (is_utf8 name.now ≡ true) }
    ensures written { OnOk result (string_bytes out.new ≡ string_bytes out.old ++ name_source name.now) }
    ensures kept { OnErr result (string_bytes out.new ≡ string_bytes out.old) }
    ensures errors { IsOkUnless result OutOfMemory }
{
    if is_bare_name(name.as_str()) {
        out.push_str(name.as_str())?;
    } else {
        let quoted = format!(in *out.allocator(); "\"{name}\"")?;
        out.push_str(quoted.as_str())?;
    }
    Ok(())
}

/// Appends an id: bare if it can be, else in quotes. After an error `out` is as it was.
///
/// # Errors
///
/// - `OutOfMemory` (0): an allocation fails.
#[tactic(auto, using(crate::proofs::LeafFacts::utf8))]
pub fn write_id(alloc: Global, out: &mut String, id: &ExtId) -> VortexResult<()>
    ensures written { OnOk result (string_bytes out.new ≡ string_bytes out.old ++ id_source id.now) }
    ensures utf8 { OnOk result (is_utf8 id.now ≡ true) }
    ensures kept { OnErr result (string_bytes out.new ≡ string_bytes out.old) }
    ensures errors { IsOkUnless result OutOfMemory }
{
    let text = id.as_str();
    if is_bare_id(text) {
        out.push_str(text)?;
    } else {
        let name = FieldName::new(alloc, text)?;
        let quoted = format!(in alloc; "\"{name}\"")?;
        out.push_str(quoted.as_str())?;
    }
    Ok(())
}

// Appends `0x` and bytes in hexadecimal.
#[tactic(auto, unfolding(crate::specs::Source::hex_source))]
pub fn write_hex(out: &mut String, bytes: &[u8]) -> VortexResult<()>
    ensures written { OnOk result (string_bytes out.new ≡ string_bytes out.old ++ hex_source bytes.now) }
    ensures errors { IsOkUnless result OutOfMemory }
{
    out.push_str("0x")?;
    for byte in bytes {
        write_byte(out, *byte)?;
    }
    Ok(())
}

// Appends the two hexadecimal digits of a byte.
fn write_byte(out: &mut String, byte: u8) -> VortexResult<()>
    ensures written { OnOk result (string_bytes out.new ≡ string_bytes out.old ++ byte_source byte) }
    ensures errors { IsOkUnless result OutOfMemory }
{
    write!(out, "{byte:02x}")?;
    Ok(())
}
