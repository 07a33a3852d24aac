// SPDX-License-Identifier: Apache-2.0
// SPDX-FileCopyrightText: Copyright the Vortex contributors

// The reader of types. Each function reads at the front of bytes, and returns what it read and the bytes after it.
ghost use Rattle.std.specs.Prelude.{◌≡◌, map, IfOk, IfErr, MatchResult, Some, None, if◌then◌else◌, List, Bool, length};
ghost use Rattle.dtype_base.specs.Errors.{Makes};
ghost use Rattle.dtype_types.specs.parts.FieldTypes.{field_tree};
ghost use Rattle.dtype_types.specs.tree.Tree as of;
ghost use Rattle.dtype_types.specs.tree.Tree.{Tree, fields};
ghost use Rattle.dtype_types.specs.tree.TreeOf.{tree, children};
ghost use Rattle.dtype_text.specs.Outcome.{Gives, got, refused};
ghost use Rattle.dtype_text.specs.TypeParts.{is_decimal, a_decimal, decimal_error};
ghost use Rattle.dtype_text.specs.Types.{null_at, wrapped_by, list_by, fixed_by, field_by, separated, items_by, struct_by, variant_by, union_by, after_keyword, keyword_by, bare_extension_by, quoted_extension_by, extension_by, decimal_at, map_by, word_by, type_by, part_at, whole_at};
ghost use Rattle.dtype_text.specs.Grammar.{Stands, IsSpelled, IsReadAs};
ghost use Rattle.dtype_text.specs.declared.text_error.TextError.TheVariants.{OutOfMemory};
ghost use Rattle.dtype_text.specs.Within.{IsFaultOf};
ghost use Rattle.dtype_text.specs.Views.{typed, field_pairs, read_variant, read_variants};

use crate::bare::is_bare_id;
use crate::fault::{Fault, misread};
use crate::keyword::Keyword;
use crate::leaves::{
    after, at_special, byte, comma, equals_behind, id_word, metadata, name, nullability, quoted,
    skip, text_of,
};
use crate::text_error::{Expected, TextError};
use crate::type_parts::{
    decimal_parts, end, equals_of_variant, is_end, keys_sorted, keyword_at, size, tag,
};
use crate::unions::{Variant, union_of};
use dtype_base::{DecimalDType, FieldName, VortexResult};
use dtype_types::{DType, ExtDTypeRef, ExtId, FieldDType, StructFields};
use std::alloc::Global;

/// How many levels of types may be inside one another.
pub const MAX_LEVELS: u32 = 128;

// Reads a type within another.
#[cycle(reading)]
#[tactic(auto, using(crate::proofs::TypeFacts::parts))]
fn part(alloc: Global, bytes: &[u8], levels: u32) -> Result<(DType, &[u8]), Fault>
    ensures { Gives typed result (part_at levels bytes.now) }
{
    if levels == 0 {
        return Err(Fault::TooDeep { left: bytes.len() });
    }
    dtype(alloc, bytes, levels - 1)
}

// Reads a type.
#[cycle(reading)]
#[tactic(auto, unfolding(crate::specs::Types::type_by))]
fn dtype(alloc: Global, bytes: &[u8], levels: u32) -> Result<(DType, &[u8]), Fault>
    ensures { Gives typed result (type_by (part_at levels) bytes.now) }
{
    match bytes {
        [b'{', rest @ ..] => structure(alloc, rest, levels),
        [b'"', rest @ ..] => quoted_extension(alloc, rest, levels),
        _ => word(alloc, bytes, levels),
    }
}

// Reads a type that begins with a word, which is an id if a bracket is behind it.
#[cycle(reading)]
#[tactic(auto, unfolding(crate::specs::Types::word_by))]
fn word(alloc: Global, bytes: &[u8], levels: u32) -> Result<(DType, &[u8]), Fault>
    ensures { Gives typed result (word_by (part_at levels) bytes.now) }
{
    let (_, rest) = id_word(bytes);
    match after(rest, b'[') {
        Some(_) => bare_extension(alloc, bytes, levels),
        None => keyword_type(alloc, bytes, levels),
    }
}

// Reads an extension whose id is a bare word.
#[cycle(reading)]
#[tactic(auto, unfolding(crate::specs::Types::bare_extension_by))]
fn bare_extension(alloc: Global, bytes: &[u8], levels: u32) -> Result<(DType, &[u8]), Fault>
    ensures { Gives typed result (bare_extension_by (part_at levels) bytes.now) }
{
    let (word, rest) = id_word(bytes);
    match text_of(word) {
        Some(id) if is_bare_id(id) => extension(alloc, id, rest, levels),
        _ => Err(misread(at_special(bytes, word), expected_id(word))),
    }
}

// Returns what is expected where this word was found before the bracket of an extension.
fn expected_id(word: &[u8]) -> Expected {
    if word.is_empty() {
        Expected::Type
    } else {
        Expected::Id
    }
}

// Reads an extension whose id is in quotes, after the opening quote.
#[cycle(reading)]
#[tactic(auto, unfolding(crate::specs::Types::quoted_extension_by))]
fn quoted_extension(alloc: Global, bytes: &[u8], levels: u32) -> Result<(DType, &[u8]), Fault>
    ensures { Gives typed result (quoted_extension_by (part_at levels) bytes.now) }
{
    let (id, rest) = quoted(alloc, bytes)?;
    extension(alloc, id.as_str(), rest, levels)
}

// Reads what is after the id of an extension.
#[cycle(reading)]
#[tactic(auto, unfolding(crate::specs::Types::extension_by))]
fn extension<'a>(
    alloc: Global,
    id: &str,
    bytes: &'a [u8],
    levels: u32,
) -> Result<(DType, &'a [u8]), Fault>
    ensures { Gives typed result (extension_by (part_at levels) id.now bytes.now) }
{
    let (read, rest) = metadata(alloc, bytes)?;
    let (storage, rest) = wrapped(alloc, rest, levels)?;
    Ok((extension_of(alloc, id, read, storage)?, rest))
}

#[tactic(auto, using(crate::proofs::TypeFacts::extensions))]
fn extension_of(alloc: Global, id: &str, metadata: Vec<u8>, storage: DType) -> VortexResult<DType>
    ensures { Makes result (λ d. tree d ≡ of.extension id.now metadata.items (tree storage)) }
{
    let made = ExtDTypeRef::from_parts(alloc, ExtId::new(alloc, id)?, metadata, storage)?;
    Ok(DType::Extension(made))
}

// Reads a type that begins with a keyword.
#[cycle(reading)]
#[tactic(auto, unfolding(crate::specs::Types::keyword_by))]
fn keyword_type(alloc: Global, bytes: &[u8], levels: u32) -> Result<(DType, &[u8]), Fault>
    ensures { Gives typed result (keyword_by (part_at levels) bytes.now) }
{
    let (keyword, rest) = keyword_at(bytes)?;
    after_word(alloc, keyword, rest, levels)
}

// The decimal of a precision and a scale.
#[tactic(auto, using(crate::proofs::TypeFacts::decimals))]
fn decimal_of(precision: u8, scale: i8) -> Result<DecimalDType, Fault>
    ensures { Gives (λ d. d) result (if is_decimal precision scale then got (a_decimal precision scale) else refused (decimal_error precision scale)) }
{
    match DecimalDType::try_new(precision, scale) {
        Ok(decimal) => Ok(decimal),
        Err(error) => Err(Fault::Refused(error)),
    }
}

// Reads what is after `decimal`.
#[tactic(auto, unfolding(crate::specs::Types::decimal_at, crate::specs::Types::marked))]
fn decimal(bytes: &[u8]) -> Result<(DType, &[u8]), Fault>
    ensures { Gives typed result (decimal_at bytes.now) }
{
    let ((precision, scale), rest) = decimal_parts(bytes)?;
    let decimal = decimal_of(precision, scale)?;
    let (n, rest) = nullability(rest);
    Ok((DType::Decimal(decimal, n), rest))
}

// Reads what is after `map`.
#[cycle(reading)]
#[tactic(auto, unfolding(crate::specs::Types::map_by, crate::specs::Types::marked))]
fn map(alloc: Global, bytes: &[u8], levels: u32) -> Result<(DType, &[u8]), Fault>
    ensures { Gives typed result (map_by (part_at levels) bytes.now) }
{
    let rest = byte(bytes, b'(')?;
    let (key, rest) = part(alloc, skip(rest), levels)?;
    let (value, rest) = part(alloc, comma(rest)?, levels)?;
    let (sorted, rest) = keys_sorted(rest)?;
    let (n, rest) = nullability(rest);
    Ok((DType::map(alloc, key, value, sorted, n)?, rest))
}

// Reads what is after the word of a type.
#[cycle(reading)]
#[tactic(auto, unfolding(crate::specs::Types::after_keyword, crate::specs::Types::marked))]
fn after_word(
    alloc: Global,
    keyword: Keyword,
    bytes: &[u8],
    levels: u32,
) -> Result<(DType, &[u8]), Fault>
    ensures { Gives typed result (after_keyword (part_at levels) keyword bytes.now) }
{
    match keyword {
        Keyword::Null => null(bytes),
        Keyword::Bool => {
            let (n, rest) = nullability(bytes);
            Ok((DType::Bool(n), rest))
        }
        Keyword::Utf8 => {
            let (n, rest) = nullability(bytes);
            Ok((DType::Utf8(n), rest))
        }
        Keyword::Binary => {
            let (n, rest) = nullability(bytes);
            Ok((DType::Binary(n), rest))
        }
        Keyword::Variant => {
            let (n, rest) = nullability(bytes);
            Ok((DType::Variant(n), rest))
        }
        Keyword::Primitive(ptype) => {
            let (n, rest) = nullability(bytes);
            Ok((DType::Primitive(ptype, n), rest))
        }
        Keyword::List => list(alloc, bytes, levels),
        Keyword::FixedSizeList => fixed(alloc, bytes, levels),
        Keyword::Decimal => decimal(bytes),
        Keyword::Map => map(alloc, bytes, levels),
        Keyword::Union => union(alloc, bytes, levels),
    }
}

// Reads what is after `null`.
#[tactic(auto, unfolding(crate::specs::Types::null_at))]
fn null(bytes: &[u8]) -> Result<(DType, &[u8]), Fault>
    ensures { Gives typed result (null_at bytes.now) }
{
    match after(bytes, b'?') {
        Some(_) => Err(misread(bytes, Expected::NoMark)),
        None => Ok((DType::Null, bytes)),
    }
}

// Reads a type in parentheses.
#[cycle(reading)]
#[tactic(auto, unfolding(crate::specs::Types::wrapped_by))]
fn wrapped(alloc: Global, bytes: &[u8], levels: u32) -> Result<(DType, &[u8]), Fault>
    ensures { Gives typed result (wrapped_by (part_at levels) bytes.now) }
{
    let rest = byte(bytes, b'(')?;
    let (dtype, rest) = part(alloc, skip(rest), levels)?;
    let rest = byte(skip(rest), b')')?;
    Ok((dtype, rest))
}

// Reads what is after `list`.
#[cycle(reading)]
#[tactic(auto, unfolding(crate::specs::Types::list_by, crate::specs::Types::marked))]
fn list(alloc: Global, bytes: &[u8], levels: u32) -> Result<(DType, &[u8]), Fault>
    ensures { Gives typed result (list_by (part_at levels) bytes.now) }
{
    let (element, rest) = wrapped(alloc, bytes, levels)?;
    let (n, rest) = nullability(rest);
    Ok((DType::list(alloc, element, n)?, rest))
}

// Reads what is after `fixed_size_list`.
#[cycle(reading)]
#[tactic(auto, unfolding(crate::specs::Types::fixed_by, crate::specs::Types::marked))]
fn fixed(alloc: Global, bytes: &[u8], levels: u32) -> Result<(DType, &[u8]), Fault>
    ensures { Gives typed result (fixed_by (part_at levels) bytes.now) }
{
    let (element, rest) = wrapped(alloc, bytes, levels)?;
    let (size, rest) = size(rest)?;
    let (n, rest) = nullability(rest);
    Ok((DType::fixed_size_list(alloc, element, size, n)?, rest))
}

// Reads a field.
#[cycle(reading)]
#[tactic(auto, unfolding(crate::specs::Types::field_by))]
fn field(
    alloc: Global,
    bytes: &[u8],
    levels: u32,
) -> Result<((FieldName, FieldDType), &[u8]), Fault>
    ensures { Gives (λ x. ((x.0.0, field_tree x.0.1), x.1.now)) result (field_by (part_at levels) bytes.now) }
{
    let (name, rest) = name(alloc, bytes)?;
    let (dtype, rest) = part(alloc, equals_behind(bytes, rest)?, levels)?;
    Ok(((name, FieldDType::from(dtype)), rest))
}

// Reads fields up to the closing brace.
#[cycle(reading)]
#[tactic(auto, unfolding(crate::specs::Types::items_by))]
fn fields(
    alloc: Global,
    bytes: &[u8],
    levels: u32,
) -> Result<(Vec<(FieldName, FieldDType)>, &[u8]), Fault>
    ensures { Gives (λ x. (field_pairs x.0.items, x.1.now)) result (items_by 125 (field_by (part_at levels)) bytes.now) }
{
    match after(bytes, b'}') {
        Some(rest) => Ok((Vec::new(alloc), rest)),
        None => some_fields(alloc, bytes, levels),
    }
}

// Reads one field or more up to the closing brace.
#[cycle(reading)]
fn some_fields(
    alloc: Global,
    bytes: &[u8],
    levels: u32,
) -> Result<(Vec<(FieldName, FieldDType)>, &[u8]), Fault>
    ensures { Gives (λ x. (field_pairs x.0.items, x.1.now)) result (separated 125 (field_by (part_at levels)) (length bytes.now) bytes.now) }
{
    let mut fields = Vec::new(alloc);
    let mut rest = bytes;
    for _ in 0..bytes.len() {
        let (field, behind) = field(alloc, rest, levels)?;
        let (is_end, behind) = end(behind, b'}')?;
        fields.push(field)?;
        if is_end {
            return Ok((fields, behind));
        }
        rest = behind;
    }
    Err(misread(rest, Expected::Name))
}

// Reads a variant.
#[cycle(reading)]
#[tactic(auto, unfolding(crate::specs::Types::variant_by))]
fn variant(alloc: Global, bytes: &[u8], levels: u32) -> Result<(Variant, &[u8]), Fault>
    ensures { Gives (λ x. (read_variant x.0, x.1.now)) result (variant_by (part_at levels) bytes.now) }
{
    let (name, rest) = name(alloc, bytes)?;
    let (tag, rest) = tag(rest)?;
    let (dtype, rest) = part(alloc, equals_of_variant(bytes, tag, rest)?, levels)?;
    Ok((Variant { name, tag, dtype }, rest))
}

// Reads variants up to the closing parenthesis.
#[cycle(reading)]
#[tactic(auto, unfolding(crate::specs::Types::items_by))]
fn variants(alloc: Global, bytes: &[u8], levels: u32) -> Result<(Vec<Variant>, &[u8]), Fault>
    ensures { Gives (λ x. (read_variants x.0.items, x.1.now)) result (items_by 41 (variant_by (part_at levels)) bytes.now) }
{
    match after(bytes, b')') {
        Some(rest) => Ok((Vec::new(alloc), rest)),
        None => some_variants(alloc, bytes, levels),
    }
}

// Reads one variant or more up to the closing parenthesis.
#[cycle(reading)]
fn some_variants(alloc: Global, bytes: &[u8], levels: u32) -> Result<(Vec<Variant>, &[u8]), Fault>
    ensures { Gives (λ x. (read_variants x.0.items, x.1.now)) result (separated 41 (variant_by (part_at levels)) (length bytes.now) bytes.now) }
{
    let mut variants = Vec::new(alloc);
    let mut rest = bytes;
    for _ in 0..bytes.len() {
        let (variant, behind) = variant(alloc, rest, levels)?;
        let (is_end, behind) = end(behind, b')')?;
        variants.push(variant)?;
        if is_end {
            return Ok((variants, behind));
        }
        rest = behind;
    }
    Err(misread(rest, Expected::Name))
}

// Reads what is after `union`.
#[cycle(reading)]
#[tactic(auto, unfolding(crate::specs::Types::union_by, crate::specs::Types::marked), using(crate::proofs::TypeFacts::unions))]
fn union(alloc: Global, bytes: &[u8], levels: u32) -> Result<(DType, &[u8]), Fault>
    ensures { Gives typed result (union_by (part_at levels) bytes.now) }
{
    let rest = byte(bytes, b'(')?;
    let (variants, rest) = variants(alloc, skip(rest), levels)?;
    let made = union_of(alloc, variants, rest)?;
    let (n, rest) = nullability(rest);
    Ok((DType::Union(made, n), rest))
}

// Reads a struct after its opening brace.
#[cycle(reading)]
#[tactic(auto, unfolding(crate::specs::Types::struct_by, crate::specs::Types::marked), using(crate::proofs::TypeFacts::structs))]
fn structure(alloc: Global, bytes: &[u8], levels: u32) -> Result<(DType, &[u8]), Fault>
    ensures { Gives typed result (struct_by (part_at levels) bytes.now) }
{
    let (fields, rest) = fields(alloc, skip(bytes), levels)?;
    let (n, rest) = nullability(rest);
    let made = struct_of(alloc, fields)?;
    Ok((DType::Struct(made, n), rest))
}

fn struct_of(alloc: Global, fields: Vec<(FieldName, FieldDType)>) -> VortexResult<StructFields>
    ensures { Makes result (λ s. children s ≡ field_pairs fields.items) }
{
    StructFields::from_iter(alloc, fields)
}

#[tactic(auto, unfolding(crate::specs::Types::whole_at))]
fn whole(alloc: Global, bytes: &[u8]) -> Result<DType, Fault>
    ensures { Gives tree result (whole_at bytes.now) }
{
    let (dtype, rest) = type_at(alloc, skip(bytes))?;
    let rest = skip(rest);
    if !is_end(rest) {
        return Err(misread(rest, Expected::End));
    }
    Ok(dtype)
}

/// Reads the type at the front of bytes, and returns it with the bytes after it. No blanks may stand in front.
///
/// # Errors
///
/// The fault says how many of the bytes are left at its place.
pub fn type_at(alloc: Global, bytes: &[u8]) -> Result<(DType, &[u8]), Fault>
    ensures { Gives typed result (type_by (part_at 128) bytes.now) }
{
    dtype(alloc, bytes, MAX_LEVELS)
}

/// Returns the type that a text stands for.
///
/// For example, `{a=i32, b=list(utf8?)}` stands for a struct with two fields. Blanks, ends of lines and comments may stand
/// in front of the type, behind it, inside brackets, braces and parentheses, and around `=` and `,`. A comment begins with
/// `#` and ends with its line.
///
/// # Errors
///
/// - `Misread`: the text isn't spelled like a type. The error says at which position which part was expected.
/// - `Refused`: the library refuses a part that the text spells, with the library's error. For example, `decimal(0,0)` is
///   refused with `PrecisionZero`. What comes after that part isn't read, and may be misspelled.
/// - `TooDeep`: the text has more than 128 levels of types inside one another.
/// - `OutOfMemory`: an allocation fails.
///
/// It takes time linear in the length of the text.
#[tactic(auto, using(crate::proofs::Whole::whole_texts))]
pub fn read_dtype(alloc: Global, text: &str) -> Result<DType, TextError>
    // The text stands for the type.
    ensures found { IfOk result (λ d. Stands (tree d) text.now) }
    // What stands for a type is read, unless memory runs out.
    ensures only { (t : Tree) → Stands t text.now → MatchResult result (λ d. tree d ≡ t) (λ e. e ≡ OutOfMemory) }
    // Of a text that spells a type, only what isn't valid is refused, with an error of the type or of a part of it, and only
    // what has more than 128 levels is too deep.
    ensures spelled { (t : Tree) → IsSpelled t text.now → IsReadAs t result }
    // Whatever else the text is, a part that is refused stands in it and is refused with that error, and a part that is too
    // deep begins at that position.
    ensures faults { IfErr result (IsFaultOf text.now) }
{
    let bytes = text.as_bytes();
    match whole(alloc, bytes) {
        Ok(dtype) => Ok(dtype),
        Err(fault) => Err(TextError::of(fault, bytes)),
    }
}
