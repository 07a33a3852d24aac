// SPDX-License-Identifier: Apache-2.0
// SPDX-FileCopyrightText: Copyright the Vortex contributors

// Readers of the parts of types that contain no type.
ghost use Rattle.std.specs.Prelude.{◌≡◌};
ghost use Rattle.dtype_text.specs.Read.{Reads};
ghost use Rattle.dtype_text.specs.Leaves.{comma_at, equals_at, number_at, tag_at};
ghost use Rattle.dtype_text.specs.TypeParts.{size_at, end_at, keyword_of_bytes as keyword_spec, keyword_at, decimal_parts as decimal_parts_spec, keys_sorted_at, is_end as is_end_spec};

use crate::fault::{Fault, misread};
use crate::keyword::{Keyword, keyword_of};
use crate::leaves::{
    after, boolean, byte, comma, equals, equals_behind, id_word, number, signed, skip, text_of,
    word_is,
};
use crate::text_error::Expected;

// The keyword of these bytes.
fn keyword_of_bytes(word: &[u8]) -> Option<Keyword>
    ensures { result ≡ keyword_spec word.now }
{
    keyword_of(text_of(word)?)
}

/// Reads a keyword.
#[tactic(auto, unfolding(crate::specs::TypeParts::keyword_at))]
pub fn keyword_at(bytes: &[u8]) -> Result<(Keyword, &[u8]), Fault>
    ensures { Reads (λ x. (x.0, x.1.now)) result (keyword_at bytes.now) }
{
    let (word, rest) = id_word(bytes);
    match keyword_of_bytes(word) {
        Some(keyword) => Ok((keyword, rest)),
        None => Err(misread(bytes, Expected::Type)),
    }
}

/// Reads the size of a fixed-size list.
#[tactic(auto, unfolding(crate::specs::TypeParts::size_at, crate::specs::Leaves::number_at))]
pub fn size(bytes: &[u8]) -> Result<(u32, &[u8]), Fault>
    ensures { Reads (λ x. (x.0, x.1.now)) result (size_at bytes.now) }
{
    let rest = skip(byte(bytes, b'[')?);
    let (size, rest) = size_number(rest)?;
    let rest = byte(skip(rest), b']')?;
    Ok((size, rest))
}

// Reads a number of 32 bits.
#[tactic(auto, unfolding(crate::specs::Leaves::number_at), using(std::proofs::lemmas::Bool::Decides::nat_tests))]
fn size_number(bytes: &[u8]) -> Result<(u32, &[u8]), Fault>
    ensures { Reads (λ x. (x.0, x.1.now)) result (number_at 4294967295 bytes.now) }
{
    let (size, rest) = number(bytes, 4294967295, Expected::Size)?;
    match u32::try_from(size) {
        Ok(size) => Ok((size, rest)),
        Err(_) => Err(misread(bytes, Expected::Size)),
    }
}

/// Reads the precision and the scale of a decimal.
#[tactic(auto, unfolding(crate::specs::TypeParts::decimal_parts))]
pub fn decimal_parts(bytes: &[u8]) -> Result<((u8, i8), &[u8]), Fault>
    ensures { Reads (λ x. (x.0, x.1.now)) result (decimal_parts_spec bytes.now) }
{
    let rest = skip(byte(bytes, b'(')?);
    let (precision, rest) = small_number(rest, Expected::Precision)?;
    let (scale, rest) = signed(comma(rest)?)?;
    let rest = byte(skip(rest), b')')?;
    Ok(((precision, scale), rest))
}

// Reads a number of 8 bits, of which this is expected.
#[tactic(auto, unfolding(crate::specs::Leaves::number_at), using(std::proofs::lemmas::Bool::Decides::nat_tests))]
fn small_number(bytes: &[u8], expected: Expected) -> Result<(u8, &[u8]), Fault>
    ensures { Reads (λ x. (x.0, x.1.now)) result (number_at 255 bytes.now) }
{
    let (number, rest) = number(bytes, 255, expected)?;
    match u8::try_from(number) {
        Ok(number) => Ok((number, rest)),
        Err(_) => Err(misread(bytes, expected)),
    }
}

/// Reads the tag of a variant, if it is written.
#[tactic(auto, unfolding(crate::specs::Leaves::tag_at))]
pub fn tag(bytes: &[u8]) -> Result<(Option<u8>, &[u8]), Fault>
    ensures { Reads (λ x. (x.0, x.1.now)) result (tag_at bytes.now) }
{
    match after(bytes, b'@') {
        Some(rest) => {
            let (tag, rest) = small_number(rest, Expected::Tag)?;
            Ok((Some(tag), rest))
        }
        None => Ok((None, bytes)),
    }
}

// Reads a comma, with blanks around it, before the word of a map.
#[tactic(auto, unfolding(crate::specs::Leaves::comma_at))]
fn comma_before_keys_sorted(bytes: &[u8]) -> Result<&[u8], Fault>
    ensures { Reads (λ rest. rest.now) result (comma_at bytes.now) }
{
    let start = skip(bytes);
    match after(start, b',') {
        Some(rest) => Ok(skip(rest)),
        None => Err(misread(start, Expected::KeysSorted)),
    }
}

/// Reads a comma, whether the keys of a map are sorted, and the closing parenthesis.
#[tactic(auto, unfolding(crate::specs::TypeParts::keys_sorted_at))]
pub fn keys_sorted(bytes: &[u8]) -> Result<(bool, &[u8]), Fault>
    ensures { Reads (λ x. (x.0, x.1.now)) result (keys_sorted_at bytes.now) }
{
    let rest = word_is(comma_before_keys_sorted(bytes)?, b"keys_sorted")?;
    let (sorted, rest) = boolean(equals(rest)?)?;
    let rest = byte(skip(rest), b')')?;
    Ok((sorted, rest))
}

/// Reads the end of items, or the comma before the next, and returns whether it was the end.
#[tactic(auto, unfolding(crate::specs::TypeParts::end_at))]
pub fn end(bytes: &[u8], close: u8) -> Result<(bool, &[u8]), Fault>
    ensures { Reads (λ x. (x.0, x.1.now)) result (end_at close bytes.now) }
{
    match skip(bytes) {
        [first, rest @ ..] if *first == close => Ok((true, rest)),
        [b',', rest @ ..] => Ok((false, skip(rest))),
        rest => Err(misread(rest, Expected::CommaOr(char::from(close)))),
    }
}

/// Returns whether there is nothing, or a comment.
pub fn is_end(bytes: &[u8]) -> bool
    ensures { result ≡ is_end_spec bytes.now }
{
    match bytes {
        [] => true,
        [first, ..] => *first == b'#',
    }
}

/// Reads an equals sign behind the name of a variant and its tag, with blanks around it. The name was read at the front of
/// `name`.
pub fn equals_of_variant<'a>(
    name: &[u8],
    tag: Option<u8>,
    bytes: &'a [u8],
) -> Result<&'a [u8], Fault>
    ensures { Reads (λ rest. rest.now) result (equals_at bytes.now) }
{
    match tag {
        Some(_) => equals(bytes),
        None => equals_behind(name, bytes),
    }
}
