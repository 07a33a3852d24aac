// SPDX-License-Identifier: Apache-2.0
// SPDX-FileCopyrightText: Copyright the Vortex contributors

// Readers of what has no parts, at the front of bytes. Each returns what it read and the bytes after it.
ghost use Rattle.std.specs.Prelude.{◌≡◌, ◌+◌, ◌*◌, ◌<◌, ◌≤◌, string_bytes, Option, Some, None, IfErr, IfSome, IfOk, length, pos, neg_ℤ};
ghost use Rattle.std.specs.List.{prefix_len};
ghost use Rattle.dtype_text.specs.Bare.{is_bare_byte as is_bare_spec, is_id_byte as is_id_spec};
ghost use Rattle.dtype_text.specs.Leaves.{is_blank as is_blank_spec, is_in_line as is_in_line_spec, behind_comment as behind_comment_spec, is_number_byte as is_number_spec, front, past, skipped, nullability_at, digit_after, number_of, number_at, text_at, bare_at, hex_at, hex_byte_at, meaning as meaning_spec, escape_at, unit_at, quoted_at, name_at, equals_at, comma_at, signed_at, word_is as word_is_spec, bool_at, no_hex, metadata_at};
ghost use Rattle.dtype_text.specs.Places.{IsAt, bare_stop, escape_stop, from_special, here, name_stop, plain_len as plain_len_spec, quoted_stop, unit_stop, units_stop};
ghost use Rattle.dtype_text.specs.Read.{Reads, shown, byte_at, until};
ghost use Rattle.dtype_text.specs.declared.fault.Fault.TheVariants.{Misread};
ghost use Rattle.dtype_text.specs.declared.text_error.Expected.TheVariants as expecting;

use crate::bare::{has_special, is_bare_byte, is_id_byte, is_special};
use crate::fault::{Fault, misread};
use crate::text_error::Expected;
use dtype_base::{FieldName, Nullability};
use std::alloc::Global;
use std::str;

fn is_blank(byte: u8) -> bool
    ensures { result ≡ is_blank_spec byte }
{
    byte == b' ' || byte == b'\t' || byte == b'\n' || byte == b'\r'
}

fn is_in_line(byte: u8) -> bool
    ensures { result ≡ is_in_line_spec byte }
{
    byte != b'\n'
}

fn is_number_byte(byte: u8) -> bool
    ensures { result ≡ is_number_spec byte }
{
    byte == b'-' || is_bare_byte(byte)
}

#[tactic(auto, using(crate::proofs::LeafFacts::lens))]
fn blanks(bytes: &[u8]) -> usize
    ensures within { result ≤ length bytes.now }
    ensures count { result ≡ prefix_len is_blank_spec bytes.now }
{
    bytes.iter().take_while(|byte| is_blank(**byte)).count()
}

#[tactic(auto, using(crate::proofs::LeafFacts::lens))]
fn bare_len(bytes: &[u8]) -> usize
    ensures within { result ≤ length bytes.now }
    ensures count { result ≡ prefix_len is_bare_spec bytes.now }
{
    bytes.iter().take_while(|byte| is_bare_byte(**byte)).count()
}

#[tactic(auto, using(crate::proofs::LeafFacts::lens))]
fn number_len(bytes: &[u8]) -> usize
    ensures within { result ≤ length bytes.now }
    ensures count { result ≡ prefix_len is_number_spec bytes.now }
{
    bytes
        .iter()
        .take_while(|byte| is_number_byte(**byte))
        .count()
}

#[tactic(auto, using(crate::proofs::LeafFacts::lens))]
fn line_len(bytes: &[u8]) -> usize
    ensures within { result ≤ length bytes.now }
    ensures count { result ≡ prefix_len is_in_line_spec bytes.now }
{
    bytes.iter().take_while(|byte| is_in_line(**byte)).count()
}

// Returns the bytes without the blanks at their front.
fn without_blanks(bytes: &[u8]) -> &[u8]
    ensures { result.now ≡ past is_blank_spec bytes.now }
{
    let (_, rest) = bytes.split_at(blanks(bytes));
    rest
}

// Returns what is behind the comment with which the bytes begin, if that comment ends.
#[tactic(auto, using(crate::proofs::LeafFacts::comments))]
fn behind_comment(bytes: &[u8]) -> Option<&[u8]>
    ensures behind { shown (λ rest. rest.now) result ≡ behind_comment_spec bytes.now }
    ensures shorter { IfSome result (λ rest. length rest.now < length bytes.now) }
{
    match bytes {
        [b'#', line @ ..] => {
            let (_, rest) = line.split_at(line_len(line));
            after(rest, b'\n')
        }
        _ => None,
    }
}

/// Returns the bytes without the blanks and the comments at their front. A comment ends with its line. One that doesn't
/// end stays, so that the bytes begin with its `#`.
#[tactic(auto, using(crate::proofs::LeafFacts::skips))]
pub fn skip(bytes: &[u8]) -> &[u8]
    ensures { result.now ≡ skipped bytes.now }
{
    let mut rest = without_blanks(bytes);
    while let Some(behind) = behind_comment(rest) {
        rest = without_blanks(behind);
    }
    rest
}

#[tactic(auto, using(crate::proofs::LeafFacts::lens))]
fn id_len(bytes: &[u8]) -> usize
    ensures within { result ≤ length bytes.now }
    ensures count { result ≡ prefix_len is_id_spec bytes.now }
{
    bytes.iter().take_while(|byte| is_id_byte(**byte)).count()
}

/// Returns the word at the front of bytes, and the bytes after it.
pub fn id_word(bytes: &[u8]) -> (&[u8], &[u8])
    ensures word { result.0.now ≡ front is_id_spec bytes.now }
    ensures rest { result.1.now ≡ past is_id_spec bytes.now }
{
    bytes.split_at(id_len(bytes))
}

/// Returns what is after this byte, if it is there.
pub fn after(bytes: &[u8], wanted: u8) -> Option<&[u8]>
    ensures { shown (λ rest. rest.now) result ≡ byte_at wanted bytes.now }
{
    match bytes {
        [first, rest @ ..] if *first == wanted => Some(rest),
        _ => None,
    }
}

/// Reads this byte.
pub fn byte(bytes: &[u8], wanted: u8) -> Result<&[u8], Fault>
    ensures { Reads (λ rest. rest.now) result (byte_at wanted bytes.now) }
{
    match bytes {
        [first, rest @ ..] if *first == wanted => Ok(rest),
        _ => Err(misread(bytes, Expected::Sign(char::from(wanted)))),
    }
}

/// Reads the mark of nullability, if it is there.
pub fn nullability(bytes: &[u8]) -> (Nullability, &[u8])
    ensures { (result.0, result.1.now) ≡ nullability_at bytes.now }
{
    match bytes {
        [b'?', rest @ ..] => (Nullability::Nullable, rest),
        _ => (Nullability::NonNullable, bytes),
    }
}

// The number with one more digit.
#[tactic(auto, using(std::proofs::lemmas::Bool::Decides::nat_tests))]
fn with_digit(value: u64, digit: u8) -> Option<u64>
    ensures { result ≡ digit_after value digit }
{
    if !digit.is_ascii_digit() {
        return None;
    }
    value.checked_mul(10)?.checked_add(u64::from(digit - b'0'))
}

// The number of these digits.
#[tactic(auto, using(crate::proofs::LeafFacts::numbers), unfolding(crate::specs::Leaves::number_of))]
fn value_of(word: &[u8]) -> Option<u64>
    ensures { result ≡ number_of word.now }
{
    if word.is_empty() {
        return None;
    }
    let mut value: u64 = 0;
    for digit in word {
        value = with_digit(value, *digit)?;
    }
    Some(value)
}

/// Reads a number up to this one.
#[tactic(auto, unfolding(crate::specs::Leaves::number_at))]
pub fn number(bytes: &[u8], most: u64, expected: Expected) -> Result<(u64, &[u8]), Fault>
    ensures { Reads (λ x. (x.0, x.1.now)) result (number_at most bytes.now) }
{
    let (word, rest) = bytes.split_at(number_len(bytes));
    match value_of(word) {
        Some(value) if value <= most => Ok((value, rest)),
        _ => Err(misread(bytes, expected)),
    }
}

// The text of bytes, if they are UTF-8.
#[tactic(auto, using(crate::proofs::LeafFacts::utf8))]
pub fn text_of(bytes: &[u8]) -> Option<&str>
    ensures { shown (λ t. t.now) result ≡ text_at bytes.now }
{
    match str::from_utf8(bytes) {
        Ok(text) => Some(text),
        Err(_) => None,
    }
}

/// Returns these bytes from the first character on that no bare name has. The bytes begin with this word. If the word
/// has no such character, all bytes are returned.
#[tactic(auto, using(crate::proofs::Specials::specials))]
pub fn at_special<'a>(bytes: &'a [u8], word: &[u8]) -> &'a [u8]
    ensures { result.now ≡ from_special word.now bytes.now }
{
    let (_, rest) = bytes.split_at(plain_len(word).min(bytes.len()));
    rest
}

// Returns the number of bytes of a word before its first character that no bare name has, or 0 if it has no such character.
#[tactic(auto, using(crate::proofs::Specials::specials))]
fn plain_len(word: &[u8]) -> usize
    ensures { result ≡ plain_len_spec word.now }
{
    match text_of(word) {
        Some(text) => plain_text_len(text),
        None => 0,
    }
}

// Returns the same of a text.
fn plain_text_len(text: &str) -> usize
    ensures { result ≡ plain_len_spec text.now }
{
    match text.find(|character| is_special(character)) {
        Some(before) => before,
        None => 0,
    }
}

/// Returns the fault that an id was expected at the front of these bytes, which begin with this word. Its place is that of
/// the first character of the word that no bare id has.
pub fn not_an_id(bytes: &[u8], word: &[u8]) -> Fault
    ensures { result ≡ Misread (length (from_special word.now bytes.now)) expecting.Id }
{
    misread(at_special(bytes, word), Expected::Id)
}

// Reads a bare name.
#[tactic(auto, unfolding(crate::specs::Leaves::bare_at, crate::specs::Places::bare_stop))]
fn bare(alloc: Global, bytes: &[u8]) -> Result<(FieldName, &[u8]), Fault>
    ensures read { Reads (λ x. (x.0, x.1.now)) result (bare_at bytes.now) }
    ensures place { IfErr result (IsAt (bare_stop bytes.now)) }
{
    let (word, rest) = bytes.split_at(bare_len(bytes));
    match text_of(word) {
        Some(text) if !word.is_empty() && !has_special(text) => {
            Ok((FieldName::new(alloc, text)?, rest))
        }
        _ => Err(misread(at_special(bytes, word), Expected::Name)),
    }
}

// The value of a hexadecimal digit.
#[tactic(auto, using(std::proofs::lemmas::Bool::Decides::nat_tests))]
fn hex_digit(byte: u8) -> Option<u8>
    ensures value { result ≡ hex_at byte }
    ensures small { IfSome result (λ d. d < 16) }
{
    match byte {
        b'0'..=b'9' => Some(byte - b'0'),
        b'a'..=b'f' => Some(byte - b'a' + 10),
        b'A'..=b'F' => Some(byte - b'A' + 10),
        _ => None,
    }
}

// Reads two hexadecimal digits.
#[tactic(auto, unfolding(crate::specs::Leaves::hex_byte_at))]
fn hex_byte(bytes: &[u8]) -> Result<(u8, &[u8]), Fault>
    ensures read { Reads (λ x. (x.0, x.1.now)) result (hex_byte_at bytes.now) }
    ensures place { IfErr result (IsAt (here expecting.HexDigits bytes.now)) }
{
    match bytes {
        [high, low, rest @ ..] => match (hex_digit(*high), hex_digit(*low)) {
            (Some(high), Some(low)) => Ok((16 * high + low, rest)),
            _ => Err(misread(bytes, Expected::HexDigits)),
        },
        _ => Err(misread(bytes, Expected::HexDigits)),
    }
}

// The byte that a letter means behind a backslash.
#[tactic(auto, using(std::proofs::lemmas::Bool::Decides::nat_tests), unfolding(crate::specs::Leaves::meaning))]
fn meaning(letter: u8) -> Option<u8>
    ensures { result ≡ meaning_spec letter }
{
    match letter {
        b'\\' => Some(b'\\'),
        b'"' => Some(b'"'),
        b'\'' => Some(b'\''),
        b't' => Some(b'\t'),
        b'n' => Some(b'\n'),
        b'r' => Some(b'\r'),
        _ => None,
    }
}

// Reads an escape, after its backslash.
#[tactic(auto, using(std::proofs::lemmas::Bool::Decides::nat_tests), unfolding(crate::specs::Leaves::escape_at))]
fn escape(bytes: &[u8]) -> Result<(u8, &[u8]), Fault>
    ensures read { Reads (λ x. (x.0, x.1.now)) result (escape_at bytes.now) }
    ensures place { IfErr result (IsAt (escape_stop bytes.now)) }
{
    match bytes {
        [b'x', rest @ ..] => hex_byte(rest),
        [letter, rest @ ..] => match meaning(*letter) {
            Some(byte) => Ok((byte, rest)),
            None => Err(misread(bytes, Expected::Escape)),
        },
        [] => Err(misread(bytes, Expected::Escape)),
    }
}

// Reads a byte in quotes, which may be an escape.
#[tactic(auto, unfolding(crate::specs::Leaves::unit_at))]
fn unit(bytes: &[u8]) -> Result<(u8, &[u8]), Fault>
    ensures read { Reads (λ x. (x.0, x.1.now)) result (unit_at bytes.now) }
    ensures place { IfErr result (IsAt (unit_stop bytes.now)) }
{
    match bytes {
        [b'\\', rest @ ..] => escape(rest),
        [byte, rest @ ..] => Ok((*byte, rest)),
        [] => Err(misread(bytes, Expected::ClosingQuote)),
    }
}

// Reads the bytes up to the closing quote.
fn units(alloc: Global, bytes: &[u8]) -> Result<(Vec<u8>, &[u8]), Fault>
    ensures read { Reads (λ x. (x.0.items, x.1.now)) result (until (byte_at 34) unit_at (length bytes.now) bytes.now) }
    ensures place { IfErr result (IsAt (units_stop (length bytes.now) bytes.now)) }
{
    let mut units = Vec::new(alloc);
    let mut rest = bytes;
    for _ in 0..bytes.len() {
        if let Some(after) = after(rest, b'"') {
            return Ok((units, after));
        }
        let (byte, after) = unit(rest)?;
        units.push(byte)?;
        rest = after;
    }
    Err(misread(rest, Expected::ClosingQuote))
}

// The text of bytes, if they are UTF-8.
#[tactic(auto, using(crate::proofs::LeafFacts::utf8))]
fn string_of(bytes: Vec<u8>) -> Option<String>
    ensures { shown string_bytes result ≡ text_at bytes.items }
{
    match String::from_utf8(bytes) {
        Ok(text) => Some(text),
        Err(_) => None,
    }
}

/// Reads a text in quotes, after the opening quote.
#[tactic(auto, unfolding(crate::specs::Leaves::quoted_at, crate::specs::Places::quoted_stop))]
pub fn quoted(alloc: Global, bytes: &[u8]) -> Result<(String, &[u8]), Fault>
    ensures read { Reads (λ x. (string_bytes x.0, x.1.now)) result (quoted_at bytes.now) }
    ensures place { IfErr result (IsAt (quoted_stop bytes.now)) }
{
    let (units, rest) = units(alloc, bytes)?;
    match string_of(units) {
        Some(text) => Ok((text, rest)),
        None => Err(misread(bytes, Expected::Utf8)),
    }
}

/// Reads a name.
#[tactic(auto, unfolding(crate::specs::Leaves::name_at, crate::specs::Places::name_stop))]
pub fn name(alloc: Global, bytes: &[u8]) -> Result<(FieldName, &[u8]), Fault>
    ensures read { Reads (λ x. (x.0, x.1.now)) result (name_at bytes.now) }
    ensures place { IfErr result (IsAt (name_stop bytes.now)) }
{
    match bytes {
        [b'"', rest @ ..] => {
            let (text, rest) = quoted(alloc, rest)?;
            Ok((FieldName::new(alloc, text.as_str())?, rest))
        }
        _ => bare(alloc, bytes),
    }
}

/// Reads an equals sign behind a name, with blanks around it. The name was read at the front of `name`.
pub fn equals_behind<'a>(name: &[u8], bytes: &'a [u8]) -> Result<&'a [u8], Fault>
    ensures { Reads (λ rest. rest.now) result (equals_at bytes.now) }
{
    match name {
        [b'"', ..] => equals(bytes),
        _ => equals_behind_bare(bytes),
    }
}

// Reads an equals sign behind a bare name, with blanks around it.
#[tactic(auto, unfolding(crate::specs::Leaves::equals_at, crate::specs::Leaves::skipped))]
fn equals_behind_bare(bytes: &[u8]) -> Result<&[u8], Fault>
    ensures { Reads (λ rest. rest.now) result (equals_at bytes.now) }
{
    match bytes {
        [b'-' | b'+' | b'.', ..] => Err(misread(bytes, Expected::EndOfName)),
        [b'#', ..] => equals_behind_comment(bytes),
        _ => equals(bytes),
    }
}

// Reads an equals sign behind a comment, with blanks around it. A bare name is in front of the comment. If the comment
// doesn't end, it may be meant as a part of the name.
#[tactic(auto, unfolding(crate::specs::Leaves::equals_at))]
fn equals_behind_comment(bytes: &[u8]) -> Result<&[u8], Fault>
    ensures { Reads (λ rest. rest.now) result (equals_at bytes.now) }
{
    let rest = skip(bytes);
    match rest {
        [b'#', ..] if rest.len() == bytes.len() => Err(misread(bytes, Expected::EndOfName)),
        _ => equals(bytes),
    }
}

/// Reads an equals sign, with blanks around it.
#[tactic(auto, unfolding(crate::specs::Leaves::equals_at))]
pub fn equals(bytes: &[u8]) -> Result<&[u8], Fault>
    ensures { Reads (λ rest. rest.now) result (equals_at bytes.now) }
{
    let rest = byte(skip(bytes), b'=')?;
    Ok(skip(rest))
}

/// Reads a comma, with blanks around it.
#[tactic(auto, unfolding(crate::specs::Leaves::comma_at))]
pub fn comma(bytes: &[u8]) -> Result<&[u8], Fault>
    ensures { Reads (λ rest. rest.now) result (comma_at bytes.now) }
{
    let rest = byte(skip(bytes), b',')?;
    Ok(skip(rest))
}

// The number, negated.
fn negated(number: u64) -> i8
    requires { number ≤ 128 }
    ensures { result ≡ neg_ℤ (pos number) }
{
    (0 - number as i64) as i8
}

/// Reads a number from -128 to 127.
#[tactic(auto, using(std::proofs::lemmas::Bool::Decides::nat_tests), unfolding(crate::specs::Leaves::signed_at, crate::specs::Leaves::number_at))]
pub fn signed(bytes: &[u8]) -> Result<(i8, &[u8]), Fault>
    ensures { Reads (λ x. (x.0, x.1.now)) result (signed_at bytes.now) }
{
    match bytes {
        [b'-', rest @ ..] => {
            let (number, rest) = small(rest, 128, bytes)?;
            Ok((negated(number), rest))
        }
        [_, ..] => {
            let (number, rest) = small(bytes, 127, bytes)?;
            Ok((number as i8, rest))
        }
        [] => Err(misread(bytes, Expected::Scale)),
    }
}

// Reads a number up to this one, of a scale that begins at `start`.
#[tactic(auto, unfolding(crate::specs::Leaves::number_at))]
fn small<'a>(bytes: &'a [u8], most: u64, start: &[u8]) -> Result<(u64, &'a [u8]), Fault>
    ensures read { Reads (λ x. (x.0, x.1.now)) result (number_at most bytes.now) }
    ensures within { IfOk result (λ x. x.0 ≤ most) }
{
    let (word, rest) = bytes.split_at(number_len(bytes));
    match value_of(word) {
        Some(value) if value <= most => Ok((value, rest)),
        _ => Err(misread(start, Expected::Scale)),
    }
}

/// Reads a word that is this one.
#[tactic(auto, unfolding(crate::specs::Leaves::word_is))]
pub fn word_is<'a>(bytes: &'a [u8], wanted: &[u8]) -> Result<&'a [u8], Fault>
    ensures { Reads (λ rest. rest.now) result (word_is_spec wanted.now bytes.now) }
{
    let (word, rest) = id_word(bytes);
    if word == wanted {
        Ok(rest)
    } else {
        Err(misread(bytes, Expected::KeysSortedWord))
    }
}

/// Reads `true` or `false`.
#[tactic(auto, unfolding(crate::specs::Leaves::bool_at))]
pub fn boolean(bytes: &[u8]) -> Result<(bool, &[u8]), Fault>
    ensures { Reads (λ x. (x.0, x.1.now)) result (bool_at bytes.now) }
{
    let (word, rest) = id_word(bytes);
    if word == b"true".as_slice() {
        Ok((true, rest))
    } else if word == b"false".as_slice() {
        Ok((false, rest))
    } else {
        Err(misread(bytes, Expected::Boolean))
    }
}

// The bytes, where no hexadecimal digit comes.
fn no_hex_digit(bytes: &[u8]) -> Option<&[u8]>
    ensures { shown (λ rest. rest.now) result ≡ no_hex bytes.now }
{
    match bytes {
        [] => Some(bytes),
        [first, ..] => match hex_digit(*first) {
            Some(_) => None,
            None => Some(bytes),
        },
    }
}

// Reads pairs of hexadecimal digits, fewer than so many.
fn hex_bytes(alloc: Global, bytes: &[u8], count: usize) -> Result<(Vec<u8>, &[u8]), Fault>
    ensures { Reads (λ x. (x.0.items, x.1.now)) result (until no_hex hex_byte_at count bytes.now) }
{
    let mut read = Vec::new(alloc);
    let mut rest = bytes;
    for _ in 0..count {
        if let Some(after) = no_hex_digit(rest) {
            return Ok((read, after));
        }
        let (byte, after) = hex_byte(rest)?;
        read.push(byte)?;
        rest = after;
    }
    Err(misread(rest, Expected::HexDigits))
}

/// Reads the metadata of an extension, in brackets.
#[tactic(auto, unfolding(crate::specs::Leaves::metadata_at))]
pub fn metadata(alloc: Global, bytes: &[u8]) -> Result<(Vec<u8>, &[u8]), Fault>
    ensures { Reads (λ x. (x.0.items, x.1.now)) result (metadata_at bytes.now) }
{
    let start = skip(byte(bytes, b'[')?);
    let Some(rest) = after(start, b'0') else {
        return Err(misread(start, Expected::Metadata));
    };
    let Some(rest) = after(rest, b'x') else {
        return Err(misread(start, Expected::HexBytes));
    };
    let (read, rest) = hex_bytes(alloc, rest, bytes.len())?;
    let rest = byte(skip(rest), b']')?;
    Ok((read, rest))
}
