// SPDX-License-Identifier: Apache-2.0
// SPDX-FileCopyrightText: Copyright the Vortex contributors

// The sentences of the errors of texts.
ghost use Rattle.std.specs.Prelude.{◌≡◌, ◌-◌, IfOk, IfSome, slice_get, string_bytes};
ghost use Rattle.dtype_text.specs.Read.{shown};
ghost use Rattle.text_hints.specs.PathHelp.{EndsWith, path_help as path_help_spec};
ghost use Rattle.text_hints.specs.Positions.{position_of};

use crate::near_types::{in_place_of, nearest_type};
use crate::visible::{visible_part, write_found, write_nearest, write_other, write_visible};
use dtype_text::{Expected, TextError};
use std::alloc::{AllocError, Global};
use std::str;

/// What helps where a bare name ends at a character that it can't have.
const QUOTE_NAMES: &str = "; names with other characters stand in double quotes";

/// The place from which a text can't be read, and a sentence that says why. For example, of the text `{a=int32}` the
/// position is 4 and the message `expected a type, not "int32"; nearest: i32`.
#[derive(Debug, Drop)]
pub struct TextHint {
    /// The position of a byte of the text, counted from 1. It is one more than the length of the text if the text ends too
    /// early.
    pub position: usize,
    pub message: String,
}

/// The words in the messages that depend on what the text is a part of. For example, the console reads a line, and its
/// `help types` lists all types.
#[derive(Clone, Copy, Debug)]
pub struct Wording {
    /// The name of the end of the text.
    pub end: &'static str,
    /// What is appended behind a word that isn't a type.
    pub help: &'static str,
}

/// What a message says of what was found.
#[derive(Clone, Copy, Debug, PartialEq, Eq)]
pub enum Finding {
    /// Nothing, because the place alone says it.
    Place,
    /// A word that isn't a type, with the types that may have been meant.
    Word,
    /// A character or a number.
    Found,
}

/// The words for a text that stands alone.
pub const OF_TEXTS: Wording = Wording {
    end: "the end of the text",
    help: "",
};

/// Returns the place and the message of an error of this text, or `None` for an error that has no place: memory ran out, or
/// the library refuses a part that the text spells.
///
/// # Errors
///
/// `AllocError` if an allocation fails.
pub fn hint_of(alloc: Global, error: &TextError, text: &str) -> Result<Option<TextHint>, AllocError>
    ensures { IfOk result (λ hint. shown (λ h. h.position) hint ≡ position_of error.now) }
{
    match error {
        TextError::OutOfMemory => Ok(None),
        TextError::Refused(_) => Ok(None),
        TextError::TooDeep { position } => Ok(Some(TextHint {
            position: *position,
            message: String::from_str(alloc, "expected at most 128 levels")?,
        })),
        TextError::Misread {
            position,
            expected,
            ..
        } => Ok(Some(TextHint {
            position: *position,
            message: message_of(alloc, *expected, *position, text)?,
        })),
    }
}

/// Returns what `hint_of` returns for an error of the text of a path, with [`path_help`] behind the message. For example, of
/// the text `a[0]` the position is 2, and the message is ``expected the end of the text, found `[`; [] is a step of its own, for
/// example in a.[].b``.
///
/// # Errors
///
/// `AllocError` if an allocation fails.
pub fn hint_of_path(
    alloc: Global,
    error: &TextError,
    text: &str,
) -> Result<Option<TextHint>, AllocError>
    ensures place { IfOk result (λ hint. shown (λ h. h.position) hint ≡ position_of error.now) }
    // The message ends with what helps if no path goes on with the byte at the position.
    ensures help { IfOk result (λ hint. IfSome hint (λ h.
        EndsWith (path_help_spec (slice_get text.now (h.position - 1))) (string_bytes h.message))) }
{
    let Some(mut hint) = hint_of(alloc, error, text)? else {
        return Ok(None);
    };
    hint.message
        .push_str(path_help(byte_at(text, hint.position)))?;
    Ok(Some(hint))
}

/// Returns what helps if no path goes on with this byte, or with the end of the text, for the end of a sentence that says so.
/// It is `; [] is a step of its own, for example in a.[].b` for `[`, `; steps are joined by dots, for example a.[].b` for `/`,
/// and empty for all others.
pub fn path_help(next: Option<u8>) -> &'static str
    ensures { result.now ≡ path_help_spec next }
{
    match next {
        Some(b'[') => "; [] is a step of its own, for example in a.[].b",
        Some(b'/') => "; steps are joined by dots, for example a.[].b",
        _ => "",
    }
}

// Returns the byte at this position of a text, counted from 1, or `None` behind its end.
fn byte_at(text: &str, position: usize) -> Option<u8>
    ensures { result ≡ slice_get text.now (position - 1) }
{
    text.as_bytes().get(position.saturating_sub(1)).copied()
}

fn message_of(
    alloc: Global,
    expected: Expected,
    position: usize,
    text: &str,
) -> Result<String, AllocError> {
    let mut message = String::from_str(alloc, "expected ")?;
    let _ = write_expected(alloc, &mut message, OF_TEXTS, expected, position, text)?;
    Ok(message)
}

/// Appends what was expected at a position of a text, what was found there, and what may help, and returns what it says of
/// what was found. For example, ``a precision from 0 to 255, found `999` `` is appended for a precision that is out of range.
///
/// # Errors
///
/// `AllocError` if an allocation fails.
pub fn write_expected(
    alloc: Global,
    out: &mut String,
    wording: Wording,
    expected: Expected,
    position: usize,
    text: &str,
) -> Result<Finding, AllocError> {
    let rest = rest_at(text, position);
    match expected {
        Expected::Type => write_type(alloc, out, wording, rest),
        // The place alone says what was found.
        Expected::NoMark
        | Expected::TagOfEach
        | Expected::Boolean
        | Expected::HexDigits
        | Expected::ClosingQuote
        | Expected::Utf8 => write_phrase(out, expected),
        Expected::Precision | Expected::Scale | Expected::Size | Expected::Tag => {
            write_number(out, expected, rest)
        }
        Expected::Metadata => write_here(
            out,
            expected,
            rest,
            written_as(id_before(text, position)),
        ),
        Expected::HexBytes | Expected::Escape => write_here(out, expected, rest, ""),
        Expected::Name | Expected::Id => write_here(out, expected, rest, help_of_names(rest)),
        Expected::EndOfName => write_next(out, wording, expected, rest, QUOTE_NAMES),
        Expected::Sign(_)
        | Expected::CommaOr(_)
        | Expected::KeysSorted
        | Expected::KeysSortedWord
        | Expected::End => write_next(out, wording, expected, rest, ""),
    }
}

fn write_phrase(out: &mut String, expected: Expected) -> Result<Finding, AllocError> {
    write!(out, "{expected}")?;
    Ok(Finding::Place)
}

// Appends what was expected, the next character, and what may help.
fn write_next(
    out: &mut String,
    wording: Wording,
    expected: Expected,
    rest: &str,
    hint: &str,
) -> Result<Finding, AllocError> {
    write!(out, "{expected}")?;
    write_found(out, rest.chars().next(), wording.end)?;
    out.push_str(hint)?;
    Ok(Finding::Found)
}

// Appends what was expected, and, unless a blank or the end is next, the next character and what may help.
fn write_here(
    out: &mut String,
    expected: Expected,
    rest: &str,
    hint: &str,
) -> Result<Finding, AllocError> {
    match rest.as_bytes().first() {
        None | Some(b' ' | b'\t' | b'\n' | b'\r') => write_phrase(out, expected),
        Some(_) => write_next(out, OF_TEXTS, expected, rest, hint),
    }
}

// Appends that a number was expected, and the word that was found.
fn write_number(out: &mut String, expected: Expected, rest: &str) -> Result<Finding, AllocError> {
    let word = word_of(rest, |byte| byte == b'-' || is_bare(byte));
    if word.is_empty() {
        return write_here(out, expected, rest, "");
    }
    write!(out, "{expected}, found `")?;
    write_visible(out, word)?;
    out.push('`')?;
    Ok(Finding::Found)
}

// Appends that a type was expected, and what to write in place of the word that was found.
fn write_type(
    alloc: Global,
    out: &mut String,
    wording: Wording,
    rest: &str,
) -> Result<Finding, AllocError> {
    let word = word_of(rest, |byte| byte == b'.' || is_bare(byte));
    if word.is_empty() {
        return write_here(out, Expected::Type, rest, "");
    }
    out.push_str("a type")?;
    write_other(out, word)?;
    let visible = visible_part(word);
    match in_place_of(visible) {
        Some(instead) => {
            out.push_str("; write ")?;
            out.push_str(instead)?;
        }
        None => write_nearest(out, &nearest_type(alloc, visible)?)?,
    }
    out.push_str(wording.help)?;
    Ok(Finding::Word)
}

// Returns what helps where a name was expected.
fn help_of_names(rest: &str) -> &'static str {
    match rest.as_bytes().first() {
        Some(b'{' | b'}' | b'[' | b']' | b'(' | b')' | b',' | b'=' | b'@' | b':') => "",
        _ => QUOTE_NAMES,
    }
}

// Returns how a type of this word is written, unless the word is the id of an extension.
fn written_as(word: &str) -> &'static str {
    match word {
        "list" | "array" => "; a list is written list(T)",
        "fixed_size_list" => "; a list of fixed size is written fixed_size_list(T)[COUNT]",
        "map" => "; a map is written map(T, T, keys_sorted=BOOL)",
        "struct" => "; a struct is written {NAME=T}",
        "union" => "; a union is written union(NAME=T)",
        "decimal" => "; a decimal is written decimal(P,S)",
        _ => "",
    }
}

// Returns the word before the bracket that ends at this position, blanks aside.
fn id_before(text: &str, position: usize) -> &str {
    let (before, _) = text
        .as_bytes()
        .split_at(position.saturating_sub(1).min(text.len()));
    let before = text_of(before).trim_end_matches(|it| it == ' '
        || it == '\t'
        || it == '\n'
        || it == '\r');
    let Some(before) = before.strip_suffix('[') else {
        return "";
    };
    let id = before.strip_suffix('"').unwrap_or(before);
    let count = id
        .bytes()
        .rev()
        .take_while(|byte| *byte == b'.' || is_bare(*byte))
        .count();
    let (_, word) = id.as_bytes().split_at(id.len().saturating_sub(count));
    text_of(word)
}

// Returns the word at the front of a text, of bytes that pass the test.
fn word_of<F: Fn(u8) -> bool>(rest: &str, test: F) -> &str
    requires { F.IsAlwaysCallable test }
{
    let bytes = rest.as_bytes();
    let count = bytes.iter().position(|byte| !test(*byte));
    let (word, _) = bytes.split_at(count.unwrap_or(bytes.len()));
    text_of(word)
}

// Returns the text from a position on.
fn rest_at(text: &str, position: usize) -> &str {
    let (_, rest) = text
        .as_bytes()
        .split_at(position.saturating_sub(1).min(text.len()));
    text_of(rest)
}

// Returns the text of bytes, or the empty text if they are no UTF-8.
fn text_of(bytes: &[u8]) -> &str {
    match str::from_utf8(bytes) {
        Ok(text) => text,
        Err(_) => "",
    }
}

// Returns whether a byte may be in a word.
fn is_bare(byte: u8) -> bool {
    byte.is_ascii_alphanumeric() || byte == b'_' || byte >= 0x80
}
