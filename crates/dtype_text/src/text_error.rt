// SPDX-License-Identifier: Apache-2.0
// SPDX-FileCopyrightText: Copyright the Vortex contributors

// Why a text can't be read, with the place.
ghost use Rattle.std.specs.Prelude.{◌≡◌, ◌-◌, suc, length};
ghost use Rattle.dtype_text.specs.Errors.{Tells};

use crate::bare::{is_bare_byte, is_special};
use crate::fault::Fault;
use dtype_base::VortexError;
use std::str;
use thiserror::Error;

/// What was expected at the place from which a text can't be read on. Its `Display` is the phrase of an error's text, for
/// example `a precision from 0 to 255`.
#[derive(Clone, Copy, Debug, PartialEq, Eq, Error)]
pub enum Expected {
    #[error("a type")]
    Type,
    #[error("no ? after null, which is nullable already")]
    NoMark,
    /// This byte, which is a sign or a letter of ASCII.
    #[error("`{0}`")]
    Sign(char),
    #[error("`,` or `{0}`")]
    CommaOr(char),
    #[error("a precision from 0 to 255")]
    Precision,
    #[error("a scale from -128 to 127")]
    Scale,
    #[error("a size from 0 to 4294967295")]
    Size,
    #[error("a tag from 0 to 255")]
    Tag,
    #[error("a tag at each variant, or at none")]
    TagOfEach,
    #[error("`, keys_sorted=true` or `, keys_sorted=false`")]
    KeysSorted,
    #[error("`keys_sorted`")]
    KeysSortedWord,
    #[error("true or false")]
    Boolean,
    #[error("0x and the metadata of an extension")]
    Metadata,
    #[error("0x and two hexadecimal digits for each byte")]
    HexBytes,
    #[error("two hexadecimal digits")]
    HexDigits,
    #[error(r#"an escape: \\, \", \', \t, \n, \r or \x with two hexadecimal digits"#)]
    Escape,
    #[error("a closing quote")]
    ClosingQuote,
    #[error("a text in UTF-8")]
    Utf8,
    #[error("a name")]
    Name,
    #[error("an id")]
    Id,
    #[error("the end of the name")]
    EndOfName,
    #[error("the end of the text")]
    End,
}

/// What was found at the place from which a text can't be read on.
#[derive(Clone, Copy, Debug, PartialEq, Eq)]
pub enum Found {
    /// The text ends there.
    End,
    /// A word or a number of this many bytes.
    Word { length: usize },
    /// Another character, or one that no bare name has.
    Character(char),
}

/// Why a text can't be read. A position counts bytes from 1. It is one more than the length of the text if the text ends
/// too early.
#[derive(Debug, Drop, Error)]
pub enum TextError {
    /// An allocation failed.
    #[error("out of memory")]
    OutOfMemory,
    /// The text is spelled correctly up to there, but the library refuses a part of the type, for example
    /// `decimal(0,0)`, a map with a nullable key type or a union with two variants of the same name.
    #[error("{0}")]
    Refused(VortexError),
    /// A type begins at this position that is inside more than 128 others.
    #[error("unreadable at {position}: expected at most 128 levels")]
    TooDeep {
        position: usize,
    },
    /// At this position something else was expected than what was found.
    #[error("unreadable at {position}: expected {expected}")]
    Misread {
        position: usize,
        expected: Expected,
        found: Found,
    },
}

impl TextError {
    /// Returns the error of a fault at which so many bytes of a text are left.
    pub fn of(fault: Fault, text: &[u8]) -> TextError
        ensures { Tells text.now fault result }
    {
        match fault {
            Fault::Memory => TextError::OutOfMemory,
            Fault::Refused(error) => TextError::Refused(error),
            Fault::TooDeep { left } => TextError::TooDeep {
                position: position(text, left),
            },
            Fault::Misread { left, expected } => TextError::Misread {
                position: position(text, left),
                expected,
                found: next_found(rest(text, left)),
            },
        }
    }
}

// Returns the position at which so many bytes of a text are left.
fn position(text: &[u8], left: usize) -> usize
    ensures { result ≡ suc (length text.now - left) }
{
    text.len().saturating_sub(left).saturating_add(1)
}

// Returns the last bytes of a text, as many as this.
fn rest(text: &[u8], left: usize) -> &[u8] {
    let (_, rest) = text.split_at(text.len().saturating_sub(left));
    rest
}

// Returns what these bytes begin with.
fn next_found(bytes: &[u8]) -> Found {
    let length = bytes.iter().take_while(|byte| is_word_byte(**byte)).count();
    match first_character(bytes) {
        Some(character) if length == 0 || is_special(character) => Found::Character(character),
        Some(_) => Found::Word { length },
        None => Found::End,
    }
}

// Returns the character with which bytes begin.
fn first_character(bytes: &[u8]) -> Option<char> {
    match str::from_utf8(bytes) {
        Ok(text) => text.chars().next(),
        Err(_) => None,
    }
}

// Returns whether a byte may be in a word or a number.
fn is_word_byte(byte: u8) -> bool {
    byte == b'-' || byte == b'.' || is_bare_byte(byte)
}
