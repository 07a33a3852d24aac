// SPDX-License-Identifier: Apache-2.0
// SPDX-FileCopyrightText: Copyright the Vortex contributors

// How a sentence shows what stands in a text, so that a reader sees each character.
use std::alloc::AllocError;

/// Appends a text, with the code point of each character that can't be seen in its place.
///
/// # Errors
///
/// `AllocError` if an allocation fails.
pub fn write_visible(out: &mut String, text: &str) -> Result<(), AllocError> {
    for character in text.chars() {
        if is_hidden(character) {
            out.push('<')?;
            write_code_point(out, character)?;
            out.push('>')?;
        } else {
            out.push(character)?;
        }
    }
    Ok(())
}

/// Appends that this word isn't what was expected, and which is its first character that can't be seen, if it has one. For
/// example, `, not "int32"` is appended for `int32`.
///
/// # Errors
///
/// `AllocError` if an allocation fails.
pub fn write_other(out: &mut String, word: &str) -> Result<(), AllocError> {
    out.push_str(", not \"")?;
    write_visible(out, word)?;
    out.push('"')?;
    if let Some(hidden) = word.chars().find(|character| is_hidden(*character)) {
        out.push_str("; ")?;
        write_code_point(out, hidden)?;
        out.push_str(" can't be seen")?;
    }
    Ok(())
}

/// Appends the names that are nearest to a word, if there are any: `; nearest: i32, i64`.
///
/// # Errors
///
/// `AllocError` if an allocation fails.
pub fn write_nearest(out: &mut String, nearest: &[&'static str]) -> Result<(), AllocError> {
    let mut is_first = true;
    for name in nearest {
        out.push_str(if is_first { "; nearest: " } else { ", " })?;
        out.push_str(*name)?;
        is_first = false;
    }
    Ok(())
}

/// Appends the character that was found in place of what was expected: in backquotes, or by its code point if it can't be
/// seen. At the end of a text this name of the end is appended.
///
/// # Errors
///
/// `AllocError` if an allocation fails.
pub fn write_found(out: &mut String, found: Option<char>, end: &str) -> Result<(), AllocError> {
    out.push_str(", found ")?;
    match found {
        None => out.push_str(end),
        Some(' ' | '\t') => out.push_str("a blank"),
        Some('\n' | '\r') => out.push_str("the end of a line"),
        Some(character) => write_character(out, character),
    }
}

// Appends a character that isn't a blank.
fn write_character(out: &mut String, character: char) -> Result<(), AllocError> {
    if is_hidden(character) {
        write_code_point(out, character)?;
        return out.push_str(", which can't be seen");
    }
    out.push('`')?;
    out.push(character)?;
    out.push('`')?;
    if is_typographic(character) {
        out.push_str(" (")?;
        write_code_point(out, character)?;
        out.push(')')?;
    }
    Ok(())
}

/// Returns the part of a word between characters that can't be seen: of several such parts the first.
pub fn visible_part(word: &str) -> &str {
    let part = word.trim_start_matches(is_hidden);
    match part.split_once(is_hidden) {
        Some((first, _)) => first,
        None => part,
    }
}

// Appends the code point of a character, for example `U+FEFF`.
fn write_code_point(out: &mut String, character: char) -> Result<(), AllocError> {
    let code = character as u32;
    write!(out, "U+{code:04X}")?;
    Ok(())
}

// Returns whether a character can't be seen: a control character, a blank beyond ASCII, a mark of the direction or of
// the joining of letters, a byte order mark.
fn is_hidden(character: char) -> bool {
    match character as u32 {
        0..=0x1f | 0x7f..=0xa0 => true,
        0xad | 0x61c | 0x1680 | 0x180e => true,
        0x2000..=0x200f | 0x2028..=0x202f | 0x205f..=0x206f => true,
        0x3000 | 0xfeff | 0xfff9..=0xfffb => true,
        _ => false,
    }
}

// Returns whether a character is a quote that a word processor writes.
fn is_typographic(character: char) -> bool {
    match character as u32 {
        0xab | 0xbb | 0x2018..=0x201f | 0x2039 | 0x203a => true,
        _ => false,
    }
}
