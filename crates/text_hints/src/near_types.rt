// SPDX-License-Identifier: Apache-2.0
// SPDX-FileCopyrightText: Copyright the Vortex contributors

// The types that a word may have meant.
use crate::NearNames;
use std::alloc::{AllocError, Global};

/// Returns the types that this word may have meant: the one that Arrow or SQL call so, else those of the nearest names.
///
/// # Errors
///
/// `AllocError`.
pub fn nearest_type(alloc: Global, word: &str) -> Result<Vec<&'static str>, AllocError> {
    let mut nearest = NearNames::new(alloc, word);
    if !nearest.add_known(word, false)? {
        nearest.add_types(alloc, word)?;
    }
    Ok(nearest.names)
}

/// Returns the primitive types that this word may have meant.
///
/// # Errors
///
/// `AllocError`.
pub fn nearest_ptype(alloc: Global, word: &str) -> Result<Vec<&'static str>, AllocError> {
    let mut nearest = NearNames::new(alloc, word);
    if !nearest.add_known(word, true)? {
        nearest.add_primitives(alloc, word)?;
    }
    Ok(nearest.names)
}

impl NearNames {
    // Adds the type that Arrow or SQL call by this word, whatever its case, and returns whether there is one.
    fn add_known(&mut self, word: &str, is_primitive: bool) -> Result<bool, AllocError> {
        match known_elsewhere(word) {
            Some(name) if !is_primitive || PRIMITIVE.contains(&name) => {
                self.names.push(name)?;
                Ok(true)
            }
            _ => Ok(false),
        }
    }

    fn add_types(&mut self, alloc: Global, word: &str) -> Result<(), AllocError> {
        for name in PLAIN {
            self.add(alloc, name, word)?;
        }
        self.add_primitives(alloc, word)
    }

    fn add_primitives(&mut self, alloc: Global, word: &str) -> Result<(), AllocError> {
        for name in PRIMITIVE {
            self.add(alloc, name, word)?;
        }
        Ok(())
    }
}

/// Returns what to write in place of a word: of a type that this library hasn't and Arrow, Parquet or SQL call so, whatever
/// its case, or of the id of an extension; or `None`.
pub fn in_place_of(word: &str) -> Option<&'static str> {
    let found = ABSENT
        .iter()
        .find(|(name, _)| name.eq_ignore_ascii_case(word));
    match found {
        Some((_, text)) => Some(*text),
        None if word.contains('.') => Some(
            "an extension type with its metadata, for example x.tag[0x](utf8)",
        ),
        None => None,
    }
}

// Returns the type that Arrow or SQL call by this word, whatever its case, or `None`.
fn known_elsewhere(word: &str) -> Option<&'static str> {
    let found = ELSEWHERE
        .iter()
        .find(|(name, _)| name.eq_ignore_ascii_case(word));
    found.map(|(_, name)| *name)
}

const PLAIN: [&str; 10] = [
    "null",
    "bool",
    "decimal",
    "utf8",
    "binary",
    "list",
    "fixed_size_list",
    "map",
    "union",
    "variant",
];

const PRIMITIVE: [&str; 11] = [
    "u8", "u16", "u32", "u64", "i8", "i16", "i32", "i64", "f16", "f32", "f64",
];

#[rattlefmt::skip]
const ELSEWHERE: [(&str, &str); 67] = [
    ("int8", "i8"),
    ("tinyint", "i8"),
    ("byte", "i8"),
    ("int16", "i16"),
    ("smallint", "i16"),
    ("short", "i16"),
    ("int32", "i32"),
    ("int", "i32"),
    ("integer", "i32"),
    ("int64", "i64"),
    ("bigint", "i64"),
    ("long", "i64"),
    ("uint8", "u8"),
    ("uint16", "u16"),
    ("uint32", "u32"),
    ("uint", "u32"),
    ("uint64", "u64"),
    ("float16", "f16"),
    ("half", "f16"),
    ("float32", "f32"),
    ("float", "f32"),
    ("real", "f32"),
    ("float64", "f64"),
    ("double", "f64"),
    ("boolean", "bool"),
    ("string", "utf8"),
    ("str", "utf8"),
    ("text", "utf8"),
    ("varchar", "utf8"),
    ("char", "utf8"),
    ("large_utf8", "utf8"),
    ("largeutf8", "utf8"),
    ("bytes", "binary"),
    ("blob", "binary"),
    ("bytea", "binary"),
    ("varbinary", "binary"),
    ("large_binary", "binary"),
    ("largebinary", "binary"),
    ("decimal128", "decimal(P,S)"),
    ("decimal256", "decimal(P,S)"),
    ("numeric", "decimal(P,S)"),
    ("number", "decimal(P,S)"),
    ("array", "list(T)"),
    ("large_list", "list(T)"),
    ("largelist", "list(T)"),
    ("fixedsizelist", "fixed_size_list(T)[COUNT]"),
    ("fixed_size_binary", "fixed_size_list(u8)[COUNT]"),
    ("fixedsizebinary", "fixed_size_list(u8)[COUNT]"),
    ("struct", "{NAME=T}"),
    ("record", "{NAME=T}"),
    ("row", "{NAME=T}"),
    ("dense_union", "union(NAME=T)"),
    ("sparse_union", "union(NAME=T)"),
    ("enum", "union(NAME=T)"),
    ("any", "variant"),
    ("json", "variant"),
    ("utf8view", "utf8"),
    ("utf8_view", "utf8"),
    ("string_view", "utf8"),
    ("stringview", "utf8"),
    ("binaryview", "binary"),
    ("binary_view", "binary"),
    ("listview", "list(T)"),
    ("list_view", "list(T)"),
    ("large_list_view", "list(T)"),
    ("decimal32", "decimal(P,S)"),
    ("decimal64", "decimal(P,S)"),
];

// What Arrow, Parquet or SQL have and this library hasn't: what to write in its place, as is said behind `write `. The
// extensions of dates, times and timestamps are those of docs/ARROW.md.
#[rattlefmt::skip]
const ABSENT: [(&str, &str); 22] = [
    ("date", "the extension of dates in days, vortex.date[0x04](i32)"),
    ("date32", "the extension of dates in days, vortex.date[0x04](i32)"),
    ("date64", "the extension of dates in milliseconds, vortex.date[0x02](i64)"),
    ("time", "the extension of times in microseconds, vortex.time[0x01](i64)"),
    ("time32", "the extension of times in milliseconds, vortex.time[0x02](i32)"),
    ("time64", "the extension of times in microseconds, vortex.time[0x01](i64)"),
    ("timestamp", "the extension of timestamps in microseconds, vortex.timestamp[0x010000](i64)"),
    ("timestamptz", "the extension of timestamps in microseconds in UTC, vortex.timestamp[0x010300555443](i64)"),
    ("timestamp_tz", "the extension of timestamps in microseconds in UTC, vortex.timestamp[0x010300555443](i64)"),
    ("datetime", "the extension of timestamps in microseconds, vortex.timestamp[0x010000](i64)"),
    ("interval", "an extension type with an id of your own, for example x.interval[0x](i64)"),
    ("duration", "an extension type with an id of your own, for example x.duration[0x](i64)"),
    ("uuid", "an extension type with an id of your own, for example x.uuid[0x](fixed_size_list(u8)[16])"),
    ("int128", "an extension type with an id of your own, for example x.int128[0x](fixed_size_list(u8)[16])"),
    ("uint128", "an extension type with an id of your own, for example x.uint128[0x](fixed_size_list(u8)[16])"),
    ("i128", "an extension type with an id of your own, for example x.int128[0x](fixed_size_list(u8)[16])"),
    ("u128", "an extension type with an id of your own, for example x.uint128[0x](fixed_size_list(u8)[16])"),
    ("extension", "its id, its metadata and its storage, as x.tag[0x](utf8)"),
    ("dictionary", "the type of its values"),
    ("dict", "the type of its values"),
    ("run_end_encoded", "the type of its values"),
    ("ree", "the type of its values"),
];
