// SPDX-License-Identifier: Apache-2.0
// SPDX-FileCopyrightText: Copyright the Vortex contributors

// What the format of a field says.
ghost use Rattle.std.specs.Prelude.{◌≡◌, drop};
ghost use Rattle.dtype_text.specs.Leaves.{text_at};
ghost use Rattle.dtype_text.specs.Read.{shown};
ghost use Rattle.c_arrow.specs.Formats.{format_of, nested_of as nested_spec, nested_word_of as nested_word_spec, parametric_of as parametric_spec, time_of as time_spec, timestamp_of as timestamp_spec, union_of as union_spec, word_in, word_of as word_spec};

use crate::kept::Kept;
use crate::numbers::{after, decimal_parts, size_in};
use crate::temporal::Unit;
use dtype_base::PType;
use std::str;

/// What the format of a field says. For example, `+w:3` is `FixedSizeList` with the size 3.
#[derive(Clone, Copy, Debug)]
pub enum Format {
    /// `n`
    Null,
    /// `b`
    Bool,
    /// `c`, `C`, `s`, `S`, `i`, `I`, `l`, `L`, `e`, `f` or `g`
    Primitive(PType),
    /// `u`, `U` or `vu`
    Utf8,
    /// `z`, `Z` or `vz`
    Binary,
    /// `w:N`
    FixedSizeBinary(u32),
    /// `d:P,S` or `d:P,S,W`
    Decimal(u8, i8),
    /// `+l`, `+L`, `+vl` or `+vL`
    List,
    /// `+w:N`
    FixedSizeList(u32),
    /// `+s`
    Struct,
    /// `+m`
    Map,
    /// `+ud:..` or `+us:..`
    Union,
    /// `+r`
    RunEnds,
    /// `tdD` or `tdm`
    Date(Unit),
    /// `tts`, `ttm`, `ttu` or `ttn`
    Time(Unit),
    /// `tss:..`, `tsm:..`, `tsu:..` or `tsn:..`
    Timestamp(Unit),
    /// `tDs`, `tDm`, `tDu`, `tDn`, `tiM`, `tiD` or `tin`
    Kept(Kept),
}

impl Format {
    /// Returns what these bytes say, or `None` if they are no format that has a type here.
    #[tactic(auto, unfolding(crate::specs::Formats::format_of), using(crate::proofs::Leaves::utf8))]
    pub(crate) fn of(bytes: &[u8]) -> Option<Format>
        ensures { result ≡ format_of bytes.now }
    {
        match word_of_bytes(bytes) {
            Some(format) => Some(format),
            None => parametric_of(bytes),
        }
    }
}

// Returns what a format says that is a word.
fn word_of_bytes(bytes: &[u8]) -> Option<Format>
    ensures { result ≡ word_in bytes.now }
{
    word_of(text_of(bytes)?)
}

/// Returns the text of bytes, if they are UTF-8.
#[tactic(auto, using(crate::proofs::Leaves::utf8))]
pub(crate) fn text_of(bytes: &[u8]) -> Option<&str>
    ensures { shown (λ t. t.now) result ≡ text_at bytes.now }
{
    match str::from_utf8(bytes) {
        Ok(text) => Some(text),
        Err(_) => None,
    }
}

// Returns what a format says that is a word.
#[tactic(auto, unfolding(crate::specs::Formats::word_of))]
fn word_of(text: &str) -> Option<Format>
    ensures { result ≡ word_spec text.now }
{
    match text {
        "n" => Some(Format::Null),
        "b" => Some(Format::Bool),
        "c" => Some(Format::Primitive(PType::I8)),
        "C" => Some(Format::Primitive(PType::U8)),
        "s" => Some(Format::Primitive(PType::I16)),
        "S" => Some(Format::Primitive(PType::U16)),
        "i" => Some(Format::Primitive(PType::I32)),
        "I" => Some(Format::Primitive(PType::U32)),
        "l" => Some(Format::Primitive(PType::I64)),
        "L" => Some(Format::Primitive(PType::U64)),
        "e" => Some(Format::Primitive(PType::F16)),
        "f" => Some(Format::Primitive(PType::F32)),
        "g" => Some(Format::Primitive(PType::F64)),
        _ => nested_word_of(text),
    }
}

// Returns what a format says that is the word of a binary string, a text, a list, a struct, a map or run ends.
#[tactic(auto, unfolding(crate::specs::Formats::nested_word_of))]
fn nested_word_of(text: &str) -> Option<Format>
    ensures { result ≡ nested_word_spec text.now }
{
    match text {
        "u" => Some(Format::Utf8),
        "U" => Some(Format::Utf8),
        "vu" => Some(Format::Utf8),
        "z" => Some(Format::Binary),
        "Z" => Some(Format::Binary),
        "vz" => Some(Format::Binary),
        "+l" => Some(Format::List),
        "+L" => Some(Format::List),
        "+vl" => Some(Format::List),
        "+vL" => Some(Format::List),
        "+s" => Some(Format::Struct),
        "+m" => Some(Format::Map),
        "+r" => Some(Format::RunEnds),
        _ => time_of(text),
    }
}

// Returns what the format of a date, a time, a duration or an interval says.
#[tactic(auto, unfolding(crate::specs::Formats::time_of))]
fn time_of(text: &str) -> Option<Format>
    ensures { result ≡ time_spec text.now }
{
    match text {
        "tdD" => Some(Format::Date(Unit::Days)),
        "tdm" => Some(Format::Date(Unit::Milliseconds)),
        "tts" => Some(Format::Time(Unit::Seconds)),
        "ttm" => Some(Format::Time(Unit::Milliseconds)),
        "ttu" => Some(Format::Time(Unit::Microseconds)),
        "ttn" => Some(Format::Time(Unit::Nanoseconds)),
        _ => Some(Format::Kept(Kept::of(text)?)),
    }
}

// Returns what a format with parameters says.
#[tactic(auto, unfolding(crate::specs::Formats::parametric_of))]
fn parametric_of(bytes: &[u8]) -> Option<Format>
    ensures { result ≡ parametric_spec bytes.now }
{
    match bytes {
        [b'w', rest @ ..] => Some(Format::FixedSizeBinary(size_in(after(rest, b':')?)?)),
        [b'd', rest @ ..] => {
            let (precision, scale) = decimal_parts(after(rest, b':')?)?;
            Some(Format::Decimal(precision, scale))
        }
        [b'+', rest @ ..] => nested_of(rest),
        [b't', rest @ ..] => timestamp_of(after(rest, b's')?),
        _ => None,
    }
}

// Returns what a format with parameters says, behind its `+`.
#[tactic(auto, unfolding(crate::specs::Formats::nested_of))]
fn nested_of(bytes: &[u8]) -> Option<Format>
    ensures { result ≡ nested_spec bytes.now }
{
    match bytes {
        [b'w', rest @ ..] => Some(Format::FixedSizeList(size_in(after(rest, b':')?)?)),
        [b'u', rest @ ..] => union_of(rest),
        _ => None,
    }
}

// Returns what the format of a union says, behind its `+u`.
#[tactic(auto, unfolding(crate::specs::Formats::union_of))]
fn union_of(bytes: &[u8]) -> Option<Format>
    ensures { result ≡ union_spec bytes.now }
{
    match bytes {
        [mode, rest @ ..] if *mode == b'd' || *mode == b's' => {
            after(rest, b':')?;
            Some(Format::Union)
        }
        _ => None,
    }
}

// Returns what the format of a timestamp says, behind its `ts`.
#[tactic(auto, unfolding(crate::specs::Formats::timestamp_of))]
fn timestamp_of(bytes: &[u8]) -> Option<Format>
    ensures { result ≡ timestamp_spec bytes.now }
{
    match bytes {
        [letter, rest @ ..] => {
            after(rest, b':')?;
            Some(Format::Timestamp(Unit::of_letter(*letter)?))
        }
        [] => None,
    }
}

/// Returns what is behind the first four bytes of a format: the type ids of a union, or the time zone of a timestamp.
pub(crate) fn parameter(format: &[u8]) -> &[u8]
    ensures { result.now ≡ drop 4 format.now }
{
    match format {
        [_, _, _, _, rest @ ..] => rest,
        _ => &[],
    }
}
