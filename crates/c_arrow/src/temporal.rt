// SPDX-License-Identifier: Apache-2.0
// SPDX-FileCopyrightText: Copyright the Vortex contributors

// The extensions of dates, times and timestamps. The metadata of each begins with a byte for the unit. In that of a
// timestamp the length of the time zone follows, as two bytes, the lower first, and then the bytes of the time zone.
ghost use Rattle.std.specs.Prelude.{◌≡◌, ◌≤◌, IfOk, IfSome};
ghost use Rattle.std.specs.Str.{is_utf8};
ghost use Rattle.dtype_base.specs.Errors.{Makes};
ghost use Rattle.dtype_text.specs.Grammar.{levels};
ghost use Rattle.dtype_text.specs.Read.{shown};
ghost use Rattle.dtype_types.specs.tree.Tree as of;
ghost use Rattle.dtype_types.specs.tree.TreeOf.{extension_id, extension_metadata, extension_tree, storage_tree, tree};
ghost use Rattle.dtype_types.specs.tree.Valid.{Valid};
ghost use Rattle.c_arrow.specs.Formats.{unit_of_letter};
ghost use Rattle.c_arrow.specs.Temporal.{byte_of, date_letters as date_letters_spec, date_ptype as date_ptype_spec, date_tree, is_zone as is_zone_spec, kept_written, letters_of as letters_spec, temporal_in, temporal_of, time_letters as time_letters_spec, time_ptype as time_ptype_spec, time_tree, timestamp_letters as timestamp_letters_spec, timestamp_tree, unit_and_zone as unit_and_zone_spec, unit_of_byte};
ghost use Rattle.c_arrow.specs.Views.{written};

use crate::format::text_of;
use crate::kept::Kept;
use dtype_base::{Nullability, PType, VortexResult};
use dtype_types::{DType, ExtDTypeRef, ExtId};
use std::alloc::Global;
use std::str;

/// The unit of a date, a time or a timestamp.
#[derive(Clone, Copy, Debug, PartialEq, Eq)]
pub enum Unit {
    Nanoseconds,
    Microseconds,
    Milliseconds,
    Seconds,
    Days,
}

impl Unit {
    /// Returns the unit of a timestamp with this letter in its format.
    #[tactic(auto, unfolding(crate::specs::Formats::unit_of_letter))]
    pub(crate) fn of_letter(letter: u8) -> Option<Unit>
        ensures { result ≡ unit_of_letter letter }
    {
        match letter {
            b's' => Some(Unit::Seconds),
            b'm' => Some(Unit::Milliseconds),
            b'u' => Some(Unit::Microseconds),
            b'n' => Some(Unit::Nanoseconds),
            _ => None,
        }
    }

    // Returns the byte that stands for the unit in the metadata.
    #[tactic(auto, unfolding(crate::specs::Temporal::byte_of))]
    fn byte(self) -> u8
        ensures { result ≡ byte_of self }
    {
        match self {
            Unit::Nanoseconds => 0,
            Unit::Microseconds => 1,
            Unit::Milliseconds => 2,
            Unit::Seconds => 3,
            Unit::Days => 4,
        }
    }

    // Returns the unit for which a byte stands in the metadata.
    #[tactic(auto, unfolding(crate::specs::Temporal::unit_of_byte))]
    fn of_byte(byte: u8) -> Option<Unit>
        ensures { result ≡ unit_of_byte byte }
    {
        match byte {
            0 => Some(Unit::Nanoseconds),
            1 => Some(Unit::Microseconds),
            2 => Some(Unit::Milliseconds),
            3 => Some(Unit::Seconds),
            4 => Some(Unit::Days),
            _ => None,
        }
    }
}

/// Returns the date type of this unit, which is over `i32` for days and over `i64` for milliseconds.
#[tactic(auto, unfolding(crate::specs::Temporal::date_tree))]
pub(crate) fn date(alloc: Global, unit: Unit, n: Nullability) -> VortexResult<DType>
    ensures made { Makes result (λ d. tree d ≡ date_tree unit n) }
    ensures valid { IfOk result (λ d. Valid (tree d)) }
    ensures levels { IfOk result (λ d. levels (tree d) ≤ 1) }
{
    let metadata = vec![in alloc; unit.byte()]?;
    extension(
        alloc,
        "vortex.date",
        metadata,
        DType::Primitive(date_ptype(unit), n),
    )
}

/// Returns the time type of this unit, which is over `i32` for seconds and milliseconds, and otherwise over `i64`.
#[tactic(auto, unfolding(crate::specs::Temporal::time_tree))]
pub(crate) fn time(alloc: Global, unit: Unit, n: Nullability) -> VortexResult<DType>
    ensures made { Makes result (λ d. tree d ≡ time_tree unit n) }
    ensures valid { IfOk result (λ d. Valid (tree d)) }
    ensures levels { IfOk result (λ d. levels (tree d) ≤ 1) }
{
    let metadata = vec![in alloc; unit.byte()]?;
    extension(
        alloc,
        "vortex.time",
        metadata,
        DType::Primitive(time_ptype(unit), n),
    )
}

/// Returns the timestamp type of this unit with this time zone, which is over `i64`.
#[tactic(auto, unfolding(crate::specs::Temporal::timestamp_tree))]
pub(crate) fn timestamp(
    alloc: Global,
    unit: Unit,
    zone: &[u8],
    n: Nullability,
) -> VortexResult<Option<DType>>
    ensures made { Makes result (λ o. shown tree o ≡ timestamp_tree unit zone.now n) }
    ensures valid { IfOk result (λ o. IfSome o (λ d. Valid (tree d))) }
    ensures levels { IfOk result (λ o. IfSome o (λ d. levels (tree d) ≤ 1)) }
{
    let Ok(length) = u16::try_from(zone.len()) else {
        return Ok(None);
    };
    if !is_text(zone) {
        return Ok(None);
    }
    let [low, high] = u16::to_le_bytes(length);
    let mut metadata = vec![in alloc; unit.byte(), low, high]?;
    metadata.extend_from_slice(zone)?;
    let storage = DType::Primitive(PType::I64, n);
    Ok(Some(extension(alloc, "vortex.timestamp", metadata, storage)?))
}

/// Returns the extension type with this id, this metadata and this storage type.
#[tactic(auto, using(crate::proofs::Sound::extensions))]
pub(crate) fn extension(
    alloc: Global,
    id: &str,
    metadata: Vec<u8>,
    storage: DType,
) -> VortexResult<DType>
    ensures made { Makes result (λ d. tree d ≡ of.extension id.now metadata.items (tree storage)) }
    ensures valid { Valid (tree storage) → IfOk result (λ d. Valid (tree d)) }
{
    let id = ExtId::new(alloc, id)?;
    Ok(DType::Extension(ExtDTypeRef::from_parts(alloc, id, metadata, storage)?))
}

#[tactic(auto, unfolding(crate::specs::Temporal::date_ptype))]
fn date_ptype(unit: Unit) -> PType
    ensures { result ≡ date_ptype_spec unit }
{
    match unit {
        Unit::Days => PType::I32,
        Unit::Milliseconds | Unit::Seconds | Unit::Microseconds | Unit::Nanoseconds => {
            PType::I64
        }
    }
}

#[tactic(auto, unfolding(crate::specs::Temporal::time_ptype))]
fn time_ptype(unit: Unit) -> PType
    ensures { result ≡ time_ptype_spec unit }
{
    match unit {
        Unit::Seconds | Unit::Milliseconds => PType::I32,
        Unit::Microseconds | Unit::Nanoseconds | Unit::Days => PType::I64,
    }
}

/// A temporal extension as Arrow writes it.
#[derive(Clone, Copy)]
pub(crate) struct Temporal<'a> {
    /// The format, without the time zone.
    pub(crate) letters: &'a [u8],
    /// The time zone of a timestamp, and otherwise no bytes.
    pub(crate) zone: &'a [u8],
    pub(crate) nullability: Nullability,
    /// Whether the storage type is a list, which takes a level.
    pub(crate) is_list: bool,
}

impl<'a> Temporal<'a> {
    /// Returns how Arrow writes an extension, or `None` if it is no date, time, timestamp, duration or interval, or if its
    /// metadata or its storage type is another than that of Arrow's types.
    #[tactic(auto, unfolding(crate::specs::Temporal::temporal_in, crate::specs::Temporal::written_of))]
    pub(crate) fn of(extension: &'a ExtDTypeRef) -> Option<Temporal<'a>>
        ensures { shown written result ≡ temporal_in (extension_tree extension.now) }
    {
        match Temporal::of_unit(extension) {
            Some(temporal) => Some(temporal),
            None => Temporal::of_kept(extension),
        }
    }

    // Returns how Arrow writes a date, a time or a timestamp.
    #[tactic(auto, unfolding(crate::specs::Temporal::temporal_of))]
    fn of_unit(extension: &'a ExtDTypeRef) -> Option<Temporal<'a>>
        ensures { shown written result ≡ temporal_of (extension_id extension.now) (extension_metadata extension.now) (storage_tree extension.now) }
    {
        let DType::Primitive(ptype, nullability) = extension.storage_dtype() else {
            return None;
        };
        let (unit, zone) = unit_and_zone(extension.metadata_bytes())?;
        let letters = letters_of(extension.id().as_str(), unit, *ptype, zone.is_some())?;
        Some(Temporal {
            letters: letters.as_bytes(),
            zone: zone.unwrap_or(&[]),
            nullability: *nullability,
            is_list: false,
        })
    }

    // Returns how Arrow writes an extension that keeps a format, which is its metadata.
    #[tactic(auto, unfolding(crate::specs::Temporal::kept_written, crate::specs::Temporal::kept_with))]
    fn of_kept(extension: &'a ExtDTypeRef) -> Option<Temporal<'a>>
        ensures { shown written result ≡ kept_written (extension_id extension.now) (extension_metadata extension.now) (storage_tree extension.now) }
    {
        let kept = Kept::of(text_of(extension.metadata_bytes())?)?;
        let nullability = kept.nullability_in(extension.storage_dtype())?;
        if extension.id().as_str() != kept.id() {
            return None;
        }
        Some(Temporal {
            letters: extension.metadata_bytes(),
            zone: &[],
            nullability,
            is_list: kept.is_list(),
        })
    }
}

// Returns the unit in the metadata, and the time zone if there is one.
#[tactic(auto, unfolding(crate::specs::Temporal::unit_and_zone))]
fn unit_and_zone(metadata: &[u8]) -> Option<(Unit, Option<&[u8]>)>
    ensures { shown (λ r. (r.0, shown (λ z. z.now) r.1)) result ≡ unit_and_zone_spec metadata.now }
{
    match metadata {
        [unit] => Some((Unit::of_byte(*unit)?, None)),
        [unit, low, high, zone @ ..] => {
            if !is_zone(*low, *high, zone) {
                return None;
            }
            Some((Unit::of_byte(*unit)?, Some(zone)))
        }
        _ => None,
    }
}

// Returns whether these bytes are a time zone of this length, whose lower byte is the first.
fn is_zone(low: u8, high: u8, zone: &[u8]) -> bool
    ensures { result ≡ is_zone_spec low high zone.now }
{
    usize::from(u16::from_le_bytes([low, high])) == zone.len() && is_text(zone)
}

// Returns whether bytes are UTF-8.
#[tactic(auto, using(crate::proofs::Leaves::utf8))]
fn is_text(bytes: &[u8]) -> bool
    ensures { result ≡ is_utf8 bytes.now }
{
    match str::from_utf8(bytes) {
        Ok(_text) => true,
        Err(_) => false,
    }
}

// Returns the format, without the time zone, of an extension with this id, this unit, this storage type, and a time zone or
// none.
#[tactic(auto, unfolding(crate::specs::Temporal::letters_of))]
fn letters_of(id: &str, unit: Unit, ptype: PType, has_zone: bool) -> Option<&'static str>
    ensures { shown (λ t. t.now) result ≡ letters_spec id.now unit ptype has_zone }
{
    match id {
        "vortex.date" if !has_zone => date_letters(unit, ptype),
        "vortex.time" if !has_zone => time_letters(unit, ptype),
        "vortex.timestamp" if has_zone => timestamp_letters(unit, ptype),
        _ => None,
    }
}

// Returns the format of a date of this unit over this storage type.
#[tactic(auto, unfolding(crate::specs::Temporal::date_letters))]
fn date_letters(unit: Unit, ptype: PType) -> Option<&'static str>
    ensures { shown (λ t. t.now) result ≡ date_letters_spec unit ptype }
{
    match (unit, ptype) {
        (Unit::Days, PType::I32) => Some("tdD"),
        (Unit::Milliseconds, PType::I64) => Some("tdm"),
        _ => None,
    }
}

// Returns the format of a time of this unit over this storage type.
#[tactic(auto, unfolding(crate::specs::Temporal::time_letters))]
fn time_letters(unit: Unit, ptype: PType) -> Option<&'static str>
    ensures { shown (λ t. t.now) result ≡ time_letters_spec unit ptype }
{
    match (unit, ptype) {
        (Unit::Seconds, PType::I32) => Some("tts"),
        (Unit::Milliseconds, PType::I32) => Some("ttm"),
        (Unit::Microseconds, PType::I64) => Some("ttu"),
        (Unit::Nanoseconds, PType::I64) => Some("ttn"),
        _ => None,
    }
}

// Returns the format, without the time zone, of a timestamp of this unit over this storage type.
#[tactic(auto, unfolding(crate::specs::Temporal::timestamp_letters))]
fn timestamp_letters(unit: Unit, ptype: PType) -> Option<&'static str>
    ensures { shown (λ t. t.now) result ≡ timestamp_letters_spec unit ptype }
{
    match (unit, ptype) {
        (Unit::Seconds, PType::I64) => Some("tss:"),
        (Unit::Milliseconds, PType::I64) => Some("tsm:"),
        (Unit::Microseconds, PType::I64) => Some("tsu:"),
        (Unit::Nanoseconds, PType::I64) => Some("tsn:"),
        _ => None,
    }
}
