// SPDX-License-Identifier: Apache-2.0
// SPDX-FileCopyrightText: Copyright the Vortex contributors

// The formats that are written of types.
ghost use Rattle.std.specs.Prelude.{◌≡◌, ◌++◌, IfOk, string_bytes};
ghost use Rattle.std.specs.Fmt.{decimal};
ghost use Rattle.std.specs.List.{list_any};
ghost use Rattle.c_arrow.specs.Faults.{Gives};
ghost use Rattle.c_arrow.specs.FormatsWritten.{bytes_format as bytes_spec, checked_nul, decimal_format as decimal_spec, fixed_size_format as fixed_size_spec, is_id as is_id_spec, is_nul as is_nul_spec, letter_of as letter_spec, union_format as union_spec};

use crate::fault::{ArrowFault, Problem};
use dtype_base::{DecimalDType, PType};
use std::alloc::{AllocError, Global};

// The greatest precision of a decimal that is written without the width of its values.
const SHORT_PRECISION: u8 = 38;
// The greatest size that Arrow's signed numbers of 32 bits have.
const MAX_SIZE: u32 = 2147483647;
// The greatest type id.
const MAX_ID: u8 = 127;

/// Returns the format of a primitive type.
#[tactic(auto, unfolding(crate::specs::FormatsWritten::letter_of))]
pub(crate) fn letter_of(ptype: PType) -> &'static str
    ensures { result.now ≡ letter_spec ptype }
{
    match ptype {
        PType::U8 => "C",
        PType::U16 => "S",
        PType::U32 => "I",
        PType::U64 => "L",
        PType::I8 => "c",
        PType::I16 => "s",
        PType::I32 => "i",
        PType::I64 => "l",
        PType::F16 => "e",
        PType::F32 => "f",
        PType::F64 => "g",
    }
}

/// Returns the format of a decimal type.
#[tactic(auto, unfolding(crate::specs::FormatsWritten::decimal_format))]
pub(crate) fn decimal_format(alloc: Global, decimal: DecimalDType) -> Result<String, AllocError>
    ensures { IfOk result (λ s. string_bytes s ≡ decimal_spec decimal.precision decimal.scale) }
{
    let (precision, scale) = (decimal.precision(), decimal.scale());
    let width = if precision > SHORT_PRECISION {
        ",256"
    } else {
        ""
    };
    format!(in alloc; "d:{precision},{scale}{width}")
}

/// Returns the format of a fixed-size list, or refuses a size that Arrow doesn't have.
#[tactic(auto, unfolding(crate::specs::FormatsWritten::fixed_size_format), using(crate::proofs::FaultFacts::faults))]
pub(crate) fn fixed_size_format(alloc: Global, size: u32) -> Result<String, ArrowFault>
    ensures { Gives string_bytes result (fixed_size_spec size) }
{
    if size > MAX_SIZE {
        return Err(ArrowFault::refused(alloc, &[], Problem::Size));
    }
    Ok(format!(in alloc; "+w:{size}")?)
}

/// Returns the format of byte strings of one length, or refuses a length that Arrow doesn't have.
#[tactic(auto, unfolding(crate::specs::FormatsWritten::bytes_format), using(crate::proofs::FaultFacts::faults))]
pub(crate) fn bytes_format(alloc: Global, size: u32) -> Result<String, ArrowFault>
    ensures { Gives string_bytes result (bytes_spec size) }
{
    if size > MAX_SIZE {
        return Err(ArrowFault::refused(alloc, &[], Problem::Size));
    }
    Ok(format!(in alloc; "w:{size}")?)
}

/// Returns the format of a union with these tags, or refuses a tag that is no type id.
#[tactic(auto, unfolding(crate::specs::FormatsWritten::union_format), using(crate::proofs::FaultFacts::faults, crate::proofs::Tags::tags))]
pub(crate) fn union_format(alloc: Global, tags: &[u8]) -> Result<String, ArrowFault>
    ensures { Gives string_bytes result (union_spec tags.now) }
{
    let mut format = String::from_str(alloc, "+us:")?;
    let mut separator = "";
    for tag in tags {
        if !is_id(*tag) {
            return Err(ArrowFault::refused(alloc, &[], Problem::Tag));
        }
        push_id(alloc, &mut format, separator, *tag)?;
        separator = ",";
    }
    Ok(format)
}

// Returns whether a tag is a type id of Arrow.
fn is_id(tag: u8) -> bool
    ensures { result ≡ is_id_spec tag }
{
    tag <= MAX_ID
}

// Appends a type id behind a separator.
fn push_id(alloc: Global, format: &mut String, separator: &str, id: u8) -> Result<(), AllocError>
    ensures { IfOk result (λ _. string_bytes format.new ≡ string_bytes format.old ++ (separator.now ++ decimal id)) }
{
    let id = format!(in alloc; "{separator}{id}")?;
    format.push_str(id.as_str())?;
    Ok(())
}

fn is_nul(byte: u8) -> bool
    ensures { result ≡ is_nul_spec byte }
{
    byte == 0
}

fn has_nul(text: &[u8]) -> bool
    ensures { result ≡ list_any is_nul_spec text.now }
{
    text.iter().any(|byte| is_nul(*byte))
}

/// Fails if there is a NUL byte, with which a name, an id or a time zone can't be written.
#[tactic(auto, unfolding(crate::specs::FormatsWritten::checked_nul), using(crate::proofs::FaultFacts::faults))]
pub(crate) fn check_nul(alloc: Global, text: &[u8]) -> Result<(), ArrowFault>
    ensures { Gives (λ u. u) result (checked_nul text.now) }
{
    if has_nul(text) {
        return Err(ArrowFault::refused(alloc, &[], Problem::Nul));
    }
    Ok(())
}
