// SPDX-License-Identifier: Apache-2.0
// SPDX-FileCopyrightText: Copyright the Vortex contributors

// Types from nodes and texts. What is read is taken from the front of both.
ghost use Rattle.std.specs.Prelude.{◌≡◌, ◌≤◌, ◌<◌, IfOk, length, map, vec_len};
ghost use Rattle.std.specs.List.{All, zip};
ghost use Rattle.dtype_text.specs.Grammar.{levels as levels_of};
ghost use Rattle.dtype_text.specs.Read.{shown};
ghost use Rattle.dtype_types.specs.tree.TreeOf.{tree};
ghost use Rattle.dtype_types.specs.tree.Valid.{Valid};
ghost use Rattle.c_arrow.specs.Faults.{Gives};
ghost use Rattle.c_arrow.specs.Read.{Reads, bytes_of, child_by, date_of, dictionary_by, entries_by, extension_by, kept_storage as kept_storage_spec, kept_type as kept_type_spec, fixed_by, format_by, inner_by, inside_at, is_entries as is_entries_spec, is_index as is_index_spec, list_by, map_by, map_with, named_by, part_by, read_flat, run_ends_by, storage_by, struct_by, time_of as time_spec, timestamp_of, type_by, union_by, value_by, values_by};
ghost use Rattle.c_arrow.specs.Rests.{ReadsPart, ReadsType, child, children_by, left, seen, seen_by, seen_entries_by};

use crate::fault::{ArrowFault, Problem};
use crate::format::{Format, parameter};
use crate::ids::ids_of;
use crate::kept::Kept;
use crate::node::ArrowNode;
use crate::place::Place;
use crate::rest::{Field, Rest};
use crate::temporal::{Unit, date, extension, time, timestamp};
use crate::types::{decimal_type, map_type, struct_type, union_type};
use dtype_base::{FieldName, PType};
use dtype_types::DType;
use std::alloc::Global;
use std::str;

/// The number of other types in which a type may be nested.
pub(crate) const MAX_LEVELS: u32 = 128;
/// The number of fields that may be inside one another.
const MAX_FIELDS: u32 = 300;

/// Returns the type of the schema that these nodes and texts describe. The name of the root is ignored.
///
/// # Errors
///
/// The first of these that is met when the nodes are read in order:
///
/// - `OutOfRange`: nodes or bytes end too early, or some are left.
/// - `Refused`: a field has no type here. The refusal names the field and says why.
/// - `Library`: the library refuses the type of a field.
/// - `TooDeep`: a type is nested in more than 128 others.
/// - `OutOfMemory`: an allocation fails.
#[tactic(auto, unfolding(crate::specs::Read::read_flat))]
pub fn dtype_of(alloc: Global, nodes: &[ArrowNode], texts: &[u8]) -> Result<DType, ArrowFault>
    // The type or the fault is that which is read, unless memory runs out.
    ensures read { Gives tree result (read_flat nodes.now texts.now) }
    ensures valid { IfOk result (λ d. Valid (tree d)) }
    ensures levels { IfOk result (λ d. levels_of (tree d) ≤ 128) }
{
    let mut rest = Rest { nodes, texts };
    let root = rest.field()?;
    let place = Place {
        nullable: root.node.is_nullable(),
        levels: MAX_LEVELS,
        fields: MAX_FIELDS - 1,
    };
    let dtype = read(alloc, &mut rest, &root, place)?;
    if rest.nodes.is_empty() && rest.texts.is_empty() {
        Ok(dtype)
    } else {
        Err(ArrowFault::OutOfRange)
    }
}

// Reads the type of a field, after its node. The place says whether the type is nullable.
#[cycle(reading)]
#[tactic(auto, unfolding(crate::specs::Read::type_by))]
fn read(
    alloc: Global,
    rest: &mut Rest<'_>,
    field: &Field<'_>,
    place: Place,
) -> Result<DType, ArrowFault>
    ensures read { ReadsType type_by result place field.now rest.old rest.new }
    ensures valid { IfOk result (λ d. Valid (tree d)) }
    ensures levels { IfOk result (λ d. levels_of (tree d) ≤ place.levels) }
{
    field.check_fault(alloc)?;
    let keys = field.keys(alloc)?;
    match keys.name {
        Some(id) => read_extension(alloc, rest, field, id, keys.metadata, place),
        None => read_storage(alloc, rest, field, place),
    }
}

// Reads an extension with this id and this metadata.
#[cycle(reading)]
#[tactic(auto, unfolding(crate::specs::Read::extension_by), using(crate::proofs::Leaves::utf8, crate::proofs::FaultFacts::faults))]
fn read_extension(
    alloc: Global,
    rest: &mut Rest<'_>,
    field: &Field<'_>,
    id: &[u8],
    metadata: Option<&[u8]>,
    place: Place,
) -> Result<DType, ArrowFault>
    ensures read { ReadsType (λ w f. extension_by w f id.now (shown (λ m. m.now) metadata.entry)) result place field.now rest.old rest.new }
    ensures valid { IfOk result (λ d. Valid (tree d)) }
    ensures levels { IfOk result (λ d. levels_of (tree d) ≤ place.levels) }
{
    let Ok(id) = str::from_utf8(id) else {
        return Err(field.refused(alloc, Problem::Id));
    };
    let storage = read_storage(alloc, rest, field, place.storage()?)?;
    let metadata = Vec::from_slice(alloc, metadata.unwrap_or(&[]))?;
    Ok(extension(alloc, id, metadata, storage)?)
}

// Reads the type of a field without its extension.
#[cycle(reading)]
#[tactic(auto, unfolding(crate::specs::Read::storage_by), using(crate::proofs::FaultFacts::faults))]
fn read_storage(
    alloc: Global,
    rest: &mut Rest<'_>,
    field: &Field<'_>,
    place: Place,
) -> Result<DType, ArrowFault>
    ensures read { ReadsType storage_by result place field.now rest.old rest.new }
    ensures valid { IfOk result (λ d. Valid (tree d)) }
    ensures levels { IfOk result (λ d. levels_of (tree d) ≤ place.levels) }
{
    let format = Format::of(field.format);
    if field.node.has_dictionary == 1 {
        return read_dictionary(alloc, rest, field, format, place);
    }
    match format {
        Some(format) => read_format(alloc, rest, field, format, place),
        None => Err(field.refused(alloc, Problem::Format)),
    }
}

// Returns whether a format is that of an integer, as the indices of a dictionary are.
fn is_index(format: Option<Format>) -> bool
    ensures { result ≡ is_index_spec format }
{
    match format {
        Some(Format::Primitive(ptype)) => ptype.is_int(),
        _ => false,
    }
}

// Reads the type of the values of a dictionary, whose indices have this format.
#[cycle(reading)]
#[tactic(auto, unfolding(crate::specs::Read::dictionary_by), using(crate::proofs::FaultFacts::faults))]
fn read_dictionary(
    alloc: Global,
    rest: &mut Rest<'_>,
    field: &Field<'_>,
    indices: Option<Format>,
    place: Place,
) -> Result<DType, ArrowFault>
    ensures read { ReadsType (λ w f. dictionary_by w f indices) result place field.now rest.old rest.new }
    ensures valid { IfOk result (λ d. Valid (tree d)) }
    ensures levels { IfOk result (λ d. levels_of (tree d) ≤ place.levels) }
{
    if !is_index(indices) {
        return Err(field.refused(alloc, Problem::Dictionary));
    }
    if field.node.child_count != 0 {
        return Err(field.refused(alloc, Problem::NoChildren));
    }
    read_values(alloc, rest, field, place)
}

// Reads the type of a dictionary's values. The name of their field isn't part of a path.
#[cycle(reading)]
#[tactic(auto, using(crate::proofs::Reading::dictionaries, crate::proofs::FaultFacts::faults))]
fn read_values(
    alloc: Global,
    rest: &mut Rest<'_>,
    parent: &Field<'_>,
    place: Place,
) -> Result<DType, ArrowFault>
    ensures read { ReadsType values_by result place parent.now rest.old rest.new }
    ensures valid { IfOk result (λ d. Valid (tree d)) }
    ensures levels { IfOk result (λ d. levels_of (tree d) ≤ place.levels) }
{
    if place.fields == 0 {
        return Err(parent.refused(alloc, Problem::Nested));
    }
    read_value(alloc, rest, place.inner())
}

// Reads the type of the next field, which isn't nullable by its own flags: those of a dictionary's values have no meaning.
#[cycle(reading)]
#[tactic(auto, unfolding(crate::specs::Read::value_by))]
fn read_value(alloc: Global, rest: &mut Rest<'_>, place: Place) -> Result<DType, ArrowFault>
    ensures read { Reads tree result (left rest.new) (value_by (type_by (inside_at place.fields)) place.nullable place.levels (left rest.old)) }
    ensures valid { IfOk result (λ d. Valid (tree d)) }
    ensures levels { IfOk result (λ d. levels_of (tree d) ≤ place.levels) }
{
    let field = rest.field()?;
    read(alloc, rest, &field, place)
}

// Reads the type of a format.
#[cycle(reading)]
#[tactic(auto, unfolding(crate::specs::Read::format_by, crate::specs::Read::after_format))]
fn read_format(
    alloc: Global,
    rest: &mut Rest<'_>,
    field: &Field<'_>,
    format: Format,
    place: Place,
) -> Result<DType, ArrowFault>
    ensures read { ReadsType (λ w f. format_by w f format) result place field.now rest.old rest.new }
    ensures valid { IfOk result (λ d. Valid (tree d)) }
    ensures levels { IfOk result (λ d. levels_of (tree d) ≤ place.levels) }
{
    field.check_children(alloc, format)?;
    let n = place.nullability();
    match format {
        Format::Null => Ok(DType::Null),
        Format::Bool => Ok(DType::Bool(n)),
        Format::Primitive(ptype) => Ok(DType::Primitive(ptype, n)),
        Format::Utf8 => Ok(DType::Utf8(n)),
        Format::Binary => Ok(DType::Binary(n)),
        Format::Decimal(precision, scale) => Ok(decimal_type(precision, scale, n)?),
        Format::FixedSizeBinary(size) => Ok(fixed_size_binary(alloc, size, place)?),
        Format::Date(unit) => Ok(date_type(alloc, unit, place)?),
        Format::Time(unit) => Ok(time_type(alloc, unit, place)?),
        Format::Timestamp(unit) => Ok(timestamp_type(alloc, field, unit, place)?),
        Format::Kept(kept) => Ok(kept_type(alloc, field, kept, place)?),
        Format::List => read_list(alloc, rest, field, place),
        Format::FixedSizeList(size) => read_fixed(alloc, rest, field, size, place),
        Format::Struct => read_struct(alloc, rest, field, place),
        Format::Map => read_map(alloc, rest, field, place),
        Format::Union => read_union(alloc, rest, field, place),
        Format::RunEnds => read_run_ends(alloc, rest, field, place),
    }
}

// Returns the type of byte strings of one length.
#[tactic(auto, unfolding(crate::specs::Read::bytes_of))]
fn fixed_size_binary(alloc: Global, size: u32, place: Place) -> Result<DType, ArrowFault>
    ensures read { Gives tree result (bytes_of size place.nullable place.levels) }
    ensures valid { IfOk result (λ d. Valid (tree d)) }
    ensures levels { IfOk result (λ d. levels_of (tree d) ≤ place.levels) }
{
    let part = place.part()?;
    let byte = DType::Primitive(PType::U8, part.nullability());
    Ok(DType::fixed_size_list(alloc, byte, size, place.nullability())?)
}

// Returns a date type, which is an extension.
#[tactic(auto, unfolding(crate::specs::Read::date_of))]
fn date_type(alloc: Global, unit: Unit, place: Place) -> Result<DType, ArrowFault>
    ensures read { Gives tree result (date_of unit place.nullable place.levels) }
    ensures valid { IfOk result (λ d. Valid (tree d)) }
    ensures levels { IfOk result (λ d. levels_of (tree d) ≤ place.levels) }
{
    let n = place.storage()?.nullability();
    Ok(date(alloc, unit, n)?)
}

// Returns a time type, which is an extension.
#[tactic(auto, unfolding(crate::specs::Read::time_of))]
fn time_type(alloc: Global, unit: Unit, place: Place) -> Result<DType, ArrowFault>
    ensures read { Gives tree result (time_spec unit place.nullable place.levels) }
    ensures valid { IfOk result (λ d. Valid (tree d)) }
    ensures levels { IfOk result (λ d. levels_of (tree d) ≤ place.levels) }
{
    let n = place.storage()?.nullability();
    Ok(time(alloc, unit, n)?)
}

// Returns a timestamp type, which is an extension. The time zone is behind the letters of the format.
#[tactic(auto, unfolding(crate::specs::Read::timestamp_of), using(crate::proofs::FaultFacts::faults))]
fn timestamp_type(
    alloc: Global,
    field: &Field<'_>,
    unit: Unit,
    place: Place,
) -> Result<DType, ArrowFault>
    ensures read { Gives tree result (timestamp_of (seen field.now) unit place.nullable place.levels) }
    ensures valid { IfOk result (λ d. Valid (tree d)) }
    ensures levels { IfOk result (λ d. levels_of (tree d) ≤ place.levels) }
{
    let n = place.storage()?.nullability();
    match timestamp(alloc, unit, parameter(field.format), n)? {
        Some(dtype) => Ok(dtype),
        None => Err(field.refused(alloc, Problem::Zone)),
    }
}

// Returns the extension that keeps the format of a field.
#[tactic(auto, unfolding(crate::specs::Read::kept_type))]
fn kept_type(
    alloc: Global,
    field: &Field<'_>,
    kept: Kept,
    place: Place,
) -> Result<DType, ArrowFault>
    ensures read { Gives tree result (kept_type_spec (seen field.now) kept place.nullable place.levels) }
    ensures valid { IfOk result (λ d. Valid (tree d)) }
    ensures levels { IfOk result (λ d. levels_of (tree d) ≤ place.levels) }
{
    let storage = kept_storage(alloc, kept, place.storage()?)?;
    let format = Vec::from_slice(alloc, field.format)?;
    Ok(extension(alloc, kept.id(), format, storage)?)
}

// Returns the storage type of what is kept.
#[tactic(auto, unfolding(crate::specs::Read::kept_storage))]
fn kept_storage(alloc: Global, kept: Kept, place: Place) -> Result<DType, ArrowFault>
    ensures read { Gives tree result (kept_storage_spec kept place.nullable place.levels) }
    ensures valid { IfOk result (λ d. Valid (tree d)) }
    ensures levels { IfOk result (λ d. levels_of (tree d) ≤ place.levels) }
{
    match kept {
        Kept::Duration => Ok(DType::Primitive(PType::I64, place.nullability())),
        Kept::Months => Ok(DType::Primitive(PType::I32, place.nullability())),
        Kept::Days => Ok(fixed_size_binary(alloc, 8, place)?),
        Kept::Nanoseconds => Ok(fixed_size_binary(alloc, 16, place)?),
    }
}

// Reads a child and returns its name and its type.
#[cycle(reading)]
#[tactic(auto, using(crate::proofs::Reading::children, crate::proofs::FaultFacts::faults))]
fn read_child<'a>(
    alloc: Global,
    rest: &mut Rest<'a>,
    parent: &Field<'_>,
    place: Place,
) -> Result<(&'a str, DType), ArrowFault>
    ensures read { ReadsPart child child_by result place parent.now rest.old rest.new }
    ensures valid { IfOk result (λ r. Valid (tree r.1)) }
    ensures levels { IfOk result (λ r. levels_of (tree r.1) ≤ place.levels) }
{
    if place.fields == 0 {
        return Err(parent.refused(alloc, Problem::Nested));
    }
    read_inner(alloc, rest, place.inner())
}

// Reads the next field, and returns its name and its type.
#[cycle(reading)]
#[tactic(auto, unfolding(crate::specs::Read::inner_by))]
fn read_inner<'a>(
    alloc: Global,
    rest: &mut Rest<'a>,
    place: Place,
) -> Result<(&'a str, DType), ArrowFault>
    ensures read { Reads child result (left rest.new) (inner_by (type_by (inside_at place.fields)) place.nullable place.levels (left rest.old)) }
    ensures valid { IfOk result (λ r. Valid (tree r.1)) }
    ensures levels { IfOk result (λ r. levels_of (tree r.1) ≤ place.levels) }
{
    let field = rest.field()?;
    read_seen(alloc, rest, &field, place)
}

// Reads the name and the type of a field, after its node. A fault is returned as the parent of the field sees it.
#[cycle(reading)]
#[tactic(auto, using(crate::proofs::FaultFacts::stops_within))]
fn read_seen<'a>(
    alloc: Global,
    rest: &mut Rest<'a>,
    field: &Field<'a>,
    place: Place,
) -> Result<(&'a str, DType), ArrowFault>
    ensures read { ReadsPart child seen_by result place field.now rest.old rest.new }
    ensures valid { IfOk result (λ r. Valid (tree r.1)) }
    ensures levels { IfOk result (λ r. levels_of (tree r.1) ≤ place.levels) }
{
    match read_named(alloc, rest, field, place) {
        Ok(read) => Ok(read),
        Err(fault) => Err(fault.within(alloc, field.name)),
    }
}

// Reads the name and the type of a field, after its node.
#[cycle(reading)]
#[tactic(auto, unfolding(crate::specs::Read::named_by))]
fn read_named<'a>(
    alloc: Global,
    rest: &mut Rest<'a>,
    field: &Field<'a>,
    place: Place,
) -> Result<(&'a str, DType), ArrowFault>
    ensures read { ReadsPart child (λ w. named_by (type_by w)) result place field.now rest.old rest.new }
    ensures valid { IfOk result (λ r. Valid (tree r.1)) }
    ensures levels { IfOk result (λ r. levels_of (tree r.1) ≤ place.levels) }
{
    let name = field.name(alloc)?;
    let place = place.made_nullable(field.node.is_nullable());
    Ok((name, read(alloc, rest, field, place)?))
}

// Reads a child whose type is a part of the type here, and returns its name and its type.
#[cycle(reading)]
#[tactic(auto, unfolding(crate::specs::Read::part_by))]
fn read_part<'a>(
    alloc: Global,
    rest: &mut Rest<'a>,
    parent: &Field<'_>,
    place: Place,
) -> Result<(&'a str, DType), ArrowFault>
    ensures read { ReadsPart child (λ w f n. part_by w f) result place parent.now rest.old rest.new }
    ensures valid { IfOk result (λ r. Valid (tree r.1)) }
    ensures levels { IfOk result (λ r. levels_of (tree r.1) < place.levels) }
{
    let inner = place.part()?;
    read_child(alloc, rest, parent, inner)
}

// Reads the element type of a list.
#[cycle(reading)]
#[tactic(auto, unfolding(crate::specs::Read::list_by))]
fn read_list(
    alloc: Global,
    rest: &mut Rest<'_>,
    field: &Field<'_>,
    place: Place,
) -> Result<DType, ArrowFault>
    ensures read { ReadsType list_by result place field.now rest.old rest.new }
    ensures valid { IfOk result (λ d. Valid (tree d)) }
    ensures levels { IfOk result (λ d. levels_of (tree d) ≤ place.levels) }
{
    let (_, element) = read_part(alloc, rest, field, place)?;
    Ok(DType::list(alloc, element, place.nullability())?)
}

#[cycle(reading)]
#[tactic(auto, unfolding(crate::specs::Read::fixed_by))]
fn read_fixed(
    alloc: Global,
    rest: &mut Rest<'_>,
    field: &Field<'_>,
    size: u32,
    place: Place,
) -> Result<DType, ArrowFault>
    ensures read { ReadsType (λ w f. fixed_by w f size) result place field.now rest.old rest.new }
    ensures valid { IfOk result (λ d. Valid (tree d)) }
    ensures levels { IfOk result (λ d. levels_of (tree d) ≤ place.levels) }
{
    let (_, element) = read_part(alloc, rest, field, place)?;
    Ok(DType::fixed_size_list(alloc, element, size, place.nullability())?)
}

#[cycle(reading)]
#[tactic(auto, unfolding(crate::specs::Read::struct_by), using(crate::proofs::Sound::structs))]
fn read_struct(
    alloc: Global,
    rest: &mut Rest<'_>,
    field: &Field<'_>,
    place: Place,
) -> Result<DType, ArrowFault>
    ensures read { ReadsType struct_by result place field.now rest.old rest.new }
    ensures valid { IfOk result (λ d. Valid (tree d)) }
    ensures levels { IfOk result (λ d. levels_of (tree d) ≤ place.levels) }
{
    let (names, dtypes) = read_children(alloc, rest, field, place)?;
    Ok(struct_type(alloc, names, dtypes, place.nullability())?)
}

#[cycle(reading)]
#[tactic(auto, unfolding(crate::specs::Read::union_by), using(crate::proofs::FaultFacts::faults))]
fn read_union(
    alloc: Global,
    rest: &mut Rest<'_>,
    field: &Field<'_>,
    place: Place,
) -> Result<DType, ArrowFault>
    ensures read { ReadsType union_by result place field.now rest.old rest.new }
    ensures valid { IfOk result (λ d. Valid (tree d)) }
    ensures levels { IfOk result (λ d. levels_of (tree d) ≤ place.levels) }
{
    let Some(ids) = ids_of(alloc, parameter(field.format))? else {
        return Err(field.refused(alloc, Problem::Format));
    };
    let (names, dtypes) = read_children(alloc, rest, field, place)?;
    Ok(union_type(alloc, names, dtypes, ids, place.nullability())?)
}

// Reads the children of a struct or a union, and returns their names and their types.
#[cycle(reading)]
fn read_children(
    alloc: Global,
    rest: &mut Rest<'_>,
    field: &Field<'_>,
    place: Place,
) -> Result<(Vec<FieldName>, Vec<DType>), ArrowFault>
    ensures read { ReadsPart (λ r. zip r.0.items (map tree r.1.items)) children_by result place field.now rest.old rest.new }
    ensures counts { IfOk result (λ r. length r.0.items ≡ vec_len r.1) }
    ensures valid { IfOk result (λ r. All (λ d. Valid (tree d)) r.1.items) }
    ensures levels { IfOk result (λ r. All (λ d. levels_of (tree d) < place.levels) r.1.items) }
{
    let wanted = field.node.child_count;
    let room = rest.at_most(wanted);
    let mut names = Vec::with_capacity(alloc, room)?;
    let mut dtypes = Vec::with_capacity(alloc, room)?;
    for _at in 0..wanted {
        let (name, dtype) = read_part(alloc, rest, field, place)?;
        names.push(FieldName::new(alloc, name)?)?;
        dtypes.push(dtype)?;
    }
    Ok((names, dtypes))
}

// Reads a map, whose child is a struct of a key and a value.
#[cycle(reading)]
#[tactic(auto, using(crate::proofs::Reading::maps, crate::proofs::FaultFacts::faults))]
fn read_map(
    alloc: Global,
    rest: &mut Rest<'_>,
    field: &Field<'_>,
    place: Place,
) -> Result<DType, ArrowFault>
    ensures read { ReadsType map_by result place field.now rest.old rest.new }
    ensures valid { IfOk result (λ d. Valid (tree d)) }
    ensures levels { IfOk result (λ d. levels_of (tree d) ≤ place.levels) }
{
    if place.fields == 0 {
        return Err(field.refused(alloc, Problem::Nested));
    }
    read_inner_map(alloc, rest, field, place.inner())
}

// Reads a map, whose entries are the next field.
#[cycle(reading)]
#[tactic(auto, unfolding(crate::specs::Read::map_with), using(crate::proofs::FaultFacts::faults))]
fn read_inner_map(
    alloc: Global,
    rest: &mut Rest<'_>,
    field: &Field<'_>,
    place: Place,
) -> Result<DType, ArrowFault>
    ensures read { ReadsType map_with result place field.now rest.old rest.new }
    ensures valid { IfOk result (λ d. Valid (tree d)) }
    ensures levels { IfOk result (λ d. levels_of (tree d) ≤ place.levels) }
{
    let entries = rest.field()?;
    if entries.node.fault == 0 && !is_entries(&entries) {
        return Err(field.refused(alloc, Problem::Entries));
    }
    let (key, value) = read_seen_entries(alloc, rest, &entries, place)?;
    let sorted = field.node.has_sorted_keys();
    Ok(map_type(alloc, (key, value), sorted, place.nullability())?)
}

// Returns whether a field is a struct of two children.
fn is_entries(field: &Field<'_>) -> bool
    ensures { result ≡ is_entries_spec (seen field.now) }
{
    matches!(Format::of(field.format), Some(Format::Struct))
        && field.node.child_count == 2
        && field.node.has_dictionary == 0
}

// Reads the key type and the value type of a map, after the node of its entries. A fault is returned as the map sees it.
#[cycle(reading)]
#[tactic(auto, using(crate::proofs::FaultFacts::stops_within))]
fn read_seen_entries(
    alloc: Global,
    rest: &mut Rest<'_>,
    entries: &Field<'_>,
    place: Place,
) -> Result<(DType, DType), ArrowFault>
    ensures read { ReadsPart (λ r. (tree r.0, tree r.1)) seen_entries_by result place entries.now rest.old rest.new }
    ensures valid { IfOk result (λ r. Valid (tree r.0) × Valid (tree r.1)) }
    ensures levels { IfOk result (λ r. (levels_of (tree r.0) < place.levels) × (levels_of (tree r.1) < place.levels)) }
{
    match read_entries(alloc, rest, entries, place) {
        Ok(read) => Ok(read),
        Err(fault) => Err(fault.within(alloc, entries.name)),
    }
}

// Reads the key type and the value type of a map, after the node of its entries.
#[cycle(reading)]
#[tactic(auto, unfolding(crate::specs::Read::entries_by))]
fn read_entries(
    alloc: Global,
    rest: &mut Rest<'_>,
    entries: &Field<'_>,
    place: Place,
) -> Result<(DType, DType), ArrowFault>
    ensures read { ReadsPart (λ r. (tree r.0, tree r.1)) (λ w f n. entries_by w f) result place entries.now rest.old rest.new }
    ensures valid { IfOk result (λ r. Valid (tree r.0) × Valid (tree r.1)) }
    ensures levels { IfOk result (λ r. (levels_of (tree r.0) < place.levels) × (levels_of (tree r.1) < place.levels)) }
{
    entries.check_fault(alloc)?;
    entries.name(alloc)?;
    let (_, key) = read_part(alloc, rest, entries, place)?;
    let (_, value) = read_part(alloc, rest, entries, place)?;
    Ok((key, value))
}

// Reads the two children of a run-end encoded type, and returns the type of its values.
#[cycle(reading)]
#[tactic(auto, unfolding(crate::specs::Read::run_ends_by))]
fn read_run_ends(
    alloc: Global,
    rest: &mut Rest<'_>,
    field: &Field<'_>,
    place: Place,
) -> Result<DType, ArrowFault>
    ensures read { ReadsType run_ends_by result place field.now rest.old rest.new }
    ensures valid { IfOk result (λ d. Valid (tree d)) }
    ensures levels { IfOk result (λ d. levels_of (tree d) ≤ place.levels) }
{
    let ends = Place {
        nullable: false,
        ..place
    };
    read_child(alloc, rest, field, ends)?;
    let (_, values) = read_child(alloc, rest, field, place)?;
    Ok(values)
}
