// SPDX-License-Identifier: Apache-2.0
// SPDX-FileCopyrightText: Copyright the Vortex contributors

// Types and messages that are as wide as they may be, and others that are wide or deep.
use dtype_base::{FieldName, FieldNames, Nullability, PType, VortexResult};
use dtype_paths::{Field, FieldPath};
use dtype_types::{DType, FieldDType, StructFields, UnionVariants};
use std::alloc::Global;
use std::string::String;
use std::test::Fail;
use vortex_dtype::{DTypeProto, DTypeSession, pb};

const BYTE: DType = DType::Primitive(PType::U8, Nullability::NonNullable);

// Names that are the positions.
fn numbered_names(alloc: Global, count: usize) -> VortexResult<FieldNames> {
    let mut names = Vec::new(alloc);
    for i in 0..count {
        let text = i.to_string(alloc)?;
        names.push(FieldName::new(alloc, text.as_str())?)?;
    }
    Ok(FieldNames::from_vec(names))
}

// Fields named by their positions.
fn numbered(alloc: Global, count: usize) -> VortexResult<StructFields> {
    let mut fields = Vec::new(alloc);
    for name in numbered_names(alloc, count)? {
        fields.push((name, FieldDType::from(DType::Null)))?;
    }
    StructFields::from_iter(alloc, fields)
}

#[test]
fn one_of_a_thousand_fields_is_found_in_eleven_comparisons(rt: HostRuntime) -> Result<(), Fail> {
    let fields = numbered(rt.alloc(), 1_000)?;
    let (position, compared) = fields.find_counted("999");
    assert!(rt;
        position == Some(999) && (1..=11).contains(&compared),
        "{compared} comparisons"
    );
    Ok(())
}

fn nulls(alloc: Global, count: usize) -> VortexResult<Vec<DType>> {
    let mut dtypes = Vec::new(alloc);
    for _ in 0..count {
        dtypes.push(DType::Null)?;
    }
    Ok(dtypes)
}

// The tag of the last variant of a union of so many names and types, or the number of the error.
fn last_tag(alloc: Global, names: usize, types: usize) -> VortexResult<Result<Option<u8>, u8>> {
    let names = numbered_names(alloc, names)?;
    Ok(
        match UnionVariants::new(alloc, names, nulls(alloc, types)?) {
            Ok(union) => Ok(union.type_ids().last().copied()),
            Err(error) => Err(error.number()),
        },
    )
}

#[test]
fn a_union_has_at_most_256_variants(rt: HostRuntime) -> Result<(), Fail> {
    for (names, types, wanted) in [
        (256, 256, Ok(Some(255))),
        (257, 257, Err(14)),
        (257, 0, Err(14)),
    ] {
        let found = last_tag(rt.alloc(), names, types)?;
        assert!(rt; found == wanted, "{names} names, {types} types: {found:?}");
    }
    Ok(())
}

fn of(kind: pb::DtypeType) -> pb::DType {
    pb::DType {
        dtype_type: Some(kind),
    }
}

fn byte() -> pb::DType {
    of(pb::DtypeType::Primitive(pb::Primitive {
        ptype: 0,
        nullable: false,
    }))
}

// The message of a union of the variants 0 to `last`, each with its number as its name and as its tag, but the last with
// this tag.
fn numbered_union(alloc: Global, last: u16, last_tag: i32) -> VortexResult<pb::DType> {
    let (mut names, mut dtypes) = (Vec::new(alloc), Vec::new(alloc));
    let mut type_ids = Vec::new(alloc);
    for i in 0..=last {
        names.push(i.to_string(alloc)?)?;
        dtypes.push(byte())?;
        type_ids.push(if i < last { i32::from(i) } else { last_tag })?;
    }
    Ok(of(pb::DtypeType::Union(pb::Union {
        names,
        dtypes,
        type_ids,
        nullable: false,
    })))
}

// The number of the error that reading the message returns.
fn refusal(alloc: Global, proto: &pb::DType) -> Option<u8> {
    match DType::from_proto(alloc, proto, &DTypeSession::new(alloc)) {
        Ok(_) => None,
        Err(error) => Some(error.number()),
    }
}

#[test]
fn unions_of_257_variants_are_refused(rt: HostRuntime) -> Result<(), Fail> {
    for (last_tag, wanted) in [(256, 33), (0, 13)] {
        let proto = numbered_union(rt.alloc(), 256, last_tag)?;
        assert!(rt; refusal(rt.alloc(), &proto) == Some(wanted), "{last_tag}");
    }
    Ok(())
}

// Whether the message is read as a type that is written as the message, and read back.
fn is_kept(alloc: Global, proto: &pb::DType) -> VortexResult<bool> {
    let session = DTypeSession::new(alloc);
    let read = DType::from_proto(alloc, proto, &session)?;
    let written = read.to_proto(alloc)?;
    Ok(written == *proto && DType::from_proto(alloc, &written, &session)? == read)
}

#[test]
fn a_union_of_256_variants_is_kept(rt: HostRuntime) -> Result<(), Fail> {
    let proto = numbered_union(rt.alloc(), 255, 255)?;
    assert!(rt; is_kept(rt.alloc(), &proto)?);
    Ok(())
}

// `u8` in 200 lists.
fn deep_list(alloc: Global) -> VortexResult<DType> {
    let mut dtype = BYTE;
    for _ in 0..200 {
        dtype = DType::list(alloc, dtype, Nullability::NonNullable)?;
    }
    Ok(dtype)
}

#[test]
fn lists_are_kept_200_deep(rt: HostRuntime) -> Result<(), Fail> {
    let proto = deep_list(rt.alloc())?.to_proto(rt.alloc())?;
    assert!(rt; is_kept(rt.alloc(), &proto)?);
    Ok(())
}

// The path of `count` elements.
fn elements(alloc: Global, count: usize) -> VortexResult<FieldPath> {
    let mut parts = Vec::new(alloc);
    for _ in 0..count {
        parts.push(Field::ElementType)?;
    }
    Ok(FieldPath::from_vec(parts))
}

// The text of the type at the path of `steps` elements, or `none`.
fn at_elements(alloc: Global, dtype: &DType, steps: usize) -> VortexResult<String> {
    match elements(alloc, steps)?.resolve(dtype) {
        Some(found) => Ok(found.to_string(alloc)?),
        None => Ok(String::from_str(alloc, "none")?),
    }
}

#[test]
fn a_path_leads_through_each_of_200_lists(rt: HostRuntime) -> Result<(), Fail> {
    let whole = deep_list(rt.alloc())?;
    for (steps, wanted) in [(199, "list(u8)"), (200, "u8"), (201, "none")] {
        let found = at_elements(rt.alloc(), &whole, steps)?;
        assert!(rt; found.as_str() == wanted, "{steps} steps: {found}");
    }
    Ok(())
}
