// SPDX-License-Identifier: Apache-2.0
// SPDX-FileCopyrightText: Copyright the Vortex contributors

// Calls that change nothing: the covers and copies of path sets, structs and unions made of others, and messages. If an
// allocation fails, each returns `OutOfMemory`.
use crate::marks::{begin, end};
use crate::plugins::{Tag, TagName};
use crate::sets::{numbered, path, set};
use anyhow::Result;
use dtype_base::Nullability::{NonNullable, Nullable};
use dtype_base::{FieldName, FieldNames, PType, VortexError, VortexResult};
use dtype_paths::{FieldPath, FieldPathSet};
use dtype_types::{DType, ExtDTypeRef, ExtId, FieldDType, MapDType, StructFields, UnionVariants};
use std::alloc::Global;
use std::string::String;
use std::vec;
use vortex_dtype::{DTypeProto, DTypeSession, ExtDType, FieldPathProto, PluginOf, pb};

const BYTE: DType = DType::Primitive(PType::U8, NonNullable);

const TEXT: DType = DType::Utf8(NonNullable);

// Prints the line of a call: whether it returned a value, or which error.
fn say<T: Drop>(rt: &impl Print, call: &str, made: VortexResult<T>) -> Result<()> {
    let told = match made {
        Ok(_) => "ok",
        Err(VortexError::OutOfMemory) => "out of memory",
        Err(_) => "another error",
    };
    println!(rt; "{call}: {told}")?;
    Ok(())
}

pub fn tell(rt: &(impl Print + Eprint), alloc: Global) -> Result<()> {
    tell_cover(rt, "cover {a}", set(alloc, "a")?)?;
    let mut below = numbered(alloc, 1000, "")?;
    below.insert(path(alloc, "a")?)?;
    tell_cover(rt, "cover {a, a.0, .., a.999}", below)?;
    tell_into_iter(rt, set(alloc, "a.b x")?)?;
    of_sets(rt, &set(alloc, "a.b x")?)?;
    of_structs(rt, alloc, &columns(alloc)?)?;
    of_types(rt, alloc, &DType::Struct(columns(alloc)?, NonNullable))?;
    made_of_names(rt, alloc)?;
    of_maps(rt, alloc)?;
    of_extensions(rt, alloc)?;
    of_messages(rt, alloc)?;
    of_path_messages(rt, alloc)
}

// The number of allocations of a cover doesn't depend on the paths that it covers.
fn tell_cover(rt: &(impl Print + Eprint), call: &str, set: FieldPathSet) -> Result<()> {
    begin(rt);
    let made = set.into_iter_counted();
    end(rt);
    match made {
        Ok((paths, visits)) => {
            let count = paths.count();
            println!(rt; "{call}: ok, {count} path by {visits} visits")?;
        }
        Err(_) => println!(rt; "{call}: out of memory")?,
    }
    Ok(())
}

fn tell_into_iter(rt: &(impl Print + Eprint), set: FieldPathSet) -> Result<()> {
    begin(rt);
    let made = set.into_iter();
    end(rt);
    say(rt, "into_iter", made)
}

fn of_sets(rt: &(impl Print + Eprint), set: &FieldPathSet) -> Result<()> {
    begin(rt);
    let made = set.iter();
    end(rt);
    say(rt, "iter", made)?;
    begin(rt);
    let made = set.try_clone();
    end(rt);
    say(rt, "copy of a set", made)
}

// The columns `a=u8, b=u8`.
fn columns(alloc: Global) -> VortexResult<StructFields> {
    let names = FieldNames::from_texts(alloc, &["a", "b"])?;
    StructFields::new(alloc, names, vec![in alloc; BYTE, BYTE]?)
}

fn of_structs(rt: &(impl Print + Eprint), alloc: Global, fields: &StructFields) -> Result<()> {
    begin(rt);
    let made = fields.project(alloc, fields.names().as_slice());
    end(rt);
    say(rt, "project", made)?;
    begin(rt);
    let made = fields.without_field(alloc, 0);
    end(rt);
    say(rt, "without_field", made)?;
    begin(rt);
    let made = fields.names().try_clone(alloc);
    end(rt);
    say(rt, "copy of names", made)?;
    begin(rt);
    let made = fields.indented(alloc);
    end(rt);
    say(rt, "indented", made)?;
    tell_disjoint_merge(
        rt,
        alloc,
        fields,
        &StructFields::from_iter(alloc, other_columns(alloc)?)?,
    )
}

fn tell_disjoint_merge(
    rt: &(impl Print + Eprint),
    alloc: Global,
    fields: &StructFields,
    others: &StructFields,
) -> Result<()> {
    begin(rt);
    let made = fields.disjoint_merge(alloc, others);
    end(rt);
    say(rt, "disjoint_merge", made)
}

// The column `c=u8`.
fn other_columns(alloc: Global) -> VortexResult<Vec<(FieldName, FieldDType)>> {
    let column = (FieldName::new(alloc, "c")?, FieldDType::from(BYTE));
    Ok(vec![in alloc; column]?)
}

fn of_types(rt: &(impl Print + Eprint), alloc: Global, dtype: &DType) -> Result<()> {
    begin(rt);
    let made = dtype.try_clone(alloc);
    end(rt);
    say(rt, "copy of a type", made)?;
    begin(rt);
    let made = dtype.with_nullability(alloc, Nullable);
    end(rt);
    say(rt, "with_nullability", made)
}

fn made_of_names(rt: &(impl Print + Eprint), alloc: Global) -> Result<()> {
    let names = FieldNames::from_texts(alloc, &["a", "b"])?;
    let dtypes = vec![in alloc; BYTE, BYTE]?;
    begin(rt);
    let made = StructFields::new(alloc, names, dtypes);
    end(rt);
    say(rt, "StructFields::new", made)?;
    let names = FieldNames::from_texts(alloc, &["a", "b"])?;
    let dtypes = vec![in alloc; BYTE, BYTE]?;
    begin(rt);
    let made = UnionVariants::new(alloc, names, dtypes);
    end(rt);
    say(rt, "UnionVariants::new", made)
}

fn of_maps(rt: &(impl Print + Eprint), alloc: Global) -> Result<()> {
    let map = MapDType::try_new(alloc, TEXT, BYTE, false)?;
    begin(rt);
    let made = map.entries_dtype(alloc);
    end(rt);
    say(rt, "entries_dtype", made)
}

fn of_extensions(rt: &(impl Print + Eprint), alloc: Global) -> Result<()> {
    let id = ExtId::new(alloc, "x.tag")?;
    let metadata = Vec::from_slice(alloc, b"ab")?;
    begin(rt);
    let made = ExtDTypeRef::from_parts(alloc, id, metadata, TEXT);
    end(rt);
    say(rt, "from_parts", made)?;
    let metadata = TagName(Vec::from_slice(alloc, b"ab")?);
    let typed: ExtDType<Tag> = ExtDType::try_new(alloc, metadata, TEXT)?;
    begin(rt);
    let made = typed.erased(alloc);
    end(rt);
    say(rt, "erased", made)
}

// With a session that has `x.tag` as a vtable.
fn of_messages(rt: &(impl Print + Eprint), alloc: Global) -> Result<()> {
    let mut session = DTypeSession::new(alloc);
    session.register(Box::new(alloc, PluginOf::new(Tag))?)?;
    with_session(rt, alloc, &session)
}

fn with_session(rt: &(impl Print + Eprint), alloc: Global, session: &DTypeSession) -> Result<()> {
    begin(rt);
    let made = session.deserialize("x.tag", b"AB", TEXT);
    end(rt);
    say(rt, "deserialize", made)?;
    let dtype = DType::Extension(session.deserialize("x.tag", b"ab", TEXT)?);
    begin(rt);
    let made = dtype.to_proto(alloc);
    end(rt);
    say(rt, "to_proto", made)?;
    let message = dtype.to_proto(alloc)?;
    begin(rt);
    let made = DType::from_proto(alloc, &message, session);
    end(rt);
    say(rt, "from_proto", made)
}

// The message of the path `a.b`.
fn path_message(alloc: Global) -> VortexResult<pb::FieldPath> {
    let mut path = Vec::new(alloc);
    for name in ["a", "b"] {
        path.push(pb::Field {
            field_type: Some(pb::FieldType::Name(String::from_str(alloc, name)?)),
        })?;
    }
    Ok(pb::FieldPath { path })
}

fn of_path_messages(rt: &(impl Print + Eprint), alloc: Global) -> Result<()> {
    let message = path_message(alloc)?;
    begin(rt);
    let made = FieldPath::from_proto(alloc, &message);
    end(rt);
    say(rt, "from_proto of a path", made)
}
