// SPDX-License-Identifier: Apache-2.0
// SPDX-FileCopyrightText: Copyright the Vortex contributors

// Messages of types: every child, every flag, names and tags in order, and the metadata, also where it is empty. The
// functions below `of_kind` build the message of one kind, and are no part of the recursion.
ghost use Rattle.std.specs.Prelude.{◌≡◌, IfOk, IsOkUnless, map, pos, string_bytes};
ghost use Rattle.dtype_base.specs.Errors.{Makes};
ghost use Rattle.dtype_base.specs.declared.vortex_error.VortexError.TheVariants.{OutOfMemory};
ghost use Rattle.dtype_types.specs.tree.Tree as of;
ghost use Rattle.dtype_types.specs.tree.TreeOf.{tree, fields_of, variants_of};
ghost use Rattle.dtype_messages.specs.Message.{messages, list, fixed_size_list, map_of, struct, union, present};
ghost use Rattle.dtype_messages.specs.MessageOf.{message, kind_message};
ghost use Rattle.vortex_dtype.specs.Written.{written, extension_message};

use dtype_base::{FieldNames, Nullability, VortexResult};
use dtype_messages::pb;
use dtype_types::{DType, DTypeIter, ExtDTypeRef, StructFields, UnionVariants};
use std::alloc::Global;
use std::string::String;

// Writes a type.
#[cycle(writing)]
#[tactic(auto, using(crate::proofs::WrittenParts::flag_is))]
pub(crate) fn write(alloc: Global, dtype: &DType) -> VortexResult<pb::DType>
    ensures { Makes result (λ m. message m ≡ written (tree dtype.now)) }
{
    match dtype {
        DType::Null => Ok(of_kind(pb::DtypeType::Null(pb::Null {}))),
        DType::Bool(n) => Ok(of_kind(pb::DtypeType::Bool(pb::Bool {
            nullable: n.is_nullable(),
        }))),
        DType::Primitive(ptype, n) => Ok(of_kind(pb::DtypeType::Primitive(pb::Primitive {
            ptype: pb::PType::from(*ptype).number(),
            nullable: n.is_nullable(),
        }))),
        DType::Decimal(decimal, n) => Ok(of_kind(pb::DtypeType::Decimal(pb::Decimal {
            precision: u32::from(decimal.precision()),
            scale: i32::from(decimal.scale()),
            nullable: n.is_nullable(),
        }))),
        DType::Utf8(n) => Ok(of_kind(pb::DtypeType::Utf8(pb::Utf8 {
            nullable: n.is_nullable(),
        }))),
        DType::Binary(n) => Ok(of_kind(pb::DtypeType::Binary(pb::Binary {
            nullable: n.is_nullable(),
        }))),
        DType::List(element, n) => {
            let element = write_child(alloc, element)?;
            list_proto(alloc, element, n.is_nullable())
        }
        DType::FixedSizeList(element, size, n) => {
            let element = write_child(alloc, element)?;
            fixed_proto(alloc, element, *size, n.is_nullable())
        }
        DType::Map(m, n) => {
            let key = write_child(alloc, m.key_dtype())?;
            let value = write_child(alloc, m.value_dtype())?;
            map_proto(alloc, key, value, m.keys_sorted(), n.is_nullable())
        }
        DType::Struct(fields, n) => write_struct(alloc, fields, *n),
        DType::Union(variants, n) => write_union(alloc, variants, *n),
        DType::Variant(n) => Ok(of_kind(pb::DtypeType::Variant(pb::Variant {
            nullable: n.is_nullable(),
        }))),
        DType::Extension(extension) => {
            let storage = write_child(alloc, extension.storage_dtype())?;
            extension_proto(alloc, extension, storage)
        }
    }
}

// Writes a child, boxed.
#[cycle(writing)]
fn write_child(alloc: Global, dtype: &DType) -> VortexResult<Box<pb::DType>>
    ensures { Makes result (λ b. message b.value ≡ written (tree dtype.now)) }
{
    let proto = write(alloc, dtype)?;
    Ok(Box::new(alloc, proto)?)
}

// Writes a struct.
#[cycle(writing)]
fn write_struct(alloc: Global, fields: &StructFields, n: Nullability) -> VortexResult<pb::DType>
    ensures { Makes result (λ m. message m ≡ written (of.struct (fields_of fields.now) n)) }
{
    let names = texts_of(alloc, fields.names())?;
    let dtypes = write_all(alloc, fields.fields())?;
    Ok(struct_proto(names, dtypes, n.is_nullable()))
}

// Writes a union.
#[cycle(writing)]
fn write_union(alloc: Global, variants: &UnionVariants, n: Nullability) -> VortexResult<pb::DType>
    ensures { Makes result (λ m. message m ≡ written (of.union (variants_of variants.now) n)) }
{
    let names = texts_of(alloc, variants.names())?;
    let dtypes = write_all(alloc, variants.variants())?;
    let tags = numbers_of(alloc, variants.type_ids())?;
    Ok(union_proto(names, dtypes, tags, n.is_nullable()))
}

// Writes types, in their order.
#[cycle(writing)]
fn write_all(alloc: Global, dtypes: DTypeIter<'_>) -> VortexResult<Vec<pb::DType>>
    ensures { Makes result (λ ms. map message ms.items ≡ map written (map tree dtypes.entry)) }
{
    let mut protos = Vec::with_capacity(alloc, dtypes.len())?;
    for dtype in dtypes {
        protos.push(write(alloc, dtype)?)?;
    }
    Ok(protos)
}

// The texts of names.
fn texts_of(alloc: Global, names: &FieldNames) -> VortexResult<Vec<String>>
    ensures { Makes result (λ texts. map string_bytes texts.items ≡ names.now) }
{
    let mut texts = Vec::with_capacity(alloc, names.len())?;
    for name in names {
        texts.push(name.to_text(alloc)?)?;
    }
    Ok(texts)
}

// The numbers of tags, as messages have them.
fn numbers_of(alloc: Global, tags: &[u8]) -> VortexResult<Vec<i32>>
    ensures { Makes result (λ numbers. numbers.items ≡ map pos tags.now) }
{
    Ok(tags.iter().map(|tag| i32::from(*tag)).collect(alloc)?)
}

// Wraps a kind in a message.
fn of_kind(kind: pb::DtypeType) -> pb::DType
    ensures { message result ≡ kind_message kind }
{
    pb::DType {
        dtype_type: Some(kind),
    }
}

// Builds the message of a list of an element.
fn list_proto(alloc: Global, element: Box<pb::DType>, nullable: bool) -> VortexResult<pb::DType>
    ensures { Makes result (λ m. message m ≡ list (present (message element.value)) nullable) }
{
    let list = pb::List {
        element_type: Some(element),
        nullable,
    };
    Ok(of_kind(pb::DtypeType::List(Box::new(alloc, list)?)))
}

// Builds the message of a fixed-size list of an element.
fn fixed_proto(
    alloc: Global,
    element: Box<pb::DType>,
    size: u32,
    nullable: bool,
) -> VortexResult<pb::DType>
    ensures { Makes result (λ m. message m ≡ fixed_size_list (present (message element.value)) size nullable) }
{
    let list = pb::FixedSizeList {
        element_type: Some(element),
        size,
        nullable,
    };
    Ok(of_kind(pb::DtypeType::FixedSizeList(Box::new(alloc, list)?)))
}

// Builds the message of a map of a key and a value.
fn map_proto(
    alloc: Global,
    key: Box<pb::DType>,
    value: Box<pb::DType>,
    keys_sorted: bool,
    nullable: bool,
) -> VortexResult<pb::DType>
    ensures made { let k = present (message key.value) in let v = present (message value.value) in
        IfOk result (λ m. message m ≡ map_of k v keys_sorted nullable) }
    ensures errors { IsOkUnless result OutOfMemory }
{
    let map = pb::Map {
        key_type: Some(key),
        value_type: Some(value),
        keys_sorted,
        nullable,
    };
    Ok(of_kind(pb::DtypeType::Map(Box::new(alloc, map)?)))
}

// Builds the message of a struct of names and types.
fn struct_proto(names: Vec<String>, dtypes: Vec<pb::DType>, nullable: bool) -> pb::DType
    ensures { let texts = map string_bytes names.items in
        message result ≡ struct texts (messages (map message dtypes.items)) nullable }
{
    of_kind(pb::DtypeType::Struct(pb::Struct {
        names,
        dtypes,
        nullable,
    }))
}

// Builds the message of a union of names, types and tags.
fn union_proto(
    names: Vec<String>,
    dtypes: Vec<pb::DType>,
    type_ids: Vec<i32>,
    nullable: bool,
) -> pb::DType
    ensures { let texts = map string_bytes names.items in
        let types = messages (map message dtypes.items) in
        message result ≡ union texts types type_ids.items nullable }
{
    of_kind(pb::DtypeType::Union(pb::Union {
        names,
        dtypes,
        type_ids,
        nullable,
    }))
}

// Builds the message of an extension with the id and the metadata of `source`.
fn extension_proto(
    alloc: Global,
    source: &ExtDTypeRef,
    storage: Box<pb::DType>,
) -> VortexResult<pb::DType>
    ensures { Makes result (λ m. message m ≡ extension_message source.now (message storage.value)) }
{
    let extension = pb::Extension {
        id: String::from_str(alloc, source.id().as_str())?,
        storage_dtype: Some(storage),
        metadata: Some(Vec::from_slice(alloc, source.metadata_bytes())?),
    };
    Ok(of_kind(pb::DtypeType::Extension(Box::new(alloc, extension)?)))
}
