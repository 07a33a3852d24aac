// SPDX-License-Identifier: Apache-2.0
// SPDX-FileCopyrightText: Copyright the Vortex contributors

// Builds the type of each kind from its parts, through the checking constructors. Each function returns what reading
// gives for that kind (`specs/ReadInOrder`), and none is recursive.
#![tactic(auto, unfolding(crate::specs::ReadInOrder::primitive_read, crate::specs::ReadInOrder::decimal_read, crate::specs::ReadInOrder::map_read, crate::specs::ReadInOrder::struct_read, crate::specs::ReadInOrder::read_tags, crate::specs::ReadInOrder::union_read, crate::specs::ReadInOrder::extension_read))]

ghost use Rattle.std.specs.Int.{w32};
ghost use Rattle.std.specs.Prelude.{◌≡◌, ◌<◌, ◌^◌, All, FitsSigned, IfOk, map, string_bytes};
ghost use Rattle.std.specs.List.{filter_map};
ghost use Rattle.dtype_base.specs.Errors.{Makes};
ghost use Rattle.dtype_base.specs.Decimals.{IsValidDecimal};
ghost use Rattle.dtype_base.specs.Nullability.{nullability_of};
ghost use Rattle.dtype_types.specs.tree.TreeOf.{tree};
ghost use Rattle.dtype_types.specs.tree.Valid.{Valid};
ghost use Rattle.dtype_messages.specs.MessageOf.{bytes_of};
ghost use Rattle.vortex_dtype.specs.IsMessage.{AreTags};
ghost use Rattle.vortex_dtype.specs.Meaning.{Bytes};
ghost use Rattle.vortex_dtype.specs.Numbers.{integer_byte, signed_byte, natural_byte};
ghost use Rattle.vortex_dtype.specs.ReadInOrder.{primitive_read, decimal_made, decimal_read, map_read, struct_read, union_read, read_tags, extension_read, or_empty, Gives};
ghost use Rattle.vortex_dtype.specs.Session.{meaning};

use crate::plugin::ExtDTypePlugin;
use crate::session::DTypeSession;
use dtype_base::{
    DecimalDType, FieldName, FieldNames, MessageFault, Nullability, PType, VortexError,
    VortexResult,
};
use dtype_messages::pb;
use dtype_types::{DType, StructFields, UnionVariants};
use std::alloc::Global;
use std::string::String;

// Builds the primitive type of a number.
pub(crate) fn primitive_of(number: i32, nullable: bool) -> VortexResult<DType>
    ensures gives { Gives tree result (primitive_read number (nullability_of nullable)) }
    ensures number { FitsSigned w32 number }
    ensures valid { IfOk result (λ d. Valid (tree d)) }
{
    match pb::PType::from_number(number) {
        Some(ptype) => Ok(DType::Primitive(PType::from(ptype), Nullability::from(nullable))),
        None => Err(VortexError::Message(MessageFault::PrimitiveNumber)),
    }
}

// The precision, if it fits `u8`.
fn precision_of(precision: u32) -> Option<u8>
    ensures { result ≡ natural_byte precision }
{
    u8::try_from(precision).ok()
}

// The scale, if it fits `i8`.
fn scale_of(scale: i32) -> Option<i8>
    ensures { result ≡ signed_byte scale }
{
    i8::try_from(scale).ok()
}

// The tag, if it fits `u8`.
fn tag_of(tag: i32) -> Option<u8>
    ensures { result ≡ integer_byte tag }
{
    u8::try_from(tag).ok()
}

// Builds the decimal of a precision and a scale.
pub(crate) fn decimal_of(precision: u32, scale: i32, nullable: bool) -> VortexResult<DType>
    ensures gives { Gives tree result (decimal_read precision scale (nullability_of nullable)) }
    ensures numbers { (precision < 2 ^ 32) × FitsSigned w32 scale }
    ensures valid { IfOk result (λ d. Valid (tree d)) }
{
    let Some(precision) = precision_of(precision) else {
        return Err(VortexError::Message(MessageFault::PrecisionRange));
    };
    let Some(scale) = scale_of(scale) else {
        return Err(VortexError::Message(MessageFault::ScaleRange));
    };
    let decimal = decimal_within(precision, scale)?;
    Ok(DType::Decimal(decimal, Nullability::from(nullable)))
}

// Builds the decimal of numbers that fit 8 bits.
#[tactic(auto, using(crate::proofs::Constructors::decimal_gives))]
fn decimal_within(precision: u8, scale: i8) -> VortexResult<DecimalDType>
    ensures gives { Gives (λ d. d) result (decimal_made precision scale) }
    ensures valid { IfOk result (λ d. IsValidDecimal d) }
{
    DecimalDType::try_new(precision, scale)
}

// Builds the map of a key and a value type.
#[tactic(auto, using(dtype_types::proofs::lemmas::Validity::validity), unfolding(crate::specs::ReadInOrder::map_read))]
pub(crate) fn map_of(
    alloc: Global,
    key: DType,
    value: DType,
    keys_sorted: bool,
    nullable: bool,
) -> VortexResult<DType>
    ensures gives { Gives tree result
        (map_read (tree key) (tree value) keys_sorted (nullability_of nullable)) }
    ensures valid { Valid (tree key) → Valid (tree value) → IfOk result (λ d. Valid (tree d)) }
{
    DType::map(alloc, key, value, keys_sorted, Nullability::from(nullable))
}

// Builds the names of texts, in order.
fn names_of(alloc: Global, texts: &[String]) -> VortexResult<FieldNames>
    ensures { Makes result (λ ns. ns ≡ map string_bytes texts.now) }
{
    let mut names = Vec::with_capacity(alloc, texts.len())?;
    for text in texts {
        names.push(FieldName::new(alloc, text.as_str())?)?;
    }
    Ok(FieldNames::from_vec(names))
}

// Builds the struct of names and types, after the check that there are as many of both.
#[tactic(auto, using(dtype_types::proofs::lemmas::Validity::validity), unfolding(crate::specs::ReadInOrder::struct_read))]
pub(crate) fn struct_of(
    alloc: Global,
    names: &[String],
    dtypes: Vec<DType>,
    nullable: bool,
) -> VortexResult<DType>
    ensures gives { let texts = map string_bytes names.now in
        Gives tree result (struct_read texts (map tree dtypes.items) (nullability_of nullable)) }
    ensures valid { All (λ d. Valid (tree d)) dtypes.items → IfOk result (λ d. Valid (tree d)) }
{
    if names.len() != dtypes.len() {
        return Err(VortexError::Message(MessageFault::StructLengths));
    }
    let names = names_of(alloc, names)?;
    let fields = StructFields::new(alloc, names, dtypes)?;
    Ok(DType::Struct(fields, Nullability::from(nullable)))
}

// Builds the tags, each of which must fit `u8`.
#[tactic(auto, using(crate::proofs::ReadInTurn::tags_kept, crate::proofs::ReadInTurn::tag_lacking))]
fn tags_of(alloc: Global, tags: &[i32]) -> VortexResult<Vec<u8>>
    ensures { Gives (λ v. v.items) result (read_tags tags.now) }
{
    let bytes = bytes_among(alloc, tags)?;
    if bytes.len() != tags.len() {
        return Err(VortexError::Message(MessageFault::TypeIdRange));
    }
    Ok(bytes)
}

// The tags that fit `u8`, in order.
fn bytes_among(alloc: Global, tags: &[i32]) -> VortexResult<Vec<u8>>
    ensures { Makes result (λ v. v.items ≡ filter_map integer_byte tags.now) }
{
    Ok(tags.iter().filter_map(|tag| tag_of(*tag)).collect(alloc)?)
}

// Builds the union of names, types and tags.
#[tactic(auto, using(crate::proofs::ReadInTurn::tags_fit, crate::proofs::Constructors::union_gives, crate::proofs::Constructors::union_fails), unfolding(crate::specs::ReadInOrder::union_read))]
pub(crate) fn union_of(
    alloc: Global,
    names: &[String],
    dtypes: Vec<DType>,
    tags: &[i32],
    nullable: bool,
) -> VortexResult<DType>
    ensures gives { let texts = map string_bytes names.now in let trees = map tree dtypes.items in
        Gives tree result (union_read texts trees tags.now (nullability_of nullable)) }
    ensures numbers { IfOk result (λ _. AreTags tags.now) }
    ensures valid { All (λ d. Valid (tree d)) dtypes.items → IfOk result (λ d. Valid (tree d)) }
{
    let tags = tags_of(alloc, tags)?;
    let names = names_of(alloc, names)?;
    let variants = UnionVariants::try_new(alloc, names, dtypes, tags)?;
    Ok(DType::Union(variants, Nullability::from(nullable)))
}

// The metadata, or no bytes where it is missing.
fn metadata_of(metadata: &Option<Vec<u8>>) -> &[u8]
    ensures { result.now ≡ or_empty (bytes_of metadata.now) }
{
    match metadata {
        Some(metadata) => metadata.as_slice(),
        None => &[],
    }
}

// Builds the extension of a storage, with the metadata that the session keeps.
pub(crate) fn extension_of(
    session: &DTypeSession,
    id: &String,
    metadata: &Option<Vec<u8>>,
    storage: DType,
) -> VortexResult<DType>
    requires { Valid (tree storage) }
    ensures gives { let bytes = or_empty (bytes_of metadata.now) in
        Gives tree result
        (extension_read (meaning rewrites session.now) (string_bytes id.now) bytes (tree storage)) }
    ensures bytes { Bytes (or_empty (bytes_of metadata.now)) }
    ensures valid { IfOk result (λ d. Valid (tree d)) }
{
    let id = id.as_str();
    let metadata = metadata_of(metadata);
    let extension = session.deserialize(id, metadata, storage)?;
    Ok(DType::Extension(extension))
}
