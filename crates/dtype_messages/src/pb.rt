// SPDX-License-Identifier: Apache-2.0
// SPDX-FileCopyrightText: Copyright the Vortex contributors

//! The messages, with the fields of Vortex's protobuf definition.
//!
//! A message may contain anything that protobuf allows, for example a list without an element type. `DTypeProto` of
//! `vortex_dtype` reads the message of a type, and `FieldPathProto` reads the message of a path. They return an error
//! if the message doesn't describe a type or a path. The comments of the fields name the error that is returned if
//! nothing else is wrong with the message. `DTypeProto` also writes types as messages.
//
// In a contract the message of a type is its tree (`message` of `specs/MessageOf`). Each other struct is its fields,
// with a tree for each child, and a path is the list of the names that its parts contain.
ghost use Rattle.std.specs.Prelude.{◌≡◌, pos, Ok, map, option_map, string_bytes};
ghost use Rattle.dtype_base.specs.Errors.{Makes};
ghost use Rattle.dtype_base.specs.Primitives.{ptype_row};
ghost use Rattle.dtype_messages.specs.MessageOf.{message, kind_message, child_message, list_content, fixed_content, map_content, struct_content, union_content, extension_content, bytes_of};
ghost use Rattle.dtype_messages.specs.PTypeNumbers.{plain, ptype_at};
ghost use Rattle.dtype_messages.specs.PathNames.{name_of, part_name, part_names};

use dtype_base::VortexResult;
use std::alloc::Global;
use std::string::String;

/// The message of a type. For example, the message of `bool?` contains the kind `Bool`, and its flag `nullable` is
/// true. Two messages are equal by `==` exactly if all their fields are equal, at every depth.
#[derive(Debug, PartialEq, Eq, Drop)]
#[cycle(message)]
pub struct DType {
    /// The kind of the type, with its fields. Reading a message without a kind returns the error `TypeMissing` (24).
    pub dtype_type: Option<DtypeType>,
}

/// The thirteen kinds of a type, each with its own message. For example, the message of a decimal contains its
/// precision, its scale and whether it is nullable.
#[derive(Debug, PartialEq, Eq, Drop)]
#[cycle(message)]
pub enum DtypeType {
    /// The null type.
    Null(Null),
    /// Booleans.
    Bool(Bool),
    /// Integers or floats.
    Primitive(Primitive),
    /// Decimals.
    Decimal(Decimal),
    /// UTF-8 strings.
    Utf8(Utf8),
    /// Byte strings.
    Binary(Binary),
    /// Lists of any length.
    List(Box<List>),
    /// Lists of a fixed length.
    FixedSizeList(Box<FixedSizeList>),
    /// Maps.
    Map(Box<Map>),
    /// Structs.
    Struct(Struct),
    /// Unions.
    Union(Union),
    /// Values that carry their own types.
    Variant(Variant),
    /// Extension types.
    Extension(Box<Extension>),
}

/// The message of the null type. It has no fields.
#[derive(Debug, PartialEq, Eq, Drop)]
pub struct Null {}

/// The message of a boolean type.
#[derive(Debug, PartialEq, Eq, Drop)]
pub struct Bool {
    /// Whether values of the type may be null.
    pub nullable: bool,
}

/// The message of a primitive type, whose values are integers or floating-point numbers.
#[derive(Debug, PartialEq, Eq, Drop)]
pub struct Primitive {
    /// The number of the primitive type, from 0 to 10. Reading any other number returns the error `PrimitiveNumber`
    /// (25).
    pub ptype: i32,
    /// Whether values of the type may be null.
    pub nullable: bool,
}

/// The message of a decimal type, with its precision and its scale.
#[derive(Debug, PartialEq, Eq, Drop)]
pub struct Decimal {
    /// The precision: the greatest number of decimal digits of a value, from 1 to 76. Reading a message with another
    /// precision returns an error:
    /// - `PrecisionZero` (1) if the precision is 0
    /// - `PrecisionTooLarge` (2) if it is from 77 to 255
    /// - `PrecisionRange` (26) if it is above 255
    pub precision: u32,
    /// The scale: the number of digits after the decimal point. It is from -128 to 76, and at most the precision. If
    /// the precision is valid and the scale isn't, reading the message returns an error:
    /// - `ScaleAbovePrecision` (4) if the scale is above the precision and at most 76
    /// - `ScaleTooLarge` (3) if it is from 77 to 127
    /// - `ScaleRange` (27) if it is below -128 or above 127
    pub scale: i32,
    /// Whether values of the type may be null.
    pub nullable: bool,
}

/// The message of a type of UTF-8 strings.
#[derive(Debug, PartialEq, Eq, Drop)]
pub struct Utf8 {
    /// Whether values of the type may be null.
    pub nullable: bool,
}

/// The message of a type of byte strings.
#[derive(Debug, PartialEq, Eq, Drop)]
pub struct Binary {
    /// Whether values of the type may be null.
    pub nullable: bool,
}

/// The message of a list type, whose lists have any length.
#[derive(Debug, PartialEq, Eq, Drop)]
#[cycle(message)]
pub struct List {
    /// The element type. Reading a list without an element type returns the error `ListElementMissing` (28).
    pub element_type: Option<Box<DType>>,
    /// Whether values of the type may be null.
    pub nullable: bool,
}

/// The message of a fixed-size list type, whose lists all have the same length.
#[derive(Debug, PartialEq, Eq, Drop)]
#[cycle(message)]
pub struct FixedSizeList {
    /// The element type. Reading a list without an element type returns the error `FixedElementMissing` (29).
    pub element_type: Option<Box<DType>>,
    /// The number of elements of each list.
    pub size: u32,
    /// Whether values of the type may be null.
    pub nullable: bool,
}

/// The message of a map type. A map is a list of entries, and each entry is a key and a value.
#[derive(Debug, PartialEq, Eq, Drop)]
#[cycle(message)]
pub struct Map {
    /// The key type. Reading a map without a key type returns the error `MapKeyMissing` (30). If the key type is
    /// nullable, the error is `MapKeyNullable` (9).
    pub key_type: Option<Box<DType>>,
    /// The value type. Reading a map without a value type returns the error `MapValueMissing` (31).
    pub value_type: Option<Box<DType>>,
    /// Whether the keys are declared to be sorted. Nothing checks that they are.
    pub keys_sorted: bool,
    /// Whether values of the type may be null.
    pub nullable: bool,
}

/// Structs: the names of the fields, and at the same positions their types. For example, the field with the name
/// `names[1]` has the type `dtypes[1]`.
#[derive(Debug, PartialEq, Eq, Drop)]
#[cycle(message)]
pub struct Struct {
    /// The names of the fields, in order.
    pub names: Vec<String>,
    /// The types of the fields, in order. Reading a struct with more or fewer types than names returns the error
    /// `StructLengths` (32).
    pub dtypes: Vec<DType>,
    /// Whether values of the type may be null.
    pub nullable: bool,
}

/// Unions: the names of the variants, and at the same positions their types and their tags. For example, the variant
/// with the name `names[1]` has the type `dtypes[1]` and the tag `type_ids[1]`.
#[derive(Debug, PartialEq, Eq, Drop)]
#[cycle(message)]
pub struct Union {
    /// The names of the variants, in order. Reading a union without variants returns the error `UnionEmpty` (12). If
    /// two variants have the same name, the error is `UnionNamesRepeat` (15).
    pub names: Vec<String>,
    /// The types of the variants, in order. Reading a union with more or fewer types than names returns the error
    /// `UnionTypesLength` (10).
    pub dtypes: Vec<DType>,
    /// The tags of the variants, in order. Reading the union returns an error:
    /// - `TypeIdRange` (33) if a tag isn't from 0 to 255
    /// - `UnionTagsLength` (11) if there are more or fewer tags than names
    /// - `UnionTagsRepeat` (13) if a tag occurs twice
    pub type_ids: Vec<i32>,
    /// Whether values of the type may be null.
    pub nullable: bool,
}

/// The message of a variant type, whose values carry their own types.
#[derive(Debug, PartialEq, Eq, Drop)]
pub struct Variant {
    /// Whether values of the type may be null.
    pub nullable: bool,
}

/// The message of an extension type: its id, its storage type, and metadata.
#[derive(Debug, PartialEq, Eq, Drop)]
#[cycle(message)]
pub struct Extension {
    /// The id of the extension type. By this id a session finds the plugin that reads the metadata. If it finds none
    /// and doesn't keep unknown ids, reading the message returns the error `ExtensionUnregistered` (35).
    pub id: String,
    /// The storage type. Reading an extension without a storage type returns the error `StorageMissing` (34).
    pub storage_dtype: Option<Box<DType>>,
    /// The metadata. If it is missing, the message is read as if it contained empty metadata. If the plugin doesn't
    /// accept the metadata over the storage type, reading the message returns the error `MetadataRefused` (22).
    pub metadata: Option<Vec<u8>>,
}

/// The message of a field path: its parts, outermost first.
#[derive(Debug, PartialEq, Eq, Drop)]
pub struct FieldPath {
    /// The parts, outermost first. The message of the root has no parts.
    pub path: Vec<Field>,
}

/// One part of a path message: the step to the field with a given name. Path messages have no step into the elements
/// of a list.
#[derive(Debug, PartialEq, Eq, Drop)]
pub struct Field {
    /// The kind of the part. Reading a part without a kind returns the error `PathPartMissing` (36).
    pub field_type: Option<FieldType>,
}

/// The kind of a part of a path message. The only kind is a name.
#[derive(Debug, PartialEq, Eq, Drop)]
pub enum FieldType {
    /// A step to the field with this name.
    Name(String),
}

/// A primitive type as messages refer to it: by a number. For example, the number of `I32` is 6.
#[derive(Clone, Copy, Debug, PartialEq, Eq)]
pub enum PType {
    /// 0: unsigned 8-bit integers.
    U8,
    /// 1: unsigned 16-bit integers.
    U16,
    /// 2: unsigned 32-bit integers.
    U32,
    /// 3: unsigned 64-bit integers.
    U64,
    /// 4: signed 8-bit integers.
    I8,
    /// 5: signed 16-bit integers.
    I16,
    /// 6: signed 32-bit integers.
    I32,
    /// 7: signed 64-bit integers.
    I64,
    /// 8: 16-bit floating-point numbers.
    F16,
    /// 9: 32-bit floating-point numbers.
    F32,
    /// 10: 64-bit floating-point numbers.
    F64,
}

impl PType {
    /// Returns the primitive type with this number, or `None` if the number isn't from 0 to 10.
    pub fn from_number(number: i32) -> Option<PType>
        ensures { option_map plain result ≡ ptype_at number }
    {
        match number {
            0 => Some(PType::U8),
            1 => Some(PType::U16),
            2 => Some(PType::U32),
            3 => Some(PType::U64),
            4 => Some(PType::I8),
            5 => Some(PType::I16),
            6 => Some(PType::I32),
            7 => Some(PType::I64),
            8 => Some(PType::F16),
            9 => Some(PType::F32),
            10 => Some(PType::F64),
            _ => None,
        }
    }

    /// Returns the number of the primitive type, from 0 to 10.
    pub fn number(&self) -> i32
        ensures { result ≡ pos (ptype_row (plain self.now)).number }
    {
        match self {
            PType::U8 => 0,
            PType::U16 => 1,
            PType::U32 => 2,
            PType::U64 => 3,
            PType::I8 => 4,
            PType::I16 => 5,
            PType::I32 => 6,
            PType::I64 => 7,
            PType::F16 => 8,
            PType::F32 => 9,
            PType::F64 => 10,
        }
    }

    /// Returns `Ok` with an equal copy. The call never returns an error.
    ///
    /// The call doesn't allocate, so `_alloc` isn't used. It is a parameter so that `try_clone` has the same parameters
    /// for all messages.
    pub fn try_clone(&self, _alloc: Global) -> VortexResult<PType>
        ensures { result ≡ Ok self.now }
    {
        Ok(*self)
    }
}

impl From<PType> for dtype_base::PType {
    ghost from_gives = { λ p q. q ≡ plain p };

    fn from(ptype: PType) -> dtype_base::PType {
        match ptype {
            PType::U8 => dtype_base::PType::U8,
            PType::U16 => dtype_base::PType::U16,
            PType::U32 => dtype_base::PType::U32,
            PType::U64 => dtype_base::PType::U64,
            PType::I8 => dtype_base::PType::I8,
            PType::I16 => dtype_base::PType::I16,
            PType::I32 => dtype_base::PType::I32,
            PType::I64 => dtype_base::PType::I64,
            PType::F16 => dtype_base::PType::F16,
            PType::F32 => dtype_base::PType::F32,
            PType::F64 => dtype_base::PType::F64,
        }
    }
}

impl From<dtype_base::PType> for PType {
    ghost from_gives = { λ p q. plain q ≡ p };

    fn from(ptype: dtype_base::PType) -> PType {
        match ptype {
            dtype_base::PType::U8 => PType::U8,
            dtype_base::PType::U16 => PType::U16,
            dtype_base::PType::U32 => PType::U32,
            dtype_base::PType::U64 => PType::U64,
            dtype_base::PType::I8 => PType::I8,
            dtype_base::PType::I16 => PType::I16,
            dtype_base::PType::I32 => PType::I32,
            dtype_base::PType::I64 => PType::I64,
            dtype_base::PType::F16 => PType::F16,
            dtype_base::PType::F32 => PType::F32,
            dtype_base::PType::F64 => PType::F64,
        }
    }
}

impl Null {
    /// Returns `Ok` with an equal copy. The call never returns an error.
    ///
    /// The call doesn't allocate, so `_alloc` isn't used. It is a parameter so that `try_clone` has the same parameters
    /// for all messages.
    pub fn try_clone(&self, _alloc: Global) -> VortexResult<Null>
        ensures { result ≡ Ok self.now }
    {
        Ok(Null {})
    }
}

impl Bool {
    /// Returns `Ok` with an equal copy. The call never returns an error.
    ///
    /// The call doesn't allocate, so `_alloc` isn't used. It is a parameter so that `try_clone` has the same parameters
    /// for all messages.
    pub fn try_clone(&self, _alloc: Global) -> VortexResult<Bool>
        ensures { result ≡ Ok self.now }
    {
        Ok(Bool {
            nullable: self.nullable,
        })
    }
}

impl Primitive {
    /// Returns `Ok` with an equal copy. The call never returns an error.
    ///
    /// The call doesn't allocate, so `_alloc` isn't used. It is a parameter so that `try_clone` has the same parameters
    /// for all messages.
    pub fn try_clone(&self, _alloc: Global) -> VortexResult<Primitive>
        ensures { result ≡ Ok self.now }
    {
        Ok(Primitive {
            ptype: self.ptype,
            nullable: self.nullable,
        })
    }
}

impl Decimal {
    /// Returns `Ok` with an equal copy. The call never returns an error.
    ///
    /// The call doesn't allocate, so `_alloc` isn't used. It is a parameter so that `try_clone` has the same parameters
    /// for all messages.
    pub fn try_clone(&self, _alloc: Global) -> VortexResult<Decimal>
        ensures { result ≡ Ok self.now }
    {
        Ok(Decimal {
            precision: self.precision,
            scale: self.scale,
            nullable: self.nullable,
        })
    }
}

impl Utf8 {
    /// Returns `Ok` with an equal copy. The call never returns an error.
    ///
    /// The call doesn't allocate, so `_alloc` isn't used. It is a parameter so that `try_clone` has the same parameters
    /// for all messages.
    pub fn try_clone(&self, _alloc: Global) -> VortexResult<Utf8>
        ensures { result ≡ Ok self.now }
    {
        Ok(Utf8 {
            nullable: self.nullable,
        })
    }
}

impl Binary {
    /// Returns `Ok` with an equal copy. The call never returns an error.
    ///
    /// The call doesn't allocate, so `_alloc` isn't used. It is a parameter so that `try_clone` has the same parameters
    /// for all messages.
    pub fn try_clone(&self, _alloc: Global) -> VortexResult<Binary>
        ensures { result ≡ Ok self.now }
    {
        Ok(Binary {
            nullable: self.nullable,
        })
    }
}

impl Variant {
    /// Returns `Ok` with an equal copy. The call never returns an error.
    ///
    /// The call doesn't allocate, so `_alloc` isn't used. It is a parameter so that `try_clone` has the same parameters
    /// for all messages.
    pub fn try_clone(&self, _alloc: Global) -> VortexResult<Variant>
        ensures { result ≡ Ok self.now }
    {
        Ok(Variant {
            nullable: self.nullable,
        })
    }
}

impl FieldPath {
    /// Returns an equal copy.
    ///
    /// # Errors
    ///
    /// - `OutOfMemory` (0): an allocation fails.
    pub fn try_clone(&self, alloc: Global) -> VortexResult<FieldPath>
        ensures { Makes result (λ p. part_names p ≡ part_names self.now) }
    {
        let mut path = Vec::with_capacity(alloc, self.path.len())?;
        for part in &self.path {
            path.push(part.try_clone(alloc)?)?;
        }
        Ok(FieldPath { path })
    }
}

impl Field {
    /// Returns an equal copy.
    ///
    /// # Errors
    ///
    /// - `OutOfMemory` (0): an allocation fails.
    pub fn try_clone(&self, alloc: Global) -> VortexResult<Field>
        ensures { Makes result (λ p. part_name p ≡ part_name self.now) }
    {
        match &self.field_type {
            Some(kind) => Ok(Field {
                field_type: Some(kind.try_clone(alloc)?),
            }),
            None => Ok(Field { field_type: None }),
        }
    }
}

impl FieldType {
    /// Returns an equal copy.
    ///
    /// # Errors
    ///
    /// - `OutOfMemory` (0): an allocation fails.
    pub fn try_clone(&self, alloc: Global) -> VortexResult<FieldType>
        ensures { Makes result (λ k. name_of k ≡ name_of self.now) }
    {
        match self {
            FieldType::Name(name) => Ok(FieldType::Name(String::from_str(alloc, name.as_str())?)),
        }
    }
}

impl DType {
    /// Returns an equal copy.
    ///
    /// # Errors
    ///
    /// - `OutOfMemory` (0): an allocation fails.
    #[cycle(copy)]
    pub fn try_clone(&self, alloc: Global) -> VortexResult<DType>
        ensures { Makes result (λ d. message d ≡ message self.now) }
    {
        match &self.dtype_type {
            Some(kind) => Ok(DType {
                dtype_type: Some(kind.try_clone(alloc)?),
            }),
            None => Ok(DType { dtype_type: None }),
        }
    }
}

impl DtypeType {
    /// Returns an equal copy.
    ///
    /// # Errors
    ///
    /// - `OutOfMemory` (0): an allocation fails.
    #[cycle(copy)]
    pub fn try_clone(&self, alloc: Global) -> VortexResult<DtypeType>
        ensures { Makes result (λ k. kind_message k ≡ kind_message self.now) }
    {
        match self {
            DtypeType::Null(p) => Ok(DtypeType::Null(p.try_clone(alloc)?)),
            DtypeType::Bool(p) => Ok(DtypeType::Bool(p.try_clone(alloc)?)),
            DtypeType::Primitive(p) => Ok(DtypeType::Primitive(p.try_clone(alloc)?)),
            DtypeType::Decimal(p) => Ok(DtypeType::Decimal(p.try_clone(alloc)?)),
            DtypeType::Utf8(p) => Ok(DtypeType::Utf8(p.try_clone(alloc)?)),
            DtypeType::Binary(p) => Ok(DtypeType::Binary(p.try_clone(alloc)?)),
            DtypeType::List(p) => {
                let copy = p.try_clone(alloc)?;
                Ok(DtypeType::List(Box::new(alloc, copy)?))
            }
            DtypeType::FixedSizeList(p) => {
                let copy = p.try_clone(alloc)?;
                Ok(DtypeType::FixedSizeList(Box::new(alloc, copy)?))
            }
            DtypeType::Map(p) => {
                let copy = p.try_clone(alloc)?;
                Ok(DtypeType::Map(Box::new(alloc, copy)?))
            }
            DtypeType::Struct(p) => Ok(DtypeType::Struct(p.try_clone(alloc)?)),
            DtypeType::Union(p) => Ok(DtypeType::Union(p.try_clone(alloc)?)),
            DtypeType::Variant(p) => Ok(DtypeType::Variant(p.try_clone(alloc)?)),
            DtypeType::Extension(p) => {
                let copy = p.try_clone(alloc)?;
                Ok(DtypeType::Extension(Box::new(alloc, copy)?))
            }
        }
    }
}

// Copies the child, if there is one.
#[cycle(copy)]
fn copy_child(alloc: Global, proto: &Option<Box<DType>>) -> VortexResult<Option<Box<DType>>>
    ensures { Makes result (λ c. child_message c ≡ child_message proto.now) }
{
    match proto {
        Some(proto) => {
            let copy = proto.try_clone(alloc)?;
            Ok(Some(Box::new(alloc, copy)?))
        }
        None => Ok(None),
    }
}

// Copies the messages, in order.
#[cycle(copy)]
fn copy_messages(alloc: Global, protos: &[DType]) -> VortexResult<Vec<DType>>
    ensures { Makes result (λ v. map message v.items ≡ map message protos.now) }
{
    let mut copies = Vec::new(alloc);
    for proto in protos {
        copies.push(proto.try_clone(alloc)?)?;
    }
    Ok(copies)
}

// Copies the texts, in order.
fn copy_texts(alloc: Global, texts: &[String]) -> VortexResult<Vec<String>>
    ensures { Makes result (λ v. map string_bytes v.items ≡ map string_bytes texts.now) }
{
    let mut copies = Vec::new(alloc);
    for text in texts {
        copies.push(String::from_str(alloc, text.as_str())?)?;
    }
    Ok(copies)
}

// Copies the bytes, if there are any.
fn copy_bytes(alloc: Global, bytes: &Option<Vec<u8>>) -> VortexResult<Option<Vec<u8>>>
    ensures { Makes result (λ b. bytes_of b ≡ bytes_of bytes.now) }
{
    match bytes {
        Some(bytes) => Ok(Some(Vec::from_slice(alloc, bytes.as_slice())?)),
        None => Ok(None),
    }
}

impl List {
    /// Returns an equal copy.
    ///
    /// # Errors
    ///
    /// - `OutOfMemory` (0): an allocation fails.
    #[cycle(copy)]
    pub fn try_clone(&self, alloc: Global) -> VortexResult<List>
        ensures { Makes result (λ p. list_content p ≡ list_content self.now) }
    {
        Ok(List {
            element_type: copy_child(alloc, &self.element_type)?,
            nullable: self.nullable,
        })
    }
}

impl FixedSizeList {
    /// Returns an equal copy.
    ///
    /// # Errors
    ///
    /// - `OutOfMemory` (0): an allocation fails.
    #[cycle(copy)]
    pub fn try_clone(&self, alloc: Global) -> VortexResult<FixedSizeList>
        ensures { Makes result (λ p. fixed_content p ≡ fixed_content self.now) }
    {
        Ok(FixedSizeList {
            element_type: copy_child(alloc, &self.element_type)?,
            size: self.size,
            nullable: self.nullable,
        })
    }
}

impl Map {
    /// Returns an equal copy.
    ///
    /// # Errors
    ///
    /// - `OutOfMemory` (0): an allocation fails.
    #[cycle(copy)]
    pub fn try_clone(&self, alloc: Global) -> VortexResult<Map>
        ensures { Makes result (λ p. map_content p ≡ map_content self.now) }
    {
        Ok(Map {
            key_type: copy_child(alloc, &self.key_type)?,
            value_type: copy_child(alloc, &self.value_type)?,
            keys_sorted: self.keys_sorted,
            nullable: self.nullable,
        })
    }
}

impl Struct {
    /// Returns an equal copy.
    ///
    /// # Errors
    ///
    /// - `OutOfMemory` (0): an allocation fails.
    #[cycle(copy)]
    pub fn try_clone(&self, alloc: Global) -> VortexResult<Struct>
        ensures { Makes result (λ p. struct_content p ≡ struct_content self.now) }
    {
        Ok(Struct {
            names: copy_texts(alloc, &self.names)?,
            dtypes: copy_messages(alloc, &self.dtypes)?,
            nullable: self.nullable,
        })
    }
}

impl Union {
    /// Returns an equal copy.
    ///
    /// # Errors
    ///
    /// - `OutOfMemory` (0): an allocation fails.
    #[cycle(copy)]
    pub fn try_clone(&self, alloc: Global) -> VortexResult<Union>
        ensures { Makes result (λ p. union_content p ≡ union_content self.now) }
    {
        Ok(Union {
            names: copy_texts(alloc, &self.names)?,
            dtypes: copy_messages(alloc, &self.dtypes)?,
            type_ids: Vec::from_slice(alloc, &self.type_ids)?,
            nullable: self.nullable,
        })
    }
}

impl Extension {
    /// Returns an equal copy.
    ///
    /// # Errors
    ///
    /// - `OutOfMemory` (0): an allocation fails.
    #[cycle(copy)]
    pub fn try_clone(&self, alloc: Global) -> VortexResult<Extension>
        ensures { Makes result (λ p. extension_content p ≡ extension_content self.now) }
    {
        Ok(Extension {
            id: String::from_str(alloc, self.id.as_str())?,
            storage_dtype: copy_child(alloc, &self.storage_dtype)?,
            metadata: copy_bytes(alloc, &self.metadata)?,
        })
    }
}
