// SPDX-License-Identifier: Apache-2.0
// SPDX-FileCopyrightText: Copyright the Vortex contributors

// Types and paths from messages, and messages from types. `read` walks a message, `kinds` builds the type of each kind,
// and `write` builds the messages.
#![tactic(auto, using(crate::proofs::lemmas::PathMessages::path_by_steps))]

ghost use Rattle.std.specs.Prelude.{◌≡◌, ◌⊎◌, Some, None, Ok, Err, IfOk, Contains, map, MatchResult};
ghost use Rattle.dtype_base.specs.Errors.{Makes};
ghost use Rattle.dtype_base.specs.declared.vortex_error.MessageFault.TheVariants.{PathPartMissing};
ghost use Rattle.dtype_base.specs.declared.vortex_error.VortexError.TheVariants.{Message, OutOfMemory};
ghost use Rattle.dtype_types.specs.tree.Tree.{Tree};
ghost use Rattle.dtype_types.specs.tree.TreeOf.{tree};
ghost use Rattle.dtype_types.specs.tree.Valid.{Valid};
ghost use Rattle.vortex_dtype.specs.Meaning.{Admits};
ghost use Rattle.vortex_dtype.specs.Accepts.{Accepts};
ghost use Rattle.dtype_messages.specs.MessageOf.{message};
ghost use Rattle.dtype_messages.specs.PathNames.{part_names};
ghost use Rattle.vortex_dtype.specs.PathMessage.{path_of, step_of, steps_of};
ghost use Rattle.vortex_dtype.specs.IsMessage.{IsMessage};
ghost use Rattle.vortex_dtype.specs.ReadInOrder.{read};
ghost use Rattle.vortex_dtype.specs.Reads.{Fault};
ghost use Rattle.vortex_dtype.specs.Written.{written};
ghost use Rattle.vortex_dtype.specs.Session.{meaning};

use crate::plugin::ExtDTypePlugin;
use crate::proto::read::read;
use crate::proto::write::write;
use crate::session::DTypeSession;
use dtype_base::{FieldName, MessageFault, VortexError, VortexResult};
use dtype_messages::pb;
use dtype_paths::{Field, FieldPath};
use dtype_types::DType;
use std::alloc::Global;

mod kinds;
mod read;
mod write;

/// Conversion of types to and from protobuf messages.
///
/// A type that was written as a message is read back as an equal type, if it is valid and the session keeps the
/// metadata of each extension type in it unchanged (`Admits` of `specs/Meaning`). In code,
/// `DType::from_proto(alloc, &dtype.to_proto(alloc)?, &session)?` is then equal to `dtype`.
pub trait DTypeProto {
    /// Returns the type that the message describes. The session decides which metadata the extension types in it get.
    /// The errors are listed at the impl for `DType`.
    fn from_proto(alloc: Global, proto: &pb::DType, session: &DTypeSession) -> VortexResult<Self>
    where
        Self: Sized;

    /// Returns the message that describes the type.
    ///
    /// # Errors
    ///
    /// - `OutOfMemory` (0): an allocation fails.
    fn to_proto(&self, alloc: Global) -> VortexResult<pb::DType>;
}

impl DTypeProto for DType {
    /// Returns the type that the message describes. For each extension type in it, the session decides which metadata
    /// is kept in place of the metadata in the message (`DTypeSession::deserialize`). An extension message without
    /// metadata is read as one with empty metadata.
    ///
    /// # Errors
    ///
    /// If a message has several faults, the call returns the first that it finds (`read` of `specs/ReadInOrder`). It
    /// reads the messages inside a message first, in the order of the fields, and finds their faults. Then it tests the
    /// message itself, in the order of this list. If an inner message is missing, that is found in the place of its
    /// faults. For example, for a map with neither a key type nor a value type the error is `MapKeyMissing`.
    ///
    /// - `TypeMissing` (24): a message has no kind.
    /// - `PrimitiveNumber` (25): the number of a primitive type isn't from 0 to 10.
    /// - `PrecisionRange` (26): the precision of a decimal is above 255.
    /// - `ScaleRange` (27): the scale of a decimal isn't from -128 to 127.
    /// - `PrecisionZero` (1), `PrecisionTooLarge` (2), `ScaleTooLarge` (3) or `ScaleAbovePrecision` (4):
    ///   `DecimalDType::try_new` returns this error for the precision and the scale of a decimal.
    /// - `ListElementMissing` (28): a list has no element type.
    /// - `FixedElementMissing` (29): a fixed-size list has no element type.
    /// - `MapKeyMissing` (30): a map has no key type.
    /// - `MapValueMissing` (31): a map has no value type.
    /// - `MapKeyNullable` (9): the key type of a map is nullable.
    /// - `StructLengths` (32): a struct has more or fewer names than types.
    /// - `TypeIdRange` (33): a tag of a union isn't from 0 to 255.
    /// - `UnionTypesLength` (10), `UnionTagsLength` (11), `UnionEmpty` (12), `UnionTagsRepeat` (13) or
    ///   `UnionNamesRepeat` (15): `UnionVariants::try_new` returns this error for the names, the types and the tags of
    ///   a union.
    /// - `StorageMissing` (34): an extension has no storage type.
    /// - `MetadataRefused` (22): the plugin that is registered under the id of an extension doesn't accept the
    ///   metadata.
    /// - `ExtensionUnregistered` (35): no plugin is registered under the id of an extension, and the session doesn't
    ///   keep unknown ids.
    /// - `OutOfMemory` (0): an allocation fails.
    #[tactic(auto, using(crate::proofs::ReadInTurn::gives_in_order, crate::proofs::ReadInTurn::gives_back))]
    fn from_proto(alloc: Global, proto: &pb::DType, session: &DTypeSession) -> VortexResult<DType>
        ensures reads { MatchResult result
            (λ t. Accepts (meaning rewrites session.now) (message proto.now) (tree t))
            (λ e. (e ≡ OutOfMemory) ⊎ Fault (meaning rewrites session.now) (message proto.now) e) }
        ensures in_order { MatchResult result
            (λ t. read (meaning rewrites session.now) (message proto.now) ≡ Ok (tree t))
            (λ e. (e ≡ OutOfMemory)
            ⊎ (read (meaning rewrites session.now) (message proto.now) ≡ Err e)) }
        ensures message { IfOk result (λ _. IsMessage (message proto.now)) }

        // the message that is written of an admitted type reads as that type
        ensures back { (t : Tree) → Valid t → Admits (meaning rewrites session.now) t
            → message proto.now ≡ written t
            → Makes result (λ u. tree u ≡ t) }
    {
        read(alloc, proto, session)
    }

    /// Returns the message that describes the type. It contains every part of the type, every flag, and the metadata of
    /// every extension type, even if the metadata is empty.
    ///
    /// # Errors
    ///
    /// - `OutOfMemory` (0): an allocation fails.
    fn to_proto(&self, alloc: Global) -> VortexResult<pb::DType>
        ensures { Makes result (λ m. message m ≡ written (tree self.now)) }
    {
        write(alloc, self)
    }
}

/// Conversion of field paths from protobuf messages. No call writes a path as a message.
pub trait FieldPathProto {
    /// Returns the path that the message describes. The errors are listed at the impl for `FieldPath`.
    fn from_proto(alloc: Global, proto: &pb::FieldPath) -> VortexResult<Self>
    where
        Self: Sized;
}

impl FieldPathProto for FieldPath {
    /// Returns the path of the names that the message contains, in the same order. A message without parts is read as
    /// the root.
    ///
    /// # Errors
    ///
    /// - `PathPartMissing` (36): a part has no kind.
    /// - `OutOfMemory` (0): an allocation fails.
    fn from_proto(alloc: Global, proto: &pb::FieldPath) -> VortexResult<FieldPath>
        ensures { MatchResult result
            (λ p. path_of (part_names proto.now) ≡ Some p)
            (λ e. (e ≡ OutOfMemory)
            ⊎ ((e ≡ Message PathPartMissing) × Contains (steps_of proto.now) None)) }
    {
        Ok(FieldPath::from_vec(read_parts(alloc, &proto.path)?))
    }
}

// Reads the parts, in order.
fn read_parts(alloc: Global, parts: &[pb::Field]) -> VortexResult<Vec<Field>>
    ensures { MatchResult result
        (λ v. map step_of parts.now ≡ map Some v.items)
        (λ e. (e ≡ OutOfMemory)
        ⊎ ((e ≡ Message PathPartMissing) × Contains (map step_of parts.now) None)) }
{
    let mut steps = Vec::with_capacity(alloc, parts.len())?;
    for part in parts {
        steps.push(read_part(alloc, part)?)?;
    }
    Ok(steps)
}

// Reads one part.
fn read_part(alloc: Global, part: &pb::Field) -> VortexResult<Field>
    ensures { MatchResult result
        (λ f. step_of part.now ≡ Some f)
        (λ e. (e ≡ OutOfMemory) ⊎ ((e ≡ Message PathPartMissing) × (step_of part.now ≡ None))) }
{
    match &part.field_type {
        Some(pb::FieldType::Name(name)) => Ok(Field::Name(FieldName::new(alloc, name.as_str())?)),
        None => Err(VortexError::Message(MessageFault::PathPartMissing)),
    }
}
