// SPDX-License-Identifier: Apache-2.0
// SPDX-FileCopyrightText: Copyright the Vortex contributors

// Reading walks the message once, in the order of its fields, and builds the type through the checking constructors of
// the crates below: their errors are returned as they are.
ghost use Rattle.std.specs.Prelude.{IfOk};
ghost use Rattle.dtype_types.specs.tree.TreeOf.{tree};
ghost use Rattle.dtype_types.specs.tree.Valid.{Valid};
ghost use Rattle.dtype_messages.specs.MessageOf.{message};
ghost use Rattle.vortex_dtype.specs.IsMessage.{IsMessage};
ghost use Rattle.vortex_dtype.specs.ReadInOrder.{read, Gives};
ghost use Rattle.vortex_dtype.specs.Session.{meaning};

use crate::plugin::ExtDTypePlugin;
use crate::proto::kinds::{decimal_of, extension_of, map_of, primitive_of, struct_of, union_of};
use crate::session::DTypeSession;
use dtype_base::{MessageFault, Nullability, VortexError, VortexResult};
use dtype_messages::pb;
use dtype_types::DType;
use std::alloc::Global;

// Reads a message. It is one function, with a loop for structs and one for unions: the checker doesn't accept several
// functions of one call cycle that share a parameter with a trait object.
#[tactic(auto, unfolding(crate::specs::ReadInOrder::read))]
pub(crate) fn read(alloc: Global, proto: &pb::DType, session: &DTypeSession) -> VortexResult<DType>
    ensures gives { Gives tree result (read (meaning rewrites session.now) (message proto.now)) }
    ensures valid { IfOk result (λ d. Valid (tree d)) }
    ensures message { IfOk result (λ _. IsMessage (message proto.now)) }
{
    let Some(kind) = &proto.dtype_type else {
        return Err(VortexError::Message(MessageFault::TypeMissing));
    };
    match kind {
        pb::DtypeType::Null(_) => Ok(DType::Null),
        pb::DtypeType::Bool(p) => Ok(DType::Bool(Nullability::from(p.nullable))),
        pb::DtypeType::Primitive(p) => primitive_of(p.ptype, p.nullable),
        pb::DtypeType::Decimal(p) => decimal_of(p.precision, p.scale, p.nullable),
        pb::DtypeType::Utf8(p) => Ok(DType::Utf8(Nullability::from(p.nullable))),
        pb::DtypeType::Binary(p) => Ok(DType::Binary(Nullability::from(p.nullable))),
        pb::DtypeType::List(p) => {
            let Some(element) = &p.element_type else {
                return Err(VortexError::Message(MessageFault::ListElementMissing));
            };
            let element = read(alloc, element, session)?;
            DType::list(alloc, element, Nullability::from(p.nullable))
        }
        pb::DtypeType::FixedSizeList(p) => {
            let Some(element) = &p.element_type else {
                return Err(VortexError::Message(MessageFault::FixedElementMissing));
            };
            let element = read(alloc, element, session)?;
            DType::fixed_size_list(alloc, element, p.size, Nullability::from(p.nullable))
        }
        pb::DtypeType::Map(p) => {
            let Some(key) = &p.key_type else {
                return Err(VortexError::Message(MessageFault::MapKeyMissing));
            };
            let key = read(alloc, key, session)?;
            let Some(value) = &p.value_type else {
                return Err(VortexError::Message(MessageFault::MapValueMissing));
            };
            let value = read(alloc, value, session)?;
            map_of(alloc, key, value, p.keys_sorted, p.nullable)
        }
        pb::DtypeType::Struct(p) => {
            let mut dtypes = Vec::with_capacity(alloc, p.dtypes.len())?;
            for field in &p.dtypes {
                dtypes.push(read(alloc, field, session)?)?;
            }
            struct_of(alloc, &p.names, dtypes, p.nullable)
        }
        pb::DtypeType::Union(p) => {
            let mut dtypes = Vec::with_capacity(alloc, p.dtypes.len())?;
            for variant in &p.dtypes {
                dtypes.push(read(alloc, variant, session)?)?;
            }
            union_of(alloc, &p.names, dtypes, &p.type_ids, p.nullable)
        }
        pb::DtypeType::Variant(p) => Ok(DType::Variant(Nullability::from(p.nullable))),
        pb::DtypeType::Extension(p) => {
            let Some(storage) = &p.storage_dtype else {
                return Err(VortexError::Message(MessageFault::StorageMissing));
            };
            let storage = read(alloc, storage, session)?;
            extension_of(session, &p.id, &p.metadata, storage)
        }
    }
}
