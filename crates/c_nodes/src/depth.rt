// SPDX-License-Identifier: Apache-2.0
// SPDX-FileCopyrightText: Copyright the Vortex contributors

// How deep a message is nested.
ghost use Rattle.std.specs.Prelude.{◌≡◌, ◌+◌, map, nat_le};
ghost use Rattle.dtype_messages.specs.Message.{messages};
ghost use Rattle.dtype_messages.specs.MessageOf.{message, kind_message, child_message};
ghost use Rattle.c_nodes.specs.Depth.{depth, depth_all, depth_child};

use dtype_messages::pb;

/// Returns whether no message in this one is nested in more than so many others. For example, the message of a list of
/// integers has one level of nesting.
#[cycle(depth)]
pub(crate) fn fits(proto: &pb::DType, levels: u32) -> bool
    ensures { result ≡ nat_le (depth (message proto.now)) levels }
{
    match &proto.dtype_type {
        Some(kind) => kind_fits(kind, levels),
        None => true,
    }
}

#[cycle(depth)]
fn kind_fits(kind: &pb::DtypeType, levels: u32) -> bool
    ensures { result ≡ nat_le (depth (kind_message kind.now)) levels }
{
    match kind {
        pb::DtypeType::List(it) => child_fits(&it.element_type, levels),
        pb::DtypeType::FixedSizeList(it) => child_fits(&it.element_type, levels),
        pb::DtypeType::Map(it) => {
            child_fits(&it.key_type, levels) && child_fits(&it.value_type, levels)
        }
        pb::DtypeType::Struct(it) => all_fit(&it.dtypes, levels),
        pb::DtypeType::Union(it) => all_fit(&it.dtypes, levels),
        pb::DtypeType::Extension(it) => child_fits(&it.storage_dtype, levels),
        pb::DtypeType::Null(_)
        | pb::DtypeType::Bool(_)
        | pb::DtypeType::Primitive(_)
        | pb::DtypeType::Decimal(_)
        | pb::DtypeType::Utf8(_)
        | pb::DtypeType::Binary(_)
        | pb::DtypeType::Variant(_) => true,
    }
}

#[cycle(depth)]
fn part_fits(proto: &pb::DType, levels: u32) -> bool
    ensures { result ≡ nat_le (1 + depth (message proto.now)) levels }
{
    match levels.checked_sub(1) {
        Some(levels) => fits(proto, levels),
        None => false,
    }
}

#[cycle(depth)]
fn child_fits(child: &Option<Box<pb::DType>>, levels: u32) -> bool
    ensures { result ≡ nat_le (depth_child (child_message child.now)) levels }
{
    match child {
        Some(proto) => part_fits(proto, levels),
        None => true,
    }
}

#[cycle(depth)]
fn all_fit(protos: &[pb::DType], levels: u32) -> bool
    ensures { result ≡ nat_le (depth_all (messages (map message protos.now))) levels }
{
    for proto in protos {
        if !part_fits(proto, levels) {
            return false;
        }
    }
    true
}
