// SPDX-License-Identifier: Apache-2.0
// SPDX-FileCopyrightText: Copyright the Vortex contributors

// Messages from nodes and texts. What is read is taken from the front of both.
ghost use Rattle.std.specs.Prelude.{◌≡◌, ◌<◌, IfErr, IfOk, MatchResult, map, string_bytes};
ghost use Rattle.dtype_messages.specs.Message.{Message};
ghost use Rattle.dtype_messages.specs.MessageOf.{message, kind_message, child_message, bytes_of};
ghost use Rattle.c_nodes.specs.Read.{Reads, ReadsAll, kind_at, bytes_at, text_at, name_at, tag_at, metadata_at, times, child_by, list_by, fixed_by, map_by, struct_by, union_by, extension_by, after_kind, message_by, part_at, read_flat};
ghost use Rattle.c_nodes.specs.Depth.{holders};
ghost use Rattle.c_nodes.specs.Flat.{extension_of};
ghost use Rattle.c_nodes.specs.Rests.{left};
ghost use Rattle.c_nodes.specs.Texts.{IsFlat};
ghost use Rattle.c_nodes.specs.declared.fault.NodeFault.TheVariants.{OutOfMemory, TooDeep};

use crate::kind::NodeKind;
use crate::{Node, NodeFault};
use dtype_messages::pb;
use std::alloc::Global;
use std::str;
use std::string::String;

/// The number of other messages in which a message may be nested.
pub(crate) const MAX_LEVELS: u32 = 128;

// What hasn't been read.
#[derive(Drop)]
struct Rest<'a> {
    nodes: &'a [Node],
    texts: &'a [u8],
}

/// Returns the message that these nodes and texts describe.
///
/// # Errors
///
/// The first of these that is met when the nodes are read in order:
///
/// - `OutOfRange`: a node isn't one that a message has at this place, nodes or bytes end too early, or some are left.
/// - `NotUtf8`: a name or an id isn't UTF-8.
/// - `TooDeep`: a message is nested in more than 128 others.
/// - `OutOfMemory`: an allocation fails.
pub fn message_of(alloc: Global, nodes: &[Node], texts: &[u8]) -> Result<pb::DType, NodeFault>
    // The message or the fault is that which is read, unless memory runs out.
    ensures read { ReadsAll message result (read_flat nodes.now texts.now) }
    // The nodes and the texts are those of the message.
    ensures flat { IfOk result (λ m. IsFlat nodes.now texts.now (message m)) }
    // What is flat is read, unless memory runs out.
    ensures only { (m : Message) → IsFlat nodes.now texts.now m
        → MatchResult result (λ d. message d ≡ m) (λ e. e ≡ OutOfMemory) }
    // Each level needs a node that may have parts.
    ensures too_deep { IfErr result (λ e. e ≡ TooDeep → 128 < holders nodes.now) }
{
    whole(alloc, nodes, texts)
}

// Reads a message, and nothing may be left.
#[tactic(auto, unfolding(crate::specs::Read::read_flat))]
fn whole(alloc: Global, nodes: &[Node], texts: &[u8]) -> Result<pb::DType, NodeFault>
    ensures { ReadsAll message result (read_flat nodes.now texts.now) }
{
    let mut rest = Rest { nodes, texts };
    let message = read(alloc, &mut rest, MAX_LEVELS)?;
    if rest.nodes.is_empty() && rest.texts.is_empty() {
        Ok(message)
    } else {
        Err(NodeFault::OutOfRange)
    }
}

impl<'a> Rest<'a> {
    // Takes the next node.
    #[tactic(auto, unfolding(crate::specs::Read::kind_at))]
    fn kind(&mut self) -> Result<NodeKind, NodeFault>
        ensures { Reads (λ k. k) result (left self.new) (kind_at (left self.old)) }
    {
        match self.nodes {
            [first, rest @ ..] => {
                self.nodes = rest;
                match NodeKind::of(first) {
                    Some(kind) => Ok(kind),
                    None => Err(NodeFault::OutOfRange),
                }
            }
            [] => Err(NodeFault::OutOfRange),
        }
    }

    // Takes a text with its node.
    #[tactic(auto, unfolding(crate::specs::Read::text_at))]
    fn text(&mut self) -> Result<&'a [u8], NodeFault>
        ensures { Reads (λ t. t.now) result (left self.new) (text_at (left self.old)) }
    {
        match self.kind()? {
            NodeKind::Text { bytes } => Ok(self.bytes(bytes)?),
            NodeKind::Missing
            | NodeKind::Null
            | NodeKind::Bool { .. }
            | NodeKind::Primitive { .. }
            | NodeKind::Decimal { .. }
            | NodeKind::Utf8 { .. }
            | NodeKind::Binary { .. }
            | NodeKind::List { .. }
            | NodeKind::FixedSizeList { .. }
            | NodeKind::Map { .. }
            | NodeKind::Struct { .. }
            | NodeKind::Union { .. }
            | NodeKind::Variant { .. }
            | NodeKind::Extension { .. }
            | NodeKind::Tag { .. } => Err(NodeFault::OutOfRange),
        }
    }

    // Takes this many bytes.
    #[tactic(auto, unfolding(crate::specs::Read::bytes_at))]
    fn bytes(&mut self, wanted: u32) -> Result<&'a [u8], NodeFault>
        ensures { Reads (λ t. t.now) result (left self.new) (bytes_at wanted (left self.old)) }
    {
        let wanted = wanted as usize;
        if wanted > self.texts.len() {
            return Err(NodeFault::OutOfRange);
        }
        let (text, rest) = self.texts.split_at(wanted);
        self.texts = rest;
        Ok(text)
    }

    // Takes a name or an id with its node.
    #[tactic(auto, unfolding(crate::specs::Read::name_at), using(crate::proofs::Reading::utf8))]
    fn name(&mut self, alloc: Global) -> Result<String, NodeFault>
        ensures { Reads string_bytes result (left self.new) (name_at (left self.old)) }
    {
        match str::from_utf8(self.text()?) {
            Ok(text) => Ok(String::from_str(alloc, text)?),
            Err(_) => Err(NodeFault::NotUtf8),
        }
    }

    // Takes this many names with their nodes.
    fn names(&mut self, alloc: Global, wanted: u32) -> Result<Vec<String>, NodeFault>
        ensures { Reads (λ v. map string_bytes v.items) result (left self.new)
            (times wanted name_at (left self.old)) }
    {
        let mut names = Vec::with_capacity(alloc, self.at_most(wanted))?;
        for _at in 0..wanted {
            names.push(self.name(alloc)?)?;
        }
        Ok(names)
    }

    // Takes a tag.
    #[tactic(auto, unfolding(crate::specs::Read::tag_at))]
    fn tag(&mut self) -> Result<i32, NodeFault>
        ensures { Reads (λ t. t) result (left self.new) (tag_at (left self.old)) }
    {
        match self.kind()? {
            NodeKind::Tag { tag } => Ok(tag),
            NodeKind::Missing
            | NodeKind::Null
            | NodeKind::Bool { .. }
            | NodeKind::Primitive { .. }
            | NodeKind::Decimal { .. }
            | NodeKind::Utf8 { .. }
            | NodeKind::Binary { .. }
            | NodeKind::List { .. }
            | NodeKind::FixedSizeList { .. }
            | NodeKind::Map { .. }
            | NodeKind::Struct { .. }
            | NodeKind::Union { .. }
            | NodeKind::Variant { .. }
            | NodeKind::Extension { .. }
            | NodeKind::Text { .. } => Err(NodeFault::OutOfRange),
        }
    }

    // Takes this many tags.
    #[tactic(auto, using(crate::proofs::Reading::times_more))]
    fn tags(&mut self, alloc: Global, wanted: u32) -> Result<Vec<i32>, NodeFault>
        ensures { Reads (λ v. v.items) result (left self.new)
            (times wanted tag_at (left self.old)) }
    {
        let mut tags = Vec::with_capacity(alloc, self.at_most(wanted))?;
        for _at in 0..wanted {
            tags.push(self.tag()?)?;
        }
        Ok(tags)
    }

    // Returns this number, or the number of nodes that are left if that is less. Each item has a node, so this is enough
    // memory for so many items, and nodes that announce more items than follow can't demand more.
    fn at_most(&self, wanted: u32) -> usize {
        let nodes = self.nodes.len();
        let wanted = wanted as usize;
        if wanted < nodes { wanted } else { nodes }
    }

    // Takes the metadata of an extension that has some.
    #[tactic(auto, unfolding(crate::specs::Read::metadata_at))]
    fn metadata(&mut self, alloc: Global, is_there: bool) -> Result<Option<Vec<u8>>, NodeFault>
        ensures { Reads bytes_of result (left self.new) (metadata_at is_there (left self.old)) }
    {
        if !is_there {
            return Ok(None);
        }
        Ok(Some(Vec::from_slice(alloc, self.text()?)?))
    }
}

// Reads a message, with at most so many levels below it.
#[cycle(reading)]
#[tactic(auto, unfolding(crate::specs::Read::message_by))]
fn read(alloc: Global, rest: &mut Rest<'_>, levels: u32) -> Result<pb::DType, NodeFault>
    ensures { Reads message result (left rest.new) (message_by (part_at levels) (left rest.old)) }
{
    let kind = rest.kind()?;
    read_kind(alloc, kind, rest, levels)
}

// Reads what is behind the first node of a message, which is of this kind.
#[cycle(reading)]
#[tactic(auto, unfolding(crate::specs::Read::after_kind))]
fn read_kind(
    alloc: Global,
    kind: NodeKind,
    rest: &mut Rest<'_>,
    levels: u32,
) -> Result<pb::DType, NodeFault>
    ensures { Reads message result (left rest.new)
        (after_kind (part_at levels) kind (left rest.old)) }
{
    let read = match kind {
        NodeKind::Missing => return Ok(pb::DType { dtype_type: None }),
        NodeKind::Null => pb::DtypeType::Null(pb::Null {}),
        NodeKind::Bool { nullable } => pb::DtypeType::Bool(pb::Bool { nullable }),
        NodeKind::Primitive { ptype, nullable } => {
            pb::DtypeType::Primitive(pb::Primitive { ptype, nullable })
        }
        NodeKind::Decimal {
            precision,
            scale,
            nullable,
        } => pb::DtypeType::Decimal(pb::Decimal {
            precision,
            scale,
            nullable,
        }),
        NodeKind::Utf8 { nullable } => pb::DtypeType::Utf8(pb::Utf8 { nullable }),
        NodeKind::Binary { nullable } => pb::DtypeType::Binary(pb::Binary { nullable }),
        NodeKind::List {
            has_element,
            nullable,
        } => read_list(alloc, rest, has_element, nullable, levels)?,
        NodeKind::FixedSizeList {
            has_element,
            size,
            nullable,
        } => read_fixed(alloc, rest, has_element, size, nullable, levels)?,
        NodeKind::Map {
            has_key,
            has_value,
            keys_sorted,
            nullable,
        } => read_map(
            alloc,
            rest,
            (has_key, has_value),
            keys_sorted,
            nullable,
            levels,
        )?,
        NodeKind::Struct {
            names,
            types,
            nullable,
        } => read_struct(alloc, rest, names, types, nullable, levels)?,
        NodeKind::Union {
            names,
            tags,
            types,
            nullable,
        } => read_union(alloc, rest, (names, tags, types), nullable, levels)?,
        NodeKind::Variant { nullable } => pb::DtypeType::Variant(pb::Variant { nullable }),
        NodeKind::Extension {
            has_storage,
            has_metadata,
        } => read_extension(alloc, rest, has_storage, has_metadata, levels)?,
        NodeKind::Text { .. } | NodeKind::Tag { .. } => return Err(NodeFault::OutOfRange),
    };
    Ok(pb::DType {
        dtype_type: Some(read),
    })
}

// Reads the part of a list, if there is one.
#[cycle(reading)]
#[tactic(auto, unfolding(crate::specs::Read::list_by))]
fn read_list(
    alloc: Global,
    rest: &mut Rest<'_>,
    has_element: bool,
    nullable: bool,
    levels: u32,
) -> Result<pb::DtypeType, NodeFault>
    ensures { Reads kind_message result (left rest.new)
        (list_by (part_at levels) has_element nullable (left rest.old)) }
{
    let element_type = read_child(alloc, rest, has_element, levels)?;
    let list = pb::List {
        element_type,
        nullable,
    };
    Ok(pb::DtypeType::List(Box::new(alloc, list)?))
}

// Reads the part of a fixed-size list, if there is one.
#[cycle(reading)]
#[tactic(auto, unfolding(crate::specs::Read::fixed_by))]
fn read_fixed(
    alloc: Global,
    rest: &mut Rest<'_>,
    has_element: bool,
    size: u32,
    nullable: bool,
    levels: u32,
) -> Result<pb::DtypeType, NodeFault>
    ensures { Reads kind_message result (left rest.new)
        (fixed_by (part_at levels) has_element size nullable (left rest.old)) }
{
    let element_type = read_child(alloc, rest, has_element, levels)?;
    let list = pb::FixedSizeList {
        element_type,
        size,
        nullable,
    };
    Ok(pb::DtypeType::FixedSizeList(Box::new(alloc, list)?))
}

// Reads the key and the value of a map, as far as they are there.
#[cycle(reading)]
#[tactic(auto, unfolding(crate::specs::Read::map_by))]
fn read_map(
    alloc: Global,
    rest: &mut Rest<'_>,
    has: (bool, bool),
    keys_sorted: bool,
    nullable: bool,
    levels: u32,
) -> Result<pb::DtypeType, NodeFault>
    ensures { Reads kind_message result (left rest.new)
        (map_by (part_at levels) has.0 has.1 keys_sorted nullable (left rest.old)) }
{
    let (has_key, has_value) = has;
    let key_type = read_child(alloc, rest, has_key, levels)?;
    let value_type = read_child(alloc, rest, has_value, levels)?;
    let map = pb::Map {
        key_type,
        value_type,
        keys_sorted,
        nullable,
    };
    Ok(pb::DtypeType::Map(Box::new(alloc, map)?))
}

// Reads the names and the types of a struct.
#[cycle(reading)]
#[tactic(auto, unfolding(crate::specs::Read::struct_by))]
fn read_struct(
    alloc: Global,
    rest: &mut Rest<'_>,
    names: u32,
    types: u32,
    nullable: bool,
    levels: u32,
) -> Result<pb::DtypeType, NodeFault>
    ensures { Reads kind_message result (left rest.new)
        (struct_by (part_at levels) names types nullable (left rest.old)) }
{
    let names = rest.names(alloc, names)?;
    let dtypes = read_all(alloc, rest, types, levels)?;
    Ok(pb::DtypeType::Struct(pb::Struct {
        names,
        dtypes,
        nullable,
    }))
}

// Reads the names, the tags and the types of a union, of which there are these numbers.
#[cycle(reading)]
#[tactic(auto, unfolding(crate::specs::Read::union_by))]
fn read_union(
    alloc: Global,
    rest: &mut Rest<'_>,
    counts: (u32, u32, u32),
    nullable: bool,
    levels: u32,
) -> Result<pb::DtypeType, NodeFault>
    ensures { Reads kind_message result (left rest.new)
        (union_by (part_at levels) counts.0 counts.1 counts.2 nullable (left rest.old)) }
{
    let (names, tags, types) = counts;
    let names = rest.names(alloc, names)?;
    let type_ids = rest.tags(alloc, tags)?;
    let dtypes = read_all(alloc, rest, types, levels)?;
    Ok(pb::DtypeType::Union(pb::Union {
        names,
        dtypes,
        type_ids,
        nullable,
    }))
}

// Reads the id of an extension, and its metadata and its storage type as far as they are there.
#[cycle(reading)]
#[tactic(auto, unfolding(crate::specs::Read::extension_by))]
fn read_extension(
    alloc: Global,
    rest: &mut Rest<'_>,
    has_storage: bool,
    has_metadata: bool,
    levels: u32,
) -> Result<pb::DtypeType, NodeFault>
    ensures { Reads kind_message result (left rest.new)
        (extension_by (part_at levels) has_storage has_metadata (left rest.old)) }
{
    let id = rest.name(alloc)?;
    let metadata = rest.metadata(alloc, has_metadata)?;
    let storage_dtype = read_child(alloc, rest, has_storage, levels)?;
    Ok(made_extension(alloc, id, metadata, storage_dtype)?)
}

fn made_extension(
    alloc: Global,
    id: String,
    metadata: Option<Vec<u8>>,
    storage_dtype: Option<Box<pb::DType>>,
) -> Result<pb::DtypeType, NodeFault>
    ensures made { IfOk result (λ k. kind_message k ≡ extension_of id metadata storage_dtype) }
    ensures memory { IfErr result (λ e. e ≡ OutOfMemory) }
{
    let extension = pb::Extension {
        id,
        storage_dtype,
        metadata,
    };
    Ok(pb::DtypeType::Extension(Box::new(alloc, extension)?))
}

// Reads a part, a level deeper.
#[cycle(reading)]
#[tactic(auto, using(crate::proofs::Reading::parts))]
fn read_part(alloc: Global, rest: &mut Rest<'_>, levels: u32) -> Result<pb::DType, NodeFault>
    ensures { Reads message result (left rest.new) (part_at levels (left rest.old)) }
{
    if levels == 0 {
        return Err(NodeFault::TooDeep);
    }
    read(alloc, rest, levels - 1)
}

// Reads a part, if it is there, a level deeper.
#[cycle(reading)]
#[tactic(auto, unfolding(crate::specs::Read::child_by))]
fn read_child(
    alloc: Global,
    rest: &mut Rest<'_>,
    is_there: bool,
    levels: u32,
) -> Result<Option<Box<pb::DType>>, NodeFault>
    ensures { Reads child_message result (left rest.new)
        (child_by (part_at levels) is_there (left rest.old)) }
{
    if !is_there {
        return Ok(None);
    }
    let message = read_part(alloc, rest, levels)?;
    Ok(Some(Box::new(alloc, message)?))
}

// Reads this many messages, a level deeper.
#[cycle(reading)]
fn read_all(
    alloc: Global,
    rest: &mut Rest<'_>,
    wanted: u32,
    levels: u32,
) -> Result<Vec<pb::DType>, NodeFault>
    ensures { Reads (λ v. map message v.items) result (left rest.new)
        (times wanted (part_at levels) (left rest.old)) }
{
    let mut protos = Vec::with_capacity(alloc, rest.at_most(wanted))?;
    for _at in 0..wanted {
        protos.push(read_part(alloc, rest, levels)?)?;
    }
    Ok(protos)
}
