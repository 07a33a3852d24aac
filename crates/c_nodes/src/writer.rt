// SPDX-License-Identifier: Apache-2.0
// SPDX-FileCopyrightText: Copyright the Vortex contributors

// Nodes and texts from messages.
ghost use Rattle.std.specs.Prelude.{◌≡◌, ◌≢◌, ◌≤◌, ◌<◌, ◌∷◌, [], length, map, IfErr, IfOk, string_bytes};
ghost use Rattle.std.specs.List.{flat_map};
ghost use Rattle.dtype_messages.specs.Message.{messages};
ghost use Rattle.dtype_messages.specs.MessageOf.{message, kind_message, child_message, bytes_of};
ghost use Rattle.c_nodes.specs.Flat.{GrowsBy, flat_nodes, flat_texts, part_nodes, part_texts, all_nodes, all_texts, bytes_nodes, bytes_texts, text_node, tag_node, map_with, struct_of, union_of, extension_of};
ghost use Rattle.c_nodes.specs.Depth.{depth, depth_all, depth_child};
ghost use Rattle.c_nodes.specs.Greatest.{bytes_count, greatest, greatest_all, greatest_child, longest, most_in_node};
ghost use Rattle.c_nodes.specs.Written.{WritesNodes, WritesTexts};
ghost use Rattle.c_nodes.specs.declared.write_fault.WriteFault.TheVariants.{OutOfRange, TooDeep};

use crate::depth::fits;
use crate::reader::MAX_LEVELS;
use crate::{Node, WriteFault, node};
use dtype_messages::pb;
use std::alloc::Global;
use std::string::String;

// What has been written.
#[derive(Drop)]
struct Flat {
    nodes: Vec<Node>,
    texts: Vec<u8>,
}

/// Returns the nodes and the texts of the message.
///
/// # Errors
///
/// - `TooDeep`: a message is nested in more than 128 others.
/// - `OutOfRange`: no message is, and a number of names, tags, types or bytes is above 2^32 - 1.
/// - `OutOfMemory`: an allocation fails.
pub fn nodes_of(alloc: Global, proto: &pb::DType) -> Result<(Vec<Node>, Vec<u8>), WriteFault>
    ensures nodes { IfOk result (λ r. r.0.items ≡ flat_nodes (message proto.now)) }
    ensures texts { IfOk result (λ r. r.1.items ≡ flat_texts (message proto.now)) }
    ensures depth { IfOk result (λ _. depth (message proto.now) ≤ 128) }
    ensures fits { IfOk result (λ _. greatest (message proto.now) ≤ most_in_node) }
    ensures too_deep { IfErr result (λ e. e ≡ TooDeep → 128 < depth (message proto.now)) }
    ensures too_great { IfErr result (λ e. e ≡ OutOfRange
        → (depth (message proto.now) ≤ 128) × (most_in_node < greatest (message proto.now))) }
{
    let mut flat = Flat {
        nodes: Vec::new(alloc),
        texts: Vec::new(alloc),
    };
    match flat.message(proto, MAX_LEVELS) {
        Ok(()) => Ok((flat.nodes, flat.texts)),
        Err(WriteFault::OutOfRange) if !fits(proto, MAX_LEVELS) => Err(WriteFault::TooDeep),
        Err(fault) => Err(fault),
    }
}

impl Flat {
    // Adds a node.
    fn node(&mut self, node: Node) -> Result<(), WriteFault>
        ensures nodes { IfOk result
            (λ _. GrowsBy (node ∷ []) self.old.nodes.items self.new.nodes.items) }
        ensures texts { self.new.texts.items ≡ self.old.texts.items }
        ensures errors { IfErr result (λ e. e ≢ TooDeep) }
        ensures too_great { IfErr result (λ e. e ≢ OutOfRange) }
    {
        self.nodes.push(node)?;
        Ok(())
    }

    // Adds a text with its node.
    fn text(&mut self, text: &[u8]) -> Result<(), WriteFault>
        ensures nodes { IfOk result
            (λ _. GrowsBy (text_node text.now ∷ []) self.old.nodes.items self.new.nodes.items) }
        ensures texts { IfOk result
            (λ _. GrowsBy text.now self.old.texts.items self.new.texts.items) }
        ensures fits { IfOk result (λ _. length text.now ≤ most_in_node) }
        ensures errors { IfErr result (λ e. e ≢ TooDeep) }
        ensures too_great { IfErr result (λ e. e ≡ OutOfRange → most_in_node < length text.now) }
    {
        self.node(node::sized_node(number_of(text.len())?))?;
        self.texts.extend_from_slice(text)?;
        Ok(())
    }

    // Adds names with their nodes.
    #[tactic(auto, using(std::proofs::lemmas::Grind::common_steps, crate::proofs::Lists::longest_push))]
    fn names(&mut self, names: &[String]) -> Result<(), WriteFault>
        ensures nodes { IfOk result (λ _. GrowsBy (map text_node (map string_bytes names.now))
            self.old.nodes.items self.new.nodes.items) }
        ensures texts { IfOk result (λ _. GrowsBy (flat_map (λ n. n) (map string_bytes names.now))
            self.old.texts.items self.new.texts.items) }
        ensures fits { IfOk result (λ _. longest (map string_bytes names.now) ≤ most_in_node) }
        ensures errors { IfErr result (λ e. e ≢ TooDeep) }
        ensures too_great { IfErr result (λ e. e ≡ OutOfRange
            → most_in_node < longest (map string_bytes names.now)) }
    {
        for name in names {
            self.text(name.as_bytes())?;
        }
        Ok(())
    }

    // Adds tags.
    fn tags(&mut self, tags: &[i32]) -> Result<(), WriteFault>
        ensures nodes { IfOk result
            (λ _. GrowsBy (map tag_node tags.now) self.old.nodes.items self.new.nodes.items) }
        ensures texts { IfOk result (λ _. self.new.texts.items ≡ self.old.texts.items) }
        ensures errors { IfErr result (λ e. e ≢ TooDeep) }
        ensures too_great { IfErr result (λ e. e ≢ OutOfRange) }
    {
        for tag in tags {
            self.node(node::tag_node(*tag))?;
        }
        Ok(())
    }

    // Adds the metadata of an extension, if there is any.
    fn metadata(&mut self, metadata: &Option<Vec<u8>>) -> Result<(), WriteFault>
        ensures nodes { IfOk result (λ _. GrowsBy (bytes_nodes (bytes_of metadata.now))
            self.old.nodes.items self.new.nodes.items) }
        ensures texts { IfOk result (λ _. GrowsBy (bytes_texts (bytes_of metadata.now))
            self.old.texts.items self.new.texts.items) }
        ensures fits { IfOk result (λ _. bytes_count (bytes_of metadata.now) ≤ most_in_node) }
        ensures errors { IfErr result (λ e. e ≢ TooDeep) }
        ensures too_great { IfErr result (λ e. e ≡ OutOfRange
            → most_in_node < bytes_count (bytes_of metadata.now)) }
    {
        match metadata {
            Some(bytes) => self.text(bytes),
            None => Ok(()),
        }
    }

    // Adds a message, with at most so many levels below it.
    #[cycle(writing)]
    fn message(&mut self, proto: &pb::DType, levels: u32) -> Result<(), WriteFault>
        ensures nodes { WritesNodes result
            (message proto.now) self.old.nodes.items self.new.nodes.items }
        ensures texts { WritesTexts result
            (message proto.now) self.old.texts.items self.new.texts.items }
        ensures depth { IfOk result (λ _. depth (message proto.now) ≤ levels) }
        ensures too_deep { IfErr result (λ e. e ≡ TooDeep → levels < depth (message proto.now)) }
        ensures fits { IfOk result (λ _. greatest (message proto.now) ≤ most_in_node) }
        ensures too_great { IfErr result (λ e. e ≡ OutOfRange
            → most_in_node < greatest (message proto.now)) }
    {
        match &proto.dtype_type {
            Some(kind) => self.kind(kind, levels),
            None => self.node(node::plain(0)),
        }
    }

    // Adds the message of a kind.
    #[cycle(writing)]
    fn kind(&mut self, kind: &pb::DtypeType, levels: u32) -> Result<(), WriteFault>
        ensures nodes { WritesNodes result
            (kind_message kind.now) self.old.nodes.items self.new.nodes.items }
        ensures texts { WritesTexts result
            (kind_message kind.now) self.old.texts.items self.new.texts.items }
        ensures depth { IfOk result (λ _. depth (kind_message kind.now) ≤ levels) }
        ensures too_deep { IfErr result (λ e. e ≡ TooDeep
            → levels < depth (kind_message kind.now)) }
        ensures fits { IfOk result (λ _. greatest (kind_message kind.now) ≤ most_in_node) }
        ensures too_great { IfErr result (λ e. e ≡ OutOfRange
            → most_in_node < greatest (kind_message kind.now)) }
    {
        match kind {
            pb::DtypeType::Null(_) => self.node(node::plain(1)),
            pb::DtypeType::Bool(it) => self.node(node::flagged(2, it.nullable)),
            pb::DtypeType::Primitive(it) => {
                self.node(node::primitive_node(it.ptype, it.nullable))
            }
            pb::DtypeType::Decimal(it) => {
                self.node(node::decimal_node(it.precision, it.scale, it.nullable))
            }
            pb::DtypeType::Utf8(it) => self.node(node::flagged(5, it.nullable)),
            pb::DtypeType::Binary(it) => self.node(node::flagged(6, it.nullable)),
            pb::DtypeType::List(it) => {
                self.node(node::part_node(7, it.element_type.is_some(), 0, it.nullable))?;
                self.child(&it.element_type, levels)?;
                Ok(())
            }
            pb::DtypeType::FixedSizeList(it) => {
                self.node(node::part_node(8, it.element_type.is_some(), it.size, it.nullable))?;
                self.child(&it.element_type, levels)?;
                Ok(())
            }
            pb::DtypeType::Map(it) => self.map(
                &it.key_type,
                &it.value_type,
                it.keys_sorted,
                it.nullable,
                levels,
            ),
            pb::DtypeType::Struct(it) => self.fields(&it.names, &it.dtypes, it.nullable, levels),
            pb::DtypeType::Union(it) => self.variants(
                &it.names,
                &it.type_ids,
                &it.dtypes,
                it.nullable,
                levels,
            ),
            pb::DtypeType::Variant(it) => self.node(node::flagged(12, it.nullable)),
            pb::DtypeType::Extension(it) => self.extension(
                &it.id,
                &it.metadata,
                &it.storage_dtype,
                levels,
            ),
        }
    }

    // Adds a map.
    #[cycle(writing)]
    #[tactic(auto, using(std::proofs::lemmas::Grind::common_steps, crate::proofs::Lists::either_depth))]
    fn map(
        &mut self,
        key: &Option<Box<pb::DType>>,
        value: &Option<Box<pb::DType>>,
        keys_sorted: bool,
        nullable: bool,
        levels: u32,
    ) -> Result<(), WriteFault>
        ensures nodes { WritesNodes result (map_with key.now value.now keys_sorted nullable)
            self.old.nodes.items self.new.nodes.items }
        ensures texts { WritesTexts result (map_with key.now value.now keys_sorted nullable)
            self.old.texts.items self.new.texts.items }
        ensures depth { IfOk result
            (λ _. depth (map_with key.now value.now keys_sorted nullable) ≤ levels) }
        ensures too_deep { IfErr result (λ e. e ≡ TooDeep
            → levels < depth (map_with key.now value.now keys_sorted nullable)) }
        ensures fits { IfOk result
            (λ _. greatest (map_with key.now value.now keys_sorted nullable) ≤ most_in_node) }
        ensures too_great { IfErr result (λ e. e ≡ OutOfRange
            → most_in_node < greatest (map_with key.now value.now keys_sorted nullable)) }
    {
        let (has_key, has_value) = (key.is_some(), value.is_some());
        self.node(node::map_node(has_key, has_value, keys_sorted, nullable))?;
        self.child(key, levels)?;
        self.child(value, levels)?;
        Ok(())
    }

    // Adds a struct.
    #[cycle(writing)]
    #[tactic(auto, using(std::proofs::lemmas::Grind::common_steps, crate::proofs::Lists::parts_of_lists))]
    fn fields(
        &mut self,
        names: &[String],
        dtypes: &[pb::DType],
        nullable: bool,
        levels: u32,
    ) -> Result<(), WriteFault>
        ensures nodes { WritesNodes result
            (struct_of names.now dtypes.now nullable) self.old.nodes.items self.new.nodes.items }
        ensures texts { WritesTexts result
            (struct_of names.now dtypes.now nullable) self.old.texts.items self.new.texts.items }
        ensures depth { IfOk result
            (λ _. depth (struct_of names.now dtypes.now nullable) ≤ levels) }
        ensures too_deep { IfErr result (λ e. e ≡ TooDeep
            → levels < depth (struct_of names.now dtypes.now nullable)) }
        ensures fits { IfOk result
            (λ _. greatest (struct_of names.now dtypes.now nullable) ≤ most_in_node) }
        ensures too_great { IfErr result (λ e. e ≡ OutOfRange
            → most_in_node < greatest (struct_of names.now dtypes.now nullable)) }
    {
        let (name_count, types) = (number_of(names.len())?, number_of(dtypes.len())?);
        self.node(node::fields_node(10, name_count, 0, types, nullable))?;
        self.names(names)?;
        self.all(dtypes, levels)?;
        Ok(())
    }

    // Adds a union.
    #[cycle(writing)]
    #[tactic(auto, using(std::proofs::lemmas::Grind::common_steps, crate::proofs::Lists::parts_of_lists))]
    fn variants(
        &mut self,
        names: &[String],
        type_ids: &[i32],
        dtypes: &[pb::DType],
        nullable: bool,
        levels: u32,
    ) -> Result<(), WriteFault>
        ensures nodes { WritesNodes result (union_of names.now type_ids.now dtypes.now nullable)
            self.old.nodes.items self.new.nodes.items }
        ensures texts { WritesTexts result (union_of names.now type_ids.now dtypes.now nullable)
            self.old.texts.items self.new.texts.items }
        ensures depth { IfOk result
            (λ _. depth (union_of names.now type_ids.now dtypes.now nullable) ≤ levels) }
        ensures too_deep { IfErr result (λ e. e ≡ TooDeep
            → levels < depth (union_of names.now type_ids.now dtypes.now nullable)) }
        ensures fits { IfOk result
            (λ _. greatest (union_of names.now type_ids.now dtypes.now nullable) ≤ most_in_node) }
        ensures too_great { IfErr result (λ e. e ≡ OutOfRange
            → most_in_node < greatest (union_of names.now type_ids.now dtypes.now nullable)) }
    {
        let (name_count, types) = (number_of(names.len())?, number_of(dtypes.len())?);
        let tags = number_of(type_ids.len())?;
        self.node(node::fields_node(11, name_count, tags, types, nullable))?;
        self.names(names)?;
        self.tags(type_ids)?;
        self.all(dtypes, levels)?;
        Ok(())
    }

    // Adds an extension.
    #[cycle(writing)]
    #[tactic(auto, using(std::proofs::lemmas::Grind::common_steps, crate::proofs::Lists::parts_of_lists))]
    fn extension(
        &mut self,
        id: &String,
        metadata: &Option<Vec<u8>>,
        storage: &Option<Box<pb::DType>>,
        levels: u32,
    ) -> Result<(), WriteFault>
        ensures nodes { WritesNodes result (extension_of id.now metadata.now storage.now)
            self.old.nodes.items self.new.nodes.items }
        ensures texts { WritesTexts result (extension_of id.now metadata.now storage.now)
            self.old.texts.items self.new.texts.items }
        ensures depth { IfOk result
            (λ _. depth (extension_of id.now metadata.now storage.now) ≤ levels) }
        ensures too_deep { IfErr result (λ e. e ≡ TooDeep
            → levels < depth (extension_of id.now metadata.now storage.now)) }
        ensures fits { IfOk result
            (λ _. greatest (extension_of id.now metadata.now storage.now) ≤ most_in_node) }
        ensures too_great { IfErr result (λ e. e ≡ OutOfRange
            → most_in_node < greatest (extension_of id.now metadata.now storage.now)) }
    {
        let (has_storage, has_metadata) = (storage.is_some(), metadata.is_some());
        self.node(node::extension_node(has_storage, has_metadata))?;
        self.text(id.as_bytes())?;
        self.metadata(metadata)?;
        self.child(storage, levels)?;
        Ok(())
    }

    // Adds a part, a level deeper.
    #[cycle(writing)]
    fn part(&mut self, proto: &pb::DType, levels: u32) -> Result<(), WriteFault>
        ensures nodes { WritesNodes result
            (message proto.now) self.old.nodes.items self.new.nodes.items }
        ensures texts { WritesTexts result
            (message proto.now) self.old.texts.items self.new.texts.items }
        ensures depth { IfOk result (λ _. depth (message proto.now) < levels) }
        ensures too_deep { IfErr result (λ e. e ≡ TooDeep → levels ≤ depth (message proto.now)) }
        ensures fits { IfOk result (λ _. greatest (message proto.now) ≤ most_in_node) }
        ensures too_great { IfErr result (λ e. e ≡ OutOfRange
            → most_in_node < greatest (message proto.now)) }
    {
        match levels.checked_sub(1) {
            Some(levels) => self.message(proto, levels),
            None => Err(WriteFault::TooDeep),
        }
    }

    // Adds a part, if there is one, a level deeper.
    #[cycle(writing)]
    fn child(&mut self, child: &Option<Box<pb::DType>>, levels: u32) -> Result<(), WriteFault>
        ensures nodes { IfOk result (λ _. GrowsBy (part_nodes (child_message child.now))
            self.old.nodes.items self.new.nodes.items) }
        ensures texts { IfOk result (λ _. GrowsBy (part_texts (child_message child.now))
            self.old.texts.items self.new.texts.items) }
        ensures depth { IfOk result (λ _. depth_child (child_message child.now) ≤ levels) }
        ensures too_deep { IfErr result (λ e. e ≡ TooDeep
            → levels < depth_child (child_message child.now)) }
        ensures fits { IfOk result (λ _. greatest_child (child_message child.now) ≤ most_in_node) }
        ensures too_great { IfErr result (λ e. e ≡ OutOfRange
            → most_in_node < greatest_child (child_message child.now)) }
    {
        match child {
            Some(proto) => self.part(proto, levels),
            None => Ok(()),
        }
    }

    // Adds messages, a level deeper.
    #[cycle(writing)]
    #[tactic(auto, using(std::proofs::lemmas::Grind::common_steps, crate::proofs::Lists::parts_of_lists))]
    fn all(&mut self, protos: &[pb::DType], levels: u32) -> Result<(), WriteFault>
        ensures nodes { IfOk result (λ _. GrowsBy (all_nodes (messages (map message protos.now)))
            self.old.nodes.items self.new.nodes.items) }
        ensures texts { IfOk result (λ _. GrowsBy (all_texts (messages (map message protos.now)))
            self.old.texts.items self.new.texts.items) }
        ensures depth { IfOk result (λ _. depth_all (messages (map message protos.now)) ≤ levels) }
        ensures too_deep { IfErr result (λ e. e ≡ TooDeep
            → levels < depth_all (messages (map message protos.now))) }
        ensures fits { IfOk result
            (λ _. greatest_all (messages (map message protos.now)) ≤ most_in_node) }
        ensures too_great { IfErr result (λ e. e ≡ OutOfRange
            → most_in_node < greatest_all (messages (map message protos.now))) }
    {
        for proto in protos {
            self.part(proto, levels)?;
        }
        Ok(())
    }
}

// Returns the number, if it fits 32 bits.
fn number_of(number: usize) -> Result<u32, WriteFault>
    ensures number { IfOk result (λ n. n ≡ number) }
    ensures fits { IfOk result (λ _. number ≤ most_in_node) }
    ensures errors { IfErr result (λ e. e ≢ TooDeep) }
    ensures too_great { IfErr result (λ e. e ≡ OutOfRange → most_in_node < number) }
{
    match u32::try_from(number) {
        Ok(number) => Ok(number),
        Err(_) => Err(WriteFault::OutOfRange),
    }
}
