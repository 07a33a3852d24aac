// SPDX-License-Identifier: Apache-2.0
// SPDX-FileCopyrightText: Copyright the Vortex contributors

// The nodes of each kind.
ghost use Rattle.std.specs.Prelude.{◌≡◌};
ghost use Rattle.c_nodes.specs.Flat.{plain, flagged, primitive_node, decimal_node, part_node, map_node, fields_node, extension_node, sized_node, tag_node};

/// One item of the flat form of a message: a message, a text or a tag. The node of a message is followed by the nodes
/// of its texts, then by the nodes of its tags, and then by its parts, each of which is a message with the nodes that
/// follow it. A field that the kind of a node doesn't use is 0.
#[repr(C)]
#[derive(Clone, Copy, Debug, PartialEq, Eq)]
pub struct Node {
    /// What the node is: 0 for a message without a kind; 1 null, 2 bool, 3 primitive, 4 decimal, 5 utf8, 6 binary, 7
    /// list, 8 fixed-size list, 9 map, 10 struct, 11 union, 12 variant and 13 extension for a message of this kind; 14
    /// for a text; 15 for a tag.
    pub kind: u32,
    /// 1 if the message has the flag `nullable` and the flag is set, and otherwise 0. The messages of null and of an
    /// extension don't have this flag.
    pub nullable: u8,
    /// 1 if the keys of a map are declared to be sorted, and otherwise 0.
    pub keys_sorted: u8,
    /// 1 if the element type of a list or of a fixed-size list, the key type of a map or the storage type of an extension
    /// follows, and otherwise 0.
    pub has_first: u8,
    /// 1 if the value type of a map or the text of the metadata of an extension follows, and otherwise 0.
    pub has_second: u8,
    /// The number of names that follow a struct or a union.
    pub names: u32,
    /// The number of tags that follow a union.
    pub tags: u32,
    /// The number of types that follow a struct or a union.
    pub types: u32,
    /// The precision of a decimal, the size of a fixed-size list, or the number of bytes of a text.
    pub number: u32,
    /// The number of a primitive type, the scale of a decimal, or a tag.
    pub value: i32,
}

// A node of this kind with no more in it.
pub(crate) fn plain(kind: u32) -> Node
    ensures { result ≡ plain kind }
{
    Node {
        kind,
        nullable: 0,
        keys_sorted: 0,
        has_first: 0,
        has_second: 0,
        names: 0,
        tags: 0,
        types: 0,
        number: 0,
        value: 0,
    }
}

// A node of this kind with a flag.
pub(crate) fn flagged(kind: u32, nullable: bool) -> Node
    ensures { result ≡ flagged kind nullable }
{
    Node {
        nullable: u8::from(nullable),
        ..plain(kind)
    }
}

pub(crate) fn primitive_node(ptype: i32, nullable: bool) -> Node
    ensures { result ≡ primitive_node ptype nullable }
{
    Node {
        value: ptype,
        ..flagged(3, nullable)
    }
}

pub(crate) fn decimal_node(precision: u32, scale: i32, nullable: bool) -> Node
    ensures { result ≡ decimal_node precision scale nullable }
{
    Node {
        number: precision,
        value: scale,
        ..flagged(4, nullable)
    }
}

// Of a list, with a size 0, or of a fixed-size list.
pub(crate) fn part_node(kind: u32, has_part: bool, size: u32, nullable: bool) -> Node
    ensures { result ≡ part_node kind has_part size nullable }
{
    Node {
        has_first: u8::from(has_part),
        number: size,
        ..flagged(kind, nullable)
    }
}

pub(crate) fn map_node(has_key: bool, has_value: bool, keys_sorted: bool, nullable: bool) -> Node
    ensures { result ≡ map_node has_key has_value keys_sorted nullable }
{
    Node {
        keys_sorted: u8::from(keys_sorted),
        has_first: u8::from(has_key),
        has_second: u8::from(has_value),
        ..flagged(9, nullable)
    }
}

// Of a struct, with no tags, or of a union.
pub(crate) fn fields_node(kind: u32, names: u32, tags: u32, types: u32, nullable: bool) -> Node
    ensures { result ≡ fields_node kind names tags types nullable }
{
    Node {
        names,
        tags,
        types,
        ..flagged(kind, nullable)
    }
}

pub(crate) fn extension_node(has_storage: bool, has_metadata: bool) -> Node
    ensures { result ≡ extension_node has_storage has_metadata }
{
    Node {
        has_first: u8::from(has_storage),
        has_second: u8::from(has_metadata),
        ..plain(13)
    }
}

// Of a text of this many bytes.
pub(crate) fn sized_node(bytes: u32) -> Node
    ensures { result ≡ sized_node bytes }
{
    Node {
        number: bytes,
        ..plain(14)
    }
}

pub(crate) fn tag_node(tag: i32) -> Node
    ensures { result ≡ tag_node tag }
{
    Node {
        value: tag,
        ..plain(15)
    }
}
