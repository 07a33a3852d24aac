// SPDX-License-Identifier: Apache-2.0
// SPDX-FileCopyrightText: Copyright the Vortex contributors

// What a node is.
ghost use Rattle.std.specs.Prelude.{◌≡◌};
ghost use Rattle.c_nodes.specs.Kinds.{kind_by_number, kind_of, node_of};

use crate::node::{self, Node};

/// What a node is, with what a node of this kind has in it. For example, the node of a nullable message of booleans is
/// `Bool { nullable: true }`.
#[derive(Clone, Copy, Debug)]
pub enum NodeKind {
    /// A message without a kind.
    Missing,
    /// The message of the null type.
    Null,
    /// The message of a type of booleans.
    Bool {
        nullable: bool,
    },
    /// The message of a primitive type with this number.
    Primitive {
        ptype: i32,
        nullable: bool,
    },
    /// The message of a decimal.
    Decimal {
        precision: u32,
        scale: i32,
        nullable: bool,
    },
    /// The message of a type of UTF-8 strings.
    Utf8 {
        nullable: bool,
    },
    /// The message of a type of byte strings.
    Binary {
        nullable: bool,
    },
    /// The message of a list.
    List {
        has_element: bool,
        nullable: bool,
    },
    /// The message of a fixed-size list.
    FixedSizeList {
        has_element: bool,
        size: u32,
        nullable: bool,
    },
    /// The message of a map.
    Map {
        has_key: bool,
        has_value: bool,
        keys_sorted: bool,
        nullable: bool,
    },
    /// The message of a struct with so many names and types.
    Struct {
        names: u32,
        types: u32,
        nullable: bool,
    },
    /// The message of a union with so many names, tags and types.
    Union {
        names: u32,
        tags: u32,
        types: u32,
        nullable: bool,
    },
    /// The message of a variant.
    Variant {
        nullable: bool,
    },
    /// The message of an extension.
    Extension {
        has_storage: bool,
        has_metadata: bool,
    },
    /// A text of so many bytes.
    Text {
        bytes: u32,
    },
    /// A tag of a union.
    Tag {
        tag: i32,
    },
}

impl NodeKind {
    // Returns the kind of a node. There is none if the number of the kind is above 15, if a flag is above 1, or if a field
    // that the kind doesn't use isn't 0.
    #[tactic(auto, unfolding(crate::specs::Kinds::kind_of), using(crate::proofs::NodeKinds::tests))]
    pub(crate) fn of(node: &Node) -> Option<NodeKind>
        ensures { result ≡ kind_of node.now }
    {
        let kind = NodeKind::by_number(node)?;
        if *node == kind.node() {
            Some(kind)
        } else {
            None
        }
    }

    // Returns the kind with the number of the node, and what the node has of it.
    #[tactic(auto, unfolding(crate::specs::Kinds::kind_by_number))]
    fn by_number(node: &Node) -> Option<NodeKind>
        ensures { result ≡ kind_by_number node.now }
    {
        let nullable = node.nullable == 1;
        let (first, second) = (node.has_first == 1, node.has_second == 1);
        let kind = match node.kind {
            0 => NodeKind::Missing,
            1 => NodeKind::Null,
            2 => NodeKind::Bool { nullable },
            3 => NodeKind::Primitive {
                ptype: node.value,
                nullable,
            },
            4 => NodeKind::Decimal {
                precision: node.number,
                scale: node.value,
                nullable,
            },
            5 => NodeKind::Utf8 { nullable },
            6 => NodeKind::Binary { nullable },
            7 => NodeKind::List {
                has_element: first,
                nullable,
            },
            8 => NodeKind::FixedSizeList {
                has_element: first,
                size: node.number,
                nullable,
            },
            9 => NodeKind::Map {
                has_key: first,
                has_value: second,
                keys_sorted: node.keys_sorted == 1,
                nullable,
            },
            10 => NodeKind::Struct {
                names: node.names,
                types: node.types,
                nullable,
            },
            11 => NodeKind::Union {
                names: node.names,
                tags: node.tags,
                types: node.types,
                nullable,
            },
            12 => NodeKind::Variant { nullable },
            13 => NodeKind::Extension {
                has_storage: first,
                has_metadata: second,
            },
            14 => NodeKind::Text { bytes: node.number },
            15 => NodeKind::Tag { tag: node.value },
            _ => return None,
        };
        Some(kind)
    }

    // Returns the node of this kind.
    fn node(self) -> Node
        ensures { result ≡ node_of self }
    {
        match self {
            NodeKind::Missing => node::plain(0),
            NodeKind::Null => node::plain(1),
            NodeKind::Bool { nullable } => node::flagged(2, nullable),
            NodeKind::Primitive { ptype, nullable } => node::primitive_node(ptype, nullable),
            NodeKind::Decimal {
                precision,
                scale,
                nullable,
            } => node::decimal_node(precision, scale, nullable),
            NodeKind::Utf8 { nullable } => node::flagged(5, nullable),
            NodeKind::Binary { nullable } => node::flagged(6, nullable),
            NodeKind::List {
                has_element,
                nullable,
            } => node::part_node(7, has_element, 0, nullable),
            NodeKind::FixedSizeList {
                has_element,
                size,
                nullable,
            } => node::part_node(8, has_element, size, nullable),
            NodeKind::Map {
                has_key,
                has_value,
                keys_sorted,
                nullable,
            } => node::map_node(has_key, has_value, keys_sorted, nullable),
            NodeKind::Struct {
                names,
                types,
                nullable,
            } => node::fields_node(10, names, 0, types, nullable),
            NodeKind::Union {
                names,
                tags,
                types,
                nullable,
            } => node::fields_node(11, names, tags, types, nullable),
            NodeKind::Variant { nullable } => node::flagged(12, nullable),
            NodeKind::Extension {
                has_storage,
                has_metadata,
            } => node::extension_node(has_storage, has_metadata),
            NodeKind::Text { bytes } => node::sized_node(bytes),
            NodeKind::Tag { tag } => node::tag_node(tag),
        }
    }
}
