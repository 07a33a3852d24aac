// SPDX-License-Identifier: Apache-2.0
// SPDX-FileCopyrightText: Copyright the Vortex contributors

//! Laws of nodes and texts. Each law is a function with an empty body, whose contract is the law.
ghost use Rattle.std.specs.Prelude.{◌≡◌, ◌<◌, ℕ, List, Ok, Err};
ghost use Rattle.dtype_messages.specs.Message.{Message};
ghost use Rattle.c_nodes.specs.Depth.{holders};
ghost use Rattle.c_nodes.specs.Read.{read_flat};
ghost use Rattle.c_nodes.specs.Texts.{IsFlat};
ghost use Rattle.c_nodes.specs.declared.fault.NodeFault.TheVariants.{TooDeep};
ghost use Rattle.c_nodes.specs.declared.node.Node.{Node};

/// The message `m` is read of nodes and texts exactly if they are those of `m`, no message in `m` is nested in more than 128
/// others, and the names and ids of `m` are UTF-8.
///
/// For example, `read_flat` returns the message of booleans for the node of kind 2 without texts, because that is its only
/// node. So it returns a fault only if no such message has these nodes and texts.
pub fn what_is_flat_is_read()
    ensures read { (nodes : List Node) (texts : List ℕ) (m : Message) → read_flat nodes texts ≡ Ok m
        → IsFlat nodes texts m }
    ensures flat { (nodes : List Node) (texts : List ℕ) (m : Message) → IsFlat nodes texts m
        → read_flat nodes texts ≡ Ok m }
{}

/// If nodes and texts are those of a message `m` and of a message `n`, then `m` and `n` are the same message.
///
/// For example, no other message has the nodes of a struct with one field than this struct. So a program that passes a
/// message as nodes and texts loses nothing.
pub fn nodes_and_texts_are_of_one_message()
    ensures { (nodes : List Node) (texts : List ℕ) (m n : Message) → IsFlat nodes texts m
        → IsFlat nodes texts n → m ≡ n }
{}

/// Nodes are too deep only if more than 128 of them are of kinds that may have parts.
///
/// For example, 128 lists, each of which is the element type of the one before it, are never too deep, whatever follows
/// them.
pub fn only_many_nodes_are_too_deep()
    ensures { (nodes : List Node) (texts : List ℕ) → read_flat nodes texts ≡ Err TooDeep
        → 128 < holders nodes }
{}
