// SPDX-License-Identifier: Apache-2.0
// SPDX-FileCopyrightText: Copyright the Vortex contributors

//! The flat form of a message that describes a type: an array of [`Node`]s, and the bytes of the texts of the message.
//! A program in another language that has decoded a message uses this form to pass it, because it can't build a
//! `pb::DType`.
//!
//! `message_of` returns the message that nodes and texts describe. `nodes_of` returns the nodes and the texts of a
//! message. For example, the message of the type `{a=i32?}` has three nodes. The first is the struct, with one name and
//! one type. The second is the name, which has one byte. The third is the primitive type 6 (`i32`), which is nullable.
//! The texts are the byte `a`.
//!
//! What is proved:
//! - `message_of` returns what `specs/Read` says: a message, or the first fault that is met when the nodes are read in
//!   order. Only a failed allocation may come first.
//! - This is a message exactly if the nodes and the texts are those of this message (`specs/Flat`), no message in it is
//!   nested in more than 128 others, and its names and ids are UTF-8. So a fault is returned only if no such message has
//!   these nodes and texts ([`laws`]).
//! - The nodes and the texts that `nodes_of` returns are exactly those of the message. Unless an allocation fails, it
//!   returns a fault exactly if a message is nested in more than 128 others, which is the fault `TooDeep`, or if none is
//!   and a number of names, tags, types or bytes is above 2^32 - 1, which is the fault `OutOfRange`.
#![tactic(auto)]

pub use fault::NodeFault;
pub use kind::NodeKind;
pub use node::Node;
pub use reader::message_of;
pub use write_fault::WriteFault;
pub use writer::nodes_of;

mod depth;
mod fault;
mod kind;
pub mod laws;
mod node;
mod reader;
mod write_fault;
mod writer;
