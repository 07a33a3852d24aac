// SPDX-License-Identifier: Apache-2.0
// SPDX-FileCopyrightText: Copyright the Vortex contributors

//! Types to and from Arrow's C data interface. The schemas of that interface are in a flat form here: an array of
//! [`ArrowNode`]s in pre-order, and the bytes of the formats, names and metadata.
//!
//! `dtype_of` returns the type of a schema, and `nodes_of` the schema of a type. For example, the schema of the type
//! `{a=i32?}` has two nodes: a struct with the format `+s`, and its child `a` with the format `i` and the flag 2.
//!
//! What is proved:
//! - `dtype_of` returns what `specs/Read` says: a type, or the first fault that is met when the nodes are read in order, with
//!   the names of the fields from the one that it is about outwards, and with the format of a refused field. Only a failed
//!   allocation may come first.
//! - What is read of the nodes and texts of a schema is what `from_arrow` makes of the schema as plain data
//!   (`specs/FromArrow`), a row for each format ([`laws`]).
//! - The type that `dtype_of` returns is valid and has at most 128 levels, whatever the nodes and the texts are.
//! - What a format says is exactly what the table in `specs/Formats` says, and numbers in formats are exactly those of
//!   `specs/Numbers`. For example, `+w:3` is a fixed-size list of 3 elements, and `w:-1` is no format.
//! - What metadata says of an extension, the type ids of a union, the types of dates, times and timestamps, and how each of
//!   these is written are exactly what `specs/Keys`, `specs/Ids`, `specs/Temporal` and `specs/FormatsWritten` define. For
//!   example, a date in days is `vortex.date` over `i32` with the metadata 4, and the format `tdD`.
//! - `nodes_of` returns exactly the nodes and the texts of the schema that `specs/Write` defines, or exactly the fault that
//!   it defines, with the path of the part that has no Arrow type. Only a failed allocation may come first.
//! - The schema that is written of a type is read as this type ([`laws`]).
//! - The message of a refusal is exactly that of `specs/Messages`, and so is what the message of another fault says of the field
//!   that it is about.
//! - Both functions return for all nodes, texts and types, without an overflow or an index out of range. At most 300 fields
//!   are read inside one another.
//!
//! That these definitions say what Arrow means isn't proved. The tests of the Rust crate (`arrow_types`) have schemas with the
//! types and the messages that are expected of them.
#![tactic(auto)]

pub use again::are_read_as;
pub use fault::{ArrowFault, Column, Problem, Refusal};
pub use node::ArrowNode;
pub use reader::dtype_of;
pub use writer::nodes_of;

mod again;
mod fault;
mod format;
mod formats_written;
mod ids;
mod kept;
mod keys;
pub mod laws;
mod node;
mod numbers;
mod place;
mod reader;
mod rest;
mod temporal;
mod types;
mod writer;
