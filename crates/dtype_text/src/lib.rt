// SPDX-License-Identifier: Apache-2.0
// SPDX-FileCopyrightText: Copyright the Vortex contributors

//! The text of types: `write_dtype` writes the text of a type, and `read_dtype` reads a type from a text.
//!
//! The grammar, `Spells` in `specs/Grammar.antt`, says by recursion on a type which texts are texts of the type. A text
//! *stands for* a type if it is such a text, with blanks and comments around it, and the type is valid and has at most 128
//! levels (`Stands`). `source` is the one text that is written of a type. The contract of `read_dtype` says that it returns
//! a type only if the text stands for it. If the text spells a type and doesn't stand for it, the contract says which errors
//! it may return: `TooDeep`, or an error with which the library refuses the type or a part of it. `laws` has what follows
//! for reading and writing.
//!
//! The reader goes down the text once, and allocates nothing for an error. Each of its functions reads at the front of
//! bytes and returns what it read with the bytes after it, or a `Fault`. Its contract is an equation with a function on
//! lists of bytes in `specs/`. For the public ones, `front_laws` joins that function to the grammar: what it reads is spelled
//! there, and what is spelled there is read.
#![tactic(auto)]

mod appended;
mod bare;
mod fault;
pub mod front_laws;
mod keyword;
pub mod laws;
mod leaves;
pub mod path_laws;
mod path_reader;
mod path_writer;
mod reader;
mod text_error;
mod type_parts;
mod unions;
mod writer;

pub use appended::{write_dtype, write_extension, write_fields, write_hex, write_map, write_union};
pub use bare::is_bare_id;
pub use fault::{Fault, misread};
pub use keyword::{Keyword, keyword_of};
pub use leaves::{name, not_an_id, quoted};
pub use path_reader::{path_at, path_step_at, read_path};
pub use path_writer::{write_path, write_step};
pub use reader::{MAX_LEVELS, read_dtype, type_at};
pub use text_error::{Expected, Found, TextError};
pub use type_parts::decimal_parts;
pub use writer::{write_id, write_name};
