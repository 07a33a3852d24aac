// SPDX-License-Identifier: Apache-2.0
// SPDX-FileCopyrightText: Copyright the Vortex contributors

//! The functions of the library for C. `rt lib` builds them into `out/libvortex_logical_types.a`. Their names begin
//! with `vlt_core_`. Comments name the public functions over them, for example `vlt_dtype_eq` over `vlt_core_dtype_eq`,
//! which are in `c/vortex_logical_types.c`.
//!
//! An exported function takes its objects in slots (`c_objects`). It returns a number: 0 to 10 (`errors`), or 100 plus
//! the number of an error of the library. Three functions differ: `vlt_free` returns nothing, `vlt_kind` returns the
//! kind of an object, and `vlt_abi_version` returns the version. If a function only reads a slot, the slot keeps its
//! object. If a function stores a result in the slot `out` and returns 0, the object that `out` contained before is
//! dropped. (No contract can say that, because a body that forgets the object would meet it. It is tested.) If the
//! function returns another number, `out` is unchanged.
//!
//! These results are the same for all functions except these three, so the comments of the functions don't repeat them:
//! 2 if a slot is empty or contains an object of another kind than the function takes, 7 if a buffer is too small, and
//! 100 if an allocation fails.
//!
//! A function that can fail with 4, with 10 or with a number above 100 takes one slot more, `error`. If it returns such
//! a number, or 6 for a text, `error` contains an error object (`failures`), from which its number, its position and
//! its message can be read. For example, 116 of `vlt_struct_project` is the library's `FieldNotFound` with the position
//! of the name. If memory runs out for that object, the function returns 100. After every other result, `error` is as
//! it was before.
//!
//! What is proved of an exported function is its contract. It is written in the words of `specs/Vocabulary`, which say
//! what the function does and where its result goes. It determines what the slots of the function contain afterwards
//! and which number is returned, except that a function which allocates may always return 100, and that the order of a
//! list of paths is open. These functions leave more open:
//!
//! - `vlt_dtype_from_text` and `vlt_path_from_text` don't specify at which byte of a text something else was expected,
//!   nor the message, except for the words with which the message for a path ends. If a text has several faults, and no
//!   type is spelled like it, they don't specify which of these is reported.
//! - `vlt_error_message` doesn't specify the text of an error of the library.
//! - If memory runs out in `vlt_set_extend_from_list`, it isn't specified how many paths were added.
//!
//! No exported function requires anything of its caller, except what C must guarantee for the types of the parameters:
//! valid pointers, distinct slots, and one thread at a time.
#![tactic(auto)]

mod added_fields;
mod arrow;
mod at_once;
mod buffers;
mod changes;
mod constructors;
mod cursors;
mod edits;
mod error_texts;
mod errors;
mod failures;
mod fields;
mod general;
mod holders;
mod levels;
mod masks;
mod merging;
mod messages;
mod names;
mod nodes;
mod nullability;
mod objects;
mod parts;
mod path_lists;
mod path_messages;
mod path_texts;
mod paths;
mod projections;
mod renamed_fields;
mod set_relations;
mod sets;
mod source_texts;
mod steps;
mod structs;
mod texts;
mod types;
mod unions;
mod views;
mod wide;
