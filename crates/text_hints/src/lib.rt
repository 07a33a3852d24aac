// SPDX-License-Identifier: Apache-2.0
// SPDX-FileCopyrightText: Copyright the Vortex contributors

//! The messages for texts of types and paths that can't be read, with the word that may have been meant. For example, of
//! the text `{a=int32}` the message is `expected a type, not "int32"; nearest: i32`. The console and the exports print the
//! same sentences.
//!
//! Begin with `hint_of` for the text of a type, or with `hint_of_path` for that of a path, which return the place and the
//! message of an error. It is proved that each function is safe and returns, that the place is that of the error, and with
//! which words the message for a path ends; the other wording is tested.
#![tactic(auto)]

mod hint;
mod near_names;
mod near_types;
mod visible;

pub use hint::{
    Finding, OF_TEXTS, TextHint, Wording, hint_of, hint_of_path, path_help, write_expected,
};
pub use near_names::NearNames;
pub use near_types::{in_place_of, nearest_ptype, nearest_type};
pub use visible::{visible_part, write_found, write_nearest, write_other, write_visible};
