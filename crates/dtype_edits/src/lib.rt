// SPDX-License-Identifier: Apache-2.0
// SPDX-FileCopyrightText: Copyright the Vortex contributors

//! Types made from other types by paths: a type with one part replaced, and a type without some of its parts. Structs made
//! from other structs by names. The paths of a type: its leaves. And what differs between two types.
//!
//! The following is proved of `with_type_at`:
//! - It returns a type exactly if the path exists in the original type.
//! - In the result, the path leads to the new type.
//! - Each path that doesn't overlap the path resolves in the result as in the original type.
//! - The result is valid if the original type and the new type are.
//!
//! The following is proved of `without_paths`:
//! - It returns a type unless the set contains a path of element steps alone that exists in the original type.
//! - No path that the set covers exists in the result.
//! - Each path of the original type that overlaps no path of the set resolves in the result as in the original type.
//! - The result is valid if the original type is.
//!
//! `leaf_paths` returns the set of the paths to the parts into which no step leads further. It is proved that it contains
//! exactly these paths, that none of them is a prefix of another, and that a path exists in the type exactly if it is a
//! prefix of one of them.
//!
//! `push_field`, `with_field_at`, `with_field` and `with_fields_renamed` return the fields of a struct with one more field,
//! with another type of a field, and with other names. Their contracts say which names and types the result has, in order.
//!
//! `differences` returns what differs between two types, as a list of parts, each with its path. The following is proved of
//! it:
//! - There is no difference exactly if the two types are equal.
//! - Each path leads to the types that are listed with it, and these differ.
//! - No path is a prefix of another.
//! - A path of which no prefix is listed leads to types that are the same but for what is inside of them, or to none.
//!
//! `differences_ignoring` ignores nullabilities, or the order of fields, or both.
//!
//! The definitions are in `specs/`:
//! - `Replaced`: a type with the part at a path replaced, by recursion on the path.
//! - `Without`: a type without the parts to which some paths lead, by recursion on the type.
//! - `Leaves`: the leaves of a type, by recursion on the type (`leaves`), and when a path is one (`IsLeaf`).
//! - `EditedFields`: fields with another type of a field, and fields that are renamed by a table.
//! - `Differences`: what differs between two types, by recursion on the types.
//! - `Alike`: when two types are the same but for what is inside of them.
//!
//! Only private contracts cite `specs/private`. `proofs/lemmas` contains the lemmas that callers may cite. `laws` states
//! the theorems about the definitions.
#![tactic(auto)]

mod difference;
mod fields;
pub mod laws;
mod leaves;
mod replace;
mod without;

pub use difference::{Difference, Ignoring, differences, differences_ignoring};
pub use fields::{
    push_field, with_field, with_field_at, with_fields_renamed,
    with_fields_renamed_allowing_repeats,
};
pub use leaves::leaf_paths;
pub use replace::with_type_at;
pub use without::without_paths;
