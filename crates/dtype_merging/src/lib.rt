// SPDX-License-Identifier: Apache-2.0
// SPDX-FileCopyrightText: Copyright the Vortex contributors

//! One type for two types with different columns: the definitions and the theorems about them. A program that reads
//! several files as one table needs such a type, because the files were written at different times: a column was added,
//! another is missing or has only nulls, and the order differs.
//!
//! The following is proved of `merge_columns`:
//! - Both types can be read as the type that it returns.
//! - That type can be read as every other valid type as which both can be read, so it is the least.
//! - It returns `None` only if there is no valid type as which both can be read.
//! - If the two types are valid and differ in nullabilities alone, it returns what `merge_nullability` returns.
//! - The order of the types decides only the order of the columns, also if more than two are merged.
//! - From each value of one of the two types, adding nulls and ordering the columns makes a value of the merged type.
//!
//! `merge_all` merges the types of several files, and the same is proved of it.
//!
//! If there is no such type, `merge_conflict` returns the first place at which the two types can't be merged, as a path
//! and the two types there.
//!
//! `reads_as` tells whether a type can be read as another, for example a new file as the table that a program has. It is
//! proved to decide the relation `ReadsAs`.
//!
//! Each of these calls takes the caller's choice which numbers may be read as wider ones, `Widening`. With
//! `Widening::None`, numbers of two types have no common type. With `Widening::Integers`, `i32` and `i64` have `i64`. The
//! theorems are true of both choices.
//!
//! The definitions are in `specs/`:
//! - `ReadsAs`: which type can be read as which, and which types are the same up to the order of columns.
//! - `Widens`: which numbers can be read as which, and the least common type of two.
//! - `MergedColumns`: what is merged of two types, by recursion on the first.
//! - `Filled`: the value that a reader makes of a value of one type to read it as another.
//! - `AllMerged`: what several types are merged to, one after another.
//! - `Conflicts`: the first place at which two types can't be merged.
//!
//! `null` is merged with every type. Unions are merged by the tags and the names of their variants, and a variant that one
//! of them lacks is added as it is. They have no common type if a tag has two names, or a name has two tags. Structs in
//! which a name repeats have a common type only if they have the same names in the same order, because their columns can't
//! be told apart by name. Their types are merged position by position.
//!
//! Only private contracts cite `specs/private`. `proofs/lemmas` contains the lemmas that callers may cite. `laws` states
//! the theorems about the definitions.
#![tactic(auto)]

mod all;
mod conflict;
pub mod laws;
mod merge;
mod reading;
mod variants;
mod widening;

pub use all::merge_all;
pub use conflict::{MergeConflict, merge_conflict};
pub use merge::merge_columns;
pub use reading::reads_as;
pub use widening::Widening;
