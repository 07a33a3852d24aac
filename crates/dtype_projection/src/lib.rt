// SPDX-License-Identifier: Apache-2.0
// SPDX-FileCopyrightText: Copyright the Vortex contributors

//! The projection of a type to a set of paths: the part of the type that a reader of these paths has to open. Query
//! engines call this projection pushdown or nested column pruning.
//!
//! The following is proved of `project_paths`:
//! - It returns a type exactly if one of the paths exists in the original type.
//! - Every path that the set covers resolves in the projection as it does in the original type.
//! - Nothing else is kept: the projection is the least part of the original type in which the paths resolve as before.
//! - The projection depends only on which paths the set covers, so the least paths of the set are enough.
//! - The projection of a valid type is valid. Its values are the values of the original type without the fields that
//!   the projection leaves out.
//!
//! The definitions are in `specs/`:
//! - `Projected`: the projection of a type, by recursion on the type.
//! - `IsPart`: the parts of a type, and the least part in which the paths resolve as before.
//! - `Restricted`: a value of the original type without the fields that the projection leaves out.
//!
//! Only private contracts cite `specs/private`. `proofs/lemmas` contains the lemmas that callers may cite, for example
//! lemmas about paths in merged types (`Above`). `laws` states the theorems about the definitions.
#![tactic(auto)]

mod entered;
pub mod laws;
mod project;

pub use project::project_paths;
