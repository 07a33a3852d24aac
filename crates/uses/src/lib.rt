// SPDX-License-Identifier: Apache-2.0
// SPDX-FileCopyrightText: Copyright the Vortex contributors

//! Examples of callers: functions as users write them, each with a contract of its own that is proved from the clauses
//! of the calls that it makes and from the public rulesets. Those of `guide` have no contracts: they are the code of a
//! page. `proofs/` contains the invariants of the loops of `loops`, `over_fields`, `cursors`, `merging` and
//! `path_sets`, the measures of the recursions of `descending`, and proofs by hand for two functions of `descending`.
//! The tactics find everything else.
//!
//! A clause that a caller can't use fails here, and so does a definition that `vortex_dtype` doesn't re-export, since
//! this crate lists only `vortex_dtype`, `dtype_types` and `dtype_projection`. Each function is on a page, or shows a
//! ruleset or a form of clause; at most two functions show the same ruleset.
//!
//! - Pages: `docs/PROVING.md` begins with `orders`, and `guide` has its recipes.
//! - Types: `arrays` (how wide a row and a decimal are), `binder` (column references), `structs`, `fields`,
//!   `over_fields`, `loops` (to copy), `presence`, `wanted` (many names), `unions`, `equality`, `nullabilities`,
//!   `columns` (files with different columns), `validity`.
//! - Which columns a query opens: `asked`, `binding` (those that a table lacks), `paths`, `path_sets`, `path_lists`,
//!   `related` (what several queries ask for), `projections`, `merging` (several files read as one, and rows written for
//!   two readers).
//! - What is read further down: `masks`, `cursors`, `named` (the columns that are wanted, one by one), `descending` (a
//!   table and a query at once).
//! - What is stored: `messages` (of types and paths), `stored` (schemas written and read back).
//! - Extensions: `sessions`, `plugins`, `dates`, `registered` (sessions that a contract names).
#![tactic(auto)]

pub mod arrays;
pub mod asked;
pub mod binder;
pub mod binding;
pub mod columns;
pub mod cursors;
pub mod dates;
pub mod descending;
pub mod equality;
pub mod fields;
pub mod guide;
pub mod loops;
pub mod masks;
pub mod merging;
pub mod messages;
pub mod named;
pub mod nullabilities;
pub mod orders;
pub mod over_fields;
pub mod path_lists;
pub mod path_sets;
pub mod paths;
pub mod plugins;
pub mod presence;
pub mod projections;
pub mod registered;
pub mod related;
pub mod sessions;
pub mod stored;
pub mod structs;
pub mod unions;
pub mod validity;
pub mod wanted;
