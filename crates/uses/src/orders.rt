// SPDX-License-Identifier: Apache-2.0
// SPDX-FileCopyrightText: Copyright the Vortex contributors

//! A shop's orders, from the schema of their table to an extension type of the shop's own. `docs/PROVING.md` begins with
//! `schema` and `columns`, and shows the others where it is about what they show.

pub mod columns;
pub mod errors;
pub mod money;
pub mod query;
pub mod schema;
pub mod stored;
