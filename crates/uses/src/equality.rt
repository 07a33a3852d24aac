// SPDX-License-Identifier: Apache-2.0
// SPDX-FileCopyrightText: Copyright the Vortex contributors

//! Comparing types, and what structs, unions, maps and extensions hold.
#![tactic(auto)]

ghost use Rattle.std.specs.Prelude.{◌≡◌, ◌≢◌, ◌↔◌, IsTrue, map};
ghost use Rattle.dtype_types.specs.parts.Lookups.{field_names};
ghost use Rattle.dtype_types.specs.tree.TreeOf.{children, tree};

use vortex_dtype::{DType, FieldName, StructFields};

/// Whether a column's type isn't the one that was planned.
#[tactic(auto, using(vortex_dtype::proofs::rulesets::unequal))]
pub fn differs_from_plan(column: &DType, planned: &DType) -> bool
    ensures { IsTrue result ↔ (tree column.now ≢ tree planned.now) }
{
    *column != *planned
}

/// Whether two tables have the same names of columns, in the same order.
#[tactic(auto, using(vortex_dtype::proofs::rulesets::equality))]
pub fn has_same_names(table: &StructFields, other: &StructFields) -> bool
    ensures { IsTrue result ↔ (field_names (children table.now) ≡ field_names (children other.now)) }
{
    *table.names() == *other.names()
}

/// A column of a catalogue.
#[derive(Debug, Drop, PartialEq, Eq)]
pub struct Entry {
    /// The column's name.
    pub name: FieldName,
    /// The column's type.
    pub dtype: DType,
}

/// Whether a function is called with types that it was compiled for.
#[tactic(auto, using(vortex_dtype::proofs::rulesets::equal_types))]
pub fn is_same_signature(compiled: &[DType], called: &[DType]) -> bool
    ensures { IsTrue result ↔ (map tree compiled.now ≡ map tree called.now) }
{
    *compiled == *called
}
