// SPDX-License-Identifier: Apache-2.0
// SPDX-FileCopyrightText: Copyright the Vortex contributors

//! Whether a table has a column, asked in one way and said in another.
#![tactic(auto, using(vortex_dtype::proofs::rulesets::presence))]

ghost use Rattle.std.specs.Prelude.{◌≡◌, ◌↔◌, [], Contains, IfNone, IsNone};
ghost use Rattle.dtype_types.specs.parts.Lookups.{field_names, first_named};
ghost use Rattle.dtype_types.specs.tree.TreeOf.{children, shown, tree};

use vortex_dtype::{DType, FieldName, StructFields};

/// The type of a column by its new name, else by its old one: `None` where no column has either name.
pub fn renamed<'a>(table: &'a StructFields, new: &str, old: &str) -> Option<&'a DType>
    ensures new { Contains (field_names (children table.now)) new.now
        → shown tree result ≡ first_named (children table.now) new.now }
    ensures none { IfNone result ((¬ Contains (field_names (children table.now)) new.now)
        × ¬ Contains (field_names (children table.now)) old.now) }
{
    match table.field(new) {
        Some(dtype) => Some(dtype),
        None => table.field(old),
    }
}

/// The name of the first column, or `None` exactly where there is no column.
#[tactic(auto, using(vortex_dtype::proofs::rulesets::among))]
pub fn first_name(table: &StructFields) -> Option<&FieldName>
    ensures { IsNone result ↔ (children table.now ≡ []) }
{
    table.field_name(0)
}
