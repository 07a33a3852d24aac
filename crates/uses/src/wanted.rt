// SPDX-License-Identifier: Apache-2.0
// SPDX-FileCopyrightText: Copyright the Vortex contributors

//! Which of many names a table has, by `all`, `any`, `find` and `position`. Contracts say `IsAmong` of each name, and go
//! over a slice of names.
#![tactic(auto, using(vortex_dtype::proofs::rulesets::each_among))]

ghost use Rattle.std.specs.Prelude.{◌↔◌, ◌<◌, All, Contains, IfNone, IfSome, IsTrue};
ghost use Rattle.dtype_types.specs.parts.Lookups.{field_names};
ghost use Rattle.dtype_types.specs.tree.TreeOf.{children};
ghost use Rattle.vortex_dtype.specs.Names.{IsAmong};

use vortex_dtype::{FieldName, StructFields};

/// Whether the table has all columns that are wanted.
pub fn has_columns(table: &StructFields, wanted: &[FieldName]) -> bool
    ensures { IsTrue result ↔ All (λ n. IsAmong (field_names (children table.now)) n) wanted.now }
{
    wanted
        .iter()
        .all(|name| table.find(name.as_str()).is_some())
}

/// A column that is wanted and that the table lacks, or `None` where it has all.
pub fn missing<'a>(table: &StructFields, wanted: &'a [FieldName]) -> Option<&'a FieldName>
    ensures wanted { IfSome result (λ n. Contains wanted.now n.now) }
    ensures missing { IfSome result (λ n. ¬ (IsAmong (field_names (children table.now)) n.now)) }
    ensures all { IfNone result (All (λ n. IsAmong (field_names (children table.now)) n) wanted.now) }
{
    wanted
        .iter()
        .find(|name| table.find(name.as_str()).is_none())
}
