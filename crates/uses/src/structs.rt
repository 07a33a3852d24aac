// SPDX-License-Identifier: Apache-2.0
// SPDX-FileCopyrightText: Copyright the Vortex contributors

//! Struct types and their columns: from a type to what it has, and back.
#![tactic(auto, using(vortex_dtype::proofs::rulesets::structs, vortex_dtype::proofs::rulesets::equality))]

ghost use Rattle.std.specs.Prelude.{◌≡◌, IfOk, Some, map};
ghost use Rattle.vortex_dtype.specs.FieldTypes.{AreValidFields, field_tree};
ghost use Rattle.vortex_dtype.specs.Tree.{Fields, pairs, struct};
ghost use Rattle.vortex_dtype.specs.TreeOf.{children, fields_of, shown, tree};
ghost use Rattle.vortex_dtype.specs.Types.Nullability.{Nullability};
ghost use Rattle.vortex_dtype.specs.Valid.{ValidItems};

use std::alloc::Global;
use vortex_dtype::{DType, FieldDType, FieldName, Nullability, StructFields, VortexResult};

/// The columns of a table's type: those that it was made of.
pub fn columns_of_table<'a>(
    table: &'a DType,
    columns: &StructFields,
    n: Nullability,
) -> Option<&'a StructFields>
    requires { tree table.now ≡ struct (fields_of columns.now) n }
    ensures { shown children result ≡ Some (children columns.now) }
{
    let (_columns, _n) = (columns, n);
    table.as_struct_fields_opt()
}

/// The columns of a table's type that a contract names one after another: their list.
#[tactic(auto, using(vortex_dtype::proofs::rulesets::listed_fields))]
pub fn columns_as_said(table: &DType) -> Option<&StructFields>
    ensures { (fs : Fields) (n : Nullability) → tree table.now ≡ struct fs n
        → shown children result ≡ Some (pairs fs) }
{
    table.as_struct_fields_opt()
}

/// Collects fields, each a name and a type, into a struct: the same fields, in order, valid if their types are.
pub fn collect_fields(
    alloc: Global,
    fields: Vec<(FieldName, FieldDType)>,
) -> VortexResult<StructFields>
    ensures made { IfOk result (λ s. children s ≡ map (λ p. (p.0, field_tree p.1)) fields.items) }
    ensures valid { AreValidFields fields.items → IfOk result (λ s. ValidItems (fields_of s)) }
{
    Ok(fields.into_iter().collect(alloc)?)
}
