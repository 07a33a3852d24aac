// SPDX-License-Identifier: Apache-2.0
// SPDX-FileCopyrightText: Copyright the Vortex contributors

//! Going over the columns of a table: what holds of all, of any, how many, by chains and by a loop. What an
//! iterator over types gives is said by their trees.
ghost use Rattle.std.specs.Prelude.{◌≡◌, ◌↔◌, All, IsTrue, count_by, false};
ghost use Rattle.std.specs.List.{AllByRecursion, zip};
ghost use Rattle.dtype_types.specs.tree.Kinds.{is_nested};
ghost use Rattle.dtype_types.specs.parts.Lookups.{field_types};
ghost use Rattle.dtype_types.specs.nullability.Nullable.{IsNullable};
ghost use Rattle.dtype_types.specs.tree.TreeOf.{children};

use dtype_types::StructFields;

/// Returns whether every column is nullable.
pub fn all_nullable(table: &StructFields) -> bool
    ensures { IsTrue result ↔ All IsNullable (field_types (children table.now)) }
{
    table.fields().all(|dtype| dtype.is_nullable())
}

/// How many columns hold others, by a loop.
pub fn count_nested_by_loop(table: &StructFields) -> u64
    ensures { result ≡ count_by is_nested (field_types (children table.now)) }
{
    let mut count = 0;
    for dtype in table.fields() {
        if dtype.is_nested() {
            count += 1;
        }
    }
    count
}

/// Whether no column holds others, by their number.
#[tactic(auto, using(vortex_dtype::proofs::rulesets::counted))]
pub fn is_flat(table: &StructFields) -> bool
    ensures { IsTrue result ↔ All (λ t. is_nested t ≡ false) (field_types (children table.now)) }
{
    count_nested_by_loop(table) == 0
}

/// Returns whether the columns of two tables are nullable alike, position by position. Columns behind the end of the
/// shorter table don't count.
#[tactic(auto, using(vortex_dtype::proofs::rulesets::zipped))]
pub fn are_nullable_alike(left: &StructFields, right: &StructFields) -> bool
    ensures { IsTrue result ↔ AllByRecursion (λ p. IsNullable p.0 ↔ IsNullable p.1)
        (zip (field_types (children left.now)) (field_types (children right.now))) }
{
    for (a, b) in left.fields().zip(right.fields()) {
        if a.is_nullable() != b.is_nullable() {
            return false;
        }
    }
    true
}
