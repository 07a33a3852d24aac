// SPDX-License-Identifier: Apache-2.0
// SPDX-FileCopyrightText: Copyright the Vortex contributors

// Lookups of fields, by name and by position.
#![tactic(auto, using(vortex_dtype::proofs::rulesets::joined_fields, vortex_dtype::proofs::rulesets::lookups))]

ghost use Rattle.std.specs.Prelude.{◌≡◌, ◌≢◌, ◌-◌, ◌<◌, ◌≤◌, ℕ, List, None, Some, Contains, IfNone, IfOk, IfSome, IsSome, length, map, vec_len};
ghost use Rattle.dtype_types.specs.parts.Lookups.{field_names, field_types, first_named};
ghost use Rattle.dtype_types.specs.tree.TreeOf.{children, shown, tree};
ghost use Rattle.vortex_dtype.specs.Distinct.{Distinct};
ghost use Rattle.vortex_dtype.specs.FieldNames.{first_place};

use std::alloc::Global;
use vortex_dtype::{DType, FieldNames, StructFields, VortexResult};

/// The type of the first field of the name, by its position.
#[tactic(auto, using(vortex_dtype::proofs::rulesets::found_names))]
pub fn field_by_find<'a>(fields: &'a StructFields, name: &str) -> Option<&'a DType>
    ensures { shown tree result ≡ first_named (children fields.now) name.now }
{
    let index = fields.find(name)?;
    fields.field_by_index(index)
}

/// The columns of a join: each side's keep their types.
#[tactic(auto, using(vortex_dtype::proofs::rulesets::joined_fields, vortex_dtype::proofs::rulesets::distinct_fields))]
pub fn joined(
    alloc: Global,
    left: &StructFields,
    right: &StructFields,
) -> VortexResult<StructFields>
    ensures left { IfOk result (λ s. (n : List ℕ) → IsSome (first_named (children left.now) n)
        → first_named (children s) n ≡ first_named (children left.now) n) }
    ensures right { IfOk result (λ s. (n : List ℕ) → IsSome (first_named (children right.now) n)
        → first_named (children s) n ≡ first_named (children right.now) n) }
{
    let joined = left.disjoint_merge(alloc, right)?;
    Ok(joined)
}

/// Two tables side by side: since no name repeats, each side's columns keep their types.
#[tactic(auto, using(vortex_dtype::proofs::rulesets::distinct_names))]
pub fn side_by_side(
    alloc: Global,
    left: &StructFields,
    right: &StructFields,
) -> VortexResult<StructFields>
    ensures left { IfOk result (λ s. (n : List ℕ) → Contains (field_names (children left.now)) n
        → first_named (children s) n ≡ first_named (children left.now) n) }
    ensures right { IfOk result (λ s. (n : List ℕ) → Contains (field_names (children right.now)) n
        → first_named (children s) n ≡ first_named (children right.now) n) }
{
    left.disjoint_merge(alloc, right)
}

/// The table without a column: its name isn't among the names any more and leads nowhere, if no column had it twice, and the
/// others keep their types.
#[tactic(auto, using(vortex_dtype::proofs::rulesets::lookups, vortex_dtype::proofs::rulesets::distinct_fields, vortex_dtype::proofs::rulesets::among))]
pub fn without(alloc: Global, table: &StructFields, name: &str) -> VortexResult<StructFields>
    ensures gone { Distinct (field_names (children table.now))
        → IfOk result (λ s. ¬ (Contains (field_names (children s)) name.now)) }
    ensures nowhere { Distinct (field_names (children table.now))
        → IfOk result (λ s. first_named (children s) name.now ≡ None) }
    ensures others { IfOk result (λ s. (n : List ℕ) → n ≢ name.now
        → first_named (children s) n ≡ first_named (children table.now) n) }
{
    match table.find(name) {
        Some(index) => Ok(table.without_field(alloc, index)?),
        None => Ok(table.try_clone(alloc)?),
    }
}

/// A table of the names and the types that a file lists, or `None` where they are not as many.
#[tactic(auto, using(vortex_dtype::proofs::rulesets::made_of))]
pub fn table_of_lists(
    alloc: Global,
    names: &[&str],
    dtypes: Vec<DType>,
) -> VortexResult<Option<StructFields>>
    ensures names { IfOk result (λ t. IfSome t (λ s. field_names (children s) ≡ map (λ n. n.now) names.now)) }
    ensures types { IfOk result (λ t. IfSome t (λ s. field_types (children s) ≡ map tree dtypes.items)) }
    ensures uneven { IfOk result (λ t. IfNone t (length names.now ≢ vec_len dtypes)) }
{
    if names.len() != dtypes.len() {
        return Ok(None);
    }
    let texts = FieldNames::from_texts(alloc, names)?;
    let table = StructFields::new(alloc, texts, dtypes)?;
    Ok(Some(table))
}

/// The position of the first field of the name, of at most 1,000 fields, and how many of their names were
/// compared for it.
#[tactic(auto, using(vortex_dtype::proofs::rulesets::compared_names))]
pub fn find_among_a_thousand(fields: &StructFields, name: &str) -> (Option<usize>, u64)
    requires { length (children fields.now) ≤ 1000 }
    ensures place { result.0 ≡ first_place (field_names (children fields.now)) name.now }
    ensures few { result.1 ≤ 11 }
{
    fields.find_counted(name)
}
