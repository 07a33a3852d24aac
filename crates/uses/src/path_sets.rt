// SPDX-License-Identifier: Apache-2.0
// SPDX-FileCopyrightText: Copyright the Vortex contributors

//! A reader of columns: what is asked of it, and what it opens for that.
#![tactic(auto, using(vortex_dtype::proofs::rulesets::covering))]

ghost use Rattle.std.specs.Prelude.{◌≡◌, ◌+◌, ◌≤◌, IfNone, IfOk, IsTrue, List};
ghost use Rattle.std.specs.FinSet as set;
ghost use Rattle.std.specs.List.{Contains};
ghost use Rattle.std.specs.Vec.Iter.{into_iter_items};
ghost use Rattle.vortex_dtype.specs.At.{ExistsIn};
ghost use Rattle.vortex_dtype.specs.Covering.{covers, least};
ghost use Rattle.vortex_dtype.specs.Overlaps.{Overlaps};
ghost use Rattle.vortex_dtype.specs.PathOrder.{set_of};
ghost use Rattle.vortex_dtype.specs.TreeOf.{tree};
ghost use Rattle.vortex_dtype.specs.Types.Field.{Field};

use std::alloc::Global;
use std::vec;
use vortex_dtype::{DType, Field, FieldPath, FieldPathSet, VortexResult};

/// Returns the columns to open for a query. Each column of the query is under one of them.
pub fn cover_of_query(
    alloc: Global,
    columns: Vec<FieldPath>,
    column: &FieldPath,
) -> VortexResult<vec::IntoIter<FieldPath>>
    requires { Contains columns.items column.now }
    ensures { IfOk result (λ r. IsTrue (covers (set_of (into_iter_items r)) column.now)) }
{
    FieldPathSet::from_iter(alloc, columns)?.into_iter()
}

/// The number of paths that are asked for with one more: one more at most, and no fewer.
#[tactic(auto, using(vortex_dtype::proofs::rulesets::count_bounds))]
pub fn number_with(asked: FieldPathSet, path: FieldPath) -> VortexResult<usize>
    ensures most { IfOk result (λ n. n ≤ set.len asked + 1) }
    ensures least { IfOk result (λ n. set.len asked ≤ n) }
{
    let mut more = asked;
    more.insert(path)?;
    Ok(more.iter()?.count())
}

/// The number of columns to open: at most that of the paths that are asked for.
#[tactic(auto, using(vortex_dtype::proofs::rulesets::opened_counts))]
pub fn number_to_open(asked: FieldPathSet) -> VortexResult<usize>
    ensures { IfOk result (λ n. n ≤ set.len asked) }
{
    Ok(asked.into_iter()?.count())
}

/// The columns to open, of which no two overlap: nothing is read twice.
#[tactic(auto, using(vortex_dtype::proofs::rulesets::opened_paths))]
pub fn opened_apart(asked: FieldPathSet) -> VortexResult<vec::IntoIter<FieldPath>>
    ensures { IfOk result (λ r. (p q : List Field) → Contains (into_iter_items r) p
        → Contains (into_iter_items r) q → Overlaps p q → p ≡ q) }
{
    asked.into_iter()
}

/// Returns the set of the paths of a list, which are inserted one by one.
#[tactic(auto, using(vortex_dtype::proofs::rulesets::of_push))]
pub fn listed(alloc: Global, paths: Vec<FieldPath>) -> VortexResult<FieldPathSet>
    ensures { IfOk result (λ s. s ≡ set_of paths.items) }
{
    let mut listed = FieldPathSet::new(alloc);
    for path in paths {
        listed.insert(path)?;
    }
    Ok(listed)
}

/// What one of two queries asks, whose scan is shared: the paths of the second are inserted one by one.
#[tactic(auto, using(vortex_dtype::proofs::rulesets::collected_paths))]
pub fn shared_scan(first: FieldPathSet, second: &FieldPathSet) -> VortexResult<FieldPathSet>
    ensures { IfOk result (λ s. s ≡ set.union first second.now) }
{
    let mut both = first;
    for path in second.iter()? {
        both.insert(path.try_clone()?)?;
    }
    Ok(both)
}

/// Returns a path of a query that a table lacks, or `None` if the table has all of them.
#[tactic(auto, using(vortex_dtype::proofs::rulesets::lent_paths))]
pub fn first_lacking<'a>(
    asked: &'a FieldPathSet,
    table: &DType,
) -> VortexResult<Option<&'a FieldPath>>
    ensures { IfOk result (λ r. IfNone r ((p : List Field)
        → IsTrue (set.contains asked.now p) → ExistsIn (tree table.now) p)) }
{
    for column in asked.iter()? {
        if !column.exists_in(table) {
            return Ok(Some(column));
        }
    }
    Ok(None)
}

/// The paths of two queries: whose come first doesn't matter.
#[tactic(auto, using(vortex_dtype::proofs::rulesets::covering, vortex_dtype::proofs::rulesets::union_swap))]
pub fn asked_by_both(one: &FieldPathSet, other: Vec<FieldPath>) -> VortexResult<FieldPathSet>
    ensures { IfOk result (λ s. s ≡ set.union (set_of other.items) one.now) }
{
    let mut both = one.try_clone()?;
    both.extend(other)?;
    Ok(both)
}

/// Returns the columns to open for a query and for one column more. That column is under one of them, and so is each column
/// that the query covers.
#[tactic(auto, using(vortex_dtype::proofs::rulesets::covered_paths))]
pub fn open_with(asked: FieldPathSet, column: FieldPath) -> VortexResult<vec::IntoIter<FieldPath>>
    ensures column { IfOk result (λ r. IsTrue (covers (set_of (into_iter_items r)) column)) }
    ensures query { (p : List Field) → IsTrue (covers asked p)
        → IfOk result (λ r. IsTrue (covers (set_of (into_iter_items r)) p)) }
{
    let mut more = asked;
    more.insert(column)?;
    Ok(more.into_iter()?)
}
