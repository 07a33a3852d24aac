// SPDX-License-Identifier: Apache-2.0
// SPDX-FileCopyrightText: Copyright the Vortex contributors

//! Files with different columns, read as one table.

ghost use Rattle.std.specs.Prelude.{◌≡◌, IfNone, IfOk, IfSome, None, map};
ghost use Rattle.std.specs.List.{AllByRecursion};
ghost use Rattle.std.specs.Option.{option_map};
ghost use Rattle.vortex_dtype.specs.AllMerged.{AllFilledIn, HaveNoReaderOfAll, IsLeastReaderOfAll, all_columns_merged};
ghost use Rattle.vortex_dtype.specs.Conflicts.{ClashesHere};
ghost use Rattle.vortex_dtype.specs.MergedColumns.{columns_merged};
ghost use Rattle.vortex_dtype.specs.ReadsAs.{HaveNoReader, ReadsAs, SameColumns};
ghost use Rattle.vortex_dtype.specs.TreeOf.{tree};
ghost use Rattle.vortex_dtype.specs.Valid.{Valid};

use std::alloc::Global;
use vortex_dtype::{
    DType, MergeConflict, VortexResult, Widening, merge_columns, merge_conflict, reads_as,
};

/// Returns the type to read an older and a newer file as, if there is one. The rows of both can be read as rows of it.
pub fn read_both(
    alloc: Global,
    older: &DType,
    newer: &DType,
    widening: Widening,
) -> VortexResult<Option<DType>>
    ensures first { IfOk result (λ r. IfSome r (λ d. ReadsAs widening (tree older.now) (tree d))) }
    ensures second { IfOk result (λ r. IfSome r (λ d. ReadsAs widening (tree newer.now) (tree d))) }
    ensures valid { Valid (tree older.now) → Valid (tree newer.now)
        → IfOk result (λ r. IfSome r (λ d. Valid (tree d))) }
{
    Ok(merge_columns(alloc, older, newer, widening)?)
}

/// Returns why an older and a newer file can't be read as one table, if they can't be: two types that clash, and where.
pub fn why_not<'a>(
    alloc: Global,
    older: &'a DType,
    newer: &'a DType,
) -> VortexResult<Option<MergeConflict<'a>>>
    ensures unmerged { IfOk result (λ r. IfSome r (λ c.
        columns_merged Widening.None (tree older.now) (tree newer.now) ≡ None)) }
    ensures clash { IfOk result (λ r. IfSome r (λ c. ClashesHere Widening.None (tree c.left.now) (tree c.right.now))) }
{
    Ok(merge_conflict(alloc, older, newer, Widening::None)?)
}

/// Returns the type of a table to which a file was added, or `None` if the two have no common type. A table as which the
/// file can be read is copied, with its columns in their order.
#[tactic(auto, using(vortex_dtype::proofs::rulesets::merging_columns))]
pub fn table_with(
    alloc: Global,
    table: &DType,
    file: &DType,
    widening: Widening,
) -> VortexResult<Option<DType>>
    ensures older { IfOk result (λ r. IfSome r (λ d. ReadsAs widening (tree table.now) (tree d))) }
    ensures newer { IfOk result (λ r. IfSome r (λ d. ReadsAs widening (tree file.now) (tree d))) }
    ensures stays { ReadsAs widening (tree file.now) (tree table.now)
        → IfOk result (λ r. IfSome r (λ d. tree d ≡ tree table.now)) }
    ensures none { IfOk result (λ r. IfNone r (HaveNoReader widening (tree table.now) (tree file.now))) }
{
    if reads_as(file, table, widening) {
        return Ok(Some(table.try_clone(alloc)?));
    }
    Ok(merge_columns(alloc, table, file, widening)?)
}

/// Returns the type of a table to which a file was added, by a merge alone. If the file can be read as the table, it is the
/// type of the table up to the order of columns.
#[tactic(auto, using(vortex_dtype::proofs::rulesets::merging_columns))]
pub fn merged_table(
    alloc: Global,
    table: &DType,
    file: &DType,
    widening: Widening,
) -> VortexResult<Option<DType>>
    ensures stays { Valid (tree table.now) → ReadsAs widening (tree file.now) (tree table.now)
        → IfOk result (λ r. IfSome r (λ d. SameColumns (tree d) (tree table.now))) }
{
    Ok(merge_columns(alloc, table, file, widening)?)
}

/// Returns what the types of several files are merged to, one after another, or `None` if two of them can't be merged.
pub fn merge_each_file(
    alloc: Global,
    first: &DType,
    others: &[DType],
    widening: Widening,
) -> VortexResult<Option<DType>>
    ensures { IfOk result (λ r. option_map tree r ≡ all_columns_merged widening (tree first.now) (map tree others.now)) }
{
    let mut merged = first.try_clone(alloc)?;
    for other in others {
        match merge_columns(alloc, &merged, other, widening)? {
            Some(both) => merged = both,
            None => return Ok(None),
        }
    }
    Ok(Some(merged))
}

/// Returns one schema for several files, in which integers may be wider than in a file, or `None` if there is none.
#[tactic(auto, using(vortex_dtype::proofs::rulesets::all_merged))]
pub fn one_schema(alloc: Global, first: &DType, others: &[DType]) -> VortexResult<Option<DType>>
    ensures least { IfOk result (λ r. IfSome r (λ d.
        IsLeastReaderOfAll Widening.Integers (tree first.now) (map tree others.now) (tree d))) }
    ensures none { IfOk result (λ r. IfNone r (HaveNoReaderOfAll Widening.Integers (tree first.now) (map tree others.now))) }
    ensures values { IfOk result (λ r. IfSome r (λ d. AllFilledIn (tree first.now) (map tree others.now) (tree d))) }
    ensures valid { Valid (tree first.now) → AllByRecursion Valid (map tree others.now)
        → IfOk result (λ r. IfSome r (λ d. Valid (tree d))) }
{
    Ok(merge_each_file(alloc, first, others, Widening::Integers)?)
}
