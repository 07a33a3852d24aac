// SPDX-License-Identifier: Apache-2.0
// SPDX-FileCopyrightText: Copyright the Vortex contributors

//! Several schemas as one type: what a reader of files reads them all as, and what a writer writes for two readers.
#![tactic(auto, using(vortex_dtype::proofs::rulesets::merging, vortex_dtype::proofs::rulesets::order))]

ghost use Rattle.std.specs.Prelude.{◌≡◌, ◌↔◌, IfOk, IfSome, IsSome, map};
ghost use Rattle.std.specs.List.{AllByRecursion};
ghost use Rattle.std.specs.Option.{option_map};
ghost use Rattle.vortex_dtype.specs.Erase.{erase};
ghost use Rattle.vortex_dtype.specs.MergedAll.{AreAlike, IncludesAll, IsLeastAboveAll, merged_all};
ghost use Rattle.vortex_dtype.specs.TreeOf.{tree};
ghost use Rattle.vortex_dtype.specs.Valid.{Valid};
ghost use Rattle.vortex_dtype.specs.Value.{IncludedIn};

use std::alloc::Global;
use vortex_dtype::{DType, VortexResult, intersect_nullability, merge_nullability};

/// The type to read two files as, if they differ in nullabilities alone: each value of both is a value of it.
pub fn read_as_one(alloc: Global, file: &DType, other: &DType) -> VortexResult<Option<DType>>
    ensures some { IfOk result (λ r. IsSome r ↔ (erase (tree file.now) ≡ erase (tree other.now))) }
    ensures first { IfOk result (λ r. IfSome r (λ d. IncludedIn (tree file.now) (tree d))) }
    ensures second { IfOk result (λ r. IfSome r (λ d. IncludedIn (tree other.now) (tree d))) }
    ensures valid { Valid (tree file.now) → Valid (tree other.now)
        → IfOk result (λ r. IfSome r (λ d. Valid (tree d))) }
{
    merge_nullability(alloc, file, other)
}

/// Returns what the types of several files come to if they are merged one after another, or `None` if two of them differ in
/// more than nullability.
#[tactic(auto)]
pub fn merge_files(alloc: Global, first: &DType, others: &[DType]) -> VortexResult<Option<DType>>
    ensures { IfOk result (λ r. option_map tree r ≡ merged_all (tree first.now) (map tree others.now)) }
{
    let mut merged = first.try_clone(alloc)?;
    for other in others {
        match merge_nullability(alloc, &merged, other)? {
            Some(both) => merged = both,
            None => return Ok(None),
        }
    }
    Ok(Some(merged))
}

/// Returns the type to read several files as one, or `None` if their types differ in more than nullability. It is the least
/// type of which the types of all files are subsets, so that each value of each file is a value of it.
#[tactic(auto, using(vortex_dtype::proofs::rulesets::merging_all))]
pub fn read_all_as_one(
    alloc: Global,
    first: &DType,
    others: &[DType],
) -> VortexResult<Option<DType>>
    ensures some { IfOk result (λ r. IsSome r ↔ AreAlike (tree first.now) (map tree others.now)) }
    ensures least { IfOk result (λ r. IfSome r (λ d. IsLeastAboveAll (tree first.now) (map tree others.now) (tree d))) }
    ensures values { IfOk result (λ r. IfSome r (λ d. IncludesAll (tree first.now) (map tree others.now) (tree d))) }
    ensures valid { Valid (tree first.now) → AllByRecursion Valid (map tree others.now)
        → IfOk result (λ r. IfSome r (λ d. Valid (tree d))) }
{
    Ok(merge_files(alloc, first, others)?)
}

/// The type to write rows as that two tables are to take, if the tables differ in nullabilities alone: each value of it
/// is a value of both.
#[tactic(auto, using(vortex_dtype::proofs::rulesets::intersecting, vortex_dtype::proofs::rulesets::order))]
pub fn write_for_both(alloc: Global, table: &DType, other: &DType) -> VortexResult<Option<DType>>
    ensures some { IfOk result (λ r. IsSome r ↔ (erase (tree table.now) ≡ erase (tree other.now))) }
    ensures first { IfOk result (λ r. IfSome r (λ d. IncludedIn (tree d) (tree table.now))) }
    ensures second { IfOk result (λ r. IfSome r (λ d. IncludedIn (tree d) (tree other.now))) }
    ensures valid { Valid (tree table.now) → IfOk result (λ r. IfSome r (λ d. Valid (tree d))) }
{
    intersect_nullability(alloc, table, other)
}
