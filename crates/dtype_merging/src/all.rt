// SPDX-License-Identifier: Apache-2.0
// SPDX-FileCopyrightText: Copyright the Vortex contributors

ghost use Rattle.std.specs.Prelude.{◌≡◌, IfNone, IfOk, IfSome, map};
ghost use Rattle.std.specs.List.{AllByRecursion};
ghost use Rattle.std.specs.Option.{option_map};
ghost use Rattle.dtype_base.specs.Errors.{Makes};
ghost use Rattle.dtype_types.specs.tree.TreeOf.{tree};
ghost use Rattle.dtype_types.specs.tree.Valid.{Valid};
ghost use Rattle.dtype_merging.specs.AllMerged.{AllFilledIn, HaveNoReaderOfAll, IsLeastReaderOfAll, all_columns_merged};

use crate::merge::merge_columns;
use crate::widening::Widening;
use dtype_base::VortexResult;
use dtype_types::DType;
use std::alloc::Global;

/// Returns the least type as which all of these types can be read, such as the schemas of several files, or `None` if there
/// is none. The types are merged one after another by `merge_columns`, with the caller's choice which numbers may be read
/// as wider ones. So the columns are those of the first type in their
/// order, and then those of each further type that the types before it lack.
///
/// For example, merging `{id=u64}`, `{note=utf8, id=u64}` and `{id=null}` returns `{id=u64?, note=utf8?}`. The order of the
/// types decides only the order of the columns, as the law `columns_are_merged_in_any_order` states for two and three. With
/// `Widening::Integers`, merging `{id=i16}`, `{id=u8}` and `{id=i32?}` returns `{id=i32?}`.
///
/// vortex-array has no such call.
///
/// The call takes as long as merging each type with the columns of all types before it.
///
/// # Errors
///
/// - `OutOfMemory` (0): an allocation fails, or a reference count is at its maximum.
#[tactic(auto, using(crate::proofs::lemmas::AllMerged::all_merged))]
pub fn merge_all(
    alloc: Global,
    first: &DType,
    others: &[DType],
    widening: Widening,
) -> VortexResult<Option<DType>>
    ensures ok { Makes result (λ r. option_map tree r ≡ all_columns_merged widening (tree first.now) (map tree others.now)) }
    ensures least { IfOk result (λ r. IfSome r (λ c. IsLeastReaderOfAll widening (tree first.now) (map tree others.now) (tree c))) }
    ensures none { IfOk result (λ r. IfNone r (HaveNoReaderOfAll widening (tree first.now) (map tree others.now))) }
    ensures values { IfOk result (λ r. IfSome r (λ c. AllFilledIn (tree first.now) (map tree others.now) (tree c))) }
    ensures valid { Valid (tree first.now) → AllByRecursion Valid (map tree others.now)
        → IfOk result (λ r. IfSome r (λ c. Valid (tree c))) }
{
    Ok(merge_each(alloc, first, others, widening)?)
}

// Returns the type, merged with the others one after another, or `None` if two types can't be merged on the way.
fn merge_each(
    alloc: Global,
    first: &DType,
    others: &[DType],
    widening: Widening,
) -> VortexResult<Option<DType>>
    ensures { Makes result (λ r. option_map tree r ≡ all_columns_merged widening (tree first.now) (map tree others.now)) }
{
    let mut merged = first.try_clone(alloc)?;
    for other in others {
        match merge_columns(alloc, &merged, other, widening)? {
            Some(both) => merged = both,
            None => return Ok(None),
        }
    }
    Ok(Some(merged))
}
