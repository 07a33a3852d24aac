// SPDX-License-Identifier: Apache-2.0
// SPDX-FileCopyrightText: Copyright the Vortex contributors

// The bounds of two types in the order by nullability. One walk over two types that are equal except for nullabilities
// makes the least type above both or the greatest below both. The public calls return `Ok(bound?)` and not the result
// of the walk itself, because the tactics find what is known of a bound only if the bound is a value of its own.
#![tactic(auto, using(crate::proofs::MergedParts::merged_parts))]

ghost use Rattle.std.specs.Prelude.{◌≡◌, ◌↔◌, IfOk, IfSome, IsSome, Some, length, map};
ghost use Rattle.std.specs.Option.{option_map};
ghost use Rattle.dtype_base.specs.Errors.{Makes};
ghost use Rattle.dtype_types.specs.nullability.Merged.{IsGreatestBelow, IsLeastAbove, intersected, merge, merge_types, merged, merged_under, rule_of};
ghost use Rattle.dtype_types.specs.nullability.Sub.{Sub};
ghost use Rattle.dtype_types.specs.tree.Erase.{erase};
ghost use Rattle.dtype_types.specs.tree.TreeOf.{tree};
ghost use Rattle.dtype_types.specs.tree.Valid.{Valid};
ghost use Rattle.dtype_types.specs.values.Value.{IncludedIn};

use crate::DType;
use dtype_base::{Nullability, VortexResult};
use std::alloc::Global;

// Which bound of two types is made: at each node it is nullable if either of the two is (`Either`), or only if both are
// (`Both`).
#[derive(Clone, Copy)]
pub(crate) enum MergeRule {
    Either,
    Both,
}

impl MergeRule {
    // Returns the bound of two types of which the first is below the second. It is one of the two.
    #[tactic(auto, using(crate::proofs::lemmas::Merging::merged_above, crate::proofs::lemmas::Merging::intersected_below))]
    fn bound_in_order<'a>(self, lower: &'a DType, upper: &'a DType) -> &'a DType
        requires { Sub (tree lower.now) (tree upper.now) }
        ensures { merged_under (rule_of self) (tree lower.now) (tree upper.now) ≡ Some (tree result.now) }
    {
        match self {
            MergeRule::Either => upper,
            MergeRule::Both => lower,
        }
    }

    // Returns the nullability of the bound at a node at which the two types have these nullabilities.
    fn of(self, one: Nullability, other: Nullability) -> Nullability
        ensures { result ≡ rule_of self one other }
    {
        match self {
            MergeRule::Either => one | other,
            MergeRule::Both => match one {
                Nullability::NonNullable => Nullability::NonNullable,
                Nullability::Nullable => other,
            },
        }
    }
}

/// Returns the least type of which both types are subsets, or `None` if the types differ in more than nullabilities.
/// The returned type is nullable in each place in which one of the two is, at every depth, also in the value type of a
/// map and in the storage type of an extension.
///
/// For example, merging `{a=i32, b=list(utf8?)}` and `{a=i32?, b=list(utf8)}` returns `{a=i32?, b=list(utf8?)}`.
/// Merging `i32` and `null` returns `None`, because a column of nulls is of another type.
///
/// If one of the two types is a subset of the other, the call returns a copy of the other, which shares its fields. So
/// a reader of many files with the same schema doesn't build that schema again.
///
/// # Errors
///
/// - `OutOfMemory` (0): an allocation fails, or a reference count is at its maximum.
#[tactic(auto, using(crate::proofs::lemmas::Merging::merging))]
pub fn merge_nullability(alloc: Global, a: &DType, b: &DType) -> VortexResult<Option<DType>>
    ensures ok { Makes result (λ r. option_map tree r ≡ merged (tree a.now) (tree b.now)) }
    ensures some { IfOk result (λ r. IsSome r ↔ (erase (tree a.now) ≡ erase (tree b.now))) }
    ensures least { IfOk result (λ r. IfSome r (λ d. IsLeastAbove (tree a.now) (tree b.now) (tree d))) }
    ensures values { IfOk result (λ r. IfSome r (λ d. IncludedIn (tree a.now) (tree d)
        × IncludedIn (tree b.now) (tree d))) }
    ensures valid { Valid (tree a.now) → Valid (tree b.now) → IfOk result (λ r. IfSome r (λ d. Valid (tree d))) }
{
    Ok(bound_of(alloc, a, b, MergeRule::Either)?)
}

/// Returns the greatest type that is a subset of both types, or `None` if the types differ in more than nullabilities.
/// The returned type is nullable only in those places in which both are, at every depth, also in the value type of a
/// map and in the storage type of an extension.
///
/// For example, intersecting `{a=i32, b=list(utf8?)}` and `{a=i32?, b=list(utf8)}` returns `{a=i32, b=list(utf8)}`.
///
/// If one of the two types is a subset of the other, the call returns a copy of that one, which shares its fields.
///
/// # Errors
///
/// - `OutOfMemory` (0): an allocation fails, or a reference count is at its maximum.
#[tactic(auto, using(crate::proofs::lemmas::Merging::intersecting))]
pub fn intersect_nullability(alloc: Global, a: &DType, b: &DType) -> VortexResult<Option<DType>>
    ensures ok { Makes result (λ r. option_map tree r ≡ intersected (tree a.now) (tree b.now)) }
    ensures some { IfOk result (λ r. IsSome r ↔ (erase (tree a.now) ≡ erase (tree b.now))) }
    ensures greatest { IfOk result (λ r. IfSome r (λ d. IsGreatestBelow (tree a.now) (tree b.now) (tree d))) }
    ensures values { IfOk result (λ r. IfSome r (λ d. IncludedIn (tree d) (tree a.now)
        × IncludedIn (tree d) (tree b.now))) }
    ensures valid { Valid (tree a.now) → IfOk result (λ r. IfSome r (λ d. Valid (tree d))) }
{
    Ok(bound_of(alloc, a, b, MergeRule::Both)?)
}

// Returns the bound of two types, or `None` if they differ in more than nullabilities. If the bound is one of the two
// types, a copy of that one is returned: nothing is built, and equal types cost one comparison.
#[tactic(auto, using(crate::proofs::lemmas::Merging::rule_commutes, crate::proofs::lemmas::Merging::under_none, crate::proofs::lemmas::Merging::under_some))]
fn bound_of(alloc: Global, a: &DType, b: &DType, rule: MergeRule) -> VortexResult<Option<DType>>
    ensures { Makes result (λ r. option_map tree r ≡ merged_under (rule_of rule) (tree a.now) (tree b.now)) }
{
    if a.eq_with_nullability_subset(b) {
        return Ok(Some(rule.bound_in_order(a, b).try_clone(alloc)?));
    }
    if b.eq_with_nullability_subset(a) {
        return Ok(Some(rule.bound_in_order(b, a).try_clone(alloc)?));
    }
    if !a.eq_ignore_nullability(b) {
        return Ok(None);
    }
    Ok(Some(merge_under(alloc, a, b, rule)?))
}

// Returns the bounds of the types at equal positions of two lists. The caller proves that they are equal except for
// nullabilities.
#[cycle(merge_under)]
pub(crate) fn merge_dtypes(
    alloc: Global,
    a: &[DType],
    b: &[DType],
    rule: MergeRule,
) -> VortexResult<Vec<DType>>
    requires alike { map erase (map tree a.now) ≡ map erase (map tree b.now) }
    ensures { Makes result (λ ds. (length ds.items ≡ length a.now)
        × (map tree ds.items ≡ merge_types (rule_of rule) (map tree a.now) (map tree b.now))) }
{
    let mut dtypes = Vec::with_capacity(alloc, a.len())?;
    for (dtype, other_dtype) in a.iter().zip(b) {
        dtypes.push(merge_under(alloc, dtype, other_dtype, rule)?)?;
    }
    Ok(dtypes)
}

// Returns the bound of two types. The caller proves that they are equal except for nullabilities.
#[cycle(merge_under)]
pub(crate) fn merge_under(
    alloc: Global,
    a: &DType,
    b: &DType,
    rule: MergeRule,
) -> VortexResult<DType>
    requires { erase (tree a.now) ≡ erase (tree b.now) }
    ensures { Makes result (λ d. tree d ≡ merge (rule_of rule) (tree a.now) (tree b.now)) }
{
    match (a, b) {
        (DType::Null, DType::Null) => Ok(DType::Null),
        (DType::Bool(m), DType::Bool(n)) => Ok(DType::Bool(rule.of(*m, *n))),
        (DType::Primitive(p, m), DType::Primitive(_, n)) => {
            Ok(DType::Primitive(*p, rule.of(*m, *n)))
        }
        (DType::Decimal(p, m), DType::Decimal(_, n)) => Ok(DType::Decimal(*p, rule.of(*m, *n))),
        (DType::Utf8(m), DType::Utf8(n)) => Ok(DType::Utf8(rule.of(*m, *n))),
        (DType::Binary(m), DType::Binary(n)) => Ok(DType::Binary(rule.of(*m, *n))),
        (DType::List(t, m), DType::List(u, n)) => {
            let element = merge_under(alloc, t, u, rule)?;
            Ok(DType::List(Box::new(alloc, element)?, rule.of(*m, *n)))
        }
        (DType::FixedSizeList(t, size, m), DType::FixedSizeList(u, _, n)) => {
            let element = merge_under(alloc, t, u, rule)?;
            let element = Box::new(alloc, element)?;
            Ok(DType::FixedSizeList(element, *size, rule.of(*m, *n)))
        }
        (DType::Map(t, m), DType::Map(u, n)) => {
            Ok(DType::Map(t.merge_under(alloc, u, rule)?, rule.of(*m, *n)))
        }
        (DType::Struct(t, m), DType::Struct(u, n)) => {
            Ok(DType::Struct(t.merge_under(alloc, u, rule)?, rule.of(*m, *n)))
        }
        (DType::Union(t, m), DType::Union(u, n)) => {
            Ok(DType::Union(t.merge_under(alloc, u, rule)?, rule.of(*m, *n)))
        }
        (DType::Variant(m), DType::Variant(n)) => Ok(DType::Variant(rule.of(*m, *n))),
        (DType::Extension(t), DType::Extension(u)) => {
            Ok(DType::Extension(t.merge_under(alloc, u, rule)?))
        }
        _ => unreachable!(),
    }
}
