// SPDX-License-Identifier: Apache-2.0
// SPDX-FileCopyrightText: Copyright the Vortex contributors

// The variants of merged unions.
ghost use Rattle.std.specs.Prelude.{◌≡◌, ◌==◌, ◌&&◌, ◌∷◌, Some};
ghost use Rattle.std.specs.Option.{option_map};
ghost use Rattle.dtype_base.specs.Errors.{Makes};
ghost use Rattle.dtype_types.specs.parts.Lookups.{first_named};
ghost use Rattle.dtype_types.specs.tree.Tree.{pairs};
ghost use Rattle.dtype_types.specs.tree.TreeOf.{shown, tree, variants_of};
ghost use Rattle.dtype_merging.specs.MergedColumns.{all_differ, further_variants, joined, own_tags, union_with};
ghost use Rattle.dtype_merging.specs.ReadsAs.{keyed};
ghost use Rattle.dtype_merging.specs.private.Collected.{gathered};

use dtype_base::{FieldName, FieldNames, Nullability, VortexError, VortexResult};
use dtype_types::{DType, UnionVariants};
use std::alloc::Global;

// Returns whether each of the two has a variant, and no tag repeats in it. Every union that a caller can make is so.
pub(crate) fn have_own_tags(one: &UnionVariants, other: &UnionVariants) -> bool
    ensures { result ≡ (own_tags (variants_of one.now) && own_tags (variants_of other.now)) }
{
    has_own_tags(one) && has_own_tags(other)
}

// Returns whether there is a variant, and no tag repeats.
#[tactic(auto, using(crate::proofs::Tagging::own_some, crate::proofs::Tagging::own_none))]
fn has_own_tags(variants: &UnionVariants) -> bool
    ensures { result ≡ own_tags (variants_of variants.now) }
{
    !variants.is_empty() && are_distinct(variants.type_ids())
}

// Returns whether no tag repeats. There are at most 256 tags if none does, so each is compared with those behind it.
fn are_distinct(tags: &[u8]) -> bool
    ensures { result ≡ all_differ (λ f g. f == g) tags.now }
{
    let mut rest = tags;
    while let Some((tag, others)) = rest.split_first() {
        if others.contains(tag) {
            return false;
        }
        rest = others;
    }
    true
}

// Returns the type of the variant with this tag and this name, or `None` if there is none.
#[tactic(auto, using(crate::proofs::Tagging::found_here, crate::proofs::Tagging::found_behind))]
pub(crate) fn variant_with<'a>(
    variants: &'a UnionVariants,
    tag: u8,
    name: &str,
) -> Option<&'a DType>
    ensures { shown tree result ≡ first_named (pairs (keyed (variants_of variants.now))) (tag ∷ name.now) }
{
    for (other, other_tag, dtype) in variants.triples() {
        if other_tag == tag && other.as_str() == name {
            return Some(dtype);
        }
    }
    None
}

// Returns these variants followed by those of the second union that the first lacks.
#[tactic(auto, using(crate::proofs::Tagging::further_put, crate::proofs::Tagging::further_skipped, crate::proofs::Tagging::further_all))]
pub(crate) fn with_further_variants(
    alloc: Global,
    variants: Vec<(FieldName, u8, DType)>,
    a: &UnionVariants,
    b: &UnionVariants,
) -> VortexResult<Vec<(FieldName, u8, DType)>>
    ensures { Makes result (λ v. gathered v.items
        ≡ joined (gathered variants.items) (further_variants (keyed (variants_of a.now)) (variants_of b.now))) }
{
    let mut variants = variants;
    for (name, tag, dtype) in b.triples() {
        if variant_with(a, tag, name.as_str()).is_none() {
            variants.push((name.try_clone(alloc)?, tag, dtype.try_clone(alloc)?))?;
        }
    }
    Ok(variants)
}

// Returns the union of these variants, or `None` if there is no such union. There is none if a tag of one of the two
// merged unions has another name in the other, or if a name has another tag.
pub(crate) fn union_of(
    alloc: Global,
    variants: Vec<(FieldName, u8, DType)>,
    n: Nullability,
) -> VortexResult<Option<DType>>
    ensures { Makes result (λ r. option_map tree r ≡ union_with (Some (gathered variants.items)) n) }
{
    let mut names = Vec::with_capacity(alloc, variants.len())?;
    let mut dtypes = Vec::with_capacity(alloc, variants.len())?;
    let mut type_ids = Vec::with_capacity(alloc, variants.len())?;
    for (name, tag, dtype) in variants {
        names.push(name)?;
        dtypes.push(dtype)?;
        type_ids.push(tag)?;
    }
    match UnionVariants::try_new(alloc, FieldNames::from_vec(names), dtypes, type_ids) {
        Ok(made) => Ok(Some(DType::Union(made, n))),
        Err(VortexError::UnionEmpty) => Ok(None),
        Err(VortexError::UnionTagsRepeat) => Ok(None),
        Err(VortexError::UnionNamesRepeat) => Ok(None),
        Err(_) => Err(VortexError::OutOfMemory),
    }
}
