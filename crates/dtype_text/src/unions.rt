// SPDX-License-Identifier: Apache-2.0
// SPDX-FileCopyrightText: Copyright the Vortex contributors

// The union that variants make which were read.
ghost use Rattle.std.specs.Prelude.{◌≡◌, ◌==◌, map, length, vec_len};
ghost use Rattle.std.specs.List.{zip, range_with_len};
ghost use Rattle.dtype_base.specs.Bytes.{Bytes};
ghost use Rattle.dtype_base.specs.Errors.{Makes};
ghost use Rattle.dtype_types.specs.tree.TreeOf.{tree, variants_of};
ghost use Rattle.dtype_text.specs.Outcome.{Gives};
ghost use Rattle.dtype_text.specs.Chosen.{chosen};
ghost use Rattle.dtype_text.specs.Unions.{is_empty as is_empty_spec, made_union, union_at, written_tags};
ghost use Rattle.dtype_text.specs.Views.{read_variants};

use crate::fault::{Fault, misread};
use crate::text_error::Expected;
use dtype_base::{FieldName, FieldNames, VortexResult};
use dtype_types::{DType, UnionVariants};
use std::alloc::Global;

/// A variant that was read, with its tag if that was written.
#[derive(Drop)]
pub struct Variant {
    pub name: FieldName,
    pub tag: Option<u8>,
    pub dtype: DType,
}

// The names of variants, their types, and the tags that were written.
#[derive(Drop)]
struct Sides {
    names: Vec<FieldName>,
    dtypes: Vec<DType>,
    tags: Vec<u8>,
}

// Returns the names of variants, their types, and the tags that were written. There are as many names and types as
// variants.
#[tactic(auto, using(crate::proofs::UnionFacts::parts))]
fn parts_of(alloc: Global, variants: Vec<Variant>) -> VortexResult<Sides>
    ensures names { Makes result (λ s. s.names.items ≡ map (λ v. v.0) (read_variants variants.items)) }
    ensures dtypes { Makes result (λ s. map tree s.dtypes.items ≡ map (λ v. v.1.0) (read_variants variants.items)) }
    ensures counts { Makes result (λ s. length s.names.items ≡ vec_len s.dtypes) }
    ensures tags { Makes result (λ s. s.tags.items ≡ written_tags (read_variants variants.items)) }
{
    let mut names = Vec::new(alloc);
    let mut dtypes = Vec::new(alloc);
    let mut tags = Vec::new(alloc);
    for variant in variants {
        names.push(variant.name)?;
        dtypes.push(variant.dtype)?;
        if let Some(tag) = variant.tag {
            tags.push(tag)?;
        }
    }
    Ok(Sides {
        names,
        dtypes,
        tags,
    })
}

// Returns the union of these names and types, with the tags 0, 1, 2 and so on.
#[tactic(auto, using(crate::proofs::UnionFacts::makes))]
fn untagged(alloc: Global, names: FieldNames, dtypes: Vec<DType>) -> Result<UnionVariants, Fault>
    requires { length names ≡ vec_len dtypes }
    ensures { Gives variants_of result (made_union (zip names (zip (map tree dtypes.items) (range_with_len 0 (length names))))) }
{
    Ok(UnionVariants::new(alloc, names, dtypes)?)
}

// Returns the union of these names, types and tags, of which there are as many.
#[tactic(auto, using(crate::proofs::UnionFacts::makes))]
fn tagged(
    alloc: Global,
    names: FieldNames,
    dtypes: Vec<DType>,
    tags: Vec<u8>,
) -> Result<UnionVariants, Fault>
    requires types { length names ≡ vec_len dtypes }
    requires tags { length names ≡ vec_len tags }
    ensures { Gives variants_of result (made_union (zip names (zip (map tree dtypes.items) tags.items))) }
{
    are_bytes(&tags);
    Ok(UnionVariants::try_new(alloc, names, dtypes, tags)?)
}

// Does nothing. Its contract says that each item of a slice of bytes is a byte.
fn are_bytes(bytes: &[u8])
    ensures { Bytes bytes.now }
{
    let _ = bytes;
}

// Returns whether there are no tags.
fn has_none(tags: &[u8]) -> bool
    ensures { result ≡ is_empty_spec tags.now }
{
    match tags {
        [] => true,
        [_, ..] => false,
    }
}

// Returns whether there are so many tags.
fn has_as_many(tags: &[u8], count: usize) -> bool
    ensures { result ≡ (length tags.now == count) }
{
    tags.len() == count
}

// Returns the union of these names and types, with the tags 0, 1, 2 and so on if no tag was written.
#[tactic(auto, unfolding(crate::specs::Chosen::chosen), using(std::proofs::lemmas::Bool::Decides::nat_tests))]
fn choose(
    alloc: Global,
    names: FieldNames,
    dtypes: Vec<DType>,
    tags: Vec<u8>,
    rest: &[u8],
) -> Result<UnionVariants, Fault>
    requires { length names ≡ vec_len dtypes }
    ensures { Gives variants_of result (chosen names (map tree dtypes.items) tags.items) }
{
    if has_none(&tags) {
        untagged(alloc, names, dtypes)
    } else if has_as_many(&tags, names.len()) {
        tagged(alloc, names, dtypes, tags)
    } else {
        Err(misread(rest, Expected::TagOfEach))
    }
}

/// Returns the union of variants that were read. These bytes come after them.
#[tactic(auto, using(crate::proofs::UnionFacts::chosen_is))]
pub fn union_of(alloc: Global, variants: Vec<Variant>, rest: &[u8]) -> Result<UnionVariants, Fault>
    ensures { Gives variants_of result (union_at (read_variants variants.items)) }
{
    let Sides {
        names,
        dtypes,
        tags,
    } = parts_of(alloc, variants)?;
    choose(alloc, FieldNames::from_vec(names), dtypes, tags, rest)
}
