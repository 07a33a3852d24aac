// SPDX-License-Identifier: Apache-2.0
// SPDX-FileCopyrightText: Copyright the Vortex contributors

//! Unions made of names, types and tags.
#![tactic(auto, using(vortex_dtype::proofs::rulesets::made_of, vortex_dtype::proofs::rulesets::tags, vortex_dtype::proofs::rulesets::lookups))]

ghost use Rattle.std.specs.Prelude.{◌≡◌, ◌↔◌, ◌<◌, Contains, IfOk, IfSome, IsSome, map};
ghost use Rattle.dtype_types.specs.parts.Lookups.{variant_names, variant_types, variant_tags};
ghost use Rattle.dtype_types.specs.tree.TreeOf.{variant_list, tree};
ghost use Rattle.dtype_types.specs.parts.Unions.{AreConsecutive};

use std::alloc::Global;
use vortex_dtype::{DType, FieldNames, UnionVariants, VortexResult};

/// The union of these names and types.
pub fn numbered(alloc: Global, names: FieldNames, dtypes: Vec<DType>) -> VortexResult<UnionVariants>
    ensures names { IfOk result (λ u. variant_names (variant_list u) ≡ names) }
    ensures types { IfOk result (λ u. variant_types (variant_list u) ≡ map tree dtypes.items) }
    ensures tags { IfOk result (λ u. AreConsecutive (variant_tags (variant_list u))) }
{
    let variants = UnionVariants::new(alloc, names, dtypes)?;
    Ok(variants)
}

/// The tag of the variant of a name.
#[tactic(auto, using(vortex_dtype::proofs::rulesets::tags))]
pub fn tag_of(variants: &UnionVariants, name: &str) -> Option<u8>
    ensures there { IsSome result ↔ Contains (variant_names (variant_list variants.now)) name.now }
    ensures tag { IfSome result (λ t. Contains (variant_tags (variant_list variants.now)) t) }
{
    match variants.find(name) {
        Some(index) => Some(variants.child_index_to_tag(index)),
        None => None,
    }
}
