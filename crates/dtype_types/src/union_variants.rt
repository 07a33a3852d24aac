// SPDX-License-Identifier: Apache-2.0
// SPDX-FileCopyrightText: Copyright the Vortex contributors

ghost use Rattle.std.specs.Prelude.{◌≡◌, ◌≤◌, ◌<◌, ◌^◌, ◌↔◌, ◌==◌, ◌⊎◌, IsSome, IfSome, IsTrue, [], length, map, vec_len, position, slice_get, All, IfOk, IfErr, OnOk, Err, Some, false, fold};
ghost use Rattle.std.specs.List.{Contains, IsDistinct, range_with_len, zip};
ghost use Rattle.dtype_base.specs.Errors.{Makes};
ghost use Rattle.dtype_base.specs.Bytes.{Bytes};
ghost use Rattle.dtype_base.specs.FieldNames.{first_place};
ghost use Rattle.dtype_base.specs.declared.vortex_error.VortexError.TheVariants.{OutOfMemory, UnionTooMany};
ghost use Rattle.dtype_types.specs.parts.Unions.{AreConsecutive, HasUnionLengths, MakesUnion, UnionError};

use crate::dtype::equality::{NullabilityRule, equal_dtypes};
use crate::dtype::hash::{HashMode, hash_into};
use crate::dtype::nullability_bounds::{MergeRule, merge_dtypes};
use crate::tagged::Tagged;
use crate::{DType, DTypeIter, VariantIter};
use dtype_base::{FieldNames, VortexError, VortexResult};
use std::alloc::Global;
use std::collections::HashSet;
use std::fmt;
use std::hash::{Hash, Hasher};
use std::rc::Rc;

// A tag is one byte.
const MAX_VARIANTS: usize = 256;

/// The variants of a union, in order, each with a name, a type and a tag from 0 to 255. Each value of the union has the
/// tag of its variant.
///
/// For example, `union(int@5=i32, string@9=utf8)` has two variants, with the tags 5 and 9. The tags needn't be 0, 1, 2
/// and so on, so a schema can drop a variant while the others keep their tags.
#[derive(Debug, Drop)]
#[cycle(dtype)]
pub struct UnionVariants {
    shared: Rc<Tagged<DType>>,
}

// Returns whether two of the items are equal. It takes linear time, because the items are hashed.
fn has_repeats<T: Eq + Hash>(alloc: Global, items: &[T]) -> VortexResult<bool>
    ensures { Makes result (λ b. (b ≡ false) ↔ IsDistinct T.eq items.now) }
{
    let distinct: HashSet<&T> = items.iter().collect(alloc)?;
    Ok(distinct.len() < items.len())
}

// Returns an error if names, types and tags make no union. The errors are those of `try_new`, in the same order. Only
// the search for repeats allocates.
fn validate_shape(
    alloc: Global,
    names: &FieldNames,
    types: usize,
    type_ids: &[u8],
) -> VortexResult<()>
    ensures accepted { OnOk result (MakesUnion names.now types type_ids.now) }
    ensures bytes { OnOk result (Bytes type_ids.now) }
    ensures errors { IfErr result (λ e.
        ((e ≡ OutOfMemory) × HasUnionLengths names.now types type_ids.now)
        ⊎ UnionError names.now types type_ids.now e) }
{
    if names.len() != types {
        return Err(VortexError::UnionTypesLength);
    }
    if names.len() != type_ids.len() {
        return Err(VortexError::UnionTagsLength);
    }
    if names.is_empty() {
        return Err(VortexError::UnionEmpty);
    }
    if has_repeats(alloc, type_ids)? {
        return Err(VortexError::UnionTagsRepeat);
    }
    if has_repeats(alloc, names.as_slice())? {
        return Err(VortexError::UnionNamesRepeat);
    }
    Ok(())
}

// Returns the first `count` tags: 0, 1, 2 and so on.
fn first_tags(alloc: Global, count: usize) -> VortexResult<Vec<u8>>
    requires { count ≤ 256 }
    ensures { Makes result (λ tags. tags.items ≡ range_with_len 0 count) }
{
    Ok((0..count).map(|tag| tag as u8).collect(alloc)?)
}

impl UnionVariants {
    ghost use Rattle.dtype_types.specs.equality.Equality.{items_equal_under};
    ghost use Rattle.dtype_types.specs.nullability.Merged.{merge_items, rule_of};
    ghost use Rattle.dtype_types.specs.tree.Erase.{erase_items};
    ghost use Rattle.dtype_types.specs.parts.Lists.{types_of};
    ghost use Rattle.dtype_types.specs.parts.Lookups.{variant_named, variant_types, variant_names, variant_tags};
    ghost use Rattle.dtype_types.specs.equality.Hashes.{counted_writes};
    ghost use Rattle.dtype_types.specs.tree.TreeOf.{tree, variants_of, variant_list, union_triples, shown};
    ghost use Rattle.dtype_types.specs.tree.Valid.{Valid, ValidVariants};

    /// Returns the union of these names, types and tags, in order.
    ///
    /// # Errors
    ///
    /// The call checks the following in this order, and returns the error of the first that applies:
    ///
    /// - `UnionTypesLength` (10): there are more or fewer types than names.
    /// - `UnionTagsLength` (11): there are more or fewer tags than names.
    /// - `UnionEmpty` (12): there are no names.
    /// - `UnionTagsRepeat` (13): a tag occurs twice.
    /// - `UnionNamesRepeat` (15): a name occurs twice.
    ///
    /// If none of the first three applies, the call may instead return:
    ///
    /// - `OutOfMemory` (0): an allocation fails.
    pub fn try_new(
        alloc: Global,
        names: FieldNames,
        dtypes: Vec<DType>,
        type_ids: Vec<u8>,
    ) -> VortexResult<Self>
        ensures variants { IfOk result
            (λ u. variant_list u ≡ zip names (zip (map tree dtypes.items) type_ids.items)) }
        ensures valid { All (λ d. Valid (tree d)) dtypes.items → IfOk result (λ u. ValidVariants (variants_of u)) }

        ensures accepted { OnOk result (MakesUnion names (vec_len dtypes) type_ids.items) }
        ensures errors { IfErr result (λ e.
            ((e ≡ OutOfMemory) × HasUnionLengths names (vec_len dtypes) type_ids.items)
            ⊎ UnionError names (vec_len dtypes) type_ids.items e) }
    {
        validate_shape(alloc, &names, dtypes.len(), &type_ids)?;
        let shared = Rc::new(alloc, Tagged::new(names, dtypes, type_ids))?;
        Ok(UnionVariants { shared })
    }

    /// Returns the union of these names and types, in order, with the tags 0, 1, 2 and so on.
    ///
    /// # Errors
    ///
    /// The call checks the following in this order, and returns the error of the first that applies:
    ///
    /// - `UnionTooMany` (14): there are more than 256 names.
    /// - `UnionTypesLength` (10): there are more or fewer types than names.
    /// - `UnionEmpty` (12): there are no names.
    /// - `UnionNamesRepeat` (15): a name occurs twice.
    ///
    /// If there are at most 256 names, the call may instead return:
    ///
    /// - `OutOfMemory` (0): an allocation fails.
    pub fn new(alloc: Global, names: FieldNames, dtypes: Vec<DType>) -> VortexResult<Self>
        ensures variants { IfOk result (λ u. variant_list u
            ≡ zip names (zip (map tree dtypes.items) (range_with_len 0 (length names)))) }
        ensures valid { All (λ d. Valid (tree d)) dtypes.items → IfOk result (λ u. ValidVariants (variants_of u)) }

        ensures accepted { OnOk result
            (MakesUnion names (vec_len dtypes) (range_with_len 0 (length names))) }
        ensures too_many { (result ≡ Err UnionTooMany) ↔ (256 < length names) }
        ensures errors { length names ≤ 256 → IfErr result (λ e. (e ≡ OutOfMemory)
            ⊎ UnionError names (vec_len dtypes) (range_with_len 0 (length names)) e) }
    {
        if names.len() > MAX_VARIANTS {
            return Err(VortexError::UnionTooMany);
        }
        let type_ids = first_tags(alloc, names.len())?;
        UnionVariants::try_new(alloc, names, dtypes, type_ids)
    }

    /// Returns the names of the variants, in order.
    #[tactic(auto, using(crate::proofs::Sides::triples, crate::proofs::Parts::variants))]
    pub fn names(&self) -> &FieldNames
        ensures { result.now ≡ variant_names (variant_list self.now) }
    {
        self.shared.names()
    }

    // The types, in order.
    fn dtypes(&self) -> &[DType]
        ensures { result.now ≡ types_of (union_triples self.now) }
    {
        self.shared.dtypes()
    }

    /// Returns an iterator over the variants, in order. For each variant it returns a reference to the name, the tag,
    /// and a reference to the type.
    #[tactic(auto, using(crate::proofs::Sides::three_sides, crate::proofs::Sides::triples, crate::proofs::Parts::variants))]
    pub fn triples(&self) -> VariantIter<'_>
        ensures lent { result ≡ union_triples self.now }
        ensures fits { length result < 2 ^ 64 }
    {
        VariantIter::new(
            self.shared.names().as_slice(),
            self.shared.dtypes(),
            self.shared.tags(),
        )
    }

    /// Returns the number of variants.
    pub fn len(&self) -> usize
        ensures { result ≡ length (variant_list self.now) }
    {
        self.shared.len()
    }

    /// Returns whether there are no variants. The result is `false` for every union that `try_new` or `new` returns.
    pub fn is_empty(&self) -> bool
        ensures { IsTrue result ↔ (variant_list self.now ≡ []) }
    {
        self.len() == 0
    }

    /// Returns the tags of the variants, in the order of the variants.
    #[tactic(auto, using(crate::proofs::Sides::triples, crate::proofs::Parts::variants))]
    pub fn type_ids(&self) -> &[u8]
        ensures { result.now ≡ variant_tags (variant_list self.now) }
    {
        self.shared.tags()
    }

    /// Returns the position of the variant with this name, or `None` if no variant has it.
    ///
    /// The call compares one name after another.
    pub fn find(&self, name: &str) -> Option<usize>
        ensures { result ≡ first_place (variant_names (variant_list self.now)) name.now }
    {
        self.names().find(name)
    }

    /// Returns the type of the variant with this name, or `None` if no variant has it.
    #[tactic(auto, using(crate::proofs::lemmas::Lookups::lookups))]
    pub fn variant(&self, name: &str) -> Option<&DType>
        ensures { shown tree result ≡ variant_named (variant_list self.now) name.now }
    {
        self.variant_by_index(self.find(name)?)
    }

    /// Returns the type of the variant at this position, or `None` if the position isn't below the number of variants.
    #[tactic(auto, using(crate::proofs::Parts::get_tree, crate::proofs::Parts::variant_types_shown))]
    pub fn variant_by_index(&self, index: usize) -> Option<&DType>
        ensures { shown tree result ≡ slice_get (variant_types (variant_list self.now)) index }
    {
        self.dtypes().get(index)
    }

    /// Returns an iterator over the types of the variants, in order. It returns a reference to each type.
    #[tactic(auto, using(crate::proofs::Sides::triples, crate::proofs::Parts::variants))]
    pub fn variants(&self) -> DTypeIter<'_>
        ensures all { map tree result ≡ variant_types (variant_list self.now) }
        ensures fits { length (map tree result) < 2 ^ 64 }
    {
        DTypeIter::new(self.dtypes())
    }

    /// Returns the position of the variant with this tag, or `None` if no variant has it. For example, in
    /// `union(int@5=i32, string@9=utf8)` the tag 9 is at position 1.
    #[tactic(auto, using(crate::proofs::lemmas::Tags::tag_is_at))]
    pub fn tag_to_child_index(&self, tag: u8) -> Option<usize>
        ensures first { result ≡ position (λ t. t == tag) (variant_tags (variant_list self.now)) }
        ensures there { IsSome result ↔ Contains (variant_tags (variant_list self.now)) tag }
        ensures at { IfSome result (λ i. slice_get (variant_tags (variant_list self.now)) i ≡ Some tag) }
    {
        self.position_of_tag(tag)
    }

    fn position_of_tag(&self, tag: u8) -> Option<usize>
        ensures { result ≡ position (λ t. t == tag) (variant_tags (variant_list self.now)) }
    {
        self.type_ids().iter().position(|t| *t == tag)
    }

    /// Returns the tag of the variant at this position. For example, in `union(int@5=i32, string@9=utf8)` the variant
    /// at position 1 has the tag 9. The caller must prove that the position is below the number of variants.
    pub fn child_index_to_tag(&self, index: usize) -> u8
        requires { index < length (variant_tags (variant_list self.now)) }
        ensures at { slice_get (variant_tags (variant_list self.now)) index ≡ Some result }
        ensures back { ValidVariants (variants_of self.now)
            → position (λ t. t == result) (variant_tags (variant_list self.now)) ≡ Some index }
    {
        self.type_ids()[index]
    }

    // Returns whether the tags and the names of the two are equal, and their types are equal under the rule.
    #[cycle(equal_under)]
    #[tactic(auto, using(crate::proofs::Alongside::same_variants))]
    pub(crate) fn equal_under(&self, other: &UnionVariants, rule: NullabilityRule) -> bool
        ensures { result ≡ items_equal_under rule (variants_of self.now) (variants_of other.now) }
    {
        if self.shared.tags() != other.shared.tags() {
            return false;
        }
        self.shared.names() == other.shared.names()
            && equal_dtypes(self.dtypes(), other.dtypes(), rule)
    }

    // Returns the bound of two unions that are equal except for nullabilities. It has the names and tags of this one.
    #[cycle(merge_under)]
    pub(crate) fn merge_under(
        &self,
        alloc: Global,
        other: &UnionVariants,
        rule: MergeRule,
    ) -> VortexResult<UnionVariants>
        requires { erase_items (variants_of self.now) ≡ erase_items (variants_of other.now) }
        ensures { Makes result (λ u. variants_of u ≡ merge_items (rule_of rule) (variants_of self.now) (variants_of other.now)) }
    {
        let dtypes = merge_dtypes(alloc, self.dtypes(), other.dtypes(), rule)?;
        let merged = self.shared.with_dtypes(alloc, dtypes)?;
        let shared = Rc::new(alloc, merged)?;
        Ok(UnionVariants { shared })
    }

    /// Returns whether the variants are equal if every nullability in their types, at any depth, is ignored. The names,
    /// the tags and the order of the variants are compared.
    #[tactic(auto, using(crate::proofs::KindLaws::erased_tests))]
    pub fn eq_ignore_nullability(&self, other: &UnionVariants) -> bool
        ensures { IsTrue result
            ↔ (erase_items (variants_of self.now) ≡ erase_items (variants_of other.now)) }
    {
        self.equal_under(other, NullabilityRule::Ignored)
    }

    // Hashes the number of variants, and each variant.
    #[cycle(hash)]
    pub(crate) fn hash_into<H: Hasher>(&self, mode: HashMode, state: &mut H)
        ensures { state.new ≡ fold H.write state.old (counted_writes mode (variants_of self.now)) }
    {
        state.write_usize(self.len());
        for (name, tag, dtype) in self.triples() {
            name.hash(state);
            hash_into(dtype, mode, state);
            state.write_u8(tag);
        }
    }

    /// Returns a copy of the variants, which shares the names, the types and the tags with the original.
    ///
    /// The call raises a reference count and doesn't allocate, so it doesn't use `_alloc`. The parameter is there so
    /// that the signature can stay the same if a later version has to allocate.
    ///
    /// # Errors
    ///
    /// - `OutOfMemory` (0): the reference count is at its maximum, so no further copy can be counted.
    pub fn try_clone(&self, _alloc: Global) -> VortexResult<Self>
        ensures { Makes result (λ u. union_triples u ≡ union_triples self.now) }
    {
        let shared = self.shared.clone()?;
        Ok(UnionVariants { shared })
    }

    /// Returns whether the tags are 0, 1, 2 and so on, in the order of the variants.
    pub fn is_consecutive(&self) -> bool
        ensures { IsTrue result ↔ AreConsecutive (variant_tags (variant_list self.now)) }
    {
        let tags = self.type_ids();
        tags.iter()
            .zip(0..tags.len())
            .all(|(tag, place)| usize::from(*tag) == place)
    }
}

#[tactic(auto, using(crate::proofs::lemmas::Equality::equality))]
impl PartialEq for UnionVariants {
    ghost use Rattle.dtype_types.specs.equality.Equality.{same_items_by};
    ghost use Rattle.dtype_types.specs.equality.EqualityLaws.{same_items_by_equiv};
    ghost use Rattle.dtype_types.specs.tree.TreeOf.{variant_list, variants_of};
    ghost use Rattle.std.specs.Cmp.{partial_equiv_from_equiv};

    ghost eq = { same_items_by variants_of };

    ghost laws = { partial_equiv_from_equiv (same_items_by_equiv variants_of) };

    fn eq(&self, other: &UnionVariants) -> bool
        ensures { IsTrue result ↔ (variant_list self.now ≡ variant_list other.now) }
    {
        self.equal_under(other, NullabilityRule::Compared)
    }
}

impl Eq for UnionVariants {
    ghost use Rattle.dtype_types.specs.tree.TreeOf.{variants_of};
    ghost use Rattle.dtype_types.specs.equality.EqualityLaws.{same_items_by_equiv};

    ghost laws = { same_items_by_equiv variants_of };
}

impl Hash for UnionVariants {
    ghost use Rattle.dtype_types.specs.tree.TreeOf.{variants_of};
    ghost use Rattle.dtype_types.specs.equality.HashLaws.{counted_writes_alike};
    ghost use Rattle.dtype_types.specs.equality.Hashes.{counted_writes};
    ghost use Rattle.dtype_types.specs.declared.dtype.hash.HashMode.TheVariants.{Whole};

    ghost hash_input = { λ x. counted_writes Whole (variants_of x) };

    ghost respects_eq = { counted_writes_alike variants_of };

    fn hash<H: Hasher>(&self, state: &mut H) {
        self.hash_into(HashMode::Whole, state);
    }
}

/// Writes the variants, each as its name, `=` and its type, for example `int=i32, string=utf8`. If the tags aren't 0,
/// 1, 2 and so on, each name is followed by `@` and its tag, for example `int@5=i32, string@9=utf8`.
impl fmt::Display for UnionVariants {
    ghost use Rattle.dtype_types.specs.texts.TextOf.{union_text};

    ghost output = { λ u. Some (union_text u) };

    #[cycle(text)]
    fn fmt<W: fmt::Write>(&self, f: &mut fmt::Formatter<W>) -> fmt::Result {
        let consecutive = self.is_consecutive();
        let mut separator = "";
        for (name, tag, dtype) in self.triples() {
            let tag = TagText { tag, consecutive };
            write!(f, "{separator}{name}{tag}=")?;
            dtype.fmt(f)?;
            separator = ", ";
        }
        Ok(())
    }
}

// The text of a tag: `@` and the tag, or nothing if the tags are 0, 1, 2 and so on.
#[derive(Clone, Copy)]
struct TagText {
    tag: u8,
    consecutive: bool,
}

impl fmt::Display for TagText {
    ghost use Rattle.dtype_types.specs.texts.Text.{tag_text};

    ghost output = { λ t. Some (tag_text t.consecutive t.tag) };

    fn fmt<W: fmt::Write>(&self, f: &mut fmt::Formatter<W>) -> fmt::Result {
        let tag = self.tag;
        if self.consecutive {
            write!(f, "")
        } else {
            write!(f, "@{tag}")
        }
    }
}
