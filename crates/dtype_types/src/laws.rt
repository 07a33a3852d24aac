// SPDX-License-Identifier: Apache-2.0
// SPDX-FileCopyrightText: Copyright the Vortex contributors

// Theorems about the definitions of types. The contract of each function is the theorem, and its body is empty. Further
// lemmas for callers are in the rulesets of `proofs/lemmas`.
#![tactic(auto, using(crate::proofs::TellLaws::type_laws))]

ghost use Rattle.std.specs.Prelude.{◌≡◌, ◌↔◌, ◌==◌, ◌<◌, ◌^◌, ◌++◌, ℕ, All, Bool, IsTrue, IsSomeAnd, List, None, Some, length, map, remove, slice_get};
ghost use Rattle.std.specs.Bool.{Decides};
ghost use Rattle.std.specs.List.{position};
ghost use Rattle.std.proofs.Math.Logic.{Equivalence};
ghost use Rattle.dtype_base.specs.declared.nullability.Nullability.{Nullability};
ghost use Rattle.dtype_base.specs.declared.nullability.Nullability.TheVariants.{NonNullable, Nullable};
ghost use Rattle.dtype_base.specs.Bytes.{Bytes};
ghost use Rattle.dtype_base.specs.declared.ptype.PType.{PType};
ghost use Rattle.dtype_types.specs.declared.dtype.kinds.Kind.{Kind};
ghost use Rattle.dtype_types.specs.tree.Erase.{erase};
ghost use Rattle.dtype_types.specs.equality.Hashes.{hash_writes_ignoring_nullability};
ghost use Rattle.dtype_types.specs.Laws.{GivesInOrder, IsOrder};
ghost use Rattle.dtype_types.specs.nullability.Nullable.{SetNull, nullability, IsNullable};
ghost use Rattle.dtype_types.specs.values.Sample.{sample};
ghost use Rattle.dtype_types.specs.nullability.Sub.{Sub};
ghost use Rattle.dtype_types.specs.values.Tell.{HasNoSizeZero, tell};
ghost use Rattle.dtype_types.specs.tree.Valid.{Valid, ValidItems, ValidMap, ValidVariants};
ghost use Rattle.dtype_types.specs.values.Value.{AddsNull, IncludedIn, Of, null_value};
ghost use Rattle.dtype_types.specs.parts.FieldTypes.{field_tree};
ghost use Rattle.dtype_types.specs.tree.Kinds.{any_size_list_element, extension_parts, fixed_size_list_element, list_element, map_parts, struct_fields, union_variants};
ghost use Rattle.dtype_types.specs.parts.Maps.{entries_of};
ghost use Rattle.dtype_types.specs.tree.Tree.{Tree, extension, fields, fixed_size_list, list, map_of, primitive, struct, union, variants};
ghost use Rattle.dtype_types.specs.tree.TreeOf.{children, variant_list, extension_id, extension_metadata, extension_tree, map_shown, storage_tree, struct_pairs, fields_of, tree, variants_of, union_triples};
ghost use Rattle.dtype_types.specs.parts.Lookups.{Projects, field_types, first_named, variant_names, variant_named, variant_tags, variant_types};
ghost use Rattle.dtype_types.specs.parts.Unions.{MakesUnion};
ghost use Rattle.dtype_types.specs.parts.Lists.{borrowed_pair, borrowed_triple};

use crate::{
    DType, DTypeIter, ExtDTypeRef, ExtId, FieldDType, FieldIter, Kind, MapDType, StructFields,
    UnionVariants, VariantIter,
};
use std::hash::Hash;

/// For all kinds `a` and `b`, `a == b` is true exactly if `a` and `b` are the same kind. For example, a caller that has
/// tested `dtype.kind() == Kind::Struct` needs this law to prove that the type is a struct, which `as_struct_fields`
/// requires.
///
/// About [`DType::kind`].
pub fn kinds_are_equal_where_the_same()
    ensures { (a b : Kind) → Decides (⟦<Kind as PartialEq>⟧.eq a b) (a ≡ b) }
{}

/// For all kinds `a` and `b`, if `b` is what `clone` returns for `a`, then `b` is the same kind as `a`. For example, a
/// clone of `Kind::List` is `Kind::List`. A caller that has proved something about a kind needs this law to prove the
/// same about a clone of it.
///
/// About [`Kind`].
pub fn clones_of_kinds_are_the_same()
    ensures { (a b : Kind) → ⟦<Kind as Clone>⟧.is_clone a b → b ≡ a }
{}

/// For all ids `a` and `b`, `a == b` is true exactly if the texts of the two ids have the same bytes. For example, the
/// ids `x.tag` and `X.tag` aren't equal. A caller that has compared an id by `==` needs this law to prove which text
/// the id has.
///
/// About [`ExtId`].
pub fn ids_are_equal_where_their_texts_are()
    ensures { (a b : List ℕ) → Decides (⟦<ExtId as PartialEq>⟧.eq a b) (a ≡ b) }
{}

/// For all types `a` and `b`, if `a == b` is true, then `hash` writes the same for `a` and for `b` to every hasher. For
/// example, it writes the same for two separately built types `list(i32)`. So types can be the keys of a hash map.
///
/// About [`DType`].
pub fn equality_agrees_with_hash()
    ensures { (a b : DType) → IsTrue (⟦<DType as PartialEq>⟧.eq a b)
        → ⟦<DType as Hash>⟧.hash_input a ≡ ⟦<DType as Hash>⟧.hash_input b }
{}

/// Two types `a` and `b` are equal except for nullabilities if they are equal once every nullability in them is erased
/// (`erase a ≡ erase b`). This law makes two statements about that relation:
/// - It is reflexive, symmetric and transitive.
/// - If `a` and `b` are equal except for nullabilities, then `hash_ignore_nullability` writes the same for `a` and for
///   `b` to every hasher.
///
/// For example, `hash_ignore_nullability` writes the same for `list(i32?)` and for `list(i32)?`. So a hash map can
/// treat types that differ only in nullabilities as the same key.
///
/// About [`DType::eq_ignore_nullability`] and [`DType::hash_ignore_nullability`].
pub fn equality_ignoring_nullability_agrees_with_its_hash()
    ensures equivalence { Equivalence (λ (a b : Tree). erase a ≡ erase b) }
    ensures hash { (a b : Tree) → erase a ≡ erase b
        → hash_writes_ignoring_nullability a ≡ hash_writes_ignoring_nullability b }
{}

/// `SetNull t n u` means that the type `u` is the type `t` with its outer nullability set to `n`. If it is so, then:
/// - The outer nullability of `u` is `n`.
/// - The types `u` and `t` are equal except for nullabilities.
/// - The last setting decides: if `u` is `t` set to `m`, then setting `u` to `n` makes the same type as setting `t` to
///   `n`.
///
/// For example, `i32` set to `Nullable` and then to `NonNullable` is `i32`. A caller needs this law to prove which type
/// it has after `with_nullability`.
///
/// About [`DType::with_nullability`].
#[tactic(auto, using(crate::proofs::lemmas::Nullabilities::set_is, crate::proofs::lemmas::Nullabilities::set_keeps, crate::proofs::lemmas::Nullabilities::set_again))]
pub fn nullability_is_set_alone()
    ensures sets { (t u : Tree) (n : Nullability) → SetNull t n u → nullability u ≡ n }
    ensures keeps { (t u : Tree) (n : Nullability) → SetNull t n u → erase u ≡ erase t }
    ensures last_decides { (t u v : Tree) (m n : Nullability)
        → SetNull t m u → (SetNull u n v ↔ SetNull t n v) }
{}

/// The constant `DType::BYTES`, which this law returns, is the non-nullable `u8`. For example, a list whose element
/// type is `DType::BYTES` is printed as `list(u8)`. A caller that builds a schema from the constant needs this law to
/// prove what the schema is.
///
/// About [`DType::BYTES`].
pub fn bytes_are_non_nullable_u8() -> DType
    ensures { tree result ≡ primitive PType.U8 NonNullable }
{
    DType::BYTES
}

/// For each valid union `u`, each position `i` and each tag `tag`: if the variant at the position `i` has the tag
/// `tag`, then `i` is the first position of `tag` among the tags. For example, in `union(int@5=i32, string@9=utf8)` the
/// variant at position 1 has the tag 9, and the first position of the tag 9 is 1. So `tag_to_child_index` returns
/// `Some(i)` for the tag that `child_index_to_tag` returns for `i`.
///
/// About [`UnionVariants::tag_to_child_index`] and [`UnionVariants::child_index_to_tag`].
#[tactic(auto, using(crate::proofs::lemmas::Tags::position_of_tag))]
pub fn tags_tell_positions()
    ensures { (u : UnionVariants) → ValidVariants (variants_of u) → (i tag : ℕ)
        → slice_get (variant_tags (variant_list u)) i ≡ Some tag
        → position (λ g. g == tag) (variant_tags (variant_list u)) ≡ Some i }
{}

/// For each valid type `t`, the value `sample t` is a value of `t`. For example, `sample` of `list(i32)` is the empty
/// list, and `sample` of `i32?` is null. So each valid type has a value, and a statement about all values of a valid
/// type, such as `values_of_what_is_below_are_values`, is never true merely because there is no value.
///
/// About [`DType::eq_with_nullability_subset`].
pub fn samples_are_values()
    ensures { (t : Tree) → Valid t → Of (sample t) t }
{}

/// For each type `t`, null is a value of `t` exactly if the outer nullability of `t` is `Nullable`. For example, null
/// is a value of `list(i32)?` and not of `list(i32?)`. So `is_nullable` tells a reader whether a column can contain
/// nulls.
///
/// About [`DType::is_nullable`].
pub fn null_is_a_value_of_nullable_types()
    ensures { (t : Tree) → Of null_value t ↔ IsNullable t }
{}

/// For all types `t` and `u`, if `u` is `t` with its outer nullability set to `Nullable`, then the values of `u` are
/// the values of `t` and null. For example, the values of `bool?` are true, false and null. So a column of type `t` may
/// be read as a column of type `u`.
///
/// About [`DType::as_nullable`].
pub fn nullable_types_have_null_besides()
    ensures { (t u : Tree) → SetNull t Nullable u
        → AddsNull t u }
{}

/// `Sub`, the relation that `eq_with_nullability_subset` tests, is a partial order. That is, for all types `a`, `b` and
/// `c`:
/// - `a` is a subset of `a`.
/// - If `a` is a subset of `b`, and `b` is a subset of `c`, then `a` is a subset of `c`.
/// - If `a` is a subset of `b`, and `b` is a subset of `a`, then `a` and `b` are equal.
///
/// For example, `i32` is a subset of `i32?`, and `i32?` isn't a subset of `i32`. So a caller that knows that `a` is a
/// subset of `b` and that `b` is a subset of `c` needn't compare `a` with `c`.
///
/// About [`DType::eq_with_nullability_subset`].
pub fn sub_is_an_order()
    ensures { IsOrder Sub }
{}

/// For all types `a` and `b`, if `a` is a subset of `b` (`Sub a b`), then each value of `a` is a value of `b`. For
/// example, each value of `list(i32)` is a value of `list(i32?)?`. So a column of type `a` may be used where one of
/// type `b` is required.
///
/// About [`DType::eq_with_nullability_subset`].
pub fn values_of_what_is_below_are_values()
    ensures { (a b : Tree) → Sub a b → IncludedIn a b }
{}

/// Take two types `a` and `b` that are equal except for nullabilities, such that `a` is valid and contains no
/// fixed-size list of size 0. Then `a` is a subset of `b` exactly if each value of `a` is a value of `b`. For example,
/// `i32?` isn't a subset of `i32`, and null is a value of `i32?` and not of `i32`. So for such types
/// `a.eq_with_nullability_subset(b)` returns `true` exactly if a column of type `a` may be used as a column of type
/// `b`.
///
/// The law needs the condition about size 0. For example, `fixed_size_list(i32?)[0]` isn't a subset of
/// `fixed_size_list(i32)[0]`, although the only value of the first type, the empty list, is a value of the second.
///
/// About [`DType::eq_with_nullability_subset`].
#[tactic(auto, using(crate::proofs::lemmas::SubValues::sub_values, crate::proofs::TellLaws::included_is_sub))]
pub fn the_order_is_inclusion_of_values()
    ensures { (a b : Tree) → Valid a → HasNoSizeZero a → erase a ≡ erase b
        → (Sub a b ↔ IncludedIn a b) }
{}

/// Take two types `a` and `b` that are equal except for nullabilities, such that `a` is valid and contains no
/// fixed-size list of size 0. If `a` isn't a subset of `b`, then `tell a b` is `Some` of a value of `a` that isn't a
/// value of `b`. For example, `tell` of `list(i32?)` and `list(i32)` is `Some` of the list that contains one null. So a
/// program that refuses a column of type `a` can show a value because of which it does so.
///
/// About [`DType::eq_with_nullability_subset`].
#[tactic(auto, using(crate::proofs::TellLaws::tells_apart))]
pub fn tell_tells_apart()
    ensures { (a b : Tree) → Valid a → HasNoSizeZero a → erase a ≡ erase b
        → ¬ (Sub a b) → IsSomeAnd (tell a b) (λ v. Of v a × ¬ (Of v b)) }
{}

/// For all types `a` and `b` that are equal except for nullabilities, `tell a b` is `None` exactly if `a` is a subset
/// of `b`. For example, `tell` of `i32` and `i32?` is `None`, and `tell` of `i32?` and `i32` is `Some` of null. So
/// `tell` returns a value exactly if `eq_with_nullability_subset` returns `false`.
///
/// Unlike `tell_tells_apart`, this law has no condition about fixed-size lists of size 0 or about validity. In return,
/// it doesn't state that the value belongs to `a` and not to `b`.
///
/// About [`DType::eq_with_nullability_subset`].
#[tactic(auto, using(crate::proofs::TellLaws::told_exactly))]
pub fn tell_gives_exactly_where_not_below()
    ensures { (a b : Tree) → erase a ≡ erase b → ((tell a b ≡ None) ↔ Sub a b) }
{}

/// The iterators over types, over fields and over variants return all items that are left, in order, and then `None`.
/// For example, the iterator over the fields of `{a=i32, b=utf8}` returns `a` with `i32`, then `b` with `utf8`, then
/// `None`. A caller needs this law to prove which fields a `for` loop visits.
///
/// About [`StructFields::pairs`], [`StructFields::fields`], [`StructFields::field_dtypes`], [`UnionVariants::triples`]
/// and [`UnionVariants::variants`].
pub fn parts_are_given_in_order()
    ensures types { GivesInOrder ⟦<DTypeIter<'static> as Iterator>⟧.next_gives
        ⟦<DTypeIter<'static> as Iterator>⟧.remaining (λ d. tree d.now) (map tree) }
    ensures fields { GivesInOrder ⟦<FieldIter<'static> as Iterator>⟧.next_gives
        ⟦<FieldIter<'static> as Iterator>⟧.remaining borrowed_pair (λ left. left) }
    ensures variants { GivesInOrder ⟦<VariantIter<'static> as Iterator>⟧.next_gives
        ⟦<VariantIter<'static> as Iterator>⟧.remaining borrowed_triple (λ left. left) }
{}

/// A type that is made from valid types is valid. There is one statement for each of these:
/// - primitive types
/// - lists
/// - fixed-size lists whose size is below 2^32
/// - maps whose key type is non-nullable
/// - the type of the entries of a map
/// - structs
/// - unions whose names, types and tags `UnionVariants::try_new` accepts
/// - extensions whose metadata is bytes
///
/// For example, if `t` is valid, then `list(t)?` is valid. A caller that builds a type needs this law because many
/// contracts guarantee something only for valid types.
///
/// About [`DType::list`], [`DType::map`] and [`DType::struct_`].
#[tactic(auto, using(crate::proofs::lemmas::ValidLists::valid_struct_of, crate::proofs::lemmas::ValidLists::listed_variants, crate::proofs::lemmas::ValidLists::valid_variants, crate::proofs::lemmas::Validity::entries_valid))]
pub fn types_made_of_valid_types_are_valid()
    ensures primitives { (p : PType) (n : Nullability) → Valid (primitive p n) }
    ensures lists { (t : Tree) (n : Nullability) → Valid t → Valid (list t n) }
    ensures fixed_size_lists { (t : Tree) (size : ℕ) (n : Nullability) → size < 2 ^ 32 → Valid t
        → Valid (fixed_size_list t size n) }
    ensures maps { (key value : Tree) (sorted : Bool) (n : Nullability) → nullability key ≡ NonNullable
        → Valid key → Valid value → Valid (map_of key value sorted n) }
    ensures entries { (key value : Tree) → Valid key → Valid value → Valid (entries_of key value) }
    ensures structs { (fs : List (List ℕ × Tree)) (n : Nullability) → All Valid (field_types fs)
        → Valid (struct (fields fs) n) }
    ensures unions { (vs : List (List ℕ × (Tree × ℕ))) (n : Nullability)
        → MakesUnion (variant_names vs) (length vs) (variant_tags vs) → Bytes (variant_tags vs)
        → All Valid (variant_types vs) → Valid (union (variants vs) n) }
    ensures extensions { (id metadata : List ℕ) (t : Tree) → Bytes metadata → Valid t
        → Valid (extension id metadata t) }
{}

/// For all types `t` and `u`, if `u` is `t` with its outer nullability set to some `n`, then `t` is valid exactly if
/// `u` is valid. For example, `list(decimal(5,2))` and `list(decimal(5,2))?` are both valid. So what contracts
/// guarantee for valid types is also guaranteed for the type that `with_nullability` returns for a valid type.
///
/// About [`DType::with_nullability`].
pub fn setting_a_nullability_keeps_validity()
    ensures { (t u : Tree) (n : Nullability) → SetNull t n u → (Valid t ↔ Valid u) }
{}

/// A copy of something valid is valid. There is one statement for each of these: a type, the fields of a struct, the
/// variants of a union, the parts of a map, an extension, and the type of a field. For example, what `try_clone`
/// returns for the valid type `list(utf8)` is valid. So what contracts guarantee for valid types is also guaranteed for
/// copies of them.
///
/// About [`DType::try_clone`].
pub fn copies_of_valid_types_are_valid()
    ensures types { (d copy : DType) → tree copy ≡ tree d → Valid (tree d) → Valid (tree copy) }
    ensures structs { (s copy : StructFields) → struct_pairs copy ≡ struct_pairs s → ValidItems (fields_of s)
        → ValidItems (fields_of copy) }
    ensures unions { (u copy : UnionVariants) → union_triples copy ≡ union_triples u → ValidVariants (variants_of u)
        → ValidVariants (variants_of copy) }
    ensures maps { (m copy : MapDType) → map_shown copy ≡ map_shown m → ValidMap (map_shown m)
        → ValidMap (map_shown copy) }
    ensures extensions { (e copy : ExtDTypeRef) → extension_tree copy ≡ extension_tree e
        → Valid (extension_tree e) → Valid (extension_tree copy) }
    ensures field_types { (f copy : FieldDType) → field_tree copy ≡ field_tree f → Valid (field_tree f)
        → Valid (field_tree copy) }
{}

/// For each valid type, the part of it that an `as_.._opt` or `into_.._opt` call returns is valid: the element type of
/// a list, the parts of a map, the fields of a struct, the variants of a union, and an extension. For example, if
/// `list(t)` is valid, then `t` is valid. So a function that descends into a valid type knows that the types in it are
/// valid.
///
/// About [`StructFields::field`] and [`UnionVariants::variant`].
#[tactic(auto, using(crate::proofs::lemmas::ValidParts::valid_parts))]
pub fn parts_of_a_valid_type_are_valid()
    ensures list_element { (t u : Tree) → list_element t ≡ Some u → Valid t → Valid u }
    ensures fixed_size_list_element { (t u : Tree) → fixed_size_list_element t ≡ Some u → Valid t → Valid u }
    ensures any_size_list_element { (t u : Tree) → any_size_list_element t ≡ Some u → Valid t → Valid u }
    ensures map_parts { (t : Tree) (m : MapDType) → map_parts t ≡ Some (map_shown m) → Valid t → ValidMap (map_shown m) }
    ensures struct_fields { (t : Tree) (s : StructFields) → struct_fields t ≡ Some (children s) → Valid t
        → ValidItems (fields_of s) }
    ensures union_variants { (t : Tree) (u : UnionVariants) → union_variants t ≡ Some (variant_list u) → Valid t
        → ValidVariants (variants_of u) }
    ensures extension_parts { (t : Tree) (e : ExtDTypeRef)
        → extension_parts t ≡ Some (extension_id e, extension_metadata e, storage_tree e) → Valid t
        → Valid (extension_tree e) }
{}

/// Each type in the fields of a valid struct, in the variants of a valid union, in a valid map or in a valid extension
/// is valid. For example, if `{a=t, b=u}` is valid, then the type `t` of its field `a` is valid. There are separate
/// statements for each of these:
/// - a field or a variant at a position
/// - a field or a variant that is found by its name
/// - all fields of a struct, and all variants of a union
/// - the key type and the value type of a map
/// - the storage type of an extension
///
/// A caller that has found a field or a variant needs this law to prove that its type is valid.
///
/// About [`StructFields::field_by_index`] and [`UnionVariants::variant_by_index`].
#[tactic(auto, using(crate::proofs::lemmas::Validity::types_in_valid_parts))]
pub fn types_in_valid_parts_are_valid()
    ensures field_at { (s : StructFields) (i : ℕ) (t : Tree) → slice_get (field_types (children s)) i ≡ Some t
        → ValidItems (fields_of s) → Valid t }
    ensures field_named { (s : StructFields) (name : List ℕ) (t : Tree) → first_named (children s) name ≡ Some t
        → ValidItems (fields_of s) → Valid t }
    ensures fields { (s : StructFields) → ValidItems (fields_of s)
        → All Valid (field_types (children s)) × All (λ p. Valid (tree p.1)) (struct_pairs s) }
    ensures variant_at { (u : UnionVariants) (i : ℕ) (t : Tree) → slice_get (variant_types (variant_list u)) i ≡ Some t
        → ValidVariants (variants_of u) → Valid t }
    ensures variant_named { (u : UnionVariants) (name : List ℕ) (t : Tree)
        → variant_named (variant_list u) name ≡ Some t → ValidVariants (variants_of u) → Valid t }
    ensures variants { (u : UnionVariants) → ValidVariants (variants_of u)
        → All Valid (variant_types (variant_list u)) × All (λ p. Valid (tree p.1.0)) (union_triples u) }
    ensures map_parts { (m : MapDType) → ValidMap (map_shown m) → Valid (map_shown m).0 × Valid (map_shown m).1 }
    ensures storage { (e : ExtDTypeRef) → Valid (extension_tree e) → Valid (storage_tree e) }
{}

/// A struct that is made from valid structs is valid. There is one statement for each of these:
/// - what `project` returns for a valid struct
/// - what `disjoint_merge` returns for two valid structs
/// - what `without_field` returns for a valid struct
///
/// For example, if `{a=t, b=u}` is valid, then `{b=u}` is valid. So what contracts guarantee for valid structs is also
/// guaranteed for these results.
///
/// About [`StructFields::project`].
#[tactic(auto, using(crate::proofs::lemmas::Validity::removal_valid, crate::proofs::lemmas::Validity::valid_joined, crate::proofs::lemmas::Validity::valid_projected))]
pub fn selections_of_valid_fields_are_valid()
    ensures projected { (s projection : StructFields) (names : List (List ℕ))
        → Projects (children s) names (children projection) → ValidItems (fields_of s)
        → ValidItems (fields_of projection) }
    ensures merged { (s t both : StructFields) → children both ≡ children s ++ children t → ValidItems (fields_of s)
        → ValidItems (fields_of t) → ValidItems (fields_of both) }
    ensures without { (s rest : StructFields) (i : ℕ) → children rest ≡ remove (children s) i
        → ValidItems (fields_of s) → ValidItems (fields_of rest) }
{}
