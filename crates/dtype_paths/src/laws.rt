// SPDX-License-Identifier: Apache-2.0
// SPDX-FileCopyrightText: Copyright the Vortex contributors

// Theorems about the definitions of paths. Each function's contract is the theorem, and its body is empty.
ghost use Rattle.std.specs.Prelude.{◌≡◌, ◌↔◌, ◌||◌, IsTrue, List, Some, ◌++◌, false, length};
ghost use Rattle.std.specs.FinSet as set;
ghost use Rattle.dtype_paths.specs.PathOrder.{PathSet, set_of};
ghost use Rattle.dtype_paths.specs.PathPredicates.{PathPredicate, after_steps, contains_above};
ghost use Rattle.std.specs.List.{Any, Contains, starts_with};
ghost use Rattle.dtype_base.specs.Distinct.{Distinct};
ghost use Rattle.dtype_types.specs.Laws.{GivesInOrder};
ghost use Rattle.dtype_types.specs.tree.Tree.{Tree};
ghost use Rattle.dtype_types.specs.tree.Valid.{Valid};
ghost use Rattle.dtype_types.specs.values.Value.{Of, Value};
ghost use Rattle.dtype_paths.specs.Around.{around};
ghost use Rattle.dtype_paths.specs.Along.{along};
ghost use Rattle.dtype_paths.specs.At.{At, ExistsIn};
ghost use Rattle.dtype_paths.specs.Beginning.{Beginning};
ghost use Rattle.dtype_paths.specs.Overlaps.{Overlaps};
ghost use Rattle.dtype_paths.specs.Covering.{SameCoverage, covers, least};
ghost use Rattle.dtype_paths.specs.Found.{Found, FoundIn};
ghost use Rattle.dtype_paths.specs.Unresolved.{unresolved};
ghost use Rattle.dtype_paths.specs.Crosses.{CrossesNoExtension, CrossesNoSizeZero};
ghost use Rattle.dtype_paths.specs.Cursors.{borrowed_below, names_left};
ghost use Rattle.dtype_paths.specs.declared.field.Field.{Field};
ghost use Rattle.dtype_paths.specs.declared.field_path_cursor.FieldPathCursor.{FieldPathCursor};

use crate::{CursorNames, FieldPath};
use std::hash::Hash;

/// For all types `t` and `u` and all paths `p` and `q`: the type at the path `p` followed by `q` in `t` is `u` exactly
/// if there is a type `x` at `p` in `t`, and the type at `q` in `x` is `u`. For example, let `t` be
/// `{a=list({b=u32})}`. The type at `a.[]` in `t` is `{b=u32}`, the type at `b` in `{b=u32}` is `u32`, and so is the
/// type at `a.[].b` in `t`. So a path can be resolved in two parts.
///
/// About [`FieldPath::resolve`].
#[tactic(auto, using(crate::proofs::lemmas::Stepping::at_joined))]
pub fn along_joined()
    ensures { (t u : Tree) (p q : List Field) → At t (p ++ q) u ↔ ((x : Tree) × At t p x × At x q u) }
{}

/// For each type `t` and all paths `p` and `q`, if `p` is a prefix of `q`, and `q` exists in `t`, then `p` exists in
/// `t`. For example, if `a.[].b` exists in a type, then so does `a.[]`. So if `resolve` returns `None` for a path, it
/// returns `None` for every longer path that begins with that path.
///
/// About [`FieldPath::exists_in`].
#[tactic(auto, using(crate::proofs::lemmas::Stepping::beginning_exists_in))]
pub fn beginnings_exist()
    ensures { (t : Tree) (p q : List Field) → Beginning p q → ExistsIn t q → ExistsIn t p }
{}

/// For all types `t` and `u` and each path `p`, if `t` is valid, and the type at `p` in `t` is `u`, then `u` is valid.
/// For example, if `{a=list(u)}` is valid, then the type `u` at `a.[]` is valid. So what contracts guarantee for valid
/// types is also guaranteed for the type that `resolve` returns for a valid type.
///
/// About [`FieldPath::resolve`].
#[tactic(auto, using(crate::proofs::lemmas::Stepping::valid_along))]
pub fn a_path_leads_to_a_valid_type()
    ensures { (t u : Tree) (p : List Field) → Valid t → At t p u → Valid u }
{}

/// Under the conditions below, the type at a path has exactly the values that lie along the path. In the seven
/// statements below, `t` and `u` are types, `p` is a path, and `v` is a value.
///
/// A value lies along `p` in another value if the steps of `p`, taken in that other value, reach it. For example, 7
/// lies along `a.[]` in `{a=[5, 7]}`. If there is a type at `p` in `t`, then `around t p v` is `v` with a struct, a
/// list of one element or a fixed-size list of equal elements around it for each step of `p`. All other fields of these
/// structs have sample values. For example, for the type `{a=list(i32)}`, the path `a.[]` and the value 7 it is
/// `{a=[7]}`.
///
/// - `given`: `along`, the function that `resolve` computes, agrees with the relation `At`. That is, `along t p` is
///   `Some u` exactly if `u` is the type at `p` in `t`.
/// - `exact`: if `u` is the type at `p` in `t`, `t` is valid, and `p` steps through no fixed-size list of size 0, then
///   `v` is a value of `u` exactly if `v` lies along `p` in some value of `t`.
/// - `made`: if `u` is the type at `p` in `t`, `t` is valid, and `v` is a value of `u`, then `around t p v` is a value
///   of `t`.
/// - `around`: if `u` is the type at `p` in `t`, and `p` steps through no fixed-size list of size 0, then `v` lies
///   along `p` in `around t p v`.
/// - `inside`: if `u` is the type at `p` in `t`, then each value that lies along `p` in some value of `t` is a value of
///   `u`.
/// - `size_zero`: the statement `exact` isn't true without its condition about size 0. There are a valid type, a path,
///   and a value of the type at that path, such that the value lies along the path in no value of the whole type. For
///   example, 5 is a value of the type at `[]` in `fixed_size_list(i32)[0]`, but the only list of that type is empty.
/// - `nothing`: if there is no type at `p` in `t`, and no prefix of `p` leads to an extension, then no value lies along
///   `p` in any value of `t`.
///
/// With this law a program that resolves a path to a type knows that the values that it finds along the path are
/// exactly the values of that type.
///
/// About [`FieldPath::resolve`].
#[tactic(auto, using(crate::proofs::Exact::exact, crate::proofs::Exact::around_of, crate::proofs::Exact::found_around, crate::proofs::Exact::found_in_of))]
pub fn resolution_is_exact_for_values()
    ensures given { (t u : Tree) (p : List Field) → (along t p ≡ Some u) ↔ At t p u }
    ensures exact { (t : Tree) (p : List Field) (u : Tree) (v : Value) → Valid t → CrossesNoSizeZero t p
        → At t p u → (Of v u ↔ FoundIn t p v) }
    ensures made { (t : Tree) (p : List Field) (u : Tree) (v : Value) → Valid t → At t p u → Of v u
        → Of (around t p v) t }
    ensures around { (t : Tree) (p : List Field) (u : Tree) (v : Value) → CrossesNoSizeZero t p → At t p u
        → Found (around t p v) p v }
    ensures inside { (t : Tree) (p : List Field) (u : Tree) (v : Value) → At t p u → FoundIn t p v → Of v u }
    ensures size_zero { (t : Tree) × (p : List Field) × (u : Tree) × (v : Value) × Valid t × At t p u
        × Of v u × ¬ (FoundIn t p v) }
    ensures nothing { (t : Tree) (p : List Field) → ((u : Tree) → ¬ (At t p u)) → CrossesNoExtension t p
        → (v : Value) → ¬ (FoundIn t p v) }
{}

/// Take a valid type `t` and a path `p` that steps through no fixed-size list of size 0. Then:
/// - If there is a type at `p` in `t`, then some value lies along `p` in some value of `t`.
/// - If no prefix of `p` leads to an extension, then `p` exists in `t` exactly if some value lies along `p` in some
///   value of `t`.
///
/// For example, in values of `{a=i32}` values lie along `a`, and none lie along `b`. So `exists_in` tells a program
/// whether there can be data at a path.
///
/// About [`FieldPath::exists_in`].
#[tactic(auto, using(crate::proofs::Exact::exists_where_found, crate::proofs::Exact::some_found))]
pub fn a_type_is_given_exactly_where_something_is_found()
    ensures exists { (t : Tree) (p : List Field) → Valid t → CrossesNoSizeZero t p → CrossesNoExtension t p
        → (ExistsIn t p ↔ ((v : Value) × FoundIn t p v)) }
    ensures found { (t : Tree) (p : List Field) (u : Tree) → Valid t → CrossesNoSizeZero t p → At t p u
        → ((v : Value) × FoundIn t p v) }
{}

/// Two paths `p` and `q` overlap (one of the two is a prefix of the other) exactly if both are prefixes of one path
/// `r`. For example, `a` and `a.b` overlap, because both are prefixes of `a.b`. The paths `a.b` and `a.c` don't
/// overlap. So two readers whose paths don't overlap never read the same part of a value.
///
/// About [`FieldPath::overlap`].
pub fn paths_overlap_where_some_path_extends_both()
    ensures { (p q : List Field) → Overlaps p q ↔ ((r : List Field) × Beginning p r × Beginning q r) }
{}

/// For all paths `p` and `q`, if `p` overlaps `q`, then `q` overlaps `p`. For example, `a` overlaps `a.b`, and `a.b`
/// overlaps `a`. So a caller may pass two paths to `overlap` in either order.
///
/// About [`FieldPath::overlap`].
#[tactic(auto, using(crate::proofs::OverlapLaws::overlaps_symmetric))]
pub fn overlap_is_symmetric()
    ensures { (p q : List Field) → Overlaps p q → Overlaps q p }
{}

/// Overlapping isn't transitive: there are paths `p`, `q` and `r` such that `p` overlaps `q`, and `q` overlaps `r`, but
/// `p` doesn't overlap `r`. For example, `a` overlaps the root, and the root overlaps `b`, but `a` doesn't overlap `b`.
/// So paths can't be divided into groups such that two paths overlap exactly if they are in the same group.
///
/// About [`FieldPath::overlap`].
#[tactic(auto, using(crate::proofs::OverlapLaws::overlap_not_transitive))]
pub fn overlap_is_not_transitive()
    ensures { (p q r : List Field) × Overlaps p q × Overlaps q r × (Overlaps p r → ⊥) }
{}

/// For all steps `f` and `g`, if `f == g` is true, then `hash` writes the same for `f` and for `g` to every hasher. For
/// all paths `p` and `q`, if `p == q` is true, then `hash` writes the same for `p` and for `q`. For example, it writes
/// the same for two separately built paths `a.b`. So steps and paths can be the keys of a hash map.
///
/// About [`Field`] and [`FieldPath`].
#[tactic(auto, using(crate::proofs::MaskLaws::paths_write_alike))]
pub fn equality_agrees_with_hash()
    ensures fields { (f g : Field) → IsTrue (⟦<crate::Field as PartialEq>⟧.eq f g)
        → ⟦<crate::Field as Hash>⟧.hash_input f ≡ ⟦<crate::Field as Hash>⟧.hash_input g }
    ensures paths { (p q : List Field) → IsTrue (⟦<FieldPath as PartialEq>⟧.eq p q)
        → ⟦<FieldPath as Hash>⟧.hash_input p ≡ ⟦<FieldPath as Hash>⟧.hash_input q }
{}

/// For each set `s` of paths:
/// - The set covers a path `q` exactly if some path of `s` is a prefix of `q`.
/// - A path is one of the least paths of `s` exactly if it is in `s`, and no other path of `s` is a prefix of it.
///
/// For example, the set of `a` and `a.b` covers `a.c`, and its only least path is `a`. A caller needs this law to
/// replace the definitions `covers` and `least` by statements about single paths.
///
/// About [`FieldPathSet::into_iter`].
#[tactic(auto, using(crate::proofs::lemmas::SetCovers::covers_word, crate::proofs::lemmas::SetCovers::least_word))]
pub fn what_covers_and_least_say()
    ensures covers { (s : PathSet) (q : List Field) → IsTrue (covers s q)
        ↔ ((p : List Field) × IsTrue (set.contains s p) × Beginning p q) }
    ensures least { (s : PathSet) (p : List Field) → IsTrue (set.contains (least s) p)
        ↔ (IsTrue (set.contains s p) × ((q : List Field) → IsTrue (set.contains s q) → Beginning q p → q ≡ p)) }
{}

/// For each set `s` of paths, each type `t` and each path `p`, `p` is in `unresolved s t` exactly if `p` is in `s` and
/// doesn't exist in `t`. For example, if `s` is the set of `a` and `b.c`, and `t` is `{a=i32, b=utf8}`, then only `b.c`
/// is in `unresolved s t`. A caller needs this law to replace the definition `unresolved` by a statement about single
/// paths.
///
/// About [`FieldPathSet::unresolved`].
#[tactic(auto, using(crate::proofs::lemmas::Unresolved::unresolved_word))]
pub fn what_unresolved_says()
    ensures { (s : PathSet) (t : Tree) (p : List Field) → IsTrue (set.contains (unresolved s t) p)
        ↔ (IsTrue (set.contains s p) × ¬ (ExistsIn t p)) }
{}

/// Two sets `s` and `t` of paths have the same least paths exactly if they cover the same paths. For example, the set
/// of `a` and `a.b` covers the same paths as the set of `a`, and the only least path of both is `a`. So two queries can
/// be compared by their least paths.
///
/// About [`FieldPathSet::into_iter`].
#[tactic(auto, using(crate::proofs::lemmas::SetCovers::least_tells_coverage, crate::proofs::lemmas::SetCovers::least_same))]
pub fn least_paths_tell_the_coverage()
    ensures { (s t : PathSet) → (least s ≡ least t) ↔ SameCoverage s t }
{}

/// For each set `s` of paths:
/// - The least paths of `s` cover exactly the paths that `s` covers.
/// - Taking the least paths twice makes no difference: the least paths of the set of the least paths of `s` are the
///   least paths of `s`.
/// - Each least path of `s` is in every set that covers exactly the paths that `s` covers.
///
/// For example, the only least path of the set of `a` and `a.b` is `a`, and `a` is in every set that covers the same
/// paths. So no set with fewer paths covers the same paths.
///
/// About [`FieldPathSet::into_iter`].
#[tactic(auto, using(crate::proofs::lemmas::SetCovers::covers_least, crate::proofs::lemmas::SetCovers::least_least, crate::proofs::lemmas::SetCovers::least_in))]
pub fn a_cover_is_its_own_cover()
    ensures coverage { (s : PathSet) → SameCoverage (least s) s }
    ensures least { (s : PathSet) → least (least s) ≡ least s }
    ensures within { (s t : PathSet) (p : List Field) → SameCoverage s t → IsTrue (set.contains (least s) p)
        → IsTrue (set.contains t p) }
{}

/// For each set `s` of paths and each path `q` that `s` covers, exactly one of the least paths of `s` is a prefix of
/// `q`. For example, if the least paths are `a` and `x`, then only `a` is a prefix of `a.b.c`. So a reader that opens
/// the least paths reads nothing twice.
///
/// About [`FieldPathSet::into_iter`].
#[tactic(auto, using(crate::proofs::lemmas::SetCovers::least_begins))]
pub fn a_cover_has_one_beginning_of_each_covered_path()
    ensures some { (s : PathSet) (q : List Field) → IsTrue (covers s q)
        → ((p : List Field) × IsTrue (set.contains (least s) p) × Beginning p q) }
    ensures once { (s : PathSet) (p r q : List Field) → IsTrue (set.contains (least s) p)
        → IsTrue (set.contains (least s) r) → Beginning p q → Beginning r q → p ≡ r }
{}

/// For each slice `paths` of paths and each path `path`, the set of the paths in `paths` covers `path` exactly if
/// `path` starts with one of them. For example, the set of `a` and `x` covers `a.b`, because `a.b` starts with `a`. A
/// caller that tests this by `any` and `starts_with` over a slice needs this law to prove that the path is covered.
///
/// About [`FieldPathSet::contains`] and [`FieldPathSet::into_iter`].
#[tactic(auto, using(crate::proofs::lemmas::SetCovers::covers_any))]
pub fn a_path_is_covered_where_it_starts_with_one(paths: &[FieldPath], path: &FieldPath)
    ensures { IsTrue (covers (set_of paths.now) path.now)
        ↔ Any (λ p. IsTrue (starts_with ⟦<crate::Field as PartialEq>⟧.eq path.now p)) paths.now }
{}

/// For each list `ps` of paths and each path `q`, `q` is in the list exactly if `q` is in the set of the paths of the
/// list. For example, `a` is in the list `a, b, a` and in the set of `a` and `b`. A caller needs this law because a
/// loop visits a list, but the contracts of `iter` and `into_iter` specify which set the returned paths form.
///
/// About [`FieldPathSet::iter`].
#[tactic(auto, using(crate::proofs::lemmas::SetMembers::listed))]
pub fn a_list_has_the_members_of_its_set()
    ensures { (ps : List (List Field)) (s : PathSet) (q : List Field) → set_of ps ≡ s
        → (Contains ps q ↔ IsTrue (set.contains s q)) }
{}

/// What it means that two sets are compared. In the five statements below, `s` and `t` are sets of paths, `q` is a
/// path, and `ps` is a list of paths.
///
/// - `subset`: `s` is a subset of `t` exactly if each path of `s` is in `t`.
/// - `disjoint`: the paths that are in both sets are none exactly if no path of `s` is in `t`.
/// - `equal`: `s` and `t` are equal exactly if each path is in both or in neither.
/// - `union`: `q` is in the union of `s` and `t` exactly if it is in `s` or in `t`.
/// - `len`: if no path is in `ps` twice, then the set of the paths in `ps` has as many paths as `ps`.
///
/// For example, the set of `a` is a subset of the set of `a` and `a.b`, and the set of `a.b` and the set of `x` are
/// disjoint. With this law a program that compares two sets knows what that means for each path.
///
/// About [`FieldPathSet::is_subset`], [`FieldPathSet::is_superset`], [`FieldPathSet::is_disjoint`],
/// [`FieldPathSet::union`] and [`FieldPathSet::len`].
#[tactic(auto, using(crate::proofs::lemmas::SetRelations::relations_by_paths))]
pub fn sets_are_compared_by_their_paths()
    ensures subset { (s t : PathSet) → IsTrue (set.is_subset s t)
        ↔ ((q : List Field) → IsTrue (set.contains s q) → IsTrue (set.contains t q)) }
    ensures disjoint { (s t : PathSet) → (set.intersection s t ≡ set.empty)
        ↔ ((q : List Field) → IsTrue (set.contains s q) → set.contains t q ≡ false) }
    ensures equal { (s t : PathSet) → (s ≡ t) ↔ ((q : List Field) → set.contains s q ≡ set.contains t q) }
    ensures union { (s t : PathSet) (q : List Field) → set.contains (set.union s t) q
        ≡ (set.contains s q || set.contains t q) }
    ensures len { (ps : List (List Field)) → Distinct ps → set.len (set_of ps) ≡ length ps }
{}

/// Two statements about cursors:
/// - `after`: after a cursor has taken the steps of a path `p`, it contains a path `q` exactly if it contained `p`
///   followed by `q` before. In the formula, `w` is the predicate that is true of the paths that the cursor contains
///   before the steps, and `after_steps p w` is the predicate that is true of those that it contains after them. For
///   example, if a cursor contains `a.b` and `x`, then after the step `a` it contains `b`.
/// - `covers`: a set `s` covers a path `q` exactly if some prefix of `q`, perhaps `q` itself, is in `s`.
///
/// So a reader that steps a cursor along a path knows that the path is covered as soon as `is_end` returns `true`.
///
/// About [`FieldPathSet::cursor`], [`FieldPathCursor::step`] and [`FieldPathCursor::element`].
#[tactic(auto, using(crate::proofs::lemmas::PathsBelow::contained_after, crate::proofs::lemmas::PathsBelow::covered_on_the_way))]
pub fn a_set_is_stepped_into()
    ensures after { (w : PathPredicate) (p q : List Field) → after_steps p w q ≡ w (p ++ q) }
    ensures covers { (s : PathSet) (q : List Field) → covers s q ≡ contains_above (set.contains s) q }
{}

/// For each `CursorNames`, `next` returns all names that are left, one after another, and then `None`. For example, if
/// two names are left, then the first call returns one of them, the second call returns the other, and the third call
/// returns `None`. So a `for` loop over `FieldPathCursor::names` visits each name once and ends.
///
/// About [`FieldPathCursor::names`] and [`CursorNames`].
pub fn names_are_given_in_order()
    ensures { GivesInOrder ⟦<CursorNames<'static> as Iterator>⟧.next_gives
        ⟦<CursorNames<'static> as Iterator>⟧.remaining borrowed_below names_left }
{}

/// For all cursors `a` and `b`, if `b` is what `clone` returns for `a`, then `b` is the same cursor as `a`. For
/// example, if the cursor after the step `a` contains `b`, then so does a copy of it. So a reader can step a copy of a
/// cursor and use the original again.
///
/// About [`FieldPathCursor`].
pub fn copies_of_cursors_are_the_same()
    ensures { (a b : FieldPathCursor) → ⟦<crate::FieldPathCursor<'static> as Clone>⟧.is_clone a b → b ≡ a }
{}
