// SPDX-License-Identifier: Apache-2.0
// SPDX-FileCopyrightText: Copyright the Vortex contributors

// Theorems about the definitions. Each function's contract is the theorem, and its body is empty.
ghost use Rattle.std.specs.Prelude.{◌≡◌, ◌↔◌, [], IsTrue, IsSome, List, Some, false, option_and_then};
ghost use Rattle.std.specs.FinSet as set;
ghost use Rattle.dtype_types.specs.nullability.Nullable.{nullability};
ghost use Rattle.dtype_types.specs.tree.Tree.{Tree};
ghost use Rattle.dtype_types.specs.tree.Valid.{Valid};
ghost use Rattle.dtype_types.specs.values.Value.{Of, Value};
ghost use Rattle.dtype_paths.specs.Along.{along};
ghost use Rattle.dtype_paths.specs.At.{At, ExistsIn, step};
ghost use Rattle.dtype_paths.specs.Beginning.{Beginning};
ghost use Rattle.dtype_paths.specs.Covering.{covers, least};
ghost use Rattle.dtype_paths.specs.Found.{Found};
ghost use Rattle.dtype_paths.specs.Overlaps.{Overlaps};
ghost use Rattle.dtype_paths.specs.PathOrder.{PathSet};
ghost use Rattle.dtype_paths.specs.declared.field.Field.{Field};
ghost use Rattle.dtype_paths.specs.PathPredicates.{PathPredicate, after_step};
ghost use Rattle.dtype_projection.specs.IsPart.{IsLeastPart, IsPart};
ghost use Rattle.dtype_projection.specs.Projected.{projected};
ghost use Rattle.dtype_projection.specs.Restricted.{restricted};

/// For each type `t` and each predicate `w` of paths, `t` has a projection to the paths that satisfy `w` exactly if one
/// of these paths exists in `t`. (`t` has a projection if `projected t w` isn't `None`.) For example, `{a=i32, b=utf8}`
/// has no projection to the path `c`, and it has a projection to the paths `a` and `c`. With this law a caller knows
/// that `project_paths` returns `None` exactly if there is nothing to read.
///
/// About [`project_paths`].
#[tactic(auto, using(crate::proofs::lemmas::Projections::kept_exactly))]
pub fn a_type_is_kept_exactly_where_a_path_exists()
    ensures { (t : Tree) (w : PathPredicate) → IsSome (projected t w)
        ↔ ((p : List Field) × IsTrue (w p) × ExistsIn t p) }
{}

/// Let `u` be the projection of `t` to the paths that satisfy `w`. Let `p` be one of these paths, and let `q` be `p` or
/// a path that begins with `p`. Then `q` leads to the same type in `u` as in `t`, or to no type in either of them. For
/// example, in the projection of `{a={b=i32}, c=utf8}` to `a`, the path `a.b` leads to `i32`, as it does in the whole
/// type. With this law a caller knows that a query that is bound to the original type can be run on the projection.
///
/// About [`project_paths`].
pub fn wanted_paths_resolve_as_before()
    ensures { (t u : Tree) (w : PathPredicate) (p q : List Field) → projected t w ≡ Some u
        → IsTrue (w p)
        → Beginning p q → along u q ≡ along t q }
{}

/// Let `u` be the projection of `t` to the paths that satisfy `w`. Then a path `q` exists in `u` exactly if `q` exists
/// in `t` and overlaps a path `p` that satisfies `w` and exists in `t`. Two paths overlap if one of them is a prefix of
/// the other. For example, in the projection of `{a={b=i32, d=u8}, c=utf8}` to `a.b`, the paths `a` and `a.b` exist,
/// and `a.d` and `c` don't. With this law a caller knows that a reader of the projection opens no column that the paths
/// don't need.
///
/// About [`project_paths`].
pub fn nothing_else_is_kept()
    ensures { (t u : Tree) (w : PathPredicate) (q : List Field) → projected t w ≡ Some u
        → (ExistsIn u q ↔ (ExistsIn t q × ((p : List Field) × IsTrue (w p) × ExistsIn t p × Overlaps p q))) }
{}

/// Let `t` be a type, and let `w` be a predicate that says which paths are wanted. The projection of `t` to the paths
/// that satisfy `w` is the least part of `t` in which these paths resolve as in `t`. A part of `t` is `t` without
/// some fields of structs, at any depth, and otherwise unchanged. If a part lacks a field, it also lacks the later
/// fields of the same struct that have the same name (`IsPart`). A path resolves in a part as in `t` if it leads to
/// the same type in both, or to no type in both. The two clauses are:
/// - `least`: if `u` is the projection, then `u` is a part of `t` in which the paths resolve as in `t`, and `u` is a
///   part of each other part of `t` in which they do.
/// - `alone`: if one of the paths exists in `t`, then each type that is such a least part is the projection.
///
/// For example, let `t` be `{a=i32, b=utf8, c=u8}`. The path `a` resolves as in `t` in the parts `{a=i32}`,
/// `{a=i32, b=utf8}`, `{a=i32, c=u8}` and `t`. The projection to `a` is the least of these, `{a=i32}`. With this law a
/// caller can reason about a projection without the recursion by which `projected` is defined.
///
/// About [`project_paths`].
pub fn projections_are_least_parts()
    ensures least { (t u : Tree) (w : PathPredicate) → projected t w ≡ Some u → IsLeastPart t w u }
    ensures alone { (t u : Tree) (w : PathPredicate) (p : List Field) → IsTrue (w p) → ExistsIn t p
        → IsLeastPart t w u → projected t w ≡ Some u }
{}

/// For all types `t` and `u`, the following is true of parts (`IsPart`):
/// - `along`: if `u` is a part of `t` and the path `q` leads to a type `y` in `u`, then `q` leads to a type `x` in `t`,
///   and `y` is a part of `x`.
/// - `equal`: if `u` is a part of `t` and `t` is a part of `u`, then `u` and `t` are equal.
/// - `itself`: `t` is a part of itself.
///
/// For example, `{a={b=i32}}` is a part of `{a={b=i32, d=u8}, c=utf8}`. The path `a` leads to `{b=i32}` in the part and
/// to `{b=i32, d=u8}` in the whole type, and `{b=i32}` is a part of `{b=i32, d=u8}`. A caller needs this law to
/// conclude to which types paths lead in a projection, because the law `projections_are_least_parts` specifies
/// projections by `IsPart`.
///
/// About [`project_paths`].
#[tactic(auto, using(crate::proofs::lemmas::Parts::path_of_part, crate::proofs::lemmas::Parts::parts_equal, crate::proofs::lemmas::Parts::part_itself))]
pub fn paths_lead_to_parts()
    ensures along { (t u y : Tree) (q : List Field) → IsPart t u → At u q y
        → ((x : Tree) × At t q x × IsPart x y) }
    ensures equal { (t u : Tree) → IsPart t u → IsPart u t → u ≡ t }
    ensures itself { (t : Tree) → IsPart t t }
{}

/// For all types `t` and `u`, if `u` is a projection of `t`, then `u` has the same outer nullability as `t`. For
/// example, the projection of `{a=i32, b=utf8}?` to `a` is `{a=i32}?`. With this law a caller knows that the rows of a
/// projected table can be null exactly if the rows of the whole table can.
///
/// About [`project_paths`].
#[tactic(auto, using(crate::proofs::lemmas::Parts::kept_nullability))]
pub fn projections_keep_the_nullability()
    ensures { (t u : Tree) (w : PathPredicate) → projected t w ≡ Some u
        → nullability u ≡ nullability t }
{}

/// For each type `t` and all sets `r` and `s` of paths, the projection of `t` to `s` depends only on which paths `s`
/// covers. A set covers a path if it contains the path or a prefix of it. The two clauses are:
/// - `exists`: if each path that exists in `t` is covered by both `r` and `s` or by neither of them, then the
///   projection of `t` to `r` is the projection of `t` to `s`.
/// - `least`: the projection of `t` to the least paths of `s` is the projection of `t` to `s`. The least paths of `s`
///   are those of which no other path in `s` is a prefix.
///
/// For example, the projection to `a` and `a.b` is the projection to `a` alone. With this law a caller can replace a
/// set by its least paths before it projects a type.
///
/// About [`project_paths`].
#[tactic(auto, using(crate::proofs::lemmas::Parts::same_for_same_coverage, crate::proofs::lemmas::Parts::same_for_least))]
pub fn projection_depends_on_coverage_alone()
    ensures exists { (t : Tree) (r s : PathSet)
        → ((q : List Field) → ExistsIn t q → covers r q ≡ covers s q)
        → projected t (set.contains r) ≡ projected t (set.contains s) }
    ensures least { (t : Tree) (s : PathSet)
        → projected t (set.contains (least s)) ≡ projected t (set.contains s) }
{}

/// Let `u` be the projection of `t` to the set `s`. The two clauses are about projecting `u` again:
/// - `covered`: for each set `r`, if `s` covers each path of `r` that exists in `t`, then the projection of `u` to `r`
///   is the projection of `t` to `r`.
/// - `once`: the projection of `u` to `s` is `u`.
///
/// For example, the projection of `{a=i32, b=utf8, c=u8}` to `a` and `b` is `{a=i32, b=utf8}`. The projection of that
/// to `a` is `{a=i32}`, which is also the projection of the whole type to `a`. With this law a caller that has
/// projected a schema to all columns of a query can project the result again to the columns of one filter of the query.
///
/// About [`project_paths`].
#[tactic(auto, using(crate::proofs::lemmas::Parts::projection_of_projection, crate::proofs::lemmas::Parts::projected_once))]
pub fn projections_compose()
    ensures covered { (t u : Tree) (s r : PathSet) → projected t (set.contains s) ≡ Some u
        → ((q : List Field) → IsTrue (set.contains r q) → ExistsIn t q → IsTrue (covers s q))
        → projected u (set.contains r) ≡ projected t (set.contains r) }
    ensures once { (t u : Tree) (s : PathSet) → projected t (set.contains s) ≡ Some u
        → projected u (set.contains s) ≡ Some u }
{}

/// Let `u` be the projection of `t` to the paths that satisfy `w`, and let `f` be a step. Suppose that the root doesn't
/// satisfy `w`, because otherwise `t` is kept whole. Take those of the paths that begin with `f`, remove this first
/// step from each of them, and call the results the shortened paths. Then there are two cases:
/// - If `f` leads to a type `x` in `t`, and `x` has a projection to the shortened paths, then `f` leads to this
///   projection in `u`.
/// - Otherwise, `f` leads to no type in `u`.
///
/// For example, the projection of `{a={b=i32, d=u8}, c=utf8}` to `a.b` is `{a={b=i32}}`. In it the step `a` leads to
/// `{b=i32}`, which is the projection of `{b=i32, d=u8}` to `b`. With this law a caller knows that a reader that steps
/// through a type and a set together (`FieldPathSet::cursor`) opens exactly what the projection keeps.
///
/// About [`project_paths`].
#[tactic(auto, using(crate::proofs::lemmas::Projections::step_kept))]
pub fn a_projection_is_stepped_into()
    ensures { (t u : Tree) (w : PathPredicate) (f : Field) → w [] ≡ false → projected t w ≡ Some u
        → step u f ≡ option_and_then (λ x. projected x (after_step f w)) (step t f) }
{}

/// For all types `t` and `u`, if `u` is a projection of `t` and `t` is valid, then `u` is valid. For example, the
/// projection `{a=i32}` of the valid type `{a=i32, b=utf8}` is valid. If a caller passes a projection to a call whose
/// contract has clauses only for valid types, it needs this law to use these clauses.
///
/// About [`project_paths`].
#[tactic(auto, using(crate::proofs::lemmas::Projections::valid_kept))]
pub fn projections_are_valid()
    ensures { (t u : Tree) (w : PathPredicate) → projected t w ≡ Some u → Valid t → Valid u }
{}

/// Let `w` be a predicate that says which paths are wanted, and let `u` be the projection of `t` to the paths that
/// satisfy `w`. For each value `v` of `t`, `restricted t w v` is `v` without the fields that the projection leaves
/// out. For example, the value `{a=1, b="x"}` of `{a=i32, b=utf8}`, restricted to `a`, is `{a=1}`. The four clauses
/// are:
/// - `of`: for each value `v` of `t`, `restricted t w v` is a value of `u`.
/// - `onto`: if `t` is valid, then each value of `u` is `restricted t w v` for some value `v` of `t`.
/// - `found`: let `p` be a path that satisfies `w` and exists in `t`, and let `q` be `p` or a path that begins with
///   `p`. Then the values that lie along `q` in `v` are the values that lie along `q` in `restricted t w v`.
/// - `beyond`: `found` is false without the premise that `p` exists in `t`. For example, if `a` is an extension over a
///   struct with the field `b`, then `a.b` doesn't exist in `t`, because paths don't step into extensions. But a value of an
///   extension is a value of its storage type, so a value can lie along `a.b` in `v` without lying along it in
///   `restricted t w v`.
///
/// With this law a caller knows that a program that reads only the projection finds the same values along the paths of
/// its query as in the whole data.
///
/// About [`project_paths`].
#[tactic(auto, using(crate::proofs::lemmas::Restrictions::of_restricted, crate::proofs::lemmas::Restrictions::onto, crate::proofs::lemmas::Restrictions::lost_through_extensions))]
pub fn values_are_restricted()
    ensures of { (t u : Tree) (w : PathPredicate) (v : Value) → projected t w ≡ Some u → Of v t
        → Of (restricted t w v) u }
    ensures onto { (t u : Tree) (w : PathPredicate) (x : Value) → Valid t → projected t w ≡ Some u
        → Of x u
        → ((v : Value) × Of v t × (restricted t w v ≡ x)) }
    ensures found { (t : Tree) (w : PathPredicate) (p q : List Field) (v x : Value) → IsTrue (w p)
        → ExistsIn t p
        → Beginning p q → Of v t → (Found v q x ↔ Found (restricted t w v) q x) }
    ensures beyond { (t u : Tree) × (w : PathPredicate) × (p : List Field) × (v x : Value)
        × (projected t w ≡ Some u)
        × IsTrue (w p) × Of v t × Found v p x × ¬ (Found (restricted t w v) p x) }
{}
