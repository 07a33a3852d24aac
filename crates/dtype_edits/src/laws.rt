// SPDX-License-Identifier: Apache-2.0
// SPDX-FileCopyrightText: Copyright the Vortex contributors

// Theorems about the definitions. Each function's contract is the theorem, and its body is empty.
ghost use Rattle.std.specs.Prelude.{◌≡◌, ◌≢◌, ◌↔◌, ◌++◌, [], ℕ, false, true, IsSome, IsTrue, List, None, Option, Some, map, option_and_then, slice_get};
ghost use Rattle.std.specs.FinSet as set;
ghost use Rattle.std.specs.List.{AllPairs, Contains};
ghost use Rattle.dtype_base.specs.FieldNames.{FirstAt, IsAbsent};
ghost use Rattle.dtype_types.specs.parts.Lookups.{field_names, field_types, first_named};
ghost use Rattle.dtype_types.specs.tree.Erase.{erase};
ghost use Rattle.dtype_types.specs.tree.Tree.{Tree};
ghost use Rattle.dtype_types.specs.tree.Valid.{Valid};
ghost use Rattle.dtype_paths.specs.Along.{along};
ghost use Rattle.dtype_paths.specs.At.{At, ExistsIn};
ghost use Rattle.dtype_paths.specs.Beginning.{Beginning};
ghost use Rattle.dtype_paths.specs.Overlaps.{Overlaps};
ghost use Rattle.dtype_paths.specs.PathOrder.{set_of};
ghost use Rattle.dtype_paths.specs.PathPredicates.{PathPredicate, after_steps, contains_above, no_path};
ghost use Rattle.dtype_paths.specs.declared.field.Field.{Field};
ghost use Rattle.dtype_projection.specs.Projected.{projected};
ghost use Rattle.dtype_edits.specs.Alike.{AlikeThere};
ghost use Rattle.dtype_edits.specs.Differences.{Difference, differences, nothing_ignored, nullability_ignored};
ghost use Rattle.dtype_edits.specs.EditedFields.{new_name, renamed, with_named};
ghost use Rattle.dtype_edits.specs.Leaves.{IsLeaf, NamesDiffer, leaves};
ghost use Rattle.dtype_edits.specs.Replaced.{replaced};
ghost use Rattle.dtype_edits.specs.Without.{elements, without};
ghost use Rattle.dtype_edits.specs.declared.difference.Ignoring.{Ignoring};

/// For all types `t` and `u` and each path `p`, the part of `t` at `p` can be replaced by `u` exactly if there is a part
/// at `p`. (It can be replaced if `replaced t p u` isn't `None`.) For example, `{a=i32}` has no part at `b`, so replacing
/// it has no result. With this law a caller that has resolved a path knows that `with_type_at` returns a type.
///
/// About [`with_type_at`].
#[tactic(auto, using(crate::proofs::lemmas::Replacing::replaced_where, crate::proofs::lemmas::Replacing::exists_where))]
pub fn a_part_is_replaced_exactly_where_a_path_leads()
    ensures there { (t x u : Tree) (p : List Field) → At t p x → (r : Tree) × (replaced t p u ≡ Some r) }
    ensures only { (t r u : Tree) (p : List Field) → replaced t p u ≡ Some r → ExistsIn t p }
{}

/// Let `r` be `t` with the part at `p` replaced by `u`. The law says to which types paths lead in `r`:
/// - `there`: the path `p` leads to `u`.
/// - `beside`: a path that doesn't overlap `p` leads to the same type in `r` as in `t`, or to no type in both. Two paths
///   overlap if one of them is a prefix of the other.
/// - `above`: if `p` is `q` followed by `rest`, then `q` leads to the type at `q` in `t` with the part at `rest` replaced
///   by `u`.
///
/// For example, let `r` be `{a={b=i32, c=u8}, d=utf8}` with the part at `a.b` replaced by `bool`. The path `a.b` leads to
/// `bool`, `a.c` and `d` lead to `u8` and `utf8` as before, and `a` leads to `{b=bool, c=u8}`.
///
/// About [`with_type_at`].
#[tactic(auto, using(crate::proofs::lemmas::Replacing::leads_there, crate::proofs::lemmas::Replacing::leads_beside, crate::proofs::lemmas::Replacing::leads_above))]
pub fn only_paths_through_the_replaced_part_change()
    ensures there { (t r u : Tree) (p : List Field) → replaced t p u ≡ Some r → along r p ≡ Some u }
    ensures beside { (t r u : Tree) (p q : List Field) → replaced t p u ≡ Some r → ¬ (Overlaps p q)
        → along r q ≡ along t q }
    ensures above { (t r u : Tree) (q rest : List Field) → replaced t (q ++ rest) u ≡ Some r
        → along r q ≡ option_and_then (λ x. replaced x rest u) (along t q) }
{}

/// For all types `t`, `u` and `v` and each path `p`, the following is true of replacing the part at `p`. With the law
/// about the paths of the result, these are the laws of a lens.
/// - `itself`: if the type at `p` in `t` is `x`, then `t` with the part at `p` replaced by `x` is `t`.
/// - `again`: if `r` is `t` with the part at `p` replaced by `u`, then replacing the part of `r` at `p` by `v` makes the
///   same as replacing it in `t`.
///
/// For example, replacing the part of `{a=i32}` at `a` by `i32` makes `{a=i32}`. So nothing else of the type changes, such
/// as its nullabilities, or the order of its fields.
///
/// About [`with_type_at`].
#[tactic(auto, using(crate::proofs::lemmas::Replacing::replaced_by_itself, crate::proofs::lemmas::Replacing::replaced_again))]
pub fn the_last_replacement_counts()
    ensures itself { (t x : Tree) (p : List Field) → At t p x → replaced t p x ≡ Some t }
    ensures again { (t r u v : Tree) (p : List Field) → replaced t p u ≡ Some r → replaced r p v ≡ replaced t p v }
{}

/// For all types `t` and `u` and each path `p`, if both types are valid, then `t` with the part at `p` replaced by `u` is
/// valid. A path doesn't lead to the key type of a map, which mustn't be nullable, or into an extension.
///
/// About [`with_type_at`].
#[tactic(auto, using(crate::proofs::lemmas::Replacing::replaced_valid))]
pub fn a_valid_type_with_a_valid_part_is_valid()
    ensures { (t r u : Tree) (p : List Field) → replaced t p u ≡ Some r → Valid t → Valid u → Valid r }
{}

/// For each type `t` and all paths `w`, nothing is left of `t` without `w` exactly if a path of `w` that consists of
/// element steps alone exists in `t`. For example, nothing is left of `list(list(i32))` without `[].[]`, because a list
/// without its element isn't a type. With this law a caller knows for which sets `without_paths` returns a type: for
/// example, it always returns one for a struct, if the set doesn't contain the root.
///
/// About [`without_paths`].
pub fn nothing_is_left_exactly_without_elements()
    ensures none { (t : Tree) (w : PathPredicate) → without t w ≡ None
        → (k : ℕ) × IsTrue (w (elements k)) × ExistsIn t (elements k) }
    ensures only { (k : ℕ) (t x : Tree) (w : PathPredicate) → w (elements k) ≡ true → At t (elements k) x → without t w ≡ None }
{}

/// Let `u` be the type `t` without the paths `w`. The law says to which types paths lead in `u`:
/// - `gone`: a path of `w` doesn't exist in `u`.
/// - `above`: if no path of `w` is a prefix of `q`, and `q` leads to `x` in `t`, then `q` leads in `u` to what is left of
///   `x` without what remains of `w` after `q`. If nothing is left of `x`, the law says nothing of `q`.
/// - `beside`: if no path of `w` overlaps `q`, and `q` leads to `x` in `t`, then `q` leads to `x` in `u`. Two paths overlap
///   if one of them is a prefix of the other.
///
/// For example, let `u` be `{a={b=i32, c=u8}, d=utf8}` without `a.b`. The path `a.b` doesn't exist in `u`, `a.c` and `d`
/// lead to `u8` and `utf8` as before, and `a` leads to `{c=u8}`.
///
/// About [`without_paths`].
pub fn paths_that_are_left_out_lead_nowhere()
    ensures gone { (t u : Tree) (w : PathPredicate) (p : List Field) → without t w ≡ Some u → w p ≡ true → ¬ (ExistsIn u p) }
    ensures above { (t u x v : Tree) (w : PathPredicate) (q : List Field) → without t w ≡ Some u → At t q x
        → contains_above w q ≡ false → without x (after_steps q w) ≡ Some v → At u q v }
    ensures beside { (t u x : Tree) (w : PathPredicate) (q : List Field) → without t w ≡ Some u → At t q x
        → ((p : List Field) → IsTrue (w p) → ¬ (Overlaps p q)) → At u q x }
{}

/// For each type `t` and all paths `w`, `t` without nothing is `t`, and `t` without `w` is valid if `t` is. For example,
/// the variants of a union stay as they are, because a path doesn't lead into a union, so that a union keeps at least one
/// variant.
///
/// About [`without_paths`].
#[tactic(auto, using(crate::proofs::lemmas::Leaving::without_nothing, crate::proofs::lemmas::Leaving::valid_left))]
pub fn what_is_left_of_a_valid_type_is_valid()
    ensures nothing { (t : Tree) → without t no_path ≡ Some t }
    ensures valid { (t u : Tree) (w : PathPredicate) → without t w ≡ Some u → Valid t → Valid u }
{}

/// For each type `t` and each path `p`, `p` is in the list `leaves t` exactly if it leads to a part of `t` into which no
/// step leads (`IsLeaf`). For example, the leaves of `{a=list(i32), b={}}` are `a.[]` and `b`: a step leads from `a` into
/// the list, and none leads from `b` further. With this law a caller can replace the recursion `leaves` by a statement
/// about single paths.
///
/// About [`leaf_paths`].
pub fn what_leaves_says()
    ensures { (t : Tree) (p : List Field) → Contains (leaves t) p ↔ IsLeaf t p }
{}

/// For each type `t` and all leaves `p` and `q` of `t`, if `p` is a prefix of `q`, then they are equal. For example, `a`
/// is no leaf of `{a=list(i32)}`, because the leaf `a.[]` begins with it. So a reader that opens each leaf opens nothing
/// twice.
///
/// About [`leaf_paths`].
pub fn no_leaf_is_a_prefix_of_another()
    ensures { (t : Tree) (p q : List Field) → IsLeaf t p → IsLeaf t q → Beginning p q → p ≡ q }
{}

/// For each type `t` and each path `p`, `p` exists in `t` exactly if it is a prefix of a leaf of `t`. For example, the
/// paths of `{a=list(i32), b={}, a=utf8}` are the root, `a`, `a.[]` and `b`, which are the prefixes of the leaves `a.[]`
/// and `b`. The second field named `a` has no leaf, because a path leads to the first. So the leaves tell which paths a
/// type has.
///
/// About [`leaf_paths`].
pub fn paths_are_the_prefixes_of_leaves()
    ensures { (t : Tree) (p : List Field) → ExistsIn t p ↔ ((q : List Field) × IsLeaf t q × Beginning p q) }
{}

/// For each type `t`, if no two fields of a struct to which a path leads have the same name, then the projection of `t` to
/// its leaves is `t`. For example, this is true of `{a=list(i32), b={}}`, and not of `{a=i32, a=utf8}`, whose only leaf is
/// `a` and whose projection is `{a=i32}`. So a reader that opens the leaves reads everything.
///
/// About [`leaf_paths`].
pub fn the_projection_to_the_leaves_is_the_type()
    ensures { (t : Tree) → NamesDiffer t → projected t (set.contains (set_of (leaves t))) ≡ Some t }
{}

/// For all fields `ps` of a struct, each name `m` and all types `u` and `v`, the following is true of `ps` with the field
/// `m` of type `u`:
/// - `names`: if a field is named `m`, the names of the fields are those of `ps`, in the same order.
/// - `itself`: if `u` is the type of the first field named `m`, the fields are `ps`.
/// - `again`: these fields with the field `m` of type `v` are `ps` with the field `m` of type `v`.
///
/// For example, `a=i32, b=utf8, a=u8` with the field `a` of type `i32` are the same fields. So nothing else changes, such as
/// the order of the fields, or the second field named `a`.
///
/// About [`with_field`].
#[tactic(auto, using(crate::proofs::lemmas::EditingFields::names_kept, crate::proofs::lemmas::EditingFields::named_itself, crate::proofs::lemmas::EditingFields::named_again))]
pub fn a_field_gets_its_type_where_it_stands()
    ensures names { (ps : List (List ℕ × Tree)) (m : List ℕ) (u : Tree) → IsSome (first_named ps m)
        → field_names (with_named ps m u) ≡ field_names ps }
    ensures itself { (ps : List (List ℕ × Tree)) (m : List ℕ) (u : Tree) → first_named ps m ≡ Some u → with_named ps m u ≡ ps }
    ensures again { (ps : List (List ℕ × Tree)) (m : List ℕ) (u v : Tree) → with_named (with_named ps m u) m v ≡ with_named ps m v }
{}

/// For each table `rs` of old and new names, the following is true of renaming fields by it:
/// - `types`: the types of the fields stay, in the same order.
/// - `there`: if `n` is the old name of the pair `r` of the table, and of no pair before it, then `n` becomes the new name of
///   `r`.
/// - `others`: if `n` isn't an old name of the table, it stays.
///
/// For example, by the table with the pairs `a`, `b` and `b`, `a` the fields `a=i32, b=utf8` become `b=i32, a=utf8`, because
/// each name is looked up once. With this law a caller can replace the recursion `new_name` by a lookup.
///
/// About [`with_fields_renamed`] and [`with_fields_renamed_allowing_repeats`].
#[tactic(auto, using(crate::proofs::lemmas::EditingFields::renamed_types, crate::proofs::lemmas::EditingFields::name_there, crate::proofs::lemmas::EditingFields::kept_name))]
pub fn only_names_in_the_table_change()
    ensures types { (rs : List (List ℕ × List ℕ)) (ps : List (List ℕ × Tree)) → field_types (renamed rs ps) ≡ field_types ps }
    ensures there { (rs : List (List ℕ × List ℕ)) (n : List ℕ) (i : ℕ) (r : List ℕ × List ℕ) → FirstAt (map (λ q. q.0) rs) n i
        → slice_get rs i ≡ Some r → new_name rs n ≡ r.1 }
    ensures others { (rs : List (List ℕ × List ℕ)) (n : List ℕ) → IsAbsent (map (λ q. q.0) rs) n → new_name rs n ≡ n }
{}

/// For all types `t` and `u`, the following is true of their differences:
/// - `equal`: there is none exactly if `t` and `u` are equal, if nothing is ignored.
/// - `erased`: there is none exactly if `t` and `u` are equal except for nullabilities, if nullabilities are ignored.
///
/// For example, `{a=i32, b=u8}` and `{b=u8, a=i32}` have a difference, because their fields are in another order. So a
/// program that finds no difference may use one type for the other.
///
/// About [`differences`] and [`differences_ignoring`].
pub fn there_is_no_difference_exactly_between_equal_types()
    ensures equal { (t u : Tree) → (differences nothing_ignored t u ≡ []) ↔ (t ≡ u) }
    ensures erased { (t u : Tree) → (differences nullability_ignored t u ≡ []) ↔ (erase t ≡ erase u) }
{}

/// For all types `t` and `u`, if the path `p` with the types `x` and `y` is one of their differences, whatever is ignored,
/// the following is true. (`x` and `y` are `None` if the part is added or removed.)
/// - `before`: the path leads to `x` in `t`.
/// - `after`: the path leads to `y` in `u`.
/// - `differ`: `x` and `y` are different.
///
/// For example, from `{a=i32}` to `{a=u8, b=utf8}` the path `b` leads to no type in the first, and to `utf8` in the second.
/// So the list tells all that a program needs to report a difference.
///
/// About [`differences`] and [`differences_ignoring`].
pub fn the_paths_of_differences_lead_to_their_types()
    ensures before { (i : Ignoring) (t u : Tree) (p : List Field) (x y : Option Tree)
        → Contains (differences i t u) (p, (x, y)) → along t p ≡ x }
    ensures after { (i : Ignoring) (t u : Tree) (p : List Field) (x y : Option Tree)
        → Contains (differences i t u) (p, (x, y)) → along u p ≡ y }
    ensures differ { (i : Ignoring) (t u : Tree) (p : List Field) (x y : Option Tree)
        → Contains (differences i t u) (p, (x, y)) → x ≢ y }
{}

/// For all types `t` and `u`, no path of their differences overlaps that of a later one, whatever is ignored. Two paths
/// overlap if one of them is a prefix of the other. For example, if `a` changes from a list to a struct, the difference at
/// `a` is listed, and none at `a.[]`. So each part is listed once, and a program can apply the differences in any order.
///
/// About [`differences`] and [`differences_ignoring`].
pub fn no_two_differences_overlap()
    ensures { (i : Ignoring) (t u : Tree)
        → AllPairs (λ d e. ¬ (Overlaps d.0 e.0)) (differences i t u) }
{}

/// For all types `t` and `u` and each path `p`, if no difference is at a prefix of `p`, then `p` leads to types that are
/// alike (`AreAlike`), or to no type in both. For example, from `{a={b=i32, c=u8}}` to `{a={b=i64, c=u8}}` the only
/// difference is at `a.b`, so `a` leads to two structs of the same nullability, and `a.c` to the same type. With the law
/// about the types to which the listed paths lead, this says of each path what is at it in `u`, by `t` and the list. So `t`
/// with the listed parts changed, removed and added is `u`, but for the order of fields.
///
/// About [`differences`].
pub fn what_is_not_listed_is_alike()
    ensures { (t u : Tree) (p : List Field)
        → ((d : Difference) → Contains (differences nothing_ignored t u) d → ¬ (Beginning d.0 p))
        → AlikeThere (along t p) (along u p) }
{}
