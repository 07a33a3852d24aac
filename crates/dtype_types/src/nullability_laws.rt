// SPDX-License-Identifier: Apache-2.0
// SPDX-FileCopyrightText: Copyright the Vortex contributors

// Theorems about `merged`, the least type of which two types are subsets, and about `intersected`, the greatest type
// that is a subset of both. Each function's contract is the theorem, and its body is empty.
#![tactic(auto, using(crate::proofs::lemmas::Merging::merging, crate::proofs::lemmas::Merging::intersecting))]

ghost use Rattle.std.specs.Prelude.{◌≡◌, ◌↔◌, IsSome, Some, option_and_then};
ghost use Rattle.dtype_types.specs.tree.Erase.{erase};
ghost use Rattle.dtype_types.specs.nullability.Merged.{IsGreatestBelow, IsLeastAbove, intersected, merged};
ghost use Rattle.dtype_types.specs.nullability.Sub.{Sub};
ghost use Rattle.dtype_types.specs.tree.Tree.{Tree};
ghost use Rattle.dtype_types.specs.tree.Valid.{Valid};
ghost use Rattle.dtype_types.specs.values.Value.{IncludedIn, Of, Value};

/// For all types `a` and `b`, `merged a b` is `Some c` for some type `c` exactly if `a` and `b` are equal except for
/// nullabilities, and otherwise it is `None`. For example, `i32` and `i32?` can be merged, and `i32` and `null` can't.
/// So `eq_ignore_nullability` tests whether two types can be merged.
///
/// About [`merge_nullability`].
pub fn types_equal_but_for_nullabilities_are_merged()
    ensures { (a b : Tree) → IsSome (merged a b) ↔ (erase a ≡ erase b) }
{}

/// For all types `a` and `b`, `intersected a b` is `Some c` for some type `c` exactly if `a` and `b` are equal except
/// for nullabilities, and otherwise it is `None`. For example, `i32` and `i32?` can be intersected, and `i32` and `i64`
/// can't. So `eq_ignore_nullability` tests whether two types can be intersected.
///
/// About [`intersect_nullability`].
pub fn types_equal_but_for_nullabilities_are_intersected()
    ensures { (a b : Tree) → IsSome (intersected a b) ↔ (erase a ≡ erase b) }
{}

/// For all types `a`, `b` and `c`, if `merged a b` is `Some c`, then `c` is the least type of which `a` and `b` are
/// subsets. That is, `a` and `b` are subsets of `c`, and `c` is a subset of every type `d` of which both `a` and `b`
/// are subsets. For example, merging `{a=i32, b=utf8?}` and `{a=i32?, b=utf8}` returns `{a=i32?, b=utf8?}`. So a merged
/// schema is nullable only in the places in which one of the two schemas is.
///
/// About [`merge_nullability`].
pub fn what_is_merged_is_least()
    ensures { (a b c : Tree) → merged a b ≡ Some c → IsLeastAbove a b c }
{}

/// For all types `a`, `b` and `c`, if `intersected a b` is `Some c`, then `c` is the greatest type that is a subset of
/// both `a` and `b`. That is, `c` is a subset of `a` and of `b`, and every type `d` that is a subset of both is a
/// subset of `c`. For example, intersecting `{a=i32, b=utf8?}` and `{a=i32?, b=utf8}` returns `{a=i32, b=utf8}`. So an
/// intersected schema is non-nullable only in the places in which one of the two schemas is.
///
/// About [`intersect_nullability`].
pub fn what_is_intersected_is_greatest()
    ensures { (a b c : Tree) → intersected a b ≡ Some c → IsGreatestBelow a b c }
{}

/// For all types `a`, `b` and `c`, if `merged a b` is `Some c`, and `a` and `b` are valid, then `c` is valid. For
/// example, merging the valid types `list(i32)` and `list(i32?)` returns the valid type `list(i32?)`. So what contracts
/// guarantee for valid types is also guaranteed for merged types.
///
/// About [`merge_nullability`].
pub fn what_is_merged_is_valid()
    ensures { (a b c : Tree) → merged a b ≡ Some c → Valid a → Valid b → Valid c }
{}

/// For all types `a`, `b` and `c`, if `intersected a b` is `Some c`, and at least one of `a` and `b` is valid, then `c`
/// is valid. For example, intersecting the valid types `list(i32)?` and `list(i32?)` returns the valid type
/// `list(i32)`. So what contracts guarantee for valid types is also guaranteed for intersected types.
///
/// About [`intersect_nullability`].
pub fn what_is_intersected_is_valid()
    ensures first { (a b c : Tree) → intersected a b ≡ Some c → Valid a → Valid c }
    ensures second { (a b c : Tree) → intersected a b ≡ Some c → Valid b → Valid c }
{}

/// For all types `a`, `b` and `c`, if `merged a b` is `Some c`, then:
/// - Each value of `a` is a value of `c`.
/// - Each value of `b` is a value of `c`.
/// - No valid type that contains the values of both contains fewer values than `c`: for each type `d`, if `a`, `b` and
///   `d` are valid, and each value of `a` and each value of `b` is a value of `d`, then each value of `c` is a value of
///   `d`.
///
/// For example, if a column is an `i32` in one file and an `i32?` in another, then a program that reads both files
/// needs the type `i32?` for the column.
///
/// About [`merge_nullability`].
#[tactic(auto, using(crate::proofs::lemmas::Merging::values_first, crate::proofs::lemmas::Merging::values_second, crate::proofs::lemmas::Merging::merged_least_values))]
pub fn what_is_merged_takes_the_values_of_both()
    ensures first { (a b c : Tree) → merged a b ≡ Some c → IncludedIn a c }
    ensures second { (a b c : Tree) → merged a b ≡ Some c → IncludedIn b c }
    ensures least { (a b c d : Tree) → merged a b ≡ Some c → Valid a → Valid b → Valid d
        → IncludedIn a d → IncludedIn b d → IncludedIn c d }
{}

/// For all types `a`, `b` and `c`, if `intersected a b` is `Some c`, and `a` is valid, then the values of `c` are
/// exactly the values that `a` and `b` have in common. For example, intersecting `list(i32?)` and `list(i32)?` returns
/// `list(i32)`, whose values are the lists of integers that contain no null. So a program may write a value for two
/// readers, of which one expects `a` and the other expects `b`, exactly if it is a value of `c`.
///
/// About [`intersect_nullability`].
pub fn what_is_intersected_has_the_values_of_both()
    ensures { (a b c : Tree) → intersected a b ≡ Some c → Valid a → (v : Value) → Of v c ↔ (Of v a × Of v b) }
{}

/// Merging is commutative, associative and idempotent. Also, for all types `a` and `b`, if `b` is a subset of `a`, then
/// merging `a` and `b` returns `a`. For example, merging `i32?` and `i32` returns `i32?`, and so does merging `i32` and
/// `i32?`. So a program can merge the schemas of several files in any order.
///
/// About [`merge_nullability`].
pub fn types_are_merged_in_any_order()
    ensures commutative { (a b : Tree) → merged a b ≡ merged b a }
    ensures associative { (a b c : Tree) → option_and_then (λ x. merged x c) (merged a b)
        ≡ option_and_then (merged a) (merged b c) }
    ensures idempotent { (a : Tree) → merged a a ≡ Some a }
    ensures absorbing { (a b : Tree) → Sub b a → merged a b ≡ Some a }
{}

/// Intersecting is commutative, associative and idempotent. Also, for all types `a` and `b`, if `a` is a subset of `b`,
/// then intersecting `a` and `b` returns `a`. For example, intersecting `i32` and `i32?` returns `i32`, and so does
/// intersecting `i32?` and `i32`. So a program can intersect several types in any order.
///
/// About [`intersect_nullability`].
pub fn types_are_intersected_in_any_order()
    ensures commutative { (a b : Tree) → intersected a b ≡ intersected b a }
    ensures associative { (a b c : Tree) → option_and_then (λ x. intersected x c) (intersected a b)
        ≡ option_and_then (intersected a) (intersected b c) }
    ensures idempotent { (a : Tree) → intersected a a ≡ Some a }
    ensures absorbing { (a b : Tree) → Sub a b → intersected a b ≡ Some a }
{}

/// For all types `a` and `b` that are equal except for nullabilities:
/// - If intersecting `a` and `b` returns `c`, then merging `a` and `c` returns `a`.
/// - If merging `a` and `b` returns `d`, then intersecting `a` and `d` returns `a`.
///
/// For example, intersecting `i32?` and `i32` returns `i32`, and merging `i32?` and `i32` returns `i32?`. This law,
/// `types_are_merged_in_any_order` and `types_are_intersected_in_any_order` together state that the types that differ
/// only in nullabilities are a lattice with these two operations.
///
/// About [`merge_nullability`] and [`intersect_nullability`].
#[tactic(auto, using(crate::proofs::lemmas::Merging::merged_absorbs, crate::proofs::lemmas::Merging::intersected_absorbs))]
pub fn merging_and_intersecting_absorb_each_other()
    ensures merged { (a b : Tree) → erase a ≡ erase b → option_and_then (merged a) (intersected a b) ≡ Some a }
    ensures intersected { (a b : Tree) → erase a ≡ erase b → option_and_then (intersected a) (merged a b) ≡ Some a }
{}

/// For all types `a`, `b`, `c` and `d` such that `a` is a subset of `b`, and `c` is a subset of `d`: if merging `a` and
/// `c` returns `x`, and merging `b` and `d` returns `y`, then `x` is a subset of `y`. The same is so if both pairs are
/// intersected. For example, let `a` be `{x=i32, y=utf8}`, let `b` be `{x=i32?, y=utf8}`, and let `c` and `d` both be
/// `{x=i32, y=utf8?}`. Then merging `a` and `c` returns `{x=i32, y=utf8?}`, which is a subset of `{x=i32?, y=utf8?}`,
/// the result of merging `b` and `d`. So if a schema becomes nullable in one more place, then the result of merging it
/// with another schema doesn't become non-nullable anywhere.
///
/// About [`merge_nullability`] and [`intersect_nullability`].
#[tactic(auto, using(crate::proofs::lemmas::Merging::merged_monotone, crate::proofs::lemmas::Merging::intersected_monotone))]
pub fn merging_and_intersecting_are_monotone()
    ensures merged { (a b c d x y : Tree) → Sub a b → Sub c d → merged a c ≡ Some x → merged b d ≡ Some y → Sub x y }
    ensures intersected { (a b c d x y : Tree) → Sub a b → Sub c d → intersected a c ≡ Some x
        → intersected b d ≡ Some y → Sub x y }
{}
