// SPDX-License-Identifier: Apache-2.0
// SPDX-FileCopyrightText: Copyright the Vortex contributors

// Theorems about the definitions. Each function's contract is the theorem, and its body is empty. In each of them `w` is the
// caller's choice which numbers may be read as wider ones (`Widening`): the theorem is true of every choice.
ghost use Rattle.std.specs.Prelude.{◌≡◌, ◌↔◌, ◌⊎◌, ℤ, List, None, Some};
ghost use Rattle.std.specs.Bool.{Decides};
ghost use Rattle.dtype_base.specs.Primitives.{IsFloat, IsInteger};
ghost use Rattle.dtype_base.specs.declared.nullability.Nullability.{Nullability};
ghost use Rattle.dtype_base.specs.declared.nullability.Nullability.TheVariants.{Nullable};
ghost use Rattle.dtype_base.specs.declared.ptype.PType.{PType};
ghost use Rattle.dtype_types.specs.nullability.Merged.{merged};
ghost use Rattle.dtype_types.specs.nullability.Nullable.{IsNullable, set_null};
ghost use Rattle.dtype_types.specs.nullability.Sub.{Sub};
ghost use Rattle.dtype_types.specs.tree.Erase.{erase};
ghost use Rattle.dtype_types.specs.tree.Tree.{Tree, null, primitive};
ghost use Rattle.dtype_types.specs.tree.Valid.{Valid};
ghost use Rattle.dtype_types.specs.values.Value.{IntegerOf, Of, Value};
ghost use Rattle.dtype_paths.specs.At.{At, ExistsIn};
ghost use Rattle.dtype_paths.specs.declared.field.Field.{Field};
ghost use Rattle.dtype_merging.specs.Filled.{filled};
ghost use Rattle.dtype_merging.specs.MergedColumns.{columns_merged};
ghost use Rattle.dtype_merging.specs.ReadsAs.{HaveNoReader, IsLeastReader, ReadsAs, SameColumns};
ghost use Rattle.dtype_merging.specs.declared.widening.Widening.{Widening};
ghost use Rattle.dtype_merging.specs.declared.widening.Widening.TheVariants as widening;

use crate::widening::Widening;

/// What can be read as what is an order up to the order of columns. For all types `t`, `u` and `v`:
/// - `itself`: `t` can be read as `t`.
/// - `more`: if `t` can be read as `u`, and `u` can be read as `v`, then `t` can be read as `v`.
/// - `back`: if each of `t` and `u` can be read as the other, then the two are the same up to the order of columns.
/// - `same`: if `t` and `u` are the same up to the order of columns, then `t` can be read as `u`.
///
/// For example, each of `{a=i32, b=utf8}` and `{b=utf8, a=i32}` can be read as the other. In `same` and `back`, the columns
/// of the keys of a map are in the same order if the keys are sorted (`SameOrder`). With this law a caller knows that a
/// schema that was extended several times still reads the oldest file.
///
/// About [`merge_columns`] and [`reads_as`].
#[tactic(auto, using(crate::proofs::lemmas::Reading::reads_itself, crate::proofs::lemmas::Reading::reads_more, crate::proofs::lemmas::Reading::reads_back, crate::proofs::lemmas::Reading::same_reads))]
pub fn reading_is_an_order()
    ensures itself { (w : Widening) (t : Tree) → ReadsAs w t t }
    ensures more { (w : Widening) (t u v : Tree) → ReadsAs w t u → ReadsAs w u v → ReadsAs w t v }
    ensures back { (w : Widening) (t u : Tree) → ReadsAs w t u → ReadsAs w u t → SameColumns t u }
    ensures same { (w : Widening) (t u : Tree) → SameColumns t u → ReadsAs w t u }
{}

/// For all types `t` and `u`:
/// - `subset`: if `t` is a subset of `u`, then `t` can be read as `u`.
/// - `nullable`: if `t` can be read as `u`, and `t` is nullable, then `u` is nullable.
///
/// For example, `{a=i32}` can be read as `{a=i32?}`. So the order by columns contains the order by nullability.
///
/// About [`merge_columns`] and [`reads_as`].
#[tactic(auto, using(crate::proofs::lemmas::Reading::sub_reads, crate::proofs::lemmas::Reading::reads_nullable))]
pub fn subsets_can_be_read()
    ensures subset { (w : Widening) (t u : Tree) → Sub t u → ReadsAs w t u }
    ensures nullable { (w : Widening) (t u : Tree) → ReadsAs w t u → IsNullable t → IsNullable u }
{}

/// For every type `t`:
/// - `read`: `null` can be read as `t` exactly if `t` is nullable.
/// - `first` and `second`: merging `t` with `null`, in both orders, returns `t` with its outer nullability set to
///   `Nullable`.
///
/// For example, merging `null` and `list(i32)` returns `list(i32)?`. So a file in which a column has only nulls, and which
/// was therefore written with the type `null`, can be read together with files that have other values in that column.
///
/// About [`merge_columns`] and [`reads_as`].
#[tactic(auto, using(crate::proofs::lemmas::MergeLaws::with_nulls))]
pub fn null_is_read_as_each_nullable_type()
    ensures read { (w : Widening) (t : Tree) → ReadsAs w null t ↔ IsNullable t }
    ensures first { (w : Widening) (t : Tree) → columns_merged w null t ≡ set_null t Nullable }
    ensures second { (w : Widening) (t : Tree) → columns_merged w t null ≡ set_null t Nullable }
{}

/// For all types `t` and `u` such that `t` is valid and `u` can be read as `t`, merging the two, in both orders, returns a
/// type that is `t` up to the order of columns. For example, merging `{a=i32?, b=utf8}` and `{b=utf8, a=i32}` returns
/// `{a=i32?, b=utf8}`. With this law a caller knows that a file which can be read as a table leaves the type of the table
/// as it is.
///
/// About [`merge_columns`] and [`reads_as`].
#[tactic(auto, using(crate::proofs::lemmas::MergeLaws::changes_nothing, crate::proofs::lemmas::MergeLaws::changes_nothing_turned))]
pub fn merging_with_what_is_read_changes_nothing()
    ensures after { (w : Widening) (t u : Tree) → Valid t → ReadsAs w u t
        → ((c : Tree) × (columns_merged w t u ≡ Some c) × SameColumns c t) }
    ensures before { (w : Widening) (t u : Tree) → Valid t → ReadsAs w u t
        → ((c : Tree) × (columns_merged w u t ≡ Some c) × SameColumns c t) }
{}

/// If the key types `t` and `u` of two maps are equal except for nullabilities, then each value of `t`, read as `u`, is the
/// same value. So sorted keys stay sorted where `StaySorted` says so: a reader doesn't change them. For example, the value
/// `{a=1, b=2}` of `{a=i32, b=i32}` is the same value of `{a=i32?, b=i32}`.
///
/// About [`merge_columns`].
#[tactic(auto, using(crate::proofs::lemmas::Filling::same_filled))]
pub fn keys_that_stay_sorted_stay_the_same()
    ensures { (t u : Tree) (v : Value) → erase t ≡ erase u → Of v t → filled t u v ≡ v }
{}

/// For all types `t` and `u` such that `t` can be read as `u`, and for each value `v` of `t`, `filled t u v` is a value
/// of `u`. It is `v` with the columns in the order of `u`, and null for each column that `t` lacks. For example, the
/// value `{b="x", a=1}` of `{b=utf8, a=i32}`, read as `{a=i32, b=utf8?, c=u8?}`, is `{a=1, b="x", c=null}`. With this law
/// a caller knows that a reader can do what the name `ReadsAs` promises.
///
/// About [`merge_columns`] and [`reads_as`].
#[tactic(auto, using(crate::proofs::lemmas::Filling::of_filled))]
pub fn values_are_filled()
    ensures { (w : Widening) (t u : Tree) (v : Value) → ReadsAs w t u → Of v t → Of (filled t u v) u }
{}

/// For all types `t` and `u` such that `t` can be read as `u`, and for all types `a`, `b` and `c` such that
/// `columns_merged w a b` is `Some c`:
/// - `read`: each path that leads to a type in `t` leads in `u` to one as which that type can be read.
/// - `merged`: each path that exists in `c` exists in `a` or in `b`.
///
/// For example, `a.b` leads to `i32` in `{a={b=i32}}`, and to `i32?` in `{c=u8?, a={b=i32?}}`. With this law a caller knows
/// that a path which exists in a file exists in the table, and that a path which the table has is in one of its files.
///
/// About [`merge_columns`].
#[tactic(auto, using(crate::proofs::lemmas::Paths::read_at))]
pub fn paths_lead_to_what_is_read()
    ensures read { (w : Widening) (t u x : Tree) (p : List Field) → ReadsAs w t u → At t p x
        → ((y : Tree) × At u p y × ReadsAs w x y) }
    ensures merged { (w : Widening) (a b c : Tree) (p : List Field) → columns_merged w a b ≡ Some c → ExistsIn c p
        → (ExistsIn a p ⊎ ExistsIn b p) }
{}

/// For all types `a`, `b` and `c`:
/// - `least`: if `columns_merged w a b` is `Some c`, then both `a` and `b` can be read as `c`, and `c` can be read as each
///   valid type as which both can be read.
/// - `none`: if `columns_merged w a b` is `None`, then there is no valid type as which both can be read.
/// - `valid`: if `columns_merged w a b` is `Some c`, and `a` and `b` are valid, then `c` is valid.
///
/// So for valid types `columns_merged` is `None` exactly if no valid type reads both. For example, both `{a=i32}`
/// and `{b=utf8}` can be read as `{a=i32?, b=utf8?}`, which is their merged type, and as `{b=utf8?, a=i32?, c=u8?}`, as
/// which the merged type can be read. The types `{a=i32}` and `{a=utf8}` can't be read as one type.
///
/// About [`merge_columns`].
#[tactic(auto, using(crate::proofs::lemmas::MergeLaws::merged_is_least, crate::proofs::lemmas::MergeLaws::none_has_no_reader, crate::proofs::lemmas::MergeLaws::merge_valid))]
pub fn what_is_merged_is_the_least_reader()
    ensures least { (w : Widening) (a b c : Tree) → columns_merged w a b ≡ Some c → IsLeastReader w a b c }
    ensures none { (w : Widening) (a b : Tree) → columns_merged w a b ≡ None → HaveNoReader w a b }
    ensures valid { (w : Widening) (a b c : Tree) → columns_merged w a b ≡ Some c → Valid a → Valid b → Valid c }
{}

/// For all valid types `a` and `b` that are equal except for nullabilities, `columns_merged w a b` is what
/// `merge_nullability` makes of them, `merged a b`. So merging a type with itself returns that type. For example, merging
/// `{a=i32}` and `{a=i32?}` returns `{a=i32?}`, also if integers may be widened. With this law a caller can use one call
/// for all schemas.
///
/// About [`merge_columns`].
#[tactic(auto, using(crate::proofs::lemmas::MergeLaws::as_by_nullability))]
pub fn equal_columns_are_merged_by_nullability()
    ensures { (w : Widening) (a b : Tree) → Valid a → Valid b → erase a ≡ erase b → columns_merged w a b ≡ merged a b }
{}

/// Up to the order of columns, merging is commutative and associative. For all valid types `a`, `b` and `c`:
/// - `commutative`: if `a` and `b` can be merged, then `b` and `a` can be, and the two results are the same up to the
///   order of columns.
/// - `left`: if `a` and `b` can be merged to `x`, and `x` and `c` to `y`, then `b` and `c` can be merged to some `z`, and
///   `a` and `z` to some `v`, which is the same as `y` up to the order of columns.
/// - `right`: the other way around.
///
/// For example, merging `{a=i32}` and `{b=utf8}` returns `{a=i32?, b=utf8?}`, and merging `{b=utf8}` and `{a=i32}` returns
/// `{b=utf8?, a=i32?}`. So a program can merge the schemas of several files in any order.
///
/// About [`merge_columns`].
#[tactic(auto, using(crate::proofs::lemmas::MergeLaws::turned_around, crate::proofs::lemmas::MergeLaws::from_the_left, crate::proofs::lemmas::MergeLaws::from_the_right))]
pub fn columns_are_merged_in_any_order()
    ensures commutative { (w : Widening) (a b c : Tree) → Valid a → Valid b → columns_merged w a b ≡ Some c
        → ((d : Tree) × (columns_merged w b a ≡ Some d) × SameColumns c d) }
    ensures left { (w : Widening) (a b c x y : Tree) → Valid a → Valid b → Valid c → columns_merged w a b ≡ Some x
        → columns_merged w x c ≡ Some y
        → ((z v : Tree) × (columns_merged w b c ≡ Some z) × (columns_merged w a z ≡ Some v) × SameColumns y v) }
    ensures right { (w : Widening) (a b c z v : Tree) → Valid a → Valid b → Valid c → columns_merged w b c ≡ Some z
        → columns_merged w a z ≡ Some v
        → ((x y : Tree) × (columns_merged w a b ≡ Some x) × (columns_merged w x c ≡ Some y) × SameColumns v y) }
{}

/// Whichever numbers the caller allows to be read as wider ones, no value is lost. For all primitive types `p` and `q`:
/// - `without`: with `Widening::None`, `p` can be read as `q` only if the two are the same.
/// - `integers`: if `p` is an integer type and can be read as `q` with `Widening::Integers`, then each integer of `p` is one of
///   `q`.
/// - `all`: the other way around, if `p` is an integer type, and each integer of `p` is one of `q`, then `p` can be read as `q`
///   with `Widening::Integers`.
/// - `floats`: a floating-point type can be read as itself only.
///
/// For example, `u8` can be read as `i16`, whose integers are those from -32,768 to 32,767. So a program that reads a column
/// of one type as a column of a wider type converts each number without a loss.
///
/// About [`merge_columns`] and [`reads_as`].
#[tactic(auto, using(crate::proofs::lemmas::Numbers::numbers))]
pub fn widened_numbers_keep_their_values()
    ensures without { (p q : PType) (m n : Nullability) → ReadsAs widening.None (primitive p m) (primitive q n) → p ≡ q }
    ensures integers { (p q : PType) (m n : Nullability) (z : ℤ) → ReadsAs widening.Integers (primitive p m) (primitive q n)
        → IntegerOf p z → IntegerOf q z }
    ensures all { (p q : PType) (n : Nullability) → IsInteger p → ((z : ℤ) → IntegerOf p z → IntegerOf q z)
        → ReadsAs widening.Integers (primitive p n) (primitive q n) }
    ensures floats { (w : Widening) (p q : PType) (m n : Nullability) → IsFloat p
        → ReadsAs w (primitive p m) (primitive q n) → p ≡ q }
{}

/// For all choices `a` and `b`, `a == b` is true exactly if `a` and `b` are the same choice. With this law a caller can
/// conclude from a test by `==` which words of a contract a result is about.
///
/// About [`Widening`].
pub fn equal_choices_are_the_same()
    ensures { (a b : Widening) → Decides (⟦<Widening as PartialEq>⟧.eq a b) (a ≡ b) }
{}
