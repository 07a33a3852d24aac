// SPDX-License-Identifier: Apache-2.0
// SPDX-FileCopyrightText: Copyright the Vortex contributors

// The test whether a type can be read as another.
ghost use Rattle.std.specs.Prelude.{◌≡◌, ◌↔◌, IsTrue};
ghost use Rattle.dtype_types.specs.tree.TreeOf.{children, extension_tree, fields_of, map_shown, shown, tree, variants_of};
ghost use Rattle.dtype_merging.specs.ReadsAs.{ReadsAs, keyed};
ghost use Rattle.dtype_merging.specs.private.Readable.{allowed, beside_readable, found_readable, further_nullable, is_and, kept_sorted, maps_readable, plain_readable, readable, structs_readable, tagged_readable};

use crate::merge::{have_no_repeats, keys_stay_sorted};
use crate::variants::{have_own_tags, variant_with};
use crate::widening::Widening;
use dtype_base::Nullability;
use dtype_types::{DType, ExtDTypeRef, Kind, MapDType, StructFields, UnionVariants};

/// Returns whether the first type can be read as the second: whether a reader makes a value of the second type from each
/// value of the first by adding nulls for the columns that it lacks, and by putting the columns into the order of the
/// second. A program that has a table tests with it whether a file can be read as this table.
///
/// The rules are:
/// - A struct can be read as a struct that has its fields, in any order, and further ones that are nullable. Each field
///   must be readable, by these rules, as the field of its name.
/// - `null` can be read as every nullable type.
/// - Lists, fixed-size lists of the same size, maps, and extensions with the same id and the same metadata can be read as
///   each other if their parts can.
/// - A map can be read as one that declares sorted keys (`keys_sorted`) only if it declares them too, and if the two key
///   types are equal except for nullabilities, because a reader who changes the keys may change their order.
/// - A union can be read as a union that has its variants, in any order, and further ones. A variant is found by its tag
///   and its name.
/// - A struct in which a name repeats can be read as one with the same names in the same order, field by field.
/// - With `Widening::Integers`, an integer type can be read as an integer type that has all its values: for example, `i32`
///   as `i64`, and `u8` as `i16`, but not `u8` as `i8`. A decimal can be read as a decimal of the same scale and a greater
///   precision: for example, `decimal(5,2)` as `decimal(7,2)`, but not as `decimal(7,3)`. With `Widening::None`, a type of
///   numbers can be read as the same type only.
/// - All other types can be read as the types of which they are subsets (`eq_with_nullability_subset`). So floating-point
///   types are never widened.
/// - In each place, at every depth, the second type must be nullable if the first is.
///
/// For example, `{b=utf8, a=i32}` can be read as `{a=i32, b=utf8?, c=u8?}`, and not the other way around. With
/// `Widening::Integers` it can also be read as `{a=i64, b=utf8}`. The law
/// `merging_with_what_is_read_changes_nothing` says that a file which can be read as a table leaves the type of the table
/// as it is if the two are merged.
///
/// vortex-array has no such call.
///
/// The call doesn't allocate. It looks each name of a struct up twice: in the struct itself, to find out whether a name
/// repeats, and in the other struct. In a union it compares each tag with all tags of both unions, of which there are at
/// most 256 in each. Apart from these lookups, its time grows with the sizes of the two types.
#[tactic(auto, using(crate::proofs::lemmas::Deciding::readable_Decides))]
pub fn reads_as(a: &DType, b: &DType, widening: Widening) -> bool
    ensures { IsTrue result ↔ ReadsAs widening (tree a.now) (tree b.now) }
{
    is_readable(a, b, widening)
}

// Returns whether the first type can be read as the second.
#[cycle(reading)]
fn is_readable(a: &DType, b: &DType, widening: Widening) -> bool
    ensures { result ≡ readable widening (tree a.now) (tree b.now) }
{
    match (a, b) {
        (DType::Primitive(p, m), DType::Primitive(q, n)) => {
            widening.reads_ptype(*p, *q) && allows(*m, *n)
        }
        (DType::Decimal(d, m), DType::Decimal(e, n)) => {
            widening.reads_decimal(*d, *e) && allows(*m, *n)
        }
        (DType::List(t, m), DType::List(u, n)) => allows(*m, *n) && is_readable(t, u, widening),
        (DType::FixedSizeList(t, j, m), DType::FixedSizeList(u, k, n)) => {
            *j == *k && allows(*m, *n) && is_readable(t, u, widening)
        }
        (DType::Map(t, m), DType::Map(u, n)) => allows(*m, *n) && is_map_readable(t, u, widening),
        (DType::Struct(fields, m), DType::Struct(others, n)) => {
            allows(*m, *n) && is_struct_readable(fields, others, widening)
        }
        (DType::Union(variants, m), DType::Union(others, n)) => {
            if have_own_tags(variants, others) {
                allows(*m, *n) && are_variants_found(variants, others, widening)
            } else {
                a.eq_with_nullability_subset(b)
            }
        }
        (DType::Extension(t), DType::Extension(u)) => is_extension_readable(t, u, widening),
        _ => is_plainly_readable(a, b),
    }
}

// Returns whether the second is `Nullable` if the first is.
fn allows(one: Nullability, other: Nullability) -> bool
    ensures { result ≡ allowed one other }
{
    !one.is_nullable() || other.is_nullable()
}

// Returns whether a type whose parts aren't read one by one can be read as the second. The two aren't both primitive types or
// decimals.
#[tactic(auto, using(crate::proofs::Testing::plainly_testing))]
fn is_plainly_readable(a: &DType, b: &DType) -> bool
    ensures { result ≡ plain_readable (tree a.now) (tree b.now) }
{
    if a.kind() == Kind::Null {
        b.is_nullable()
    } else {
        a.eq_with_nullability_subset(b)
    }
}

// Returns whether the first map can be read as the second, whatever their nullabilities are.
#[cycle(reading)]
fn is_map_readable(a: &MapDType, b: &MapDType, widening: Widening) -> bool
    ensures { result ≡ maps_readable widening (map_shown a.now) (map_shown b.now) }
{
    may_be_sorted(a, b)
        && is_readable(a.key_dtype(), b.key_dtype(), widening)
        && is_readable(a.value_dtype(), b.value_dtype(), widening)
}

// Returns whether the keys of the first map stay sorted if those of the second are.
fn may_be_sorted(a: &MapDType, b: &MapDType) -> bool
    ensures { result ≡ kept_sorted (map_shown a.now).2 (map_shown a.now).0 (map_shown b.now).2 (map_shown b.now).0 }
{
    !b.keys_sorted() || keys_stay_sorted(a, b)
}

// Returns whether the first extension can be read as the second.
#[cycle(reading)]
fn is_extension_readable(a: &ExtDTypeRef, b: &ExtDTypeRef, widening: Widening) -> bool
    ensures { result ≡ readable widening (extension_tree a.now) (extension_tree b.now) }
{
    a.id() == b.id()
        && a.metadata_bytes() == b.metadata_bytes()
        && is_readable(a.storage_dtype(), b.storage_dtype(), widening)
}

// Returns whether the first struct can be read as the second, whatever their nullabilities are.
#[cycle(reading)]
fn is_struct_readable(a: &StructFields, b: &StructFields, widening: Widening) -> bool
    ensures { result ≡ structs_readable widening (children a.now) (children b.now) }
{
    if have_no_repeats(a, b) {
        are_fields_found(a, b, widening) && are_further_nullable(a, b)
    } else {
        are_fields_readable(a, b, widening)
    }
}

// Returns whether each field finds a field of its name in the second, as which it can be read.
#[cycle(reading)]
fn are_fields_found(a: &StructFields, b: &StructFields, widening: Widening) -> bool
    ensures { result ≡ found_readable widening (fields_of a.now) (fields_of b.now) }
{
    for (name, dtype) in a.pairs() {
        if !is_readable_as(dtype, b.field(name.as_str()), widening) {
            return false;
        }
    }
    true
}

// Returns whether there is a second type, as which the first can be read.
#[cycle(reading)]
fn is_readable_as(dtype: &DType, other: Option<&DType>, widening: Widening) -> bool
    ensures { result ≡ is_and (λ u. readable widening (tree dtype.now) u) (shown tree other.entry) }
{
    match other {
        Some(other) => is_readable(dtype, other, widening),
        None => false,
    }
}

// Returns whether each field of the second whose name the first lacks is nullable.
fn are_further_nullable(a: &StructFields, b: &StructFields) -> bool
    ensures { result ≡ further_nullable (children a.now) (children b.now) }
{
    for (name, dtype) in b.pairs() {
        if a.field(name.as_str()).is_none() && !dtype.is_nullable() {
            return false;
        }
    }
    true
}

// Returns whether the two have the same names in the same order, and each field of the first can be read as the field at
// its position in the second.
#[cycle(reading)]
fn are_fields_readable(a: &StructFields, b: &StructFields, widening: Widening) -> bool
    ensures { result ≡ beside_readable widening (fields_of a.now) (fields_of b.now) }
{
    if a.names() != b.names() {
        return false;
    }
    for (dtype, other) in a.fields().zip(b.fields()) {
        if !is_readable(dtype, other, widening) {
            return false;
        }
    }
    true
}

// Returns whether each variant finds one of its tag and its name in the second, as which it can be read.
#[cycle(reading)]
fn are_variants_found(a: &UnionVariants, b: &UnionVariants, widening: Widening) -> bool
    ensures { result ≡ tagged_readable widening (variants_of a.now) (keyed (variants_of b.now)) }
{
    for (name, tag, dtype) in a.triples() {
        if !is_readable_as(dtype, variant_with(b, tag, name.as_str()), widening) {
            return false;
        }
    }
    true
}
