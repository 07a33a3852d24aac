// SPDX-License-Identifier: Apache-2.0
// SPDX-FileCopyrightText: Copyright the Vortex contributors

ghost use Rattle.std.specs.Prelude.{◌≡◌, ◌&&◌, ◌++◌, IfNone, IfOk, IfSome, map};
ghost use Rattle.std.specs.Option.{option_map};
ghost use Rattle.dtype_base.specs.Errors.{Makes};
ghost use Rattle.dtype_types.specs.tree.Tree.{struct};
ghost use Rattle.dtype_types.specs.tree.TreeOf.{children, extension_tree, fields_of, map_shown, shown, tree, variants_of};
ghost use Rattle.dtype_types.specs.tree.Valid.{Valid};
ghost use Rattle.dtype_types.specs.values.Value.{Of, Value};
ghost use Rattle.dtype_merging.specs.Filled.{filled};
ghost use Rattle.dtype_merging.specs.MergedColumns.{column, columns_merged, further, merged_beside, merged_by_name, merged_by_tag, no_repeats, others_merged, struct_with, variant_type};
ghost use Rattle.dtype_merging.specs.ReadsAs.{HaveNoReader, IsLeastReader, keyed};
ghost use Rattle.dtype_merging.specs.private.Collected.{collected, gathered, maps_merged, maps_stay_sorted, types_merged, unions_merged};

use crate::variants::{have_own_tags, union_of, variant_with, with_further_variants};
use crate::widening::Widening;
use dtype_base::{FieldName, Nullability, VortexResult};
use dtype_types::{
    DType, DTypeIter, ExtDTypeRef, FieldDType, Kind, MapDType, StructFields, UnionVariants,
    merge_nullability,
};
use std::alloc::Global;

/// Returns the least type as which both types can be read, or `None` if there is none. A program that reads several
/// files as one table needs this type if the files have different columns.
///
/// The rules are:
/// - A struct has the fields of the first in their order, and then those of the second that the first lacks. A field
///   that both have is merged by these rules. A field that one of the two lacks is nullable.
/// - `null` can be merged with every type, which is made nullable. So a column that has only nulls in one file, and was
///   written as `null`, has the type that the other file has.
/// - Lists, fixed-size lists of the same size, maps, and extensions with the same id and the same metadata are merged by
///   their parts. Maps whose merged key type would be nullable can't be merged.
/// - The merged map declares sorted keys (`keys_sorted`) only if both maps do, and if the two key types are equal except
///   for nullabilities. Otherwise the reader may have to change the keys, and changed keys needn't be sorted. For example,
///   it puts the columns of the keys of `map({b=i32, a=i32}, u8, keys_sorted=true)` into the order `a`, `b`, if this map
///   is merged with `map({a=i32, b=i32}, u8, keys_sorted=true)`.
/// - A union has the variants of the first in their order, and then those of the second that the first lacks. A variant that
///   both have, with the same tag and the same name, is merged by these rules. A variant that one of the two lacks stays as
///   it is. Unions in which a tag has two names, or a name has two tags, can't be merged.
/// - Structs in which a name repeats are merged field by field, if the names are the same in the same order, because their
///   columns can't be told apart by name.
/// - With `Widening::Integers`, two integer types are merged to the narrowest integer type that has all values of both, if
///   there is one. For example, `i32` and `i64` are merged to `i64`, and `u8` and `i8` to `i16`. There is none for `u64`
///   and a signed type. Two decimals of the same scale are merged to the one with the greater precision: for example,
///   `decimal(5,2)` and `decimal(7,2)` to `decimal(7,2)`. With `Widening::None`, numbers are merged only if their types are
///   the same.
/// - All other types are merged as `merge_nullability` merges them. So floating-point types are never widened.
/// - In each place, at every depth, the merged type is nullable if one of the two types is nullable there.
///
/// For example, merging `{a=i32, b=utf8}` and `{c=u8, a=i32?}` returns `{a=i32?, b=utf8?, c=u8?}`. Merging `{a=null}` and
/// `{a=list(i32)}` returns `{a=list(i32)?}`. Merging `{a=i32}` and `{a=i64}` returns `{a=i64}` with `Widening::Integers`,
/// and `None` with `Widening::None`. Merging `union(x@5={a=i32})` and `union(x@5={b=u8}, y@9=utf8)` returns
/// `union(x@5={a=i32?, b=u8?}, y@9=utf8)`. Merging `{a=i32}` and `{a=utf8}` returns `None`, and `merge_conflict` returns
/// the path `a` and the two types there.
///
/// If a session accepts the extensions of both types, it needn't accept those of the merged type, because a plugin decides
/// for itself which storage types it accepts. For example, a plugin that accepts only structs with one column accepts the
/// storage types `{a=i32}` and `{b=i32}`, but not the merged one, `{a=i32?, b=i32?}`. Then `to_proto` writes the merged
/// type as a message, and `from_proto` refuses to read it with `MetadataRefused` (22).
///
/// vortex-array has no such call.
///
/// The call looks each name of a struct up twice: in the struct itself, to find out whether a name repeats, and in the
/// other struct. In a union it compares each tag with all tags of both unions, of which there are at most 256 in each, and
/// for a merged union it makes hash sets of the names and of the tags. Apart from these lookups and sets, its time grows
/// with the sizes of the two types. It copies the types of fields and variants that only one of the two has, and these
/// copies share their fields with the originals.
///
/// # Errors
///
/// - `OutOfMemory` (0): an allocation fails, or a reference count is at its maximum.
#[tactic(auto, using(crate::proofs::lemmas::MergeLaws::returned))]
pub fn merge_columns(
    alloc: Global,
    a: &DType,
    b: &DType,
    widening: Widening,
) -> VortexResult<Option<DType>>
    ensures ok { Makes result (λ r. option_map tree r ≡ columns_merged widening (tree a.now) (tree b.now)) }
    ensures least { IfOk result (λ r. IfSome r (λ c. IsLeastReader widening (tree a.now) (tree b.now) (tree c))) }
    ensures none { IfOk result (λ r. IfNone r (HaveNoReader widening (tree a.now) (tree b.now))) }
    ensures values { IfOk result (λ r. IfSome r (λ c.
        ((v : Value) → Of v (tree a.now) → Of (filled (tree a.now) (tree c) v) (tree c))
        × ((v : Value) → Of v (tree b.now) → Of (filled (tree b.now) (tree c) v) (tree c)))) }
    ensures valid { Valid (tree a.now) → Valid (tree b.now) → IfOk result (λ r. IfSome r (λ c. Valid (tree c))) }
{
    Ok(merge(alloc, a, b, widening)?)
}

// Returns the merged type, or `None` if there is none.
#[cycle(merging)]
fn merge(alloc: Global, a: &DType, b: &DType, widening: Widening) -> VortexResult<Option<DType>>
    ensures { Makes result (λ r. option_map tree r ≡ columns_merged widening (tree a.now) (tree b.now)) }
{
    match (a, b) {
        (DType::Primitive(p, m), DType::Primitive(q, n)) => match widening.common_ptype(*p, *q) {
            Some(common) => Ok(Some(DType::Primitive(common, *m | *n))),
            None => Ok(None),
        },
        (DType::Decimal(d, m), DType::Decimal(e, n)) => match widening.common_decimal(*d, *e) {
            Some(common) => Ok(Some(DType::Decimal(common, *m | *n))),
            None => Ok(None),
        },
        (DType::List(t, m), DType::List(u, n)) => match merge(alloc, t, u, widening)? {
            Some(element) => Ok(Some(DType::list(alloc, element, *m | *n)?)),
            None => Ok(None),
        },
        (DType::FixedSizeList(t, j, m), DType::FixedSizeList(u, k, n)) => {
            if *j != *k {
                return Ok(None);
            }
            match merge(alloc, t, u, widening)? {
                Some(element) => Ok(Some(DType::fixed_size_list(alloc, element, *j, *m | *n)?)),
                None => Ok(None),
            }
        }
        (DType::Map(t, m), DType::Map(u, n)) => merge_maps(alloc, t, u, *m | *n, widening),
        (DType::Struct(fields, m), DType::Struct(others, n)) => {
            if have_no_repeats(fields, others) {
                merge_structs(alloc, fields, others, *m | *n, widening)
            } else {
                merge_in_order(alloc, fields, others, *m | *n, widening)
            }
        }
        (DType::Union(variants, m), DType::Union(others, n)) => {
            merge_unions(alloc, variants, others, *m | *n, widening)
        }
        (DType::Extension(t), DType::Extension(u)) => merge_extensions(alloc, t, u, widening),
        _ => merge_others(alloc, a, b),
    }
}

// Returns the merged type of two types whose parts aren't merged one by one, and that aren't both primitive types or decimals.
#[tactic(auto, using(crate::proofs::lemmas::Merging::merging_others))]
fn merge_others(alloc: Global, a: &DType, b: &DType) -> VortexResult<Option<DType>>
    ensures { Makes result (λ r. option_map tree r ≡ others_merged (tree a.now) (tree b.now)) }
{
    if a.kind() == Kind::Null {
        return Ok(Some(b.as_nullable(alloc)?));
    }
    if b.kind() == Kind::Null {
        return Ok(Some(a.as_nullable(alloc)?));
    }
    Ok(merge_nullability(alloc, a, b)?)
}

// Returns the merged type of two maps. Its outer nullability is `n`.
#[cycle(merging)]
fn merge_maps(
    alloc: Global,
    a: &MapDType,
    b: &MapDType,
    n: Nullability,
    widening: Widening,
) -> VortexResult<Option<DType>>
    ensures { Makes result (λ r. option_map tree r ≡ maps_merged widening (map_shown a.now) (map_shown b.now) n) }
{
    let Some(key) = merge(alloc, a.key_dtype(), b.key_dtype(), widening)? else {
        return Ok(None);
    };
    if key.is_nullable() {
        return Ok(None);
    }
    match merge(alloc, a.value_dtype(), b.value_dtype(), widening)? {
        Some(value) => Ok(Some(DType::map(alloc, key, value, keys_stay_sorted(a, b), n)?)),
        None => Ok(None),
    }
}

// Returns whether the keys of the merged map are sorted.
pub(crate) fn keys_stay_sorted(a: &MapDType, b: &MapDType) -> bool
    ensures { result ≡ maps_stay_sorted (map_shown a.now) (map_shown b.now) }
{
    a.keys_sorted() && b.keys_sorted() && a.key_dtype().eq_ignore_nullability(b.key_dtype())
}

// Returns the merged type of two extensions.
#[cycle(merging)]
fn merge_extensions(
    alloc: Global,
    a: &ExtDTypeRef,
    b: &ExtDTypeRef,
    widening: Widening,
) -> VortexResult<Option<DType>>
    ensures { Makes result (λ r. option_map tree r ≡ columns_merged widening (extension_tree a.now) (extension_tree b.now)) }
{
    if a.id() != b.id() || a.metadata_bytes() != b.metadata_bytes() {
        return Ok(None);
    }
    match merge(alloc, a.storage_dtype(), b.storage_dtype(), widening)? {
        Some(storage) => {
            let id = a.id().try_clone(alloc)?;
            let metadata = a.serialize_metadata(alloc)?;
            let extension = ExtDTypeRef::from_parts(alloc, id, metadata, storage)?;
            Ok(Some(DType::Extension(extension)))
        }
        None => Ok(None),
    }
}

// Returns the merged type of two structs in which no name repeats. Its outer nullability is `n`.
#[cycle(merging)]
fn merge_structs(
    alloc: Global,
    a: &StructFields,
    b: &StructFields,
    n: Nullability,
    widening: Widening,
) -> VortexResult<Option<DType>>
    ensures { Makes result (λ r. option_map tree r
        ≡ struct_with (merged_by_name widening (fields_of a.now) (fields_of b.now)) (further (children a.now) (children b.now)) n) }
{
    match merge_by_name(alloc, a, b, widening)? {
        Some(columns) => {
            let columns = with_further(alloc, columns, a, b)?;
            Ok(Some(DType::Struct(StructFields::from_iter(alloc, columns)?, n)))
        }
        None => Ok(None),
    }
}

// Returns the merged type of two structs, in one of which a name repeats. Its outer nullability is `n`.
#[cycle(merging)]
fn merge_in_order(
    alloc: Global,
    a: &StructFields,
    b: &StructFields,
    n: Nullability,
    widening: Widening,
) -> VortexResult<Option<DType>>
    ensures { Makes result (λ r. option_map tree r
        ≡ option_map (λ fs. struct fs n) (merged_beside widening (fields_of a.now) (fields_of b.now))) }
{
    if a.names() != b.names() {
        return Ok(None);
    }
    match merge_types(alloc, a.fields(), b.fields(), widening)? {
        Some(dtypes) => {
            let names = a.names().try_clone(alloc)?;
            Ok(Some(DType::Struct(StructFields::new(alloc, names, dtypes)?, n)))
        }
        None => Ok(None),
    }
}

// Returns the merged type of two unions. Its outer nullability is `n`.
#[cycle(merging)]
#[tactic(auto, using(crate::proofs::Tagging::unions_apart, crate::proofs::Tagging::unions_unmade, crate::proofs::Tagging::unions_made))]
fn merge_unions(
    alloc: Global,
    a: &UnionVariants,
    b: &UnionVariants,
    n: Nullability,
    widening: Widening,
) -> VortexResult<Option<DType>>
    ensures { Makes result (λ r. option_map tree r ≡ unions_merged widening (variants_of a.now) (variants_of b.now) n) }
{
    if !have_own_tags(a, b) {
        return Ok(None);
    }
    match merge_by_tag(alloc, a, b, widening)? {
        Some(variants) => {
            let variants = with_further_variants(alloc, variants, a, b)?;
            Ok(union_of(alloc, variants, n)?)
        }
        None => Ok(None),
    }
}

// Returns the variants of the first, each merged with the variant of its tag and its name in the second. Returns `None` if
// two such variants can't be merged.
#[cycle(merging)]
fn merge_by_tag(
    alloc: Global,
    a: &UnionVariants,
    b: &UnionVariants,
    widening: Widening,
) -> VortexResult<Option<Vec<(FieldName, u8, DType)>>>
    ensures { Makes result (λ r. option_map (λ v. gathered v.items) r
        ≡ merged_by_tag widening (variants_of a.now) (keyed (variants_of b.now))) }
{
    let mut variants = Vec::with_capacity(alloc, a.len())?;
    for (name, tag, dtype) in a.triples() {
        match merge_variant(alloc, dtype, variant_with(b, tag, name.as_str()), widening)? {
            Some(merged) => variants.push((name.try_clone(alloc)?, tag, merged))?,
            None => return Ok(None),
        }
    }
    Ok(Some(variants))
}

// Returns the type of a variant whose type in the other union is `other`, or which the other union lacks.
#[cycle(merging)]
fn merge_variant(
    alloc: Global,
    dtype: &DType,
    other: Option<&DType>,
    widening: Widening,
) -> VortexResult<Option<DType>>
    ensures { Makes result (λ r. option_map tree r
        ≡ variant_type (tree dtype.now) (λ u. columns_merged widening (tree dtype.now) u) (shown tree other.entry)) }
{
    let Some(other) = other else {
        return Ok(Some(dtype.try_clone(alloc)?));
    };
    Ok(merge(alloc, dtype, other, widening)?)
}

// Returns the types at equal positions, merged. Returns `None` if two of them can't be merged.
#[cycle(merging)]
fn merge_types(
    alloc: Global,
    a: DTypeIter<'_>,
    b: DTypeIter<'_>,
    widening: Widening,
) -> VortexResult<Option<Vec<DType>>>
    ensures { Makes result (λ r. option_map (λ v. map tree v.items) r ≡ types_merged widening (map tree a.entry) (map tree b.entry)) }
{
    let mut dtypes = Vec::with_capacity(alloc, a.len())?;
    for (dtype, other) in a.zip(b) {
        match merge(alloc, dtype, other, widening)? {
            Some(merged) => dtypes.push(merged)?,
            None => return Ok(None),
        }
    }
    Ok(Some(dtypes))
}

// Returns the fields of the first, each merged with the field of its name in the second. Returns `None` if two such
// fields can't be merged.
#[cycle(merging)]
fn merge_by_name(
    alloc: Global,
    a: &StructFields,
    b: &StructFields,
    widening: Widening,
) -> VortexResult<Option<Vec<(FieldName, FieldDType)>>>
    ensures { Makes result (λ r. option_map (λ v. collected v.items) r ≡ merged_by_name widening (fields_of a.now) (fields_of b.now)) }
{
    let mut columns = Vec::with_capacity(alloc, a.nfields())?;
    for (name, dtype) in a.pairs() {
        match merge_column(alloc, dtype, b.field(name.as_str()), widening)? {
            Some(column) => columns.push((name.try_clone(alloc)?, FieldDType::from(column)))?,
            None => return Ok(None),
        }
    }
    Ok(Some(columns))
}

// Returns the type of a column whose type in the other struct is `other`, or which the other struct lacks.
#[cycle(merging)]
fn merge_column(
    alloc: Global,
    dtype: &DType,
    other: Option<&DType>,
    widening: Widening,
) -> VortexResult<Option<DType>>
    ensures { Makes result (λ r. option_map tree r
        ≡ column (tree dtype.now) (λ u. columns_merged widening (tree dtype.now) u) (shown tree other.entry)) }
{
    match other {
        Some(other) => merge(alloc, dtype, other, widening),
        None => Ok(Some(dtype.as_nullable(alloc)?)),
    }
}

// Returns these columns followed by the fields of the second struct that the first lacks, made nullable.
fn with_further(
    alloc: Global,
    columns: Vec<(FieldName, FieldDType)>,
    a: &StructFields,
    b: &StructFields,
) -> VortexResult<Vec<(FieldName, FieldDType)>>
    ensures { Makes result (λ v. collected v.items ≡ collected columns.items ++ further (children a.now) (children b.now)) }
{
    let mut columns = columns;
    for (name, dtype) in b.pairs() {
        if a.field(name.as_str()).is_none() {
            let column = FieldDType::from(dtype.as_nullable(alloc)?);
            columns.push((name.try_clone(alloc)?, column))?;
        }
    }
    Ok(columns)
}

// Returns whether no name repeats in either of the two.
pub(crate) fn have_no_repeats(one: &StructFields, other: &StructFields) -> bool
    ensures { result ≡ (no_repeats (children one.now) && no_repeats (children other.now)) }
{
    has_no_repeats(one) && has_no_repeats(other)
}

// Returns whether no two of the fields have the same name.
#[tactic(auto, using(crate::proofs::lemmas::Repeats::first_more, crate::proofs::lemmas::Repeats::all_are_first, crate::proofs::lemmas::Repeats::not_first, std::proofs::lemmas::Option::slice_get_read))]
fn has_no_repeats(fields: &StructFields) -> bool
    ensures { result ≡ no_repeats (children fields.now) }
{
    for (i, name) in fields.names().as_slice().iter().enumerate() {
        let Some(first) = fields.find(name.as_str()) else {
            return false;
        };
        if first != i {
            return false;
        }
    }
    true
}
