// SPDX-License-Identifier: Apache-2.0
// SPDX-FileCopyrightText: Copyright the Vortex contributors

// Equality of types and their order by nullability: one walk over two types, in which the nullabilities are compared,
// ignored, or tested for being within each other.
#![tactic(auto, using(crate::proofs::KindLaws::parts_equal_under))]

ghost use Rattle.std.specs.Prelude.{◌≡◌, ◌↔◌, IsTrue, map, true};
ghost use Rattle.std.specs.Cmp.Lexicographic.{pointwise};
ghost use Rattle.dtype_types.specs.equality.Equality.{equal_under, allows};
ghost use Rattle.dtype_types.specs.tree.Erase.{erase};
ghost use Rattle.dtype_types.specs.tree.TreeOf.{tree};

use crate::DType;
use dtype_base::Nullability;

// How the nullabilities at the same node of two types are compared.
#[derive(Clone, Copy)]
pub(crate) enum NullabilityRule {
    Compared,
    Ignored,
    // The second is nullable wherever the first is.
    Within,
}

impl NullabilityRule {
    // Returns whether the rule allows these nullabilities at the same node of two types.
    pub(crate) fn allow(self, one: Nullability, other: Nullability) -> bool
        ensures { result ≡ allows self one other }
    {
        match self {
            NullabilityRule::Ignored => true,
            NullabilityRule::Compared => one.is_nullable() == other.is_nullable(),
            NullabilityRule::Within => !one.is_nullable() || other.is_nullable(),
        }
    }
}

// Returns whether the types are equal except for nullabilities, and the rule allows the nullabilities.
#[cycle(equal_under)]
pub(crate) fn equal_under(a: &DType, b: &DType, rule: NullabilityRule) -> bool
    ensures { result ≡ equal_under rule (tree a.now) (tree b.now) }
{
    match (a, b) {
        (DType::Null, DType::Null) => true,
        (DType::Bool(m), DType::Bool(n)) => rule.allow(*m, *n),
        (DType::Primitive(p, m), DType::Primitive(q, n)) => *p == *q && rule.allow(*m, *n),
        (DType::Decimal(p, m), DType::Decimal(q, n)) => {
            p.precision() == q.precision() && p.scale() == q.scale() && rule.allow(*m, *n)
        }
        (DType::Utf8(m), DType::Utf8(n)) => rule.allow(*m, *n),
        (DType::Binary(m), DType::Binary(n)) => rule.allow(*m, *n),
        (DType::List(t, m), DType::List(u, n)) => rule.allow(*m, *n) && equal_under(t, u, rule),
        (DType::FixedSizeList(t, j, m), DType::FixedSizeList(u, k, n)) => {
            rule.allow(*m, *n) && *j == *k && equal_under(t, u, rule)
        }
        (DType::Map(t, m), DType::Map(u, n)) => rule.allow(*m, *n) && t.equal_under(u, rule),
        (DType::Struct(t, m), DType::Struct(u, n)) => rule.allow(*m, *n) && t.equal_under(u, rule),
        (DType::Union(t, m), DType::Union(u, n)) => rule.allow(*m, *n) && t.equal_under(u, rule),
        (DType::Variant(m), DType::Variant(n)) => rule.allow(*m, *n),
        (DType::Extension(t), DType::Extension(u)) => t.equal_under(u, rule),
        _ => false,
    }
}

// Returns whether the types are leaves of one of the frequent kinds, and equal under the rule. It's inlined into the loop
// over the types of two lists, so that most of them are compared without a call.
#[inline(always)]
fn are_equal_leaves(a: &DType, b: &DType, rule: NullabilityRule) -> bool
    ensures { IsTrue result → equal_under rule (tree a.now) (tree b.now) ≡ true }
{
    match (a, b) {
        (DType::Bool(m), DType::Bool(n)) => rule.allow(*m, *n),
        (DType::Primitive(p, m), DType::Primitive(q, n)) => *p == *q && rule.allow(*m, *n),
        (DType::Utf8(m), DType::Utf8(n)) => rule.allow(*m, *n),
        (DType::Binary(m), DType::Binary(n)) => rule.allow(*m, *n),
        _ => false,
    }
}

// Returns whether two lists have equally many types, and the types at equal positions are equal under the rule.
#[cycle(equal_under)]
pub(crate) fn equal_dtypes(a: &[DType], b: &[DType], rule: NullabilityRule) -> bool
    ensures { result ≡ pointwise (equal_under rule) (map tree a.now) (map tree b.now) }
{
    if a.len() != b.len() {
        return false;
    }
    for (dtype, other_dtype) in a.iter().zip(b) {
        if !are_equal_leaves(dtype, other_dtype, rule) && !equal_under(dtype, other_dtype, rule) {
            return false;
        }
    }
    true
}

impl DType {
    /// Returns whether the two types are equal if every nullability in them, at any depth, is ignored. For example,
    /// `list(i32?)` and `list(i32)?` are equal in this way. Everything else is compared: names and their order, tags,
    /// sizes, `keys_sorted`, precisions and scales, ids and metadata.
    #[tactic(auto, using(crate::specs::equality::EqualityLaws::exact_tests))]
    pub fn eq_ignore_nullability(&self, other: &DType) -> bool
        ensures { IsTrue result ↔ (erase (tree self.now) ≡ erase (tree other.now)) }
    {
        equal_under(self, other, NullabilityRule::Ignored)
    }
}

#[tactic(auto, using(crate::specs::equality::EqualityLaws::exact_tests))]
impl PartialEq for DType {
    ghost use Rattle.dtype_types.specs.equality.Equality.{same_by};
    ghost use Rattle.dtype_types.specs.equality.EqualityLaws.{same_by_equiv};
    ghost use Rattle.std.specs.Cmp.{partial_equiv_from_equiv};

    ghost eq = { same_by tree };

    ghost laws = { partial_equiv_from_equiv (same_by_equiv tree) };

    fn eq(&self, other: &DType) -> bool
        ensures { IsTrue result ↔ (tree self.now ≡ tree other.now) }
    {
        equal_under(self, other, NullabilityRule::Compared)
    }
}

impl Eq for DType {
    ghost use Rattle.dtype_types.specs.equality.EqualityLaws.{same_by_equiv};

    ghost laws = { same_by_equiv tree };
}
