// SPDX-License-Identifier: Apache-2.0
// SPDX-FileCopyrightText: Copyright the Vortex contributors

//! A reader that serves several queries: how what they ask for is related.
#![tactic(auto, using(vortex_dtype::proofs::rulesets::set_relations))]

ghost use Rattle.std.specs.Prelude.{◌≡◌, ◌↔◌, ◌≤◌, IfOk, IsTrue, List, false};
ghost use Rattle.std.specs.FinSet as set;
ghost use Rattle.vortex_dtype.specs.Types.Field.{Field};

use vortex_dtype::{FieldPath, FieldPathSet, VortexResult};

/// Whether a query is served by what is open: each path that it asks for is there.
pub fn is_served(query: &FieldPathSet, opened: &FieldPathSet) -> bool
    ensures each { IsTrue result ↔ ((p : List Field) → IsTrue (set.contains query.now p)
        → IsTrue (set.contains opened.now p)) }
    ensures fewer { IsTrue result → set.len query.now ≤ set.len opened.now }
{
    query.is_subset(opened)
}

/// Whether two queries may be told apart by nothing but who asks: both ask for the same paths.
pub fn is_repeated(query: &FieldPathSet, last: &FieldPathSet) -> bool
    ensures { IsTrue result ↔ (query.now ≡ last.now) }
{
    query == last
}

/// Whether no path of a query is open yet.
pub fn is_new(query: &FieldPathSet, opened: &FieldPathSet) -> bool
    ensures { IsTrue result → (p : List Field) → IsTrue (set.contains query.now p)
        → set.contains opened.now p ≡ false }
{
    query.is_disjoint(opened)
}

/// Opens what two queries ask for: a path that either asks for is there then.
#[tactic(auto, using(vortex_dtype::proofs::rulesets::has_members))]
pub fn open_for_both(
    query: &FieldPathSet,
    other: &FieldPathSet,
    path: &FieldPath,
) -> VortexResult<FieldPathSet>
    requires { IsTrue (set.contains other.now path.now) }
    ensures { IfOk result (λ s. IsTrue (set.contains s path.now)) }
{
    let _path = path;
    Ok(query.union(other)?)
}

/// How many paths are open, and whether a query needs them all: it is within them, and as long.
pub fn needs_all(query: &FieldPathSet, opened: &FieldPathSet) -> bool
    ensures { IsTrue result → query.now ≡ opened.now }
{
    opened.is_superset(query) && query.len() == opened.len()
}
