// SPDX-License-Identifier: Apache-2.0
// SPDX-FileCopyrightText: Copyright the Vortex contributors

//! A reader that asks whether a column is read, whether anything is, what a query keeps to, and which columns it opens.
#![tactic(auto)]

ghost use Rattle.std.specs.Prelude.{◌≡◌, ◌↔◌, ◌∷◌, [], Contains, IfOk, IsTrue, List, false};
ghost use Rattle.std.specs.FinSet as set;
ghost use Rattle.std.specs.Vec.Iter.{into_iter_items};
ghost use Rattle.vortex_dtype.specs.Covering.{SameCoverage, covers};
ghost use Rattle.vortex_dtype.specs.Overlaps.{Overlaps};
ghost use Rattle.vortex_dtype.specs.TreeOf.{tree};
ghost use Rattle.vortex_dtype.specs.Types.Field.{Field};
ghost use Rattle.vortex_dtype.specs.Unresolved.{unresolved};

use std::vec;
use vortex_dtype::{DType, Field, FieldPath, FieldPathSet, VortexResult};

/// Whether a column is read, since a query asks for it or for something above it.
#[tactic(auto, using(vortex_dtype::proofs::rulesets::lent_paths))]
pub fn is_read(asked: &FieldPathSet, column: &FieldPath) -> VortexResult<bool>
    ensures { IfOk result (λ b. IsTrue b ↔ IsTrue (covers asked.now column.now)) }
{
    Ok(
        asked
            .iter()?
            .any(|path| column.parts().starts_with(path.parts())),
    )
}

/// Whether a query reads a column whole.
#[tactic(auto, using(vortex_dtype::proofs::rulesets::set_cursors))]
pub fn reads_whole(asked: &FieldPathSet, column: &Field) -> bool
    ensures { result ≡ covers asked.now (column.now ∷ []) }
{
    let here = asked.cursor();
    if here.is_end() {
        return true;
    }
    match here.step(column) {
        Some(below) => below.is_end(),
        None => false,
    }
}

/// What either of two queries asks for, of the second its least paths alone: it covers the same.
#[tactic(auto, using(vortex_dtype::proofs::rulesets::set_unions))]
pub fn both_queries(mut asked: FieldPathSet, more: FieldPathSet) -> VortexResult<FieldPathSet>
    ensures { IfOk result (λ s. SameCoverage s (set.union asked more)) }
{
    asked.extend(more.into_iter()?)?;
    Ok(asked)
}

/// How many columns of a query a table lacks.
#[tactic(auto, using(vortex_dtype::proofs::rulesets::counting, vortex_dtype::proofs::rulesets::unresolved_paths))]
pub fn number_missing(asked: &FieldPathSet, table: &DType) -> VortexResult<usize>
    ensures { IfOk result (λ n. n ≡ set.len (unresolved asked.now (tree table.now))) }
{
    Ok(asked.unresolved(table)?.len())
}

/// The columns to open: no two of them overlap.
#[tactic(auto, using(vortex_dtype::proofs::rulesets::least_paths))]
pub fn open_apart(asked: FieldPathSet) -> VortexResult<vec::IntoIter<FieldPath>>
    ensures { IfOk result (λ r. (p q : List Field) → Contains (into_iter_items r) p
        → Contains (into_iter_items r) q → Overlaps p q → p ≡ q) }
{
    asked.into_iter()
}
