// SPDX-License-Identifier: Apache-2.0
// SPDX-FileCopyrightText: Copyright the Vortex contributors

//! A reader that is handed lists of paths: which paths their set has and covers, one by one.
#![tactic(auto, using(vortex_dtype::proofs::rulesets::members))]

ghost use Rattle.std.specs.Prelude.{◌≡◌, ◌↔◌, ◌⊎◌, Contains, IfOk, IsTrue, List, OnOk};
ghost use Rattle.std.specs.FinSet as set;
ghost use Rattle.vortex_dtype.specs.At.{ExistsIn};
ghost use Rattle.vortex_dtype.specs.Beginning.{Beginning};
ghost use Rattle.vortex_dtype.specs.Covering.{covers};
ghost use Rattle.vortex_dtype.specs.PathOrder.{set_of};
ghost use Rattle.vortex_dtype.specs.TreeOf.{tree};
ghost use Rattle.vortex_dtype.specs.Types.Field.{Field};

use std::alloc::Global;
use vortex_dtype::{DType, Field, FieldPath, FieldPathSet, VortexResult};

/// Whether a column is in the list that a query gives, word for word: as the list has it, and as its set does.
pub fn is_listed(alloc: Global, columns: Vec<FieldPath>, column: &FieldPath) -> VortexResult<bool>
    ensures set { IfOk result (λ b. b ≡ set.contains (set_of columns.items) column.now) }
    ensures list { IfOk result (λ b. IsTrue b ↔ Contains columns.items column.now) }
{
    let asked = FieldPathSet::from_iter(alloc, columns)?;
    Ok(asked.contains(column))
}

/// Asks for what another reader asks for: a column that it covers is covered then, as is one that was.
#[tactic(auto, using(vortex_dtype::proofs::rulesets::covers_members))]
pub fn ask_for_other(
    asked: &mut FieldPathSet,
    other: FieldPathSet,
    column: &FieldPath,
) -> VortexResult<()>
    requires { IsTrue (covers asked.old column.now) ⊎ IsTrue (covers other column.now) }
    ensures { OnOk result (IsTrue (covers asked.new column.now)) }
{
    let _column = column;
    asked.extend(other.into_iter()?)?;
    Ok(())
}

/// A query with one path more: it covers what it covered, and what begins with that path.
#[tactic(auto, using(vortex_dtype::proofs::rulesets::made_coverage))]
pub fn with_one_more(mut asked: FieldPathSet, path: FieldPath) -> VortexResult<FieldPathSet>
    ensures { IfOk result (λ s. (p : List Field) → IsTrue (covers s p)
        ↔ (IsTrue (covers asked p) ⊎ Beginning path p)) }
{
    asked.insert(path)?;
    Ok(asked)
}

/// Asks for what another reader asks for: what either covers is covered then.
#[tactic(auto, using(vortex_dtype::proofs::rulesets::united_coverage))]
pub fn ask_union(asked: &mut FieldPathSet, other: FieldPathSet) -> VortexResult<()>
    ensures { OnOk result ((q : List Field) → IsTrue (covers asked.new q)
        ↔ (IsTrue (covers asked.old q) ⊎ IsTrue (covers other q))) }
{
    asked.extend(other.into_iter()?)
}

/// Asks for a column if a table has it: all that is asked for is in the table still.
#[tactic(auto, using(vortex_dtype::proofs::rulesets::has_members))]
pub fn ask_if_known(asked: &mut FieldPathSet, path: FieldPath, table: &DType) -> VortexResult<bool>
    requires { (p : List Field) → IsTrue (set.contains asked.old p) → ExistsIn (tree table.now) p }
    ensures known { OnOk result ((p : List Field)
        → IsTrue (set.contains asked.new p) → ExistsIn (tree table.now) p) }
    ensures there { IfOk result (λ b. IsTrue b → IsTrue (set.contains asked.new path)) }
{
    if !path.exists_in(table) {
        return Ok(false);
    }
    asked.insert(path)?;
    Ok(true)
}
