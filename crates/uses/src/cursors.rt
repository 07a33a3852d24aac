// SPDX-License-Identifier: Apache-2.0
// SPDX-FileCopyrightText: Copyright the Vortex contributors

//! A reader that descends a table by a cursor: what a query asks for further down.
#![tactic(auto, using(vortex_dtype::proofs::rulesets::stepping_into))]

ghost use Rattle.std.specs.Prelude.{◌≡◌, ◌↔◌, ◌<◌, ◌∷◌, IsTrue, List, None};
ghost use Rattle.std.specs.FinSet as set;
ghost use Rattle.vortex_dtype.specs.Cursors.{contains_below, contains_below_if};
ghost use Rattle.vortex_dtype.specs.PathPredicates.{after_step, after_steps, no_path};
ghost use Rattle.vortex_dtype.specs.Types.Field.{Field};

use vortex_dtype::{Field, FieldPath, FieldPathCursor, FieldPathSet};

/// What is asked of a column, where a query asks for something in it.
pub fn asked_of_column<'a>(asked: &'a FieldPathSet, column: &Field) -> Option<FieldPathCursor<'a>>
    ensures paths { contains_below_if result ≡ after_step column.now (set.contains asked.now) }
    ensures nothing { (result ≡ None) ↔ (after_step column.now (set.contains asked.now) ≡ no_path) }
{
    asked.cursor().step(column)
}

/// Whether something in the elements of a list column is asked for.
pub fn asks_in_elements(here: &FieldPathCursor<'_>) -> bool
    ensures { IsTrue result ↔ ((q : List Field) × IsTrue (contains_below here.now (Field.ElementType ∷ q))) }
{
    here.element().is_some()
}

/// The cursor along a whole path.
#[tactic(auto, using(vortex_dtype::proofs::rulesets::walked_cursors))]
pub fn cursor_along<'a>(asked: &'a FieldPathSet, path: &FieldPath) -> Option<FieldPathCursor<'a>>
    ensures { contains_below_if result ≡ after_steps path.now (set.contains asked.now) }
{
    let mut cursor = asked.cursor();
    for step in path.parts() {
        match cursor.step(step) {
            Some(below) => cursor = below,
            None => return None,
        }
    }
    Some(cursor)
}
