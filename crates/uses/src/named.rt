// SPDX-License-Identifier: Apache-2.0
// SPDX-FileCopyrightText: Copyright the Vortex contributors

//! A reader that goes over the columns that are asked for here: by name, with what is asked for in each. The iterator of a
//! cursor's names has the chains of std, and what they answer is said in words of the cursor.
#![tactic(auto)]

ghost use Rattle.std.specs.Prelude.{◌↔◌, ◌∷◌, [], ℕ, IfSome, IsTrue, List, Contains};
ghost use Rattle.vortex_dtype.specs.Cursors.{contains_below};
ghost use Rattle.vortex_dtype.specs.Lookups.{field_names};
ghost use Rattle.vortex_dtype.specs.TreeOf.{children};
ghost use Rattle.vortex_dtype.specs.Types.Field.{Field};

use vortex_dtype::{Field, FieldName, FieldPathCursor, StructFields};

/// Whether each column that is asked for is asked for whole.
pub fn are_all_whole(here: &FieldPathCursor<'_>) -> bool
    ensures { IsTrue result ↔ ((n : List ℕ) (q : List Field)
        → IsTrue (contains_below here.now (Field.Name n ∷ q)) → IsTrue (contains_below here.now (Field.Name n ∷ []))) }
{
    here.names().all(|(_, below)| below.is_end())
}

/// A column that is asked for and that a table has.
#[tactic(auto, using(vortex_dtype::proofs::rulesets::presence))]
pub fn known_column<'a>(here: &FieldPathCursor<'a>, table: &StructFields) -> Option<&'a FieldName>
    ensures { IfSome result (λ n. Contains (field_names (children table.now)) n.now
        × ((q : List Field) × IsTrue (contains_below here.now (Field.Name n.now ∷ q)))) }
{
    match here
        .names()
        .find(|(name, _)| table.find(name.as_str()).is_some())
    {
        Some((name, _)) => Some(name),
        None => None,
    }
}
