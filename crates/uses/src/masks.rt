// SPDX-License-Identifier: Apache-2.0
// SPDX-FileCopyrightText: Copyright the Vortex contributors

//! A reader that descends a table with a mask, and one that is handed lists of masks: what is asked of it further down, and
//! which paths one of the masks selects.
#![tactic(auto, using(vortex_dtype::proofs::rulesets::stepping))]

ghost use Rattle.std.specs.Prelude.{◌≡◌, ◌↔◌, ◌∷◌, IfOk, IfSome, IsTrue, List};
ghost use Rattle.std.specs.FinSet as set;
ghost use Rattle.std.specs.List.{Any};
ghost use Rattle.vortex_dtype.specs.In.{In};
ghost use Rattle.vortex_dtype.specs.PathOrder.{set_of};
ghost use Rattle.vortex_dtype.specs.Types.Field.{Field};

use std::alloc::Global;
use vortex_dtype::{Field, FieldMask, FieldPath, VortexResult, field_path};

/// The mask of a projected column two levels down, after both its names: all is asked for there.
pub fn mask_of_column(alloc: Global, table: &str, column: &str) -> VortexResult<FieldMask>
    ensures { IfOk result (λ m. m ≡ FieldMask.All) }
{
    let mask = FieldMask::Prefix(field_path!(alloc, table, column)?);
    mask.step_into()?.step_into()
}

/// What is asked below a field, where the mask begins with it.
#[tactic(auto, using(vortex_dtype::proofs::rulesets::stepped_masks))]
pub fn mask_below_field(mask: FieldMask, field: &Field) -> VortexResult<Option<FieldMask>>
    ensures { IfOk result (λ found. IfSome found (λ m. (q : List Field) → In m q ↔ In mask (field.now ∷ q))) }
{
    if mask.starting_field()? != Some(field) {
        return Ok(None);
    }
    Ok(Some(mask.step_into()?))
}

/// The masks of some columns alone: one of them selects a path where the list has it.
#[tactic(auto, using(vortex_dtype::proofs::rulesets::mask_lists))]
pub fn exact_masks(alloc: Global, columns: Vec<FieldPath>) -> VortexResult<Vec<FieldMask>>
    ensures { IfOk result (λ ms. (q : List Field) → Any (λ m. In m q) ms.items
        ↔ IsTrue (set.contains (set_of columns.items) q)) }
{
    Ok(columns.into_iter().map(FieldMask::Exact).collect(alloc)?)
}

/// Whether one of some masks selects everything.
#[tactic(auto, using(vortex_dtype::proofs::rulesets::mask_lists))]
pub fn selects_all(masks: &[FieldMask]) -> bool
    ensures { IsTrue result ↔ Any (λ m. (q : List Field) → In m q) masks.now }
{
    masks.iter().any(|mask| mask.matches_all())
}
