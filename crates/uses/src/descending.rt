// SPDX-License-Identifier: Apache-2.0
// SPDX-FileCopyrightText: Copyright the Vortex contributors

//! A layout reader that descends a table and a query together, step by step, and comes exactly to what `project_paths`
//! keeps.
#![tactic(auto, using(vortex_dtype::proofs::rulesets::descending))]

ghost use Rattle.std.specs.Prelude.{◌≡◌, option_and_then};
ghost use Rattle.std.specs.FinSet as set;
ghost use Rattle.vortex_dtype.specs.Along.{along};
ghost use Rattle.vortex_dtype.specs.At.{step};
ghost use Rattle.vortex_dtype.specs.Cursors.{contains_below};
ghost use Rattle.vortex_dtype.specs.Projected.{projected};
ghost use Rattle.vortex_dtype.specs.TreeOf.{shown, tree};
ghost use Rattle.vortex_dtype.specs.Types.Field.{Field};
ghost use Rattle.uses.specs.Descending.{piece_type};

use vortex_dtype::{DType, Field, FieldPath, FieldPathCursor, FieldPathSet};

/// What a reader comes to.
#[derive(Clone, Copy)]
pub enum Piece<'a> {
    /// All of this type is read.
    Whole(&'a DType),
    /// Of this type is read what the cursor asks for.
    Part(&'a DType, FieldPathCursor<'a>),
}

/// The type after one step.
#[tactic(auto, using(vortex_dtype::proofs::rulesets::one_step))]
pub fn type_after<'a>(dtype: &'a DType, field: &Field) -> Option<&'a DType>
    ensures { shown tree result ≡ step (tree dtype.now) field.now }
{
    match field {
        Field::Name(name) => dtype.as_struct_fields_opt()?.field(name.as_str()),
        Field::ElementType => dtype.as_any_size_list_element_opt(),
    }
}

/// The type after some steps.
pub fn type_along<'a>(dtype: &'a DType, path: &[Field]) -> Option<&'a DType>
    ensures { shown tree result ≡ along (tree dtype.now) path.now }
{
    match path.split_first() {
        Some((field, rest)) => type_along(type_after(dtype, field)?, rest),
        None => Some(dtype),
    }
}

/// What a reader comes to that steps along a path, in what is stored and in what is asked for: what the projection has
/// there.
pub fn piece_along<'a>(
    stored: &'a DType,
    here: &FieldPathCursor<'a>,
    path: &[Field],
) -> Option<Piece<'a>>
    ensures { option_and_then piece_type result
        ≡ option_and_then (λ u. along u path.now) (projected (tree stored.now) (contains_below here.now)) }
{
    if here.is_end() {
        return match type_along(stored, path) {
            Some(dtype) => Some(Piece::Whole(dtype)),
            None => None,
        };
    }
    let Some((field, rest)) = path.split_first() else {
        return Some(Piece::Part(stored, *here));
    };
    let Some(dtype) = type_after(stored, field) else {
        return None;
    };
    match here.step(field) {
        Some(below) => piece_along(dtype, &below, rest),
        None => None,
    }
}

/// What a query opens at a path of a table: what `project_paths` keeps there.
pub fn piece_at<'a>(
    table: &'a DType,
    asked: &'a FieldPathSet,
    path: &FieldPath,
) -> Option<Piece<'a>>
    ensures { option_and_then piece_type result
        ≡ option_and_then (λ u. along u path.now) (projected (tree table.now) (set.contains asked.now)) }
{
    piece_along(table, &asked.cursor(), path.parts())
}
