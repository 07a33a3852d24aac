// SPDX-License-Identifier: Apache-2.0
// SPDX-FileCopyrightText: Copyright the Vortex contributors

//! Paths, resolved.
#![tactic(auto, using(vortex_dtype::proofs::rulesets::stepping))]

ghost use Rattle.std.specs.Prelude.{◌≡◌, ◌↔◌, ◌++◌, ◌∷◌, [], IfSome, IsTrue, Some};
ghost use Rattle.std.specs.Option.{option_map};
ghost use Rattle.vortex_dtype.specs.Along.{along};
ghost use Rattle.vortex_dtype.specs.At.{At};
ghost use Rattle.vortex_dtype.specs.Beginning.{Beginning};
ghost use Rattle.vortex_dtype.specs.Crosses.{CrossesNoExtension};
ghost use Rattle.vortex_dtype.specs.Found.{FoundIn};
ghost use Rattle.vortex_dtype.specs.Nullable.{nullability};
ghost use Rattle.vortex_dtype.specs.TreeOf.{shown, tree};
ghost use Rattle.vortex_dtype.specs.Types.Field.{Field};
ghost use Rattle.vortex_dtype.specs.Types.Nullability.{Nullability};
ghost use Rattle.vortex_dtype.specs.Value.{Value};

use vortex_dtype::{DType, Field, FieldPath, Nullability};

/// The nullability of the type along a path, or `None` where there is none.
#[tactic(auto, using(vortex_dtype::proofs::rulesets::types_along))]
pub fn nullability_along(path: &FieldPath, dtype: &DType) -> Option<Nullability>
    ensures { result ≡ option_map nullability (along (tree dtype.now) path.now) }
{
    Some(path.resolve(dtype)?.nullability())
}

/// The type of a table's column by its name: the type along the path of that name, or `None` where there is none.
#[tactic(auto, using(vortex_dtype::proofs::rulesets::one_column))]
pub fn column_of_struct<'a>(table: &'a DType, column: &str) -> Option<&'a DType>
    ensures { shown tree result ≡ along (tree table.now) (Field.Name column.now ∷ []) }
{
    table.as_struct_fields_opt()?.field(column)
}

/// The type along two paths, one after the other, or `None` where there is none: as an equation, and as a caller has it
/// of a type that was found.
pub fn resolve_joined<'a>(path: &FieldPath, rest: &FieldPath, dtype: &'a DType) -> Option<&'a DType>
    ensures along { shown tree result ≡ along (tree dtype.now) (path.now ++ rest.now) }
    ensures found { IfSome result (λ u. At (tree dtype.now) (path.now ++ rest.now) (tree u.now)) }
{
    rest.resolve(path.resolve(dtype)?)
}

/// The type of the elements of the list along a path: the type one step further, or none where there is none.
#[tactic(auto, using(vortex_dtype::proofs::rulesets::one_step))]
pub fn element_type<'a>(path: &FieldPath, dtype: &'a DType) -> Option<&'a DType>
    ensures { shown tree result ≡ along (tree dtype.now) (path.now ++ Field.ElementType ∷ []) }
{
    path.resolve(dtype)?.as_any_size_list_element_opt()
}

/// Whether what is at a path is within what is at another.
#[tactic(auto, using(vortex_dtype::proofs::rulesets::beginnings))]
pub fn is_within(path: &FieldPath, parent: &FieldPath) -> bool
    ensures { IsTrue result ↔ Beginning parent.now path.now }
{
    path.parts().starts_with(parent.parts())
}

/// Returns whether no row of a table can have a value at a path, because the table has no type there.
#[tactic(auto, using(vortex_dtype::proofs::rulesets::unfound_values))]
pub fn has_no_values(path: &FieldPath, table: &DType) -> bool
    requires { CrossesNoExtension (tree table.now) path.now }
    ensures { IsTrue result → (v : Value) → FoundIn (tree table.now) path.now v → ⊥ }
{
    path.resolve(table).is_none()
}
