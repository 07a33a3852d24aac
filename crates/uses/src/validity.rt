// SPDX-License-Identifier: Apache-2.0
// SPDX-FileCopyrightText: Copyright the Vortex contributors

// What a caller has of a valid type: that its parts are valid, and what is made of valid types. Where a function gives a
// part, an equation says which; of what is made, only that it is valid is claimed here.
#![tactic(auto, using(vortex_dtype::proofs::rulesets::valid_held, vortex_dtype::proofs::rulesets::valid_columns))]

ghost use Rattle.std.specs.Prelude.{◌≡◌, ◌<◌, All, IfOk, IfSome, length, option_and_then, slice_get, vec_len};
ghost use Rattle.std.specs.Option.{option_map};
ghost use Rattle.dtype_types.specs.tree.Valid.{Valid, ValidItems};
ghost use Rattle.dtype_types.specs.tree.TreeOf.{tree, shown, fields_of};
ghost use Rattle.dtype_types.specs.tree.Kinds.{any_size_list_element, list_element, struct_fields};
ghost use Rattle.dtype_types.specs.parts.Lookups.{field_types};

use std::alloc::Global;
use vortex_dtype::{DType, FieldNames, StructFields, VortexResult};

/// The type of a struct's first field, or `None` where there is none; valid where the struct's is.
pub fn first_field_type(dtype: &DType) -> Option<&DType>
    ensures dtype { shown tree result
        ≡ option_and_then (λ fs. slice_get (field_types fs) 0) (struct_fields (tree dtype.now)) }
    ensures valid { Valid (tree dtype.now) → IfSome result (λ d. Valid (tree d.now)) }
{
    let fields = dtype.as_struct_fields_opt()?;
    fields.field_by_index(0)
}

/// The element type of a list or a fixed-size list, or `None` of another type; valid where that type is.
pub fn element_of(dtype: &DType) -> Option<&DType>
    ensures element { shown tree result ≡ any_size_list_element (tree dtype.now) }
    ensures valid { Valid (tree dtype.now) → IfSome result (λ d. Valid (tree d.now)) }
{
    dtype.as_any_size_list_element_opt()
}

/// The element type of a list, moved out of the list, or `None` of another type; valid where that type is.
#[tactic(auto, using(vortex_dtype::proofs::rulesets::valid_moved))]
pub fn into_element(dtype: DType) -> Option<Box<DType>>
    ensures element { option_map (λ b. tree b.value) result ≡ list_element (tree dtype) }
    ensures valid { Valid (tree dtype) → IfSome result (λ b. Valid (tree b.value)) }
{
    dtype.into_list_element_opt()
}

/// The struct of these names and types.
#[tactic(auto, using(vortex_dtype::proofs::rulesets::valid_made))]
pub fn struct_of(alloc: Global, names: FieldNames, dtypes: Vec<DType>) -> VortexResult<StructFields>
    requires { length names ≡ vec_len dtypes }
    ensures { All (λ d. Valid (tree d)) dtypes.items → IfOk result (λ s. ValidItems (fields_of s)) }
{
    StructFields::new(alloc, names, dtypes)
}
