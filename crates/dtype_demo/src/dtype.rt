// SPDX-License-Identifier: Apache-2.0
// SPDX-FileCopyrightText: Copyright the Vortex contributors

ghost use Rattle.std.specs.Prelude.{◌≡◌, IfOk, IsOkUnless};
ghost use Rattle.vortex_dtype.specs.FieldTypes.{field_tree, given_fields};
ghost use Rattle.vortex_dtype.specs.Tree.{struct};
ghost use Rattle.vortex_dtype.specs.TreeOf.{tree};
ghost use Rattle.vortex_dtype.specs.Types.VortexError.TheVariants.{OutOfMemory};
ghost use Rattle.dtype_demo.specs.DemoTree.{demo_tree};

use std::alloc::Global;
use vortex_dtype::{DType, FieldDType, FieldName, Nullability, PType, VortexResult};

// Builds the type in which the paths are looked up: {a=list({b=u32})?, f=fixed_size_list(u8)[2]}. The only error is
// `OutOfMemory` (0).
pub fn demo_dtype(alloc: Global) -> VortexResult<DType>
    ensures tree { IfOk result (λ d. tree d ≡ demo_tree) }
    ensures errors { IsOkUnless result OutOfMemory }
{
    let number = field(alloc, "b", DType::from(PType::U32))?;
    let element = struct_of(alloc, vec![in alloc; number]?)?;
    let list = DType::list(alloc, element, Nullability::Nullable)?;
    let byte = DType::from(PType::U8);
    let pair = DType::fixed_size_list(alloc, byte, 2, Nullability::NonNullable)?;
    let list = field(alloc, "a", list)?;
    let pair = field(alloc, "f", pair)?;
    struct_of(alloc, vec![in alloc; list, pair]?)
}

// Builds a field of this name and type. The only error is `OutOfMemory` (0).
fn field(alloc: Global, name: &str, dtype: DType) -> VortexResult<(FieldName, FieldDType)>
    ensures parts { IfOk result (λ f. (f.0 ≡ name.now) × (field_tree f.1 ≡ tree dtype)) }
    ensures errors { IsOkUnless result OutOfMemory }
{
    Ok((FieldName::new(alloc, name)?, FieldDType::from(dtype)))
}

// Builds the non-nullable struct of these fields. The only error is `OutOfMemory` (0).
fn struct_of(alloc: Global, fields: Vec<(FieldName, FieldDType)>) -> VortexResult<DType>
    ensures fields { IfOk result (λ d.
        tree d ≡ struct (given_fields fields.items) Nullability.NonNullable) }
    ensures errors { IsOkUnless result OutOfMemory }
{
    DType::struct_(alloc, fields, Nullability::NonNullable)
}
