// SPDX-License-Identifier: Apache-2.0
// SPDX-FileCopyrightText: Copyright the Vortex contributors

//! The schema of the table.
ghost use Rattle.std.specs.Prelude.{◌≡◌, IfOk};
ghost use Rattle.vortex_dtype.specs.FieldTypes.{field_tree};
ghost use Rattle.vortex_dtype.specs.TreeOf.{tree};
ghost use Rattle.uses.specs.Orders.{orders_tree};

use std::alloc::Global;
use vortex_dtype::{DType, FieldDType, FieldName, Nullability, PType, VortexResult};

/// Returns the type {id=u64, customer={name=utf8, city=utf8?}}.
pub fn orders(alloc: Global) -> VortexResult<DType>
    ensures { IfOk result (λ d. tree d ≡ orders_tree) }
{
    let name = field(alloc, "name", DType::Utf8(Nullability::NonNullable))?;
    let city = field(alloc, "city", DType::Utf8(Nullability::Nullable))?;
    let customer = DType::struct_(alloc, vec![in alloc; name, city]?, Nullability::NonNullable)?;
    let id = field(alloc, "id", DType::from(PType::U64))?;
    let customer = field(alloc, "customer", customer)?;
    DType::struct_(
        alloc,
        vec![in alloc; id, customer]?,
        Nullability::NonNullable,
    )
}

fn field(alloc: Global, name: &str, dtype: DType) -> VortexResult<(FieldName, FieldDType)>
    ensures { IfOk result (λ f. (f.0 ≡ name.now) × (field_tree f.1 ≡ tree dtype)) }
{
    Ok((FieldName::new(alloc, name)?, FieldDType::from(dtype)))
}
