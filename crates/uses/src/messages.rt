// SPDX-License-Identifier: Apache-2.0
// SPDX-FileCopyrightText: Copyright the Vortex contributors

//! Types and paths that are written as messages and read again, and messages that are compared.
#![tactic(auto, using(vortex_dtype::proofs::rulesets::messages, vortex_dtype::proofs::rulesets::equality))]

ghost use Rattle.std.specs.Prelude.{◌≡◌, ◌↔◌, ◌∷◌, [], IfOk, IsTrue, string_bytes};
ghost use Rattle.vortex_dtype.specs.MessageOf.{message, struct_content};
ghost use Rattle.vortex_dtype.specs.PathNames.{part_names};
ghost use Rattle.vortex_dtype.specs.TreeOf.{tree};
ghost use Rattle.vortex_dtype.specs.Types.Field.TheVariants.{Name};

use std::alloc::Global;
use std::string::String;
use vortex_dtype::{DType, DTypeProto, DTypeSession, FieldPath, FieldPathProto, VortexResult, pb};

/// Whether two messages of structs have the same names, types and flag.
#[tactic(auto, using(vortex_dtype::proofs::rulesets::equal_messages))]
pub fn is_same_struct(a: &pb::Struct, b: &pb::Struct) -> bool
    ensures { IsTrue result ↔ (struct_content a.now ≡ struct_content b.now) }
{
    *a == *b
}

/// The path to a column, by way of its message.
pub fn path_to(alloc: Global, column: String) -> VortexResult<FieldPath>
    ensures { IfOk result (λ p. p ≡ Name (string_bytes column) ∷ []) }
{
    let mut path = Vec::new(alloc);
    path.push(pb::Field {
        field_type: Some(pb::FieldType::Name(column)),
    })?;
    FieldPath::from_proto(alloc, &pb::FieldPath { path })
}

/// Whether a stored path leads to the whole table: exactly where it has no names.
#[tactic(auto, using(vortex_dtype::proofs::rulesets::path_messages))]
pub fn leads_to_table(alloc: Global, path: &pb::FieldPath) -> VortexResult<bool>
    ensures { IfOk result (λ whole. IsTrue whole ↔ (part_names path.now ≡ [])) }
{
    let path = FieldPath::from_proto(alloc, path)?;
    Ok(path.is_root())
}

/// Whether two messages say the same type: equal ones do.
#[tactic(auto, using(vortex_dtype::proofs::rulesets::read_messages))]
pub fn read_as_equal_types(
    alloc: Global,
    a: &pb::DType,
    b: &pb::DType,
    session: &DTypeSession,
) -> VortexResult<bool>
    ensures { IfOk result (λ r. message a.now ≡ message b.now → IsTrue r) }
{
    let first = DType::from_proto(alloc, a, session)?;
    let second = DType::from_proto(alloc, b, session)?;
    Ok(first == second)
}

/// Whether two types are written the same: they are the same.
#[tactic(auto, using(vortex_dtype::proofs::rulesets::written_messages))]
pub fn are_written_the_same(alloc: Global, dtype: &DType, other: &DType) -> VortexResult<bool>
    ensures { IfOk result (λ r. IsTrue r ↔ (tree dtype.now ≡ tree other.now)) }
{
    Ok(dtype.to_proto(alloc)? == other.to_proto(alloc)?)
}
