// SPDX-License-Identifier: Apache-2.0
// SPDX-FileCopyrightText: Copyright the Vortex contributors

// Decimals of native integers, native types for offsets, and nullabilities.
use dtype_base::{Nullability, PType};
use dtype_native::{OffsetBuilderPType, PrecisionScale};
use std::hash::{DefaultHasher, Hash, Hasher};
use std::test::Fail;

fn hash_of<T: Hash>(value: &T) -> u64 {
    let mut state = DefaultHasher::new();
    value.hash(&mut state);
    state.finish()
}

#[test]
fn kept_decimals_have_their_parts(rt: HostRuntime) -> Result<(), Fail> {
    let kept = PrecisionScale::<i8>::new_unchecked(2, 1);
    assert!(rt; kept.precision() == 2 && kept.scale() == 1);
    assert!(rt; hash_of(&kept) == hash_of(&PrecisionScale::<i8>::new(2, 1)));
    assert!(rt; kept == PrecisionScale::<i8>::new(2, 1));
    assert!(rt; kept != PrecisionScale::<i8>::new(2, 0) && kept != PrecisionScale::<i8>::new(1, 1));
    Ok(())
}

// The primitive type of a native type for offsets. That it compiles for a type shows that the type is one.
fn of_offsets<T: OffsetBuilderPType>() -> PType {
    T::PTYPE
}

#[test]
fn four_types_are_for_offsets(rt: HostRuntime) -> Result<(), Fail> {
    assert!(rt; of_offsets::<u32>() == PType::U32 && of_offsets::<i32>() == PType::I32);
    assert!(rt; of_offsets::<u64>() == PType::U64 && of_offsets::<i64>() == PType::I64);
    Ok(())
}

#[test]
fn a_nullability_is_joined_in_place(rt: HostRuntime) -> Result<(), Fail> {
    let mut joined = Nullability::NonNullable;
    joined |= Nullability::NonNullable;
    assert!(rt; joined == Nullability::NonNullable);
    joined |= Nullability::Nullable;
    assert!(rt; joined == Nullability::Nullable);
    Ok(())
}
