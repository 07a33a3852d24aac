// SPDX-License-Identifier: Apache-2.0
// SPDX-FileCopyrightText: Copyright the Vortex contributors

// What exports put into slots.
ghost use Rattle.std.specs.Prelude.{◌≡◌, ◌⊎◌};
ghost use Rattle.std.specs.declared.option.Option.TheVariants.{Some};
ghost use Rattle.c_objects.specs.declared.object.Object.{Object};
ghost use Rattle.c_objects.specs.declared.object.Object.TheVariants.{DType as Held};
ghost use Rattle.dtype_types.specs.tree.TreeOf.{shown, tree};
ghost use Rattle.vortex_logical_types.specs.Slots.{type_in};
ghost use Rattle.vortex_logical_types.specs.Vocabulary.{Puts, PutsReturned, found, gives, unless_memory};

use crate::errors::{LIBRARY, NONE, OK, of_library};
use c_objects::{Object, Slot};
use dtype_base::VortexResult;
use dtype_types::DType;
use std::alloc::Global;

/// Stores the object in the slot and returns 0. The object that the slot contained is dropped. If an allocation fails,
/// the slot is unchanged, and the call returns 100.
pub fn put(alloc: Global, slot: &mut Slot, object: Object) -> u32
    ensures { ((result ≡ 0) × (slot.new.value ≡ Some object)) ⊎ ((result ≡ 100) × (slot.new.value ≡ slot.old.value)) }
{
    match Box::new(alloc, object) {
        Ok(object) => {
            slot.put(object);
            OK
        }
        Err(_) => LIBRARY,
    }
}

/// Stores in the slot the type that a call of the library returned, and returns 0. If that call failed, the slot is
/// unchanged, and this function returns 100 plus the number of the error. It returns 100 if its own allocation fails.
///
/// It is meant for calls that fail only because an allocation fails.
pub fn put_made(alloc: Global, slot: &mut Slot, made: VortexResult<DType>) -> u32
    ensures { PutsReturned (λ d. Held d) made result slot.old.value slot.new.value }
{
    match made {
        Ok(made) => put(alloc, slot, Object::DType(made)),
        Err(error) => of_library(error),
    }
}

/// Stores in the slot a copy of the type, or returns 1 if there is no type.
pub fn put_copy(alloc: Global, slot: &mut Slot, dtype: Option<&DType>) -> u32
    ensures { Puts type_in (found (shown tree dtype.entry) (λ t. unless_memory (gives t))) result slot.old.value slot.new.value }
{
    match dtype {
        Some(dtype) => put_made(alloc, slot, dtype.try_clone(alloc)),
        None => NONE,
    }
}
