// SPDX-License-Identifier: Apache-2.0
// SPDX-FileCopyrightText: Copyright the Vortex contributors

// What is the same for all objects.
ghost use Rattle.std.specs.Prelude.{◌≡◌};
ghost use Rattle.std.specs.declared.option.Option.TheVariants.{None};
ghost use Rattle.vortex_logical_types.specs.Slots.{object_kind};

use crate::errors::OK;
use c_objects::{Object, Slot};
use std::alloc::Global;

/// Returns the version of this interface, which is 3.
#[unsafe(no_mangle)]
pub extern "C" fn vlt_core_abi_version() -> u32
    ensures { result ≡ 3 }
{
    3
}

/// Drops the object in the slot, if there is one, and leaves the slot empty.
#[unsafe(no_mangle)]
pub extern "C" fn vlt_core_free(alloc: Global, slot: &mut Slot)
    ensures { slot.new.value ≡ None }
{
    if let Some(object) = slot.take(alloc) {
        drop(object);
    }
}

/// Returns the kind of the object in the slot: 0 if the slot is empty, 1 for a type, 2 for a path, 3 for a set of
/// paths, 4 for a list of paths, 5 for a mask, 6 for the message of a type, 7 for fields, and 8 for an error.
#[unsafe(no_mangle)]
pub extern "C" fn vlt_core_kind(slot: &mut Slot) -> u32
    ensures kind { result ≡ object_kind slot.old.value }
    ensures kept { slot.new.value ≡ slot.old.value }
{
    let Some(object) = slot.get() else {
        return OK;
    };
    match object {
        Object::DType(_) => 1,
        Object::Path(_) => 2,
        Object::Set(_) => 3,
        Object::Paths(_) => 4,
        Object::Mask(_) => 5,
        Object::Message(_) => 6,
        Object::Fields(_) => 7,
        Object::Error(_) => 8,
    }
}
