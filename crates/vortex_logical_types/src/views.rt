// SPDX-License-Identifier: Apache-2.0
// SPDX-FileCopyrightText: Copyright the Vortex contributors

// The object in a slot, if it is of the kind that an export takes. The slot keeps it.
ghost use Rattle.std.specs.Prelude.{◌≡◌, MatchOption, None, Some};
ghost use Rattle.std.specs.Borrow.{sem};
ghost use Rattle.c_objects.specs.Lends.{Keeps};
ghost use Rattle.dtype_messages.specs.MessageOf.{message};
ghost use Rattle.dtype_types.specs.tree.TreeOf.{tree};
ghost use Rattle.vortex_logical_types.specs.Slots.{error_in, fields_in, mask_in, message_in, pairs_of, path_in, paths_in, set_in, type_in};

use c_objects::{Failure, Object, Slot};
use dtype_base::FieldName;
use dtype_messages::pb;
use dtype_paths::{FieldMask, FieldPath, FieldPathSet};
use dtype_types::DType;

/// Returns the type that the slot contains, or `None` if it contains none.
pub fn as_dtype(slot: &mut Slot) -> Option<&DType>
    ensures value { MatchOption result (type_in slot.old.value ≡ None) (λ d. type_in slot.old.value ≡ Some (tree d.now)) }
    ensures* keeps { sem 𝓛 (Keeps slot.entry) }
{
    match slot.get() {
        Some(Object::DType(dtype)) => Some(dtype),
        _ => None,
    }
}

/// Returns the path that the slot contains, or `None` if it contains none.
pub fn as_path(slot: &mut Slot) -> Option<&FieldPath>
    ensures value { MatchOption result (path_in slot.old.value ≡ None) (λ p. path_in slot.old.value ≡ Some p.now) }
    ensures* keeps { sem 𝓛 (Keeps slot.entry) }
{
    match slot.get() {
        Some(Object::Path(path)) => Some(path),
        _ => None,
    }
}

/// Returns the set of paths that the slot contains, or `None` if it contains none.
pub fn as_set(slot: &mut Slot) -> Option<&FieldPathSet>
    ensures value { MatchOption result (set_in slot.old.value ≡ None) (λ s. set_in slot.old.value ≡ Some s.now) }
    ensures* keeps { sem 𝓛 (Keeps slot.entry) }
{
    match slot.get() {
        Some(Object::Set(paths)) => Some(paths),
        _ => None,
    }
}

/// Returns the list of paths that the slot contains, or `None` if it contains none.
pub fn as_paths(slot: &mut Slot) -> Option<&Vec<FieldPath>>
    ensures value { MatchOption result (paths_in slot.old.value ≡ None) (λ v. paths_in slot.old.value ≡ Some v.now.items) }
    ensures* keeps { sem 𝓛 (Keeps slot.entry) }
{
    match slot.get() {
        Some(Object::Paths(paths)) => Some(paths),
        _ => None,
    }
}

/// Returns the mask that the slot contains, or `None` if it contains none.
pub fn as_mask(slot: &mut Slot) -> Option<&FieldMask>
    ensures value { MatchOption result (mask_in slot.old.value ≡ None) (λ m. mask_in slot.old.value ≡ Some m.now) }
    ensures* keeps { sem 𝓛 (Keeps slot.entry) }
{
    match slot.get() {
        Some(Object::Mask(mask)) => Some(mask),
        _ => None,
    }
}

/// Returns the message that the slot contains, or `None` if it contains none.
pub fn as_message(slot: &mut Slot) -> Option<&pb::DType>
    ensures value { MatchOption result (message_in slot.old.value ≡ None) (λ m. message_in slot.old.value ≡ Some (message m.now)) }
    ensures* keeps { sem 𝓛 (Keeps slot.entry) }
{
    match slot.get() {
        Some(Object::Message(message)) => Some(message),
        _ => None,
    }
}

/// Returns the fields that the slot contains, or `None` if it contains none.
pub fn as_fields(slot: &mut Slot) -> Option<&Vec<(FieldName, DType)>>
    ensures value { MatchOption result (fields_in slot.old.value ≡ None) (λ v. fields_in slot.old.value ≡ Some (pairs_of v.now.items)) }
    ensures* keeps { sem 𝓛 (Keeps slot.entry) }
{
    match slot.get() {
        Some(Object::Fields(fields)) => Some(fields),
        _ => None,
    }
}

/// Returns the error that the slot contains, or `None` if it contains none.
pub fn as_error(slot: &mut Slot) -> Option<&Failure>
    ensures value { MatchOption result (error_in slot.old.value ≡ None) (λ e. error_in slot.old.value ≡ Some e.now) }
    ensures* keeps { sem 𝓛 (Keeps slot.entry) }
{
    match slot.get() {
        Some(Object::Error(failure)) => Some(failure),
        _ => None,
    }
}
