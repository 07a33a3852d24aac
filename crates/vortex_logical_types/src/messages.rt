// SPDX-License-Identifier: Apache-2.0
// SPDX-FileCopyrightText: Copyright the Vortex contributors

// Messages of types: copies, equality, the types that they describe, and normal forms.
ghost use Rattle.std.specs.Prelude.{◌≡◌, ◌⊎◌, Decides, Ok, Err, MatchResult, false, true};
ghost use Rattle.c_objects.specs.declared.object.Object.TheVariants.{Message};
ghost use Rattle.dtype_base.specs.declared.vortex_error.VortexError.TheVariants.{OutOfMemory};
ghost use Rattle.dtype_messages.specs.MessageOf.{message};
ghost use Rattle.dtype_types.specs.tree.TreeOf.{tree};
ghost use Rattle.vortex_dtype.specs.Written.{written};
ghost use Rattle.vortex_logical_types.specs.Messages.{normal_of, type_of_message};
ghost use Rattle.vortex_logical_types.specs.Slots.{message_in, type_in};
ghost use Rattle.vortex_logical_types.specs.Vocabulary.{Answers, Puts, PutsOr, PutsReturned, gives, if_ok, on, on_both, tells, unless_memory};

use crate::errors::{KIND, NONE, OK, of_library};
use crate::failures::fail_with;
use crate::objects::put;
use crate::views::{as_dtype, as_message};
use c_objects::{Object, Slot};
use dtype_base::VortexResult;
use dtype_messages::pb;
use dtype_types::DType;
use std::alloc::Global;
use vortex_dtype::{DTypeProto, DTypeSession};

// Stores in the slot the message that a call of the library returned, or returns the number of its error, which has to be
// that an allocation failed.
fn put_message(alloc: Global, out: &mut Slot, made: VortexResult<pb::DType>) -> u32
    ensures { PutsReturned (λ m. Message m) made result out.old.value out.new.value }
{
    match made {
        Ok(made) => put(alloc, out, Object::Message(made)),
        Err(error) => of_library(error),
    }
}

/// Stores in `out` a copy of the message.
#[unsafe(no_mangle)]
pub extern "C" fn vlt_core_message_copy(alloc: Global, message: &mut Slot, out: &mut Slot) -> u32
    ensures puts { Puts message_in (on (message_in message.old.value) (λ m. unless_memory (gives m))) result out.old.value out.new.value }
    ensures kept { message.new.value ≡ message.old.value }
{
    let Some(proto) = as_message(message) else {
        return KIND;
    };
    put_message(alloc, out, proto.try_clone(alloc))
}

/// Returns 0 if the two messages are equal, and 1 if they aren't.
#[unsafe(no_mangle)]
pub extern "C" fn vlt_core_message_eq(one: &mut Slot, other: &mut Slot) -> u32
    ensures answer { Answers (on_both (message_in one.old.value) (message_in other.old.value) (λ m n. tells (m ≡ n))) result }
    ensures kept { (one.new.value ≡ one.old.value) × (other.new.value ≡ other.old.value) }
{
    let (Some(one), Some(other)) = (as_message(one), as_message(other)) else {
        return KIND;
    };
    if are_equal(one, other) { OK } else { NONE }
}

#[tactic(auto, using(dtype_messages::proofs::lemmas::Equality::equality))]
fn are_equal(one: &pb::DType, other: &pb::DType) -> bool
    ensures { Decides result (message one.now ≡ message other.now) }
{
    *one == *other
}

/// Stores in `out` the type that the message describes. No plugin is registered, so no id of an extension is known. If
/// `allow_unknown` is true, an extension keeps its metadata. If it is false, the call returns 135 for an extension. If
/// the message describes no type, the call returns the number of its first fault, and `error` contains the error. This
/// is a number from 124 to 134, or 101 to 104 for a decimal, 109 for a map, and 110 to 113 or 115 for a union. For
/// example, it returns 124 for a message without a kind.
#[unsafe(no_mangle)]
pub extern "C" fn vlt_core_message_to_dtype(
    alloc: Global,
    message: &mut Slot,
    allow_unknown: bool,
    out: &mut Slot,
    error: &mut Slot,
) -> u32
    ensures puts { PutsOr type_in (on (message_in message.old.value) (λ m. unless_memory (if_ok (type_of_message allow_unknown m))))
        result out.old.value out.new.value error.old.value error.new.value }
    ensures kept { message.new.value ≡ message.old.value }
{
    let Some(proto) = as_message(message) else {
        return KIND;
    };
    match dtype_of(alloc, proto, allow_unknown) {
        Ok(made) => put(alloc, out, Object::DType(made)),
        Err(why) => fail_with(alloc, error, why),
    }
}

// Returns the type that the message describes, under a session without plugins.
fn dtype_of(alloc: Global, proto: &pb::DType, allow_unknown: bool) -> VortexResult<DType>
    ensures { MatchResult result
        (λ d. type_of_message allow_unknown (message proto.now) ≡ Ok (tree d))
        (λ e. (e ≡ OutOfMemory) ⊎ (type_of_message allow_unknown (message proto.now) ≡ Err e)) }
{
    if allow_unknown {
        read_allowing(alloc, proto)
    } else {
        read_strictly(alloc, proto)
    }
}

// Returns the type that the message describes, where extensions of unknown ids are kept.
fn read_allowing(alloc: Global, proto: &pb::DType) -> VortexResult<DType>
    ensures { MatchResult result
        (λ d. type_of_message true (message proto.now) ≡ Ok (tree d))
        (λ e. (e ≡ OutOfMemory) ⊎ (type_of_message true (message proto.now) ≡ Err e)) }
{
    let mut session = DTypeSession::new(alloc);
    session.allow_unknown();
    DType::from_proto(alloc, proto, &session)
}

// Returns the type that the message describes, where no id is known.
fn read_strictly(alloc: Global, proto: &pb::DType) -> VortexResult<DType>
    ensures { MatchResult result
        (λ d. type_of_message false (message proto.now) ≡ Ok (tree d))
        (λ e. (e ≡ OutOfMemory) ⊎ (type_of_message false (message proto.now) ≡ Err e)) }
{
    let session = DTypeSession::new(alloc);
    DType::from_proto(alloc, proto, &session)
}

/// Stores in `out` the normal form of the message. If a message describes a type, its normal form is the message that
/// `vlt_dtype_to_message` makes of this type. It has every child, flag and number, and the metadata of each extension,
/// even if the metadata is empty. `allow_unknown` and the errors are those of `vlt_message_to_dtype`.
#[unsafe(no_mangle)]
pub extern "C" fn vlt_core_message_normal(
    alloc: Global,
    message: &mut Slot,
    allow_unknown: bool,
    out: &mut Slot,
    error: &mut Slot,
) -> u32
    ensures puts { PutsOr message_in (on (message_in message.old.value) (λ m. unless_memory (if_ok (normal_of allow_unknown m))))
        result out.old.value out.new.value error.old.value error.new.value }
    ensures kept { message.new.value ≡ message.old.value }
{
    let Some(proto) = as_message(message) else {
        return KIND;
    };
    match normal_form(alloc, proto, allow_unknown) {
        Ok(made) => put(alloc, out, Object::Message(made)),
        Err(why) => fail_with(alloc, error, why),
    }
}

fn normal_form(alloc: Global, proto: &pb::DType, allow_unknown: bool) -> VortexResult<pb::DType>
    ensures { MatchResult result
        (λ m. normal_of allow_unknown (message proto.now) ≡ Ok (message m))
        (λ e. (e ≡ OutOfMemory) ⊎ (normal_of allow_unknown (message proto.now) ≡ Err e)) }
{
    let dtype = dtype_of(alloc, proto, allow_unknown)?;
    Ok(dtype.to_proto(alloc)?)
}

/// Stores in `out` the message that describes the type. `vlt_message_to_dtype` makes the same type of it. If the type
/// has an extension in it, `allow_unknown` must be true for that.
#[unsafe(no_mangle)]
pub extern "C" fn vlt_core_dtype_to_message(alloc: Global, dtype: &mut Slot, out: &mut Slot) -> u32
    ensures puts { Puts message_in
        (on (type_in dtype.old.value) (λ t. unless_memory (gives (written t))))
        result out.old.value out.new.value }
    ensures kept { dtype.new.value ≡ dtype.old.value }
{
    let Some(dtype) = as_dtype(dtype) else {
        return KIND;
    };
    put_message(alloc, out, dtype.to_proto(alloc))
}
