// SPDX-License-Identifier: Apache-2.0
// SPDX-FileCopyrightText: Copyright the Vortex contributors

//! Objects that a program in C refers to by a pointer. An [`Object`] is a value of one of the types of the library, for
//! example a path. A [`Slot`] is a place that contains one object or is empty.
//!
//! In C, a slot is `struct { void *at; }`. Its pointer is null if the slot is empty. Otherwise the pointer owns the
//! object as a `Box` does. The borrow checker doesn't follow such a pointer. So six functions are proved by hand
//! (`proofs/`): those that take a box apart and put it together again, that make an empty and a filled slot, that take
//! the object out of a slot, and that lend it. Everything else is proved from the contracts of these six.
//!
//! What is proved:
//! - [`Slot::get`] returns a reference to the object that the slot contains, and the slot keeps that object.
//! - [`Slot::get_mut`] returns a reference by which the caller may change the object. The slot contains afterwards what
//!   the caller left there.
//! - [`Slot::take`] returns the object that the slot contained, and leaves the slot empty.
//! - [`Slot::put`] leaves the new object in the slot.
//! - No object is dropped twice, and none is used after it was dropped.
//!
//! That [`Slot::put`] drops the object that the slot contained before, and that a slot which goes out of scope drops its
//! object, is tested and not proved, because a body that forgets the object would meet every contract.
#![tactic(auto)]

pub use failure::{ArrowReason, Failure};
pub use object::Object;
pub use slot::Slot;

mod failure;
mod loose;
mod object;
mod slot;
