// SPDX-License-Identifier: Apache-2.0
// SPDX-FileCopyrightText: Copyright the Vortex contributors

//! What is tested in Rattle: what the Rust crate, which is these sources without their contracts, can't show, and the
//! limits of what is built here. Everything else is tested there (`rust/vortex-logical-types/tests`).
//!
//! The tests are about names and native types (`names`, `native`), what is as wide or as deep as it may be (`limits`),
//! sessions and extension types (`extensions`, `sessions_handed_out`), the functions of `uses::orders` (`orders`) and texts of
//! paths that can't be read (`texts`). `plugins` has extension types as a user writes them, which prove the laws that the
//! library asks of plugins.
//!
//! The program makes calls whose allocations are made to fail one by one. It has no input. For each
//! call it prints a line: the call, `: `, and the outcome. Before the call it writes the line `begin` to
//! standard error, and after it the line `end`: between them `tools/gate/refuse_allocation.c` counts allocations and makes
//! them fail. The arguments of a call are built before `begin`, and its effect is read after `end`. After an insertion the
//! set must hold a prefix of the list of inserted paths, and after another call that fails all must be as before; anything
//! else is a fault.
//!
//! Begin with `changes`. `tools/gate/refused_memory` runs the program, and says what is asked of its lines.
#![tactic(auto)]

use anyhow::Result;

mod calls;
mod changes;
#[cfg(test)]
mod extensions;
#[cfg(test)]
mod limits;
mod marks;
#[cfg(test)]
mod names;
#[cfg(test)]
mod native;
#[cfg(test)]
mod orders;
mod plugins;
mod registrations;
#[cfg(test)]
mod sessions_handed_out;
mod sets;
#[cfg(test)]
mod texts;

fn main(rt: HostRuntime) -> Result<()> {
    changes::tell(&rt, rt.alloc())?;
    calls::tell(&rt, rt.alloc())?;
    registrations::tell(&rt, rt.alloc())
}
