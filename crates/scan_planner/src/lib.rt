// SPDX-License-Identifier: Apache-2.0
// SPDX-FileCopyrightText: Copyright the Vortex contributors

//! A planner of scans.
#![tactic(auto)]

pub mod columns;
pub mod errors;
pub mod files;
pub mod needs;
pub mod paths;
pub mod plan;
pub mod table;
