// SPDX-License-Identifier: Apache-2.0
// SPDX-FileCopyrightText: Copyright the Vortex contributors

use std::alloc::{AllocError, Global};
use strsim::osa_distance;

/// The names found so far that are nearest to a word, and how many edits lead from each to it. For example, `i32` is one
/// edit from `in32`. An edit adds, removes or replaces a character, or swaps two neighbours; the same letters in another
/// case take none. None is near that takes more edits than a third of the word's length, or more than three.
#[derive(Drop)]
pub struct NearNames {
    pub names: Vec<&'static str>,
    distance: usize,
}

impl NearNames {
    /// Returns no name.
    pub fn new(alloc: Global, word: &str) -> Self {
        NearNames {
            names: Vec::new(alloc),
            distance: (word.len() / 3).clamp(1, 3),
        }
    }

    /// Adds this name if it is as near as those found, or puts it in their place if it is nearer.
    ///
    /// # Errors
    ///
    /// `AllocError` if an allocation fails.
    pub fn add(&mut self, alloc: Global, name: &'static str, word: &str) -> Result<(), AllocError> {
        // (a word that is much longer than any name, as a whole line may be, is compared with none)
        if name.len().abs_diff(word.len()) > self.distance {
            return Ok(());
        }
        let distance = match name.eq_ignore_ascii_case(word) {
            true => 0,
            false => osa_distance(alloc, name, word)?,
        };
        if distance < self.distance {
            self.names.clear();
            self.distance = distance;
        }
        if distance == self.distance && !self.names.iter().any(|it| *it == name) {
            self.names.push(name)?;
        }
        Ok(())
    }
}
