// SPDX-License-Identifier: Apache-2.0
// SPDX-FileCopyrightText: Copyright the Vortex contributors

// The names that a search can read, and how many of them it read. The fields are private to this file, so a search reads
// a name only by `CountedNames::read`, which counts it.
ghost use Rattle.std.specs.Prelude.{◌≡◌, ◌+◌, ◌<◌, ◌^◌, [], length, slice_index_or};

use crate::FieldName;
use std::marker::Model;

// The names of an index, each of which is counted when it is read. In contracts it is the list of names.
#[derive(Drop)]
pub(crate) struct CountedNames<'a> {
    names: &'a [FieldName],
}

impl<'a> Model for CountedNames<'a> {
    ghost use Rattle.std.specs.Prelude.{ℕ, List};

    ghost Value = { List (List ℕ) };

    ghost view = { λ n. n.names.now };
}

// How many names were read. In contracts it is that number. It comes with the names, and can't be copied or set.
#[derive(Drop)]
pub(crate) struct Compared {
    count: u64,
}

impl Model for Compared {
    ghost use Rattle.std.specs.Prelude.{ℕ};

    ghost Value = { ℕ };

    ghost view = { λ c. c.count };
}

impl<'a> CountedNames<'a> {
    // These names, and a count of 0.
    #[inline(always)]
    pub(crate) fn new(names: &'a [FieldName]) -> (Self, Compared)
        ensures names { result.0 ≡ names.now }
        ensures none { result.1 ≡ 0 }
    {
        (CountedNames { names }, Compared { count: 0 })
    }

    // The name at this position. Counts it.
    #[inline(always)]
    pub(crate) fn read(&self, position: usize, compared: &mut Compared) -> &FieldName
        requires within { position < length self.now }
        requires room { compared.old + 1 < 2 ^ 64 }
        ensures name { result.now ≡ slice_index_or self.now position [] }
        ensures counted { compared.new ≡ compared.old + 1 }
    {
        let names = self.names;
        compared.count += 1;
        &names[position]
    }
}

impl Compared {
    // The number of names that were read.
    #[inline(always)]
    pub(crate) fn count(&self) -> u64
        ensures { result ≡ self.now }
    {
        self.count
    }
}
