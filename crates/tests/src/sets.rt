// SPDX-License-Identifier: Apache-2.0
// SPDX-FileCopyrightText: Copyright the Vortex contributors

// The sets that calls are made with, and what a set shows of itself.
use dtype_base::VortexResult;
use dtype_paths::{Field, FieldPath, FieldPathSet};
use std::alloc::Global;

/// The path of these names, with a dot between; a dot alone is the root.
pub fn path(alloc: Global, text: &str) -> VortexResult<FieldPath> {
    let mut steps = Vec::new(alloc);
    if text != "." {
        for name in text.split('.') {
            steps.push(Field::from_text(alloc, name)?)?;
        }
    }
    Ok(FieldPath::from_vec(steps))
}

/// The paths of a text, with a blank between.
pub fn paths(alloc: Global, text: &str) -> VortexResult<Vec<FieldPath>> {
    let mut paths = Vec::new(alloc);
    for one in text.split_whitespace() {
        paths.push(path(alloc, one)?)?;
    }
    Ok(paths)
}

/// The set of the paths of a text.
pub fn set(alloc: Global, text: &str) -> VortexResult<FieldPathSet> {
    FieldPathSet::from_iter(alloc, paths(alloc, text)?)
}

/// The set of so many names below `a`, the numbers from 0 on with a common ending, inserted one by one.
pub fn numbered(alloc: Global, count: u32, ending: &str) -> VortexResult<FieldPathSet> {
    let mut set = FieldPathSet::new(alloc);
    for i in 0..count {
        insert_number(alloc, &mut set, i, ending)?;
    }
    Ok(set)
}

fn insert_number(
    alloc: Global,
    set: &mut FieldPathSet,
    number: u32,
    ending: &str,
) -> VortexResult<()> {
    let text = format!(in alloc; "a.{number}{ending}")?;
    set.insert(path(alloc, text.as_str())?)
}

/// The texts of a set's paths in order, and the visits of its cover. A node that a failed insertion left, and that a step
/// leads to, would add one. One that nothing leads to would show in neither: that none is left is proved of `Trie::insert`.
#[derive(Drop)]
pub struct Shown {
    texts: Vec<String>,
    visits: u64,
}

impl Shown {
    pub fn of(alloc: Global, set: &FieldPathSet) -> VortexResult<Shown> {
        let mut texts = Vec::new(alloc);
        for path in set.iter()? {
            texts.push(path.to_string(alloc)?)?;
        }
        texts.sort()?;
        let (_cover, visits) = set.try_clone()?.into_iter_counted()?;
        Ok(Shown { texts, visits })
    }

    pub fn is_same(&self, other: &Shown) -> bool {
        self.visits == other.visits && self.texts == other.texts
    }
}
