// SPDX-License-Identifier: Apache-2.0
// SPDX-FileCopyrightText: Copyright the Vortex contributors

// Calls that change a set: after an error it holds what it held before and a beginning of what was to be put in.
//
// What must be left is found after a call, in a set that is made again, so that few allocations come before the call. Each
// `?` may end a function early, and then everything that the function owns is dropped, which has to be proved at each of
// them. So the functions that use a set borrow it.
use crate::marks::{begin, end};
use crate::sets::{Shown, numbered, path, paths, set};
use anyhow::Result;
use dtype_base::{VortexError, VortexResult};
use dtype_paths::FieldPathSet;
use std::alloc::Global;
use std::fmt;

// A path, and the set that it is inserted into.
const INSERTED: [(&str, &str); 4] = [
    ("a.b", ""),
    ("a.c.d", "a.b"),
    ("x.y", "a b c"),
    ("a.b.c.d.e", "a.b x"),
];

// The same, where no node is added.
const KNOWN: [(&str, &str); 3] = [(".", "a.b"), ("a", "a.b"), ("a.b", "a.b")];

// Paths, and the set that is extended by them. Each changes the set.
const EXTENDED: [(&str, &str); 5] = [
    ("a.b x a", ""),
    ("a.b.c a.b.d y", "a x"),
    ("b c d e f g h", "a"),
    (". a.a.a.a a.b a.a a.a.c x.y.z", "b"),
    ("b c d e f g h i j k l m n o p q r s t u", "a"),
];

// How many children the node has that gets one more. It keeps them in a list or a table, and makes the table larger if it
// has 128.
const CHILDREN: [u32; 6] = [1, 15, 16, 17, 128, 129];

pub fn tell(rt: &(impl Print + Eprint), alloc: Global) -> Result<()> {
    for (inserted, old) in INSERTED.iter() {
        let told = insert(rt, alloc, inserted, old)?;
        println!(rt; "insert {inserted} into {{{old}}}: {told}")?;
    }
    for (known, old) in KNOWN.iter() {
        let told = insert(rt, alloc, known, old)?;
        println!(rt; "no allocation: insert {known} into {{{old}}}: {told}")?;
    }
    for count in CHILDREN.iter() {
        tell_beside(rt, alloc, *count, "a.x.y", "")?;
        tell_beside(rt, alloc, *count, "a.x_of_the_columns.y", "_of_the_columns")?;
    }
    for (added, old) in EXTENDED.iter() {
        tell_extend(rt, alloc, added, old)?;
        for item in 0..added.split_whitespace().count() {
            tell_item(rt, alloc, added, old, item)?;
        }
    }
    Ok(())
}

fn tell_extend(rt: &(impl Print + Eprint), alloc: Global, added: &str, old: &str) -> Result<()> {
    let told = extend(rt, alloc, added, old)?;
    println!(rt; "extend {{{old}}} by {added}: {told}")?;
    Ok(())
}

// The insertion of one path of an `extend`, on its own in a set that has the paths before it, so that its allocations are
// counted.
fn tell_item(
    rt: &(impl Print + Eprint),
    alloc: Global,
    added: &str,
    old: &str,
    item: usize,
) -> Result<()> {
    if let Some(inserted) = added.split_whitespace().nth(item) {
        let mut set = before(alloc, added, old, item)?;
        let made = insert_into(rt, alloc, &mut set, inserted)?;
        let told = outcome(
            alloc,
            made,
            &set,
            &mut before(alloc, added, old, item)?,
            inserted,
        )?;
        println!(rt; "item {item} of extend {{{old}}} by {added}: {told}")?;
    }
    Ok(())
}

// The set with the paths before this one, inserted one by one.
fn before(alloc: Global, added: &str, old: &str, item: usize) -> VortexResult<FieldPathSet> {
    let mut set = set(alloc, old)?;
    insert_first(alloc, &mut set, added, item)?;
    Ok(set)
}

fn insert_first(
    alloc: Global,
    set: &mut FieldPathSet,
    added: &str,
    count: usize,
) -> VortexResult<()> {
    for text in added.split_whitespace().take(count) {
        set.insert(path(alloc, text)?)?;
    }
    Ok(())
}

fn tell_beside(
    rt: &(impl Print + Eprint),
    alloc: Global,
    count: u32,
    inserted: &str,
    ending: &str,
) -> Result<()> {
    let mut set = numbered(alloc, count, ending)?;
    let made = insert_into(rt, alloc, &mut set, inserted)?;
    let told = outcome(
        alloc,
        made,
        &set,
        &mut numbered(alloc, count, ending)?,
        inserted,
    )?;
    println!(rt; "insert {inserted} beside {count}: {told}")?;
    Ok(())
}

fn insert(rt: &impl Eprint, alloc: Global, inserted: &str, old: &str) -> VortexResult<Told> {
    let mut changed = set(alloc, old)?;
    let made = insert_into(rt, alloc, &mut changed, inserted)?;
    outcome(alloc, made, &changed, &mut set(alloc, old)?, inserted)
}

fn extend(rt: &impl Eprint, alloc: Global, added: &str, old: &str) -> VortexResult<Told> {
    let mut changed = set(alloc, old)?;
    let made = extend_by(rt, alloc, &mut changed, added)?;
    outcome(alloc, made, &changed, &mut set(alloc, old)?, added)
}

// How a call ended.
#[derive(Clone, Copy)]
enum Made {
    Whole,
    OutOfMemory,
    Otherwise,
}

fn ended(made: VortexResult<()>) -> Made {
    match made {
        Ok(()) => Made::Whole,
        Err(VortexError::OutOfMemory) => Made::OutOfMemory,
        Err(_) => Made::Otherwise,
    }
}

fn insert_into(
    rt: &impl Eprint,
    alloc: Global,
    set: &mut FieldPathSet,
    inserted: &str,
) -> VortexResult<Made> {
    let path = path(alloc, inserted)?;
    begin(rt);
    let made = set.insert(path);
    end(rt);
    Ok(ended(made))
}

fn extend_by(
    rt: &impl Eprint,
    alloc: Global,
    set: &mut FieldPathSet,
    added: &str,
) -> VortexResult<Made> {
    let paths = paths(alloc, added)?;
    begin(rt);
    let made = set.extend(paths);
    end(rt);
    Ok(ended(made))
}

// The outcome of a call: how many of the paths the set holds.
#[derive(Clone, Copy)]
enum Told {
    Whole(usize),
    OutOfMemory(usize),
    Otherwise,
}

impl fmt::Display for Told {
    fn fmt<W: fmt::Write>(&self, f: &mut fmt::Formatter<W>) -> fmt::Result {
        match self {
            Told::Whole(held) => write!(f, "ok, holds the first {held}"),
            Told::OutOfMemory(held) => write!(f, "out of memory, holds the first {held}"),
            Told::Otherwise => write!(f, "holds something else"),
        }
    }
}

// The outcome of a call that was to put these paths in, by what the set holds then, beside a set that is as it was before.
// After an error it doesn't hold all of them.
fn outcome(
    alloc: Global,
    made: Made,
    left: &FieldPathSet,
    again: &mut FieldPathSet,
    added: &str,
) -> VortexResult<Told> {
    let held = held(alloc, &Shown::of(alloc, left)?, again, added)?;
    Ok(match (made, held) {
        (Made::Whole, Some(held)) => Told::Whole(held),
        (Made::OutOfMemory, Some(held)) if held < added.split_whitespace().count() => {
            Told::OutOfMemory(held)
        }
        (_, _) => Told::Otherwise,
    })
}

// How many of these paths have to be inserted into the set so that it shows this.
fn held(
    alloc: Global,
    left: &Shown,
    again: &mut FieldPathSet,
    added: &str,
) -> VortexResult<Option<usize>> {
    let mut count = 0usize;
    for text in added.split_whitespace() {
        if left.is_same(&Shown::of(alloc, again)?) {
            return Ok(Some(count));
        }
        again.insert(path(alloc, text)?)?;
        count = count.wrapping_add(1);
    }
    Ok(left.is_same(&Shown::of(alloc, again)?).then_some(count))
}
