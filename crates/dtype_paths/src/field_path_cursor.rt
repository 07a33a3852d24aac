// SPDX-License-Identifier: Apache-2.0
// SPDX-FileCopyrightText: Copyright the Vortex contributors

ghost use Rattle.std.specs.Prelude.{◌≡◌, ◌↔◌, ◌<◌, ◌^◌, ◌∷◌, ℕ, List, [], length, IfSome, IsTrue, false, true};
ghost use Rattle.std.specs.FinSet as set;
ghost use Rattle.std.specs.Iterator.{YieldsFirstBy};
ghost use Rattle.std.specs.Iterator.Runs.{AllItems, AnyItem, EachRunFrom};
ghost use Rattle.dtype_paths.specs.PathOrder.{set_of};
ghost use Rattle.dtype_paths.specs.PathPredicates.{after_step, no_path, AreNames};
ghost use Rattle.dtype_paths.specs.private.Reached.{ends_below, IsReached};
ghost use Rattle.dtype_paths.specs.private.Trie.{terminals};
ghost use Rattle.dtype_paths.specs.declared.field.Field.{Field};
ghost use Rattle.dtype_paths.specs.declared.field.Field.TheVariants.{ElementType, Name};

use crate::trie::Trie;
use crate::{CursorNames, Field};
use std::fmt;

/// A place in a set of paths, which is reached from the root by some steps. The cursor contains what remains of the
/// paths of the set after these steps. For example, in the set of `a.b`, `a.c.d` and `x` the cursor after the step `a`
/// contains the paths `b` and `c.d`. It doesn't contain anything of `x`, because `x` doesn't begin with `a`.
///
/// A reader that descends into a type can step a cursor at the same time. Then it never looks at paths that don't begin
/// with the steps that it has taken. A cursor borrows the set and is `Copy`.
///
/// No call of a cursor allocates.
#[derive(Clone, Copy)]
pub struct FieldPathCursor<'a> {
    trie: &'a Trie,
    node_index: usize,
    ghost reached: { IsReached trie.now node_index },
}

impl<'a> FieldPathCursor<'a> {
    ghost use Rattle.dtype_paths.specs.Cursors.{contains_below, contains_below_if, borrowed_below, names_left};

    // Returns the cursor at this node. The caller proves that some path leads to it.
    #[tactic(auto, unfolding(crate::specs::Cursors::contains_below))]
    pub(crate) fn at(trie: &'a Trie, node_index: usize) -> Self
        requires { IsReached trie.now node_index }
        ensures { contains_below result ≡ ends_below trie.now node_index }
    {
        FieldPathCursor { trie, node_index }
    }

    // Returns the cursor at the root of the trie.
    #[tactic(auto, unfolding(crate::specs::Cursors::contains_below))]
    pub(crate) fn at_root(trie: &'a Trie) -> Self
        ensures { contains_below result ≡ set.contains (set_of (terminals trie.now)) }
    {
        FieldPathCursor {
            trie,
            node_index: trie.root(),
        }
    }

    /// Returns whether the steps to this cursor are themselves a path of the set. If they are, then the cursor contains
    /// the root, which is the path without steps, and the set covers every path that begins with these steps. For
    /// example, in the set of `a` and `a.b` the result is `true` for the cursor after the step `a`.
    #[tactic(auto, unfolding(crate::specs::Cursors::contains_below))]
    pub fn is_end(&self) -> bool
        ensures { result ≡ contains_below self.now [] }
    {
        self.trie.is_terminal(self.node_index)
    }

    /// Returns whether the cursor contains no path. The result is `true` only for the cursor at the root of an empty
    /// set.
    #[tactic(auto, unfolding(crate::specs::Cursors::contains_below))]
    pub fn is_empty(&self) -> bool
        ensures nothing { IsTrue result ↔ (contains_below self.now ≡ no_path) }
        ensures some { result ≡ false → (q : List Field) × IsTrue (contains_below self.now q) }
        ensures each { IsTrue result → (q : List Field) → contains_below self.now q ≡ false }
    {
        self.trie.is_empty_at(self.node_index)
    }

    /// Returns the cursor after one more step, or `None` if no path that this cursor contains begins with that step.
    /// For example, if the cursor contains `b` and `c.d`, then the step `c` returns a cursor that contains `d`.
    pub fn step(&self, step: &Field) -> Option<Self>
        ensures paths { contains_below_if result ≡ after_step step.now (contains_below self.now) }
        ensures some { IfSome result (λ _. (q : List Field) × IsTrue (contains_below self.now (step.now ∷ q))) }
    {
        let node_index = self.trie.child(self.node_index, step)?;
        Some(FieldPathCursor {
            trie: self.trie,
            node_index,
        })
    }

    /// Returns the cursor after the step to the element of a list, or `None` if no path that this cursor contains
    /// begins with that step. For example, if the cursor contains `[].b`, then it returns a cursor that contains `b`.
    pub fn element(&self) -> Option<Self>
        ensures paths { contains_below_if result ≡ after_step ElementType (contains_below self.now) }
        ensures some { IfSome result (λ _. (q : List Field) × IsTrue (contains_below self.now (ElementType ∷ q))) }
    {
        self.step(&Field::ElementType)
    }

    /// Returns an iterator over the names with which paths of the cursor begin. For each name it returns a reference to
    /// the name, and the cursor after the step to that name. It returns each name once, in no particular order. For
    /// example, if the cursor contains `b`, `c.d` and `c.e`, then it returns `b` and `c`.
    ///
    /// The `len` of the iterator is the number of names that are left. The call of `names` itself visits none of them.
    #[tactic(auto, unfolding(crate::specs::Cursors::contains_below))]
    pub fn names(&self) -> CursorNames<'a>
        ensures names { AreNames (contains_below self.now) (names_left result) }
        ensures fits { length (names_left result) < 2 ^ 64 }
        ensures each { EachRunFrom (YieldsFirstBy borrowed_below names_left) result (λ run. AllItems run (λ x.
            ((q : List Field) → contains_below x.1 q ≡ contains_below self.now (Name x.0.now ∷ q))
            × ((q : List Field) × IsTrue (contains_below self.now (Name x.0.now ∷ q))))) }
        ensures all { EachRunFrom (YieldsFirstBy borrowed_below names_left) result (λ run. run.whole ≡ true
            → (n : List ℕ) (q : List Field) → IsTrue (contains_below self.now (Name n ∷ q)) → AnyItem run (λ x. x.0.now ≡ n)) }
    {
        CursorNames::new(self.trie, self.node_index)
    }
}

/// Writes `FieldPathCursor { .. }`, without the paths.
impl<'a> fmt::Debug for FieldPathCursor<'a> {
    fn fmt<W: fmt::Write>(&self, f: &mut fmt::Formatter<W>) -> fmt::Result {
        f.write_str("FieldPathCursor { .. }")
    }
}
