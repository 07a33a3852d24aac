// SPDX-License-Identifier: Apache-2.0
// SPDX-FileCopyrightText: Copyright the Vortex contributors

ghost use Rattle.std.specs.Prelude.{◌≡◌, ◌↔◌, ◌+◌, ◌<◌, ◌≤◌, ◌⊎◌, [], All, List, false, length, map, IfOk, IsOkUnless, IsTrue, OnErr, OnOk};
ghost use Rattle.std.specs.Borrow.{Bor};
ghost use Rattle.std.specs.FinSet as set;
ghost use Rattle.std.specs.Iterator.{IsFiniteIterable};
ghost use Rattle.std.specs.Iterator.Runs.{YieldsInOrder};
ghost use Rattle.std.specs.List.{Contains, sum_by};
ghost use Rattle.std.specs.Vec.Iter.{into_iter_items, into_iter_steps};
ghost use Rattle.std.specs.declared.alloc.Global.{Global};
ghost use Rattle.dtype_base.specs.Errors.{Makes};
ghost use Rattle.dtype_base.specs.MadeFrom.{MadeFrom};
ghost use Rattle.dtype_base.specs.declared.vortex_error.VortexError.TheVariants.{OutOfMemory};
ghost use Rattle.dtype_base.specs.Distinct.{Distinct};
ghost use Rattle.dtype_types.specs.tree.TreeOf.{tree};
ghost use Rattle.dtype_paths.specs.At.{ExistsIn};
ghost use Rattle.dtype_paths.specs.Beginning.{Beginning};
ghost use Rattle.dtype_paths.specs.Cursors.{contains_below};
ghost use Rattle.dtype_paths.specs.Covering.{SameCoverage, IsBegun, IsCountOf, covers, least};
ghost use Rattle.dtype_paths.specs.MadeBefore.{MadeBefore};
ghost use Rattle.dtype_paths.specs.PathOrder.{set_of};
ghost use Rattle.dtype_paths.specs.Unresolved.{unresolved};
ghost use Rattle.dtype_paths.specs.declared.field.Field.{Field};

use crate::trie::Trie;
use crate::{FieldPath, FieldPathCursor};
use dtype_base::VortexResult;
use dtype_types::DType;
use std::alloc::{AllocError, Global};
use std::marker::Model;
use std::{fmt, vec};

/// A set of paths, stored as a trie.
///
/// For example, after `a.b`, `x`, `a` and `a.c` are inserted, the set contains four paths. It covers every path of
/// which one of the four is a prefix. The least paths of the set are those of which no other path of the set is a
/// prefix. In this example they are `a` and `x`. The least paths cover the same paths as the whole set, and no set with
/// fewer paths does.
#[derive(Drop)]
pub struct FieldPathSet {
    alloc: Global,
    trie: Trie,
}

impl Model for FieldPathSet {
    ghost use Rattle.std.specs.FinSet as set;
    ghost use Rattle.dtype_paths.specs.PathOrder.{path_cmp, set_code, set_of};
    ghost use Rattle.dtype_paths.specs.private.Trie.{terminals};

    ghost Value = { set.FinSet path_cmp };

    ghost coded = { set_code };

    ghost view = { λ s. set_of (terminals s.trie) };
}

impl FieldPathSet {
    /// Returns the empty set. The set keeps the allocator for later calls.
    ///
    /// The call doesn't allocate.
    #[tactic(auto, using(crate::proofs::lemmas::SetCovers::covers_none))]
    pub fn new(alloc: Global) -> Self
        ensures empty { result ≡ set.empty }
        ensures nothing { (q : List Field) → covers result q ≡ false }
    {
        FieldPathSet {
            alloc,
            trie: Trie::new(alloc),
        }
    }

    /// Returns the set of the paths that an iterator yields. The caller must prove that the iterator ends.
    ///
    /// # Errors
    ///
    /// - `OutOfMemory` (0): an allocation fails, or the reference count of a text is at its maximum.
    pub fn from_iter<I: IntoIterator<Item = FieldPath>>(
        alloc: Global,
        paths: I,
    ) -> VortexResult<Self>
        requires { IsFiniteIterable I.into_iter_gives I.IntoIter.can_next I.IntoIter.remaining paths }
        ensures { Makes result (λ s. MadeFrom (I.into_iter_gives paths) I.IntoIter.next_gives (λ given.
            s ≡ set_of given)) }
    {
        let paths = paths.into_iter();
        let (least, _) = paths.size_hint();
        let nodes = least.saturating_add(least / 8).saturating_add(1);
        let trie = Trie::with_capacity(alloc, nodes)?;
        let mut set = FieldPathSet { alloc, trie };
        set.extend(paths)?;
        Ok(set)
    }

    /// Returns whether the path is in the set. For example, the set of `a` doesn't contain `a.b`, although it covers
    /// `a.b`.
    ///
    /// The call doesn't allocate.
    pub fn contains(&self, path: &FieldPath) -> bool
        ensures { result ≡ set.contains self.now path.now }
    {
        self.trie.contains(path.parts())
    }

    /// Returns the number of paths in the set. For example, it is 2 for the set of `a` and `a.b`.
    ///
    /// The call visits each node of the trie once. It doesn't allocate.
    pub fn len(&self) -> usize
        ensures { result ≡ set.len self.now }
    {
        self.trie.len()
    }

    /// Returns whether the set contains no path. The set of the root alone isn't empty.
    ///
    /// The call doesn't allocate.
    #[tactic(auto, using(crate::proofs::lemmas::PathsBelow::empty_uncontained, crate::proofs::lemmas::PathsBelow::uncontained_empty))]
    pub fn is_empty(&self) -> bool
        ensures { IsTrue result ↔ (self.now ≡ set.empty) }
    {
        self.cursor().is_empty()
    }

    /// Returns whether each path of this set is in the other one too. For example, the set of `a` is a subset of the
    /// set of `a` and `b`. The set of `a.b` isn't a subset of the set of `a`, although that set covers `a.b`.
    ///
    /// The call looks each path of this set up in the other one. It doesn't allocate.
    pub fn is_subset(&self, other: &FieldPathSet) -> bool
        ensures { result ≡ set.is_subset self.now other.now }
    {
        self.trie.all_in(&other.trie, true)
    }

    /// Returns whether each path of the other set is in this one too. For example, the set of `a` and `b` is a superset
    /// of the set of `a`.
    ///
    /// The call looks each path of the other set up in this one. It doesn't allocate.
    pub fn is_superset(&self, other: &FieldPathSet) -> bool
        ensures { result ≡ set.is_subset other.now self.now }
    {
        other.is_subset(self)
    }

    /// Returns whether no path is in both sets. For example, the set of `a` and the set of `a.b` are disjoint, although
    /// the first set covers `a.b`.
    ///
    /// The call looks each path of this set up in the other one. It doesn't allocate.
    pub fn is_disjoint(&self, other: &FieldPathSet) -> bool
        ensures { IsTrue result ↔ (set.intersection self.now other.now ≡ set.empty) }
    {
        self.trie.all_in(&other.trie, false)
    }

    /// Returns a new set of the paths that are in one of the two sets or in both. For example, for the set of `a` and
    /// `b` and the set of `b` and `c` it returns the set of `a`, `b` and `c`.
    ///
    /// The call allocates from the allocator of this set.
    ///
    /// # Errors
    ///
    /// - `OutOfMemory` (0): an allocation fails, or the reference count of a text is at its maximum.
    pub fn union(&self, other: &FieldPathSet) -> VortexResult<Self>
        ensures { Makes result (λ s. s ≡ set.union self.now other.now) }
    {
        let mut trie = self.trie.try_clone(self.alloc)?;
        trie.insert_all(self.alloc, &other.trie)?;
        Ok(FieldPathSet {
            alloc: self.alloc,
            trie,
        })
    }

    /// Returns a cursor at the root of the set. The cursor contains the paths of the set.
    ///
    /// The call doesn't allocate.
    pub fn cursor(&self) -> FieldPathCursor<'_>
        ensures paths { contains_below result ≡ set.contains self.now }
        ensures each { (q : List Field) → contains_below result q ≡ set.contains self.now q }
    {
        FieldPathCursor::at_root(&self.trie)
    }

    /// Inserts the path, unless it is in the set already. If there is an error, the set is unchanged and the path is
    /// dropped.
    ///
    /// # Errors
    ///
    /// - `OutOfMemory` (0): an allocation fails, or the reference count of a text is at its maximum.
    pub fn insert(&mut self, path: FieldPath) -> VortexResult<()>
        ensures inserted { OnOk result (self.new ≡ set.insert self.old path) }
        ensures covers { OnOk result ((q : List Field) → IsTrue (covers self.new q)
            ↔ (IsTrue (covers self.old q) ⊎ Beginning path q)) }
        ensures err { OnErr result (self.new ≡ self.old) }
        ensures errors { IsOkUnless result OutOfMemory }
    {
        Ok(self.trie.insert(self.alloc, path)?)
    }

    /// Inserts the paths that an iterator yields, in order. The caller must prove that the iterator ends.
    ///
    /// If there is an error, the call has stopped at one of the paths. The set then contains the paths that it
    /// contained before the call and the paths that the iterator yielded before that one, and no others.
    ///
    /// # Errors
    ///
    /// - `OutOfMemory` (0): an allocation fails, or the reference count of a text is at its maximum.
    pub fn extend<I: IntoIterator<Item = FieldPath>>(&mut self, paths: I) -> VortexResult<()>
        requires { IsFiniteIterable I.into_iter_gives I.IntoIter.can_next I.IntoIter.remaining paths }
        ensures extended { OnOk result (MadeFrom (I.into_iter_gives paths) I.IntoIter.next_gives (λ given.
            self.new ≡ set.union self.old (set_of given))) }
        ensures err { OnErr result (MadeBefore (I.into_iter_gives paths) I.IntoIter.next_gives (λ given.
            self.new ≡ set.union self.old (set_of given))) }
        ensures errors { IsOkUnless result OutOfMemory }
    {
        for path in paths {
            self.insert(path)?;
        }
        Ok(())
    }

    /// Returns an iterator over references to the paths of the set. It returns each path once, in no particular order.
    ///
    /// # Errors
    ///
    /// - `OutOfMemory` (0): an allocation fails.
    pub fn iter(&self) -> VortexResult<vec::IntoIter<&FieldPath>>
        ensures ok { Makes result (λ r. set_of (map (λ x. x.now) (into_iter_items r)) ≡ self.now) }
        ensures once { IfOk result (λ r. Distinct (map (λ x. x.now) (into_iter_items r))) }
        ensures runs { OnOk result (YieldsInOrder (into_iter_steps {X = Bor (List Field)} {Z = Global}) into_iter_items) }
    {
        let found = self.trie.gather(self.alloc)?;
        Ok(found.into_iter())
    }

    /// Returns references to the paths of the set that don't exist in `dtype` (`FieldPath::exists_in`). Each path is
    /// returned once, in no particular order. For example, for the set of `a` and `b.c` and the type `{a=i32, b=utf8}`
    /// the call returns `b.c`. The returned list is empty exactly if every path of the set exists in the type. A
    /// program that checks a query against a schema can name the returned paths in its error.
    ///
    /// The call follows each path in the type, up to the end of the path or up to the first step that isn't possible.
    /// So the time grows with the number of steps of all paths.
    ///
    /// # Errors
    ///
    /// - `OutOfMemory` (0): an allocation fails.
    pub fn unresolved(&self, dtype: &DType) -> VortexResult<Vec<&FieldPath>>
        ensures ok { Makes result (λ v. set_of (map (λ x. x.now) v.items) ≡ unresolved self.now (tree dtype.now)) }
        ensures once { IfOk result (λ v. Distinct (map (λ x. x.now) v.items)) }
        ensures each { IfOk result (λ v. All (λ x. IsTrue (set.contains self.now x.now)
            × ¬ (ExistsIn (tree dtype.now) x.now)) v.items) }
        ensures none { IfOk result (λ v. (v.items ≡ []) ↔ ((p : List Field) → IsTrue (set.contains self.now p)
            → ExistsIn (tree dtype.now) p)) }
    {
        let mut paths = self.trie.gather(self.alloc)?;
        paths.retain(|path| !path.exists_in(dtype));
        Ok(paths)
    }

    /// Consumes the set and returns an iterator over its least paths, which are those of which no other path of the set
    /// is a prefix. It returns each path once, in no particular order. For example, the least paths of the set of
    /// `a.b`, `x`, `a` and `a.c` are `a` and `x`. They are the fewest paths that cover what the set covers. The set is
    /// dropped, even if there is an error.
    ///
    /// # Errors
    ///
    /// - `OutOfMemory` (0): an allocation fails.
    #[tactic(auto, using(crate::proofs::lemmas::SetCovers::same_coverage))]
    pub fn into_iter(self) -> VortexResult<vec::IntoIter<FieldPath>>
        ensures ok { Makes result (λ r. set_of (into_iter_items r) ≡ least self) }
        ensures once { IfOk result (λ r. Distinct (into_iter_items r)) }
        ensures covers { IfOk result (λ r. SameCoverage (set_of (into_iter_items r)) self) }
        ensures within { IfOk result (λ r. (ps : List (List Field)) → SameCoverage (set_of ps) self
            → (p : List Field) → Contains (into_iter_items r) p → Contains ps p) }
        ensures runs { OnOk result (YieldsInOrder (into_iter_steps {X = List Field} {Z = Global}) into_iter_items) }
    {
        let (paths, _visits) = self.into_iter_counted()?;
        Ok(paths)
    }

    /// Consumes the set and returns what `into_iter` returns, and the number of nodes of the trie that the call
    /// visited.
    ///
    /// The call visits the root, and one node for each other prefix of a returned path. It doesn't visit the nodes
    /// below a returned path, however many paths of the set are there. For example, for the set of `a.b`, `x`, `a` and
    /// `a.c` the number is 3: the root, `a` and `x`. The set is dropped, even if there is an error.
    ///
    /// # Errors
    ///
    /// - `OutOfMemory` (0): an allocation fails.
    pub fn into_iter_counted(self) -> VortexResult<(vec::IntoIter<FieldPath>, u64)>
        ensures ok { Makes result (λ r. set_of (into_iter_items r.0) ≡ least self) }
        ensures once { IfOk result (λ r. Distinct (into_iter_items r.0)) }
        ensures runs { OnOk result (YieldsInOrder (into_iter_steps {X = List Field} {Z = Global}) into_iter_items) }
        ensures visits { IfOk result (λ r. IsCountOf (IsBegun self) r.1) }
        ensures some { IfOk result (λ r. 0 < r.1) }
        ensures root_alone { self ≡ set.empty → IfOk result (λ r. r.1 ≡ 1) }
        ensures at_most { IfOk result (λ r. r.1 ≤ 1 + sum_by length (into_iter_items r.0)) }
    {
        let (found, visits) = self.trie.cover(self.alloc)?;
        Ok((found.into_iter(), visits))
    }

    /// Returns a copy of the set.
    ///
    /// The call allocates from the allocator of this set.
    ///
    /// # Errors
    ///
    /// - `OutOfMemory` (0): an allocation fails, or the reference count of a text is at its maximum.
    pub fn try_clone(&self) -> VortexResult<Self>
        ensures { Makes result (λ s. s ≡ self.now) }
    {
        Ok(FieldPathSet {
            alloc: self.alloc,
            trie: self.trie.try_clone(self.alloc)?,
        })
    }
}

/// Collects the paths that an iterator yields into a set. So `collect` can return a set. It returns `AllocError` if an
/// allocation fails, or if the reference count of a text is at its maximum.
impl FromIterator<FieldPath> for FieldPathSet {
    type Alloc = Global;

    ghost from_iter_gives = { λ paths s. s ≡ set_of paths };

    fn from_iter<I: IntoIterator<Item = FieldPath>>(
        alloc: Global,
        paths: I,
    ) -> Result<FieldPathSet, AllocError> {
        match FieldPathSet::from_iter(alloc, paths) {
            Ok(set) => Ok(set),
            Err(_) => Err(AllocError),
        }
    }
}

/// Compares the paths of the sets. The order in which the paths were inserted makes no difference.
impl PartialEq for FieldPathSet {
    ghost use Rattle.std.specs.Cmp.{partial_equiv_from_equiv};
    ghost use Rattle.dtype_paths.specs.SetEquality.{same_paths};
    ghost use Rattle.dtype_paths.specs.SetEqualityLaws.{same_paths_equiv};

    ghost eq = { same_paths };

    ghost laws = { partial_equiv_from_equiv same_paths_equiv };

    #[tactic(auto, using(crate::proofs::lemmas::SetRelations::within_whole))]
    fn eq(&self, other: &FieldPathSet) -> bool
        ensures { IsTrue result ↔ (self.now ≡ other.now) }
    {
        self.len() == other.len() && self.is_subset(other)
    }
}

impl Eq for FieldPathSet {
    ghost use Rattle.dtype_paths.specs.SetEqualityLaws.{same_paths_equiv};

    ghost laws = { same_paths_equiv };
}

/// Writes `FieldPathSet { .. }`, without the paths.
impl fmt::Debug for FieldPathSet {
    fn fmt<W: fmt::Write>(&self, f: &mut fmt::Formatter<W>) -> fmt::Result {
        f.write_str("FieldPathSet { .. }")
    }
}
