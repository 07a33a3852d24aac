// SPDX-License-Identifier: Apache-2.0
// SPDX-FileCopyrightText: Copyright the Vortex contributors

ghost use Rattle.std.specs.Prelude.{◌≡◌, ◌↔◌, IsTrue, fold, Some, ◌⊎◌, OnOk, MatchResult};
ghost use Rattle.dtype_base.specs.declared.vortex_error.VortexError.TheVariants.{OutOfMemory, MapKeyNullable};
ghost use Rattle.dtype_base.specs.declared.nullability.Nullability.TheVariants.{NonNullable};
ghost use Rattle.dtype_base.specs.Errors.{Makes};

use crate::dtype::equality::{NullabilityRule, equal_under};
use crate::dtype::hash::{HashMode, hash_into};
use crate::dtype::nullability_bounds::{MergeRule, merge_under};
use crate::{DType, StructFields};
use dtype_base::{FieldNames, Nullability, VortexError, VortexResult};
use std::alloc::Global;
use std::fmt;
use std::hash::{Hash, Hasher};
use std::rc::Rc;

/// The parts of a map type: its key type, its value type, and whether its keys are declared to be sorted. For example,
/// `map(utf8, i32?, keys_sorted=true)` has the key type `utf8` and the value type `i32?`. The key type of a map that
/// `try_new` returns is non-nullable.
#[derive(Debug, Drop)]
#[cycle(dtype)]
pub struct MapDType {
    shared: Rc<Entries<DType>>,
}

// The parts of a map, which its copies share.
#[derive(Debug, Drop)]
struct Entries<T> {
    key: T,
    value: T,
    keys_sorted: bool,
}

impl MapDType {
    ghost use Rattle.dtype_types.specs.equality.Equality.{map_equal_under};
    ghost use Rattle.dtype_types.specs.equality.Hashes.{map_writes};
    ghost use Rattle.dtype_types.specs.nullability.Merged.{merge, rule_of};
    ghost use Rattle.dtype_types.specs.tree.Erase.{erase};
    ghost use Rattle.dtype_types.specs.parts.Maps.{entries_of, key_tree, value_tree};
    ghost use Rattle.dtype_types.specs.nullability.Nullable.{nullability, IsNullable};
    ghost use Rattle.dtype_types.specs.tree.TreeOf.{tree, map_shown};

    /// Returns the map with this key type and this value type. The flag `keys_sorted` declares that the keys of each
    /// value of the type are sorted. The call stores the flag, and nothing checks that it is so.
    ///
    /// # Errors
    ///
    /// - `MapKeyNullable` (9): the key type is nullable.
    /// - `OutOfMemory` (0): an allocation fails.
    pub fn try_new(alloc: Global, key: DType, value: DType, keys_sorted: bool) -> VortexResult<Self>
        ensures ok { MatchResult result
            (λ m. map_shown m ≡ (tree key, tree value, keys_sorted))
            (λ e.
            ((e ≡ OutOfMemory) × (nullability (tree key) ≡ NonNullable))
            ⊎ ((e ≡ MapKeyNullable) × IsNullable (tree key))) }
        ensures accepted { OnOk result (nullability (tree key) ≡ NonNullable) }
    {
        if key.is_nullable() {
            return Err(VortexError::MapKeyNullable);
        }
        let entries = Entries {
            key,
            value,
            keys_sorted,
        };
        Ok(MapDType {
            shared: Rc::new(alloc, entries)?,
        })
    }

    /// Returns the type of the keys.
    pub fn key_dtype(&self) -> &DType
        ensures { tree result.now ≡ key_tree self.now }
    {
        &self.shared.key
    }

    /// Returns the type of the values.
    pub fn value_dtype(&self) -> &DType
        ensures { tree result.now ≡ value_tree self.now }
    {
        &self.shared.value
    }

    /// Returns whether the keys are declared to be sorted. Nothing checks that they are sorted.
    pub fn keys_sorted(&self) -> bool
        ensures { result ≡ (map_shown self.now).2 }
    {
        self.shared.keys_sorted
    }

    /// Returns the type of an entry of the map: a non-nullable struct with the fields `key` and `value`. For example,
    /// it returns `{key=utf8, value=i32?}` for `map(utf8, i32?, keys_sorted=true)`.
    ///
    /// # Errors
    ///
    /// - `OutOfMemory` (0): an allocation fails, or a reference count is at its maximum.
    pub fn entries_dtype(&self, alloc: Global) -> VortexResult<DType>
        ensures { Makes result (λ d. tree d ≡ entries_of (key_tree self.now) (value_tree self.now)) }
    {
        let names = FieldNames::from_texts(alloc, &["key", "value"])?;
        let key = self.key_dtype().try_clone(alloc)?;
        let value = self.value_dtype().try_clone(alloc)?;
        let fields = StructFields::new(alloc, names, vec![in alloc; key, value]?)?;
        Ok(DType::Struct(fields, Nullability::NonNullable))
    }

    // Returns whether the key types and the value types of the two are equal under the rule, and their flags are equal.
    #[cycle(equal_under)]
    pub(crate) fn equal_under(&self, other: &MapDType, rule: NullabilityRule) -> bool
        ensures { result ≡ map_equal_under rule (map_shown self.now) (map_shown other.now) }
    {
        equal_under(&self.shared.key, &other.shared.key, rule)
            && equal_under(&self.shared.value, &other.shared.value, rule)
            && self.shared.keys_sorted == other.shared.keys_sorted
    }

    // Returns the bound of two maps that are equal except for nullabilities.
    #[cycle(merge_under)]
    pub(crate) fn merge_under(
        &self,
        alloc: Global,
        other: &MapDType,
        rule: MergeRule,
    ) -> VortexResult<MapDType>
        requires key { erase (map_shown self.now).0 ≡ erase (map_shown other.now).0 }
        requires value { erase (map_shown self.now).1 ≡ erase (map_shown other.now).1 }
        ensures { Makes result (λ m. map_shown m ≡ (
          merge (rule_of rule) (map_shown self.now).0 (map_shown other.now).0,
          merge (rule_of rule) (map_shown self.now).1 (map_shown other.now).1,
          (map_shown self.now).2,
        )) }
    {
        let entries = Entries {
            key: merge_under(alloc, &self.shared.key, &other.shared.key, rule)?,
            value: merge_under(alloc, &self.shared.value, &other.shared.value, rule)?,
            keys_sorted: self.shared.keys_sorted,
        };
        Ok(MapDType {
            shared: Rc::new(alloc, entries)?,
        })
    }

    // Hashes the key, the value, and whether the keys are sorted.
    #[cycle(hash)]
    pub(crate) fn hash_into<H: Hasher>(&self, mode: HashMode, state: &mut H)
        ensures { state.new ≡ fold H.write state.old (map_writes mode (map_shown self.now)) }
    {
        hash_into(&self.shared.key, mode, state);
        hash_into(&self.shared.value, mode, state);
        self.shared.keys_sorted.hash(state);
    }

    /// Returns a copy of the map, which shares the key type and the value type with the original.
    ///
    /// The call raises a reference count and doesn't allocate, so it doesn't use `_alloc`. The parameter is there so
    /// that the signature can stay the same if a later version has to allocate.
    ///
    /// # Errors
    ///
    /// - `OutOfMemory` (0): the reference count is at its maximum, so no further copy can be counted.
    pub fn try_clone(&self, _alloc: Global) -> VortexResult<Self>
        ensures { Makes result (λ m. map_shown m ≡ map_shown self.now) }
    {
        Ok(MapDType {
            shared: self.shared.clone()?,
        })
    }
}

#[tactic(auto, using(crate::proofs::lemmas::Equality::equality))]
impl PartialEq for MapDType {
    ghost use Rattle.dtype_types.specs.equality.Equality.{same_map_by};
    ghost use Rattle.dtype_types.specs.equality.EqualityLaws.{same_map_by_equiv};
    ghost use Rattle.dtype_types.specs.tree.TreeOf.{map_shown};
    ghost use Rattle.std.specs.Cmp.{partial_equiv_from_equiv};

    ghost eq = { same_map_by map_shown };

    ghost laws = { partial_equiv_from_equiv (same_map_by_equiv map_shown) };

    fn eq(&self, other: &MapDType) -> bool
        ensures { IsTrue result ↔ (map_shown self.now ≡ map_shown other.now) }
    {
        self.equal_under(other, NullabilityRule::Compared)
    }
}

impl Eq for MapDType {
    ghost use Rattle.dtype_types.specs.tree.TreeOf.{map_shown};
    ghost use Rattle.dtype_types.specs.equality.EqualityLaws.{same_map_by_equiv};

    ghost laws = { same_map_by_equiv map_shown };
}

impl Hash for MapDType {
    ghost use Rattle.dtype_types.specs.tree.TreeOf.{map_shown};
    ghost use Rattle.dtype_types.specs.equality.HashLaws.{map_writes_alike};
    ghost use Rattle.dtype_types.specs.equality.Hashes.{map_writes};
    ghost use Rattle.dtype_types.specs.declared.dtype.hash.HashMode.TheVariants.{Whole};

    ghost hash_input = { λ x. map_writes Whole (map_shown x) };

    ghost respects_eq = { map_writes_alike map_shown };

    fn hash<H: Hasher>(&self, state: &mut H) {
        self.hash_into(HashMode::Whole, state);
    }
}

/// Writes the key type, the value type, and whether the keys are sorted, for example
/// `map(utf8, i32?, keys_sorted=false)`.
#[tactic(auto, unfolding(crate::specs::texts::TextOf::map_text))]
impl fmt::Display for MapDType {
    ghost use Rattle.dtype_types.specs.texts.TextOf.{map_text};

    ghost output = { λ m. Some (map_text m) };

    #[cycle(text)]
    fn fmt<W: fmt::Write>(&self, f: &mut fmt::Formatter<W>) -> fmt::Result {
        let entries = &*self.shared;
        let sorted = entries.keys_sorted;
        write!(f, "map(")?;
        entries.key.fmt(f)?;
        write!(f, ", ")?;
        entries.value.fmt(f)?;
        write!(f, ", keys_sorted={sorted})")
    }
}
