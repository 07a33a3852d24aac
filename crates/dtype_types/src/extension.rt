// SPDX-License-Identifier: Apache-2.0
// SPDX-FileCopyrightText: Copyright the Vortex contributors

ghost use Rattle.std.specs.Prelude.{◌≡◌, ◌↔◌, ℕ, IsTrue, IfOk, ◌<◌, List, Some, nat_eq, fold, ◌&&◌};
ghost use Rattle.std.specs.Str.{bytes_eq};
ghost use Rattle.std.specs.Rc.{rc_str_bytes};
ghost use Rattle.dtype_base.specs.Errors.{Makes};

use crate::DType;
use crate::dtype::equality::{NullabilityRule, equal_under};
use crate::dtype::hash::{HashMode, hash_into};
use crate::dtype::nullability_bounds::{MergeRule, merge_under};
use crate::dtype::width::Width;
use dtype_base::laws::slices_hold_bytes;
use dtype_base::{Nullability, VortexResult};
use std::alloc::Global;
use std::fmt;
use std::hash::{Hash, Hasher};
use std::marker::Model;
use std::rc::RcStr;

/// The id of an extension type: a text, for example `vortex.date`. In contracts an id is the list of the bytes of its
/// text.
#[derive(Debug, Drop)]
pub struct ExtId {
    text: RcStr,
}

impl Model for ExtId {
    ghost Value = { List ℕ };

    ghost view = { λ id. rc_str_bytes id.text };
}

impl ExtId {
    /// Returns the id with this text, which is copied.
    ///
    /// # Errors
    ///
    /// - `OutOfMemory` (0): an allocation fails.
    pub fn new(alloc: Global, text: &str) -> VortexResult<Self>
        ensures { Makes result (λ id. id ≡ text.now) }
    {
        Ok(ExtId {
            text: RcStr::from_str(alloc, text)?,
        })
    }

    /// Returns the text of the id.
    pub fn as_str(&self) -> &str
        ensures { result.now ≡ self.now }
    {
        self.text.as_str()
    }

    /// Returns a copy of the id, which shares the text with the original.
    ///
    /// The call raises a reference count and doesn't allocate, so it doesn't use `_alloc`. The parameter is there so
    /// that the signature can stay the same if a later version has to allocate.
    ///
    /// # Errors
    ///
    /// - `OutOfMemory` (0): the reference count of the text is at its maximum, so no further copy can be counted.
    pub fn try_clone(&self, _alloc: Global) -> VortexResult<Self>
        ensures { Makes result (λ id. id ≡ self.now) }
    {
        Ok(ExtId {
            text: self.text.clone()?,
        })
    }
}

impl PartialEq for ExtId {
    ghost use Rattle.std.specs.Cmp.Lexicographic.{pointwise, nat_list_eq_equiv};
    ghost use Rattle.std.specs.Cmp.{partial_equiv_from_equiv};

    ghost eq = { pointwise nat_eq };

    ghost laws = { partial_equiv_from_equiv nat_list_eq_equiv };

    fn eq(&self, other: &ExtId) -> bool {
        self.as_str() == other.as_str()
    }
}

impl Eq for ExtId {
    ghost use Rattle.std.specs.Cmp.Lexicographic.{nat_list_eq_equiv};

    ghost laws = { nat_list_eq_equiv };
}

impl Hash for ExtId {
    ghost use Rattle.std.specs.Hash as fed;
    ghost use Rattle.std.proofs.Common.{rules};
    ghost use Rattle.std.specs.Cmp.Rules.{hashing};

    ghost hash_input = { fed.str };

    ghost respects_eq = { Prim.search (hashing, rules) };

    fn hash<H: Hasher>(&self, state: &mut H) {
        self.as_str().hash(state);
    }
}

/// Writes the text of the id as it is, without escapes.
impl fmt::Display for ExtId {
    ghost output = { λ id. Some id };

    fn fmt<W: fmt::Write>(&self, f: &mut fmt::Formatter<W>) -> fmt::Result {
        self.as_str().fmt(f)
    }
}

/// An extension type: an id, the metadata as bytes, and a storage type. For example, `x.date[1B](i32?)` has the id
/// `x.date`, one byte of metadata and the storage type `i32?`.
///
/// An `ExtDTypeRef` is called erased because it doesn't contain the library that defines what the id and the metadata
/// mean. So a program that doesn't know what `x.date` means can still read such a type, keep it and write it again.
#[derive(Debug, Drop)]
#[cycle(dtype)]
pub struct ExtDTypeRef {
    parts: Box<Parts<DType>>,
}

// The parts of an extension. They are in one box, so that a `DType` is small.
#[derive(Debug, Drop)]
struct Parts<T> {
    id: ExtId,
    metadata: Vec<u8>,
    storage: T,
}

impl ExtDTypeRef {
    ghost use Rattle.dtype_types.specs.tree.Kinds.{is_nested};
    ghost use Rattle.dtype_types.specs.nullability.Merged.{merge, rule_of};
    ghost use Rattle.dtype_types.specs.nullability.Nullable.{nullability, CanBeNonNullable, SetNull, IsNullable};
    ghost use Rattle.dtype_types.specs.equality.Equality.{equal_under};
    ghost use Rattle.dtype_types.specs.tree.Erase.{erase};
    ghost use Rattle.dtype_types.specs.tree.Valid.{Valid};
    ghost use Rattle.dtype_types.specs.tree.TreeOf.{tree, extension_tree, extension_metadata, extension_id, storage_tree};
    ghost use Rattle.dtype_types.specs.tree.Tree.{extension};
    ghost use Rattle.dtype_types.specs.equality.Hashes.{inner_writes};
    ghost use Rattle.dtype_types.specs.tree.Width.{Measures};

    /// Returns the id of the extension type.
    pub fn id(&self) -> &ExtId
        ensures { result.now ≡ extension_id self.now }
    {
        &self.parts.id
    }

    /// Returns the extension type with this id, this metadata and this storage type.
    ///
    /// # Errors
    ///
    /// - `OutOfMemory` (0): an allocation fails.
    pub fn from_parts(
        alloc: Global,
        id: ExtId,
        metadata: Vec<u8>,
        storage: DType,
    ) -> VortexResult<Self>
        ensures ok { Makes result (λ e. extension_tree e ≡ extension id metadata.items (tree storage)) }
        ensures valid { Valid (tree storage) → IfOk result (λ e. Valid (extension_tree e)) }
    {
        slices_hold_bytes(&metadata);
        let parts = Parts {
            id,
            metadata,
            storage,
        };
        Ok(ExtDTypeRef {
            parts: Box::new(alloc, parts)?,
        })
    }

    /// Consumes the extension type and returns its id, its metadata and its storage type.
    pub fn into_parts(self) -> (ExtId, Vec<u8>, DType)
        ensures { extension_tree self ≡ extension result.0 result.1.items (tree result.2) }
    {
        let Parts {
            id,
            metadata,
            storage,
        } = Box::into_inner(self.parts);
        (id, metadata, storage)
    }

    /// Returns the metadata, as bytes.
    pub fn metadata_bytes(&self) -> &[u8]
        ensures { result.now ≡ extension_metadata self.now }
    {
        &self.parts.metadata
    }

    /// Returns a copy of the metadata, as bytes.
    ///
    /// # Errors
    ///
    /// - `OutOfMemory` (0): an allocation fails.
    pub fn serialize_metadata(&self, alloc: Global) -> VortexResult<Vec<u8>>
        ensures { Makes result (λ v. v.items ≡ extension_metadata self.now) }
    {
        Ok(Vec::from_slice(alloc, &self.parts.metadata)?)
    }

    /// Returns a value whose `Display` prints the number of bytes of the metadata followed by `B`, for example `2B`.
    pub fn display_metadata(&self) -> MetadataDisplay<'_>
        ensures { result ≡ extension_metadata self.now }
    {
        MetadataDisplay {
            bytes: &self.parts.metadata,
        }
    }

    /// Returns whether the ids and the metadata of the two extension types are equal, and their storage types are equal
    /// if every nullability in them is ignored. For example, `x.date[1B](i32)` and `x.date[1B](i32?)` are equal in this
    /// way if their metadata is the same byte.
    #[tactic(auto, using(crate::proofs::KindLaws::erased_tests))]
    pub fn eq_ignore_nullability(&self, other: &Self) -> bool
        ensures { IsTrue result
            ↔ (erase (extension_tree self.now) ≡ erase (extension_tree other.now)) }
    {
        self.equal_under(other, NullabilityRule::Ignored)
    }

    /// Returns the outer nullability of the extension type, which is that of its storage type.
    #[cycle(nullability)]
    pub fn nullability(&self) -> Nullability
        ensures { result ≡ nullability (storage_tree self.now) }
    {
        self.parts.storage.nullability()
    }

    /// Returns whether the storage type is nullable. A value of the extension type can be null exactly if it is.
    pub fn is_nullable(&self) -> bool
        ensures { IsTrue result ↔ IsNullable (storage_tree self.now) }
    {
        self.nullability().is_nullable()
    }

    /// Returns the storage type.
    pub fn storage_dtype(&self) -> &DType
        ensures { tree result.now ≡ storage_tree self.now }
    {
        &self.parts.storage
    }

    // Returns whether the ids and the metadata are equal, and the storage types are equal under the rule.
    #[cycle(equal_under)]
    pub(crate) fn equal_under(&self, other: &ExtDTypeRef, rule: NullabilityRule) -> bool
        ensures { result ≡ (bytes_eq (extension_id self.now) (extension_id other.now)
            && bytes_eq (extension_metadata self.now) (extension_metadata other.now)
            && equal_under rule (storage_tree self.now) (storage_tree other.now)) }
    {
        self.parts.id == other.parts.id
            && self.parts.metadata.as_slice() == other.parts.metadata.as_slice()
            && equal_under(&self.parts.storage, &other.parts.storage, rule)
    }

    // Returns the bound of two extensions that are equal except for nullabilities. It has the bound of their storage
    // types.
    #[cycle(merge_under)]
    pub(crate) fn merge_under(
        &self,
        alloc: Global,
        other: &ExtDTypeRef,
        rule: MergeRule,
    ) -> VortexResult<ExtDTypeRef>
        requires { erase (storage_tree self.now) ≡ erase (storage_tree other.now) }
        ensures { Makes result (λ e. extension_tree e ≡ merge (rule_of rule) (extension_tree self.now) (extension_tree other.now)) }
    {
        let storage = merge_under(alloc, &self.parts.storage, &other.parts.storage, rule)?;
        let id = self.parts.id.try_clone(alloc)?;
        let metadata = Vec::from_slice(alloc, &self.parts.metadata)?;
        ExtDTypeRef::from_parts(alloc, id, metadata, storage)
    }

    // Hashes the id, the metadata and the storage.
    #[cycle(hash)]
    pub(crate) fn hash_into<H: Hasher>(&self, mode: HashMode, state: &mut H)
        ensures { state.new ≡ fold H.write state.old (inner_writes mode (extension_tree self.now)) }
    {
        self.parts.id.hash(state);
        state.write_usize(self.parts.metadata.len());
        state.write(&self.parts.metadata);
        hash_into(&self.parts.storage, mode, state);
    }

    /// Returns a copy of the extension type, which is equal to it.
    ///
    /// # Errors
    ///
    /// - `OutOfMemory` (0): an allocation fails, or a reference count is at its maximum.
    #[cycle(copy)]
    pub fn try_clone(&self, alloc: Global) -> VortexResult<Self>
        ensures { Makes result (λ e. extension_tree e ≡ extension_tree self.now) }
    {
        let id = self.parts.id.try_clone(alloc)?;
        let metadata = Vec::from_slice(alloc, &self.parts.metadata)?;
        let storage = self.parts.storage.try_clone(alloc)?;
        ExtDTypeRef::from_parts(alloc, id, metadata, storage)
    }

    // Whether the storage is nested.
    #[cycle(nested)]
    pub(crate) fn is_nested(&self) -> bool
        ensures { result ≡ is_nested (storage_tree self.now) }
    {
        self.parts.storage.is_nested()
    }

    // The width of the storage.
    #[cycle(width)]
    pub(crate) fn width(&self) -> Width
        ensures { Measures result (extension_tree self.now) }
    {
        self.parts.storage.width()
    }

    // Whether the storage can be made non-nullable.
    #[cycle(can_be_nonnullable)]
    pub(crate) fn can_be_nonnullable(&self) -> bool
        ensures { IsTrue result ↔ CanBeNonNullable (extension_tree self.now) }
    {
        self.parts.storage.can_be_nonnullable()
    }

    /// Returns the extension type with the outer nullability of its storage type set to `n`. The id and the metadata
    /// stay the same. For example, setting `Nullable` in `x.date[1B](i32)` returns `x.date[1B](i32?)`. If `n` is
    /// `NonNullable`, the caller must prove that the storage type can be made non-nullable.
    ///
    /// # Errors
    ///
    /// - `OutOfMemory` (0): an allocation fails, or a reference count is at its maximum.
    #[cycle(with_nullability)]
    pub fn with_nullability(&self, alloc: Global, n: Nullability) -> VortexResult<Self>
        requires { n ≡ Nullability.NonNullable → CanBeNonNullable (extension_tree self.now) }
        ensures { Makes result (λ e. SetNull (extension_tree self.now) n (extension_tree e)) }
    {
        let storage = self.parts.storage.with_nullability(alloc, n)?;
        let id = self.parts.id.try_clone(alloc)?;
        let metadata = Vec::from_slice(alloc, &self.parts.metadata)?;
        ExtDTypeRef::from_parts(alloc, id, metadata, storage)
    }
}

/// Returns whether the two extension types have equal ids, equal metadata and equal storage types.
#[tactic(auto, using(crate::proofs::lemmas::Equality::equality))]
impl PartialEq for ExtDTypeRef {
    ghost use Rattle.dtype_types.specs.equality.Equality.{same_by};
    ghost use Rattle.dtype_types.specs.equality.EqualityLaws.{same_by_equiv};
    ghost use Rattle.dtype_types.specs.tree.TreeOf.{extension_tree};
    ghost use Rattle.std.specs.Cmp.{partial_equiv_from_equiv};

    ghost eq = { same_by extension_tree };

    ghost laws = { partial_equiv_from_equiv (same_by_equiv extension_tree) };

    fn eq(&self, other: &ExtDTypeRef) -> bool
        ensures { IsTrue result ↔ (extension_tree self.now ≡ extension_tree other.now) }
    {
        self.equal_under(other, NullabilityRule::Compared)
    }
}

impl Eq for ExtDTypeRef {
    ghost use Rattle.dtype_types.specs.tree.TreeOf.{extension_tree};
    ghost use Rattle.dtype_types.specs.equality.EqualityLaws.{same_by_equiv};

    ghost laws = { same_by_equiv extension_tree };
}

impl Hash for ExtDTypeRef {
    ghost use Rattle.dtype_types.specs.tree.TreeOf.{extension_tree};
    ghost use Rattle.dtype_types.specs.equality.HashLaws.{inner_writes_alike};
    ghost use Rattle.dtype_types.specs.equality.Hashes.{inner_writes};
    ghost use Rattle.dtype_types.specs.declared.dtype.hash.HashMode.TheVariants.{Whole};

    ghost hash_input = { λ x. inner_writes Whole (extension_tree x) };

    ghost respects_eq = { inner_writes_alike extension_tree };

    fn hash<H: Hasher>(&self, state: &mut H) {
        self.hash_into(HashMode::Whole, state);
    }
}

/// A value whose `Display` prints the number of bytes of the metadata of an extension type. In contracts it is the list
/// of these bytes.
#[derive(Debug, Drop)]
pub struct MetadataDisplay<'a> {
    bytes: &'a [u8],
}

impl<'a> Model for MetadataDisplay<'a> {
    ghost Value = { List ℕ };

    ghost view = { λ m. m.bytes.now };
}

/// Writes the number of bytes followed by `B`, for example `2B`.
impl fmt::Display for MetadataDisplay<'_> {
    ghost use Rattle.dtype_types.specs.texts.Text.{metadata_text};

    ghost output = { λ m. Some (metadata_text m) };

    fn fmt<W: fmt::Write>(&self, f: &mut fmt::Formatter<W>) -> fmt::Result {
        let count = self.bytes.len();
        write!(f, "{count}B")
    }
}

/// Writes the id, the number of metadata bytes in brackets, and the storage type in parentheses, for example
/// `x.tag[2B](utf8?)`.
#[tactic(auto, unfolding(crate::specs::texts::TextOf::extension_text))]
impl fmt::Display for ExtDTypeRef {
    ghost use Rattle.dtype_types.specs.texts.TextOf.{extension_text};

    ghost output = { λ e. Some (extension_text e) };

    #[cycle(text)]
    fn fmt<W: fmt::Write>(&self, f: &mut fmt::Formatter<W>) -> fmt::Result {
        let id = &self.parts.id;
        let count = self.parts.metadata.len();
        write!(f, "{id}[{count}B](")?;
        self.parts.storage.fmt(f)?;
        write!(f, ")")
    }
}
