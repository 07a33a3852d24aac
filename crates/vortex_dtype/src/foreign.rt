// SPDX-License-Identifier: Apache-2.0
// SPDX-FileCopyrightText: Copyright the Vortex contributors

// Extensions of unknown types: their metadata is kept as bytes.
ghost use Rattle.std.specs.Prelude.{◌≡◌, IfOk, Some};
ghost use Rattle.dtype_base.specs.Errors.{Makes};
ghost use Rattle.dtype_types.specs.tree.TreeOf.{extension_tree, tree};
ghost use Rattle.dtype_types.specs.tree.Valid.{Valid};
ghost use Rattle.dtype_types.specs.tree.Tree.{extension};

use crate::ExtVTable;
use dtype_base::VortexResult;
use dtype_types::{DType, ExtDTypeRef, ExtId};
use std::alloc::Global;
use std::fmt;
use std::marker::Model;

/// The metadata of an extension type whose own vtable isn't known. It consists of the bytes of the metadata, unchanged.
#[derive(Debug, Drop, PartialEq, Eq, Hash)]
pub struct ForeignExtMetadata(pub Vec<u8>);

impl ForeignExtMetadata {
    /// Returns a copy of the metadata with the same bytes.
    ///
    /// # Errors
    ///
    /// - `OutOfMemory` (0): an allocation fails.
    pub fn try_clone(&self, alloc: Global) -> VortexResult<Self>
        ensures { Makes result (λ m. m.0.items ≡ self.now.0.items) }
    {
        Ok(ForeignExtMetadata(Vec::from_slice(alloc, &self.0)?))
    }
}

/// Prints the number of bytes followed by `B`, for example `3B`.
impl fmt::Display for ForeignExtMetadata {
    ghost use Rattle.dtype_types.specs.texts.Text.{metadata_text};

    ghost output = { λ m. Some (metadata_text m.0.items) };

    fn fmt<W: fmt::Write>(&self, f: &mut fmt::Formatter<W>) -> fmt::Result {
        let count = self.0.len();
        write!(f, "{count}B")
    }
}

/// A vtable for an extension type whose own vtable isn't known. It reads and writes all bytes unchanged, and accepts
/// every storage type.
#[derive(Debug, Drop, PartialEq, Eq, Hash)]
pub struct ForeignExtDType {
    id: ExtId,
}

/// In contracts the vtable is the text of its id.
impl Model for ForeignExtDType {
    ghost use Rattle.std.specs.Prelude.{ℕ, List};

    ghost Value = { List ℕ };

    ghost view = { λ v. v.id };

    ghost inverse = { λ id. record { id = id } };
}

impl ForeignExtDType {
    /// Returns the vtable with this id.
    ///
    /// Doesn't allocate.
    pub fn new(id: ExtId) -> Self
        ensures { result ≡ id }
    {
        ForeignExtDType { id }
    }

    /// Returns the erased extension type with this id, this metadata and this storage type.
    ///
    /// # Errors
    ///
    /// - `OutOfMemory` (0): an allocation fails.
    pub fn from_parts(
        alloc: Global,
        id: ExtId,
        metadata: Vec<u8>,
        storage: DType,
    ) -> VortexResult<ExtDTypeRef>
        ensures ok { Makes result (λ e. extension_tree e ≡ extension id metadata.items (tree storage)) }
        ensures valid { Valid (tree storage) → IfOk result (λ e. Valid (extension_tree e)) }
    {
        ExtDTypeRef::from_parts(alloc, id, metadata, storage)
    }

    /// Returns a copy of the vtable. The copy and the original share the text of the id.
    ///
    /// # Errors
    ///
    /// - `OutOfMemory` (0): the reference count of the text is at its maximum, so no further copy can be counted.
    pub fn try_clone(&self, alloc: Global) -> VortexResult<Self>
        ensures { Makes result (λ v. v ≡ self.now) }
    {
        Ok(ForeignExtDType {
            id: self.id.try_clone(alloc)?,
        })
    }
}

impl ExtVTable for ForeignExtDType {
    ghost use Rattle.std.specs.Prelude.{ℕ, List, Some, true};
    ghost use Rattle.vortex_dtype.specs.ForeignLaws.{foreign_typed};

    type Metadata = ForeignExtMetadata;

    ghost id_text = { λ v. v };

    ghost Meant = { List ℕ };

    ghost meant = { λ m. m.0.items };

    ghost reads = { λ _ b. Some b };

    ghost writes = { λ _ m. Some m };

    ghost fits = { λ _ m s. true };

    fn id(&self) -> &str {
        self.id.as_str()
    }

    fn serialize_metadata(
        &self,
        alloc: Global,
        metadata: &ForeignExtMetadata,
    ) -> VortexResult<Vec<u8>> {
        Ok(Vec::from_slice(alloc, &metadata.0)?)
    }

    fn deserialize_metadata(
        &self,
        alloc: Global,
        bytes: &[u8],
    ) -> VortexResult<ForeignExtMetadata> {
        Ok(ForeignExtMetadata(Vec::from_slice(alloc, bytes)?))
    }

    fn validate_dtype(
        &self,
        _alloc: Global,
        _metadata: &ForeignExtMetadata,
        _storage: &DType,
    ) -> VortexResult<()> {
        Ok(())
    }

    ghost typed = { λ _. foreign_typed };
}
