// SPDX-License-Identifier: Apache-2.0
// SPDX-FileCopyrightText: Copyright the Vortex contributors

// Vtables of typed extensions.
use dtype_base::VortexResult;
use dtype_types::DType;
use std::alloc::Global;

/// The operations of one extension type: its id, how its metadata is read from bytes and written as bytes, and which
/// storage types it accepts. For example, the vtable of a date type may have a unit of time as its metadata, and accept
/// `i32` as its storage type.
///
/// Each implementation proves the three laws of `Typed` (`specs/Typed`):
/// - If metadata can be written, then the written bytes are read back as the same metadata.
/// - If metadata was read from bytes and can be written, then the written metadata consists of bytes (numbers below
///   256).
/// - Whether metadata fits a storage type doesn't depend on the outer nullability of the storage type.
pub trait ExtVTable: Drop {
    ghost use Rattle.std.specs.Prelude.{◌≡◌, ◌⊎◌, ℕ, List, Option, Some, None, Bool, true, false, IfErr, OnOk, MatchResult};
    ghost use Rattle.dtype_base.specs.declared.vortex_error.VortexError.TheVariants.{OutOfMemory, MetadataRefused};
    ghost use Rattle.dtype_types.specs.tree.Tree.{Tree};
    ghost use Rattle.dtype_types.specs.tree.TreeOf.{tree};
    ghost use Rattle.dtype_types.specs.tree.Valid.{Valid};
    ghost use Rattle.vortex_dtype.specs.Typed.{Typed};

    /// The decoded metadata of an extension, for example a unit of time.
    type Metadata: Drop;

    // the text of the id
    ghost id_text: { Self → List ℕ };

    // what metadata means
    ghost Meant: { Type 0 };

    ghost meant: { Self.Metadata → Meant };

    // what bytes are read as, if they are accepted
    ghost reads: { Self → List ℕ → Option Meant };

    // what metadata is written as, if it can be written
    ghost writes: { Self → Meant → Option (List ℕ) };

    // whether the metadata fits the storage
    ghost fits: { Self → Meant → Tree → Bool };

    /// Returns the id of the extension type.
    fn id(&self) -> &str
        ensures { result.now ≡ id_text self.now };

    /// Returns the metadata as bytes.
    ///
    /// # Errors
    ///
    /// - `MetadataRefused` (22): the metadata can't be written.
    /// - `OutOfMemory` (0): an allocation fails. This error may be returned in place of `MetadataRefused`.
    fn serialize_metadata(&self, alloc: Global, metadata: &Self::Metadata) -> VortexResult<Vec<u8>>
        ensures { MatchResult result
            (λ v. writes self.now (meant metadata.now) ≡ Some v.items)
            (λ e. (e ≡ OutOfMemory) ⊎ ((e ≡ MetadataRefused)
            × (writes self.now (meant metadata.now) ≡ None))) };

    /// Returns the metadata that is read from these bytes.
    ///
    /// # Errors
    ///
    /// - `MetadataRefused` (22): the bytes aren't metadata of this extension type.
    /// - `OutOfMemory` (0): an allocation fails. This error may be returned in place of `MetadataRefused`.
    fn deserialize_metadata(&self, alloc: Global, bytes: &[u8]) -> VortexResult<Self::Metadata>
        ensures { MatchResult result
            (λ m. reads self.now bytes.now ≡ Some (meant m))
            (λ e. (e ≡ OutOfMemory) ⊎ ((e ≡ MetadataRefused) × (reads self.now bytes.now ≡ None))) };

    /// Returns `Ok(())` if the metadata fits the storage type. If the storage type isn't valid, the contract doesn't
    /// specify the result.
    ///
    /// # Errors
    ///
    /// If the storage type is valid:
    ///
    /// - `MetadataRefused` (22): the metadata doesn't fit the storage type.
    /// - `OutOfMemory` (0): an allocation fails. This error may be returned in place of `MetadataRefused`.
    fn validate_dtype(
        &self,
        alloc: Global,
        metadata: &Self::Metadata,
        storage: &DType,
    ) -> VortexResult<()>
        ensures fits { Valid (tree storage.now)
            → OnOk result (fits self.now (meant metadata.now) (tree storage.now) ≡ true) }
        ensures errors { Valid (tree storage.now) → IfErr result
            (λ e. (e ≡ OutOfMemory) ⊎ ((e ≡ MetadataRefused)
            × (fits self.now (meant metadata.now) (tree storage.now) ≡ false))) };

    ghost typed: { (v : Self) → Typed (reads v) (writes v) (fits v) };
}
