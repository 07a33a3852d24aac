// SPDX-License-Identifier: Apache-2.0
// SPDX-FileCopyrightText: Copyright the Vortex contributors

// The session: the registered plugins, and whether extension types with unknown ids are kept.
#![tactic(auto, unfolding(crate::specs::Session::meaning, crate::specs::Meaning::empty_meaning, crate::specs::Meaning::register_in, crate::specs::Meaning::allow_unknown_in))]

ghost use Rattle.std.specs.Prelude.{◌≡◌, ◌⊎◌, ◌↔◌, IfOk, IfErr, IsOkUnless, IsSome, IsTrue, OnErr, OnOk, Some, map, string_bytes};
ghost use Rattle.std.specs.HashMap.{IsUnique, keys};
ghost use Rattle.std.specs.String.{string_eq};
ghost use Rattle.dtype_base.specs.Errors.{Makes};
ghost use Rattle.dtype_base.specs.declared.vortex_error.VortexError.TheVariants.{OutOfMemory};
ghost use Rattle.dtype_types.specs.tree.TreeOf.{extension_metadata, extension_tree, tree};
ghost use Rattle.dtype_types.specs.tree.Valid.{Valid};
ghost use Rattle.dtype_types.specs.tree.Tree.{extension};
ghost use Rattle.vortex_dtype.specs.Meaning.{Bytes, LawfulSession, ListsIds, allow_unknown_in, empty_meaning, keeps, register_in};
ghost use Rattle.vortex_dtype.specs.Errors.{SessionError};
ghost use Rattle.vortex_dtype.specs.Session.{meaning};

use crate::plugin::{ExtDTypePlugin, boxed_deserialize, boxed_id};
use dtype_base::{MessageFault, VortexError, VortexResult};
use dtype_types::{DType, ExtDTypeRef, ExtId};
use std::alloc::Global;
use std::collections::HashMap;
use std::fmt;

/// A session contains plugins, each registered under an id, and a flag that determines whether it keeps extension types
/// with unknown ids. A type is read from a message with a session, because the session decides which metadata the
/// extension types in the message get. If several plugins were registered under one id, the session uses the last
/// (`laws::last_registered_counts`).
///
/// In contracts a session is `meaning rewrites session`. It consists of a function from ids to what the registered
/// plugins do with metadata, and of the flag.
///
/// # Examples
///
/// If the plugin of `x.tag` changes letters to lower case, then `deserialize("x.tag", b"AB", ..)` returns an extension
/// type with the metadata `ab`. If no plugin is registered under `x.tag`, the call returns the error
/// `ExtensionUnregistered` (35). If in that case `allow_unknown` was called before, the call returns an extension type
/// with the metadata `AB`.
#[derive(Drop)]
pub struct DTypeSession {
    alloc: Global,
    plugins: HashMap<String, Box<dyn ExtDTypePlugin>>,
    allow_unknown: bool,
}

impl DTypeSession {
    /// Returns a session without plugins, which doesn't keep unknown ids. The session keeps the allocator for later
    /// calls.
    ///
    /// Doesn't allocate.
    pub fn new(alloc: Global) -> Self
        ensures { meaning rewrites result ≡ empty_meaning }
    {
        DTypeSession {
            alloc,
            plugins: HashMap::new(alloc),
            allow_unknown: false,
        }
    }

    /// Registers a plugin under its id. If another plugin was registered under the id, this one replaces it.
    ///
    /// # Errors
    ///
    /// - `OutOfMemory` (0): an allocation fails. The session is then unchanged, and the plugin is dropped.
    pub fn register(&mut self, plugin: Box<dyn ExtDTypePlugin>) -> VortexResult<()>
        ensures last { OnOk result (meaning rewrites self.new
            ≡ register_in (id_text plugin) (rewrites plugin) (meaning rewrites self.old)) }
        ensures err { OnErr result (meaning rewrites self.new ≡ meaning rewrites self.old) }
        ensures errors { IsOkUnless result OutOfMemory }
    {
        let id = String::from_str(self.alloc, boxed_id(&plugin))?;
        self.plugins.insert(id, plugin)?;
        Ok(())
    }

    /// Makes the session keep extension types with unknown ids from now on, with their metadata unchanged.
    pub fn allow_unknown(&mut self)
        ensures { meaning rewrites self.new ≡ allow_unknown_in (meaning rewrites self.old) }
    {
        self.allow_unknown = true;
    }

    /// Returns whether the session keeps extension types with unknown ids.
    pub fn allows_unknown(&self) -> bool
        ensures { result ≡ (meaning rewrites self.now).unknown }
    {
        self.allow_unknown
    }

    /// Returns whether a plugin is registered under the id.
    ///
    /// Doesn't allocate.
    pub fn registry(&self, id: &str) -> bool
        ensures { IsTrue result ↔ IsSome ((meaning rewrites self.now).registered id.now) }
    {
        self.plugins.contains_key(id)
    }

    /// Returns the ids under which plugins are registered, each once, sorted by their bytes. For example, if plugins of
    /// `x.tag` and `x.date` are registered, the call returns `x.date` and `x.tag`.
    ///
    /// # Errors
    ///
    /// - `OutOfMemory` (0): an allocation fails.
    pub fn registered(&self) -> VortexResult<Vec<&str>>
        ensures { Makes result (λ ids. ListsIds (meaning rewrites self.now) (map (λ id. id.now) ids.items)) }
    {
        let mut ids = self.ids()?;
        ids.sort_unstable();
        Ok(ids)
    }

    // The ids under which plugins are registered, in the order of the map.
    fn ids(&self) -> VortexResult<Vec<&str>>
        ensures ok { Makes result (λ ids. map (λ id. id.now) ids.items
            ≡ map string_bytes (keys self.now.plugins)) }
        ensures unique { IsUnique string_eq self.now.plugins }
    {
        let mut ids = Vec::with_capacity(self.alloc, self.plugins.len())?;
        for id in self.plugins.keys() {
            ids.push(id.as_str())?;
        }
        Ok(ids)
    }

    /// Returns the extension type with this id, this storage type, and the metadata that the session keeps in place of
    /// the bytes `metadata`. If a plugin is registered under the id, the session keeps the metadata that the plugin
    /// writes back. If no plugin is registered under the id and the session keeps unknown ids, it keeps the bytes
    /// unchanged.
    ///
    /// The following is proved if the storage type is valid:
    /// - If the session reads the kept metadata again, it keeps it unchanged.
    /// - Which metadata the session keeps doesn't depend on the outer nullability of the storage type
    ///   (`laws::kept_over_each_nullability`).
    ///
    /// # Errors
    ///
    /// If the storage type is valid:
    ///
    /// - `MetadataRefused` (22): the registered plugin doesn't accept the metadata over this storage type.
    /// - `ExtensionUnregistered` (35): no plugin is registered under the id, and the session doesn't keep unknown ids.
    /// - `OutOfMemory` (0): an allocation fails. This error may be returned in place of the other two.
    pub fn deserialize(
        &self,
        id: &str,
        metadata: &[u8],
        storage: DType,
    ) -> VortexResult<ExtDTypeRef>
        ensures made { IfOk result (λ e.
            extension_tree e ≡ extension id.now (extension_metadata e) (tree storage)) }
        ensures kept { Valid (tree storage) → IfOk result (λ e.
            keeps (meaning rewrites self.now) id.now metadata.now (tree storage)
            ≡ Some (extension_metadata e)) }
        ensures again { Valid (tree storage) → IfOk result (λ e.
            keeps (meaning rewrites self.now) id.now (extension_metadata e) (tree storage)
            ≡ Some (extension_metadata e)) }
        ensures valid { Valid (tree storage) → IfOk result (λ e. Valid (extension_tree e)) }
        ensures errors { Valid (tree storage) → IfErr result
            (λ e. (e ≡ OutOfMemory)
            ⊎ SessionError (meaning rewrites self.now) id.now metadata.now (tree storage) e) }
    {
        self.extension_of(id, metadata, storage)
    }

    // Returns the extension type with this id, this storage type, and the metadata that the session keeps in place of
    // these bytes.
    fn extension_of(&self, id: &str, metadata: &[u8], storage: DType) -> VortexResult<ExtDTypeRef>
        ensures made { IfOk result (λ e.
            extension_tree e ≡ extension id.now (extension_metadata e) (tree storage)) }
        ensures kept { Valid (tree storage) → IfOk result (λ e.
            keeps (meaning rewrites self.now) id.now metadata.now (tree storage)
            ≡ Some (extension_metadata e)) }
        ensures bytes { Bytes metadata.now }
        ensures valid { Valid (tree storage) → IfOk result (λ e. Valid (extension_tree e)) }
        ensures errors { Valid (tree storage) → IfErr result
            (λ e. (e ≡ OutOfMemory)
            ⊎ SessionError (meaning rewrites self.now) id.now metadata.now (tree storage) e) }
    {
        let bytes = match self.plugins.get(id) {
            Some(plugin) => boxed_deserialize(plugin, self.alloc, metadata, &storage)?,
            None if self.allow_unknown => Vec::from_slice(self.alloc, metadata)?,
            None => return Err(VortexError::Message(MessageFault::ExtensionUnregistered)),
        };
        let id = ExtId::new(self.alloc, id)?;
        ExtDTypeRef::from_parts(self.alloc, id, bytes, storage)
    }
}

/// Prints the number of plugins and whether unknown ids are kept. The plugins themselves can't be printed.
impl fmt::Debug for DTypeSession {
    fn fmt<W: fmt::Write>(&self, f: &mut fmt::Formatter<W>) -> fmt::Result {
        f.debug_struct("DTypeSession")
            .field("plugins", &self.plugins.len())
            .field("allow_unknown", &self.allow_unknown)
            .finish()
    }
}

/// In each session `session`, every registered plugin is lawful (`LawfulSession`). For a valid storage type this means two
/// things:
/// - If a plugin returns the metadata `c` for some metadata, it returns `c` for `c`. For example, a plugin that returns `ab`
///   for `AB` returns `ab` for `ab`.
/// - What a plugin returns doesn't depend on the outer nullability of the storage type.
///
/// A caller calls this law if a theorem requires a lawful session. For example, `laws::messages_are_exact` requires one to
/// conclude that a type that is read from a message is admitted.
///
/// About [`DTypeSession::deserialize`].
pub fn session_laws(session: &DTypeSession)
    ensures { LawfulSession (meaning rewrites session.now) }
{}
