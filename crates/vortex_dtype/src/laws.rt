// SPDX-License-Identifier: Apache-2.0
// SPDX-FileCopyrightText: Copyright the Vortex contributors

//! Laws of sessions, of reading messages and of writing messages. They are theorems about the definitions. Each law is
//! the contract of a function whose body is empty. The modules `types`, `paths` and so on contain the laws of the
//! libraries below.
ghost use Rattle.std.specs.Prelude.{◌≡◌, ◌≢◌, ◌↔◌, ◌++◌, ◌∷◌, ℕ, List, Some, None, Ok, Err, true, false};
ghost use Rattle.std.specs.Bool.{Decides};
ghost use Rattle.std.specs.List.{list_any};
ghost use Rattle.dtype_base.specs.declared.nullability.Nullability.{Nullability};
ghost use Rattle.dtype_base.specs.declared.vortex_error.MessageFault.TheVariants.{ExtensionUnregistered};
ghost use Rattle.dtype_base.specs.declared.vortex_error.VortexError.{VortexError};
ghost use Rattle.dtype_base.specs.declared.vortex_error.VortexError.TheVariants.{Message as Faulty};
ghost use Rattle.dtype_base.specs.Bytes.{Bytes};
ghost use Rattle.dtype_types.specs.nullability.Nullable.{SetNull};
ghost use Rattle.dtype_types.specs.tree.Tree.{Tree};
ghost use Rattle.dtype_types.specs.tree.Valid.{Valid};
ghost use Rattle.vortex_dtype.specs.Accepts.{Accepts};
ghost use Rattle.vortex_dtype.specs.Calls.{Call, LeavesAlone, after, is_allow, register};
ghost use Rattle.vortex_dtype.specs.IsMessage.{IsMessage};
ghost use Rattle.vortex_dtype.specs.Meaning.{Admits, LawfulSession, Meaning, Rewrites, allow_unknown_in, empty_meaning, keeps, register_in};
ghost use Rattle.dtype_messages.specs.Message.{Message};
ghost use Rattle.vortex_dtype.specs.ReadInOrder.{read};
ghost use Rattle.vortex_dtype.specs.Reads.{Fault, Reads, ReadsAsNothing};
ghost use Rattle.vortex_dtype.specs.Written.{Normal, written};
ghost use Rattle.vortex_dtype.specs.declared.foreign.ForeignExtMetadata.{ForeignExtMetadata};

pub use crate::plugin::plugin_laws;
pub use crate::session::session_laws;
pub use dtype_base::laws as base;
pub use dtype_edits::laws as edits;
pub use dtype_merging::laws as columns;
pub use dtype_messages::laws as messages;
pub use dtype_native::laws as native;
pub use dtype_paths::laws as paths;
pub use dtype_projection::laws as projections;
pub use dtype_types::{laws as types, nullability_laws as merging};
use std::hash::Hash;

/// Registering a plugin under the id `id` changes what a session `s` does with the metadata of this id, and nothing
/// else. `r` says what the plugin does with metadata. After the call:
/// - `registered`: the session does with the metadata of `id` what `r` says.
/// - `others`: for every other id, the session does what it did before.
/// - `unknown`: the session keeps unknown ids exactly if it kept them before.
///
/// For example, registering a plugin of `x.tag` doesn't change how metadata of `x.text` is read. With this law a caller
/// knows that libraries can register plugins under different ids in one session without affecting each other.
///
/// About [`DTypeSession::register`].
#[tactic(auto, using(crate::proofs::lemmas::Sessions::sessions, crate::proofs::lemmas::Sessions::session_laws))]
pub fn register_changes_one_id()
    ensures registered { (s : Meaning) (id : List ℕ) (r : Rewrites) → (register_in id r s).registered id ≡ Some r }
    ensures others { (s : Meaning) (id other : List ℕ) (r : Rewrites)
        → id ≢ other → (register_in id r s).registered other ≡ s.registered other }
    ensures unknown { (s : Meaning) (id : List ℕ) (r : Rewrites) → (register_in id r s).unknown ≡ s.unknown }
{}

/// For each session `s`, after a call of `allow_unknown` the session keeps unknown ids, and what is registered under
/// each id is unchanged. For example, if a plugin is registered under `x.tag`, it still reads the metadata of `x.tag`.
/// With this law a caller knows that it may call `allow_unknown` before or after it registers plugins.
///
/// About [`DTypeSession::allow_unknown`].
#[tactic(auto, using(crate::proofs::lemmas::Sessions::sessions, crate::proofs::lemmas::Sessions::session_laws))]
pub fn allow_unknown_changes_the_flag()
    ensures unknown { (s : Meaning) → (allow_unknown_in s).unknown ≡ true }
    ensures registered { (s : Meaning) (id : List ℕ) → (allow_unknown_in s).registered id ≡ s.registered id }
{}

/// If several plugins are registered under one id, the last one counts. In detail: for each list of calls on a new
/// session and each id `id`, if one of the calls registers a plugin under `id` and no later call does, then the
/// session uses that plugin for `id` after all calls. For example, if two plugins of `x.tag` are registered one after
/// the other, the session uses the second. With this law a caller knows which plugin a session uses if several
/// libraries register plugins under the same id.
///
/// About [`DTypeSession::register`] and [`DTypeSession::registry`].
#[tactic(auto, using(crate::proofs::lemmas::Sessions::sessions, crate::proofs::lemmas::Sessions::session_laws))]
pub fn last_registered_counts()
    ensures { (before rest : List Call) (id : List ℕ) (r : Rewrites) → LeavesAlone id rest
        → (after (before ++ register id r ∷ rest) empty_meaning).registered id ≡ Some r }
{}

/// For each list of calls on a new session and each id `id`, if none of the calls registers a plugin under `id`, then
/// after all calls no plugin is registered under `id`. For example, if only a plugin of `x.tag` is registered,
/// `registry("x.text")` returns `false`. With this law a caller knows under which ids its session has no plugin.
///
/// About [`DTypeSession::new`] and [`DTypeSession::registry`].
#[tactic(auto, using(crate::proofs::lemmas::Sessions::sessions, crate::proofs::lemmas::Sessions::session_laws))]
pub fn none_registered_counts()
    ensures { (calls : List Call) (id : List ℕ) → LeavesAlone id calls
        → (after calls empty_meaning).registered id ≡ None }
{}

/// For each list of calls on a new session, after all calls the session keeps unknown ids exactly if one of the calls
/// was `allow_unknown`. For example, if a plugin is registered after `allow_unknown` was called, the session still
/// keeps unknown ids. With this law a caller knows that no later call makes the session refuse unknown ids again.
///
/// About [`DTypeSession::allow_unknown`] and [`DTypeSession::allows_unknown`].
#[tactic(auto, using(crate::proofs::lemmas::Sessions::sessions, crate::proofs::lemmas::Sessions::session_laws))]
pub fn unknown_once_allowed()
    ensures { (calls : List Call) → (after calls empty_meaning).unknown ≡ list_any is_allow calls }
{}

/// For each session `s` whose plugins are lawful, each id `id`, each valid storage type `t` and all metadata `b` that
/// consists of bytes: if the session keeps the metadata `c` in place of `b`, then `c` consists of bytes too, and if the
/// session reads `c`, it keeps `c` unchanged. For example, if a plugin changes `AB` to `ab`, it leaves `ab` unchanged.
/// With this law a caller knows that metadata changes at most when it is read for the first time, and not each time
/// that a type is written and read again.
///
/// About [`ExtDTypePlugin`].
pub fn kept_again()
    ensures { (s : Meaning) → LawfulSession s → (id b c : List ℕ) (t : Tree) → Bytes b → Valid t
        → keeps s id b t ≡ Some c → Bytes c × (keeps s id c t ≡ Some c) }
{}

/// For each session `s` whose plugins are lawful, each id `id`, all metadata `b` that consists of bytes and each valid
/// storage type `t`: if `u` is `t` with its outer nullability set to `n`, then the session keeps the same metadata in
/// place of `b` over `u` as over `t`, or it keeps no metadata over either of them. For example, if it keeps `ab` in
/// place of `AB` over `utf8`, then it also keeps `ab` in place of `AB` over `utf8?`. With this law a caller can make an
/// extension type nullable without changing which metadata a session keeps for it.
///
/// About [`DTypeSession::deserialize`].
#[tactic(auto, using(crate::proofs::lemmas::Sessions::keeps_outer))]
pub fn kept_over_each_nullability()
    ensures { (s : Meaning) → LawfulSession s → (id b : List ℕ) (t u : Tree) (n : Nullability)
        → Bytes b → Valid t → SetNull t n u → keeps s id b u ≡ keeps s id b t }
{}

/// The metadata and the vtables of extension types whose own vtables aren't known are compared and hashed by their
/// parts:
/// - `metadata`: two values of `ForeignExtMetadata` are equal by `==` exactly if their bytes are the same.
/// - `vtables`: two values of `ForeignExtDType` are equal by `==` exactly if their ids are the same.
/// - `metadata_hash`: a `ForeignExtMetadata` writes the same to a hasher as the vector of its bytes.
/// - `vtable_hash`: a `ForeignExtDType` writes the same to a hasher as its id.
///
/// For example, two values of `ForeignExtMetadata` with the bytes `AB` are equal and have the same hash. With this law
/// a caller can use such values as the keys of a hash map and reason about what the map contains.
///
/// About [`ForeignExtDType`] and [`ForeignExtMetadata`].
pub fn foreign_extensions_are_compared_by_their_parts()
    ensures metadata { (a b : ForeignExtMetadata)
        → Decides (⟦<crate::ForeignExtMetadata as PartialEq>⟧.eq a b) (a.0.items ≡ b.0.items) }
    ensures vtables { (a b : List ℕ)
        → Decides (⟦<crate::ForeignExtDType as PartialEq>⟧.eq a b) (a ≡ b) }
    ensures metadata_hash { (m : ForeignExtMetadata) → ⟦<crate::ForeignExtMetadata as Hash>⟧.hash_input m
        ≡ ⟦<Vec<u8> as Hash>⟧.hash_input m.0 }
    ensures vtable_hash { (id : List ℕ) → ⟦<crate::ForeignExtDType as Hash>⟧.hash_input id
        ≡ ⟦<dtype_types::ExtId as Hash>⟧.hash_input id }
{}

/// A session admits a type if it keeps the metadata of each extension type in it unchanged. For each session `s` whose
/// plugins are lawful and each valid type `t`: if `u` is `t` with its outer nullability set to `n`, then the session
/// admits `t` exactly if it admits `u`. For example, a session admits `x.tag[2B](utf8)` exactly if it admits
/// `x.tag[2B](utf8?)`. If a session admits a valid type, then the type is read back unchanged after it was written as a
/// message. With this law a caller knows that this is still so after it has made the type nullable.
///
/// About [`DTypeProto::to_proto`].
#[tactic(auto, using(crate::proofs::lemmas::Sessions::sessions, crate::proofs::lemmas::Sessions::session_laws))]
pub fn admits_set_null()
    ensures { (s : Meaning) → LawfulSession s → (t u : Tree) (n : Nullability)
        → Valid t → SetNull t n u → Admits s t ↔ Admits s u }
{}

/// The function `read`, which returns the first fault of a message, agrees with the relations `Reads` and `Fault`,
/// which specify no order of faults. For each session `s` and each message `m`:
/// - `given`: for each type `t`, `read` returns `Ok t` exactly if `m` reads as `t`.
/// - `refused`: if `read` returns an error `e`, then `m` has the fault `e`, and `m` reads as no type.
///
/// For example, let `m` be a map message with neither a key type nor a value type. It has the faults `MapKeyMissing`
/// and `MapValueMissing`, and `read` returns `MapKeyMissing`. With this law a caller that knows what `read` returns for
/// a message can conclude what `Reads` and `Fault` state about it.
///
/// About [`DTypeProto::from_proto`].
#[tactic(auto, using(crate::proofs::lemmas::Reading::reading))]
pub fn read_is_what_reads()
    ensures given { (s : Meaning) (m : Message) (t : Tree) → (read s m ≡ Ok t) ↔ Reads s m t }
    ensures refused { (s : Meaning) (m : Message) (e : VortexError)
        → read s m ≡ Err e → Fault s m e × ReadsAsNothing s m }
{}

/// Only a session that doesn't keep unknown ids refuses a message because of an unknown id: for each session `s` and each
/// message `m`, if `ExtensionUnregistered` is a fault of `m`, then `s` doesn't keep unknown ids. For example, after
/// `allow_unknown` a message of the extension type `x.tag` isn't refused with this error, whatever else is wrong with it.
/// With this law a caller that called `allow_unknown` needs no case for this error.
///
/// About [`DTypeProto::from_proto`] and [`DTypeSession::allow_unknown`].
#[tactic(auto, using(crate::proofs::lemmas::Reading::reading))]
pub fn ids_are_unknown_only_where_they_are_not_kept()
    ensures { (s : Meaning) (m : Message) → Fault s m (Faulty ExtensionUnregistered) → s.unknown ≡ false }
{}

/// The following is true of reading and writing messages, for every session. A message reads as a type if `Reads`
/// relates the two. The normal form of a message is the message with the metadata of each extension type replaced by
/// the metadata that the session keeps in its place.
/// - `one_type`: a message reads as at most one type.
/// - `no_fault`: a message that reads as a type has no fault (`Fault`).
/// - `accepted`: if the plugins are lawful and each number in a message is in the range of its field (`IsMessage`),
///   then a message that reads as a type is accepted: the type is valid, and the session admits it.
/// - `normal`: if a message reads as `t`, then its normal form is the message that `to_proto` writes for `t`.
/// - `same`: two accepted messages read as the same type exactly if they have the same normal form.
/// - `twice`: the normal form of an accepted message is its own normal form.
/// - `read_back`: if a type is valid and the session admits it, then the message that `to_proto` writes for it is
///   accepted and reads as that type.
///
/// For example, a message of the extension type `x.tag` with the metadata `AB` differs from a message with the metadata
/// `ab`. If the plugin keeps `ab` in place of both, the two messages have the same normal form and read as the same
/// type. With this law a caller that stores types as messages knows that two readers with the same session get the same
/// type.
///
/// About [`DTypeProto::from_proto`] and [`DTypeProto::to_proto`].
#[tactic(auto, using(crate::proofs::lemmas::Reading::reading))]
pub fn messages_are_exact()
    ensures one_type { (s : Meaning) (m : Message) (t u : Tree)
        → Reads s m t → Reads s m u → t ≡ u }
    ensures no_fault { (s : Meaning) (m : Message) (t : Tree) (e : VortexError)
        → Reads s m t → Fault s m e → ⊥ }
    ensures accepted { (s : Meaning) (m : Message) (t : Tree)
        → LawfulSession s → IsMessage m → Reads s m t → Accepts s m t }
    ensures normal { (s : Meaning) (m n : Message) (t : Tree)
        → Reads s m t → (Normal s m n ↔ (n ≡ written t)) }
    ensures same { (s : Meaning) (m n : Message) (t u : Tree) (a b : Message)
        → Accepts s m t → Accepts s n u → Normal s m a → Normal s n b → ((t ≡ u) ↔ (a ≡ b)) }
    ensures twice { (s : Meaning) (m n : Message) (t : Tree)
        → Accepts s m t → Normal s m n → Normal s n n }
    ensures read_back { (s : Meaning) (t : Tree) → Valid t → Admits s t → Accepts s (written t) t }
{}
