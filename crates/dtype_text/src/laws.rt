// SPDX-License-Identifier: Apache-2.0
// SPDX-FileCopyrightText: Copyright the Vortex contributors

//! Laws of the texts of types. Each law is a function with an empty body, whose contract is the law.
ghost use Rattle.std.specs.Prelude.{◌≡◌, ◌≤◌, ℕ, List};
ghost use Rattle.dtype_types.specs.tree.Tree.{Tree};
ghost use Rattle.dtype_types.specs.tree.Valid.{Valid};
ghost use Rattle.dtype_text.specs.Source.{source};
ghost use Rattle.dtype_text.specs.Grammar.{Stands, AreTexts, levels};

/// If a text stands for a type `t` and for a type `u`, then `t` and `u` are the same type.
///
/// For example, no text stands both for a list of nullable elements and for a nullable list. So what a text means doesn't
/// depend on who reads it.
///
/// About [`read_dtype`].
pub fn a_text_stands_for_one_type()
    ensures { (t u : Tree) (text : List ℕ) → Stands t text → Stands u text → t ≡ u }
{}

/// The text that `write_dtype` writes of a type `t` stands for `t`, if `t` is valid, has at most 128 levels, and its names
/// and ids are UTF-8.
///
/// For example, `union(a@5=i32, b@9=utf8?)` is written of a union with these variants and stands for it. With the contract
/// of `read_dtype` it follows that what is written is read back as the same type. `write_dtype` ensures `AreTexts` of each
/// type that it writes.
///
/// About [`write_dtype`], [`read_dtype`].
pub fn what_is_written_stands_for_the_type()
    ensures { (t : Tree) → AreTexts t → Valid t → levels t ≤ 128 → Stands t (source t) }
{}
