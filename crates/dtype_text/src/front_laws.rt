// SPDX-License-Identifier: Apache-2.0
// SPDX-FileCopyrightText: Copyright the Vortex contributors

//! Laws of the calls that read at the front of bytes. The contract of each such call says what it returns by a function on
//! lists of bytes, which reads as the call does. These laws join that function to the grammar.
ghost use Rattle.std.specs.Prelude.{◌≡◌, ◌≤◌, ◌∷◌, ℕ, ℤ, List, Some, false, true};
ghost use Rattle.std.specs.Str.{is_utf8};
ghost use Rattle.dtype_paths.specs.declared.field.Field.{Field};
ghost use Rattle.dtype_types.specs.tree.Tree.{Tree};
ghost use Rattle.dtype_types.specs.tree.Valid.{Valid};
ghost use Rattle.dtype_text.specs.Bare.{is_bare_byte};
ghost use Rattle.dtype_text.specs.Fronts.{before, begins, goes_on};
ghost use Rattle.dtype_text.specs.Grammar.{Spells, decimal_parts as decimal, in_quotes, levels, named};
ghost use Rattle.dtype_text.specs.Leaves.{name_at, quoted_at};
ghost use Rattle.dtype_text.specs.Outcome.{got};
ghost use Rattle.dtype_text.specs.PathGrammar.{SpellsPath, SpellsStep, is_next};
ghost use Rattle.dtype_text.specs.Paths.{path_by, step_at};
ghost use Rattle.dtype_text.specs.TypeParts.{decimal_parts};
ghost use Rattle.dtype_text.specs.Types.{part_at, type_by};

/// If something is read at the front of bytes, and `rest` comes after it, then the bytes are a text of what was read, and
/// behind it `rest`. A type that is read is valid and has at most 128 levels.
///
/// For example, at the front of `i32?, b` the nullable type i32 is read, and `i32?` is a text of it. So a caller of
/// `type_at` that returns a type knows that the bytes which were read spell this type.
///
/// About [`type_at`], [`path_at`], [`path_step_at`], [`name`], [`quoted`], [`decimal_parts`].
pub fn what_is_read_at_the_front_is_spelled()
    ensures types { (t : Tree) → (bytes rest : List ℕ) → type_by (part_at 128) bytes ≡ got (t, rest)
        → before (Spells t) rest bytes × (levels t ≤ 128) × Valid t }
    ensures paths { (p : List Field) → (bytes rest : List ℕ) → path_by bytes ≡ Some (p, rest)
        → before (SpellsPath p) rest bytes }
    ensures steps { (f : Field) → (bytes rest : List ℕ) → step_at bytes ≡ Some (f, rest)
        → before (SpellsStep f) rest bytes }
    ensures names { (n bytes rest : List ℕ) → name_at bytes ≡ Some (n, rest) → before (named n) rest bytes }
    ensures quoted { (n bytes rest : List ℕ) → quoted_at bytes ≡ Some (n, rest)
        → before (in_quotes n) rest (34 ∷ bytes) × (is_utf8 n ≡ true) }
    ensures decimals { (p : ℕ) → (s : ℤ) → (bytes rest : List ℕ) → decimal_parts bytes ≡ Some ((p, s), rest)
        → before (decimal p s) rest bytes }
{}

/// If bytes begin with a text, and `rest`, which is behind it, begins with no byte that could belong to it, then what the
/// text spells is read, and `rest` comes after it. A type is read only if it is valid and has at most 128 levels.
///
/// For example, at the front of `i32?, b` the nullable type i32 is read, with `, b` after it. That `i32` is read there isn't
/// said, because the mark could belong to it. So a caller of `type_at` that gets a fault other than `Memory` knows that no
/// text of a valid type with at most 128 levels stands there before a comma, a closing parenthesis, a blank or the end.
///
/// About [`type_at`], [`path_at`], [`path_step_at`], [`name`], [`quoted`], [`decimal_parts`].
pub fn what_is_spelled_at_the_front_is_read()
    ensures types { (t : Tree) → (bytes rest : List ℕ) → before (Spells t) rest bytes → begins goes_on rest ≡ false
        → Valid t → levels t ≤ 128 → type_by (part_at 128) bytes ≡ got (t, rest) }
    ensures paths { (p : List Field) → (bytes rest : List ℕ) → before (SpellsPath p) rest bytes
        → begins is_bare_byte rest ≡ false → is_next 46 rest ≡ false → is_next 35 rest ≡ false
        → path_by bytes ≡ Some (p, rest) }
    ensures steps { (f : Field) → (bytes rest : List ℕ) → before (SpellsStep f) rest bytes
        → begins is_bare_byte rest ≡ false → is_next 35 rest ≡ false → step_at bytes ≡ Some (f, rest) }
    ensures names { (n bytes rest : List ℕ) → before (named n) rest bytes → begins is_bare_byte rest ≡ false
        → name_at bytes ≡ Some (n, rest) }
    ensures quoted { (n bytes rest : List ℕ) → is_utf8 n ≡ true → before (in_quotes n) rest (34 ∷ bytes)
        → quoted_at bytes ≡ Some (n, rest) }
    ensures decimals { (p : ℕ) → (s : ℤ) → (bytes rest : List ℕ) → before (decimal p s) rest bytes
        → decimal_parts bytes ≡ Some ((p, s), rest) }
{}
