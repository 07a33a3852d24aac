// SPDX-License-Identifier: Apache-2.0
// SPDX-FileCopyrightText: Copyright the Vortex contributors

//! Laws of the texts of paths.
ghost use Rattle.std.specs.Prelude.{◌≡◌, ℕ, List};
ghost use Rattle.dtype_paths.specs.declared.field.Field.{Field};
ghost use Rattle.dtype_text.specs.PathGrammar.{StandsForPath};
ghost use Rattle.dtype_text.specs.PathSource.{HasTextSteps, path_source};

/// A text stands for at most one path. For example, no text that stands for `a.b` stands for another path as well.
/// With this law a caller of `read_path` knows that the path that was read is the only one that the text can mean.
///
/// About [`read_path`].
pub fn a_text_stands_for_one_path()
    ensures { (p q : List Field) (text : List ℕ) → StandsForPath p text → StandsForPath q text → p ≡ q }
{}

/// What is written for a path stands for this path, if its names are UTF-8. For example, the text `a.[].b` is written
/// for the path with the steps `a`, `[]` and `b`, and stands for it. So `read_path` reads the same path from the text
/// that `write_path` writes, whatever the length of the path.
///
/// About [`write_path`], [`read_path`].
pub fn what_is_written_stands_for_the_path()
    ensures { (p : List Field) → HasTextSteps p → StandsForPath p (path_source p) }
{}
