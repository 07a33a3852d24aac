// SPDX-License-Identifier: Apache-2.0
// SPDX-FileCopyrightText: Copyright the Vortex contributors

// The reader of paths. Each function reads at the front of bytes, and returns what it read and the bytes after it.
ghost use Rattle.std.specs.Prelude.{◌≡◌, IfErr, IfOk, List, MatchResult, length};
ghost use Rattle.dtype_paths.specs.declared.field.Field.{Field as Step};
ghost use Rattle.dtype_text.specs.PathGrammar.{StandsForPath, is_next as is_next_spec};
ghost use Rattle.dtype_text.specs.Errors.{IsPlacedIn};
ghost use Rattle.dtype_text.specs.Paths.{IsPathError, element_at, named_step_at, path_by, step_at, steps_at, whole_path_at};
ghost use Rattle.dtype_text.specs.Places.{IsAt, named_step_stop, path_stop, step_stop, steps_stop, whole_path_stop};
ghost use Rattle.dtype_text.specs.Read.{Reads};
ghost use Rattle.dtype_text.specs.Unreadable.{IsPathText, IsStopOf};
ghost use Rattle.dtype_text.specs.declared.text_error.TextError.TheVariants.{OutOfMemory};

use crate::fault::{Fault, misread};
use crate::leaves::{after, name, skip};
use crate::text_error::{Expected, TextError};
use crate::type_parts::is_end;
use dtype_paths::{Field, FieldPath};
use std::alloc::Global;

// Returns whether this byte is next.
fn is_next(bytes: &[u8], wanted: u8) -> bool
    ensures { result ≡ is_next_spec wanted bytes.now }
{
    match bytes {
        [first, ..] => *first == wanted,
        [] => false,
    }
}

// Reads a step to a name. A name without quotes has to end there: a comment right behind it may be meant as a part of
// the name.
#[tactic(auto, unfolding(crate::specs::Paths::named_step_at, crate::specs::Places::named_step_stop))]
fn named_step(alloc: Global, bytes: &[u8]) -> Result<(Field, &[u8]), Fault>
    ensures read { Reads (λ x. (x.0, x.1.now)) result (named_step_at bytes.now) }
    ensures place { IfErr result (IsAt (named_step_stop bytes.now)) }
{
    let (name, rest) = name(alloc, bytes)?;
    if is_next(bytes, b'"') || !is_next(rest, b'#') {
        Ok((Field::Name(name), rest))
    } else {
        Err(misread(rest, Expected::EndOfName))
    }
}

/// Returns the step at the front of bytes, with the bytes after it.
#[tactic(auto, unfolding(crate::specs::Paths::step_at, crate::specs::Paths::element_at, crate::specs::Places::step_stop))]
pub fn path_step_at(alloc: Global, bytes: &[u8]) -> Result<(Field, &[u8]), Fault>
    ensures read { Reads (λ x. (x.0, x.1.now)) result (step_at bytes.now) }
    ensures place { IfErr result (IsAt (step_stop bytes.now)) }
{
    match bytes {
        [b'[', rest @ ..] => match after(rest, b']') {
            Some(rest) => Ok((Field::ElementType, rest)),
            None => Err(misread(bytes, Expected::Name)),
        },
        [b'$', rest @ ..] => named_step(alloc, rest),
        _ => named_step(alloc, bytes),
    }
}

// Reads steps that are joined by dots. Each has a byte, so there are no more than bytes.
fn steps(alloc: Global, bytes: &[u8]) -> Result<(Vec<Field>, &[u8]), Fault>
    ensures read { Reads (λ x. (x.0.items, x.1.now)) result (steps_at (length bytes.now) bytes.now) }
    ensures place { IfErr result (IsAt (steps_stop (length bytes.now) bytes.now)) }
{
    let mut steps = Vec::new(alloc);
    let mut rest = bytes;
    for _ in 0..bytes.len() {
        let (step, behind) = path_step_at(alloc, rest)?;
        steps.push(step)?;
        match after(behind, b'.') {
            Some(next) => rest = next,
            None => return Ok((steps, behind)),
        }
    }
    Err(misread(rest, Expected::Name))
}

/// Returns the path at the front of bytes, with the bytes after it.
#[tactic(auto, unfolding(crate::specs::Paths::path_by, crate::specs::Places::path_stop))]
pub fn path_at(alloc: Global, bytes: &[u8]) -> Result<(FieldPath, &[u8]), Fault>
    ensures read { Reads (λ x. (x.0, x.1.now)) result (path_by bytes.now) }
    ensures place { IfErr result (IsAt (path_stop bytes.now)) }
{
    match after(bytes, b'.') {
        Some(rest) => Ok((FieldPath::root(alloc), rest)),
        None => {
            let (steps, rest) = steps(alloc, bytes)?;
            Ok((FieldPath::from_vec(steps), rest))
        }
    }
}

// Reads a path that is the whole text.
#[tactic(auto, unfolding(crate::specs::Paths::whole_path_at, crate::specs::Places::whole_path_stop))]
fn whole_path(alloc: Global, bytes: &[u8]) -> Result<FieldPath, Fault>
    ensures read { Reads (λ p. p) result (whole_path_at bytes.now) }
    ensures place { IfErr result (IsAt (whole_path_stop bytes.now)) }
{
    let (path, rest) = path_at(alloc, skip(bytes))?;
    if !is_end(skip(rest)) {
        return Err(misread(skip(rest), Expected::End));
    }
    Ok(path)
}

/// Returns the path that a text stands for, for example the path of three steps for `a.[].b`, and the root for `.`.
/// Blanks and comments may stand around it. Time and memory are linear in the length of the text.
///
/// # Errors
///
/// - `OutOfMemory`: an allocation fails.
/// - `Misread`: the text stands for no path. The position is that of the first token with which no text of a path goes on
///   after what stands in front of it. A token is a name without quotes, a mark, a comment, or a part of a text in quotes. For
///   example, of `a.-b` it is 3, where a name was expected and `-` was found. Two faults are told at other places. A character
///   that no name without quotes can have is told at its own place, and a text in quotes that isn't UTF-8 behind its opening
///   quote.
#[tactic(auto, using(crate::proofs::PathAgain::path_results))]
pub fn read_path(alloc: Global, text: &str) -> Result<FieldPath, TextError>
    // The text stands for the path.
    ensures found { IfOk result (λ p. StandsForPath p text.now) }
    // What stands for a path is read, unless memory runs out.
    ensures only { (p : List Step) → StandsForPath p text.now → MatchResult result (λ q. q ≡ p) (λ e. e ≡ OutOfMemory) }
    // No path is refused by the library or too deep.
    ensures errors { IfErr result IsPathError }
    // The position is that of a byte of the text, or one more than its length.
    ensures place { IfErr result (IsPlacedIn text.now) }
    // No text of a path has what stands in front of the position, and behind it the token that stands there.
    ensures stops { IfErr result (IsStopOf IsPathText text.now) }
{
    let bytes = text.as_bytes();
    match whole_path(alloc, bytes) {
        Ok(path) => Ok(path),
        Err(fault) => Err(TextError::of(fault, bytes)),
    }
}
