// SPDX-License-Identifier: Apache-2.0
// SPDX-FileCopyrightText: Copyright the Vortex contributors

ghost use Rattle.std.specs.Prelude.{◌≡◌, ◌<◌, ◌∷◌, length, IfOk, IsOkUnless};
ghost use Rattle.vortex_dtype.specs.Types.VortexError.TheVariants.{OutOfMemory};
ghost use Rattle.dtype_demo.specs.Lines.{lines_of, part_of, parts_of};

use std::alloc::Global;
use vortex_dtype::{Field, FieldName, FieldPath, VortexResult};

// Returns the first line of a text that isn't empty, and the text after the newline of that line.
pub fn first_line(text: &str) -> (&str, &str)
    requires { 0 < length text.now }
    ensures lines { lines_of text.now ≡ result.0.now ∷ lines_of result.1.now }
    ensures shorter { length result.1.now < length text.now }
{
    text.split_once('\n').unwrap_or((text, ""))
}

// Returns the path that a line stands for. The only error is `OutOfMemory` (0).
pub fn parse_line(alloc: Global, line: &str) -> VortexResult<FieldPath>
    ensures path { IfOk result (λ p. p ≡ parts_of line.now) }
    ensures errors { IsOkUnless result OutOfMemory }
{
    if line.is_empty() {
        return Ok(FieldPath::root(alloc));
    }
    let mut parts = Vec::new(alloc);
    for part in line.split('.') {
        let step = parse_part(alloc, part, parts.last())?;
        parts.push(step)?;
    }
    Ok(FieldPath::from_vec(parts))
}

// Returns the step that a part of a line stands for. If the step before it has the same name, the two share its text,
// so that a long path of one name takes half the memory. The only error is `OutOfMemory` (0).
fn parse_part(alloc: Global, part: &str, before: Option<&Field>) -> VortexResult<Field>
    ensures part { IfOk result (λ f. f ≡ part_of part.now) }
    ensures errors { IsOkUnless result OutOfMemory }
{
    if part == "[]" {
        return Ok(Field::ElementType);
    }
    match before {
        Some(Field::Name(name)) if name.eq_str(part) => Ok(Field::Name(name.try_clone(alloc)?)),
        _ => Ok(Field::Name(FieldName::new(alloc, part)?)),
    }
}
