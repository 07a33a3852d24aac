// SPDX-License-Identifier: Apache-2.0
// SPDX-FileCopyrightText: Copyright the Vortex contributors

// Appends the indented text of a type to a string.
ghost use Rattle.std.specs.Prelude.{◌≡◌, ◌++◌, OnOk, IsOkUnless, codes, string_bytes};
ghost use Rattle.dtype_base.specs.Escapes.{escaped};
ghost use Rattle.dtype_base.specs.declared.vortex_error.VortexError.TheVariants.{OutOfMemory};
ghost use Rattle.dtype_types.specs.texts.IndentedText.{indented};
ghost use Rattle.dtype_types.specs.tree.TreeOf.{tree};

use crate::DType;
use dtype_base::{FieldName, VortexResult};
use std::alloc::Global;

// Appends what comes before a field's type: the separator, the indentation, the name and `=`.
pub(crate) fn start_field(
    out: &mut String,
    separator: &str,
    indent: &str,
    name: &FieldName,
) -> VortexResult<()>
    ensures written { OnOk result (string_bytes out.new
        ≡ string_bytes out.old ++ (separator.now ++ (indent.now ++ (escaped name.now ++ codes "=")))) }
    ensures errors { IsOkUnless result OutOfMemory }
{
    write!(out, "{separator}{indent}{name}=")?;
    Ok(())
}

impl DType {
    // Appends the type: a struct over several lines, also as the element of a list, and every other type on one line.
    #[cycle(indented)]
    pub(crate) fn write_indented(
        &self,
        alloc: Global,
        out: &mut String,
        indent: &str,
    ) -> VortexResult<()>
        ensures written { OnOk result (string_bytes out.new
            ≡ string_bytes out.old ++ indented indent.now (tree self.now)) }
        ensures errors { IsOkUnless result OutOfMemory }
    {
        match self {
            DType::List(element, n) => {
                out.push_str("list(")?;
                element.write_indented(alloc, out, indent)?;
                write!(out, "){n}")?;
            }
            DType::FixedSizeList(element, size, n) => {
                out.push_str("fixed_size_list(")?;
                element.write_indented(alloc, out, indent)?;
                write!(out, ")[{size}]{n}")?;
            }
            DType::Struct(fields, n) => {
                fields.write_indented(alloc, out, indent)?;
                write!(out, "{n}")?;
            }
            DType::Null
            | DType::Bool(_)
            | DType::Primitive(_, _)
            | DType::Decimal(_, _)
            | DType::Utf8(_)
            | DType::Binary(_)
            | DType::Map(_, _)
            | DType::Union(_, _)
            | DType::Variant(_)
            | DType::Extension(_) => write!(out, "{self}")?,
        }
        Ok(())
    }
}
