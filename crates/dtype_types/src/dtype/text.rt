// SPDX-License-Identifier: Apache-2.0
// SPDX-FileCopyrightText: Copyright the Vortex contributors

// The text of a type.
ghost use Rattle.std.specs.Prelude.{Some};

use crate::DType;
use std::fmt;

/// Writes the type as text, for example `i32`, `list(decimal(10,2)?)`, `{id=u64, tags=list(utf8)?}` or
/// `x.tag[2B](utf8?)`. The text of a nullable type ends with `?`. There are two exceptions: `null` is always nullable
/// and has no `?`, and an extension such as `x.tag[2B](utf8?)` is nullable exactly if the storage type in its
/// parentheses is.
#[tactic(auto, using(crate::proofs::Texts::type_texts, std::proofs::lemmas::Grind::common_steps))]
impl fmt::Display for DType {
    ghost use Rattle.dtype_types.specs.texts.Text.{text};
    ghost use Rattle.dtype_types.specs.tree.TreeOf.{tree};

    ghost output = { λ d. Some (text (tree d)) };

    #[cycle(text)]
    fn fmt<W: fmt::Write>(&self, f: &mut fmt::Formatter<W>) -> fmt::Result {
        match self {
            DType::Null => write!(f, "null"),
            DType::Bool(n) => write!(f, "bool{n}"),
            DType::Primitive(ptype, n) => write!(f, "{ptype}{n}"),
            DType::Decimal(decimal, n) => write!(f, "{decimal}{n}"),
            DType::Utf8(n) => write!(f, "utf8{n}"),
            DType::Binary(n) => write!(f, "binary{n}"),
            DType::List(element, n) => {
                write!(f, "list(")?;
                (**element).fmt(f)?;
                write!(f, "){n}")
            }
            DType::FixedSizeList(element, size, n) => {
                write!(f, "fixed_size_list(")?;
                (**element).fmt(f)?;
                write!(f, ")[{size}]{n}")
            }
            DType::Map(map, n) => {
                map.fmt(f)?;
                write!(f, "{n}")
            }
            DType::Struct(fields, n) => {
                fields.fmt(f)?;
                write!(f, "{n}")
            }
            DType::Union(variants, n) => {
                write!(f, "union(")?;
                variants.fmt(f)?;
                write!(f, "){n}")
            }
            DType::Variant(n) => write!(f, "variant{n}"),
            DType::Extension(extension) => extension.fmt(f),
        }
    }
}
