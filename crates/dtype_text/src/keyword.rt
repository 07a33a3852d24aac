// SPDX-License-Identifier: Apache-2.0
// SPDX-FileCopyrightText: Copyright the Vortex contributors

// The words with which types begin.
ghost use Rattle.std.specs.Prelude.{◌≡◌};
ghost use Rattle.dtype_text.specs.TypeParts.{keyword_of as keyword_spec};

use dtype_base::PType;

/// A word with which a type begins.
#[derive(Clone, Copy, Debug)]
pub enum Keyword {
    Null,
    Bool,
    Utf8,
    Binary,
    Variant,
    Primitive(PType),
    List,
    FixedSizeList,
    Decimal,
    Map,
    Union,
}

/// Returns the keyword of this text.
#[tactic(auto, unfolding(crate::specs::TypeParts::keyword_of))]
pub fn keyword_of(word: &str) -> Option<Keyword>
    ensures { result ≡ keyword_spec word.now }
{
    match word {
        "null" => Some(Keyword::Null),
        "bool" => Some(Keyword::Bool),
        "utf8" => Some(Keyword::Utf8),
        "binary" => Some(Keyword::Binary),
        "variant" => Some(Keyword::Variant),
        "list" => Some(Keyword::List),
        "fixed_size_list" => Some(Keyword::FixedSizeList),
        "decimal" => Some(Keyword::Decimal),
        "map" => Some(Keyword::Map),
        "union" => Some(Keyword::Union),
        "u8" => Some(Keyword::Primitive(PType::U8)),
        "u16" => Some(Keyword::Primitive(PType::U16)),
        "u32" => Some(Keyword::Primitive(PType::U32)),
        "u64" => Some(Keyword::Primitive(PType::U64)),
        "i8" => Some(Keyword::Primitive(PType::I8)),
        "i16" => Some(Keyword::Primitive(PType::I16)),
        "i32" => Some(Keyword::Primitive(PType::I32)),
        "i64" => Some(Keyword::Primitive(PType::I64)),
        "f16" => Some(Keyword::Primitive(PType::F16)),
        "f32" => Some(Keyword::Primitive(PType::F32)),
        "f64" => Some(Keyword::Primitive(PType::F64)),
        _ => None,
    }
}
