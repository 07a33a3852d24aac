// SPDX-License-Identifier: Apache-2.0
// SPDX-FileCopyrightText: Copyright the Vortex contributors

//! Laws of what is read and written. Each law is a function with an empty body, whose contract is the law.
ghost use Rattle.std.specs.Prelude.{◌≡◌, ℕ, ℤ, IfOk, IfSome, List, Ok, Some, drop};
ghost use Rattle.c_arrow.specs.Again.{StandsFor, both_said};
ghost use Rattle.c_arrow.specs.Formats.{format_of};
ghost use Rattle.c_arrow.specs.FormatsWritten.{bytes_format, decimal_format, fixed_size_format, letter_of, union_format};
ghost use Rattle.c_arrow.specs.FromArrow.{from_arrow};
ghost use Rattle.c_arrow.specs.Ids.{ids_of};
ghost use Rattle.c_arrow.specs.Keys.{extension_metadata, said_in};
ghost use Rattle.c_arrow.specs.Read.{read_flat};
ghost use Rattle.c_arrow.specs.Schema.{Schema, flat_nodes, flat_texts};
ghost use Rattle.c_arrow.specs.Temporal.{written_of};
ghost use Rattle.c_arrow.specs.Write.{nodes_and_texts, to_arrow};
ghost use Rattle.c_arrow.specs.declared.format.Format.TheVariants as format;
ghost use Rattle.dtype_base.specs.Bytes.{Bytes};
ghost use Rattle.dtype_base.specs.Decimals.{IsDecimalWithin, greatest_precision};
ghost use Rattle.dtype_base.specs.declared.ptype.PType.{PType};
ghost use Rattle.dtype_text.specs.Grammar.{AreTexts};
ghost use Rattle.dtype_types.specs.tree.Tree.{Tree, extension};
ghost use Rattle.dtype_types.specs.tree.Valid.{Valid};

/// What is read of the nodes and the texts of a schema `s` is the type of `s`, or the fault with which `s` is refused, as
/// `from_arrow` in `specs/FromArrow` makes it of plain data.
///
/// For example, `from_arrow` makes `{a=i32?}` of the struct with the child `a` whose format is `i` and whose flag is 2, and
/// this type is read of its two nodes and the texts `+sai`. So a reader who wants to know which type a schema has needs
/// `from_arrow` alone, which can be read beside a table of Arrow's formats, and nothing about nodes and their order.
pub fn flat_schemas_are_read()
    ensures { (s : Schema) → read_flat (flat_nodes s) (flat_texts s) ≡ from_arrow s }
{}

/// The schema that is written of a valid type is read as this type, if the names and the ids in the type are UTF-8. The same is
/// true of its nodes and texts.
///
/// For example, the schema of the map `map(utf8, i32?, keys_sorted=true)` has the format `+m` and the flag 4, and it is read as
/// this map. So a type that goes through Arrow's C data interface comes back as it was.
pub fn types_that_are_written_are_read()
    ensures schema { (t : Tree) → Valid t → AreTexts t → IfOk (to_arrow t) (λ s. from_arrow s ≡ Ok t) }
    ensures nodes { (t : Tree) → Valid t → AreTexts t → IfOk (nodes_and_texts t) (λ f. read_flat f.0 f.1 ≡ Ok t) }
{}

/// The format that is written of a type is read as the format of this type: of a primitive type `t`, of a decimal with a
/// precision `p` and a scale `s`, of a fixed-size list and of byte strings with a size, and of a union with these tags, where it
/// has the tags behind its first four bytes.
///
/// For example, `d:40,2,256` is written of a decimal with the precision 40 and the scale 2, and it is read as a decimal with
/// this precision and this scale. So reading a schema that was written loses no number.
pub fn formats_that_are_written_are_read()
    ensures primitive { (t : PType) → format_of (letter_of t) ≡ Some (format.Primitive t) }
    ensures decimal { (p : ℕ) (s : ℤ) → IsDecimalWithin greatest_precision p s → format_of (decimal_format p s) ≡ Some (format.Decimal p s) }
    ensures fixed_size_list { (size : ℕ) (w : List ℕ) → fixed_size_format size ≡ Ok w → format_of w ≡ Some (format.FixedSizeList size) }
    ensures fixed_size_binary { (size : ℕ) (w : List ℕ) → bytes_format size ≡ Ok w → format_of w ≡ Some (format.FixedSizeBinary size) }
    ensures union { (tags w : List ℕ) → union_format tags ≡ Ok w → (format_of w ≡ Some format.Union) × (ids_of (drop 4 w) ≡ Some tags) }
{}

/// The metadata that is written of an extension says its id and its bytes.
///
/// For example, the metadata that is written of the id `uuid` and no bytes says the name `uuid` and no bytes.
pub fn metadata_that_is_written_is_read()
    ensures { (id bytes metadata : List ℕ) → extension_metadata id bytes ≡ Some metadata → said_in metadata ≡ Some (both_said id bytes) }
{}

/// The format that is written of a date, a time, a timestamp, a duration or an interval stands for this extension.
///
/// For example, `tss:UTC` is written of the extension `vortex.timestamp` over `i64` whose metadata has the unit of seconds and
/// the time zone `UTC`, and it stands for this extension.
pub fn dates_and_times_that_are_written_are_read()
    ensures { (id m : List ℕ) (s : Tree) → Bytes m → IfSome (written_of id m s) (λ w. StandsFor w (extension id m s)) }
{}
