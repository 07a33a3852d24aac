// SPDX-License-Identifier: Apache-2.0
// SPDX-FileCopyrightText: Copyright the Vortex contributors

// Why a schema has no type here, or a type no schema.
ghost use Rattle.std.specs.Prelude.{◌≡◌, ◌∷◌, [], ◌++◌, IfOk, Some, false, map, string_bytes, true};
ghost use Rattle.std.specs.Str.Lossy.{utf8_lossy};
ghost use Rattle.dtype_base.specs.Escapes.{escaped};
ghost use Rattle.c_arrow.specs.Faults.{IsFault, IsMemory, IsWithin, names_in, problem_of_number, refusal_of, refused as refused_spec, within};
ghost use Rattle.c_arrow.specs.Messages.{before, behind, column, front as front_spec, is_about_format, length_told, message_about, message_of, outer, phrase, problem_of, shown_text};
ghost use Rattle.c_arrow.specs.declared.fault.ArrowFault.TheVariants.{OutOfMemory};

use dtype_base::{FieldName, VortexError};
use std::alloc::{AllocError, AllocFailed, Global};
use std::fmt;
use std::rc::RcStr;

// How many bytes of a name or a format a message has.
const MOST_SHOWN: usize = 64;

/// Why `dtype_of` or `nodes_of` failed.
#[derive(Debug, Drop)]
pub enum ArrowFault {
    /// An allocation failed.
    OutOfMemory,
    /// The nodes and texts are no flat form of a schema: nodes or bytes end too early, or some are left.
    OutOfRange,
    /// The type of this field is nested in more than 128 others, or a part of it is.
    TooDeep(Column),
    /// The library refuses the type of this field, for example a map whose key type is nullable.
    Library(Column, VortexError),
    /// A field has no type here, or a type has no Arrow type.
    Refused(Refusal),
}

/// Which field a fault is about. For example, it is the field `item` in the field `a`, which is in the root.
#[derive(Debug, Drop)]
pub struct Column {
    // The names of the fields from this one outwards, without that of the root, or `None` for the root.
    pub(crate) names: Option<Vec<Vec<u8>>>,
}

/// Which field was refused, and why.
#[derive(Debug, Drop)]
pub struct Refusal {
    pub(crate) column: Column,
    // The format of the field, or no bytes if there is none.
    pub(crate) format: Vec<u8>,
    pub(crate) problem: Problem,
}

/// What is wrong with a field. The `Display` of a problem is the phrase of the message.
#[derive(Clone, Copy, Debug, PartialEq, Eq)]
pub enum Problem {
    Released,
    NoFormat,
    NoChild,
    Count,
    Nested,
    Many,
    Format,
    NoChildren,
    OneChild,
    TwoChildren,
    Entries,
    Dictionary,
    Name,
    Id,
    Zone,
    Metadata,
    Variant,
    Extension,
    Tag,
    Size,
    Length,
    Nul,
}

impl Problem {
    // Returns the problem that a node tells, or `None` for a number that no node has.
    #[tactic(auto, unfolding(crate::specs::Faults::problem_of_number))]
    pub(crate) fn of_number(number: u32) -> Option<Problem>
        ensures { result ≡ problem_of_number number }
    {
        match number {
            1 => Some(Problem::Released),
            2 => Some(Problem::NoFormat),
            3 => Some(Problem::NoChild),
            4 => Some(Problem::Count),
            5 => Some(Problem::Nested),
            6 => Some(Problem::Many),
            _ => None,
        }
    }

    // Returns whether the phrase goes on behind the format.
    fn is_about_format(self) -> bool
        ensures { result ≡ is_about_format self }
    {
        matches!(
            self,
            Problem::Format
                | Problem::NoChildren
                | Problem::OneChild
                | Problem::TwoChildren
                | Problem::Entries
                | Problem::Dictionary
        )
    }

    // Returns the phrase.
    #[tactic(auto, unfolding(crate::specs::Messages::phrase))]
    fn phrase(self) -> &'static str
        ensures { result.now ≡ phrase self }
    {
        match self {
            Problem::Released => "the schema was released",
            Problem::NoFormat => "the format is NULL",
            Problem::NoChild => "a child, or the array of children, is NULL",
            Problem::Count => "a count or a length is negative or too large",
            Problem::Nested => "more than 300 fields are inside one another",
            Problem::Many => "there are more than 16777216 fields",
            Problem::Format => "has no type here",
            Problem::NoChildren => "takes no children",
            Problem::OneChild => "needs exactly one child",
            Problem::TwoChildren => "needs exactly two children",
            Problem::Entries => "needs a struct of a key and a value as its child",
            Problem::Dictionary => "is no integer type, so it can't have a dictionary",
            Problem::Name => "the name isn't UTF-8",
            Problem::Id => "the extension name isn't UTF-8",
            Problem::Zone => "the time zone isn't UTF-8, or is longer than 65535 bytes",
            Problem::Metadata =>
                "the metadata isn't in Arrow's form, or has an extension key twice",
            Problem::Variant => "a variant has no Arrow type",
            Problem::Extension => "an extension type over another extension type has no Arrow type",
            Problem::Tag => "a tag above 127 is no type id of Arrow",
            Problem::Size => "a fixed-size list in Arrow has at most 2147483647 elements",
            Problem::Length => "an extension in Arrow has at most 2147483647 bytes of metadata",
            Problem::Nul => "a name, an id or a time zone with a NUL byte can't be written",
        }
    }
}

impl fmt::Display for Problem {
    ghost output = { λ problem. Some (phrase problem) };

    fn fmt<W: fmt::Write>(&self, f: &mut fmt::Formatter<W>) -> fmt::Result {
        self.phrase().fmt(f)
    }
}

impl ArrowFault {
    // Returns the fault that the field with this format is refused.
    pub(crate) fn refused(alloc: Global, format: &[u8], problem: Problem) -> ArrowFault
        ensures { IsFault result (refused_spec [] format.now problem) }
    {
        match Vec::from_slice(alloc, format) {
            Ok(format) => ArrowFault::Refused(Refusal {
                column: Column { names: None },
                format,
                problem,
            }),
            Err(_) => ArrowFault::OutOfMemory,
        }
    }

    // Returns the same fault of a field with this name, as its parent sees it.
    pub(crate) fn within(self, alloc: Global, name: &[u8]) -> ArrowFault
        ensures { IsWithin name.now self result }
    {
        match self {
            ArrowFault::OutOfMemory => ArrowFault::OutOfMemory,
            ArrowFault::OutOfRange => ArrowFault::OutOfRange,
            ArrowFault::TooDeep(column) => match column.within(alloc, name) {
                Ok(column) => ArrowFault::TooDeep(column),
                Err(_) => ArrowFault::OutOfMemory,
            },
            ArrowFault::Library(column, error) => match column.within(alloc, name) {
                Ok(column) => ArrowFault::Library(column, error),
                Err(_) => ArrowFault::OutOfMemory,
            },
            ArrowFault::Refused(refusal) => match refusal.within(alloc, name) {
                Ok(refusal) => ArrowFault::Refused(refusal),
                Err(_) => ArrowFault::OutOfMemory,
            },
        }
    }
}

impl Column {
    // Returns the same field, as the parent of the outermost field with a name sees it, whose name is this.
    fn within(self, alloc: Global, name: &[u8]) -> Result<Column, AllocError>
        ensures { IfOk result (λ c. names_in c ≡ names_in self ++ name.now ∷ []) }
    {
        let mut names = match self.names {
            Some(names) => names,
            None => Vec::new(alloc),
        };
        names.push(Vec::from_slice(alloc, name)?)?;
        Ok(Column { names: Some(names) })
    }

    /// Returns the message that says `text` about the field. It names the path of the field unless that is the root. For
    /// example, it is `column "a.item": map key dtype must be non-nullable`.
    ///
    /// # Errors
    ///
    /// `AllocError` if an allocation fails.
    pub fn message(&self, alloc: Global, text: &str) -> Result<String, AllocError>
        ensures { IfOk result (λ s. string_bytes s ≡ message_about (names_in self.now) text.now) }
    {
        let mut out = String::new(alloc);
        self.push(alloc, &mut out)?;
        out.push_str(text)?;
        Ok(out)
    }

    // Appends the path of the field, if it isn't the root.
    fn push(&self, alloc: Global, out: &mut String) -> Result<(), AllocError>
        ensures { IfOk result (λ _. string_bytes out.new ≡ string_bytes out.old ++ column (names_in self.now)) }
    {
        match &self.names {
            Some(names) => push_column(alloc, out, names)?,
            None => {}
        }
        Ok(())
    }
}

impl Refusal {
    // Returns the same refusal of a field with this name, as its parent sees it.
    fn within(self, alloc: Global, name: &[u8]) -> Result<Refusal, AllocError>
        ensures { IfOk result (λ r. refusal_of r ≡ within (name.now) (refusal_of self)) }
    {
        let column = self.column.within(alloc, name)?;
        Ok(Refusal { column, ..self })
    }

    /// Returns what is wrong.
    pub fn problem(&self) -> Problem
        ensures { result ≡ problem_of self.now }
    {
        self.problem
    }

    /// Returns the message, which names the path of the field and its format. For example, it is
    /// `column "a.item": the Arrow format "tdX" has no type here`.
    ///
    /// # Errors
    ///
    /// `AllocError` if an allocation fails.
    #[tactic(auto, unfolding(crate::specs::Messages::message_from))]
    pub fn message(&self, alloc: Global) -> Result<String, AllocError>
        ensures { IfOk result (λ s. string_bytes s ≡ message_of self.now) }
    {
        let mut out = String::new(alloc);
        self.column.push(alloc, &mut out)?;
        self.push_before(alloc, &mut out)?;
        out.push_str(self.problem.phrase())?;
        self.push_behind(alloc, &mut out)?;
        Ok(out)
    }

    // Appends the format, if the phrase goes on behind it.
    fn push_before(&self, alloc: Global, out: &mut String) -> Result<(), AllocError>
        ensures { IfOk result (λ _. string_bytes out.new ≡ string_bytes out.old ++ before (is_about_format self.now.problem) self.now.format.items) }
    {
        if self.problem.is_about_format() {
            push_format_before(alloc, out, &self.format)?;
        }
        Ok(())
    }

    // Appends the format behind the phrase, if there is one and it isn't before the phrase.
    fn push_behind(&self, alloc: Global, out: &mut String) -> Result<(), AllocError>
        ensures { IfOk result (λ _. string_bytes out.new ≡ string_bytes out.old ++ behind (is_about_format self.now.problem) self.now.format.items) }
    {
        if !self.problem.is_about_format() {
            push_format_behind(alloc, out, &self.format)?;
        }
        Ok(())
    }
}

// Appends the path of the field with these names, if it isn't the root.
fn push_column(alloc: Global, out: &mut String, names: &[Vec<u8>]) -> Result<(), AllocError>
    ensures { IfOk result (λ _. string_bytes out.new ≡ string_bytes out.old ++ column (map (λ n. n.items) names.now)) }
{
    match names {
        [] => {}
        [name, outer @ ..] => {
            out.push_str("column \"")?;
            push_outer(alloc, out, outer)?;
            push_shown(alloc, out, name)?;
            out.push_str("\": ")?;
        }
    }
    Ok(())
}

// Appends the names, the last first, each with a dot behind it.
fn push_outer(alloc: Global, out: &mut String, names: &[Vec<u8>]) -> Result<(), AllocError>
    ensures { IfOk result (λ _. string_bytes out.new ≡ string_bytes out.old ++ outer (map (λ n. n.items) names.now)) }
{
    match names {
        [] => {}
        [name, rest @ ..] => {
            push_outer(alloc, out, rest)?;
            push_shown(alloc, out, name)?;
            out.push_str(".")?;
        }
    }
    Ok(())
}

// Appends the format before a phrase.
fn push_format_before(alloc: Global, out: &mut String, format: &[u8]) -> Result<(), AllocError>
    ensures { IfOk result (λ _. string_bytes out.new ≡ string_bytes out.old ++ before true format.now) }
{
    push_format(alloc, out, "the Arrow format \"", format, "\" ")?;
    Ok(())
}

// Appends the format behind a phrase, if there is one.
fn push_format_behind(alloc: Global, out: &mut String, format: &[u8]) -> Result<(), AllocError>
    ensures { IfOk result (λ _. string_bytes out.new ≡ string_bytes out.old ++ behind false format.now) }
{
    match format {
        [] => {}
        [_, ..] => push_format(alloc, out, ", at the Arrow format \"", format, "\"")?,
    }
    Ok(())
}

// Appends a format between two texts.
fn push_format(
    alloc: Global,
    out: &mut String,
    start: &str,
    format: &[u8],
    end: &str,
) -> Result<(), AllocError>
    ensures { IfOk result (λ _. string_bytes out.new ≡ string_bytes out.old ++ (start.now ++ (shown_text format.now ++ end.now))) }
{
    out.push_str(start)?;
    push_shown(alloc, out, format)?;
    out.push_str(end)?;
    Ok(())
}

// Appends a name or a format, of which at most so many bytes are shown.
#[tactic(auto, unfolding(crate::specs::Messages::shown_text), using(std::proofs::lemmas::Bool::Decides::nat_tests))]
fn push_shown(alloc: Global, out: &mut String, text: &[u8]) -> Result<(), AllocError>
    ensures { IfOk result (λ _. string_bytes out.new ≡ string_bytes out.old ++ shown_text text.now) }
{
    push_escaped(alloc, out, front(text))?;
    push_length(alloc, out, text.len() > MOST_SHOWN, text.len())?;
    Ok(())
}

// Returns the bytes of a text that are shown.
#[tactic(auto, using(std::proofs::lemmas::Bool::Decides::nat_tests))]
fn front(text: &[u8]) -> &[u8]
    ensures { result.now ≡ front_spec text.now }
{
    if text.len() <= MOST_SHOWN {
        return text;
    }
    let (front, _) = text.split_at(MOST_SHOWN);
    front
}

// Appends a text with escapes, in which a replacement character stands for bytes that aren't UTF-8.
fn push_escaped(alloc: Global, out: &mut String, text: &[u8]) -> Result<(), AllocError>
    ensures { IfOk result (λ _. string_bytes out.new ≡ string_bytes out.old ++ escaped (utf8_lossy text.now)) }
{
    let text = String::from_utf8_lossy(alloc, text)?;
    let name = FieldName::from_inner(RcStr::from_str(alloc, text.as_str())?);
    let shown = format!(in alloc; "{name}")?;
    out.push_str(shown.as_str())?;
    Ok(())
}

// Appends how many bytes a text has, if it isn't shown as a whole.
fn push_length(
    alloc: Global,
    out: &mut String,
    is_cut: bool,
    length: usize,
) -> Result<(), AllocError>
    ensures { IfOk result (λ _. string_bytes out.new ≡ string_bytes out.old ++ length_told is_cut length) }
{
    if is_cut {
        let told = format!(in alloc; ".. ({length} bytes)")?;
        out.push_str(told.as_str())?;
    }
    Ok(())
}

impl From<AllocError> for ArrowFault {
    ghost from_gives = { λ _ e. e ≡ OutOfMemory };

    fn from(_error: AllocError) -> ArrowFault {
        ArrowFault::OutOfMemory
    }
}

impl<T: Drop> From<AllocFailed<T>> for ArrowFault {
    ghost from_gives = { λ _ e. e ≡ OutOfMemory };

    fn from(_error: AllocFailed<T>) -> ArrowFault {
        ArrowFault::OutOfMemory
    }
}

impl From<VortexError> for ArrowFault {
    ghost from_gives = { IsMemory };

    fn from(error: VortexError) -> ArrowFault {
        match error {
            VortexError::OutOfMemory => ArrowFault::OutOfMemory,
            error => ArrowFault::Library(Column { names: None }, error),
        }
    }
}
