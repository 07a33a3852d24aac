// SPDX-License-Identifier: Apache-2.0
// SPDX-FileCopyrightText: Copyright the Vortex contributors

ghost use Rattle.std.specs.Prelude.{◌≡◌, ◌↔◌, ℕ, ◌<◌, IsTrue, List, [], ◌∷◌, Some, nat_eq, string_bytes};
ghost use Rattle.std.specs.Bool.{OnFalse};
ghost use Rattle.std.specs.Rc.{rc_str_bytes};
ghost use Rattle.dtype_base.specs.Errors.{Makes};
ghost use Rattle.dtype_base.specs.Escapes.{escaped, escaped_byte};

use crate::VortexResult;
use std::alloc::Global;
use std::cmp::Ordering;
use std::fmt;
use std::hash::{Hash, Hasher};
use std::marker::Model;
use std::rc::RcStr;

/// The name of a field, for example `price`. It contains a reference-counted text, which the copies of the name share.
/// In contracts a name is the list of the bytes of its text, and names are ordered by these bytes.
#[derive(Debug, Drop)]
pub struct FieldName {
    inner: RcStr,
}

impl Model for FieldName {
    ghost Value = { List ℕ };

    ghost view = { λ n. rc_str_bytes n.inner };
}

impl FieldName {
    /// Returns the name with this text. The text is copied.
    ///
    /// # Errors
    ///
    /// - `OutOfMemory` (0): an allocation fails.
    pub fn new(alloc: Global, text: &str) -> VortexResult<Self>
        ensures { Makes result (λ n. n ≡ text.now) }
    {
        Ok(FieldName {
            inner: RcStr::from_str(alloc, text)?,
        })
    }

    /// Returns the name with this shared text. The text isn't copied.
    ///
    /// Doesn't allocate.
    pub fn from_inner(text: RcStr) -> Self
        ensures { result ≡ rc_str_bytes text }
    {
        FieldName { inner: text }
    }

    /// Returns a reference to the shared text of the name.
    pub fn inner(&self) -> &RcStr
        ensures { rc_str_bytes result.now ≡ self.now }
    {
        &self.inner
    }

    /// Consumes the name and returns its shared text.
    pub fn into_inner(self) -> RcStr
        ensures { rc_str_bytes result ≡ self }
    {
        self.inner
    }

    /// Returns the text of the name.
    pub fn as_str(&self) -> &str
        ensures { result.now ≡ self.now }
    {
        self.inner.as_str()
    }

    /// Returns a new string with the text of the name. The text is unchanged: the string doesn't contain the escapes
    /// that `Display` prints.
    ///
    /// # Errors
    ///
    /// - `OutOfMemory` (0): an allocation fails.
    pub fn to_text(&self, alloc: Global) -> VortexResult<String>
        ensures { Makes result (λ s. string_bytes s ≡ self.now) }
    {
        Ok(String::from_str(alloc, self.as_str())?)
    }

    /// Returns whether the text of the name is equal to `text`.
    pub fn eq_str(&self, text: &str) -> bool
        ensures { IsTrue result ↔ (self.now ≡ text.now) }
    {
        self.as_str() == text
    }

    /// Returns a copy of the name. The name and its copy share one text.
    ///
    /// The call raises the reference count of the text and doesn't allocate. `_alloc` isn't used: it is a parameter so
    /// that the signature can stay the same if a later version has to allocate.
    ///
    /// # Errors
    ///
    /// - `OutOfMemory` (0): the reference count of the text is at its maximum, so no further copy can be counted.
    pub fn try_clone(&self, _alloc: Global) -> VortexResult<Self>
        ensures { Makes result (λ n. n ≡ self.now) }
    {
        Ok(FieldName {
            inner: self.inner.clone()?,
        })
    }
}

impl PartialEq for FieldName {
    ghost use Rattle.std.specs.Cmp.Lexicographic.{pointwise, nat_list_eq_equiv};
    ghost use Rattle.std.specs.Cmp.{partial_equiv_from_equiv};

    ghost eq = { pointwise nat_eq };

    ghost laws = { partial_equiv_from_equiv nat_list_eq_equiv };

    fn eq(&self, other: &FieldName) -> bool {
        self.as_str() == other.as_str()
    }
}

impl Eq for FieldName {
    ghost use Rattle.std.specs.Cmp.Lexicographic.{nat_list_eq_equiv};

    ghost laws = { nat_list_eq_equiv };
}

/// Compares two names byte by byte, in the order in which Rust compares two `str`. For example, `B` is less than `a`,
/// and `a` is less than `ab`.
impl PartialOrd for FieldName {
    ghost use Rattle.std.specs.Ordering.{nat_cmp};
    ghost use Rattle.std.specs.Cmp.Lexicographic.{slice_cmp, texts_po};

    ghost partial_cmp = { λ x y. Some (slice_cmp nat_cmp x y) };

    ghost laws = { texts_po };

    fn partial_cmp(&self, other: &FieldName) -> Option<Ordering> {
        Some(self.cmp(other))
    }
}

impl Ord for FieldName {
    ghost use Rattle.std.specs.Prelude.{refl};
    ghost use Rattle.std.specs.Ordering.{nat_cmp};
    ghost use Rattle.std.specs.Cmp.Lexicographic.{slice_cmp, nat_list_cmp_total, texts_ties};

    ghost cmp = { slice_cmp nat_cmp };

    ghost total = { nat_list_cmp_total };

    ghost matches_partial_cmp = { λ x y. refl };

    ghost matches_eq = { texts_ties };

    fn cmp(&self, other: &FieldName) -> Ordering {
        self.as_str().cmp(other.as_str())
    }
}

impl Hash for FieldName {
    ghost use Rattle.std.specs.Hash as fed;
    ghost use Rattle.std.proofs.Common.{rules};
    ghost use Rattle.std.specs.Cmp.Rules.{hashing};

    ghost hash_input = { fed.str };

    ghost respects_eq = { Prim.search (hashing, rules) };

    fn hash<H: Hasher>(&self, state: &mut H) {
        self.as_str().hash(state);
    }
}

/// Prints the text of the name. The following characters are escaped:
/// - A backslash is printed as `\\`, and a double quote as `\"`.
/// - A tab is printed as `\t`, a newline as `\n`, and a carriage return as `\r`.
/// - Every other ASCII control character is printed as `\x` and two hexadecimal digits, for example `\x00`.
///
/// All other characters are printed unchanged. They include characters that some terminals and editors treat as control
/// characters or as line ends, such as U+0085, U+009B and U+2028. A program that shows names of unknown origin must
/// escape these characters itself.
impl fmt::Display for FieldName {
    ghost output = { λ n. Some (escaped n) };

    fn fmt<W: fmt::Write>(&self, f: &mut fmt::Formatter<W>) -> fmt::Result {
        let text = self.as_str();
        let bytes = text.as_bytes();
        let mut start = 0;
        for i in 0..bytes.len() {
            if !has_escape(bytes[i]) {
                continue;
            }
            f.write_str(&text[start..i])?;
            EscapedChar(char::from(bytes[i])).fmt(f)?;
            start = i + 1;
        }
        f.write_str(&text[start..])
    }
}

// Whether a byte is escaped. Such a byte is an ASCII character.
#[tactic(auto, using(crate::proofs::EscapedChars::escaped_byte_printed))]
fn has_escape(byte: u8) -> bool
    ensures plain { OnFalse result (escaped_byte byte ≡ byte ∷ []) }
    ensures ascii { IsTrue result → byte < 128 }
{
    if byte == b'"' || byte == b'\\' {
        return true;
    }
    byte.is_ascii_control()
}

// A character of a name, printed with its escape.
#[derive(Clone, Copy)]
struct EscapedChar(char);

impl fmt::Display for EscapedChar {
    ghost use Rattle.std.specs.Prelude.{encode_utf8};

    ghost output = { λ c. Some (escaped (encode_utf8 c.0)) };

    #[tactic(auto, unfolding(crate::specs::Escapes::escaped, crate::specs::Escapes::escaped_byte))]
    fn fmt<W: fmt::Write>(&self, f: &mut fmt::Formatter<W>) -> fmt::Result {
        match self.0 {
            '\\' => f.write_str("\\\\"),
            '"' => f.write_str("\\\""),
            '\t' => f.write_str("\\t"),
            '\n' => f.write_str("\\n"),
            '\r' => f.write_str("\\r"),
            c if c.is_ascii_control() => write!(f, "\\x{:02x}", u32::from(c)),
            c => f.write_char(c),
        }
    }
}
