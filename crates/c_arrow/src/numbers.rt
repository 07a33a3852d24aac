// SPDX-License-Identifier: Apache-2.0
// SPDX-FileCopyrightText: Copyright the Vortex contributors

// Numbers in formats: decimal digits, without a sign or a blank.
ghost use Rattle.std.specs.Prelude.{◌≡◌, ◌≤◌, length, neg_ℤ, pos};
ghost use Rattle.std.specs.List.{prefix_len};
ghost use Rattle.dtype_text.specs.Leaves.{front, past};
ghost use Rattle.dtype_text.specs.Read.{byte_at, shown};
ghost use Rattle.c_arrow.specs.Numbers.{decimal_parts as decimal_parts_spec, digit_after, is_width as is_width_spec, is_width_number as is_width_number_spec, not_comma, number_of as number_spec, signed_of as signed_spec, size_of as size_spec, small_of as small_spec};

// The greatest size that Arrow's signed numbers of 32 bits have.
const MAX_SIZE: u32 = 2147483647;

// Returns the number with one more digit, if it is below 2^32.
#[tactic(auto, using(std::proofs::lemmas::Bool::Decides::nat_tests))]
fn with_digit(value: u32, digit: u8) -> Option<u32>
    ensures { result ≡ digit_after value digit }
{
    if !digit.is_ascii_digit() {
        return None;
    }
    value.checked_mul(10)?.checked_add(u32::from(digit - b'0'))
}

// Returns the number of these digits, if it is below 2^32 and there is a digit.
#[tactic(auto, using(crate::proofs::Leaves::numbers), unfolding(crate::specs::Numbers::number_of))]
fn number_of(word: &[u8]) -> Option<u32>
    ensures { result ≡ number_spec word.now }
{
    if word.is_empty() {
        return None;
    }
    let mut value: u32 = 0;
    for digit in word {
        value = with_digit(value, *digit)?;
    }
    Some(value)
}

/// Returns the number of these digits, if it is at most 2^31 - 1.
#[tactic(auto, unfolding(crate::specs::Numbers::size_of), using(std::proofs::lemmas::Bool::Decides::nat_tests))]
pub(crate) fn size_in(word: &[u8]) -> Option<u32>
    ensures { result ≡ size_spec word.now }
{
    let size = number_of(word)?;
    if size <= MAX_SIZE { Some(size) } else { None }
}

/// Returns what is behind this byte, if the bytes begin with it.
pub(crate) fn after(bytes: &[u8], wanted: u8) -> Option<&[u8]>
    ensures { shown (λ rest. rest.now) result ≡ byte_at wanted bytes.now }
{
    match bytes {
        [first, rest @ ..] if *first == wanted => Some(rest),
        _ => None,
    }
}

fn is_no_comma(byte: u8) -> bool
    ensures { result ≡ not_comma byte }
{
    byte != b','
}

// Returns how many bytes are before the first comma.
#[tactic(auto, using(crate::proofs::Leaves::lens))]
fn word_len(bytes: &[u8]) -> usize
    ensures within { result ≤ length bytes.now }
    ensures count { result ≡ prefix_len not_comma bytes.now }
{
    bytes.iter().take_while(|byte| is_no_comma(**byte)).count()
}

// Returns what is before the first comma, and the bytes from it on.
fn to_comma(bytes: &[u8]) -> (&[u8], &[u8])
    ensures word { result.0.now ≡ front not_comma bytes.now }
    ensures rest { result.1.now ≡ past not_comma bytes.now }
{
    bytes.split_at(word_len(bytes))
}

/// Returns the precision and the scale of a decimal, for example of `10,-2` or of `10,2,256`.
#[tactic(auto, unfolding(crate::specs::Numbers::decimal_parts))]
pub(crate) fn decimal_parts(bytes: &[u8]) -> Option<(u8, i8)>
    ensures { result ≡ decimal_parts_spec bytes.now }
{
    let (precision, rest) = to_comma(bytes);
    let (scale, width) = to_comma(after(rest, b',')?);
    if !is_width(width) {
        return None;
    }
    let precision = small_of(precision)?;
    let scale = signed_of(scale)?;
    Some((precision, scale))
}

// Returns whether nothing is there, or a comma and a width of decimals in bits.
fn is_width(bytes: &[u8]) -> bool
    ensures { result ≡ is_width_spec bytes.now }
{
    match bytes {
        [] => true,
        [first, width @ ..] => *first == b',' && is_width_number(number_of(width)),
    }
}

fn is_width_number(number: Option<u32>) -> bool
    ensures { result ≡ is_width_number_spec number }
{
    match number {
        Some(number) => number == 32 || number == 64 || number == 128 || number == 256,
        None => false,
    }
}

// Returns a number from 0 to 255.
#[tactic(auto, unfolding(crate::specs::Numbers::small_of), using(std::proofs::lemmas::Bool::Decides::nat_tests))]
fn small_of(word: &[u8]) -> Option<u8>
    ensures { result ≡ small_spec word.now }
{
    match u8::try_from(number_of(word)?) {
        Ok(number) => Some(number),
        Err(_) => None,
    }
}

// Returns a number from -128 to 127.
#[tactic(auto, unfolding(crate::specs::Numbers::signed_of, crate::specs::Numbers::number_of), using(std::proofs::lemmas::Bool::Decides::nat_tests))]
fn signed_of(word: &[u8]) -> Option<i8>
    ensures { result ≡ signed_spec word.now }
{
    match word {
        [b'-', digits @ ..] => {
            let number = number_of(digits)?;
            if number > 128 {
                return None;
            }
            Some(negated(number))
        }
        _ => match i8::try_from(number_of(word)?) {
            Ok(number) => Some(number),
            Err(_) => None,
        },
    }
}

// Returns the number, negated.
fn negated(number: u32) -> i8
    requires { number ≤ 128 }
    ensures { result ≡ neg_ℤ (pos number) }
{
    (0 - number as i64) as i8
}
