// SPDX-License-Identifier: Apache-2.0
// SPDX-FileCopyrightText: Copyright the Vortex contributors

// The keys of an index: the first bits of the hashes of names. Hashes distribute the names evenly over the buckets, so
// that a lookup searches among few names.
ghost use Rattle.std.specs.Prelude.{◌≡◌, ◌+◌, ◌<◌, ◌≤◌, length, slice_index};
ghost use Rattle.dtype_base.specs.BinaryDigits.{binary_digits};
ghost use Rattle.dtype_base.specs.NameHashes.{big_endian, bucket_of_key, hash_of, key_of, mixed, without_bits};

// 2^64, the least number that doesn't fit eight bytes. It is what a subtraction of two `u64` borrows if the first is
// less than the second.
pub(crate) const TWO_POW_64: u128 = 0x1_0000_0000_0000_0000;

// The factor by which a hash is multiplied: 2^64 divided by the golden ratio.
const MULTIPLIER: u128 = 0x9E37_79B9_7F4A_7C15;

// Returns how many bits the positions of this many names take.
#[tactic(auto, using(crate::proofs::NameHashes::digits_of_log), unfolding(crate::specs::BinaryDigits::binary_digits))]
pub(crate) fn position_bits(count: usize) -> u32
    ensures { result ≡ binary_digits count }
{
    match count.checked_ilog2() {
        Some(log) => log + 1,
        None => 0,
    }
}

// Returns the number with its last `bits` bits set to 0.
#[inline(always)]
pub(crate) fn without_bits(number: u64, bits: u32) -> u64
    requires { bits < 64 }
    ensures { result ≡ without_bits bits number }
{
    number - number % (1 << bits)
}

// Returns the key of a name: the first bits of its hash. The last `bits` bits are 0, so that an entry can store a
// position in them.
#[inline(always)]
#[tactic(auto, unfolding(crate::specs::NameHashes::key_of))]
pub(crate) fn key_of(text: &[u8], bits: u32) -> u64
    requires { bits < 64 }
    ensures { result ≡ key_of bits text.now }
{
    without_bits(hash_of(text), bits)
}

// Returns the bucket of a key, or 0 if there are no buckets. The keys are distributed evenly over the `count` buckets.
#[inline(always)]
#[tactic(auto, using(crate::proofs::NameHashes::bucket_below))]
pub(crate) fn bucket_of_key(count: usize, key: u64) -> usize
    ensures is { result ≡ bucket_of_key count key }
    ensures within { 0 < count → result < count }
{
    (u128::from(key) * count as u128 / TWO_POW_64) as usize
}

/// Returns the bucket of a name, which is less than `count`, if names are divided among `count` buckets by their hashes.
/// If `count` is 0, it returns 0. Names that nobody chose for their hashes are distributed evenly. But it is easy to
/// choose names that have one hash, and these are all in one bucket.
#[inline(always)]
pub fn bucket_of_name(name: &[u8], count: usize) -> usize
    ensures is { result ≡ bucket_of_key count (hash_of name.now) }
    ensures none { count ≡ 0 → result ≡ 0 }
    ensures within { 0 < count → result < count }
{
    bucket_of_key(count, hash_of(name))
}

// Returns the hash of a text, which two texts rarely have in common. It is computed from the length, the words of eight
// bytes, and the last eight bytes.
#[inline(always)]
#[tactic(auto, using(crate::proofs::NameHashes::hash_steps), unfolding(crate::specs::NameHashes::words_hash))]
pub(crate) fn hash_of(text: &[u8]) -> u64
    ensures { result ≡ hash_of text.now }
{
    let mut hash = text.len() as u64;
    if text.len() < 8 {
        return mixed(hash, load_u64(text));
    }
    let mut rest = text;
    while rest.len() > 8 {
        hash = mixed(hash, first_word(rest));
        rest = &rest[8..];
    }
    mixed(hash, first_word(&text[text.len() - 8..]))
}

// Returns the hash after one more word. The sum of the two halves of the product is the product modulo 2^64 - 1, so
// that each bit of both numbers has an effect.
#[inline(always)]
#[tactic(auto, unfolding(crate::specs::NameHashes::mixed))]
fn mixed(hash: u64, word: u64) -> u64
    ensures { result ≡ mixed hash word }
{
    let product = u128::from(hash.wrapping_add(word)) * MULTIPLIER;
    ((product / TWO_POW_64) as u64).wrapping_add((product % TWO_POW_64) as u64)
}

// Returns the bytes of a text of fewer than eight bytes, padded with zeros, as one big-endian number.
#[tactic(auto, using(crate::proofs::NameHashes::first_eight, crate::proofs::NameHashes::of_none))]
fn load_u64(text: &[u8]) -> u64
    ensures { result ≡ big_endian 8 text.now }
{
    if text.is_empty() {
        return 0;
    }
    u64::from_be_bytes([
        byte_at(text, 0),
        byte_at(text, 1),
        byte_at(text, 2),
        byte_at(text, 3),
        byte_at(text, 4),
        byte_at(text, 5),
        byte_at(text, 6),
        byte_at(text, 7),
    ])
}

// Returns the first eight bytes of a text of at least eight bytes, as one big-endian number. The last is read first,
// because in Rust, which tests each index, no other test is left then.
#[inline(always)]
#[tactic(auto, using(crate::proofs::NameHashes::first_eight))]
fn first_word(text: &[u8]) -> u64
    requires { 8 ≤ length text.now }
    ensures { result ≡ big_endian 8 text.now }
{
    let last = text[7];
    u64::from_be_bytes([
        text[0], text[1], text[2], text[3], text[4], text[5], text[6], last,
    ])
}

// Returns the byte at this index, or 0 if the index is past the end.
fn byte_at(text: &[u8], i: usize) -> u8
    ensures { result ≡ slice_index text.now i }
{
    if i < text.len() { text[i] } else { 0 }
}
