// SPDX-License-Identifier: Apache-2.0
// SPDX-FileCopyrightText: Copyright the Vortex contributors

// The search for a name in an index. Only here is a name compared with the one that is looked for.
ghost use Rattle.std.specs.Prelude.{◌≡◌, ◌↔◌, ◌+◌, ◌-◌, ◌<◌, ◌≤◌, ◌^◌, IsTrue, length, min, true, false};
ghost use Rattle.std.specs.List.{slice_range};
ghost use Rattle.std.specs.Ordering.{is_lt, nat_cmp};
ghost use Rattle.dtype_base.specs.FieldNames.{first_place};
ghost use Rattle.dtype_base.specs.Comparisons.{comparisons, longest_bucket};
ghost use Rattle.dtype_base.specs.NameHashes.{key_of};
ghost use Rattle.dtype_base.specs.private.NameOrder.{IsBucketFor, IsEntryOf, IsIndexOf, entry_name_cmp, mask, position_in};
ghost use Rattle.dtype_base.specs.declared.name_order.Discriminator.TheVariants.{Text};

use crate::counted_names::{Compared, CountedNames};
use crate::name_key::{TWO_POW_64, bucket_of_key, key_of, without_bits};
use crate::name_order::{Discriminator, NameIndex, position_in};

// Returns the first position of the name, or `None`, and how many names were compared. The search is compiled once for
// each discriminator, so that no step tests which discriminator it has.
#[tactic(auto, using(crate::proofs::lemmas::Lookups::none_compared))]
pub(crate) fn search(
    names: CountedNames<'_>,
    compared: Compared,
    index: &NameIndex,
    name: &str,
) -> (Option<usize>, u64)
    requires none { compared ≡ 0 }
    requires index { IsIndexOf names index.now }
    ensures place { result.0 ≡ first_place names.entry name.now }
    ensures count { result.1 ≡ comparisons (longest_bucket names.entry) }
{
    if index.entries.is_empty() {
        return (None, 0);
    }
    let bits = index.bits;
    let key = key_of(name.as_bytes(), bits);
    let entries = bucket_entries(&names, index, name, key);
    match index.discriminator {
        Discriminator::Key => search_with(
            &names,
            compared,
            bits,
            Discriminator::Key,
            entries,
            name,
            key,
        ),
        Discriminator::Text => search_by_texts(&names, compared, bits, entries, name, key),
    }
}

// The search among entries that the texts of their names distinguish. It isn't inlined, because few lists have such
// entries, and the calls that compare texts make the other search slower.
#[inline(never)]
fn search_by_texts(
    names: &CountedNames<'_>,
    compared: Compared,
    bits: u32,
    entries: &[u64],
    name: &str,
    key: u64,
) -> (Option<usize>, u64)
    requires none { compared ≡ 0 }
    requires bits { bits < 64 }
    requires some { 0 < length entries.now }
    requires bucket { IsBucketFor names.now bits Text name.now entries.now }
    requires key { key ≡ key_of bits name.now }
    ensures place { result.0 ≡ first_place names.now name.now }
    ensures count { result.1 ≡ comparisons (length entries.now) }
{
    search_with(
        names,
        compared,
        bits,
        Discriminator::Text,
        entries,
        name,
        key,
    )
}

// Returns a window of the entries that contains the bucket of this key and is as long as the longest bucket.
#[inline(always)]
fn bucket_entries<'a>(
    names: &CountedNames<'_>,
    index: &'a NameIndex,
    name: &str,
    key: u64,
) -> &'a [u64]
    requires some { 0 < length index.now.entries.items }
    requires index { IsIndexOf names.now index.now }
    requires key { key ≡ key_of index.now.bits name.now }
    ensures bucket { IsBucketFor names.now index.now.bits index.now.discriminator name.now result.now }
    ensures count { length result.now ≡ longest_bucket names.now }
    ensures some { 0 < length result.now }
{
    let count = index.entries.len();
    let bucket = bucket_of_key(count, key);
    window(&index.entries, index.starts[bucket], index.longest)
}

// Returns `len` consecutive entries. They begin at `start`, or before it if fewer than `len` entries are left from
// there.
#[inline(always)]
fn window(entries: &[u64], start: usize, len: usize) -> &[u64]
    requires { len ≤ length entries.now }
    ensures { result.now ≡ slice_range entries.now (min start (length entries.now - len)) (min start (length entries.now - len) + len) }
{
    let latest = entries.len() - len;
    let first = start.min(latest);
    &entries[first..first + len]
}

// A binary search, which is branch-free if keys distinguish the entries. If the name occurs, the search ends at the
// first entry that isn't below the name. If it doesn't occur, it doesn't matter where the search ends, because the last
// comparison tests for equality. After the first step the number of entries that are left is a power of two, and each
// further step halves it. The number of steps is the same for every name.
#[inline(always)]
fn search_with(
    names: &CountedNames<'_>,
    mut compared: Compared,
    bits: u32,
    by: Discriminator,
    entries: &[u64],
    name: &str,
    key: u64,
) -> (Option<usize>, u64)
    requires none { compared ≡ 0 }
    requires bits { bits < 64 }
    requires some { 0 < length entries.now }
    requires bucket { IsBucketFor names.now bits by name.now entries.now }
    requires key { key ≡ key_of bits name.now }
    ensures place { result.0 ≡ first_place names.now name.now }
    ensures count { result.1 ≡ comparisons (length entries.now) }
{
    let mut low = 0;
    let size = 1 << entries.len().ilog2();
    if size < entries.len() {
        let half = entries.len() - size;
        let middle = entries[half - 1];
        let comparison = compare(names, bits, middle, name, key, by, false, &mut compared);
        low = half & comparison.below;
    }
    let mut half = size / 2;
    while half > 0 {
        let middle = entries[low + half - 1];
        let comparison = compare(names, bits, middle, name, key, by, false, &mut compared);
        low += half & comparison.below;
        half /= 2;
    }
    let last = entries[low];
    let comparison = compare(names, bits, last, name, key, by, true, &mut compared);
    (
        comparison.same.then_some(position_in(last, bits)),
        compared.count(),
    )
}

// How an entry's name compares to the one that is looked for.
#[derive(Clone, Copy)]
struct KeyComparison {
    // All ones if the entry's name is below the other, and otherwise 0. The last comparison of a search sets it to 0.
    below: usize,
    // Whether the two names are equal. Only the last comparison of a search sets it to true.
    same: bool,
}

// Compares an entry's name with the one that is looked for, and counts the comparison. A step of the search tests
// whether the entry's name is below, by the key and, if the discriminator is `Text`, by the text. The last comparison
// tests whether the two are equal. Nothing else compares a name with the one that is looked for. The function is
// inlined, so that no step tests whether it is the last.
#[inline(always)]
fn compare(
    names: &CountedNames<'_>,
    bits: u32,
    entry: u64,
    name: &str,
    key: u64,
    by: Discriminator,
    is_last: bool,
    compared: &mut Compared,
) -> KeyComparison
    requires bits { bits < 64 }
    requires within { position_in bits entry < length names.now }
    requires room { compared.old + 1 < 2 ^ 64 }
    ensures counted { compared.new ≡ compared.old + 1 }
    ensures below { is_last ≡ false → result.below ≡ mask (is_lt (entry_name_cmp bits names.now name.now key by entry)) }
    ensures same { is_last ≡ true → (IsTrue result.same ↔ IsEntryOf bits names.now name.now key entry) }
{
    let here = names.read(position_in(entry, bits), compared);
    let entry_key = without_bits(entry, bits);
    if is_last {
        let same = entry_key == key && here.eq_str(name);
        return KeyComparison { below: 0, same };
    }
    let below = match by {
        Discriminator::Text if entry_key == key => mask_of(here.as_str().cmp(name).is_lt()),
        _ => less_mask(entry_key, key),
    };
    KeyComparison { below, same: false }
}

fn mask_of(below: bool) -> usize
    ensures { result ≡ mask below }
{
    if below { usize::MAX } else { 0 }
}

// Returns all ones if `a` is below `b`, and otherwise 0. It is computed from the borrow of the subtraction, because a
// comparison would be compiled to a jump.
fn less_mask(a: u64, b: u64) -> usize
    ensures { result ≡ mask (is_lt (nat_cmp a b)) }
{
    let difference = u128::from(a).wrapping_sub(u128::from(b));
    (difference / TWO_POW_64) as usize
}
