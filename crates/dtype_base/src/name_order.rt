// SPDX-License-Identifier: Apache-2.0
// SPDX-FileCopyrightText: Copyright the Vortex contributors

// The index of a list of names. It contains one entry for each position, sorted by the keys of the names at the
// positions and then by the names, and it contains where the entries of each bucket of keys begin.
ghost use Rattle.std.specs.Prelude.{◌≡◌, ◌↔◌, ◌+◌, ◌<◌, ◌≤◌, ◌^◌, All, IsTrue, IfOk, IsOkUnless, OnOk, length};
ghost use Rattle.std.specs.List.{range_with_len};
ghost use Rattle.std.specs.List.Sorted.{IsNonDecreasingBy, IsPermutation, IsSorted};
ghost use Rattle.dtype_base.specs.Errors.{Makes};
ghost use Rattle.dtype_base.specs.Distinct.{Distinct};
ghost use Rattle.dtype_base.specs.private.NameOrder.{AreDistinguishedBy, AreStarts, IsIndexOf, IsKeyed, IsLongest, IsOrderOf, KeysIncrease, entry_cmp, key_in, position_cmp, position_in, positions};
ghost use Rattle.dtype_base.specs.declared.vortex_error.VortexError.TheVariants.{OutOfMemory};

use crate::name_key::{bucket_of_key, key_of, position_bits, without_bits};
use crate::{FieldName, VortexResult};
use std::alloc::Global;
use std::cmp::Ordering;

/// What distinguishes the entries of an index: their keys alone if these are all different, and otherwise also the
/// texts of the names.
#[derive(Clone, Copy, Debug)]
pub(crate) enum Discriminator {
    // No two entries have the same key.
    Key,
    // Some entries have equal keys, so that the texts of their names are compared.
    Text,
}

// The index of a name list.
#[derive(Debug, Drop)]
pub(crate) struct NameIndex {
    // How many bits of an entry its position takes.
    pub(crate) bits: u32,
    // One entry for each position: the key of the name at the position, with the position in its last bits. The entries
    // are sorted by the key, then by the name, then by the position.
    pub(crate) entries: Vec<u64>,
    // Where the entries of each bucket begin, and at the end the number of entries.
    pub(crate) starts: Vec<usize>,
    // How many entries the longest bucket contains. Every search is among so many entries, so that all searches take
    // the same number of steps: a processor predicts a loop that always runs equally often.
    pub(crate) longest: usize,
    // How much of a name distinguishes the entries.
    pub(crate) discriminator: Discriminator,
}

// The position in an entry.
#[inline(always)]
pub(crate) fn position_in(entry: u64, bits: u32) -> usize
    requires { bits < 64 }
    ensures { result ≡ position_in bits entry }
{
    (entry % (1 << bits)) as usize
}

// The index of these names.
#[tactic(auto, using(crate::proofs::NameHashes::few_bits, crate::proofs::lemmas::BinaryDigits::digits_reach))]
pub(crate) fn build_index(alloc: Global, names: &[FieldName]) -> VortexResult<NameIndex>
    ensures { Makes result (λ index. IsIndexOf names.now index) }
{
    let bits = position_bits(names.len());
    let mut entries = keyed_entries(alloc, names, bits)?;
    let discriminator = sort_entries(names, bits, &mut entries)?;
    let starts = bucket_starts(alloc, bits, &entries)?;
    let longest = longest_bucket(&starts);
    Ok(NameIndex {
        bits,
        entries,
        starts,
        longest,
        discriminator,
    })
}

// An entry for each position, in the list's order.
fn keyed_entries(alloc: Global, names: &[FieldName], bits: u32) -> VortexResult<Vec<u64>>
    requires bits { bits < 64 }
    requires room { length names.now ≤ 2 ^ bits }
    ensures ok { Makes result (λ made. positions bits made.items ≡ range_with_len 0 (length names.now)) }
    ensures keyed { IfOk result (λ made. All (IsKeyed names.now bits) made.items) }
{
    let mut entries = Vec::with_capacity(alloc, names.len())?;
    for position in 0..names.len() {
        let key = key_of(names[position].as_str().as_bytes(), bits);
        entries.push_reserved(key + position as u64);
    }
    Ok(entries)
}

// Sorts the entries as numbers, which is branch-free, and compares texts only if two keys are equal. Returns what
// distinguishes the entries.
#[tactic(auto, using(crate::proofs::IndexEntries::permutations))]
fn sort_entries(
    names: &[FieldName],
    bits: u32,
    entries: &mut Vec<u64>,
) -> VortexResult<Discriminator>
    requires bits { bits < 64 }
    ensures each { IsPermutation entries.old.items entries.new.items }
    ensures rising { OnOk result (IsSorted (entry_cmp bits names.now) entries.new.items) }
    ensures ok { Makes result (λ by. AreDistinguishedBy bits by entries.new.items) }
{
    entries.sort_unstable();
    if keys_increase(entries, bits) {
        return Ok(Discriminator::Key);
    }
    sort_by_texts(names, bits, entries)?;
    Ok(Discriminator::Text)
}

fn sort_by_texts(names: &[FieldName], bits: u32, entries: &mut Vec<u64>) -> VortexResult<()>
    requires bits { bits < 64 }
    ensures each { IsPermutation entries.old.items entries.new.items }
    ensures rising { OnOk result (IsSorted (entry_cmp bits names.now) entries.new.items) }
    ensures errors { IsOkUnless result OutOfMemory }
{
    entries.sort_by(
        |a, b|
            requires { bits < 64 }
        { compare_entries(names, bits, a, b) },
    )?;
    Ok(())
}

// Compares by key, then by name and position.
fn compare_entries(names: &[FieldName], bits: u32, a: &u64, b: &u64) -> Ordering
    requires bits { bits < 64 }
    ensures { result ≡ entry_cmp bits names.now a.now b.now }
{
    let (key_a, key_b) = (without_bits(*a, bits), without_bits(*b, bits));
    if key_a != key_b {
        return key_a.cmp(&key_b);
    }
    compare_positions(names, position_in(*a, bits), position_in(*b, bits))
}

// Compares two positions by the bytes of the names at them, then by the positions themselves.
fn compare_positions(names: &[FieldName], i: usize, j: usize) -> Ordering
    ensures { result ≡ position_cmp names.now i j }
{
    names.get(i).cmp(&names.get(j)).then(i.cmp(&j))
}

// Whether the keys of the entries increase.
fn keys_increase(entries: &[u64], bits: u32) -> bool
    requires bits { bits < 64 }
    ensures { IsTrue result → KeysIncrease bits entries.now }
{
    entries.windows(2).all(
        |pair|
            requires bits { bits < 64 }
            requires pair { length pair.now ≡ 2 }
        { without_bits(pair[0], bits) < without_bits(pair[1], bits) },
    )
}

// Where the entries of each bucket begin, and at the end the number of entries.
fn bucket_starts(alloc: Global, bits: u32, entries: &[u64]) -> VortexResult<Vec<usize>>
    requires bits { bits < 64 }
    requires rising { IsNonDecreasingBy (key_in bits) entries.now }
    ensures { Makes result (λ starts. AreStarts (length entries.now) bits entries.now starts.items) }
{
    let count = entries.len();
    let mut starts = Vec::with_capacity(alloc, count + 1)?;
    for index in 0..count {
        let bucket = bucket_of_key(count, without_bits(entries[index], bits));
        if starts.len() <= bucket {
            starts.resize(bucket + 1, index)?;
        }
    }
    starts.resize(count + 1, count)?;
    Ok(starts)
}

// The greatest number of entries from one start to the next.
fn longest_bucket(starts: &[usize]) -> usize
    ensures { IsLongest starts.now result }
{
    let mut longest = 0;
    for bucket in 1..starts.len() {
        longest = longest.max(starts[bucket].saturating_sub(starts[bucket - 1]));
    }
    longest
}

// Returns whether no name occurs more than once. In the order of the entries equal names would be neighbours.
#[tactic(auto, using(crate::proofs::NameSearch::position_is_within))]
pub(crate) fn are_distinct(names: &[FieldName], bits: u32, entries: &[u64]) -> bool
    requires bits { bits < 64 }
    requires order { IsOrderOf bits names.now (positions bits entries.now) }
    ensures { IsTrue result ↔ Distinct names.now }
{
    for next in 1..entries.len() {
        let before = position_in(entries[next - 1], bits);
        let here = position_in(entries[next], bits);
        if names[before] == names[here] {
            return false;
        }
    }
    true
}
