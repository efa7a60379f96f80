//! A bit for each number, 64 to a word.
ghost use Rattle.std.specs.Prelude.{◌≡◌, ◌<◌, ◌≤◌, ◌+◌, ◌*◌, ◌/◌, ◌==◌, ◌&&◌, ◌||◌, ℕ, false, true, nat_lt, length, slice_index_or, IfOk, IfSome, IfNone};
ghost use Rattle.std.specs.Int.{bit_at};
ghost use Rattle.hgs_branch.specs.Reached.{bit_of};

use std::alloc::{AllocError, Global};

/// No bit, with words for this number and all below.
pub(crate) fn no_bits(alloc: Global, most: usize) -> Result<Vec<u64>, AllocError>
    ensures none { IfOk result (λ words. (number : ℕ) → bit_of words.items number ≡ false) }
    ensures wide { IfOk result (λ words. length words.items ≡ most / 64 + 1) }
{
    vec![in alloc; 0u64; most / 64 + 1]
}

/// Sets a bit, if there is a word for it.
pub(crate) fn set(words: &mut Vec<u64>, number: usize)
    ensures wide { length words.new.items ≡ length words.old.items }
    ensures each { (other : ℕ) → bit_of words.new.items other ≡ (bit_of words.old.items other || (nat_lt number (64 * length words.old.items) && other == number)) }
{
    if number / 64 < words.len() {
        let word = words[number / 64] | (1u64 << (number % 64));
        words[number / 64] = word;
    }
}

// A word, which has no bit where there is none.
fn word_at(words: &[u64], place: usize) -> u64
    ensures { result ≡ slice_index_or words.now place 0 }
{
    match words.get(place) {
        None => 0,
        Some(word) => *word,
    }
}

pub(crate) fn has(words: &[u64], number: usize) -> bool
    ensures { result ≡ bit_of words.now number }
{
    word_at(words, number / 64) & (1u64 << (number % 64)) != 0
}

/// Adds the bits of others, in as many words as there are, and says whether one is new.
pub(crate) fn join(words: &mut Vec<u64>, others: &[u64]) -> bool
    ensures wide { length words.new.items ≡ length words.old.items }
    ensures each { (number : ℕ) → bit_of words.new.items number ≡ (bit_of words.old.items number || (nat_lt number (64 * length words.old.items) && bit_of others.now number)) }
    ensures none { result ≡ false → words.new.items ≡ words.old.items }
{
    let mut more = false;
    for place in 0..words.len() {
        let Some(other) = others.get(place) else {
            return more;
        };
        let word = words[place] | *other;
        if word != words[place] {
            words[place] = word;
            more = true;
        }
    }
    more
}

// The lowest so many bits of a word.
fn lowest(word: u64, count: usize) -> u64
    requires some { 0 < count }
    requires most { count ≤ 64 }
    ensures below { (k : ℕ) → k < count → bit_at result k ≡ bit_at word k }
    ensures above { (k : ℕ) → count ≤ k → bit_at result k ≡ 0 }
{
    word & (u64::MAX >> (64 - count))
}

// The place of the highest bit of a word that has one.
fn highest(word: u64) -> usize
    requires { 0 < word }
    ensures set { bit_at word result ≡ 1 }
    ensures above { (k : ℕ) → result < k → bit_at word k ≡ 0 }
    ensures bound { result < 64 }
{
    word.ilog2() as usize
}

/// The highest number below this one whose bit is set.
pub(crate) fn last_below(words: &[u64], below: usize) -> Option<usize>
    ensures set { IfSome result (λ number. (number < below) × (bit_of words.now number ≡ true)) }
    ensures last { IfSome result (λ number. (c : ℕ) → number < c → c < below → bit_of words.now c ≡ false) }
    ensures none { IfNone result ((c : ℕ) → c < below → bit_of words.now c ≡ false) }
{
    let mut end = below;
    while end > 0 {
        let place = (end - 1) / 64;
        let part = lowest(word_at(words, place), end - 64 * place);
        if part != 0 {
            return Some(64 * place + highest(part));
        }
        end = 64 * place;
    }
    None
}
