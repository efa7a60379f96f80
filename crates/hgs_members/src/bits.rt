//! Marks as bits, 64 to a word: what is done to all of them, a word at a time.
ghost use Rattle.std.specs.Prelude.{◌≡◌, ◌<◌, ◌≤◌, ◌-◌, ◌*◌, ℕ, false, length, replicate, slice_index_or, bit_and, bit_or, IfOk};
ghost use Rattle.std.specs.Int.{bit_at};
ghost use Rattle.hgs_members.specs.Bits.{bit_of, words_for};

use std::alloc::{AllocError, Global};

/// As many words as so many bits take.
pub fn words_for(count: u32) -> usize
    ensures { result ≡ words_for count }
{
    (count as usize + 63) / 64
}

/// So many of a word.
pub fn filled(alloc: Global, word: u64, count: usize) -> Result<Vec<u64>, AllocError>
    ensures { IfOk result (λ words. words.items ≡ replicate count word) }
{
    Ok(vec![in alloc; word; count]?)
}

fn turned(word: u64) -> u64
    ensures { (k : ℕ) → k < 64 → bit_at result k ≡ 1 - bit_at word k }
{
    !word
}

/// Takes each bit away where it stands, and makes it where it does not.
pub fn invert(words: &mut Vec<u64>)
    ensures count { length words.new.items ≡ length words.old.items }
    ensures each { (i k : ℕ) → i < length words.old.items → k < 64 → bit_at (slice_index_or words.new.items i 0) k ≡ 1 - bit_at (slice_index_or words.old.items i 0) k }
{
    for place in 0..words.len() {
        let word = turned(words[place]);
        words[place] = word;
    }
}

/// Keeps the bits that the others have too.
pub fn meet(words: &mut Vec<u64>, others: &[u64])
    requires { length words.old.items ≡ length others.now }
    ensures count { length words.new.items ≡ length words.old.items }
    ensures each { (i : ℕ) → i < length words.old.items → slice_index_or words.new.items i 0 ≡ bit_and (slice_index_or words.old.items i 0) (slice_index_or others.now i 0) }
{
    for place in 0..words.len() {
        let word = words[place] & others[place];
        words[place] = word;
    }
}

/// Adds the bits of the others.
pub fn join(words: &mut Vec<u64>, others: &[u64])
    requires { length words.old.items ≡ length others.now }
    ensures count { length words.new.items ≡ length words.old.items }
    ensures each { (i : ℕ) → i < length words.old.items → slice_index_or words.new.items i 0 ≡ bit_or (slice_index_or words.old.items i 0) (slice_index_or others.now i 0) }
{
    for place in 0..words.len() {
        let word = words[place] | others[place];
        words[place] = word;
    }
}

/// How many words stand before the first that has a bit.
pub fn empty_before(words: &[u64]) -> usize
    ensures top { result ≤ length words.now }
    ensures none { (i : ℕ) → i < 64 * result → bit_of words.now i ≡ false }
{
    for place in 0..words.len() {
        if words[place] != 0 {
            return place;
        }
    }
    words.len()
}

/// How many words stand up to the last that has a bit.
pub fn used(words: &[u64]) -> usize
    ensures top { result ≤ length words.now }
    ensures none { (i : ℕ) → 64 * result ≤ i → bit_of words.now i ≡ false }
{
    for place in (0..words.len()).rev() {
        if words[place] != 0 {
            return place + 1;
        }
    }
    0
}
