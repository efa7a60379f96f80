//! The operands of a command on the command line.
ghost use Rattle.std.specs.Prelude.{◌≡◌, ◌<◌, ◌+◌, ◌^◌, ◌∷◌, [], List, Ok, Err, true, false, codes, map, length, OnOk, IfOk, IfErr, IfSome, ◌≤◌};
ghost use Rattle.std.specs.Option.{option_map};
ghost use Rattle.std.specs.Result.{result_map_both};
ghost use Rattle.std.specs.String.{string_bytes};
ghost use Rattle.hgs_bytes.specs.Bytes.{same, begins_with};
ghost use Rattle.hgs_top.specs.Words.{with_operand, operands_in, ends_here, fits, behind_word, count_of, jobs_of, seed_of, steps_of};
ghost use Rattle.hgs_top.specs.declared.operands.Operand.{Operand};

use hgs_bytes::parts::{equal, starts};
use hgs_input::number::number_up_to;
use hgs_marks::name::is_mark_name;
use hgs_model::phase::Phase;

/// The most changesets that are generated.
const MOST_GENERATED: u64 = 5000;

/// The most changesets that are taken at a time.
const MOST_TAKEN: u64 = 1_000_000;

/// The most jobs that check a repository.
const MOST_JOBS: u64 = 64;

/// What an operand has to be.
#[derive(Clone, Copy, Debug, PartialEq, Eq)]
pub(crate) enum Operand {
    Any,
    /// A name that a bookmark can have.
    MarkName,
    /// `public`, `draft` or `secret`.
    PhaseName,
    /// A number below 2^64.
    Seed,
    /// A number from 1 to 5,000.
    Count,
}

/// The words that are not read yet.
#[derive(Clone, Copy)]
pub(crate) struct Rest<'a> {
    words: &'a [String],
    /// The place of the first of them among all words.
    place: usize,
    /// Whether `--` stands before them.
    ended: bool,
}

impl<'a> Rest<'a> {
    /// Words of which the first has this place among all.
    pub(crate) fn at(place: usize, words: &'a [String]) -> Rest<'a>
        ensures { result ≡ record { words = words.entry; place = place; ended = false } }
    {
        Rest {
            words,
            place,
            ended: false,
        }
    }
}

// Whether the word is `--`, which ends the options.
fn ends_options(word: &String) -> bool
    ensures { result ≡ same (string_bytes word.now) (codes "--") }
{
    equal(word.as_bytes(), b"--")
}

// Whether the word is an option.
fn is_option(word: &String) -> bool
    ensures { result ≡ begins_with (string_bytes word.now) (codes "-") }
{
    starts(word.as_bytes(), b"-")
}

/// The number below 2^64 that a word spells.
pub(crate) fn seed_of(word: &[u8]) -> Option<u64>
    ensures { result ≡ seed_of word.now }
{
    if equal(word, b"18446744073709551615") {
        return Some(u64::MAX);
    }
    match number_up_to(word, u64::MAX - 1) {
        Some(number) if number < u64::MAX => Some(number),
        _ => None,
    }
}

/// How many changesets a word asks for.
pub(crate) fn count_of(word: &[u8]) -> Option<u32>
    ensures count { result ≡ count_of word.now }
    ensures within { IfSome result (λ count. (1 ≤ count) × (count ≤ 5000)) }
{
    match number_up_to(word, MOST_GENERATED) {
        Some(number) if number >= 1 && number <= MOST_GENERATED => Some(number as u32),
        _ => None,
    }
}

/// How many changesets a word says to take at a time.
pub(crate) fn steps_of(word: &[u8]) -> Option<u32>
    ensures { result ≡ steps_of word.now }
{
    match number_up_to(word, MOST_TAKEN) {
        Some(number) if number >= 1 && number <= MOST_TAKEN => Some(number as u32),
        _ => None,
    }
}

/// How many jobs a word gives.
pub(crate) fn jobs_of(word: &[u8]) -> Option<u32>
    ensures jobs { result ≡ jobs_of word.now }
    ensures within { IfSome result (λ jobs. (1 ≤ jobs) × (jobs ≤ 64)) }
{
    match number_up_to(word, MOST_JOBS) {
        Some(number) if number >= 1 && number <= MOST_JOBS => Some(number as u32),
        _ => None,
    }
}

// Whether the word is what the operand has to be.
fn fits(kind: Operand, word: &[u8]) -> bool
    ensures { result ≡ fits kind word.now }
{
    match kind {
        Operand::Any => true,
        Operand::MarkName => is_mark_name(word),
        Operand::PhaseName => Phase::named(word).is_some(),
        Operand::Seed => seed_of(word).is_some(),
        Operand::Count => count_of(word).is_some(),
    }
}

/// The words behind this one, where it stands first.
pub(crate) fn behind_word<'a>(words: &'a [String], wanted: &[u8]) -> Option<&'a [String]>
    ensures { option_map (λ behind. map string_bytes behind.now) result ≡ behind_word wanted.now (map string_bytes words.now) }
{
    match words {
        [] => None,
        [word, behind @ ..] => {
            if equal(word.as_bytes(), wanted) {
                Some(behind)
            } else {
                None
            }
        }
    }
}

// The words behind the `--`, where they begin with it.
fn behind_options(rest: Rest<'_>) -> Rest<'_>
    requires { rest.place + length rest.words.now < 2 ^ 64 }
    ensures operands { (kinds : List Operand) → operands_in rest.entry kinds ≡ operands_in result kinds }
    ensures past { ends_here result.ended (map string_bytes result.words.now) ≡ false }
    ensures fits { result.place + length result.words.now < 2 ^ 64 }
{
    match rest.words {
        [] => rest,
        [word, words @ ..] => {
            if !rest.ended && ends_options(word) {
                Rest {
                    words,
                    place: rest.place + 1,
                    ended: true,
                }
            } else {
                rest
            }
        }
    }
}

// The next operand and the words behind it, or the place of the word that doesn't fit.
fn next_operand(rest: Rest<'_>, kind: Operand) -> Result<(&[u8], Rest<'_>), usize>
    requires { rest.place + length rest.words.now < 2 ^ 64 }
    ensures ok { IfOk result (λ next. (kinds : List Operand) → operands_in rest.entry (kind ∷ kinds) ≡ with_operand next.0.now (operands_in next.1 kinds)) }
    ensures err { IfErr result (λ place. (kinds : List Operand) → operands_in rest.entry (kind ∷ kinds) ≡ Err place) }
    ensures fitting { IfOk result (λ next. fits kind next.0.now ≡ true) }
    ensures fits { IfOk result (λ next. next.1.place + length next.1.words.now < 2 ^ 64) }
{
    let rest = behind_options(rest);
    match rest.words {
        [] => Err(rest.place),
        [word, words @ ..] => {
            if !rest.ended && is_option(word) {
                return Err(rest.place);
            }
            if !fits(kind, word.as_bytes()) {
                return Err(rest.place);
            }
            let behind = Rest {
                words,
                place: rest.place + 1,
                ended: rest.ended,
            };
            Ok((word.as_bytes(), behind))
        }
    }
}

/// Whether no words are left, or the place of the first.
pub(crate) fn no_operand(rest: Rest<'_>) -> Result<(), usize>
    requires { rest.place + length rest.words.now < 2 ^ 64 }
    ensures ok { OnOk result (operands_in rest.entry [] ≡ Ok []) }
    ensures err { IfErr result (λ place. operands_in rest.entry [] ≡ Err place) }
{
    let rest = behind_options(rest);
    match rest.words {
        [] => Ok(()),
        [_word, _words @ ..] => Err(rest.place),
    }
}

/// The one operand, or the place of the first word that doesn't fit.
pub(crate) fn one_operand(rest: Rest<'_>, kind: Operand) -> Result<&[u8], usize>
    requires { rest.place + length rest.words.now < 2 ^ 64 }
    ensures { result_map_both (λ word. word.now ∷ []) (λ place. place) result ≡ operands_in rest.entry (kind ∷ []) }
{
    let (first, rest) = match next_operand(rest, kind) {
        Ok(next) => next,
        Err(place) => return Err(place),
    };
    match no_operand(rest) {
        Ok(()) => Ok(first),
        Err(place) => Err(place),
    }
}

/// The two operands, or the place of the first word that doesn't fit.
pub(crate) fn two_operands(
    rest: Rest<'_>,
    first: Operand,
    second: Operand,
) -> Result<(&[u8], &[u8]), usize>
    requires { rest.place + length rest.words.now < 2 ^ 64 }
    ensures operands { result_map_both (λ both. both.0.now ∷ both.1.now ∷ []) (λ place. place) result ≡ operands_in rest.entry (first ∷ second ∷ []) }
    ensures fitting { IfOk result (λ both. fits first both.0.now ≡ true) }
{
    let (one, rest) = match next_operand(rest, first) {
        Ok(next) => next,
        Err(place) => return Err(place),
    };
    match one_operand(rest, second) {
        Ok(other) => Ok((one, other)),
        Err(place) => Err(place),
    }
}
