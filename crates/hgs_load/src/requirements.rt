//! The file `requires`: what a repository requires of its readers.
ghost use Rattle.std.specs.Prelude.{◌≡◌, false};
ghost use Rattle.std.specs.Option.{option_map, option_copied};
ghost use Rattle.hgs_bytes.specs.Answer.{Gives};
ghost use Rattle.hgs_bytes.specs.Bytes.{among};
ghost use Rattle.hgs_load.specs.Answer.{is_of_outside, is_fault, IsRefusal, NeverFaults};
ghost use Rattle.hgs_load.specs.Requirements.{known_requirements, words_of, first_unknown, first_lacking, requirements_answer, requires_answer};
ghost use Rattle.hgs_load.specs.declared.answer.ReadAnswer.TheVariants.{Requirement};

use crate::answer::ReadAnswer;
use hgs_bytes::bytes::Bytes;
use hgs_bytes::parts::{equal, next_line};
use std::alloc::Global;

fn is_known(word: &[u8]) -> bool
    ensures { result ≡ among word.now known_requirements }
{
    equal(word, b"revlogv1")
        || equal(word, b"store")
        || equal(word, b"fncache")
        || equal(word, b"dotencode")
        || equal(word, b"generaldelta")
}

// The first word that this reader does not know.
fn first_unknown(text: &[u8]) -> Option<&[u8]>
    ensures { option_map (λ word. word.now) result ≡ first_unknown (words_of text.now) }
{
    let mut rest = text;
    while rest.len() > 0 {
        let (word, _, behind) = next_line(rest);
        if !is_known(word) {
            return Some(word);
        }
        rest = behind;
    }
    None
}

fn has_word(text: &[u8], word: &[u8]) -> bool
    ensures { result ≡ among word.now (words_of text.now) }
{
    let mut rest = text;
    while rest.len() > 0 {
        let (line, _, behind) = next_line(rest);
        if equal(word, line) {
            return true;
        }
        rest = behind;
    }
    false
}

// The first word that each repository has and this one lacks.
fn first_lacking(text: &[u8]) -> Option<&'static [u8]>
    ensures { option_map (λ word. word.now) result ≡ first_lacking (words_of text.now) }
{
    if !has_word(text, b"dotencode") {
        return Some(b"dotencode");
    }
    if !has_word(text, b"fncache") {
        return Some(b"fncache");
    }
    if !has_word(text, b"revlogv1") {
        return Some(b"revlogv1");
    }
    if !has_word(text, b"store") {
        return Some(b"store");
    }
    None
}

fn requirement(alloc: Global, word: &[u8]) -> ReadAnswer
    ensures refusal { IsRefusal result (Requirement word.now) }
    ensures inner { is_fault result ≡ false }
{
    match Bytes::from_slice(alloc, word) {
        Ok(word) => ReadAnswer::Requirement(word),
        Err(_) => ReadAnswer::Memory,
    }
}

// Refuses the first word that is unknown, else the first that is lacking.
fn test_words(alloc: Global, text: &[u8]) -> Result<(), ReadAnswer>
    ensures words { Gives is_of_outside (λ x. x) result (requirements_answer (words_of text.now)) }
    ensures inner { NeverFaults result }
{
    match first_unknown(text) {
        Some(word) => return Err(requirement(alloc, word)),
        None => {}
    }
    match first_lacking(text) {
        Some(word) => Err(requirement(alloc, word)),
        None => Ok(()),
    }
}

/// Tests the bytes of the file `requires`, none where it isn't there.
pub fn test_requirements(alloc: Global, part: Option<&[u8]>) -> Result<(), ReadAnswer>
    ensures answer { Gives is_of_outside (λ x. x) result (requires_answer (option_copied part.entry)) }
    ensures inner { NeverFaults result }
{
    match part {
        Some(text) => test_words(alloc, text),
        None => Err(ReadAnswer::NotARepository),
    }
}
