//! The words of the command line.
ghost use Rattle.std.specs.Prelude.{◌≡◌, ◌<◌, ◌+◌, ◌^◌, ◌∷◌, [], Ok, Err, codes, map, length, IfOk, IfSome, unwrap_or};
ghost use Rattle.hgs_top.specs.Orders.{IsFitting};
ghost use Rattle.std.specs.Option.{option_map};
ghost use Rattle.std.specs.Result.{result_map_both};
ghost use Rattle.std.specs.String.{string_bytes};
ghost use Rattle.hgs_top.specs.Words.{operands_in, operand, asked_with, ask_files, ask_cat, ask_set, branches_by, branches_with, moved_with, phase_with, bookmark_with, behind_word, to_answer, to_do, do_mark, do_unmark, to_generate, seed_of, count_of, verify_by, verify_with, request_of, request_named, alone_named, about_named, is_session, page_named, request_of_words};
ghost use Rattle.hgs_top.specs.declared.operands.Operand.TheVariants as operand_kinds;

use crate::operands::{
    Operand, Rest, behind_word, count_of, jobs_of, no_operand, one_operand, seed_of, steps_of,
    two_operands,
};
use crate::orders::Order;
use crate::pages::Page;
use hgs_bytes::parts::equal;
use hgs_model::phase::Phase;

/// A question. Revisions are given by their names.
#[derive(Clone, Copy)]
pub enum Command<'a> {
    Shown(Page),
    Log,
    Heads,
    Bookmarks,
    Parents,
    Files { rev: &'a [u8] },
    Cat { rev: &'a [u8], path: &'a [u8] },
    Phase { rev: &'a [u8] },
    /// The members of the set with this text.
    Set { text: &'a [u8] },
    /// The heads of each branch, for which so many changesets are taken at a time, all at once without a number.
    Branches { steps: Option<u32> },
}

/// What the words ask for.
#[derive(Clone, Copy)]
pub enum Asked<'a> {
    Question(Command<'a>),
    Order(Order<'a>),
    /// Plays the schedule that stands on the input, in memory.
    Play,
    /// Runs the script that stands on the input, with its workers at the same time.
    Session,
    /// Says what is wrong with the repository, by so many jobs.
    Verify { jobs: u32 },
    /// Makes a repository of so many changesets that a number gives.
    Generate { seed: u64, count: u32 },
}

// The command, where no operands stand behind its name.
fn alone<'a>(asked: Asked<'a>, rest: Rest<'a>) -> Result<Asked<'a>, usize>
    requires fitting { IsFitting asked }
    requires few { rest.place + length rest.words.now < 2 ^ 64 }
    ensures asked { result_map_both request_of (λ place. place) result ≡ asked_with (λ w. request_of asked.entry) (operands_in rest.entry []) }
    ensures fitting { IfOk result IsFitting }
{
    match no_operand(rest) {
        Ok(()) => Ok(asked),
        Err(place) => Err(place),
    }
}

// `files` with its operand.
fn files_from(rest: Rest<'_>) -> Result<Asked<'_>, usize>
    requires { rest.place + length rest.words.now < 2 ^ 64 }
    ensures asked { result_map_both request_of (λ place. place) result ≡ asked_with (λ w. to_answer (ask_files (operand w 0))) (operands_in rest.entry (operand_kinds.Any ∷ [])) }
    ensures fitting { IfOk result IsFitting }
{
    match one_operand(rest, Operand::Any) {
        Ok(rev) => Ok(Asked::Question(Command::Files { rev })),
        Err(place) => Err(place),
    }
}

// `cat` with its operands.
fn cat_from(rest: Rest<'_>) -> Result<Asked<'_>, usize>
    requires { rest.place + length rest.words.now < 2 ^ 64 }
    ensures asked { result_map_both request_of (λ place. place) result ≡ asked_with (λ w. to_answer (ask_cat (operand w 0) (operand w 1))) (operands_in rest.entry (operand_kinds.Any ∷ operand_kinds.Any ∷ [])) }
    ensures fitting { IfOk result IsFitting }
{
    match two_operands(rest, Operand::Any, Operand::Any) {
        Ok((rev, path)) => Ok(Asked::Question(Command::Cat { rev, path })),
        Err(place) => Err(place),
    }
}

// `revset` with its operand.
fn set_from(rest: Rest<'_>) -> Result<Asked<'_>, usize>
    requires { rest.place + length rest.words.now < 2 ^ 64 }
    ensures asked { result_map_both request_of (λ place. place) result ≡ asked_with (λ w. to_answer (ask_set (operand w 0))) (operands_in rest.entry (operand_kinds.Any ∷ [])) }
    ensures fitting { IfOk result IsFitting }
{
    match one_operand(rest, Operand::Any) {
        Ok(text) => Ok(Asked::Question(Command::Set { text })),
        Err(place) => Err(place),
    }
}

// `branches` with the words behind its option.
fn steps_from(words: &[String]) -> Result<Asked<'_>, usize>
    requires { 2 + length words.now < 2 ^ 64 }
    ensures asked { result_map_both request_of (λ place. place) result ≡ branches_by (map string_bytes words.now) }
    ensures fitting { IfOk result IsFitting }
{
    match words {
        [] => Err(2),
        [word, behind @ ..] => match steps_of(word.as_bytes()) {
            Some(steps) => alone(
                Asked::Question(Command::Branches { steps: Some(steps) }),
                Rest::at(3, behind),
            ),
            None => Err(2),
        },
    }
}

// `branches` with its option.
fn branches_from(words: &[String]) -> Result<Asked<'_>, usize>
    requires { 2 + length words.now < 2 ^ 64 }
    ensures asked { result_map_both request_of (λ place. place) result ≡ branches_with (behind_word (codes "--steps") (map string_bytes words.now)) (map string_bytes words.now) }
    ensures fitting { IfOk result IsFitting }
{
    match behind_word(words, b"--steps") {
        Some(behind) => steps_from(behind),
        None => alone(
            Asked::Question(Command::Branches { steps: None }),
            Rest::at(1, words),
        ),
    }
}

// `phase` with a revision and a phase.
fn move_from(rest: Rest<'_>, force: bool) -> Result<Asked<'_>, usize>
    requires { rest.place + length rest.words.now < 2 ^ 64 }
    ensures asked { result_map_both request_of (λ place. place) result ≡ moved_with force (operands_in rest.entry (operand_kinds.Any ∷ operand_kinds.PhaseName ∷ [])) }
    ensures fitting { IfOk result IsFitting }
{
    match two_operands(rest, Operand::Any, Operand::PhaseName) {
        Ok((rev, name)) => {
            // the operand is a phase's name
            let phase = Phase::named(name).unwrap_or(Phase::Draft);
            Ok(Asked::Order(Order::Move { rev, phase, force }))
        }
        Err(place) => Err(place),
    }
}

// `phase` with its option and operands.
fn phase_from(words: &[String]) -> Result<Asked<'_>, usize>
    requires { 2 + length words.now < 2 ^ 64 }
    ensures asked { result_map_both request_of (λ place. place) result ≡ phase_with (behind_word (codes "--force") (map string_bytes words.now)) (map string_bytes words.now) }
    ensures fitting { IfOk result IsFitting }
{
    if let Some(behind) = behind_word(words, b"--force") {
        return move_from(Rest::at(2, behind), true);
    }
    match one_operand(Rest::at(1, words), Operand::Any) {
        Ok(rev) => Ok(Asked::Question(Command::Phase { rev })),
        Err(_) => move_from(Rest::at(1, words), false),
    }
}

// `bookmark --delete` with its operand.
fn unmark_from(rest: Rest<'_>) -> Result<Asked<'_>, usize>
    requires { rest.place + length rest.words.now < 2 ^ 64 }
    ensures asked { result_map_both request_of (λ place. place) result ≡ asked_with (λ w. to_do (do_unmark (operand w 0))) (operands_in rest.entry (operand_kinds.MarkName ∷ [])) }
    ensures fitting { IfOk result IsFitting }
{
    match one_operand(rest, Operand::MarkName) {
        Ok(name) => Ok(Asked::Order(Order::Unmark { name })),
        Err(place) => Err(place),
    }
}

// `bookmark` with its operands.
fn mark_from(rest: Rest<'_>) -> Result<Asked<'_>, usize>
    requires { rest.place + length rest.words.now < 2 ^ 64 }
    ensures asked { result_map_both request_of (λ place. place) result ≡ asked_with (λ w. to_do (do_mark (operand w 0) (operand w 1))) (operands_in rest.entry (operand_kinds.MarkName ∷ operand_kinds.Any ∷ [])) }
    ensures fitting { IfOk result IsFitting }
{
    match two_operands(rest, Operand::MarkName, Operand::Any) {
        Ok((name, rev)) => Ok(Asked::Order(Order::Mark { name, rev })),
        Err(place) => Err(place),
    }
}

// `bookmark` with its option and operands.
fn bookmark_from(words: &[String]) -> Result<Asked<'_>, usize>
    requires { 2 + length words.now < 2 ^ 64 }
    ensures asked { result_map_both request_of (λ place. place) result ≡ bookmark_with (behind_word (codes "--delete") (map string_bytes words.now)) (map string_bytes words.now) }
    ensures fitting { IfOk result IsFitting }
{
    match behind_word(words, b"--delete") {
        Some(behind) => unmark_from(Rest::at(2, behind)),
        None => mark_from(Rest::at(1, words)),
    }
}

// `verify` with the words behind its option.
fn jobs_from(words: &[String]) -> Result<Asked<'_>, usize>
    requires { 2 + length words.now < 2 ^ 64 }
    ensures asked { result_map_both request_of (λ place. place) result ≡ verify_by (map string_bytes words.now) }
    ensures fitting { IfOk result IsFitting }
{
    match words {
        [] => Err(2),
        [word, behind @ ..] => match jobs_of(word.as_bytes()) {
            Some(jobs) => alone(Asked::Verify { jobs }, Rest::at(3, behind)),
            None => Err(2),
        },
    }
}

// `verify` with its option.
fn verify_from(words: &[String]) -> Result<Asked<'_>, usize>
    requires { 2 + length words.now < 2 ^ 64 }
    ensures asked { result_map_both request_of (λ place. place) result ≡ verify_with (behind_word (codes "--jobs") (map string_bytes words.now)) (map string_bytes words.now) }
    ensures fitting { IfOk result IsFitting }
{
    match behind_word(words, b"--jobs") {
        Some(behind) => jobs_from(behind),
        None => alone(Asked::Verify { jobs: 1 }, Rest::at(1, words)),
    }
}

// `gen` with its operands.
fn generate_from(rest: Rest<'_>) -> Result<Asked<'_>, usize>
    requires { rest.place + length rest.words.now < 2 ^ 64 }
    ensures asked { result_map_both request_of (λ place. place) result ≡ asked_with (λ w. to_generate (unwrap_or (seed_of (operand w 0)) 0) (unwrap_or (count_of (operand w 1)) 1)) (operands_in rest.entry (operand_kinds.Seed ∷ operand_kinds.Count ∷ [])) }
    ensures fitting { IfOk result IsFitting }
{
    match two_operands(rest, Operand::Seed, Operand::Count) {
        Ok((seed, count)) => Ok(Asked::Generate {
            // both operands are such numbers
            seed: seed_of(seed).unwrap_or(0),
            count: count_of(count).unwrap_or(1),
        }),
        Err(place) => Err(place),
    }
}

// The command with this name that takes no operands.
fn alone_named(name: &String) -> Option<Asked<'static>>
    ensures asked { option_map request_of result ≡ alone_named (string_bytes name.now) }
    ensures fitting { IfSome result IsFitting }
{
    let name = name.as_bytes();
    if equal(name, b"log") {
        return Some(Asked::Question(Command::Log));
    }
    if equal(name, b"heads") {
        return Some(Asked::Question(Command::Heads));
    }
    if equal(name, b"bookmarks") {
        return Some(Asked::Question(Command::Bookmarks));
    }
    if equal(name, b"parents") {
        return Some(Asked::Question(Command::Parents));
    }
    if equal(name, b"init") {
        return Some(Asked::Order(Order::Init));
    }
    if equal(name, b"commit") {
        return Some(Asked::Order(Order::Commit));
    }
    if equal(name, b"import") {
        return Some(Asked::Order(Order::Import));
    }
    if equal(name, b"recover") {
        return Some(Asked::Order(Order::Recover));
    }
    if equal(name, b"play") {
        return Some(Asked::Play);
    }
    if equal(name, b"session") {
        return Some(Asked::Session);
    }
    None
}

// The command with this name that takes operands or options, and the words behind it.
fn about_named<'a>(name: &String, words: &'a [String]) -> Result<Asked<'a>, usize>
    requires { 2 + length words.now < 2 ^ 64 }
    ensures asked { result_map_both request_of (λ place. place) result ≡ about_named (string_bytes name.now) (map string_bytes words.now) }
    ensures fitting { IfOk result IsFitting }
{
    let name = name.as_bytes();
    if equal(name, b"files") {
        return files_from(Rest::at(1, words));
    }
    if equal(name, b"cat") {
        return cat_from(Rest::at(1, words));
    }
    if equal(name, b"revset") {
        return set_from(Rest::at(1, words));
    }
    if equal(name, b"branches") {
        return branches_from(words);
    }
    if equal(name, b"phase") {
        return phase_from(words);
    }
    if equal(name, b"bookmark") {
        return bookmark_from(words);
    }
    if equal(name, b"verify") {
        return verify_from(words);
    }
    if equal(name, b"gen") {
        return generate_from(Rest::at(1, words));
    }
    Err(0)
}

// The command with this name, and the words behind it.
fn command_named<'a>(name: &String, words: &'a [String]) -> Result<Asked<'a>, usize>
    requires { 2 + length words.now < 2 ^ 64 }
    ensures asked { result_map_both request_of (λ place. place) result ≡ request_named (string_bytes name.now) (map string_bytes words.now) }
    ensures fitting { IfOk result IsFitting }
{
    match alone_named(name) {
        Some(asked) => alone(asked, Rest::at(1, words)),
        None => about_named(name, words),
    }
}

// The page with this name.
fn page_named(name: &String) -> Option<Page>
    ensures { result ≡ page_named (string_bytes name.now) }
{
    let name = name.as_bytes();
    if equal(name, b"--help") {
        return Some(Page::Help);
    }
    if equal(name, b"--version") {
        return Some(Page::Version);
    }
    None
}

/// What the words ask for, or the place, from 0, of the first word that doesn't fit, the count of words where one is missing.
pub fn asked_by(words: &[String]) -> Result<Asked<'_>, usize>
    ensures asked { result_map_both request_of (λ place. place) result ≡ request_of_words (map string_bytes words.now) }
    ensures fitting { IfOk result IsFitting }
{
    match words {
        [] => Err(0),
        [name, rest @ ..] => match page_named(name) {
            None => command_named(name, rest),
            Some(page) if rest.is_empty() => Ok(Asked::Question(Command::Shown(page))),
            Some(_) => Err(1),
        },
    }
}

/// Whether the words ask for workers.
pub fn asks_session(words: &[String]) -> bool
    ensures { result ≡ is_session (request_of_words (map string_bytes words.now)) }
{
    matches!(asked_by(words), Ok(Asked::Session))
}
