//! The answer to a command that writes, and its text.
ghost use Rattle.std.specs.Prelude.{◌≡◌, ◌++◌, ◌∷◌, decimal, OnOk, OnErr};
ghost use Rattle.hgs_index.specs.Hex.{hex};
ghost use Rattle.hgs_model.specs.Phase.{phase_name};
ghost use Rattle.hgs_answers.specs.Answer.{answer_text, done_text, held_text, collision_text, outcome_text, refusal_text, status_of, unfinished_text};

use crate::outcome::{Outcome, Published};
use hgs_bytes::bytes::Bytes;
use hgs_files::path::StorePath;
use hgs_index::node::Node;
use hgs_index::texts::hex_of;
use hgs_model::command::Command;
use hgs_model::phase::Phase;
use hgs_plan::print::{push_damage, push_number};
use std::alloc::{AllocError, Global};

/// What a writer answers: what the command came to, and whether all that it had left beside the repository is gone.
#[derive(Debug, Drop)]
pub struct Answer {
    pub outcome: Outcome,
    pub swept: bool,
}

// The number of a changeset and its phase.
fn push_phase(into: &mut Vec<u8>, rev: u32, phase: Phase) -> Result<(), AllocError>
    ensures { OnOk result (into.new.items ≡ into.old.items ++ (decimal rev ++ 32 ∷ phase_name phase)) }
{
    push_number(into, rev as u64)?;
    into.push(b' ')?;
    into.extend_from_slice(phase.name())
}

// The number of a changeset and its node.
fn push_changeset(into: &mut Vec<u8>, rev: u32, node: &Node) -> Result<(), AllocError>
    ensures { OnOk result (into.new.items ≡ into.old.items ++ (decimal rev ++ 58 ∷ hex node.now.0)) }
{
    push_number(into, rev as u64)?;
    into.push(b':')?;
    into.extend_from_slice(hex_of(node).as_slice())
}

// A bookmark and the number of its changeset.
fn push_mark(into: &mut Vec<u8>, name: &Bytes, rev: u32) -> Result<(), AllocError>
    ensures { OnOk result (into.new.items ≡ into.old.items ++ (name.now ++ 32 ∷ decimal rev)) }
{
    into.extend_from_slice(name.as_slice())?;
    into.push(b' ')?;
    push_number(into, rev as u64)
}

// What is said of a command that was done.
fn push_done(into: &mut Vec<u8>, command: &Command, rev: u32, node: &Node) -> Result<(), AllocError>
    ensures { OnOk result (into.new.items ≡ into.old.items ++ done_text command.now rev node.now) }
{
    match command {
        Command::Commit(_) | Command::Import(_) => push_changeset(into, rev, node),
        Command::Move { phase, .. } => push_phase(into, rev, *phase),
        Command::Mark { name, .. } => push_mark(into, name, rev),
        Command::Unmark { name } => {
            into.extend_from_slice(name.as_slice())?;
            into.extend_from_slice(b" removed")
        }
    }
}

// Words, bytes, and words behind them.
fn push_between(
    into: &mut Vec<u8>,
    before: &[u8],
    bytes: &[u8],
    behind: &[u8],
) -> Result<(), AllocError>
    ensures { OnOk result (into.new.items ≡ into.old.items ++ (before.now ++ (bytes.now ++ behind.now))) }
{
    into.extend_from_slice(before)?;
    into.extend_from_slice(bytes)?;
    into.extend_from_slice(behind)
}

// Words, a number, and words behind it.
fn push_number_between(
    into: &mut Vec<u8>,
    before: &[u8],
    number: u32,
    behind: &[u8],
) -> Result<(), AllocError>
    ensures { OnOk result (into.new.items ≡ into.old.items ++ (before.now ++ (decimal number ++ behind.now))) }
{
    into.extend_from_slice(before)?;
    push_number(into, number as u64)?;
    into.extend_from_slice(behind)
}

// Words, bytes, more words and a number.
fn push_at(
    into: &mut Vec<u8>,
    before: &[u8],
    bytes: &[u8],
    between: &[u8],
    number: u32,
) -> Result<(), AllocError>
    ensures { OnOk result (into.new.items ≡ into.old.items ++ (before.now ++ (bytes.now ++ (between.now ++ decimal number)))) }
{
    push_between(into, before, bytes, between)?;
    push_number(into, number as u64)
}

// Words, and bytes behind them.
fn push_words(into: &mut Vec<u8>, words: &[u8], bytes: &[u8]) -> Result<(), AllocError>
    ensures { OnOk result (into.new.items ≡ into.old.items ++ (words.now ++ bytes.now)) }
{
    into.extend_from_slice(words)?;
    into.extend_from_slice(bytes)
}

// Words, and a number behind them.
fn push_words_number(into: &mut Vec<u8>, words: &[u8], number: u32) -> Result<(), AllocError>
    ensures { OnOk result (into.new.items ≡ into.old.items ++ (words.now ++ decimal number)) }
{
    into.extend_from_slice(words)?;
    push_number(into, number as u64)
}

// Whose lock is held.
fn push_held(into: &mut Vec<u8>, holder: &Option<Bytes>) -> Result<(), AllocError>
    ensures { OnOk result (into.new.items ≡ into.old.items ++ held_text holder.now) }
{
    match holder {
        None => into.extend_from_slice(b"lock held"),
        Some(bytes) => push_words(into, b"lock held by ", bytes.as_slice()),
    }
}

fn push_unfinished(into: &mut Vec<u8>, published: Published) -> Result<(), AllocError>
    ensures { OnOk result (into.new.items ≡ into.old.items ++ unfinished_text published) }
{
    push_between(
        into,
        b"transaction unfinished (published ",
        published.word(),
        b")",
    )
}

fn push_collision(into: &mut Vec<u8>, path: &StorePath, rev: u32) -> Result<(), AllocError>
    ensures { OnOk result (into.new.items ≡ into.old.items ++ collision_text path.now rev) }
{
    push_at(into, b"collision in ", path.bytes(), b" at ", rev)
}

impl Outcome {
    // What a refusal says behind `abort: `, and nothing where the command was done.
    fn push_refusal(&self, into: &mut Vec<u8>) -> Result<(), AllocError>
        ensures { OnOk result (into.new.items ≡ into.old.items ++ refusal_text self.now) }
    {
        match self {
            Outcome::Done { .. } => Ok(()),
            Outcome::LockHeld(holder) => push_held(into, holder),
            Outcome::Abandoned => into.extend_from_slice(b"abandoned transaction found"),
            Outcome::UnknownRevision => into.extend_from_slice(b"unknown revision"),
            Outcome::NothingChanged(rev) => push_number_between(
                into,
                b"nothing changed (",
                *rev,
                b")",
            ),
            Outcome::Damaged(damage) => {
                into.extend_from_slice(b"damaged ")?;
                push_damage(into, damage)
            }
            Outcome::Fault => into.extend_from_slice(b"file operation failed"),
            Outcome::Unfinished(published) => push_unfinished(into, *published),
            Outcome::Limit(which) => push_words_number(into, b"limit ", which.number()),
            Outcome::Collision { path, rev } => push_collision(into, path, *rev),
            Outcome::NameClash(path) => push_words(into, b"name clash with ", path.as_slice()),
            Outcome::NeedsForce(rev) => push_number_between(
                into,
                b"phase of ",
                *rev,
                b" needs --force",
            ),
            Outcome::Memory => into.extend_from_slice(b"out of memory"),
            Outcome::InTheWay(path) => push_words(into, b"file in the way ", path.bytes()),
            Outcome::UnknownPath => into.extend_from_slice(b"unknown path"),
            Outcome::Unsettled { .. } => into.extend_from_slice(b"transaction not settled"),
            Outcome::CopyOver(path) => push_words(into, b"copy over ", path.as_slice()),
        }
    }

    // The line that says what the command came to.
    fn push_line(&self, command: &Command, into: &mut Vec<u8>) -> Result<(), AllocError>
        ensures { OnOk result (into.new.items ≡ into.old.items ++ outcome_text command.now self.now) }
    {
        match self {
            Outcome::Done { rev, node } => push_done(into, command, *rev, node)?,
            _ => {
                into.extend_from_slice(b"abort: ")?;
                self.push_refusal(into)?;
            }
        }
        into.push(b'\n')?;
        Ok(())
    }
}

impl Answer {
    /// The exit status of a command with this answer.
    pub fn status(&self) -> u8
        ensures { result ≡ status_of self.now.outcome }
    {
        self.outcome.status()
    }

    /// Adds the text of the answer to a command. Where there is no memory, a front of it may be added. Nothing is allocated but what
    /// `into` lacks of room.
    pub fn push(&self, command: &Command, into: &mut Vec<u8>) -> Result<(), AllocError>
        ensures { OnOk result (into.new.items ≡ into.old.items ++ answer_text command.now self.now) }
    {
        self.outcome.push_line(command, into)?;
        if !self.swept {
            return into.extend_from_slice(b"leftover files remain\n");
        }
        Ok(())
    }

    /// Adds the text of the answer to a command. Where there is no memory, nothing is added.
    pub fn print(
        &self,
        alloc: Global,
        command: &Command,
        into: &mut Vec<u8>,
    ) -> Result<(), AllocError>
        ensures ok { OnOk result (into.new.items ≡ into.old.items ++ answer_text command.now self.now) }
        ensures err { OnErr result (into.new.items ≡ into.old.items) }
    {
        let mut text = Vec::new(alloc);
        self.push(command, &mut text)?;
        into.extend_from_slice(&text)
    }
}
