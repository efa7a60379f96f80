//! The lines that events write.
ghost use Rattle.std.specs.Prelude.{◌≡◌, ◌++◌, IfOk, OnOk};
ghost use Rattle.hgs_world.specs.Texts.{answer_line, begun_line, changeset_text, loaded_line, number_line, recovered_line, word_line};

use crate::seen::NoMemory;
use hgs_answers::answer::Answer;
use hgs_index::node::Node;
use hgs_index::texts::hex_of;
use hgs_machine::ended::{Ended, Short};
use hgs_plan::print::push_number;
use hgs_recover::answer::Recovered;
use hgs_writer::answers::of_ended;
use std::alloc::{AllocError, Global};

/// A line of these words.
pub fn word_line(alloc: Global, words: &[u8]) -> Result<Vec<u8>, NoMemory>
    ensures { IfOk result (λ line. line.items ≡ word_line words.now) }
{
    let mut line = Vec::from_slice(alloc, words)?;
    line.push(b'\n')?;
    Ok(line)
}

// Words, a number behind them, and the LF.
fn number_line(alloc: Global, words: &[u8], number: u64) -> Result<Vec<u8>, AllocError>
    ensures { IfOk result (λ line. line.items ≡ number_line words.now number) }
{
    let mut line = Vec::from_slice(alloc, words)?;
    push_number(&mut line, number)?;
    line.push(b'\n')?;
    Ok(line)
}

/// How many changesets a load found.
pub fn loaded_line(alloc: Global, count: u32) -> Result<Vec<u8>, NoMemory>
    ensures { IfOk result (λ line. line.items ≡ loaded_line count) }
{
    let line = number_line(alloc, b"loaded ", count as u64)?;
    Ok(line)
}

/// How a writer was refused.
pub fn refused_line(alloc: Global, answer: &Answer) -> Result<Vec<u8>, NoMemory>
    ensures { IfOk result (λ line. line.items ≡ begun_line answer.now.outcome) }
{
    let line = number_line(alloc, b"begin ", answer.status() as u64)?;
    Ok(line)
}

/// What recovering came to.
pub fn recovered_line(alloc: Global, recovered: &Recovered) -> Result<Vec<u8>, NoMemory>
    ensures { IfOk result (λ line. line.items ≡ recovered_line recovered.now.outcome) }
{
    let line = number_line(alloc, b"recover ", recovered.status() as u64)?;
    Ok(line)
}

// The changeset of a transaction that was done, behind a space.
fn push_changeset(
    line: &mut Vec<u8>,
    outcome: Short,
    rev: u32,
    node: &Node,
) -> Result<(), AllocError>
    ensures { OnOk result (line.new.items ≡ line.old.items ++ changeset_text outcome rev node.now) }
{
    match outcome {
        Short::Done => {
            line.push(b' ')?;
            push_number(line, rev as u64)?;
            line.push(b':')?;
            line.extend_from_slice(hex_of(node).as_slice())
        }
        _ => Ok(()),
    }
}

/// What a writer answers whose transaction ended so.
pub fn answer_line(alloc: Global, ended: Ended, rev: u32, node: &Node) -> Result<Vec<u8>, NoMemory>
    ensures { IfOk result (λ line. line.items ≡ answer_line ended.outcome rev node.now) }
{
    let mut line = Vec::from_slice(alloc, b"answer ")?;
    let status = of_ended(ended.outcome, rev, *node).status();
    push_number(&mut line, status as u64)?;
    push_changeset(&mut line, ended.outcome, rev, node)?;
    line.push(b'\n')?;
    Ok(line)
}
