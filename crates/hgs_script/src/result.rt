//! What came of a session, and its text.
ghost use Rattle.std.specs.Prelude.{◌≡◌, ◌++◌, ◌<◌, length, decimal, flat_map, OnOk, IfOk};
ghost use Rattle.hgs_script.specs.Result.{published_line, unsure_text, answer_text, answers_text, replies_text, result_text};

use hgs_bytes::bytes::Bytes;
use hgs_index::node::Node;
use hgs_index::texts::hex_of;
use hgs_plan::print::push_number;
use std::alloc::{AllocError, Global};
use std::marker::Model;

/// A job that published a transaction, and the changeset that it answered.
#[derive(Debug, Drop)]
pub struct PublishedJob {
    pub worker: u32,
    pub job: u32,
    pub rev: u32,
    pub node: Node,
}

/// Jobs that published, in the order in which they did.
#[derive(Debug, Drop)]
pub struct PublishedJobs {
    items: Vec<PublishedJob>,
}

impl Model for PublishedJobs {
    ghost use Rattle.std.specs.Prelude.{List};
    ghost use Rattle.hgs_script.specs.declared.result.PublishedJob.{PublishedJob};

    ghost Value = { List PublishedJob };

    ghost view = { λ b. b.items.items };
}

impl PublishedJobs {
    /// The jobs of a vector, which it takes over without memory.
    pub fn from_vec(items: Vec<PublishedJob>) -> Self
        ensures { result ≡ items.items }
    {
        PublishedJobs { items }
    }

    pub fn as_slice(&self) -> &[PublishedJob]
        ensures { result.now ≡ self.now }
    {
        self.items.as_slice()
    }
}

/// The status of a job, and the text that its command would have written.
#[derive(Debug, Drop)]
pub struct Answered {
    pub status: u8,
    pub text: Bytes,
}

/// The answers to the jobs of a worker, in order.
#[derive(Debug, Drop)]
pub struct Answers {
    items: Vec<Answered>,
}

impl Model for Answers {
    ghost use Rattle.std.specs.Prelude.{List};
    ghost use Rattle.hgs_script.specs.declared.result.Answered.{Answered};

    ghost Value = { List Answered };

    ghost view = { λ b. b.items.items };
}

impl Answers {
    /// The answers of a vector, which it takes over without memory.
    pub fn from_vec(items: Vec<Answered>) -> Self
        ensures { result ≡ items.items }
    {
        Answers { items }
    }

    pub fn as_slice(&self) -> &[Answered]
        ensures { result.now ≡ self.now }
    {
        self.items.as_slice()
    }
}

/// The answers of each worker, whose numbers go from 0.
#[derive(Debug, Drop)]
pub struct Replies {
    items: Vec<Answers>,
}

impl Model for Replies {
    ghost use Rattle.std.specs.Prelude.{List};
    ghost use Rattle.hgs_script.specs.declared.result.Answered.{Answered};

    ghost Value = { List (List Answered) };

    ghost view = { λ b. b.items.items };
}

impl Replies {
    /// The answers of a vector, which it takes over without memory.
    pub fn from_vec(items: Vec<Answers>) -> Self
        ensures { result ≡ items.items }
    {
        Replies { items }
    }

    pub fn as_slice(&self) -> &[Answers]
        ensures { result.now ≡ self.now }
    {
        self.items.as_slice()
    }
}

/// What came of a session.
#[derive(Debug, Drop)]
pub struct SessionResult {
    pub published: PublishedJobs,
    /// The worker and the number of the job of which it is not known whether it published.
    pub unsure: Option<(u32, u32)>,
    pub replies: Replies,
}

// Words, and a number behind them.
fn push_words_number(into: &mut Vec<u8>, words: &[u8], number: u64) -> Result<(), AllocError>
    ensures { OnOk result (into.new.items ≡ into.old.items ++ (words.now ++ decimal number)) }
{
    into.extend_from_slice(words)?;
    push_number(into, number)
}

fn push_published(into: &mut Vec<u8>, entry: &PublishedJob) -> Result<(), AllocError>
    ensures { OnOk result (into.new.items ≡ into.old.items ++ published_line entry.now) }
{
    push_words_number(into, b"published ", entry.worker as u64)?;
    push_words_number(into, b" ", entry.job as u64)?;
    push_words_number(into, b" ", entry.rev as u64)?;
    into.push(b':')?;
    into.extend_from_slice(hex_of(&entry.node).as_slice())?;
    into.push(b'\n')?;
    Ok(())
}

fn push_all_published(into: &mut Vec<u8>, entries: &[PublishedJob]) -> Result<(), AllocError>
    ensures { OnOk result (into.new.items ≡ into.old.items ++ flat_map published_line entries.now) }
{
    for entry in entries {
        push_published(into, entry)?;
    }
    Ok(())
}

fn push_unsure(into: &mut Vec<u8>, unsure: &Option<(u32, u32)>) -> Result<(), AllocError>
    ensures { OnOk result (into.new.items ≡ into.old.items ++ unsure_text unsure.now) }
{
    let Some((worker, job)) = unsure else {
        return Ok(());
    };
    push_words_number(into, b"unsure ", *worker as u64)?;
    push_words_number(into, b" ", *job as u64)?;
    into.push(b'\n')?;
    Ok(())
}

fn push_answer(
    into: &mut Vec<u8>,
    worker: usize,
    job: usize,
    answered: &Answered,
) -> Result<(), AllocError>
    ensures { OnOk result (into.new.items ≡ into.old.items ++ answer_text worker job answered.now) }
{
    push_words_number(into, b"worker ", worker as u64)?;
    push_words_number(into, b" job ", job as u64)?;
    push_words_number(into, b" status ", answered.status as u64)?;
    push_words_number(into, b" length ", answered.text.len() as u64)?;
    into.push(b'\n')?;
    into.extend_from_slice(answered.text.as_slice())?;
    into.push(b'\n')?;
    Ok(())
}

fn push_answers(into: &mut Vec<u8>, worker: usize, answers: &[Answered]) -> Result<(), AllocError>
    ensures { OnOk result (into.new.items ≡ into.old.items ++ answers_text worker 0 answers.now) }
{
    for job in 0..answers.len() {
        push_answer(into, worker, job, &answers[job])?;
    }
    Ok(())
}

fn push_replies(into: &mut Vec<u8>, replies: &[Answers]) -> Result<(), AllocError>
    ensures { OnOk result (into.new.items ≡ into.old.items ++ replies_text 0 replies.now) }
{
    for worker in 0..replies.len() {
        push_answers(into, worker, replies[worker].as_slice())?;
    }
    Ok(())
}

impl SessionResult {
    /// The text of the result: a line for each job that published, one for the job of which that is not known, and then for each
    /// job, worker after worker, a line with its status and the length of its text, and that text with an LF behind it.
    pub fn text(&self, alloc: Global) -> Result<Vec<u8>, AllocError>
        ensures { IfOk result (λ text. text.items ≡ result_text self.now) }
    {
        let mut text = Vec::new(alloc);
        push_all_published(&mut text, self.published.as_slice())?;
        push_unsure(&mut text, &self.unsure)?;
        push_replies(&mut text, self.replies.as_slice())?;
        Ok(text)
    }
}
