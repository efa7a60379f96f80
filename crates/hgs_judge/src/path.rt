//! What is found of one path, of the files of its filelog and what the changesets say of it alone.
ghost use Rattle.std.specs.Prelude.{◌<◌, ◌^◌, List, ℕ, length, IfOk, IfErr, OnOk};
ghost use Rattle.hgs_judge.specs.Path.{IsJudged};
ghost use Rattle.hgs_judge.specs.Read.{IsRead, IsRefused, KeepsLimits};
ghost use Rattle.hgs_judge.specs.Words.{words_in};

use crate::kinds::{Kinds, judge};
use crate::reading::{Reading, read};
use crate::words::{Heard, Word};
use hgs_revlog::fault::RevFault;
use std::alloc::{AllocError, Global};

/// What is found of a path.
#[derive(Drop)]
pub struct PathFindings {
    /// How many revisions its filelog has before the first fault.
    pub count: u32,
    /// Whether there is a fault.
    pub broken: bool,
    /// What is wrong with each revision.
    pub kinds: Vec<Kinds>,
    /// Whether bytes stand behind the last whole entry of the index, and behind the last chunk of the data.
    pub index_rest: bool,
    pub data_rest: bool,
    /// For each changeset, whether its list of changed files is wrong at the path.
    pub listed_wrongly: Vec<bool>,
    /// For each changeset, whether the filelog lacks the revision that its tree has there.
    pub lacking: Vec<bool>,
}

// What is found of a filelog that was read.
fn judge_reading(
    alloc: Global,
    index: &[u8],
    data_bytes: &[u8],
    reading: &Reading,
    words: &[Word],
) -> Result<PathFindings, AllocError>
    requires few { length words.now < 2 ^ 32 }
    requires read { IsRead index.now data_bytes.now reading.now.log.entries reading.now.broken }
    ensures { IfOk result (λ f. (path : List ℕ) → IsJudged index.now data_bytes.now (words_in path words.now) f) }
{
    let Heard {
        namings,
        listed_wrongly,
        lacking,
    } = reading.hear(alloc, data_bytes, words)?;
    let parents = reading.parents(alloc)?;
    let links = reading.links(alloc)?;
    Ok(PathFindings {
        count: reading.log.len(),
        broken: reading.broken,
        kinds: judge(alloc, &parents, &links, &namings)?,
        index_rest: reading.has_index_rest(index),
        data_rest: reading.has_data_rest(data_bytes),
        listed_wrongly,
        lacking,
    })
}

/// What is found of a path, of the index and the data of its filelog and of what each changeset says of it, in their order.
///
/// It is refused where the index passes a limit, and for want of memory. The time is that of reading and hashing the texts
/// once, of reading two of them again where a changeset names another revision than its parent, and of up to two walks along the
/// filelog for each merge of two revisions.
pub fn judge_path(
    alloc: Global,
    index: &[u8],
    data_bytes: &[u8],
    words: &[Word],
) -> Result<PathFindings, RevFault>
    requires { length words.now < 2 ^ 32 }
    ensures ok { IfOk result (λ f. (path : List ℕ) → IsJudged index.now data_bytes.now (words_in path words.now) f) }
    ensures err { IfErr result (λ fault. IsRefused index.now fault) }
    ensures limits { OnOk result (KeepsLimits index.now) }
{
    let reading = read(alloc, index, data_bytes)?;
    match judge_reading(alloc, index, data_bytes, &reading, words) {
        Ok(findings) => Ok(findings),
        Err(_) => Err(RevFault::Memory),
    }
}
