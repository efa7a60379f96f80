//! Puts a transaction together.
ghost use Rattle.std.specs.Prelude.{◌≡◌, ◌+◌, ◌<◌, ◌≤◌, ◌^◌, ◌-◌, length, true, IfOk};
ghost use Rattle.std.specs.List.{All, list_all};
ghost use Rattle.hgs_journal.specs.Texts.{HasPath, IsBackupLine};
ghost use Rattle.hgs_transaction.specs.Assembled.{IsPlanOf};
ghost use Rattle.hgs_transaction.specs.Gathered.{Holds, IsPlanFrom};
ghost use Rattle.hgs_transaction.specs.Parts.{all_changes, is_in_store};

use crate::gathered::Gathered;
use crate::parts::Parts;
use crate::puts::{add_backups, add_journal, add_list, add_removals, extend, name_journal};
use hgs_files::op::Op;
use hgs_journal::backups::{BackupLines, Backups};
use hgs_journal::journal::{Journal, JournalLines};
use hgs_journal::undo::undo_plan;
use std::alloc::{AllocError, Global};

/// The operations of a transaction behind the making of its locks.
#[derive(Debug, Drop)]
pub struct Plan {
    /// All operations, in their order: the backups of the files that stand, the new texts, the list of backups, the journal's
    /// text, the rename that gives it its name, the changes before the publishing operation, that operation, the renames behind it, the removal of the journal, and
    /// the removals of what means nothing without it and of the locks.
    pub ops: Vec<Op>,
    /// The operations that undo it, by the bytes that its writer has; the removals behind them are not among these.
    pub undo: Vec<Op>,
    /// The place of the journal's rename in `ops`.
    pub journal: u32,
    /// The place of the publishing operation in `ops`.
    pub publish: u32,
    /// The place of the journal's removal in `ops`.
    pub commit: u32,
    /// The length before of the file that the publishing operation appends to, 0 where it is a rename.
    pub before: u64,
}

/// The plan of what was gathered, published behind so many changes, by an append to a file of so many bytes or by a rename.
fn plan_of(
    alloc: Global,
    gathered: Gathered,
    published: usize,
    before: u64,
) -> Result<Plan, AllocError>
    requires paths { All HasPath gathered.journal.items }
    requires backups { All IsBackupLine gathered.backups.items }
    requires kept { length gathered.kept.items ≡ length gathered.backups.items }
    requires few { length gathered.kept.items + length gathered.texts.items + length gathered.ops.items < 2 ^ 32 - 2 ^ 29 }
    requires published { published ≤ length gathered.ops.items }
    ensures { IfOk result (λ plan. IsPlanFrom gathered published before plan) }
{
    let Gathered {
        journal,
        backups,
        kept,
        texts,
        ops: changes,
    } = gathered;
    let journal_lines = JournalLines::from_vec(journal);
    let journal = Journal {
        lines: journal_lines,
    };
    let backup_lines = BackupLines::from_vec(backups);
    let backups = Backups {
        lines: backup_lines,
    };
    // The bytes that stand go to the backups and to the undo list: this copies them, and the backups take them over.
    let undo = undo_plan(alloc, &journal, &backups, &kept)?;
    let mut ops = Vec::new(alloc);
    add_backups(alloc, backups.lines.as_slice(), kept, &mut ops)?;
    extend(texts, &mut ops)?;
    add_list(alloc, &backups, &mut ops)?;
    add_journal(alloc, &journal, &mut ops)?;
    let journal_place = ops.len() as u32;
    name_journal(alloc, &mut ops)?;
    let publish = (ops.len() + published) as u32;
    extend(changes, &mut ops)?;
    let commit = ops.len() as u32;
    add_removals(alloc, &mut ops)?;
    Ok(Plan {
        ops,
        undo,
        journal: journal_place,
        publish,
        commit,
        before,
    })
}

/// What all changes of the parts ask for.
fn gather(alloc: Global, parts: Parts) -> Result<Gathered, AllocError>
    requires before { list_all is_in_store parts.before ≡ true }
    requires publishing { is_in_store parts.publishing ≡ true }
    ensures holds { IfOk result (λ gathered. Holds gathered (all_changes parts)) }
    ensures paths { IfOk result (λ gathered. All HasPath gathered.journal.items) }
{
    let Parts {
        before,
        publishing,
        after,
    } = parts;
    let mut gathered = Gathered::new(alloc);
    gathered.add_all(alloc, before.into_vec())?;
    gathered.add(alloc, publishing)?;
    gathered.replace_all(alloc, after.into_vec())?;
    Ok(gathered)
}

/// The operations of a transaction and those that undo it, put together of its parts, whose bytes they take over. Only the
/// bytes of replaced files that stand are copied, once: the backups need them and the undo list too. The time is linear.
///
/// The number of changes is bounded since their places are. A path outside the store has no line in a journal.
pub fn assemble(alloc: Global, parts: Parts) -> Result<Plan, AllocError>
    requires before { list_all is_in_store parts.before ≡ true }
    requires publishing { is_in_store parts.publishing ≡ true }
    requires few { length parts.before + length parts.after < 2 ^ 30 }
    ensures { IfOk result (λ plan. IsPlanOf parts plan) }
{
    let published = parts.before.len();
    let before = parts.publishing.length_before();
    let gathered = gather(alloc, parts)?;
    plan_of(alloc, gathered, published, before)
}
