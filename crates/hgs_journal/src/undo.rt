//! The operations that undo an open transaction.
ghost use Rattle.std.specs.Prelude.{◌≡◌, ◌++◌, length, map, reverse, IfOk, OnOk};
ghost use Rattle.std.specs.List.{All};
ghost use Rattle.hgs_journal.specs.Texts.{HasPath, IsBackupLine};
ghost use Rattle.hgs_journal.specs.Undo.{undo_backup, undo_backups, undo_line, undo_list};

use crate::backups::{BackupLine, Backups};
use crate::journal::{Journal, JournalLine};
use crate::names::{new_name, path_of};
use hgs_bytes::bytes::Bytes;
use hgs_files::op::Op;
use std::alloc::{AllocError, Global};

/// The operation that undoes the appends to a file.
fn undo_line(alloc: Global, line: &JournalLine) -> Result<Op, AllocError>
    requires { HasPath line.now }
    ensures { IfOk result (λ op. op ≡ undo_line line.now) }
{
    let path = path_of(alloc, false, line.name.as_slice())?;
    if line.offset == 0 {
        return Ok(Op::Remove { path });
    }
    Ok(Op::Cut {
        path,
        len: line.offset,
    })
}

/// Adds the operations that undo the appends, from the last file to the first.
fn add_lines(alloc: Global, lines: &[JournalLine], ops: &mut Vec<Op>) -> Result<(), AllocError>
    requires { All HasPath lines.now }
    ensures { OnOk result (ops.new.items ≡ ops.old.items ++ map undo_line (reverse lines.now)) }
{
    for line in lines.iter().rev() {
        ops.push(undo_line(alloc, line)?)?;
    }
    Ok(())
}

/// Adds the operations that give a file its bytes before, or take it away where there were none.
fn add_backup(
    alloc: Global,
    line: &BackupLine,
    kept: &[u8],
    ops: &mut Vec<Op>,
) -> Result<(), AllocError>
    requires { IsBackupLine line.now }
    ensures { OnOk result (ops.new.items ≡ ops.old.items ++ undo_backup line.now kept.now) }
{
    let file = path_of(alloc, line.plain, line.file.as_slice())?;
    if line.backup.is_empty() {
        ops.push(Op::Remove { path: file })?;
        return Ok(());
    }
    let new = new_name(alloc, line.file.as_slice())?;
    let path = path_of(alloc, line.plain, &new)?;
    let from = path.copy(alloc)?;
    let bytes = Bytes::from_slice(alloc, kept)?;
    ops.push(Op::Create { path, bytes })?;
    ops.push(Op::Rename { from, to: file })?;
    Ok(())
}

/// Adds the operations that give the replaced files their bytes before.
fn add_backups(
    alloc: Global,
    lines: &[BackupLine],
    kept: &[Bytes],
    ops: &mut Vec<Op>,
) -> Result<(), AllocError>
    requires each { All IsBackupLine lines.now }
    requires kept { length kept.now ≡ length lines.now }
    ensures { OnOk result (ops.new.items ≡ ops.old.items ++ undo_backups lines.now kept.now) }
{
    for i in 0..lines.len() {
        add_backup(alloc, &lines[i], kept[i].as_slice(), ops)?;
    }
    Ok(())
}

/// The operations that undo a transaction, in their order: each file of the journal, from the last to the first, gets its
/// length before, or is removed where that is 0; each file of the list of backups gets its bytes before, or is removed
/// where it was absent; at the end the journal is removed. So the list may be begun again wherever it was stopped.
///
/// `kept` has the bytes of the backup of each line, none where there is no backup. The time is linear.
pub fn undo_plan(
    alloc: Global,
    journal: &Journal,
    backups: &Backups,
    kept: &[Bytes],
) -> Result<Vec<Op>, AllocError>
    requires journal { All HasPath journal.now.lines }
    requires backups { All IsBackupLine backups.now.lines }
    requires kept { length kept.now ≡ length backups.now.lines }
    ensures { IfOk result (λ ops. ops.items ≡ undo_list journal.now.lines backups.now.lines kept.now) }
{
    let mut ops = Vec::new(alloc);
    add_lines(alloc, journal.lines.as_slice(), &mut ops)?;
    add_backups(alloc, backups.lines.as_slice(), kept, &mut ops)?;
    let path = path_of(alloc, false, b"journal")?;
    ops.push(Op::Remove { path })?;
    Ok(ops)
}
