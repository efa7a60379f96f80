// The operations of a transaction that are no changes: those that make its own files, and those that remove them.
ghost use Rattle.std.specs.Prelude.{◌≡◌, ◌++◌, ◌∷◌, [], length, map, true, OnOk};
ghost use Rattle.std.specs.List.{All};
ghost use Rattle.hgs_files.specs.declared.op.Op.{Op};
ghost use Rattle.hgs_files.specs.Path.{is_store_path};
ghost use Rattle.hgs_journal.specs.Names.{backups_path, journal_path, new_journal_path};
ghost use Rattle.hgs_journal.specs.Texts.{IsBackupLine, backups_text, journal_text};
ghost use Rattle.hgs_ops.specs.Operations.{removals, strays};
ghost use Rattle.hgs_transaction.specs.Gathered.{backup_puts, put_with};

use hgs_bytes::bytes::Bytes;
use hgs_files::op::Op;
use hgs_journal::backups::{BackupLine, Backups};
use hgs_journal::journal::Journal;
use hgs_journal::names::path_of;
use std::alloc::{AllocError, Global};

/// Adds the backup of a line, where its file stands.
fn add_backup(
    alloc: Global,
    line: &BackupLine,
    bytes: Bytes,
    ops: &mut Vec<Op>,
) -> Result<(), AllocError>
    requires { IsBackupLine line.now }
    ensures { OnOk result (ops.new.items ≡ ops.old.items ++ put_with line.now line.now.backup bytes) }
{
    if line.backup.is_empty() {
        return Ok(());
    }
    let path = path_of(alloc, line.plain, line.backup.as_slice())?;
    ops.push(Op::Create { path, bytes })?;
    Ok(())
}

/// Adds the backups of lines, whose bytes these are.
pub fn add_backups(
    alloc: Global,
    lines: &[BackupLine],
    kept: Vec<Bytes>,
    ops: &mut Vec<Op>,
) -> Result<(), AllocError>
    requires each { All IsBackupLine lines.now }
    requires kept { length kept.items ≡ length lines.now }
    ensures { OnOk result (ops.new.items ≡ ops.old.items ++ backup_puts lines.now kept.items) }
{
    let mut place = 0;
    for bytes in kept {
        add_backup(alloc, &lines[place], bytes, ops)?;
        place += 1;
    }
    Ok(())
}

/// Adds the creation of the list of backups.
pub fn add_list(alloc: Global, backups: &Backups, ops: &mut Vec<Op>) -> Result<(), AllocError>
    ensures { OnOk result (ops.new.items ≡ ops.old.items ++ Op.Create backups_path (backups_text backups.now.lines) ∷ []) }
{
    let mut text = Vec::new(alloc);
    backups.print(&mut text)?;
    let path = path_of(alloc, false, b"journal.backupfiles")?;
    let bytes = Bytes::from_vec(text);
    ops.push(Op::Create { path, bytes })?;
    Ok(())
}

/// Adds the creation of the journal's text, under the name that it has first.
pub fn add_journal(alloc: Global, journal: &Journal, ops: &mut Vec<Op>) -> Result<(), AllocError>
    ensures { OnOk result (ops.new.items ≡ ops.old.items ++ Op.Create new_journal_path (journal_text journal.now.lines) ∷ []) }
{
    let mut text = Vec::new(alloc);
    journal.print(&mut text)?;
    let path = path_of(alloc, false, b"journal.new.journal")?;
    let bytes = Bytes::from_vec(text);
    ops.push(Op::Create { path, bytes })?;
    Ok(())
}

/// Adds the rename that gives the journal its name, so that it appears whole.
pub fn name_journal(alloc: Global, ops: &mut Vec<Op>) -> Result<(), AllocError>
    ensures { OnOk result (ops.new.items ≡ ops.old.items ++ Op.Rename new_journal_path journal_path ∷ []) }
{
    let from = path_of(alloc, false, b"journal.new.journal")?;
    let to = path_of(alloc, false, b"journal")?;
    ops.push(Op::Rename { from, to })?;
    Ok(())
}

/// Adds operations at the end.
pub fn extend(more: Vec<Op>, ops: &mut Vec<Op>) -> Result<(), AllocError>
    ensures { OnOk result (ops.new.items ≡ ops.old.items ++ more.items) }
{
    for op in more {
        ops.push(op)?;
    }
    Ok(())
}

/// Adds the removal of a file.
fn add_removal(alloc: Global, name: &[u8], ops: &mut Vec<Op>) -> Result<(), AllocError>
    requires { is_store_path name.now ≡ true }
    ensures { OnOk result (ops.new.items ≡ ops.old.items ++ Op.Remove name.now ∷ []) }
{
    let path = path_of(alloc, true, name)?;
    ops.push(Op::Remove { path })?;
    Ok(())
}

/// Adds the removals of what means nothing without the journal.
fn add_stray_removals(alloc: Global, ops: &mut Vec<Op>) -> Result<(), AllocError>
    ensures { OnOk result (ops.new.items ≡ ops.old.items ++ map (λ path. Op.Remove path) strays) }
{
    add_removal(alloc, b"store/journal.backupfiles", ops)?;
    add_removal(alloc, b"store/journal.backup.phaseroots", ops)?;
    add_removal(alloc, b"store/journal.new.phaseroots", ops)?;
    add_removal(alloc, b"journal.backup.dirstate", ops)?;
    add_removal(alloc, b"journal.new.dirstate", ops)?;
    add_removal(alloc, b"journal.backup.bookmarks", ops)?;
    add_removal(alloc, b"journal.new.bookmarks", ops)?;
    add_removal(alloc, b"journal.new.requires", ops)?;
    add_removal(alloc, b"store/00changelog.i.a", ops)?;
    add_removal(alloc, b"store/journal.new.journal", ops)?;
    Ok(())
}

/// Adds the removals at the end: of the journal, of what means nothing without it, and of the locks.
pub fn add_removals(alloc: Global, ops: &mut Vec<Op>) -> Result<(), AllocError>
    ensures { OnOk result (ops.new.items ≡ ops.old.items ++ Op.Remove journal_path ∷ removals) }
{
    add_removal(alloc, b"store/journal", ops)?;
    add_stray_removals(alloc, ops)?;
    add_removal(alloc, b"store/lock", ops)?;
    add_removal(alloc, b"wlock", ops)?;
    Ok(())
}
