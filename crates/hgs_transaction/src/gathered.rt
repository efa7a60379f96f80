// What changes ask for, gathered one after another.
ghost use Rattle.std.specs.Prelude.{◌≡◌, ◌∷◌, [], map, if◌then◌else◌, is_some, IfOk, OnOk};
ghost use Rattle.std.specs.List.{All, AllByRecursion};
ghost use Rattle.hgs_journal.specs.Names.{backup_name, new_name, place};
ghost use Rattle.hgs_journal.specs.Texts.{HasPath};
ghost use Rattle.hgs_ops.specs.Operations.{new_changelog_path};
ghost use Rattle.hgs_stands.specs.Places.{changelog_index};
ghost use Rattle.hgs_transaction.specs.Gathered.{Adds, IsEmpty};
ghost use Rattle.hgs_transaction.specs.Parts.{IsInStore, backup_of, file_name, is_plain};
ghost use Rattle.hgs_transaction.specs.declared.parts.Change.TheVariants.{Append, MakeIndex, RenameIndex, Replace};

use crate::parts::{Appending, Change, ReplacedFile, Replacing};
use hgs_bytes::bytes::Bytes;
use hgs_bytes::parts::past;
use hgs_files::op::Op;
use hgs_files::path::StorePath;
use hgs_journal::backups::BackupLine;
use hgs_journal::journal::JournalLine;
use hgs_journal::names::{backup_name, new_name, path_of};
use std::alloc::{AllocError, Global};

/// What is gathered of changes.
#[derive(Drop)]
pub struct Gathered {
    /// A line for each file that is appended to, and for the changelog's index where a new one takes its place.
    pub journal: Vec<JournalLine>,
    /// A line for each file that is replaced.
    pub backups: Vec<BackupLine>,
    /// The bytes that stand of each file that is replaced, none where it is absent.
    pub kept: Vec<Bytes>,
    /// The creation of each new text.
    pub texts: Vec<Op>,
    /// The changes themselves.
    pub ops: Vec<Op>,
}

/// The name of a file's backup, none where it is absent.
fn backup_from(alloc: Global, file: &[u8], stands: bool) -> Result<Bytes, AllocError>
    ensures { IfOk result (λ name. name ≡ (if stands then backup_name file.now else [])) }
{
    if !stands {
        return Ok(Bytes::new(alloc));
    }
    Ok(Bytes::from_vec(backup_name(alloc, file)?))
}

/// The line of the list of backups for a file that is replaced.
fn backup_line(alloc: Global, replacing: &Replacing) -> Result<BackupLine, AllocError>
    ensures { IfOk result (λ line. line ≡ backup_of replacing.now) }
{
    let name = replacing.file.name();
    let file = Bytes::from_slice(alloc, name)?;
    let backup = backup_from(alloc, name, replacing.standing.is_some())?;
    Ok(BackupLine {
        plain: replacing.file.is_plain(),
        file,
        backup,
    })
}

/// The journal's line of a file of this name in the store.
fn journal_line(alloc: Global, name: &[u8], before: u64) -> Result<JournalLine, AllocError>
    ensures { IfOk result (λ line. line ≡ record { name = name.now; offset = before }) }
{
    Ok(JournalLine {
        name: Bytes::from_slice(alloc, name)?,
        offset: before,
    })
}

/// The path of a file.
fn path_from(alloc: Global, file: ReplacedFile) -> Result<StorePath, AllocError>
    ensures { IfOk result (λ path. path ≡ place (is_plain file) (file_name file)) }
{
    path_of(alloc, file.is_plain(), file.name())
}

/// The path of the changelog's new index, from which it is renamed to the index.
fn new_index_path(alloc: Global) -> Result<StorePath, AllocError>
    ensures { IfOk result (λ path. path ≡ new_changelog_path) }
{
    path_of(alloc, false, b"00changelog.i.a")
}

/// The path of the changelog's index.
fn index_path(alloc: Global) -> Result<StorePath, AllocError>
    ensures { IfOk result (λ path. path ≡ changelog_index) }
{
    path_of(alloc, false, b"00changelog.i")
}

/// The path of a file's new text, from which it is renamed to the file.
fn new_path(alloc: Global, file: ReplacedFile) -> Result<StorePath, AllocError>
    ensures { IfOk result (λ path. path ≡ place (is_plain file) (new_name (file_name file))) }
{
    path_of(alloc, file.is_plain(), &new_name(alloc, file.name())?)
}

impl Gathered {
    /// Nothing. Takes no memory.
    pub fn new(alloc: Global) -> Self
        ensures { IsEmpty result }
    {
        Gathered {
            journal: Vec::new(alloc),
            backups: Vec::new(alloc),
            kept: Vec::new(alloc),
            texts: Vec::new(alloc),
            ops: Vec::new(alloc),
        }
    }

    /// Adds an append, whose bytes it takes over.
    fn append(&mut self, alloc: Global, appending: Appending) -> Result<(), AllocError>
        requires in_store { IsInStore (Append appending) }
        requires paths { All HasPath self.now.journal.items }
        ensures adds { OnOk result (Adds self.old self.new (Append appending ∷ [])) }
        ensures paths { OnOk result (All HasPath self.new.journal.items) }
    {
        let Appending {
            path,
            before,
            bytes,
        } = appending;
        let line = journal_line(alloc, past(path.bytes(), 6), before)?;
        self.journal.push(line)?;
        self.ops.push(Op::Append { path, bytes })?;
        Ok(())
    }

    /// Adds a file that is replaced, whose texts it takes over.
    fn replace(&mut self, alloc: Global, replacing: Replacing) -> Result<(), AllocError>
        ensures adds { OnOk result (Adds self.old self.new (Replace replacing ∷ [])) }
        ensures journal { self.new.journal.items ≡ self.old.journal.items }
    {
        let line = backup_line(alloc, &replacing)?;
        self.backups.push(line)?;
        let Replacing {
            file,
            text,
            standing,
        } = replacing;
        self.kept.push(standing.unwrap_or(Bytes::new(alloc)))?;
        let path = new_path(alloc, file)?;
        let from = path.copy(alloc)?;
        let to = path_from(alloc, file)?;
        self.texts.push(Op::Create { path, bytes: text })?;
        self.ops.push(Op::Rename { from, to })?;
        Ok(())
    }

    /// Adds the making of a new index, whose bytes it takes over.
    fn make_index(&mut self, alloc: Global, bytes: Bytes) -> Result<(), AllocError>
        ensures adds { OnOk result (Adds self.old self.new (MakeIndex bytes ∷ [])) }
        ensures journal { self.new.journal.items ≡ self.old.journal.items }
    {
        let path = new_index_path(alloc)?;
        self.ops.push(Op::Create { path, bytes })?;
        Ok(())
    }

    /// Adds the rename of the new index to the old one, which had this length.
    fn rename_index(&mut self, alloc: Global, before: u64) -> Result<(), AllocError>
        requires { All HasPath self.now.journal.items }
        ensures adds { OnOk result (Adds self.old self.new (RenameIndex before ∷ [])) }
        ensures paths { OnOk result (All HasPath self.new.journal.items) }
    {
        self.journal
            .push(journal_line(alloc, b"00changelog.i", before)?)?;
        let from = new_index_path(alloc)?;
        let to = index_path(alloc)?;
        self.ops.push(Op::Rename { from, to })?;
        Ok(())
    }

    /// Adds a change.
    pub fn add(&mut self, alloc: Global, change: Change) -> Result<(), AllocError>
        requires in_store { IsInStore change }
        requires paths { All HasPath self.now.journal.items }
        ensures adds { OnOk result (Adds self.old self.new (change ∷ [])) }
        ensures paths { OnOk result (All HasPath self.new.journal.items) }
    {
        match change {
            Change::Append(appending) => self.append(alloc, appending),
            Change::Replace(replacing) => self.replace(alloc, replacing),
            Change::MakeIndex(bytes) => self.make_index(alloc, bytes),
            Change::RenameIndex(before) => self.rename_index(alloc, before),
        }
    }

    /// Adds changes, in their order.
    #[tactic(auto, using(crate::proofs::GatherLemmas::adds_none))]
    pub fn add_all(&mut self, alloc: Global, changes: Vec<Change>) -> Result<(), AllocError>
        requires in_store { AllByRecursion IsInStore changes.items }
        requires paths { All HasPath self.now.journal.items }
        ensures adds { OnOk result (Adds self.old self.new changes.items) }
        ensures paths { OnOk result (All HasPath self.new.journal.items) }
    {
        for change in changes {
            self.add(alloc, change)?;
        }
        Ok(())
    }

    /// Adds files that are replaced, in their order.
    #[tactic(auto, using(crate::proofs::GatherLemmas::adds_none))]
    pub fn replace_all(&mut self, alloc: Global, files: Vec<Replacing>) -> Result<(), AllocError>
        ensures { OnOk result (Adds self.old self.new (map (λ x. Replace x) files.items)) }
    {
        for replacing in files {
            self.replace(alloc, replacing)?;
        }
        Ok(())
    }
}
