//! Files in memory, with the log of what was done on them.
ghost use Rattle.std.specs.Prelude.{◌≡◌, ◌<◌, ◌≤◌, List, [], ◌∷◌, ◌++◌, take, IfOk, IfErr, IfSome, OnOk, OnErr, Some, None};
ghost use Rattle.hgs_files.specs.declared.op.Op.{Op};
ghost use Rattle.hgs_files.specs.Tree.{after_all};
ghost use Rattle.hgs_files.specs.Reads.{IsSizeOf, ReadsPart, greatest};
ghost use Rattle.hgs_files.specs.Log.{IsDone, append_of_rest};
ghost use Rattle.hgs_files.specs.Files.{GoesOn};
ghost use Rattle.hgs_mem.specs.Mem.{tree_of};
ghost use Rattle.hgs_mem.specs.Pieces.{AreSmall, create_of_front};

use crate::contents::Map;
use crate::{contents, ops};
use hgs_bytes::parts;
use hgs_files::op::Op;
use hgs_files::path::StorePath;
use std::alloc::{AllocError, Global};
use std::snapshot::Snapshot;

/// Files with their log. What they began as stands in proofs alone.
#[derive(Drop)]
pub struct LoggedFiles {
    pub alloc: Global,
    pub files: Map,
    pub first: Snapshot<Map>,
    pub log: Vec<Op>,
    pub piece: usize,
    ghost kept: { tree_of files ≡ after_all log.items (tree_of first.value) },
    ghost some_piece: { 0 < piece },
}

impl LoggedFiles {
    /// Files that begin as these, with nothing done yet. Takes no memory.
    pub fn from_map(alloc: Global, files: Map) -> LoggedFiles
        ensures log { result.log.items ≡ [] }
        ensures tree { tree_of result.files ≡ tree_of files }
        ensures start { tree_of result.first.value ≡ tree_of files }
        ensures piece { result.piece ≡ greatest }
    {
        LoggedFiles {
            alloc,
            first: Snapshot::of(&files),
            files,
            log: Vec::new(alloc),
            piece: usize::MAX,
        }
    }

    /// The files as they stand, with nothing done yet. Takes no memory.
    pub fn restart(self) -> LoggedFiles
        ensures log { result.log.items ≡ [] }
        ensures start { tree_of result.first.value ≡ after_all self.log.items (tree_of self.first.value) }
        ensures piece { result.piece ≡ greatest }
    {
        LoggedFiles::from_map(self.alloc, self.files)
    }

    /// Sets the most bytes in one piece of an append.
    pub fn set_piece(&mut self, piece: usize)
        requires { 0 < piece }
        ensures piece { self.new.piece ≡ piece }
        ensures log { self.new.log.items ≡ self.old.log.items }
        ensures start { tree_of self.new.first.value ≡ tree_of self.old.first.value }
    {
        self.piece = piece;
    }

    /// The length of a file.
    pub fn size_of(&self, path: &StorePath) -> Option<u64>
        ensures { IsSizeOf (after_all self.now.log.items (tree_of self.now.first.value) path.now) result }
    {
        contents::size_of(&self.files, path)
    }

    /// Adds to `into` the part of a file from a place, at most so many bytes of it, and answers how many.
    pub fn read_at(
        &self,
        path: &StorePath,
        from: u64,
        most: u64,
        into: &mut Vec<u8>,
    ) -> Result<Option<u64>, AllocError>
        ensures ok { IfOk result (λ part. ReadsPart (after_all self.now.log.items (tree_of self.now.first.value) path.now) from most into.old.items into.new.items part) }
        ensures same { IfOk result (λ part. part ≡ None → into.new.items ≡ into.old.items) }
        ensures most { IfOk result (λ part. IfSome part (λ k. k ≤ most)) }
        ensures err { OnErr result (into.new.items ≡ into.old.items) }
    {
        contents::read_at(&self.files, path, from, most, into)
    }

    /// Does an operation, or changes nothing.
    fn add(&mut self, op: Op) -> Result<(), AllocError>
        ensures ok { OnOk result (self.new.log.items ≡ self.old.log.items ++ op ∷ []) }
        ensures err { OnErr result (self.new.log.items ≡ self.old.log.items) }
        ensures start { tree_of self.new.first.value ≡ tree_of self.old.first.value }
        ensures piece { self.new.piece ≡ self.old.piece }
    {
        contents::do_one(self.alloc, &mut self.files, &mut self.log, op)
    }

    /// Goes on to what these files are after these operations, or does nothing and gives them back.
    pub fn go_on(&mut self, files: Map, ops: Vec<Op>) -> Result<(), Vec<Op>>
        requires { tree_of files ≡ after_all ops.items (after_all self.old.log.items (tree_of self.old.first.value)) }
        ensures ok { OnOk result (self.new.log.items ≡ self.old.log.items ++ ops.items) }
        ensures err { IfErr result (λ given. (given.items ≡ ops.items) × (self.new.log.items ≡ self.old.log.items)) }
        ensures start { tree_of self.new.first.value ≡ tree_of self.old.first.value }
        ensures piece { self.new.piece ≡ self.old.piece }
    {
        let mut ops = ops;
        if self.log.reserve(ops.len()).is_err() {
            return Err(ops);
        }
        match self.log.append(&mut ops) {
            Ok(()) => {
                self.files = files;
                Ok(())
            }
            Err(_) => unreachable!(),
        }
    }

    /// Appends in pieces.
    pub fn append(&mut self, path: &StorePath, bytes: &[u8]) -> Result<(), AllocError>
        ensures done { OnOk result (GoesOn (Some self.old.log.items) (Some self.new.log.items) (λ done. IsDone (Op.Append path.now bytes.now ∷ []) done [])) }
        ensures small { OnOk result (GoesOn (Some self.old.log.items) (Some self.new.log.items) (λ done. AreSmall self.old.piece done)) }
        ensures err { OnErr result (self.new.log.items ≡ self.old.log.items) }
        ensures start { tree_of self.new.first.value ≡ tree_of self.old.first.value }
        ensures piece { self.new.piece ≡ self.old.piece }
    {
        contents::append(
            self.alloc,
            &mut self.files,
            &mut self.log,
            path,
            bytes,
            self.piece,
        )
    }

    /// Appends the first bytes, at most so many, or does nothing where there are none.
    pub fn append_front(
        &mut self,
        path: &StorePath,
        bytes: &[u8],
        count: u64,
    ) -> Result<(), AllocError>
        ensures front { OnOk result (GoesOn (Some self.old.log.items) (Some self.new.log.items) (λ done. IsDone (append_of_rest path.now (take count bytes.now)) done [])) }
        ensures part { OnOk result (GoesOn (Some self.old.log.items) (Some self.new.log.items) (λ done. (left : List Op) × IsDone (Op.Append path.now bytes.now ∷ []) done left)) }
        ensures small { OnOk result (GoesOn (Some self.old.log.items) (Some self.new.log.items) (λ done. AreSmall self.old.piece done)) }
        ensures some { OnErr result (append_of_rest path.now (take count bytes.now) ≡ [] → ⊥) }
        ensures err { OnErr result (self.new.log.items ≡ self.old.log.items) }
        ensures start { tree_of self.new.first.value ≡ tree_of self.old.first.value }
        ensures piece { self.new.piece ≡ self.old.piece }
    {
        let part = parts::front(bytes, count as usize);
        if part.is_empty() {
            return Ok(());
        }
        self.append(path, part)
    }

    /// Makes or replaces a file.
    pub fn create(&mut self, path: &StorePath, bytes: &[u8]) -> Result<(), AllocError>
        ensures ok { OnOk result (self.new.log.items ≡ self.old.log.items ++ Op.Create path.now bytes.now ∷ []) }
        ensures err { OnErr result (self.new.log.items ≡ self.old.log.items) }
        ensures start { tree_of self.new.first.value ≡ tree_of self.old.first.value }
        ensures piece { self.new.piece ≡ self.old.piece }
    {
        self.add(ops::create(self.alloc, path, bytes)?)
    }

    /// Makes or replaces a file with the first bytes, at most so many, or does nothing where there are none.
    pub fn create_front(
        &mut self,
        path: &StorePath,
        bytes: &[u8],
        count: u64,
    ) -> Result<(), AllocError>
        ensures front { OnOk result (self.new.log.items ≡ self.old.log.items ++ create_of_front path.now (take count bytes.now)) }
        ensures part { OnOk result (GoesOn (Some self.old.log.items) (Some self.new.log.items) (λ done. (left : List Op) × IsDone (Op.Create path.now bytes.now ∷ []) done left)) }
        ensures some { OnErr result (create_of_front path.now (take count bytes.now) ≡ [] → ⊥) }
        ensures err { OnErr result (self.new.log.items ≡ self.old.log.items) }
        ensures start { tree_of self.new.first.value ≡ tree_of self.old.first.value }
        ensures piece { self.new.piece ≡ self.old.piece }
    {
        let part = parts::front(bytes, count as usize);
        if part.is_empty() {
            return Ok(());
        }
        self.create(path, part)
    }

    /// Shortens a file that is longer.
    pub fn cut(&mut self, path: &StorePath, len: u64) -> Result<(), AllocError>
        ensures ok { OnOk result (self.new.log.items ≡ self.old.log.items ++ Op.Cut path.now len ∷ []) }
        ensures err { OnErr result (self.new.log.items ≡ self.old.log.items) }
        ensures start { tree_of self.new.first.value ≡ tree_of self.old.first.value }
        ensures piece { self.new.piece ≡ self.old.piece }
    {
        self.add(ops::cut(self.alloc, path, len)?)
    }

    /// Gives a file another name.
    pub fn rename(&mut self, from: &StorePath, to: &StorePath) -> Result<(), AllocError>
        ensures ok { OnOk result (self.new.log.items ≡ self.old.log.items ++ Op.Rename from.now to.now ∷ []) }
        ensures err { OnErr result (self.new.log.items ≡ self.old.log.items) }
        ensures start { tree_of self.new.first.value ≡ tree_of self.old.first.value }
        ensures piece { self.new.piece ≡ self.old.piece }
    {
        self.add(ops::rename(self.alloc, from, to)?)
    }

    /// Takes a file away.
    pub fn remove(&mut self, path: &StorePath) -> Result<(), AllocError>
        ensures ok { OnOk result (self.new.log.items ≡ self.old.log.items ++ Op.Remove path.now ∷ []) }
        ensures err { OnErr result (self.new.log.items ≡ self.old.log.items) }
        ensures start { tree_of self.new.first.value ≡ tree_of self.old.first.value }
        ensures piece { self.new.piece ≡ self.old.piece }
    {
        self.add(ops::remove(self.alloc, path)?)
    }

    /// Notes that the bytes of a file are to last.
    pub fn sync(&mut self, path: &StorePath) -> Result<(), AllocError>
        ensures ok { OnOk result (self.new.log.items ≡ self.old.log.items ++ Op.Sync path.now ∷ []) }
        ensures err { OnErr result (self.new.log.items ≡ self.old.log.items) }
        ensures start { tree_of self.new.first.value ≡ tree_of self.old.first.value }
        ensures piece { self.new.piece ≡ self.old.piece }
    {
        self.add(ops::sync(self.alloc, path)?)
    }

    /// Notes that the names are to last.
    pub fn settle(&mut self) -> Result<(), AllocError>
        ensures ok { OnOk result (self.new.log.items ≡ self.old.log.items ++ Op.Settle ∷ []) }
        ensures err { OnErr result (self.new.log.items ≡ self.old.log.items) }
        ensures start { tree_of self.new.first.value ≡ tree_of self.old.first.value }
        ensures piece { self.new.piece ≡ self.old.piece }
    {
        self.add(Op::Settle)
    }
}
